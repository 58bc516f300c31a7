//! The swap operation (Okumura 2023): which two agents in a corridor have to change places, and whether they can.
//!
//! The one agent pushes the other along the corridor, up to a cell with two ways on. There they change places, if they
//! need to, and the one that was pushed comes back behind the other. So the agent that is to be pushed goes ahead, away
//! from its goal, and pulls the other one.
use crate::pibt::Pibt;
use mapf_model::Cell;

/// Two agents beside each other, one of which pushes the other.
#[derive(Clone, Copy, Debug)]
struct Push {
    pusher: usize,
    pushed: usize,
}

/// What lies before an agent that is pushed.
#[derive(Clone, Copy, Debug, PartialEq, Eq)]
enum Onward {
    /// Nothing that is free.
    DeadEnd,
    /// This cell, so the two go on.
    Corridor(Cell),
    /// Several cells, so the two can change places.
    Junction,
}

impl<'a> Pibt<'a> {
    /// Returns the agent that this one has to change places with, if it can. It is here, and its best step is this one.
    pub fn partner(&self, agent: usize, here: Cell, best: Cell) -> Option<usize> {
        if best == here {
            return None;
        }
        let ahead = self.partner_ahead(agent, here, best);
        if ahead.is_some() {
            return ahead;
        }
        self.partner_behind(agent, here, best)
    }

    // Returns whoever is where the agent wants to go, if the two have to change places.
    fn partner_ahead(&self, agent: usize, here: Cell, best: Cell) -> Option<usize> {
        let other = self.occupants.get(best)?;
        if other == agent || !self.is_free_to_go(other) {
            return None;
        }
        let push = Push {
            pusher: agent,
            pushed: other,
        };
        if self.has_to_swap(push, here, best) {
            return Some(other);
        }
        None
    }

    // Returns an agent beside this one that has to change places with it, once this one has taken its best step.
    fn partner_behind(&self, agent: usize, here: Cell, best: Cell) -> Option<usize> {
        for &beside in self.steps(here).as_slice() {
            if beside == here || beside == best {
                continue;
            }
            let Some(other) = self.occupants.get(beside) else {
                continue;
            };
            let push = Push {
                pusher: other,
                pushed: agent,
            };
            if self.has_to_swap(push, here, best) {
                return Some(other);
            }
        }
        None
    }

    // Returns whether two agents have to change places, and can. The agent that is pushed is ahead.
    fn has_to_swap(&self, push: Push, behind: Cell, ahead: Cell) -> bool {
        self.is_required(push, behind, ahead) && self.is_possible(ahead, behind)
    }

    // Returns whether two agents have to change places: the one that pushes gets nearer to its goal until there is a
    // junction or a dead end, or it is there, and the other one would have to come back.
    fn is_required(&self, push: Push, behind: Cell, ahead: Cell) -> bool {
        let (mut behind, mut ahead) = (behind, ahead);
        for _ in 0..self.task.distance(push.pusher, behind) {
            if !self.gets_nearer(push.pusher, behind, ahead) {
                break;
            }
            match self.onward(behind, ahead) {
                Onward::Junction => return false,
                Onward::DeadEnd => break,
                Onward::Corridor(next) => {
                    behind = ahead;
                    ahead = next;
                }
            }
        }
        let is_at_goal = self.task.distance(push.pusher, behind) == 0;
        self.gets_nearer(push.pushed, ahead, behind)
            && (is_at_goal || self.gets_nearer(push.pusher, behind, ahead))
    }

    // Returns whether two agents can change places: in this direction there is a junction.
    fn is_possible(&self, origin: Cell, first: Cell) -> bool {
        let grid = self.task.problem.grid();
        let (mut behind, mut ahead) = (origin, first);
        for _ in 0..grid.width() * grid.height() {
            match self.onward(behind, ahead) {
                Onward::Junction => return true,
                Onward::DeadEnd => return false,
                Onward::Corridor(next) => {
                    behind = ahead;
                    ahead = next;
                }
            }
            // The corridor is a circle.
            if ahead == origin {
                return false;
            }
        }
        false
    }

    // Returns whether the agent gets nearer to its goal by this step.
    fn gets_nearer(&self, agent: usize, from: Cell, to: Cell) -> bool {
        self.task.distance(agent, to) < self.task.distance(agent, from)
    }

    // Returns what lies before the agent that is pushed, and is ahead. A dead end where an agent has arrived is no way on.
    fn onward(&self, behind: Cell, ahead: Cell) -> Onward {
        let mut onward = Onward::DeadEnd;
        for &cell in self.steps(ahead).as_slice() {
            if cell == ahead || cell == behind || self.is_taken_for_good(cell) {
                continue;
            }
            if onward != Onward::DeadEnd {
                return Onward::Junction;
            }
            onward = Onward::Corridor(cell);
        }
        onward
    }

    // Returns whether the cell is a dead end and the goal of the agent there.
    fn is_taken_for_good(&self, cell: Cell) -> bool {
        let Some(agent) = self.occupants.get(cell) else {
            return false;
        };
        self.task.is_goal(agent, cell) && self.steps(cell).as_slice().len() == 2
    }
}
