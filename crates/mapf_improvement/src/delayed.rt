//! Groups about the agent with the greatest delay: those that stop it.
use crate::draft::Draft;
use crate::group::Group;
use crate::numbers::Numbers;
use crate::path_search::steps;
use mapf_model::{Cell, OutOfMemory, Tick};
use smallvec::SmallVec;
use std::alloc::Global;

/// Which agents were the centre of a group lately.
#[derive(Debug, Drop)]
pub struct Delayed {
    alloc: Global,
    // By agent.
    were_centre: Vec<bool>,
}

/// A walk of a delayed agent that would make it faster: where it is, and when.
#[derive(Clone, Copy, Debug)]
struct Walk {
    agent: usize,
    cell: Cell,
    tick: Tick,
    // Whether each step has to go nearer to the goal.
    is_straight: bool,
}

impl Delayed {
    /// Returns the memory for so many agents.
    pub fn of(alloc: Global, agents: usize) -> Result<Delayed, OutOfMemory> {
        Ok(Delayed {
            alloc,
            were_centre: vec![in alloc; false; agents]?,
        })
    }

    /// Takes the agent with the greatest delay that wasn't taken since all were. None if each delayed agent was.
    pub fn take_centre(&mut self, draft: &Draft) -> Option<usize> {
        let centre = self.most_delayed(draft);
        match centre {
            Some(agent) => {
                if let Some(entry) = self.were_centre.get_mut(agent) {
                    *entry = true;
                }
            }
            None => self.were_centre.fill(false),
        }
        centre
    }

    // Returns the agent with the greatest delay that wasn't taken, of several the last.
    fn most_delayed(&self, draft: &Draft) -> Option<usize> {
        let mut best = None;
        let mut greatest = 1;
        for (agent, &was_centre) in self.were_centre.iter().enumerate() {
            let delay = draft.delay(agent);
            if !was_centre && delay >= greatest {
                greatest = delay;
                best = Some(agent);
            }
        }
        best
    }

    /// Adds the centre, and agents that stop it.
    pub fn choose(
        &self,
        draft: &Draft,
        centre: usize,
        group: &mut Group,
        numbers: &mut Numbers,
    ) -> Result<(), OutOfMemory> {
        group.add(centre)?;
        add_passers(draft, centre, group)?;
        for turn in 0..group.wanted().saturating_mul(2) {
            if group.is_full() {
                break;
            }
            let walk = first_place(draft, centre, turn == 0, numbers);
            self.walk(draft, walk, group, numbers)?;
        }
        // Nobody is in its way.
        if group.agents().len() < 2 {
            group.add(numbers.below(draft.len()))?;
        }
        Ok(())
    }

    // Adds those that are met on a walk whose steps are drawn.
    fn walk(
        &self,
        draft: &Draft,
        mut walk: Walk,
        group: &mut Group,
        numbers: &mut Numbers,
    ) -> Result<(), OutOfMemory> {
        for _ in walk.tick..draft.cost(walk.agent) {
            let cells = self.faster_steps(draft, &walk)?;
            let cells = cells.as_slice();
            let Some(&cell) = cells.get(numbers.below(cells.len())) else {
                break;
            };
            add_met(draft, &walk, cell, group)?;
            if group.is_full() {
                break;
            }
            walk.cell = cell;
            walk.tick = walk.tick.saturating_add(1);
        }
        Ok(())
    }

    // Returns the steps after which the agent could still arrive earlier than it does.
    fn faster_steps(&self, draft: &Draft, walk: &Walk) -> Result<SmallVec<Cell, 5>, OutOfMemory> {
        let mut faster = SmallVec::new(self.alloc);
        let cost = draft.cost(walk.agent);
        let distance = draft.distance(walk.agent, walk.cell);
        for &cell in steps(self.alloc, draft.problem.grid(), walk.cell).as_slice() {
            let left = draft.distance(walk.agent, cell);
            let arrival = walk.tick.saturating_add(1).saturating_add(left);
            if arrival < cost && (!walk.is_straight || left < distance) {
                faster.push(cell)?;
            }
        }
        Ok(faster)
    }
}

// Adds those that are in the centre's goal after the centre could be there, the last first: it can't arrive for good
// before them.
fn add_passers(draft: &Draft, centre: usize, group: &mut Group) -> Result<(), OutOfMemory> {
    let Some(agent) = draft.agent(centre) else {
        return Ok(());
    };
    let least = draft.least(centre);
    for stay in draft.stays.at(agent.goal).iter().rev() {
        if stay.end <= least {
            break;
        }
        group.add(stay.agent)?;
    }
    Ok(())
}

// Returns where a walk begins: at the start, if it is straight, or anywhere on the agent's path.
fn first_place(draft: &Draft, agent: usize, is_straight: bool, numbers: &mut Numbers) -> Walk {
    let tick = if is_straight {
        0
    } else {
        let tick = numbers.below(draft.cost(agent) as usize);
        u32::try_from(tick).unwrap_or(0)
    };
    Walk {
        agent,
        cell: draft.cell_at(agent, tick).unwrap_or(Cell(0)),
        tick,
        is_straight,
    }
}

// Adds who is in the cell when a walk comes there, and who leaves it for the walk's cell at the same time.
fn add_met(draft: &Draft, walk: &Walk, cell: Cell, group: &mut Group) -> Result<(), OutOfMemory> {
    let next = walk.tick.saturating_add(1);
    if let Some(other) = draft.stays.who(cell, next) {
        group.add(other)?;
    }
    if let Some(other) = draft.stays.who(walk.cell, next) {
        if draft.stays.who(cell, walk.tick) == Some(other) {
            group.add(other)?;
        }
    }
    Ok(())
}
