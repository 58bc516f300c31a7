//! PIBT: priority inheritance with backtracking (Okumura et al. 2022). It moves all agents by one tick.
use crate::configuration::Visited;
use crate::occupants::Occupants;
use crate::priority::Priority;
use crate::task::Task;
use crate::turn::{Progress, RankedStep, Turn, hash_of};
use mapf_model::{Cell, OutOfMemory, Tick};
use smallvec::SmallVec;
use std::alloc::Global;

// At most so many times an agent's turn is looked at: once for each of its steps, and twice at the end.
const LOOKS: usize = 8;

/// The memory in which successors of configurations are made.
#[derive(Drop)]
pub struct Pibt<'a> {
    alloc: Global,
    pub task: Task<'a>,
    tick: Tick,
    // Where each agent is, and where it goes next, if that is known.
    pub here: Vec<Cell>,
    pub next: Vec<Option<Cell>>,
    // The same by cell.
    pub occupants: Occupants,
    claims: Occupants,
    // Those that choose where they go, each pushed by the one before.
    turns: Vec<Turn>,
}

impl<'a> Pibt<'a> {
    /// Returns the memory for a task.
    pub fn of(alloc: Global, task: Task<'a>) -> Result<Pibt<'a>, OutOfMemory> {
        let grid = task.problem.grid();
        let cells = (grid.width() * grid.height()) as usize;
        let agents = task.agents().len();
        Ok(Pibt {
            alloc,
            task,
            tick: 0,
            here: vec![in alloc; Cell(0); agents]?,
            next: vec![in alloc; None; agents]?,
            occupants: Occupants::of(alloc, cells)?,
            claims: Occupants::of(alloc, cells)?,
            turns: Vec::new(alloc),
        })
    }

    /// Returns the configuration one tick after this one in which the agents go where a constraint and its parents say,
    /// and all others by their priorities. None if some of these agents collide, or another one finds no step.
    pub fn successor(
        &mut self,
        cells: &[Cell],
        visited: &Visited,
        constraint: usize,
    ) -> Result<Option<Vec<Cell>>, OutOfMemory> {
        self.clear();
        self.begin(cells, visited.tick);
        if !self.obey(visited, constraint) || !self.move_all(&visited.order)? {
            return Ok(None);
        }
        self.next_cells()
    }

    // Returns where all agents go. None if that isn't known of one.
    fn next_cells(&self) -> Result<Option<Vec<Cell>>, OutOfMemory> {
        let mut cells = Vec::with_capacity(self.alloc, self.next.len())?;
        for place in &self.next {
            let Some(cell) = *place else {
                return Ok(None);
            };
            cells.push(cell)?;
        }
        Ok(Some(cells))
    }

    // Takes all agents off the grid.
    fn clear(&mut self) {
        for &cell in &self.here {
            self.occupants.remove(cell);
        }
        self.clear_claims();
        self.turns.clear();
    }

    // Forgets where the agents go.
    fn clear_claims(&mut self) {
        for place in &self.next {
            if let Some(cell) = *place {
                self.claims.remove(cell);
            }
        }
        self.next.fill(None);
    }

    // Puts all agents where they are at a tick.
    fn begin(&mut self, cells: &[Cell], tick: Tick) {
        self.tick = tick;
        for (agent, (&cell, entry)) in cells.iter().zip(self.here.iter_mut()).enumerate() {
            *entry = cell;
            self.occupants.put(cell, agent);
        }
    }

    // Has the agents go where a constraint and its parents say. Returns whether none of them collide.
    fn obey(&mut self, visited: &Visited, constraint: usize) -> bool {
        let mut place = constraint;
        for _ in 0..visited.order.len() {
            let Some(at) = visited.constraints.get(place) else {
                return false;
            };
            if at.depth == 0 {
                break;
            }
            let Some(priority) = visited.order.get(at.depth.saturating_sub(1)) else {
                return false;
            };
            if !self.may_go(priority.agent, at.cell) {
                return false;
            }
            self.claim(priority.agent, at.cell);
            place = at.parent;
        }
        true
    }

    // Moves those whose next cell isn't known. Returns whether each has got one.
    fn move_all(&mut self, order: &[Priority]) -> Result<bool, OutOfMemory> {
        for priority in order {
            if self.is_free_to_go(priority.agent) && !self.move_one(priority.agent)? {
                return Ok(false);
            }
        }
        Ok(true)
    }

    // Moves an agent, and those that it pushes away. Returns whether it has got a step, else it stays where it is.
    fn move_one(&mut self, agent: usize) -> Result<bool, OutOfMemory> {
        self.push(agent)?;
        let mut progress = Progress::Open;
        // Nobody has two turns, since all that had one have a next cell.
        for _ in 0..self.here.len().saturating_mul(LOOKS) {
            let Some(turn) = self.turns.pop() else {
                break;
            };
            progress = if progress == Progress::Settled {
                self.settle(&turn)
            } else {
                self.choose(turn)?
            };
        }
        Ok(progress == Progress::Settled)
    }

    // Has an agent take the next best step, or stay if none is left.
    fn choose(&mut self, mut turn: Turn) -> Result<Progress, OutOfMemory> {
        let Some(cell) = self.next_step(&mut turn) else {
            self.claim(turn.agent, turn.here);
            return Ok(Progress::Stuck);
        };
        self.claim(turn.agent, cell);
        match self.occupants.get(cell) {
            Some(other) if self.is_free_to_go(other) => {
                self.turns.push(turn)?;
                self.push(other)?;
                Ok(Progress::Open)
            }
            _ => Ok(self.settle(&turn)),
        }
    }

    // Leaves an agent its step. Its partner follows it, if it has one and got its best step.
    fn settle(&mut self, turn: &Turn) -> Progress {
        match turn.partner {
            Some(partner) if turn.tried == 1 => self.pull(partner, turn.here),
            _ => {}
        }
        Progress::Settled
    }

    // Has an agent go to the cell that another one leaves, if both are free.
    fn pull(&mut self, agent: usize, cell: Cell) {
        if self.is_free_to_go(agent) && self.claims.get(cell).is_none() {
            self.claim(agent, cell);
        }
    }

    // Returns the best step of a turn that wasn't tried and is free.
    fn next_step(&self, turn: &mut Turn) -> Option<Cell> {
        for place in turn.tried..turn.steps.len() {
            turn.tried = place.saturating_add(1);
            if let Some(&cell) = turn.steps.as_slice().get(place) {
                if self.may_go(turn.agent, cell) {
                    return Some(cell);
                }
            }
        }
        None
    }

    // Begins the turn of an agent.
    fn push(&mut self, agent: usize) -> Result<(), OutOfMemory> {
        let Some(&here) = self.here.get(agent) else {
            return Ok(());
        };
        let mut ranked = self.ranked_steps(agent, here)?;
        ranked.as_mut_slice().sort_unstable();
        let partner = match ranked.as_slice().first() {
            Some(best) => self.partner(agent, here, best.cell),
            None => None,
        };
        let mut steps = SmallVec::new(self.alloc);
        for step in ranked.as_slice() {
            steps.push(step.cell)?;
        }
        if partner.is_some() {
            steps.as_mut_slice().reverse();
        }
        self.turns.push(Turn {
            agent,
            here,
            steps,
            tried: 0,
            partner,
        })?;
        Ok(())
    }

    fn ranked_steps(
        &self,
        agent: usize,
        here: Cell,
    ) -> Result<SmallVec<RankedStep, 5>, OutOfMemory> {
        let mut ranked = SmallVec::new(self.alloc);
        for &cell in self.steps(here).as_slice() {
            ranked.push(RankedStep {
                distance: self.task.distance(agent, cell),
                is_occupied: self.occupants.get(cell).is_some(),
                hash: hash_of(cell, agent, self.tick, self.task.attempt),
                cell,
            })?;
        }
        Ok(ranked)
    }

    /// Returns where an agent may be one tick after it is in the cell.
    pub fn steps(&self, cell: Cell) -> SmallVec<Cell, 5> {
        self.task.steps(self.alloc, cell)
    }

    /// Returns whether it isn't known yet where the agent goes.
    pub fn is_free_to_go(&self, agent: usize) -> bool {
        matches!(self.next.get(agent), Some(None))
    }

    // Returns whether the agent may go to the cell: nobody else goes there, and whoever is there doesn't come here.
    fn may_go(&self, agent: usize, cell: Cell) -> bool {
        if self.claims.get(cell).is_some() {
            return false;
        }
        match self.occupants.get(cell) {
            Some(other) if other != agent => {
                self.next.get(other).copied().flatten() != self.here.get(agent).copied()
            }
            _ => true,
        }
    }

    // Has the agent go to the cell.
    fn claim(&mut self, agent: usize, cell: Cell) {
        self.claims.put(cell, agent);
        if let Some(entry) = self.next.get_mut(agent) {
            *entry = Some(cell);
        }
    }
}
