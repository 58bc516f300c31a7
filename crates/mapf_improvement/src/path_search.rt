//! A cheapest path of one agent between all others: safe interval path planning (Phillips and Likhachev 2011), which is
//! A* over cells and times in which nobody else is there.
use crate::labels::{Labels, Reached};
use crate::numbers::Numbers;
use crate::open_labels::OpenLabels;
use crate::stays::{FOREVER, Stays};
use mapf_distance::Distances;
use mapf_model::{Agent, Cell, Grid, OutOfMemory, Tick};
use smallvec::SmallVec;
use std::alloc::Global;

/// What a path is searched for.
#[derive(Drop)]
pub struct PathTask<'t> {
    pub grid: &'t Grid,
    /// The distances to the agent's goal.
    pub distances: &'t Distances,
    /// The stays of all other agents.
    pub stays: &'t Stays,
    pub agent: Agent,
    /// The greatest cost that the path may have.
    pub most: u32,
}

/// The memory of searches.
#[derive(Drop)]
pub struct PathSearch {
    alloc: Global,
    labels: Labels,
    open: OpenLabels,
    // The least tick from which on the goal is free for good.
    clear_from: Tick,
}

impl PathSearch {
    /// Returns the memory for a grid of so many cells.
    pub fn of(alloc: Global, cells: usize) -> Result<PathSearch, OutOfMemory> {
        Ok(PathSearch {
            alloc,
            labels: Labels::of(alloc, cells)?,
            open: OpenLabels::of(alloc),
            clear_from: 0,
        })
    }

    /// Returns a path of least cost, up to its arrival. Of several one is drawn. None if each would cost too much.
    pub fn find(
        &mut self,
        task: &PathTask,
        numbers: &mut Numbers,
    ) -> Result<Option<Vec<Cell>>, OutOfMemory> {
        if !self.begin(task)? {
            return Ok(None);
        }
        // Each turn takes an open label. A label is opened again only with an earlier arrival.
        for _ in 0..u64::MAX {
            let Some(number) = self.open.pop() else {
                break;
            };
            let Some(reached) = self.labels.look_at(number) else {
                continue;
            };
            if reached.cell == task.agent.goal && reached.end == FOREVER {
                return Ok(Some(self.labels.way_to(self.alloc, number)?));
            }
            self.expand(task, number, &reached, numbers)?;
        }
        Ok(None)
    }

    // Opens the start. Returns whether there may be a path.
    fn begin(&mut self, task: &PathTask) -> Result<bool, OutOfMemory> {
        self.labels.clear();
        let Agent { start, goal } = task.agent;
        let (Some(distance), Some(clear_from)) = (
            task.distances.get(start),
            task.stays.clear_from(goal),
        ) else {
            return Ok(false);
        };
        self.clear_from = clear_from;
        self.open.begin(distance.max(clear_from));
        let end = match task.stays.at(start).first() {
            Some(stay) => stay.from,
            None => FOREVER,
        };
        if end > 0 {
            let reached = Reached {
                cell: start,
                arrival: 0,
                end,
                before: self.labels.next_number(),
            };
            self.reach(task, &reached, distance)?;
        }
        Ok(true)
    }

    // Goes on from a state to the cells around it, in an order that is drawn. Its label has this number.
    fn expand(
        &mut self,
        task: &PathTask,
        number: u32,
        from: &Reached,
        numbers: &mut Numbers,
    ) -> Result<(), OutOfMemory> {
        let steps = steps(self.alloc, task.grid, from.cell);
        let steps = steps.as_slice();
        let begin = numbers.below(steps.len());
        let first = steps.iter().skip(begin);
        for &cell in first.chain(steps.iter().take(begin)) {
            if cell != from.cell {
                self.go_to(task, number, from, cell)?;
            }
        }
        Ok(())
    }

    // Goes on from a state to a cell beside it, at each time in which the agent may come there.
    fn go_to(
        &mut self,
        task: &PathTask,
        number: u32,
        from: &Reached,
        cell: Cell,
    ) -> Result<(), OutOfMemory> {
        let Some(distance) = task.distances.get(cell) else {
            return Ok(());
        };
        // It has to leave before somebody else comes, and to arrive in time.
        let latest = from.end.min(task.most.saturating_sub(distance));
        let earliest = from.arrival.saturating_add(1);
        if earliest > latest {
            return Ok(());
        }
        let stays = task.stays.at(cell);
        let first = stays.partition_point(|stay| stay.end <= earliest);
        let mut arrival = earliest;
        for place in first..=stays.len() {
            if arrival > latest {
                break;
            }
            let (end, next) = match stays.get(place) {
                Some(stay) => (stay.from, stay.end),
                None => (FOREVER, FOREVER),
            };
            if arrival < end && !is_swap(task, from, cell, arrival) {
                let reached = Reached {
                    cell,
                    arrival,
                    end,
                    before: number,
                };
                self.reach(task, &reached, distance)?;
            }
            arrival = next;
        }
        Ok(())
    }

    // Reaches a state, whose cell is at this distance from the goal.
    fn reach(
        &mut self,
        task: &PathTask,
        reached: &Reached,
        distance: u32,
    ) -> Result<(), OutOfMemory> {
        let arrival = reached.arrival.saturating_add(distance);
        let value = arrival.max(self.clear_from);
        if value > task.most {
            return Ok(());
        }
        if let Some(number) = self.labels.note(reached)? {
            self.open.push(value, number)?;
        }
        Ok(())
    }
}

/// Returns where an agent may be one tick after it is in the cell.
pub fn steps(alloc: Global, grid: &Grid, cell: Cell) -> SmallVec<Cell, 5> {
    if !grid.is_free(cell) {
        return SmallVec::new(alloc);
    }
    grid.steps(alloc, cell)
}

// Returns whether somebody else comes from the cell when the agent goes the other way.
fn is_swap(task: &PathTask, from: &Reached, cell: Cell, arrival: Tick) -> bool {
    if arrival != from.end {
        return false;
    }
    match task.stays.who(cell, arrival.saturating_sub(1)) {
        Some(other) => task.stays.who(from.cell, arrival) == Some(other),
        None => false,
    }
}
