//! The joint cells in which two agents can be at any tick, if they have no conflict.
use mapf_distance::Distances;
use mapf_lemmas::JointCell;
use mapf_model::{Agent, Cell, Grid, OutOfMemory};
use std::alloc::Global;
use std::cmp::Reverse;
use std::collections::{BinaryHeap, HashSet};

/// Two agents on a grid.
#[derive(Drop)]
pub struct JointTask<'t> {
    pub grid: &'t Grid,
    pub agents: (Agent, Agent),
    /// The distances to their goals.
    pub distances: (&'t Distances, &'t Distances),
}

/// A joint cell that is to be left, of the least sum of distances first, so that both goals are soon found.
#[derive(Clone, Copy, Debug, PartialEq, Eq, PartialOrd, Ord)]
struct OpenCell {
    distance: u32,
    first: Cell,
    second: Cell,
}

/// Joint cells, and those of them that are still to be left.
#[derive(Drop)]
pub struct JointCells {
    cells: HashSet<(Cell, Cell)>,
    list: Vec<(Cell, Cell)>,
    open: BinaryHeap<Reverse<OpenCell>>,
}

impl JointCells {
    /// Returns the joint cells that lead from both starts to no others, in rising order. None if both goals are among
    /// them, or there are more than `most`.
    pub fn closed(
        alloc: Global,
        task: &JointTask,
        most: usize,
    ) -> Result<Option<Vec<JointCell>>, OutOfMemory> {
        let mut joint = JointCells {
            cells: HashSet::new(alloc),
            list: Vec::new(alloc),
            open: BinaryHeap::new(alloc),
        };
        let (first, second) = task.agents;
        joint.add(task, first.start, second.start)?;
        for _ in 0..=most {
            let Some(Reverse(open)) = joint.open.pop() else {
                return Ok(Some(joint.sorted(alloc)?));
            };
            if (open.first, open.second) == (first.goal, second.goal) || joint.list.len() > most {
                return Ok(None);
            }
            joint.leave(alloc, task, open.first, open.second)?;
        }
        Ok(None)
    }

    // Adds the joint cells to which the agents come by a step each.
    fn leave(
        &mut self,
        alloc: Global,
        task: &JointTask,
        first: Cell,
        second: Cell,
    ) -> Result<(), OutOfMemory> {
        if !task.grid.is_free(first) || !task.grid.is_free(second) {
            return Ok(());
        }
        let others = task.grid.steps(alloc, second);
        let steps = task.grid.steps(alloc, first);
        for &to in steps.as_slice() {
            self.leave_to(task, (first, second), to, others.as_slice())?;
        }
        Ok(())
    }

    // Adds the joint cells to which the first agent comes by a step to this cell, and the second one by one of these.
    fn leave_to(
        &mut self,
        task: &JointTask,
        (first, second): (Cell, Cell),
        to: Cell,
        others: &[Cell],
    ) -> Result<(), OutOfMemory> {
        for &other in others {
            if to != other && !(to == second && other == first) {
                self.add(task, to, other)?;
            }
        }
        Ok(())
    }

    // Adds a joint cell that is to be left, unless it is there.
    fn add(&mut self, task: &JointTask, first: Cell, second: Cell) -> Result<(), OutOfMemory> {
        if !self.cells.insert((first, second))? {
            return Ok(());
        }
        self.list.push((first, second))?;
        let (to_first, to_second) = task.distances;
        let distance = to_first
            .get(first)
            .unwrap_or(0)
            .saturating_add(to_second.get(second).unwrap_or(0));
        self.open.push(Reverse(OpenCell {
            distance,
            first,
            second,
        }))?;
        Ok(())
    }

    // Returns all joint cells in rising order.
    fn sorted(&self, alloc: Global) -> Result<Vec<JointCell>, OutOfMemory> {
        let mut list = Vec::from_slice(alloc, &self.list)?;
        list.sort_unstable();
        let mut cells = Vec::with_capacity(alloc, list.len())?;
        for (first, second) in list {
            cells.push(JointCell { first, second })?;
        }
        Ok(cells)
    }
}
