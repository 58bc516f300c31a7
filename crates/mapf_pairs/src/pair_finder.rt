//! The least sum of costs of two agents' paths without a conflict.
use crate::joint_states::{JointStates, Mover};
use crate::pair_task::PairTask;
use crate::rounds::Round;
use crate::single_steps::SingleSteps;
use mapf_model::{Cell, Grid, OutOfMemory, Path};
use std::alloc::Global;

/// What is known of the sum of two agents' costs.
#[derive(Debug, Drop)]
pub struct PairFound {
    /// No two paths without a conflict that obey the constraints have a smaller sum, in ticks. The greatest number if
    /// there are no such paths.
    pub bound: u32,
    /// Two paths of that sum without a conflict. None if there are none, or if the cap was met first.
    pub paths: Option<(Path, Path)>,
    /// How many joint states were kept.
    pub states: usize,
}

/// The memory in which two agents' paths are found. It serves one pair after another.
#[derive(Drop)]
pub struct PairFinder {
    pub(crate) first: SingleSteps,
    pub(crate) second: SingleSteps,
    pub(crate) joints: JointStates,
}

impl PairFinder {
    /// Returns memory for agents on this grid.
    pub fn of(alloc: Global, grid: &Grid) -> Result<PairFinder, OutOfMemory> {
        // So much does for paths straight across the grid. More is asked for when it is needed.
        let ticks = (grid.width() as usize).saturating_add(grid.height() as usize);
        let room = ticks.saturating_mul(4);
        Ok(PairFinder {
            first: SingleSteps::of(alloc, room)?,
            second: SingleSteps::of(alloc, room)?,
            joints: JointStates::of(alloc, room)?,
        })
    }

    /// Finds two paths without a conflict that have the least sum of costs, or a lower bound of it if there are more than
    /// `cap` joint states. Both agents may be at their starts, which differ.
    pub fn least_sum(
        &mut self,
        alloc: Global,
        task: &PairTask,
        cap: usize,
    ) -> Result<PairFound, OutOfMemory> {
        let least = task.first.cost.saturating_add(task.second.cost);
        let mut bound = u32::MAX;
        let mut paths = None;
        for value in self.begin(task)?..u32::MAX {
            match self.round(alloc, task, value, cap)? {
                Round::Arrived(place) => {
                    bound = value;
                    paths = Some(self.paths(alloc, place)?);
                    break;
                }
                Round::Capped => {
                    bound = value.max(least);
                    break;
                }
                Round::Over => {
                    if self.joints.is_done() {
                        break;
                    }
                }
            }
        }
        Ok(PairFound {
            bound,
            paths,
            states: self.joints.count(),
        })
    }

    /// Begins with both agents at their starts. Returns the value of this joint state.
    pub(crate) fn begin(&mut self, task: &PairTask) -> Result<u32, OutOfMemory> {
        let first = self.first.begin(&task.first);
        let second = self.second.begin(&task.second);
        let value = first.saturating_add(second);
        let (first, second) = (task.first.agent.start, task.second.agent.start);
        self.joints.begin(first, second, value)?;
        Ok(value)
    }

    // Returns the paths to the joint state at this place.
    fn paths(&self, alloc: Global, place: u32) -> Result<(Path, Path), OutOfMemory> {
        let first = self.joints.trace(alloc, place, Mover::First)?;
        let second = self.joints.trace(alloc, place, Mover::Second)?;
        Ok((tight_path(first)?, tight_path(second)?))
    }
}

// Returns the path of these cells, without waits in the end.
fn tight_path(cells: Vec<Cell>) -> Result<Path, OutOfMemory> {
    let mut cells = cells;
    for _ in 0..cells.len() {
        match cells.as_slice() {
            [.., before, last] if before == last => {
                cells.pop();
            }
            _ => break,
        }
    }
    // A longer path than there may be doesn't fit into memory either.
    Path::of(cells).ok_or(OutOfMemory)
}
