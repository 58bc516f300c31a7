//! A configuration that was met: how the search came there, and what it may still try there.
use crate::constraint_tree::ConstraintTree;
use crate::priority::Priority;
use mapf_model::{OutOfMemory, Tick};
use std::alloc::Global;

/// What a search knows of a configuration, besides the agents' cells.
#[derive(Debug, Drop)]
pub struct Visited {
    /// The number of the configuration before it, of the first one its own.
    pub before: usize,
    /// How many configurations lead here.
    pub tick: Tick,
    /// All agents, those of the highest priority first.
    pub order: Vec<Priority>,
    pub constraints: ConstraintTree,
}

impl Visited {
    /// Returns a configuration that was just met.
    pub fn of(
        alloc: Global,
        before: usize,
        tick: Tick,
        order: Vec<Priority>,
    ) -> Result<Visited, OutOfMemory> {
        Ok(Visited {
            before,
            tick,
            order,
            constraints: ConstraintTree::of(alloc)?,
        })
    }
}
