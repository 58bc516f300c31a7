//! The memory that a search for one agent leaves to the next. The search over trees keeps it.
use crate::frontier::Frontier;
use crate::sweep::Sweep;
use std::alloc::Global;

/// The memory of a search, which the next search can reuse. Its contents have no meaning between searches, which may be
/// of different grids and agents.
#[derive(Drop)]
pub struct Workspace {
    pub(crate) sweep: Sweep,
    pub(crate) frontier: Frontier,
}

impl Workspace {
    /// Returns a workspace without memory yet.
    pub fn new(alloc: Global) -> Workspace {
        Workspace {
            sweep: Sweep::new(alloc),
            frontier: Frontier::new(alloc),
        }
    }
}
