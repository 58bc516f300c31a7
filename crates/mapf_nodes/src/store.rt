//! What a search has found that serves all of its trees.
use crate::groups::Groups;
use crate::pairs::Pairs;
use crate::paths::Paths;
use crate::singles::Singles;
use mapf_model::{OutOfMemory, Problem};
use std::alloc::Global;

/// The agents and pairs under their constraints, the paths and the groups of a search, each by its number. The nodes of
/// all trees hold these numbers.
#[derive(Drop)]
pub struct Store<'a> {
    pub alloc: Global,
    pub singles: Singles<'a>,
    pub pairs: Pairs<'a>,
    pub paths: Paths,
    pub groups: Groups,
}

impl<'a> Store<'a> {
    /// Returns the store of a search of this problem that has found nothing yet.
    pub fn of(alloc: Global, problem: &'a Problem) -> Result<Store<'a>, OutOfMemory> {
        Ok(Store {
            alloc,
            singles: Singles::of(alloc, problem)?,
            pairs: Pairs::of(alloc, problem.grid())?,
            paths: Paths::new(alloc),
            groups: Groups::new(alloc),
        })
    }
}
