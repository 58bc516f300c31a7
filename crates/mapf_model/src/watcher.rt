//! Who is told how far a search is while it goes on. The program tells its user on a terminal.

/// Somebody who watches a search.
pub trait Watcher {
    /// Takes note of how many splits were made, of the sum of costs of the node that was split last, in ticks, and of
    /// how many nodes are open. If the search is right, no valid plan has a smaller sum. A type that doesn't say
    /// otherwise takes no note.
    fn note(&mut self, _splits: u32, _bound: u64, _open: usize) {}

    /// Takes note of the sum of costs, in ticks, of a plan that is known before the search begins. If the plan is valid,
    /// an optimal one costs no more. A type that doesn't say otherwise takes no note.
    fn note_plan(&mut self, _cost: u64) {}
}

/// Nobody watches.
#[derive(Clone, Copy, Debug)]
pub struct Unwatched;

impl Watcher for Unwatched {}
