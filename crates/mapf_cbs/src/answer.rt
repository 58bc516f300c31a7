//! The result of a search with the items of its tree, for tests: the calls `solve` and `solve_plain` return it. The
//! program takes an `Outcome`.
use mapf_model::{Cause, Item, Plan};

/// The result of a search, with the items of its constraint tree in pre-order.
#[derive(Debug, Drop)]
pub enum Answer {
    /// An optimal plan, and a tree that shows that no valid plan is cheaper.
    Found {
        plan: Plan,
        tree: Vec<Item>,
    },
    /// No plan is valid, and the tree shows it.
    Impossible {
        tree: Vec<Item>,
    },
    /// The search stopped at its limit, at a leaf of the tree whose paths conflict. The tree shows that no valid plan
    /// has a sum of costs below the bound, in ticks, and shows no greater bound.
    Limit {
        cause: Cause,
        bound: u64,
        tree: Vec<Item>,
    },
}
