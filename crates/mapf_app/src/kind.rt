//! The answer of the run of `solve`, without the plan and the tree. The line and the exit status of `solve` follow from
//! it.
use mapf_model::Cause;

/// The answer of a solving run.
#[derive(Clone, Copy, Debug, PartialEq, Eq)]
pub enum Kind {
    /// An optimal plan, with this sum of costs in ticks.
    Found(u64),
    /// No plan is valid.
    Impossible,
    /// The search reached this limit, and no valid plan has a sum of costs below this bound, in ticks.
    Limit { cause: Cause, bound: u64 },
    /// The second search reached a limit with a valid plan of this sum of costs, and no valid plan has one below the
    /// bound, which is smaller, both in ticks.
    Within { bound: u64, cost: u64 },
}
