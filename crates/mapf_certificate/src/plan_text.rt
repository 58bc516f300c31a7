//! A plan text as a value, and the errors of its bytes. The reader and the writer share these, and the runs report the
//! errors.
use crate::version::Version;
use mapf_model::{Cause, Plan};

/// The answer of a plan text.
#[derive(Debug, Drop)]
pub enum PlanAnswer {
    /// A plan. Its text gives the sum of the paths' lengths in ticks as its cost.
    Found(Plan),
    /// No plan is valid.
    Impossible,
    /// The search reached this limit, without a bound. In version 1 only.
    Limit(Cause),
    /// The search reached this limit, and no valid plan has a sum of costs below this bound, in ticks. In version 2
    /// only.
    Bounded { cause: Cause, bound: u64 },
}

/// A plan text: its version, for how many agents it is, 1 to 200, and its answer.
#[derive(Debug, Drop)]
pub struct PlanText {
    pub version: Version,
    pub agents: u32,
    pub answer: PlanAnswer,
}

/// Why bytes are not a plan text, with a line counted from 1. It is proved that they are none; that this error is the
/// first, and its line, is only tested.
#[derive(Clone, Copy, Debug, PartialEq, Eq)]
pub enum PlanTextFault {
    /// This line has a wrong shape, or is out of place; line 3 also if its cost isn't the sum of the paths' costs.
    P1(u64),
    /// The text ended before this line, or in it.
    P2(u64),
    /// A number of this line is out of its range.
    P3(u64),
    /// There is text after `end`, in this line.
    P4(u64),
    /// Out of memory.
    Memory,
}
