//! Why the judge of a tree stops. It says so of the node at which it stops.
use crate::split_fault::SplitFault;

/// Why a node isn't accepted, apart from leaves, which have a judge of their own.
#[derive(Clone, Copy, Debug, PartialEq, Eq)]
pub enum CaseFault {
    /// There isn't enough memory to go on. This says nothing of the node.
    Memory,
    /// The split isn't proper (rules 5 and 6).
    Split(SplitFault),
    /// The agents of a clash are one, or don't share a goal (rule 7).
    FalseClash,
}
