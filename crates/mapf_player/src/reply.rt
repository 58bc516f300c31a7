//! What the dispatcher answers at an event.
use mapf_model::Cell;

/// The reply to an agent that asks to move on.
#[derive(Clone, Copy, Debug, PartialEq, Eq)]
pub enum Reply {
    /// It moves to this cell, its next one, and is there from now on.
    Go(Cell),
    /// It stays where it is, and may ask again later: this other agent, the least one, visits the next cell earlier in
    /// the plan and hasn't left it yet.
    Hold { other: u32 },
    /// It is at the end of its path and stays there.
    Done,
}
