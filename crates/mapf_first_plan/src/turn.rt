//! The turn of an agent to choose where it goes next.
use mapf_model::Cell;
use smallvec::SmallVec;

/// An agent that chooses its next cell. While it waits for the agent that it pushes away, its turn waits too.
#[derive(Drop)]
pub struct Turn {
    pub agent: usize,
    /// Where it is.
    pub here: Cell,
    /// Where it may go, the best first.
    pub steps: SmallVec<Cell, 5>,
    /// How many of these steps were tried.
    pub tried: usize,
    /// The agent that it changes places with, which follows it if it gets its best step.
    pub partner: Option<usize>,
}

/// What has become of the turns so far.
#[derive(Clone, Copy, Debug, PartialEq, Eq)]
pub enum Progress {
    /// The last turn has to choose a step.
    Open,
    /// An agent has got its step, and so the one that pushed it has, too.
    Settled,
    /// An agent has got no step and stays, so the one that pushed it needs another step.
    Stuck,
}

/// A step and its rank: the least is the best.
#[derive(Clone, Copy, Debug, Default, PartialEq, Eq, PartialOrd, Ord)]
pub struct RankedStep {
    /// From there to the goal.
    pub distance: u32,
    pub is_occupied: bool,
    /// Puts equally good steps in an order that differs from tick to tick, and from search to search.
    pub hash: u64,
    pub cell: Cell,
}

/// Returns a hash of a cell, an agent, a tick and the number of a search, of 24 bits.
#[inline(always)]
pub fn hash_of(cell: Cell, agent: usize, tick: u32, attempt: u32) -> u64 {
    let search = u64::from(attempt) << 48;
    let key = search ^ (u64::from(cell.0) << 32) ^ ((agent as u64) << 16) ^ u64::from(tick);
    key.wrapping_mul(0x9E37_79B9_7F4A_7C15) >> 40
}
