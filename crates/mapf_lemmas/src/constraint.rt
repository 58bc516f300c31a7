//! Constraints on the path of one agent, by its cells and by its cost.
use mapf_model::{Cell, Tick};

/// A constraint on the path of one agent, without naming the agent. The cost of a path is the tick of its last arrival
/// at the goal.
#[derive(Clone, Copy, Debug, PartialEq, Eq)]
pub enum PathConstraint {
    /// A vertex constraint (Sharon et al. 2015): the agent isn't in the cell at the tick.
    NotAt { cell: Cell, tick: Tick },
    /// An edge constraint (Sharon et al. 2015): the agent doesn't leave `from` at the tick to be at `to` one tick
    /// later.
    NotMove { from: Cell, to: Cell, tick: Tick },
    /// The agent isn't in the cell at any tick from this one on.
    Clear { cell: Cell, tick: Tick },
    /// The path costs at most so many ticks (Li et al. 2021a: a length constraint).
    Most { ticks: u32 },
    /// The path costs at least so many ticks (Li et al. 2021a: a length constraint).
    Least { ticks: u32 },
}

/// A constraint with its agent.
#[derive(Clone, Copy, Debug, PartialEq, Eq)]
pub struct AgentConstraint {
    pub agent: u32,
    pub constraint: PathConstraint,
}
