//! What can be wrong with a plan. The check of plans returns it, and the runs report it.
use mapf_model::Tick;

/// Why a plan is not valid. Agents are counted from 0, and of two agents the smaller comes first.
#[derive(Clone, Copy, Debug, PartialEq, Eq)]
pub enum PlanFault {
    /// The agent's path doesn't begin at its start.
    V1 { agent: u32 },
    /// Between the tick and the next the agent makes no step: its two cells are neither equal nor adjacent, or one of
    /// them is blocked.
    V2 { agent: u32, tick: Tick },
    /// The agent's path doesn't end at its goal.
    V3 { agent: u32 },
    /// The two agents are in one cell at the tick.
    V4 { i: u32, j: u32, tick: Tick },
    /// The two agents exchange their cells between the tick and the next.
    V5 { i: u32, j: u32, tick: Tick },
}
