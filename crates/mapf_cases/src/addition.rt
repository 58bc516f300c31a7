//! What is added to the constraints that stand: by a split for one of its children, or by the lemma whose tree is
//! judged.
use mapf_lemmas::AgentConstraint;
use mapf_model::{Cell, Tick};

/// A constraint of one agent, or one of all agents but one.
#[derive(Clone, Copy, Debug, PartialEq, Eq)]
pub enum Addition {
    /// A constraint of one agent.
    One(AgentConstraint),
    /// No agent but this one is in the cell at any tick from this one on.
    Others { agent: u32, cell: Cell, tick: Tick },
}
