//! Two agents together: their joint states with labels, and pairs of their cells.
use crate::amount::Amount;
use mapf_model::{Cell, Tick};

/// Where two agents are: neither has arrived at its goal for good, or one of them has.
#[derive(Clone, Copy, Debug, PartialEq, Eq)]
pub enum JointState {
    Both { first: Cell, second: Cell },
    /// The second agent has arrived.
    FirstAlone { first: Cell },
    /// The first agent has arrived.
    SecondAlone { second: Cell },
}

/// A joint state at a tick with its label: a lower bound on what is left of the sum of both agents' priced costs, in
/// units of the price list.
#[derive(Clone, Copy, Debug, PartialEq, Eq)]
pub struct JointEntry {
    pub state: JointState,
    pub tick: Tick,
    pub label: Amount,
}

/// The cells of two agents.
#[derive(Clone, Copy, Debug, PartialEq, Eq)]
pub struct JointCell {
    pub first: Cell,
    pub second: Cell,
}
