//! A constraint as one agent sees it: what it may not do. The tables of one agent's constraints hold these.
use crate::cell::{Cell, Tick};

/// A constraint of one agent in conflict-based search (Sharon et al. 2015), without naming the agent.
#[derive(Clone, Copy, Debug, PartialEq, Eq, PartialOrd, Ord, Hash)]
pub enum Bar {
    /// A vertex constraint: the agent may not be in the cell at the tick.
    Cell { cell: Cell, tick: Tick },
    /// An edge constraint: the agent may not leave `from` at the tick and be at `to` one tick later.
    Move { from: Cell, to: Cell, tick: Tick },
}
