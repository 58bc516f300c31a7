//! A constraint with its agent, as a split adds one to each child.
use crate::bar::Bar;

/// A constraint of conflict-based search (Sharon et al. 2015): what this agent may not do.
#[derive(Clone, Copy, Debug, PartialEq, Eq, Hash)]
pub struct Constraint {
    pub agent: u32,
    pub bar: Bar,
}
