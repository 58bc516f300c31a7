//! States, which the search for one agent reaches and to which entries give labels.
use crate::cell::{Cell, Tick};

/// A cell at a tick. States are ordered by tick and then by cell, as the entries of a block are.
#[derive(Clone, Copy, Debug, PartialEq, Eq, PartialOrd, Ord, Hash)]
pub struct State {
    pub tick: Tick,
    pub cell: Cell,
}
