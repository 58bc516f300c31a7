//! Labels, and the entries and blocks in which a certificate lists them. The reader of certificates makes blocks, and
//! the checker judges them.
ghost use Rattle.std.specs.Prelude.{◌≡◌, ◌↔◌, IsTrue};
ghost use Rattle.mapf_model.specs.Blocks.{LabelBlock};
ghost use Rattle.mapf_model.specs.States.{IsEarlier, state_of};

use crate::cell::{Cell, Tick};
use crate::state::State;
use std::marker::Model;

/// A lower bound on the ticks from a state until its agent's last arrival at its goal.
#[derive(Clone, Copy, Debug, PartialEq, Eq)]
pub enum Label {
    /// At least so many ticks.
    Ticks(u32),
    /// Infinite: the agent can't arrive.
    Never,
}

/// A state, that is, a cell at a tick, with its label.
#[derive(Clone, Copy, Debug, PartialEq, Eq)]
pub struct Entry {
    pub cell: Cell,
    pub tick: Tick,
    pub label: Label,
}

impl Entry {
    /// Returns its state. The entries of a block rise by their states.
    #[inline(always)]
    pub fn state(&self) -> State
        ensures { result ≡ state_of self.now }
    {
        State {
            tick: self.tick,
            cell: self.cell,
        }
    }

    /// Returns whether its state is earlier than that of the other entry.
    #[inline(always)]
    pub fn is_before(&self, other: &Entry) -> bool
        ensures { IsTrue result ↔ IsEarlier (state_of self.now) (state_of other.now) }
    {
        self.state() < other.state()
    }
}

/// The entries of one agent at a split or a leaf of a constraint tree. The label of a state without an entry is the
/// distance of its cell.
#[derive(Debug, Drop)]
pub struct Block {
    pub agent: u32,
    pub entries: Vec<Entry>,
}

impl Model for Block {
    ghost Value = { LabelBlock };

    ghost view = { λ b. record { agent = b.agent; entries = b.entries.items } };
}
