//! The states of one agent with labels that count units of a price list.
ghost use Rattle.mapf_model.specs.declared.label.Entry.{Entry};

use crate::amount::Amount;
use mapf_model::{Cell, Tick};
use std::marker::Model;

/// A state, that is, a cell at a tick, with its label: a lower bound on what is left of the agent's priced cost, in
/// units of the price list.
#[derive(Clone, Copy, Debug, PartialEq, Eq)]
pub struct PricedEntry {
    pub cell: Cell,
    pub tick: Tick,
    pub label: Amount,
}

impl Model for PricedEntry {
    ghost Value = { Entry };

    ghost view = { λ e. record { cell = e.cell; tick = e.tick; label = e.label } };

    ghost inverse = { λ e. record { cell = e.cell; tick = e.tick; label = e.label } };
}
