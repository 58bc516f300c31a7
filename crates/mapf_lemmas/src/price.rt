//! Prices of cells and edges at ticks. In a valid plan no two agents use one cell at a tick, or one edge between two
//! ticks, so all agents together pay at most the sum of all prices.
ghost use Rattle.mapf_lemmas.specs.Prices.{PriceList};

use mapf_model::{Cell, Tick};
use std::marker::Model;

/// The price of a cell or of an edge at a tick.
#[derive(Clone, Copy, Debug, PartialEq, Eq)]
pub enum Price {
    /// The price of being in the cell at the tick.
    Cell {
        cell: Cell,
        tick: Tick,
        amount: u32,
    },
    /// The price of moving along the edge between the tick and the next, in either direction.
    Edge {
        from: Cell,
        to: Cell,
        tick: Tick,
        amount: u32,
    },
}

/// Prices, and what one tick of cost is worth beside them.
#[derive(Debug, Drop)]
pub struct PriceList {
    pub unit: u32,
    pub prices: Vec<Price>,
}

impl Model for PriceList {
    ghost Value = { PriceList };

    ghost view = { λ list. record { unit = list.unit; prices = list.prices.items } };
}
