//! Price lists whose prices are found fast. The judges of entries look up what steps and rest cost.
ghost use Rattle.std.specs.Prelude.{◌≡◌, ◌+◌, ◌≤◌, ◌<◌, ◌^◌, IfOk};
ghost use Rattle.mapf_lemmas.specs.Prices.{no_list, amount_of, cell_price, edge_price, rest_price, total_price};
ghost use Rattle.mapf_lemmas.specs.SingleLabels.{step_price};
ghost use Rattle.mapf_single_labels.specs.Ranges.{IsListInRange, greatest_unit, greatest_total, greatest_step};
ghost use Rattle.mapf_single_labels.specs.KeyedPrices.{GiveCellPrices, GiveEdgePrices, GiveRestPrices};

use crate::keyed_price::{KeyedPrice, key_of};
use crate::point_prices::PointPrices;
use crate::summed_prices::SummedPrices;
use mapf_lemmas::{Price, PriceList};
use mapf_model::{Cell, OutOfMemory, Tick};
use std::alloc::Global;
use std::marker::Model;

/// A price list whose prices are found fast.
#[derive(Debug, Drop)]
pub struct PriceTable {
    list: PriceList,
    // The sum of all prices.
    total: u64,
    // The prices of cells, by tick and cell.
    cells: PointPrices,
    // The prices of edges, by tick and the cell of the smaller number; the other number is the cell of the greater.
    edges: PointPrices,
    // The prices of cells, by cell and tick.
    rests: SummedPrices,
}

impl Model for PriceTable {
    ghost use Rattle.mapf_lemmas.specs.Prices.{PriceList};

    ghost Value = { PriceList };

    ghost use Rattle.mapf_single_labels.specs.PriceTables.{IsTable};

    ghost view = { λ table. table.list };

    ghost invariant = { IsTable };
}

impl PriceTable {
    /// Returns the table of a price list.
    pub fn of(alloc: Global, list: PriceList) -> Result<PriceTable, OutOfMemory>
        requires { IsListInRange list }
        ensures { IfOk result (λ table. table ≡ list) }
    {
        let total = total_of(&list.prices);
        let cells = PointPrices::of(cells_of(alloc, &list.prices)?);
        let edges = PointPrices::of(edges_of(alloc, &list.prices)?);
        let rests = SummedPrices::of(alloc, rests_of(alloc, &list.prices)?)?;
        Ok(PriceTable {
            list,
            total,
            cells,
            edges,
            rests,
        })
    }

    /// Returns the table for lemmas without a price list: a tick is worth 1 unit, and nothing has a price.
    pub fn none(alloc: Global) -> PriceTable
        ensures { result ≡ no_list }
    {
        let list = PriceList {
            unit: 1,
            prices: Vec::new(alloc),
        };
        PriceTable {
            list,
            total: 0,
            cells: PointPrices::none(alloc),
            edges: PointPrices::none(alloc),
            rests: SummedPrices::none(alloc),
        }
    }

    /// Returns what a tick is worth, in units: at most 1,000.
    #[inline(always)]
    pub fn unit(&self) -> u64
        ensures value { result ≡ self.now.unit }
        ensures small { result ≤ greatest_unit }
    {
        self.list.unit as u64
    }

    /// Returns the sum of all prices, in units: at most 10^17.
    pub fn total(&self) -> u64
        ensures value { result ≡ total_price self.now.prices }
        ensures small { result ≤ greatest_total }
    {
        self.total
    }

    /// Returns the price of being in the cell at the tick, in units: at most 10^17.
    pub fn cell(&self, cell: Cell, tick: Tick) -> u64
        ensures value { result ≡ cell_price self.now.prices cell tick }
        ensures small { result ≤ greatest_total }
    {
        self.cells.sum(key_of(tick, cell.0), 0)
    }

    /// Returns the price of moving between the two cells, in either direction, from the tick to the next, in units: at
    /// most 10^17.
    pub fn edge(&self, from: Cell, to: Cell, tick: Tick) -> u64
        ensures value { result ≡ edge_price self.now.prices from to tick }
        ensures small { result ≤ greatest_total }
    {
        if from <= to {
            self.edges.sum(key_of(tick, from.0), to.0)
        } else {
            self.edges.sum(key_of(tick, to.0), from.0)
        }
    }

    /// Returns what a step from the one cell at the tick to the other costs, in units: the tick, the edge, and the
    /// other cell one tick later. It is at most 200,000,000,000,001,000.
    pub fn step(&self, from: Cell, to: Cell, tick: Tick) -> u64
        requires { tick + 1 < 2 ^ 32 }
        ensures value { result ≡ step_price self.now from to tick }
        ensures small { result ≤ greatest_step }
    {
        self.unit() + self.edge(from, to, tick) + self.cell(to, tick + 1)
    }

    /// Returns the price of staying in the cell for ever after the tick, in units: at most 10^17.
    pub fn rest(&self, cell: Cell, tick: Tick) -> u64
        ensures value { result ≡ rest_price self.now.prices cell tick }
        ensures small { result ≤ greatest_total }
    {
        self.rests
            .sum(key_of(cell.0, tick), key_of(cell.0, u32::MAX))
    }
}

// Returns the sum of the prices.
fn total_of(prices: &[Price]) -> u64
    requires { total_price prices.now ≤ greatest_total }
    ensures { result ≡ total_price prices.now }
{
    let mut total = 0;
    for price in prices {
        total += amount_of(price) as u64;
    }
    total
}

fn amount_of(price: &Price) -> u32
    ensures { result ≡ amount_of price.now }
{
    match *price {
        Price::Cell { amount, .. } | Price::Edge { amount, .. } => amount,
    }
}

// Returns the prices of cells, by tick and cell.
fn cells_of(alloc: Global, prices: &[Price]) -> Result<Vec<KeyedPrice>, OutOfMemory>
    ensures { IfOk result (λ keyed. GiveCellPrices prices.now keyed.items) }
{
    let mut keyed = Vec::new(alloc);
    for price in prices {
        if let Price::Cell { cell, tick, amount } = *price {
            keyed.push(KeyedPrice {
                key: key_of(tick, cell.0),
                other: 0,
                amount,
            })?;
        }
    }
    Ok(keyed)
}

// Returns the prices of edges, by tick and the cell of the smaller number.
fn edges_of(alloc: Global, prices: &[Price]) -> Result<Vec<KeyedPrice>, OutOfMemory>
    ensures { IfOk result (λ keyed. GiveEdgePrices prices.now keyed.items) }
{
    let mut keyed = Vec::new(alloc);
    for price in prices {
        if let Price::Edge {
            from,
            to,
            tick,
            amount,
        } = *price
        {
            keyed.push(KeyedPrice {
                key: key_of(tick, from.0.min(to.0)),
                other: from.0.max(to.0),
                amount,
            })?;
        }
    }
    Ok(keyed)
}

// Returns the prices of cells, by cell and tick.
fn rests_of(alloc: Global, prices: &[Price]) -> Result<Vec<KeyedPrice>, OutOfMemory>
    ensures { IfOk result (λ keyed. GiveRestPrices prices.now keyed.items) }
{
    let mut keyed = Vec::new(alloc);
    for price in prices {
        if let Price::Cell { cell, tick, amount } = *price {
            keyed.push(KeyedPrice {
                key: key_of(cell.0, tick),
                other: 0,
                amount,
            })?;
        }
    }
    Ok(keyed)
}
