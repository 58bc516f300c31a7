//! The labels that show the least priced cost of an agent.
use crate::couples::Couples;
use crate::joint::{Arrived, Half, left};
use crate::prices::Prices;
use crate::search::{PathSearch, Traveller};
use mapf_lemmas::{Amount, JointEntry, JointState, PricedEntry};
use mapf_model::{Cell, OutOfMemory, Tick};
use std::alloc::Global;

/// Returns the entries of all states that a path which costs less than this could come to, in order: each with what is
/// left of the cost there.
pub fn entries(
    alloc: Global,
    search: &mut PathSearch,
    prices: &Prices,
    who: &Traveller,
    cost: u64,
) -> Result<Vec<PricedEntry>, OutOfMemory> {
    let mut found = Vec::new(alloc);
    search.begin(prices, who)?;
    let limit = cost << 16;
    for tick in 0..=prices.end {
        if search.open.cells.is_empty() {
            break;
        }
        search.open.cells.as_mut_slice().sort_unstable();
        add_layer(search, prices, who, tick, cost, &mut found)?;
        if tick < prices.end {
            search.advance(prices, who, tick, limit)?;
        }
    }
    Ok(found)
}

fn add_layer(
    search: &PathSearch,
    prices: &Prices,
    who: &Traveller,
    tick: Tick,
    cost: u64,
    found: &mut Vec<PricedEntry>,
) -> Result<(), OutOfMemory> {
    for &cell in &search.open.cells {
        let left = cost.saturating_sub(search.open.cost(cell));
        if who
            .left(cell, prices.unit)
            .is_some_and(|least| least < left)
        {
            found.push(PricedEntry {
                cell: Cell(cell),
                tick,
                label: amount(left),
            })?;
        }
    }
    Ok(())
}

/// Returns the entries of the labels of one agent of a pair, in order.
pub fn table_entries(alloc: Global, half: &Half) -> Result<Vec<PricedEntry>, OutOfMemory> {
    let mut found = Vec::new(alloc);
    for at in &half.table.states {
        let label = half.table.get(at.tick, at.cell);
        if half.table.other(at.cell) < label {
            found.push(PricedEntry {
                cell: Cell(at.cell),
                tick: at.tick,
                label: amount(label),
            })?;
        }
    }
    Ok(found)
}

// Returns an amount of so many units, which are never as many as stand for infinitely many.
fn amount(units: u64) -> Amount {
    if units == u64::MAX {
        return Amount::infinite();
    }
    Amount::of(units)
}

// A joint state with its label, in the order of a lemma.
#[derive(Clone, Copy, Debug, PartialEq, Eq, PartialOrd, Ord)]
struct Placed {
    tick: Tick,
    arrived: Arrived,
    first: u32,
    second: u32,
    label: u64,
}

/// Returns the entries of all joint states that were reached on a way which costs less than this, in order.
pub fn joint_entries(
    alloc: Global,
    couples: &Couples,
    prices: &Prices,
    cost: u64,
) -> Result<Vec<JointEntry>, OutOfMemory> {
    let mut placed = Vec::new(alloc);
    let halves = (&couples.first, &couples.second);
    for (number, node) in couples.search.nodes.iter().enumerate() {
        let whole = node.cost.saturating_add(left(halves, node));
        if whole < cost && couples.search.is_latest(prices, node, number) {
            placed.push(Placed {
                tick: node.tick,
                arrived: node.arrived,
                first: node.first,
                second: node.second,
                label: cost.saturating_sub(node.cost),
            })?;
        }
    }
    placed.as_mut_slice().sort_unstable();
    let mut found = Vec::with_capacity(alloc, placed.len())?;
    for one in &placed {
        let (first, second) = (Cell(one.first), Cell(one.second));
        let state = match one.arrived {
            Arrived::Neither => JointState::Both { first, second },
            Arrived::First => JointState::SecondAlone { second },
            Arrived::Second => JointState::FirstAlone { first },
            Arrived::Both => continue,
        };
        found.push(JointEntry {
            state,
            tick: one.tick,
            label: amount(one.label),
        })?;
    }
    Ok(found)
}
