//! The bound of the best prices, in a unit as coarse as it can be, with what shows it.
use crate::ascent::{Ascent, Budget, Ended, Known};
use crate::labels::{entries, joint_entries, table_entries};
use crate::prices::{Prices, UNIT};
use crate::resources::Resources;
use mapf_distance::{Distances, goal_tables};
use mapf_lemmas::{JointEntry, PriceList, PricedEntry};
use mapf_model::{Grid, OutOfMemory, Problem, Tick};
use std::alloc::Global;

// The units that are tried for the certificate, the coarsest first: the prices are rounded to multiples of these.
const COARSER: [u32; 4] = [80, 16, 4, 1];

/// How many ticks after the greatest distance may have prices.
const SLACK: Tick = 80;

// The greatest number of cells, each at a tick, for which prices are tried: they take up to 130 MB.
const MOST_STATES: usize = 2_000_000;

/// What the rounds may take in which each agent is priced alone, and then those with mates.
#[derive(Clone, Copy, Debug)]
pub struct Budgets {
    alone: Budget,
    paired: Budget,
}

/// The budgets of a search that goes on for long.
pub const FULL_BUDGETS: Budgets = Budgets {
    alone: Budget {
        rounds: 600,
        states: 12_000_000,
    },
    paired: Budget {
        rounds: 60,
        states: 24_000_000,
    },
};

/// The budgets of an answer that is wanted soon.
pub const QUICK_BUDGETS: Budgets = Budgets {
    alone: Budget {
        rounds: 600,
        states: 6_000_000,
    },
    paired: Budget {
        rounds: 60,
        states: 12_000_000,
    },
};

/// A bound by prices, in ticks, and what shows it.
#[derive(Debug, Drop)]
pub struct PriceBound {
    pub bound: u64,
    pub list: PriceList,
    pub lemmas: Vec<PricedLemma>,
}

/// The labels that show the least priced cost of an agent, or of two together.
#[derive(Debug, Drop)]
pub enum PricedLemma {
    One {
        agent: u32,
        entries: Vec<PricedEntry>,
    },
    Two {
        i: u32,
        j: u32,
        first: Vec<PricedEntry>,
        second: Vec<PricedEntry>,
        joint: Vec<JointEntry>,
    },
}

/// Finds prices within these budgets, and returns their bound on the sum of costs. None if the grid is too large for
/// prices, no steps lead an agent to its goal, or after a quarter of the first budget prices are far behind the known
/// bound. Out of memory is the only error.
pub fn price_bound(
    alloc: Global,
    problem: &Problem,
    known: Known,
    budgets: &Budgets,
) -> Result<Option<PriceBound>, OutOfMemory> {
    let distances = goal_tables(alloc, problem)?;
    let Some(ticks) = horizon(problem, &distances) else {
        return Ok(None);
    };
    if states(problem.grid(), ticks) > MOST_STATES {
        return Ok(None);
    }
    let resources = Resources::of(alloc, problem.grid(), ticks)?;
    let prices = Prices::of(alloc, resources)?;
    let mut ascent = Ascent::of(alloc, problem, &distances, prices, known)?;
    match ascent.run(&budgets.alone)? {
        Ended::Optimal => {}
        Ended::Behind => return Ok(None),
        Ended::Spent => {
            ascent.pair()?;
            let _ended = ascent.run(&budgets.paired)?;
        }
    }
    let wanted = ascent.bound.div_ceil(u64::from(UNIT));
    for coarser in COARSER {
        let bound = price_by(&mut ascent, coarser)?;
        if bound >= wanted {
            let list = list(alloc, &ascent, coarser)?;
            let lemmas = lemmas(alloc, &mut ascent)?;
            return Ok(Some(PriceBound {
                bound,
                list,
                lemmas,
            }));
        }
    }
    Ok(None)
}

// Returns the tick before which resources may have prices.
fn horizon(problem: &Problem, distances: &[Distances]) -> Option<Tick> {
    let mut greatest = 0;
    for (agent, distances) in problem.agents().iter().zip(distances) {
        greatest = greatest.max(distances.get(agent.start)?);
    }
    Some(greatest.saturating_add(SLACK))
}

// Returns how many cells there are at all ticks before this one.
fn states(grid: &Grid, ticks: Tick) -> usize {
    let cells = (grid.width() as usize).saturating_mul(grid.height() as usize);
    cells.saturating_mul(ticks as usize)
}

// Sets the prices to the best ones, rounded to a coarser unit, and returns their bound in ticks.
fn price_by(ascent: &mut Ascent, coarser: u32) -> Result<u64, OutOfMemory> {
    let unit = UNIT / coarser.max(1);
    ascent.price_rounded(coarser);
    ascent.prices.unit = unit;
    let sum = ascent.improve()?;
    let bound = sum.saturating_sub(ascent.prices.total);
    Ok(bound.div_ceil(u64::from(unit.max(1))))
}

// Returns the lemmas of all agents that cost more than their distances by the present prices.
fn lemmas(alloc: Global, ascent: &mut Ascent) -> Result<Vec<PricedLemma>, OutOfMemory> {
    let mut lemmas = Vec::new(alloc);
    for agent in 0..ascent.mates.len() {
        let mate = ascent.mates.get(agent).copied().unwrap_or(agent);
        if mate > agent {
            add_pair(alloc, ascent, (agent, mate), &mut lemmas)?;
        } else if mate == agent {
            add_single(alloc, ascent, agent, &mut lemmas)?;
        }
    }
    Ok(lemmas)
}

// A price, in the order of a list.
#[derive(Clone, Copy, Debug, PartialEq, Eq, PartialOrd, Ord)]
struct Placed {
    tick: Tick,
    is_edge: bool,
    number: usize,
    amount: u32,
}

fn list(alloc: Global, ascent: &Ascent, coarser: u32) -> Result<PriceList, OutOfMemory> {
    let mut placed: Vec<Placed> = Vec::new(alloc);
    for one in &ascent.best {
        let amount = ascent.prices.get(one.number);
        if amount > 0 {
            placed.push(Placed {
                tick: ascent.prices.resources.tick_of(one.number),
                is_edge: one.number % 3 > 0,
                number: one.number,
                amount,
            })?;
        }
    }
    placed.as_mut_slice().sort_unstable();
    let mut prices = Vec::with_capacity(alloc, placed.len())?;
    for one in &placed {
        if let Some(price) = ascent.prices.resources.price(one.number, one.amount) {
            prices.push(price)?;
        }
    }
    Ok(PriceList {
        unit: UNIT / coarser.max(1),
        prices,
    })
}

// Adds the lemma of an agent, unless its least priced cost is that of its distance without prices.
fn add_single(
    alloc: Global,
    ascent: &mut Ascent,
    agent: usize,
    lemmas: &mut Vec<PricedLemma>,
) -> Result<(), OutOfMemory> {
    let cost = ascent.paths.improve_one(&mut ascent.prices, agent)?;
    let Some(who) = ascent.paths.traveller(agent) else {
        return Ok(());
    };
    let entries = entries(alloc, &mut ascent.paths.search, &ascent.prices, &who, cost)?;
    if !entries.is_empty() {
        lemmas.push(PricedLemma::One {
            agent: u32::try_from(agent).unwrap_or(0),
            entries,
        })?;
    }
    Ok(())
}

// Adds the lemma of two agents, or of each if they cost no more together.
fn add_pair(
    alloc: Global,
    ascent: &mut Ascent,
    agents: (usize, usize),
    lemmas: &mut Vec<PricedLemma>,
) -> Result<(), OutOfMemory> {
    let first = ascent.paths.improve_one(&mut ascent.prices, agents.0)?;
    let second = ascent.paths.improve_one(&mut ascent.prices, agents.1)?;
    let cost = ascent
        .couples
        .joint_cost(&mut ascent.paths, &ascent.prices, agents, (first, second))?;
    if cost == first.saturating_add(second) {
        add_single(alloc, ascent, agents.0, lemmas)?;
        return add_single(alloc, ascent, agents.1, lemmas);
    }
    lemmas.push(PricedLemma::Two {
        i: u32::try_from(agents.0).unwrap_or(0),
        j: u32::try_from(agents.1).unwrap_or(0),
        first: table_entries(alloc, &ascent.couples.first)?,
        second: table_entries(alloc, &ascent.couples.second)?,
        joint: joint_entries(alloc, &ascent.couples, &ascent.prices, cost)?,
    })?;
    Ok(())
}
