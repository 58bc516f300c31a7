//! The paths of two agents that are priced together.
use crate::joint::{Half, JointSearch, Node};
use crate::label_table::LabelTable;
use crate::paths::{Paths, traveller};
use crate::prices::Prices;
use crate::search::{Traveller, go_straight};
use mapf_model::{OutOfMemory, Tick};
use std::alloc::Global;

// How many ticks more than alone two agents may be found to cost together.
const MOST_EXCESS: u64 = 3;

// How many joint states are looked at for two agents.
const MOST_NODES: u32 = 20_000;

/// The memory in which two agents are searched together.
#[derive(Drop)]
pub struct Couples {
    pub first: Half,
    pub second: Half,
    pub search: JointSearch,
    way: Vec<Node>,
}

impl Couples {
    /// Returns the memory for so many cells and ticks.
    pub fn of(alloc: Global, cells: usize, ticks: Tick) -> Result<Couples, OutOfMemory> {
        let first = half(alloc, cells, ticks)?;
        let second = half(alloc, cells, ticks)?;
        Ok(Couples {
            first,
            second,
            search: JointSearch::of(alloc),
            way: Vec::new(alloc),
        })
    }

    /// Finds paths of least priced cost for two agents together, and returns that cost, or a lower bound of it.
    pub fn improve(
        &mut self,
        paths: &mut Paths,
        prices: &mut Prices,
        agents: (usize, usize),
    ) -> Result<u64, OutOfMemory> {
        let (i, j) = agents;
        paths.leave(prices, i);
        paths.leave(prices, j);
        let first = paths.improve_one(prices, i)?;
        let second = paths.improve_one(prices, j)?;
        let cost = self.joint_cost(paths, prices, agents, (first, second))?;
        if !self.way.is_empty() {
            paths.leave(prices, i);
            paths.leave(prices, j);
            paths.draw(prices, i, &self.way, true)?;
            paths.draw(prices, j, &self.way, false)?;
            paths.take(prices, i);
            paths.take(prices, j);
        }
        Ok(cost)
    }

    /// Returns the least priced cost of two agents together, or a lower bound, from that of each.
    pub fn joint_cost(
        &mut self,
        paths: &mut Paths,
        prices: &Prices,
        agents: (usize, usize),
        alone: (u64, u64),
    ) -> Result<u64, OutOfMemory> {
        self.way.clear();
        let spare = MOST_EXCESS.saturating_mul(u64::from(prices.unit));
        let (first, second) = (alone.0.saturating_add(spare), alone.1.saturating_add(spare));
        prepare(&mut self.first, paths, prices, agents.0, first)?;
        prepare(&mut self.second, paths, prices, agents.1, second)?;
        let sum = alone.0.saturating_add(alone.1);
        let halves = (&self.first, &self.second);
        let found = self
            .search
            .find(prices, halves, sum.saturating_add(spare), MOST_NODES)?;
        if found.has_paths() {
            self.search.way(&found, &mut self.way)?;
        }
        Ok(found.cost.max(sum))
    }
}

fn half(alloc: Global, cells: usize, ticks: Tick) -> Result<Half, OutOfMemory> {
    let table = LabelTable::of(alloc, cells, ticks)?;
    Ok(Half {
        start: 0,
        goal: 0,
        table,
        rest: Vec::new(alloc),
    })
}

// Makes the labels of an agent for paths that cost less than this.
fn prepare(
    half: &mut Half,
    paths: &mut Paths,
    prices: &Prices,
    agent: usize,
    limit: u64,
) -> Result<(), OutOfMemory> {
    let Some(who) = traveller(paths.problem, paths.distances, agent) else {
        return Ok(());
    };
    let search = &mut paths.search;
    half.table.make(search, prices, &who, limit)?;
    half.rest.clear();
    for tick in 0..=prices.end {
        half.rest.push(search.rest_after(prices, tick))?;
    }
    half.start = who.agent.start.0;
    half.goal = who.agent.goal.0;
    Ok(())
}

/// Draws the path of the first or of the second agent along a way, whose last node comes first.
pub fn draw_one(
    way: &[Node],
    prices: &Prices,
    who: &Traveller,
    is_first: bool,
    path: &mut Vec<u32>,
) -> Result<(), OutOfMemory> {
    path.clear();
    for node in way.iter().rev() {
        if node.tick as usize == path.len() {
            path.push(if is_first { node.first } else { node.second })?;
        }
    }
    let last = path.last().copied().unwrap_or(0);
    go_straight(prices, who, last, path)
}
