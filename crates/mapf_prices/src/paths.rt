//! The agents' paths, each of least priced cost when it was searched for last.
use crate::couples::draw_one;
use crate::joint::Node;
use crate::prices::Prices;
use crate::search::{PathSearch, Traveller};
use mapf_distance::Distances;
use mapf_model::{OutOfMemory, Problem};
use std::alloc::Global;

/// The paths of all agents, and what they are searched for.
#[derive(Drop)]
pub struct Paths<'a> {
    pub problem: &'a Problem,
    pub distances: &'a [Distances],
    /// By agent, the numbers of the cells up to the arrival. Empty before the first search.
    pub all: Vec<Vec<u32>>,
    // By agent, whether the uses of its path are counted.
    is_used: Vec<bool>,
    pub search: PathSearch,
}

impl<'a> Paths<'a> {
    /// Returns the paths before any search.
    pub fn of(
        alloc: Global,
        problem: &'a Problem,
        distances: &'a [Distances],
        prices: &Prices,
    ) -> Result<Paths<'a>, OutOfMemory> {
        let mut all = Vec::with_capacity(alloc, problem.agents().len())?;
        for _ in problem.agents() {
            all.push(Vec::new(alloc))?;
        }
        let resources = &prices.resources;
        Ok(Paths {
            problem,
            distances,
            all,
            is_used: vec![in alloc; false; problem.agents().len()]?,
            search: PathSearch::of(alloc, resources.cells, resources.ticks)?,
        })
    }

    /// Returns who an agent is.
    pub fn traveller(&self, agent: usize) -> Option<Traveller<'a>> {
        traveller(self.problem, self.distances, agent)
    }

    /// Finds a path of least priced cost for an agent, and returns that cost.
    pub fn improve_one(&mut self, prices: &mut Prices, agent: usize) -> Result<u64, OutOfMemory> {
        self.leave(prices, agent);
        let (Some(who), Some(path)) = (
            traveller(self.problem, self.distances, agent),
            self.all.get_mut(agent),
        ) else {
            return Ok(0);
        };
        let cost = self.search.improve(prices, &who, path)?;
        self.take(prices, agent);
        Ok(cost)
    }

    /// Draws an agent's path along the way of two.
    pub fn draw(
        &mut self,
        prices: &Prices,
        agent: usize,
        way: &[Node],
        is_first: bool,
    ) -> Result<(), OutOfMemory> {
        let (Some(who), Some(path)) = (
            traveller(self.problem, self.distances, agent),
            self.all.get_mut(agent),
        ) else {
            return Ok(());
        };
        draw_one(way, prices, &who, is_first, path)
    }

    /// Notes that an agent's path uses its resources.
    pub fn take(&mut self, prices: &mut Prices, agent: usize) {
        if let (Some(path), Some(used)) = (self.all.get(agent), self.is_used.get_mut(agent)) {
            if !*used {
                prices.note(path, true);
                *used = true;
            }
        }
    }

    /// Notes that an agent's path doesn't use its resources.
    pub fn leave(&mut self, prices: &mut Prices, agent: usize) {
        if let (Some(path), Some(used)) = (self.all.get(agent), self.is_used.get_mut(agent)) {
            if *used {
                prices.note(path, false);
                *used = false;
            }
        }
    }
}

/// Returns who an agent is.
pub fn traveller<'a>(
    problem: &'a Problem,
    distances: &'a [Distances],
    agent: usize,
) -> Option<Traveller<'a>> {
    Some(Traveller {
        agent: *problem.agents().get(agent)?,
        distances: distances.get(agent)?,
    })
}
