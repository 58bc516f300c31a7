//! Which agents are priced together: those that share resources with high prices.
use crate::paths::Paths;
use crate::prices::Prices;
use mapf_model::OutOfMemory;
use std::alloc::Global;

// An agent that uses a resource with a price, together with others.
#[derive(Clone, Copy, Debug, PartialEq, Eq, PartialOrd, Ord)]
struct Sharer {
    number: usize,
    agent: usize,
}

// Two agents, and the sum of the prices that they shared.
#[derive(Clone, Copy, Debug, PartialEq, Eq, PartialOrd, Ord)]
struct Shared {
    sum: u64,
    first: usize,
    second: usize,
}

/// What each two agents share.
#[derive(Debug, Drop)]
pub struct Shares {
    alloc: Global,
    agents: usize,
    // By the smaller agent, then by the greater one.
    sums: Vec<u64>,
}

impl Shares {
    /// Returns the shares before anything is noted.
    pub fn of(alloc: Global, agents: usize) -> Result<Shares, OutOfMemory> {
        Ok(Shares {
            alloc,
            agents,
            sums: vec![in alloc; 0; agents.saturating_mul(agents)]?,
        })
    }

    /// Notes which resources with prices the paths share.
    pub fn note(&mut self, prices: &Prices, paths: &Paths) -> Result<(), OutOfMemory> {
        let mut sharers = Vec::new(self.alloc);
        for (agent, path) in paths.all.iter().enumerate() {
            add_sharers(prices, agent, path, &mut sharers)?;
        }
        sharers.as_mut_slice().sort_unstable();
        for (place, one) in sharers.iter().enumerate() {
            for other in sharers.iter().skip(place.saturating_add(1)) {
                if other.number != one.number {
                    break;
                }
                let at = one
                    .agent
                    .saturating_mul(self.agents)
                    .saturating_add(other.agent);
                if let Some(entry) = self.sums.get_mut(at) {
                    *entry = entry.saturating_add(u64::from(prices.get(one.number)));
                }
            }
        }
        Ok(())
    }

    /// Returns the mate of each agent: of those that share most, two by two. An agent without a mate is its own.
    pub fn mates(&self) -> Result<Vec<usize>, OutOfMemory> {
        let mut shared = Vec::new(self.alloc);
        for first in 0..self.agents {
            for second in first.saturating_add(1)..self.agents {
                let at = first.saturating_mul(self.agents).saturating_add(second);
                let sum = self.sums.get(at).copied().unwrap_or(0);
                if sum > 0 {
                    shared.push(Shared { sum, first, second })?;
                }
            }
        }
        shared.as_mut_slice().sort_unstable();
        let mut mates = Vec::with_capacity(self.alloc, self.agents)?;
        for agent in 0..self.agents {
            mates.push(agent)?;
        }
        for one in shared.iter().rev() {
            if mates.get(one.first) == Some(&one.first)
                && mates.get(one.second) == Some(&one.second)
            {
                if let Some(entry) = mates.get_mut(one.first) {
                    *entry = one.second;
                }
                if let Some(entry) = mates.get_mut(one.second) {
                    *entry = one.first;
                }
            }
        }
        Ok(mates)
    }
}

fn add_sharers(
    prices: &Prices,
    agent: usize,
    path: &[u32],
    sharers: &mut Vec<Sharer>,
) -> Result<(), OutOfMemory> {
    let mut from = path.first().copied().unwrap_or(0);
    for tick in 1..prices.end {
        let to = path.get(tick as usize).copied().unwrap_or(from);
        add_sharer(prices, prices.resources.cell(tick, to), agent, sharers)?;
        if to != from {
            let edge = prices.resources.edge(tick.saturating_sub(1), from, to);
            add_sharer(prices, edge, agent, sharers)?;
        }
        from = to;
    }
    Ok(())
}

fn add_sharer(
    prices: &Prices,
    number: usize,
    agent: usize,
    sharers: &mut Vec<Sharer>,
) -> Result<(), OutOfMemory> {
    if prices.uses(number) > 1 && prices.get(number) > 0 {
        sharers.push(Sharer { number, agent })?;
    }
    Ok(())
}
