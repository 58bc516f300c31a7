//! The prices of resources, and how many agents use each.
use crate::resources::Resources;
use mapf_model::{OutOfMemory, Tick};
use std::alloc::Global;

/// How many units a tick costs while prices are found.
pub const UNIT: u32 = 960;

/// The prices of all resources, in units, and how many paths use each.
#[derive(Debug, Drop)]
pub struct Prices {
    pub resources: Resources,
    pub unit: u32,
    // By the number of the resource.
    amounts: Vec<u32>,
    uses: Vec<u32>,
    /// Every resource with a price is of an earlier tick.
    pub end: Tick,
    /// The sum of all prices.
    pub total: u64,
}

impl Prices {
    /// Returns the prices of which each is 0.
    pub fn of(alloc: Global, resources: Resources) -> Result<Prices, OutOfMemory> {
        let count = resources.count();
        Ok(Prices {
            resources,
            unit: UNIT,
            amounts: vec![in alloc; 0; count]?,
            uses: vec![in alloc; 0; count]?,
            end: 0,
            total: 0,
        })
    }

    /// Returns the price of a resource by its number.
    #[inline(always)]
    pub fn get(&self, number: usize) -> u32 {
        self.amounts.get(number).copied().unwrap_or(0)
    }

    /// Sets the price of a resource.
    pub fn set(&mut self, number: usize, amount: u32) {
        if let Some(entry) = self.amounts.get_mut(number) {
            self.total = self.total.saturating_sub(u64::from(*entry));
            self.total = self.total.saturating_add(u64::from(amount));
            *entry = amount;
        }
    }

    /// Returns the first tick after a resource: after that of a cell, or the one to which an edge leads.
    pub fn end_of(&self, number: usize) -> Tick {
        let tick = self.resources.tick_of(number);
        let edge = if number % 3 == 0 { 1 } else { 2 };
        tick.saturating_add(edge)
    }

    /// Returns how many paths use a resource.
    #[inline(always)]
    pub fn uses(&self, number: usize) -> u32 {
        self.uses.get(number).copied().unwrap_or(0)
    }

    fn take(&mut self, number: usize) {
        if let Some(entry) = self.uses.get_mut(number) {
            *entry = entry.saturating_add(1);
        }
    }

    fn leave(&mut self, number: usize) {
        if let Some(entry) = self.uses.get_mut(number) {
            *entry = entry.saturating_sub(1);
        }
    }

    /// Returns what it costs to go from a cell at a tick to another one: the prices of the edge and of that cell.
    #[inline(always)]
    pub fn of_step(&self, tick: Tick, from: u32, to: u32) -> u64 {
        let cell = self.get(self.resources.cell(tick.saturating_add(1), to));
        let edge = if from == to {
            0
        } else {
            self.get(self.resources.edge(tick, from, to))
        };
        u64::from(cell).saturating_add(u64::from(edge))
    }

    /// Returns how many other paths use what a step uses.
    #[inline(always)]
    pub fn uses_of_step(&self, tick: Tick, from: u32, to: u32) -> u32 {
        let cell = self.uses(self.resources.cell(tick.saturating_add(1), to));
        let edge = if from == to {
            0
        } else {
            self.uses(self.resources.edge(tick, from, to))
        };
        cell.saturating_add(edge)
    }

    /// Notes that a path uses its resources, or no longer does.
    pub fn note(&mut self, path: &[u32], is_used: bool) {
        let mut from = path.first().copied().unwrap_or(0);
        for tick in 1..self.resources.ticks {
            let to = path.get(tick as usize).copied().unwrap_or(from);
            let cell = self.resources.cell(tick, to);
            self.count(cell, is_used);
            if to != from {
                let edge = self.resources.edge(tick.saturating_sub(1), from, to);
                self.count(edge, is_used);
            }
            from = to;
        }
    }

    fn count(&mut self, number: usize, is_used: bool) {
        if is_used {
            self.take(number)
        } else {
            self.leave(number)
        }
    }

    /// Returns what a path costs with what it pays.
    pub fn cost_of(&self, path: &[u32]) -> u64 {
        let arrival = path.len().saturating_sub(1) as u64;
        let mut cost = arrival.saturating_mul(u64::from(self.unit));
        let mut from = path.first().copied().unwrap_or(0);
        for tick in 1..self.end {
            let to = path.get(tick as usize).copied().unwrap_or(from);
            cost = cost.saturating_add(self.of_step(tick.saturating_sub(1), from, to));
            from = to;
        }
        cost
    }
}
