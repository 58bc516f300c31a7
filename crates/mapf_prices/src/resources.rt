//! What one agent at most can use: a cell at a tick, or an edge between a tick and the next.
use mapf_lemmas::Price;
use mapf_model::{Cell, Grid, OutOfMemory, Tick};
use std::alloc::Global;

/// Stands for a cell that isn't there.
pub const NOWHERE: u32 = u32::MAX;

/// The ways to leave a cell: to the right, down, to the left, up, and to stay.
pub const WAYS: usize = 5;

/// The way that stays.
pub const STAY: usize = 4;

/// The resources of a grid up to a tick, each with a number.
#[derive(Debug, Drop)]
pub struct Resources {
    width: u32,
    pub cells: usize,
    /// Only resources before this tick have a number.
    pub ticks: Tick,
    // By cell, the cell to which each of the five ways leads.
    beside: Vec<u32>,
}

impl Resources {
    /// Returns the resources of a grid before this tick.
    pub fn of(alloc: Global, grid: &Grid, ticks: Tick) -> Result<Resources, OutOfMemory> {
        let (width, height) = (grid.width(), grid.height());
        let mut beside = Vec::with_capacity(alloc, (width * height) as usize)?;
        for cell in 0..width * height {
            let (x, y) = (cell % width.max(1), cell / width.max(1));
            beside.push(free(grid, x.saturating_add(1), y))?;
            beside.push(free(grid, x, y.saturating_add(1)))?;
            beside.push(free(grid, x.wrapping_sub(1), y))?;
            beside.push(free(grid, x, y.wrapping_sub(1)))?;
            beside.push(cell)?;
        }
        Ok(Resources {
            width,
            cells: (width * height) as usize,
            ticks,
            beside,
        })
    }

    /// Returns how many resources there are.
    pub fn count(&self) -> usize {
        self.cells
            .saturating_mul(self.ticks as usize)
            .saturating_mul(3)
    }

    /// Returns where a way leads, `NOWHERE` if to no free cell.
    #[inline(always)]
    pub fn beside(&self, cell: u32, way: usize) -> u32 {
        let place = (cell as usize).saturating_mul(WAYS).saturating_add(way);
        self.beside.get(place).copied().unwrap_or(NOWHERE)
    }

    /// Returns the number of a cell at a tick.
    #[inline(always)]
    pub fn cell(&self, tick: Tick, cell: u32) -> usize {
        (tick as usize)
            .saturating_mul(self.cells)
            .saturating_add(cell as usize)
            .saturating_mul(3)
    }

    /// Returns the number of the edge between two adjacent cells, from a tick to the next.
    #[inline(always)]
    pub fn edge(&self, tick: Tick, from: u32, to: u32) -> usize {
        let first = from.min(to);
        let kind = if from.abs_diff(to) == 1 { 1 } else { 2 };
        self.cell(tick, first).saturating_add(kind)
    }

    /// Returns the tick of a resource by its number. That of an edge is the one from which it leads to the next.
    pub fn tick_of(&self, number: usize) -> Tick {
        let tick = (number / 3).checked_div(self.cells).unwrap_or(0);
        u32::try_from(tick).unwrap_or(0)
    }

    /// Returns the price of a resource by its number, as a list states it. None if there is no such resource.
    pub fn price(&self, number: usize, amount: u32) -> Option<Price> {
        let place = number / 3;
        let tick = u32::try_from(place.checked_div(self.cells)?).ok()?;
        let cell = u32::try_from(place.checked_rem(self.cells)?).ok()?;
        let to = match number % 3 {
            0 => {
                return Some(Price::Cell {
                    cell: Cell(cell),
                    tick,
                    amount,
                });
            }
            1 => cell.saturating_add(1),
            _ => cell.saturating_add(self.width),
        };
        Some(Price::Edge {
            from: Cell(cell),
            to: Cell(to),
            tick,
            amount,
        })
    }
}

// Returns the number of a cell if it is free.
fn free(grid: &Grid, x: u32, y: u32) -> u32 {
    match grid.cell(x, y) {
        Some(cell) if grid.is_free(cell) => cell.0,
        _ => NOWHERE,
    }
}
