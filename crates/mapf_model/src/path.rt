//! The path of one agent, and its cost. The searches for one agent make it, and so does the reader of plan texts.
ghost use Rattle.std.specs.Prelude.{◌≡◌, ◌≢◌, ◌<◌, ◌≤◌, ◌-◌, ◌↔◌, ℕ, List, length, IfSome, IfNone, IsSome};
ghost use Rattle.std.specs.Prelude.{IsTrue};
ghost use Rattle.mapf_model.specs.Limits.{most_path_cells};
ghost use Rattle.mapf_model.specs.Path.{at, IsCost, IsTight};

use crate::cell::{Cell, Tick};
use crate::limits::MOST_PATH_CELLS;
use std::marker::Model;

/// A path of 1 to 10,000,000 cells, one for each tick from 0 on. After its end the agent stays at the last cell.
/// Consecutive cells need not be a step.
#[derive(Debug, Drop)]
pub struct Path {
    cells: Vec<Cell>,
}

impl Model for Path {
    ghost Value = { List ℕ };

    ghost view = { λ p. p.cells.items };

    ghost invariant = { λ p. (1 ≤ length p.cells.items) × (length p.cells.items ≤ most_path_cells) };
}

impl Path {
    /// Returns the path of these cells. None unless there are 1 to 10,000,000.
    pub fn of(cells: Vec<Cell>) -> Option<Path>
        ensures size { IsSome result ↔ ((1 ≤ length cells.items) × (length cells.items ≤ most_path_cells)) }
        ensures value { IfSome result (λ path. path ≡ cells.items) }
    {
        if cells.len() < 1 || cells.len() > MOST_PATH_CELLS {
            return None;
        }
        Some(Path { cells })
    }

    /// Returns the cells, one for each tick from 0 on.
    pub fn cells(&self) -> &[Cell]
        ensures value { result.now ≡ self.now }
        ensures some { 1 ≤ length result.now }
        ensures few { length result.now ≤ most_path_cells }
    {
        &self.cells
    }

    /// Returns the cell at this tick, also after the path's end.
    pub fn at(&self, tick: Tick) -> Cell
        ensures { result ≡ at self.now tick }
    {
        self.cells[(tick as usize).min(self.cells.len() - 1)]
    }

    /// Returns the least tick from which on the agent is at the goal. None if the last cell isn't the goal.
    pub fn cost(&self, goal: Cell) -> Option<u32>
        ensures cost { IfSome result (λ cost. IsCost goal self.now cost) }
        // None is returned only if the path ends elsewhere.
        ensures none { IfNone result (at self.now (length self.now - 1) ≢ goal) }
    {
        let mut cost = self.cells.len();
        while cost > 0 && self.cells[cost - 1] == goal {
            cost -= 1;
        }
        if cost == self.cells.len() {
            return None;
        }
        Some(cost as u32)
    }

    /// Returns whether the path has no trailing waits: it has one cell, or its last two cells differ.
    pub fn is_tight(&self) -> bool
        ensures { IsTrue result ↔ IsTight self.now }
    {
        let n = self.cells.len();
        n == 1 || self.cells[n - 1] != self.cells[n - 2]
    }
}
