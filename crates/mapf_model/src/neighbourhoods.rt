//! The cells around a cell, found without a division. The search for one agent, A* and the checker use them, since they
//! look at many cells.
ghost use Rattle.std.specs.Prelude.{◌≡◌, ◌<◌, ◌/◌, ◌%◌};
ghost use Rattle.mapf_model.specs.Limits.{most_cells};
ghost use Rattle.mapf_model.specs.Neighbours.{neighbourhood};

use crate::cell::{Cell, places_around};
use crate::grid::Grid;
use std::marker::Model;

/// The scale of a reciprocal. Its quotients are exact for the cells of each grid, which are at most 2^22 in number.
const SCALE: u64 = 1 << 33;

/// The neighbourhoods of cells on a grid. They are those of `Cell::neighbourhood`, which divides by the width; here the
/// width's reciprocal is multiplied (Granlund and Montgomery 1994), which takes less time.
#[derive(Debug, Drop)]
pub struct Neighbourhoods {
    width: u32,
    // The scale divided by the width and rounded down, plus 1.
    reciprocal: u64,
}

impl Model for Neighbourhoods {
    ghost use Rattle.std.specs.Prelude.{ℕ, ◌≡◌, ◌+◌, ◌/◌, ◌<◌, ◌≤◌};
    ghost use Rattle.mapf_model.specs.Limits.{greatest_side};

    ghost Value = { ℕ };

    ghost view = { λ n. n.width };

    ghost invariant = { λ n. (0 < n.width) × (n.width ≤ greatest_side) × (n.reciprocal ≡ 8589934592 / n.width + 1) };
}

impl Neighbourhoods {
    /// Returns the neighbourhoods of the cells on this grid.
    pub fn of(grid: &Grid) -> Neighbourhoods
        ensures { result ≡ grid.now.width }
    {
        let width = grid.width();
        Neighbourhoods {
            width,
            reciprocal: SCALE / width as u64 + 1,
        }
    }

    /// Returns the column and the row of a cell, counted from 0.
    #[inline(always)]
    pub fn xy(&self, cell: Cell) -> (u32, u32)
        requires { cell < most_cells }
        ensures column { result.0 ≡ cell % self.now }
        ensures row { result.1 ≡ cell / self.now }
    {
        let Cell(number) = cell;
        let row = (number as u64 * self.reciprocal / SCALE) as u32;
        (number - row * self.width, row)
    }

    /// Returns the cells above and left, the cell itself, and those right and below, in rising order. None for a cell
    /// that would be outside its row or above the first row.
    #[inline(always)]
    pub fn around(&self, cell: Cell) -> [Option<Cell>; 5]
        requires { cell < most_cells }
        ensures { result ≡ neighbourhood self.now cell }
    {
        self.around_in(cell, self.xy(cell).0)
    }

    /// Returns the neighbourhood of a cell in this column.
    #[inline(always)]
    pub fn around_in(&self, cell: Cell, column: u32) -> [Option<Cell>; 5]
        requires small { cell < most_cells }
        requires column { column ≡ cell % self.now }
        ensures { result ≡ neighbourhood self.now cell }
    {
        places_around(cell.0, self.width, column)
    }
}
