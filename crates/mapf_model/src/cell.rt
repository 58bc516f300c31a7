//! Cells and ticks, by which all crates name places and times, and the cells around a cell.
ghost use Rattle.std.specs.Prelude.{◌≡◌, ◌+◌, ◌%◌, ◌<◌, ◌^◌};
ghost use Rattle.mapf_model.specs.Neighbours.{neighbourhood};

use std::marker::Model;

/// A cell by its number on a grid, `y * width + x`, with (0, 0) at the top left.
#[derive(Clone, Copy, Debug, Default, PartialEq, Eq, PartialOrd, Ord, Hash)]
pub struct Cell(pub u32);

impl Model for Cell {
    ghost use Rattle.std.specs.Prelude.{ℕ};

    ghost Value = { ℕ };

    ghost view = { λ cell. cell.0 };

    ghost inverse = { λ n. record { 0 = n } };
}

impl Cell {
    /// Returns the cells above and left, the cell itself, and those right and below, in rising order, on a grid of this
    /// width. None for a cell that would be outside its row or above the first row.
    pub fn neighbourhood(self, width: u32) -> [Option<Cell>; 5]
        requires wide { 0 < width }
        requires small { self + width < 2 ^ 32 }
        ensures { result ≡ neighbourhood width self }
    {
        let Cell(number) = self;
        places_around(number, width, number % width)
    }
}

/// Returns the neighbourhood of the cell of this number, which is in this column.
#[inline(always)]
pub fn places_around(number: u32, width: u32, column: u32) -> [Option<Cell>; 5]
    requires column { column ≡ number % width }
    requires wide { 0 < width }
    requires small { number + width < 2 ^ 32 }
    ensures { result ≡ neighbourhood width number }
{
    [
        (width <= number).then(|| Cell(number - width)),
        (column > 0).then(|| Cell(number - 1)),
        Some(Cell(number)),
        (column + 1 < width).then(|| Cell(number + 1)),
        Some(Cell(number + width)),
    ]
}

/// A time step, counted from 0. In one tick each agent waits or moves to an adjacent cell.
pub type Tick = u32;
