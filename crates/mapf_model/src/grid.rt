//! The grid: which cells are free, and which steps there are. The reader of maps makes it, and the search and the
//! checker ask it.
ghost use Rattle.std.specs.Prelude.{◌≡◌, ◌+◌, ◌*◌, ◌<◌, ◌≤◌, ℕ, IfSome, IsSome, IsTrue, ◌↔◌, Contains, false, length};
ghost use Rattle.std.specs.Prelude.{slice_index_or};
ghost use Rattle.std.specs.List.Sorted.{IsStrictlyIncreasing};
ghost use Rattle.mapf_model.specs.Limits.{greatest_side};
ghost use Rattle.mapf_model.specs.Grid.{GridMap, IsFree, AreAdjacent, Step, IsGridMap, column, row};

use crate::cell::Cell;
use crate::limits::GREATEST_SIDE;
use smallvec::SmallVec;
use std::alloc::Global;
use std::marker::Model;

/// A rectangular grid of cells, some of them free.
#[derive(Debug, Drop)]
pub struct Grid {
    width: u32,
    height: u32,
    free: Vec<bool>,
}

impl Model for Grid {
    ghost Value = { GridMap };

    ghost view = { λ g. record { width = g.width; height = g.height; free = g.free.items } };

    ghost invariant = { λ g. IsGridMap (record { width = g.width; height = g.height; free = g.free.items }) };
}

impl Grid {
    /// Returns the grid of these sizes, in cells, with a flag for each cell by its number: `true` means free. None
    /// unless both sizes are 1 to 2,048 and there are `width * height` flags.
    pub fn of(width: u32, height: u32, free: Vec<bool>) -> Option<Grid>
        ensures good { IsSome result ↔ IsGridMap (record { width = width; height = height; free = free.items }) }
        ensures value { IfSome result (λ grid. grid ≡ record { width = width; height = height; free = free.items }) }
    {
        if width < 1 || width > GREATEST_SIDE || height < 1 || height > GREATEST_SIDE {
            return None;
        }
        if free.len() != (width * height) as usize {
            return None;
        }
        Some(Grid {
            width,
            height,
            free,
        })
    }

    /// Returns the number of its columns, 1 to 2,048.
    pub fn width(&self) -> u32
        ensures width { result ≡ self.now.width }
        ensures positive { 0 < result }
        ensures at_most { result ≤ greatest_side }
        ensures shape { IsGridMap self.now }
    {
        self.width
    }

    /// Returns the number of its rows, 1 to 2,048.
    pub fn height(&self) -> u32
        ensures height { result ≡ self.now.height }
        ensures positive { 0 < result }
        ensures at_most { result ≤ greatest_side }
    {
        self.height
    }

    /// Returns whether the cell is free. Outside the grid no cell is.
    pub fn is_free(&self, cell: Cell) -> bool
        ensures { IsTrue result ↔ IsFree self.now cell }
    {
        matches!(self.free.get(cell.0 as usize), Some(true))
    }

    /// Returns for each cell of a row, from the left to the right, whether it is free. Rows are counted from 0 at the
    /// top.
    pub fn row(&self, y: u32) -> &[bool]
        requires { y < self.now.height }
        // The flags are those of the cells of the row.
        ensures count { length result.now ≡ self.now.width }
        ensures free { (x : ℕ) → x < self.now.width → slice_index_or result.now x false
            ≡ slice_index_or self.now.free (y * self.now.width + x) false }
    {
        let first = (y * self.width) as usize;
        &self.free[first..first + self.width as usize]
    }

    /// Returns the column and the row of a cell, counted from 0.
    pub fn xy(&self, cell: Cell) -> (u32, u32)
        requires { cell < self.now.width * self.now.height }
        ensures column { result.0 ≡ column self.now cell }
        ensures row { result.1 ≡ row self.now cell }
    {
        (cell.0 % self.width, cell.0 / self.width)
    }

    /// Returns the cell in this column and row, None outside the grid.
    pub fn cell(&self, x: u32, y: u32) -> Option<Cell>
        ensures inside { IsSome result ↔ ((x < self.now.width) × (y < self.now.height)) }
        ensures number { IfSome result (λ cell. cell ≡ y * self.now.width + x) }
    {
        if x < self.width && y < self.height {
            Some(Cell(y * self.width + x))
        } else {
            None
        }
    }

    /// Returns where an agent may be one tick after it is in the cell: there, or in an adjacent free cell.
    pub fn steps(&self, alloc: Global, cell: Cell) -> SmallVec<Cell, 5>
        requires { IsFree self.now cell }
        // The steps from a cell are exactly waiting and the moves to adjacent free cells.
        ensures exact { (to : ℕ) → Contains result.items to ↔ Step self.now cell to }
        // They come in rising number.
        ensures rising { IsStrictlyIncreasing result.items }
    {
        let mut steps = SmallVec::new(alloc);
        for place in cell.neighbourhood(self.width()) {
            if let Some(next) = place {
                if self.is_free(next) {
                    steps.push_reserved(next);
                }
            }
        }
        steps
    }

    /// Returns whether an agent may be in the second cell one tick after it is in the first.
    pub fn is_step(&self, from: Cell, to: Cell) -> bool
        ensures { IsTrue result ↔ Step self.now from to }
    {
        if !self.is_free(from) {
            return false;
        }
        self.is_free(to) && from.neighbourhood(self.width()).contains(&Some(to))
    }

    /// Returns whether the two cells are free and differ by one in exactly one coordinate.
    pub fn are_adjacent(&self, from: Cell, to: Cell) -> bool
        ensures { IsTrue result ↔ AreAdjacent self.now from to }
    {
        from != to && self.is_step(from, to)
    }
}
