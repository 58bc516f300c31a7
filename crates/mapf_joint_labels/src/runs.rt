//! Runs: where, in a sorted list of pairs of cells, the pairs with the same first cell stand. The judge of joint cells
//! and the marks of joint entries find pairs by them.
ghost use Rattle.std.specs.Prelude.{◌≡◌, ◌≤◌, length, slice_set, OnOk};
ghost use Rattle.mapf_model.specs.Limits.{most_cells};
ghost use Rattle.mapf_joint_labels.specs.Runs.{run_of};

use mapf_model::{Cell, OutOfMemory};
use std::alloc::Global;
use std::marker::Model;

/// A run: the indices from `begin` on, below `end`.
#[derive(Clone, Copy, Debug, PartialEq, Eq)]
pub struct Run {
    pub begin: usize,
    pub end: usize,
}

/// A run for each cell of a grid. They are never cleared: a run counts only if the pair that is found in it is the one
/// that was asked for. So one value serves for all lists on a grid.
#[derive(Drop)]
pub struct CellRuns {
    runs: Vec<Run>,
}

impl Model for CellRuns {
    ghost use Rattle.std.specs.Prelude.{List};
    ghost use Rattle.mapf_joint_labels.specs.declared.runs.Run.{Run};

    ghost Value = { List Run };

    ghost view = { λ runs. runs.runs.items };
}

impl CellRuns {
    /// Returns runs of no cells, which take no memory.
    pub fn new(alloc: Global) -> CellRuns
        ensures { length result ≡ 0 }
    {
        CellRuns {
            runs: Vec::new(alloc),
        }
    }

    /// Makes runs for the cells below this number, if they aren't made yet.
    pub fn make(&mut self, cells: usize) -> Result<(), OutOfMemory>
        ensures { OnOk result (cells ≤ length self.new) }
    {
        if self.runs.len() < cells {
            self.runs.resize(cells, Run { begin: 0, end: 0 })?;
        }
        Ok(())
    }

    /// Returns the run of the cell, an empty one if none was made.
    #[inline(always)]
    pub fn get(&self, cell: Cell) -> Run
        ensures { result ≡ run_of self.now cell }
    {
        match self.runs.get(cell.0 as usize) {
            Some(run) => *run,
            None => Run { begin: 0, end: 0 },
        }
    }

    /// Sets the run of the cell, if one was made for it.
    #[inline(always)]
    pub fn set(&mut self, cell: Cell, run: Run)
        ensures { self.new ≡ slice_set self.old cell run }
    {
        let place = cell.0 as usize;
        if place < self.runs.len() {
            self.runs[place] = run;
        }
    }
}
