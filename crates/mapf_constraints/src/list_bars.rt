//! The plain table of constraints, which the simple search uses, and with which tests compare `TickBars`.
ghost use Rattle.mapf_model.specs.Limits.{split_ticks};
ghost use Rattle.mapf_constraints.specs.BarSets.{AreBefore, IsHorizon, IsLastOn};

use crate::bar_table::BarTable;
use crate::later::{horizon_with, last_with};
use mapf_model::{Bar, Cell, OutOfMemory, Tick};
use std::alloc::Global;
use std::marker::Model;

/// A plain list of constraints: each query scans all of them.
#[derive(Debug, Drop)]
pub struct ListBars {
    bars: Vec<Bar>,
}

impl Model for ListBars {
    ghost use Rattle.std.specs.Prelude.{List};
    ghost use Rattle.mapf_model.specs.declared.bar.Bar.{Bar};
    ghost use Rattle.mapf_model.specs.Bars.{AreBars};
    ghost use Rattle.mapf_model.specs.Limits.{split_ticks};
    ghost use Rattle.mapf_constraints.specs.BarSets.{AreBefore};

    ghost Value = { List Bar };

    ghost view = { λ table. table.bars.items };

    ghost invariant = { λ table. AreBars table.bars.items × AreBefore split_ticks table.bars.items };
}

impl BarTable for ListBars {
    ghost bars = { λ table. table };

    fn empty(alloc: Global) -> ListBars {
        ListBars {
            bars: Vec::new(alloc),
        }
    }

    fn bars_cell(&self, cell: Cell, tick: Tick) -> bool {
        self.bars.contains(&Bar::Cell { cell, tick })
    }

    fn bars_move(&self, from: Cell, to: Cell, tick: Tick) -> bool {
        self.bars.contains(&Bar::Move { from, to, tick })
    }

    fn last_on(&self, cell: Cell) -> Option<Tick> {
        last_among(&self.bars, cell)
    }

    fn horizon(&self) -> Tick {
        horizon_of(&self.bars)
    }

    fn add(&mut self, bar: Bar) -> Result<(), OutOfMemory> {
        self.bars.push(bar)?;
        Ok(())
    }

    fn clear(&mut self) {
        self.bars.clear();
    }

    fn copy(&self) -> Result<ListBars, OutOfMemory> {
        Ok(ListBars {
            bars: self.bars.clone()?,
        })
    }
}

// Returns the greatest tick at which one of the constraints forbids the cell.
fn last_among(bars: &[Bar], cell: Cell) -> Option<Tick>
    ensures { IsLastOn bars.now cell result }
{
    let mut last = None;
    for bar in bars {
        last = last_with(last, bar, cell);
    }
    last
}

// Returns the least tick greater than those of the constraints.
fn horizon_of(bars: &[Bar]) -> Tick
    requires { AreBefore split_ticks bars.now }
    ensures { IsHorizon bars.now result }
{
    let mut horizon = 0;
    for bar in bars {
        horizon = horizon_with(horizon, bar);
    }
    horizon
}
