//! The table of constraints that the search over trees fills before it replans an agent.
ghost use Rattle.std.specs.Prelude.{◌≡◌, ◌<◌, ◌↔◌, Contains, IsTrue};
ghost use Rattle.mapf_model.specs.Limits.{split_ticks};
ghost use Rattle.mapf_constraints.specs.BarSets.{arrival, bar_tick, IsLastOn};
ghost use Rattle.mapf_constraints.specs.Chains.{bars_of, mark_index};

use crate::bar_table::BarTable;
use crate::later::{horizon_with, last_with, tick};
use crate::link::Link;
use mapf_model::{Bar, Cell, OutOfMemory, Tick};
use std::alloc::Global;
use std::fmt;
use std::marker::Model;

// How many marks there are.
const MARKS: usize = 512;

/// Constraints in chains, one chain for each remainder of their ticks modulo 64. A query scans the chain of its tick,
/// which is mostly empty or short. For most arrivals the marks show without a scan that no constraint forbids them.
#[derive(Drop)]
pub struct TickBars {
    // In the order in which they were added.
    links: Vec<Link>,
    // For each remainder, the number of links up to and including the newest one of its chain, 0 if it is empty.
    newest: [usize; 64],
    // False if no constraint forbids an arrival that has this mark.
    marks: [bool; MARKS],
    horizon: Tick,
}

impl Model for TickBars {
    ghost use Rattle.std.specs.Prelude.{◌≡◌, ◌≤◌, List, length};
    ghost use Rattle.mapf_model.specs.declared.bar.Bar.{Bar};
    ghost use Rattle.mapf_model.specs.Bars.{AreBars};
    ghost use Rattle.mapf_model.specs.Limits.{split_ticks};
    ghost use Rattle.mapf_constraints.specs.BarSets.{IsHorizon};
    ghost use Rattle.mapf_constraints.specs.Chains.{bars_of, AreChained, AreMarked};

    ghost Value = { List Bar };

    ghost view = { λ table. bars_of table.links.items };

    ghost invariant = { λ table.
        AreBars (bars_of table.links.items)
        × IsHorizon (bars_of table.links.items) table.horizon
        × (table.horizon ≤ split_ticks)
        × AreChained table.links.items table.newest
        × (length table.marks ≡ 512)
        × AreMarked (bars_of table.links.items) table.marks };
}

// The marks follow from the links, so they aren't printed.
impl fmt::Debug for TickBars {
    fn fmt<W: fmt::Write>(&self, f: &mut fmt::Formatter<W>) -> fmt::Result {
        f.debug_struct("TickBars")
            .field("links", &self.links)
            .field("newest", &self.newest)
            .field("horizon", &self.horizon)
            .finish()
    }
}

impl BarTable for TickBars {
    ghost bars = { λ table. table };

    fn empty(alloc: Global) -> TickBars {
        TickBars {
            links: Vec::new(alloc),
            newest: [0; 64],
            marks: [false; MARKS],
            horizon: 0,
        }
    }

    fn bars_cell(&self, cell: Cell, tick: Tick) -> bool {
        self.has(&Bar::Cell { cell, tick })
    }

    fn bars_move(&self, from: Cell, to: Cell, tick: Tick) -> bool {
        self.has(&Bar::Move { from, to, tick })
    }

    fn last_on(&self, cell: Cell) -> Option<Tick> {
        last_among(&self.links, cell)
    }

    fn horizon(&self) -> Tick {
        self.horizon
    }

    fn may_bar_at(&self, at: Tick) -> bool {
        self.newest[at as usize % 64] != 0
    }

    #[inline(always)]
    fn may_bar_arrival(&self, to: Cell, tick: Tick) -> bool {
        self.marks[mark_index(to, tick)]
    }

    fn add(&mut self, bar: Bar) -> Result<(), OutOfMemory> {
        let chain = tick(&bar) as usize % 64;
        self.links.push(Link {
            bar,
            older: self.newest[chain],
        })?;
        self.newest[chain] = self.links.len();
        self.marks[bar_index(&bar)] = true;
        self.horizon = horizon_with(self.horizon, &bar);
        Ok(())
    }

    fn clear(&mut self) {
        self.links.clear();
        self.newest = [0; 64];
        self.marks = [false; MARKS];
        self.horizon = 0;
    }

    fn copy(&self) -> Result<TickBars, OutOfMemory> {
        Ok(TickBars {
            links: self.links.clone()?,
            newest: self.newest,
            marks: self.marks,
            horizon: self.horizon,
        })
    }
}

impl TickBars {
    // Returns whether the set has the constraint.
    #[inline(always)]
    fn has(&self, bar: &Bar) -> bool
        ensures { IsTrue result ↔ Contains self.now bar.now }
    {
        let mut count = self.newest[tick(bar) as usize % 64];
        while count > 0 {
            let link = &self.links[count - 1];
            if link.bar == *bar {
                return true;
            }
            count = link.older;
        }
        false
    }
}

// Returns the index of an arrival's mark. Arrivals at one tick share a mark only if their cells differ by a multiple of
// 512, and arrivals in one cell only if their ticks do.
#[inline(always)]
fn mark_index(to: Cell, tick: Tick) -> usize
    ensures index { result ≡ mark_index (to, tick) }
    ensures inside { result < 512 }
{
    (to.0 as usize + 197 * tick as usize) % MARKS
}

// Returns the index of the mark of the arrival that the constraint forbids.
fn bar_index(bar: &Bar) -> usize
    requires { bar_tick bar.now < split_ticks }
    ensures index { result ≡ mark_index (arrival bar.now) }
    ensures inside { result < 512 }
{
    match bar {
        Bar::Cell { cell, tick } => mark_index(*cell, *tick),
        Bar::Move { from: _, to, tick } => mark_index(*to, *tick + 1),
    }
}

// Returns the greatest tick at which a constraint of the links forbids the cell.
fn last_among(links: &[Link], cell: Cell) -> Option<Tick>
    ensures { IsLastOn (bars_of links.now) cell result }
{
    let mut last = None;
    for link in links {
        last = last_with(last, &link.bar, cell);
    }
    last
}
