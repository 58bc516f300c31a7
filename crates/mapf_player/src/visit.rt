//! The visits of a path, which are what the dispatcher keeps of a plan.
ghost use Rattle.std.specs.Prelude.{◌≡◌, ◌<◌, ◌≤◌, ◌↔◌, All, IfOk, IsTrue, length};
ghost use Rattle.mapf_model.specs.Limits.{most_path_cells};
ghost use Rattle.mapf_player.specs.Visits.{AreVisitsOf, IsEntry};

use mapf_model::{Cell, OutOfMemory, Path, Tick};
use std::alloc::Global;
use std::marker::Model;

/// A visit of a cell: the cell, and the tick of the plan at which the agent enters it.
#[derive(Clone, Copy, Debug, PartialEq, Eq)]
pub struct Visit {
    pub cell: Cell,
    pub entry: Tick,
}

// Returns whether an agent on the path of these cells enters a cell at this tick.
fn is_entry(cells: &[Cell], tick: usize) -> bool
    requires { tick < length cells.now }
    ensures { IsTrue result ↔ IsEntry cells.now tick }
{
    tick == 0 || cells[tick] != cells[tick - 1]
}

/// The visits of one path, in order.
#[derive(Debug, Drop)]
pub struct Visits {
    visits: Vec<Visit>,
}

impl Model for Visits {
    ghost use Rattle.std.specs.Prelude.{List, ◌≤◌, ◌<◌, length, All};
    ghost use Rattle.mapf_model.specs.Limits.{most_path_cells};
    ghost use Rattle.mapf_player.specs.declared.visit.Visit.{Visit};

    ghost Value = { List Visit };

    ghost view = { λ v. v.visits.items };

    ghost invariant = { λ v. (length v.visits.items ≤ most_path_cells)
        × All (λ visit. visit.entry < most_path_cells) v.visits.items };
}

impl Visits {
    /// Returns the visits of this path.
    pub fn of(alloc: Global, path: &Path) -> Result<Visits, OutOfMemory>
        ensures { IfOk result (λ visits. AreVisitsOf path.now visits) }
    {
        let cells = path.cells();
        let mut visits = Vec::new(alloc);
        for (tick, cell) in cells.iter().enumerate() {
            if is_entry(cells, tick) {
                visits.push(Visit {
                    cell: *cell,
                    entry: tick as Tick,
                })?;
            }
        }
        Ok(Visits { visits })
    }

    /// Returns the visits in their order.
    pub fn as_slice(&self) -> &[Visit]
        ensures value { result.now ≡ self.now }
        ensures few { length result.now ≤ most_path_cells }
        ensures early { All (λ visit. visit.entry < most_path_cells) result.now }
    {
        &self.visits
    }
}
