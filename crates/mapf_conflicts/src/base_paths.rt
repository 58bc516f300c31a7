//! The paths of the root, kept so that the cells of all agents at a tick are found together. The search over trees
//! makes them once.
ghost use Rattle.std.specs.Prelude.{◌≡◌, ◌≤◌, All, IfOk, length};
ghost use Rattle.mapf_model.specs.Limits.{most_agents, most_path_cells};
ghost use Rattle.mapf_conflicts.specs.Pairs.{cells_at};
ghost use Rattle.mapf_conflicts.specs.Replacements.{AreRowsOf};

use crate::path_list::PathList;
use crate::paths_by_tick::PathsByTick;
use mapf_model::limits::MOST_AGENTS;
use mapf_model::{Cell, OutOfMemory, Path, Tick};
use std::alloc::Global;
use std::marker::Model;

/// The greatest number of ticks for which a base keeps the cells of all agents together. These then take 200 KiB.
pub const MOST_ROWS: Tick = 256;

/// Paths of which others are made by replacing some. The cells of all agents at each of the first ticks are kept
/// together, so that they are found without a look at each path.
#[derive(Debug, Drop)]
pub struct BasePaths {
    paths: Vec<Path>,
    // The number of cells of the longest path, 1 if there are no paths.
    longest: Tick,
    // For each of the first ticks the agents' cells, followed by entries that aren't used.
    rows: Vec<[Cell; MOST_AGENTS as usize]>,
}

impl Model for BasePaths {
    ghost use Rattle.std.specs.Prelude.{◌≤◌, List, ℕ, All, length};
    ghost use Rattle.mapf_model.specs.Limits.{most_agents, most_path_cells};
    ghost use Rattle.mapf_conflicts.specs.Replacements.{AreRowsOf};

    ghost Value = { List (List ℕ) };

    ghost view = { λ base. base.paths.items };

    ghost invariant = { λ base. (length base.paths.items ≤ most_agents)
        × All (λ path. length path ≤ base.longest) base.paths.items × (1 ≤ base.longest)
        × (base.longest ≤ most_path_cells) × AreRowsOf base.rows.items base.paths.items };
}

impl BasePaths {
    /// Returns the base of these paths.
    pub fn of(alloc: Global, paths: Vec<Path>) -> Result<BasePaths, OutOfMemory>
        requires { length paths.items ≤ most_agents }
        ensures { IfOk result (λ base. base ≡ paths.items) }
    {
        let longest = PathList::of(&paths[..]).length_bound();
        let rows = rows_of(alloc, &paths, longest.min(MOST_ROWS))?;
        Ok(BasePaths {
            paths,
            longest,
            rows,
        })
    }

    /// Returns the paths.
    pub fn paths(&self) -> &[Path]
        ensures { result.now ≡ self.now }
    {
        &self.paths
    }
}

impl PathsByTick for BasePaths {
    ghost paths = { λ base. base };

    fn count(&self) -> usize {
        self.paths.len()
    }

    fn length_bound(&self) -> Tick {
        self.longest
    }

    fn write_cells(&self, tick: Tick, cells: &mut [Cell]) {
        match self.rows.get(tick as usize) {
            Some(row) => cells.copy_from_slice(&row[..cells.len()]),
            None => PathList::of(&self.paths[..]).write_cells(tick, cells),
        }
    }
}

// Returns the agents' cells at each tick below `end`.
fn rows_of(
    alloc: Global,
    paths: &[Path],
    end: Tick,
) -> Result<Vec<[Cell; MOST_AGENTS as usize]>, OutOfMemory>
    requires { length paths.now ≤ most_agents }
    ensures { IfOk result (λ rows. AreRowsOf rows.items paths.now) }
{
    let mut rows = Vec::with_capacity(alloc, end as usize)?;
    for tick in 0..end {
        let mut row = [Cell(0); MOST_AGENTS as usize];
        PathList::of(paths).write_cells(tick, &mut row[..paths.len()]);
        rows.push(row)?;
    }
    Ok(rows)
}
