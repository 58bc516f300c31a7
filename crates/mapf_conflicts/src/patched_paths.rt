//! The paths of a node: those of the root, but for the agents that were replanned. The search over trees hands them to
//! the search for the first conflict.
ghost use Rattle.std.specs.Prelude.{◌≡◌, ◌<◌, ◌≤◌, All, length};
ghost use Rattle.mapf_model.specs.Limits.{most_path_cells};
ghost use Rattle.mapf_conflicts.specs.Pairs.{cells_at};
ghost use Rattle.mapf_conflicts.specs.Replacements.{with_replacements};

use crate::base_paths::BasePaths;
use crate::paths_by_tick::PathsByTick;
use mapf_model::{Cell, Path, Tick};
use std::marker::Model;

/// A path that takes the place of an agent's path.
#[derive(Clone, Copy, Debug)]
pub struct Replacement<'a> {
    pub agent: u32,
    pub path: &'a Path,
}

/// The paths of a base, with those of some agents replaced.
#[derive(Drop)]
pub struct PatchedPaths<'a> {
    base: &'a BasePaths,
    replacements: &'a [Replacement<'a>],
}

impl<'a> Model for PatchedPaths<'a> {
    ghost use Rattle.std.specs.Prelude.{◌<◌, List, ℕ, All, length};
    ghost use Rattle.mapf_conflicts.specs.Replacements.{with_replacements};

    ghost Value = { List (List ℕ) };

    ghost view = { λ paths. with_replacements paths.base.now paths.replacements.now };

    ghost invariant = { λ paths. All (λ one. one.agent < length paths.base.now) paths.replacements.now };
}

impl<'a> PatchedPaths<'a> {
    /// Returns the paths of the base, with the replacements applied in order.
    pub fn of(base: &'a BasePaths, replacements: &'a [Replacement<'a>]) -> PatchedPaths<'a>
        requires { All (λ one. one.agent < length base.now) replacements.now }
        ensures { result ≡ with_replacements base.now replacements.now }
    {
        PatchedPaths { base, replacements }
    }
}

impl<'a> PathsByTick for PatchedPaths<'a> {
    ghost paths = { λ paths. paths };

    fn count(&self) -> usize {
        self.base.count()
    }

    fn length_bound(&self) -> Tick {
        bound_with(self.base, self.replacements)
    }

    fn write_cells(&self, tick: Tick, cells: &mut [Cell]) {
        write_cells(self.base, self.replacements, tick, cells);
    }
}

// Returns a bound on the lengths of the paths.
fn bound_with(base: &BasePaths, replacements: &[Replacement]) -> Tick
    ensures longest { All (λ path. length path ≤ result) (with_replacements base.now replacements.now) }
    ensures positive { 1 ≤ result }
    ensures bounded { result ≤ most_path_cells }
{
    let mut longest = base.length_bound();
    for replacement in replacements {
        longest = longest.max(replacement.path.cells().len() as Tick);
    }
    longest
}

// Writes the agents' cells at the tick.
fn write_cells(base: &BasePaths, replacements: &[Replacement], tick: Tick, cells: &mut [Cell])
    requires known { All (λ one. one.agent < length base.now) replacements.now }
    requires size { length cells.old ≡ length base.now }
    ensures { cells.new ≡ cells_at (with_replacements base.now replacements.now) tick }
{
    base.write_cells(tick, cells);
    for replacement in replacements {
        cells[replacement.agent as usize] = replacement.path.at(tick);
    }
}
