//! A plain list of paths, as the search for the first conflict reads it.
ghost use Rattle.std.specs.Prelude.{◌≡◌, ◌≤◌, ℕ, List, All, length, map};
ghost use Rattle.mapf_model.specs.Limits.{most_path_cells};
ghost use Rattle.mapf_conflicts.specs.Pairs.{cells_at};

use crate::paths_by_tick::PathsByTick;
use mapf_model::{Cell, Path, Tick};
use std::marker::Model;

/// A path, or a reference to one.
pub trait AsPath {
    /// The path's cells.
    ghost cells: { Self → List ℕ };

    /// Returns the path.
    fn as_path(&self) -> &Path
        ensures { result.now ≡ cells self.now };
}

impl AsPath for Path {
    ghost cells = { λ path. path };

    fn as_path(&self) -> &Path {
        self
    }
}

impl<'a> AsPath for &'a Path {
    ghost cells = { λ path. path.now };

    fn as_path(&self) -> &Path {
        *self
    }
}

/// Paths that are read one by one.
#[derive(Drop)]
pub struct PathList<'a, P: AsPath> {
    paths: &'a [P],
}

impl<'a, P: AsPath> Model for PathList<'a, P> {
    ghost use Rattle.std.specs.Prelude.{List, ℕ, map};

    ghost Value = { List (List ℕ) };

    ghost view = { λ list. map P.cells list.paths.now };
}

impl<'a, P: AsPath> PathList<'a, P> {
    /// Returns the list of these paths.
    pub fn of(paths: &'a [P]) -> PathList<'a, P>
        ensures { result ≡ map P.cells paths.now }
    {
        PathList { paths }
    }
}

impl<'a, P: AsPath> PathsByTick for PathList<'a, P> {
    ghost paths = { λ list. list };

    fn count(&self) -> usize {
        self.paths.len()
    }

    fn length_bound(&self) -> Tick {
        longest(self.paths)
    }

    fn write_cells(&self, tick: Tick, cells: &mut [Cell]) {
        write_cells(self.paths, tick, cells);
    }
}

// Returns the number of cells of the longest path, 1 if there are no paths.
fn longest<P: AsPath>(paths: &[P]) -> Tick
    ensures longest { All (λ path. length path ≤ result) (map P.cells paths.now) }
    ensures positive { 1 ≤ result }
    ensures bounded { result ≤ most_path_cells }
{
    let mut longest = 1;
    for path in paths {
        longest = longest.max(path.as_path().cells().len());
    }
    longest as Tick
}

// Writes the agents' cells at the tick.
fn write_cells<P: AsPath>(paths: &[P], tick: Tick, cells: &mut [Cell])
    requires { length cells.old ≡ length paths.now }
    ensures { cells.new ≡ cells_at (map P.cells paths.now) tick }
{
    for (i, path) in paths.iter().enumerate() {
        cells[i] = path.as_path().at(tick);
    }
}
