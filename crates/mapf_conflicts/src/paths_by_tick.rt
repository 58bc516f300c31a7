//! What the search for the first conflict asks of paths, so that it is written once for lists, the root and other
//! nodes.
ghost use Rattle.std.specs.Prelude.{◌≡◌, ◌≤◌, ℕ, List, All, length};
ghost use Rattle.mapf_model.specs.Limits.{most_path_cells};
ghost use Rattle.mapf_conflicts.specs.Pairs.{cells_at};

use mapf_model::{Cell, Tick};

/// Paths of agents that can be asked for the cells of all agents at a tick.
pub trait PathsByTick {
    /// The paths, in the order of their agents.
    ghost paths: { Self → List (List ℕ) };

    /// Returns the number of paths.
    fn count(&self) -> usize
        ensures { result ≡ length (paths self.now) };

    /// Returns a bound on the lengths of the paths: at least 1, and at least the number of cells of each path.
    fn length_bound(&self) -> Tick
        ensures longest { All (λ path. length path ≤ result) (paths self.now) }
        ensures positive { 1 ≤ result }
        ensures bounded { result ≤ most_path_cells };

    /// Writes the agents' cells at the tick, in the order of the agents.
    fn write_cells(&self, tick: Tick, cells: &mut [Cell])
        requires { length cells.old ≡ length (paths self.now) }
        ensures { cells.new ≡ cells_at (paths self.now) tick };
}
