//! Whether one agent's path begins, goes on and ends as it should, for the check of plans.
ghost use Rattle.std.specs.Prelude.{◌+◌, ◌<◌, ◌≤◌, ℕ, length, OnOk, IfErr, IfNone, IfSome, slice_index};
ghost use Rattle.mapf_model.specs.Grid.{IsFree, Step};
ghost use Rattle.mapf_model.specs.Limits.{most_path_cells};
ghost use Rattle.mapf_model.specs.Path.{IsLawful};
ghost use Rattle.mapf_checker.specs.PathDefects.{HasPathDefect};

use mapf_model::{Agent, Cell, Grid, Path, Tick, laws};

/// What is wrong with one agent's path.
#[derive(Clone, Copy)]
pub enum PathFault {
    WrongStart,
    BadStep { tick: Tick },
    WrongGoal,
}

/// Checks that the path is lawful for the agent. Returns the first error along the path otherwise.
pub fn check_path(grid: &Grid, agent: &Agent, path: &Path) -> Result<(), PathFault>
    requires { IsFree grid.now agent.now.start }
    ensures lawful { OnOk result (IsLawful grid.now agent.now path.now) }
    ensures fault { IfErr result (HasPathDefect grid.now agent.now path.now) }
{
    laws::definitions_are_decided();
    let cells = path.cells();
    if cells[0] != agent.start {
        return Err(PathFault::WrongStart);
    }
    if let Some(tick) = first_bad_step(grid, cells) {
        return Err(PathFault::BadStep { tick });
    }
    if cells[cells.len() - 1] != agent.goal {
        return Err(PathFault::WrongGoal);
    }
    Ok(())
}

// Returns the least index from which there is no step to the next cell.
fn first_bad_step(grid: &Grid, cells: &[Cell]) -> Option<Tick>
    requires { length cells.now ≤ most_path_cells }
    ensures some { IfSome result (λ k. k + 1 < length cells.now) }
    ensures bad { IfSome result (λ k. Step grid.now (slice_index cells.now k) (slice_index cells.now (k + 1)) → ⊥) }
    ensures none { IfNone result ((k : ℕ) → k + 1 < length cells.now
        → Step grid.now (slice_index cells.now k) (slice_index cells.now (k + 1))) }
{
    for k in 1..cells.len() {
        if !grid.is_step(cells[k - 1], cells[k]) {
            return Some((k - 1) as u32);
        }
    }
    None
}
