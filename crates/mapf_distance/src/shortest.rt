//! The shortest path of an agent without constraints, found by A*. A search over trees begins with one for each agent.
ghost use Rattle.std.specs.Prelude.{◌≡◌, ℕ, ◌+◌, ◌-◌, ◌<◌, ◌≤◌, ◌↔◌, IfOk, IsTrue, MatchOption, length};
ghost use Rattle.mapf_model.specs.Distance.{IsDistance, IsUnreachable};
ghost use Rattle.mapf_model.specs.Grid.{IsFree, Step};
ghost use Rattle.mapf_distance.specs.Distances.{IsShortestPath};
ghost use Rattle.mapf_distance.specs.Search.{IsSettled, estimate};

use crate::search::Search;
use mapf_model::{Cell, Grid, OutOfMemory, Path};
use std::alloc::Global;

/// Returns a shortest path from the start to the goal, of all these the lexicographically least by cell numbers. None
/// if no steps lead there. The search runs from the goal towards the start and reaches few cells that are farther from
/// both.
pub fn shortest_path(
    alloc: Global,
    grid: &Grid,
    start: Cell,
    goal: Cell,
) -> Result<Option<Path>, OutOfMemory>
    requires start { IsFree grid.now start }
    requires goal { IsFree grid.now goal }
    ensures { IfOk result (λ found. MatchOption found
        (IsUnreachable grid.now goal start)
        (IsShortestPath grid.now start goal)) }
{
    let mut search = Search::of(alloc, grid, start, goal)?;
    search.settle(grid)?;
    let Some(distance) = search.found() else {
        return Ok(None);
    };
    Ok(Some(descend(alloc, grid, &search, distance)?))
}

// Returns the least shortest path from the start of a search that has expanded all cells of its f-value.
fn descend(alloc: Global, grid: &Grid, search: &Search, distance: u32) -> Result<Path, OutOfMemory>
    requires settled { IsSettled grid.now distance search.now }
    requires distance { IsDistance grid.now search.now.goal search.now.start distance }
    ensures { IfOk result (IsShortestPath grid.now search.now.start search.now.goal) }
{
    let mut cells = Vec::with_capacity(alloc, distance as usize + 1)?;
    let mut here = search.start();
    cells.push_reserved(here);
    for steps in 0..distance {
        here = nearer(grid, search, here, distance - steps - 1);
        cells.push_reserved(here);
    }
    Ok(Path::of(cells).unwrap())
}

// Returns the cell of the least number that is one step from this one and nearer to the goal.
fn nearer(grid: &Grid, search: &Search, cell: Cell, distance: u32) -> Cell
    requires settled { IsSettled grid.now (distance + 1 + estimate grid.now cell search.now.start) search.now }
    requires distance { IsDistance grid.now search.now.goal cell (distance + 1) }
    ensures step { Step grid.now cell result }
    ensures nearer { IsDistance grid.now search.now.goal result distance }
    ensures least { (other : ℕ) → Step grid.now cell other
        → IsDistance grid.now search.now.goal other distance → result ≤ other }
{
    for beside in cell.neighbourhood(grid.width()) {
        if let Some(next) = beside {
            if search.has_entry(next, distance) {
                return next;
            }
        }
    }
    unreachable!()
}
