//! The plan that leads from the first configuration to another one.
ghost use Rattle.std.specs.Prelude.{◌≡◌, IfOk, length};

use crate::search::Met;
use mapf_model::{Cell, OutOfMemory, Path, Plan, Problem};
use std::alloc::Global;

/// Returns the plan that leads to the configuration of this number, without waits at the ends of its paths.
pub fn plan_to(
    alloc: Global,
    problem: &Problem,
    met: &Met,
    number: usize,
) -> Result<Plan, OutOfMemory>
    ensures { IfOk result (λ plan. length plan ≡ length problem.now.agents) }
{
    let way = way_to(alloc, met, number)?;
    let count = problem.agents().len();
    let mut paths = Vec::with_capacity(alloc, count)?;
    for agent in 0..count {
        paths.push(path_of(alloc, met, &way, agent)?)?;
    }
    Plan::of(paths).ok_or(OutOfMemory)
}

// Returns the numbers of the configurations from the first one to this one.
fn way_to(alloc: Global, met: &Met, number: usize) -> Result<Vec<usize>, OutOfMemory> {
    let mut way = Vec::new(alloc);
    let mut at = number;
    for _ in 0..met.len() {
        way.push(at)?;
        if at == 0 {
            break;
        }
        at = match met.get_index(at) {
            Some((_, visited)) => visited.before,
            None => 0,
        };
    }
    way.reverse();
    Ok(way)
}

// Returns an agent's path along these configurations, up to its last arrival.
fn path_of(alloc: Global, met: &Met, way: &[usize], agent: usize) -> Result<Path, OutOfMemory> {
    let mut cells = Vec::with_capacity(alloc, way.len())?;
    for &number in way {
        cells.push(cell_at(met, number, agent))?;
    }
    let last = cells.last().copied();
    let arrival = cells.iter().rposition(|&cell| last != Some(cell));
    let rest = arrival.map_or(0, |place| place.saturating_add(1));
    cells.truncate(rest.saturating_add(1));
    // A longer path than there may be doesn't fit into memory either.
    Path::of(cells).ok_or(OutOfMemory)
}

// Returns where an agent is in the configuration of a number.
fn cell_at(met: &Met, number: usize, agent: usize) -> Cell {
    match met.get_index(number) {
        Some((cells, _)) => cells.get(agent).copied().unwrap_or(Cell(0)),
        None => Cell(0),
    }
}
