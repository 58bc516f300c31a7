//! The tables of distances for all agents at once, for the first plan, for prices, for the simple search and for tests.
ghost use Rattle.std.specs.Prelude.{IfOk};
ghost use Rattle.mapf_distance.specs.Tables.{AreTables};

use crate::distances::Distances;
use mapf_model::{OutOfMemory, Problem};
use std::alloc::Global;

/// Returns the distances to each agent's goal.
pub fn goal_tables(alloc: Global, problem: &Problem) -> Result<Vec<Distances>, OutOfMemory>
    ensures { IfOk result (λ tables. AreTables problem.now tables.items) }
{
    let mut tables = Vec::new(alloc);
    for agent in problem.agents() {
        tables.push(Distances::of(alloc, problem.grid(), agent.goal)?)?;
    }
    Ok(tables)
}
