//! How far the agents' starts are from their goals, found by A*. The judges of trees need these distances at leaves,
//! and the second search before it begins.
ghost use Rattle.std.specs.Prelude.{IfOk};
ghost use Rattle.mapf_distance.specs.Tables.{AreStartDistances};

use crate::search::distance_between;
use mapf_model::{OutOfMemory, Problem};
use std::alloc::Global;

/// Returns for each agent the least number of steps from its start to its goal, None if no steps lead there.
pub fn start_distances(alloc: Global, problem: &Problem) -> Result<Vec<Option<u32>>, OutOfMemory>
    ensures { IfOk result (λ distances. AreStartDistances problem.now distances.items) }
{
    let mut distances = Vec::new(alloc);
    for agent in problem.agents() {
        let distance = distance_between(alloc, problem.grid(), agent.start, agent.goal)?;
        distances.push(distance)?;
    }
    Ok(distances)
}
