//! The agents' starts and goals, and problems of which these tell before any search that no plan is valid.
use crate::task::Task;
use mapf_model::{Agent, Cell, OutOfMemory};
use std::alloc::Global;

/// Returns whether two agents have the same start or the same goal, or an agent can't reach its goal.
pub fn is_plainly_impossible(alloc: Global, task: &Task) -> Result<bool, OutOfMemory> {
    if is_any_cut_off(task) {
        return Ok(true);
    }
    let mut starts = starts_of(alloc, task.agents())?;
    let mut goals = goals_of(alloc, task.agents())?;
    Ok(has_equal_cells(&mut starts) || has_equal_cells(&mut goals))
}

/// Returns the agents' starts, by agent.
pub fn starts_of(alloc: Global, agents: &[Agent]) -> Result<Vec<Cell>, OutOfMemory> {
    let mut starts = Vec::with_capacity(alloc, agents.len())?;
    for agent in agents {
        starts.push(agent.start)?;
    }
    Ok(starts)
}

/// Returns the agents' goals, by agent.
pub fn goals_of(alloc: Global, agents: &[Agent]) -> Result<Vec<Cell>, OutOfMemory> {
    let mut goals = Vec::with_capacity(alloc, agents.len())?;
    for agent in agents {
        goals.push(agent.goal)?;
    }
    Ok(goals)
}

fn is_any_cut_off(task: &Task) -> bool {
    for (place, agent) in task.agents().iter().enumerate() {
        if task.distance(place, agent.start) == u32::MAX {
            return true;
        }
    }
    false
}

// Returns whether two of the cells are the same. Sorts them.
fn has_equal_cells(cells: &mut Vec<Cell>) -> bool {
    cells.sort_unstable();
    let mut before = None;
    for &cell in cells.iter() {
        if before == Some(cell) {
            return true;
        }
        before = Some(cell);
    }
    false
}
