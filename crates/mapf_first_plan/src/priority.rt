//! In which order PIBT moves the agents of a configuration.
use crate::task::Task;
use mapf_model::{Cell, OutOfMemory};
use std::alloc::Global;
use std::cmp::Reverse;

/// The place of an agent in the order: first those that are away from their goals for longest, and of these first those
/// with the longest way from their start.
#[derive(Clone, Copy, Debug, PartialEq, Eq, PartialOrd, Ord)]
pub struct Priority {
    /// How many ticks ago it was at its goal, or how many there were if it never was.
    away: Reverse<u32>,
    /// The distance from its start to its goal.
    length: Reverse<u32>,
    pub agent: usize,
}

/// Returns the order at the starts.
pub fn first_order(alloc: Global, task: &Task) -> Result<Vec<Priority>, OutOfMemory> {
    let mut order = Vec::with_capacity(alloc, task.agents().len())?;
    for (agent, who) in task.agents().iter().enumerate() {
        order.push(Priority {
            away: Reverse(0),
            length: Reverse(task.distance(agent, who.start)),
            agent,
        })?;
    }
    order.sort_unstable();
    Ok(order)
}

/// Returns the order in a configuration that comes after one with this order.
pub fn next_order(
    alloc: Global,
    task: &Task,
    order: &[Priority],
    cells: &[Cell],
) -> Result<Vec<Priority>, OutOfMemory> {
    let mut next = Vec::with_capacity(alloc, order.len())?;
    for priority in order {
        let Priority {
            away,
            length,
            agent,
        } = *priority;
        let is_at_goal = match cells.get(agent) {
            Some(&cell) => task.is_goal(agent, cell),
            None => false,
        };
        let away = if is_at_goal {
            0
        } else {
            away.0.saturating_add(1)
        };
        next.push(Priority {
            away: Reverse(away),
            length,
            agent,
        })?;
    }
    next.sort_unstable();
    Ok(next)
}
