//! Which of an agent's constraints can matter for its cheapest paths.
use mapf_distance::Distances;
use mapf_layers::{Arrival, Clear, ConstraintSet};
use mapf_lemmas::PathConstraint;
use mapf_model::OutOfMemory;

/// Adds to the set those of the constraints that a path of at most `last` ticks can break, or that say how long the
/// agent travels. The first table has the distances to its goal, the second one those from its start.
pub fn add_relevant(
    set: &mut ConstraintSet,
    standing: &ConstraintSet,
    ends: (&Distances, &Distances),
    last: u32,
) -> Result<(), OutOfMemory> {
    for arrival in standing.arrivals() {
        if is_met(arrival, ends, last) {
            set.add(arrival.constraint())?;
        }
    }
    for clear in standing.clear() {
        if is_entered(clear, ends, last) {
            set.add(PathConstraint::Clear {
                cell: clear.cell,
                tick: clear.tick,
            })?;
        }
    }
    add_costs(set, standing)
}

fn add_costs(set: &mut ConstraintSet, standing: &ConstraintSet) -> Result<(), OutOfMemory> {
    if standing.least() > 0 {
        set.add(PathConstraint::Least {
            ticks: standing.least(),
        })?;
    }
    match standing.most() {
        Some(ticks) => set.add(PathConstraint::Most { ticks }),
        None => Ok(()),
    }
}

// Returns whether a path of at most `last` ticks can make the arrival, or may have to stay where it forbids to be.
fn is_met(arrival: &Arrival, (to_goal, from_start): (&Distances, &Distances), last: u32) -> bool {
    let Some(distance) = to_goal.get(arrival.cell) else {
        return false;
    };
    if distance == 0 && arrival.from.is_none() {
        return true;
    }
    let from = arrival.from.unwrap_or(arrival.cell);
    let way = u32::from(arrival.from.is_some());
    match from_start.get(from) {
        Some(before) => {
            before.saturating_add(way) <= arrival.tick
                && arrival.tick.saturating_add(distance) <= last
        }
        None => false,
    }
}

// Returns whether a path of at most `last` ticks can enter the cell from its tick on.
fn is_entered(clear: &Clear, (to_goal, from_start): (&Distances, &Distances), last: u32) -> bool {
    match (to_goal.get(clear.cell), from_start.get(clear.cell)) {
        (Some(distance), Some(before)) => {
            distance == 0 || before.max(clear.tick).saturating_add(distance) <= last
        }
        _ => false,
    }
}
