//! Whether one entry of a block is sound. The judge of blocks asks this of each entry.
ghost use Rattle.std.specs.Prelude.{◌≡◌, ◌+◌, ◌≤◌, ◌↔◌, AllPairs, IsTrue, Contains};
ghost use Rattle.mapf_model.specs.Grid.{IsFree};
ghost use Rattle.mapf_model.specs.Labels.{MayGo};
ghost use Rattle.mapf_model.specs.Limits.{greatest_cost};
ghost use Rattle.mapf_model.specs.Printed.{IsBefore};
ghost use Rattle.mapf_checker.specs.AgentProblem.{HasGoalDistances, bars_on};
ghost use Rattle.mapf_checker.specs.AgentProblem.{IsConsistent, IsConsistentStep, IsSoundAmong};
ghost use Rattle.mapf_checker.specs.Branch.{IsIndexed};
ghost use Rattle.mapf_checker.specs.Index.{IsBarredFrom};
ghost use Rattle.mapf_checker.specs.Marks.{IsMarking};

use crate::branch::Branch;
use crate::labels::{exceeds, is_within_one, label_by};
use crate::marks::EntryMarks;
use mapf_distance::Distances;
use mapf_model::{Bar, Cell, Entry, Grid, laws};

/// What the entries of one agent are judged by: its distances, and its constraints at a node of the tree.
#[derive(Drop)]
pub struct AgentProblem<'a> {
    pub grid: &'a Grid,
    /// The distances to the agent's goal.
    pub distances: &'a Distances,
    pub branch: &'a Branch,
    pub agent: u32,
    pub goal: Cell,
}

/// Returns whether the entry is sound in the block, whose entries one tick later are marked: its label is greater than
/// the distance; and, unless the state is forbidden, no step that the constraints allow lowers the label by more than
/// one, and if the cell is the goal, some vertex constraint forbids it at this tick or later.
pub fn is_sound(own: &AgentProblem, entries: &[Entry], marks: &EntryMarks, entry: &Entry) -> bool
    requires distances { HasGoalDistances own.now }
    requires indexed { IsIndexed own.now.branch.now }
    requires rising { AllPairs IsBefore entries.now }
    requires marking { IsMarking entries.now marks.now }
    requires after { marks.now.tick ≡ entry.now.tick + 1 }
    requires tick { entry.now.tick ≤ greatest_cost }
    ensures { IsTrue result ↔ IsSoundAmong own.now entries.now entry.now }
{
    let Some(distance) = own.distances.get(entry.cell) else {
        return false;
    };
    if !exceeds(entry.label, distance) {
        return false;
    }
    // Few states are forbidden, so the labels, which decide more often than the constraints, are compared first.
    is_open_sound(own, entries, marks, entry) || is_barred(own, entry)
}

fn is_barred(own: &AgentProblem, entry: &Entry) -> bool
    requires { IsIndexed own.now.branch.now }
    ensures { IsTrue result ↔ Contains (bars_on own.now) (Bar.Cell entry.now.cell entry.now.tick) }
{
    let bar = Bar::Cell {
        cell: entry.cell,
        tick: entry.tick,
    };
    own.branch.has(own.agent, bar)
}

// Returns whether the label is sound for a state that isn't forbidden.
fn is_open_sound(own: &AgentProblem, entries: &[Entry], marks: &EntryMarks, entry: &Entry) -> bool
    requires distances { HasGoalDistances own.now }
    requires indexed { IsIndexed own.now.branch.now }
    requires rising { AllPairs IsBefore entries.now }
    requires marking { IsMarking entries.now marks.now }
    requires after { marks.now.tick ≡ entry.now.tick + 1 }
    requires tick { entry.now.tick ≤ greatest_cost }
    requires free { IsFree own.now.grid.now entry.now.cell }
    ensures { IsTrue result ↔ ((entry.now.cell ≡ own.now.goal
        → IsBarredFrom (bars_on own.now) own.now.goal entry.now.tick)
        × IsConsistent own.now entries.now entry.now) }
{
    if entry.cell == own.goal && !own.branch.has_from(own.agent, own.goal, entry.tick) {
        return false;
    }
    goes_on(own, entries, marks, entry)
}

// Returns whether the label is at most one more than the label after each step that the constraints allow.
fn goes_on(own: &AgentProblem, entries: &[Entry], marks: &EntryMarks, entry: &Entry) -> bool
    requires distances { HasGoalDistances own.now }
    requires indexed { IsIndexed own.now.branch.now }
    requires rising { AllPairs IsBefore entries.now }
    requires marking { IsMarking entries.now marks.now }
    requires after { marks.now.tick ≡ entry.now.tick + 1 }
    requires tick { entry.now.tick ≤ greatest_cost }
    requires free { IsFree own.now.grid.now entry.now.cell }
    ensures { IsTrue result ↔ IsConsistent own.now entries.now entry.now }
{
    let places = own.distances.beside(entry.cell);
    for k in 0..places.len() {
        if let Some(next) = places[k] {
            if !step_holds(own, entries, marks, entry, next) {
                return false;
            }
        }
    }
    true
}

// Returns whether the label is at most one more than the label after this step, or the agent may not take the step.
fn step_holds(
    own: &AgentProblem,
    entries: &[Entry],
    marks: &EntryMarks,
    entry: &Entry,
    next: Cell,
) -> bool
    requires distances { HasGoalDistances own.now }
    requires indexed { IsIndexed own.now.branch.now }
    requires rising { AllPairs IsBefore entries.now }
    requires marking { IsMarking entries.now marks.now }
    requires after { marks.now.tick ≡ entry.now.tick + 1 }
    requires tick { entry.now.tick ≤ greatest_cost }
    ensures { IsTrue result ↔ IsConsistentStep own.now entries.now entry.now next }
{
    laws::definitions_are_decided();
    // Few steps are forbidden, so the labels are compared before the constraints.
    let after = label_by(entries, marks, own.distances, next);
    if is_within_one(entry.label, after) {
        return true;
    }
    !may_go(own, entry, next)
}

// Returns whether the agent may go to the cell from the entry's state. A call of its own keeps the loop that asks
// small, so that it is unrolled.
#[inline(never)]
fn may_go(own: &AgentProblem, entry: &Entry, next: Cell) -> bool
    requires indexed { IsIndexed own.now.branch.now }
    requires tick { entry.now.tick ≤ greatest_cost }
    ensures { IsTrue result ↔ MayGo own.now.grid.now (bars_on own.now) entry.now.cell next entry.now.tick }
{
    if !own.grid.is_step(entry.cell, next) {
        return false;
    }
    let arrival = Bar::Cell {
        cell: next,
        tick: entry.tick + 1,
    };
    let departure = Bar::Move {
        from: entry.cell,
        to: next,
        tick: entry.tick,
    };
    !own.branch.has(own.agent, arrival) && !own.branch.has(own.agent, departure)
}
