//! How labels are found and compared, for the judges of entries, blocks and leaves.
ghost use Rattle.std.specs.Prelude.{◌≡◌, ◌+◌, ◌<◌, ◌↔◌, ℕ, AllPairs, IsTrue, None, length, slice_index_or};
ghost use Rattle.mapf_model.specs.Labels.{entries_of, IsLabel, IsDistanceLabel, IsEntryOrDistance};
ghost use Rattle.mapf_model.specs.Labels.{IsAtMost, one_more};
ghost use Rattle.mapf_model.specs.Grid.{GridMap};
ghost use Rattle.mapf_model.specs.Printed.{IsBefore};
ghost use Rattle.mapf_distance.specs.Distances.{IsDistanceOrNone};
ghost use Rattle.mapf_checker.specs.Marks.{IsMarking};

use crate::marks::EntryMarks;
use mapf_distance::Distances;
use mapf_model::{Cell, Entry, Label, State, Tick};

/// Returns the entry of a state in a block. Searches by bisection.
pub fn entry_at(entries: &[Entry], cell: Cell, tick: Tick) -> Option<Label>
    requires { AllPairs IsBefore entries.now }
    ensures { result ≡ entries_of entries.now cell tick }
{
    match entries.binary_search_by_key(&State { tick, cell }, |entry: &Entry| entry.state()) {
        Ok(place) => Some(entries[place].label),
        Err(_) => None,
    }
}

// Returns a distance as a label.
fn distance_label(distance: Option<u32>) -> Label
    ensures { (grid : GridMap) (goal cell : ℕ) → IsDistanceOrNone grid goal cell distance
        → IsDistanceLabel grid goal cell result }
{
    match distance {
        Some(distance) => Label::Ticks(distance),
        None => Label::Never,
    }
}

/// Returns the entry, or the distance of the agent's start if there is none. It looks the distance up only if it is
/// needed.
pub fn entry_or(entry: Option<Label>, distances: &[Option<u32>], agent: usize) -> Label
    requires { agent < length distances.now }
    ensures { (grid : GridMap) (goal cell : ℕ)
        → IsDistanceOrNone grid goal cell (slice_index_or distances.now agent None)
        → IsEntryOrDistance grid goal cell entry result }
{
    match entry {
        Some(label) => label,
        None => distance_label(distances[agent]),
    }
}

// The same for the distance of a cell.
fn label_or_distance(entry: Option<Label>, distances: &Distances, cell: Cell) -> Label
    ensures { IsEntryOrDistance distances.now.grid distances.now.goal cell entry result }
{
    match entry {
        Some(label) => label,
        None => distance_label(distances.get(cell)),
    }
}

/// Returns the label of the cell at the tick whose entries are marked.
#[inline(always)]
pub fn label_by(entries: &[Entry], marks: &EntryMarks, distances: &Distances, cell: Cell) -> Label
    requires rising { AllPairs IsBefore entries.now }
    requires marking { IsMarking entries.now marks.now }
    ensures { IsLabel distances.now.grid distances.now.goal (entries_of entries.now) cell marks.now.tick result }
{
    label_or_distance(marks.entry(entries, cell), distances, cell)
}

/// Returns whether a label is at most one more than another.
pub fn is_within_one(label: Label, after: Label) -> bool
    ensures { IsTrue result ↔ IsAtMost label (one_more after) }
{
    match (label, after) {
        (_, Label::Never) => true,
        (Label::Never, Label::Ticks(_)) => false,
        (Label::Ticks(m), Label::Ticks(n)) => m as u64 <= n as u64 + 1,
    }
}

/// Returns whether a label is greater than a distance.
pub fn exceeds(label: Label, distance: u32) -> bool
    ensures { IsTrue result ↔ IsAtMost (Label.Ticks (distance + 1)) label }
{
    match label {
        Label::Ticks(n) => distance < n,
        Label::Never => true,
    }
}
