//! Labels as a list of entries, as the call `search` returns them, for tests. Nodes of the constraint tree hold
//! `StateLabels`.
ghost use Rattle.std.specs.Prelude.{◌≡◌, ◌==◌, ◌&&◌, ◌<◌, ◌↔◌, [], Some, IsTrue, find};
ghost use Rattle.mapf_model.specs.Labels.{IsLabel, entries_of};

use mapf_distance::Distances;
use mapf_model::{Cell, Entry, Label, Tick};
use std::marker::Model;

/// The entries of one agent, sorted by tick and then by the number of the cell. The label of a state without an entry
/// is the distance of its cell.
#[derive(Debug, Drop)]
pub struct Labels {
    entries: Vec<Entry>,
}

impl Model for Labels {
    ghost use Rattle.std.specs.Prelude.{List};
    ghost use Rattle.mapf_model.specs.declared.label.Entry.{Entry};

    ghost Value = { List Entry };

    ghost view = { λ labels. labels.entries.items };
}

impl Labels {
    pub(crate) fn of(entries: Vec<Entry>) -> Labels
        ensures { result ≡ entries.items }
    {
        Labels { entries }
    }

    /// Returns whether there are none.
    pub fn is_empty(&self) -> bool
        ensures { IsTrue result ↔ (self.now ≡ []) }
    {
        self.entries.is_empty()
    }

    /// Returns the entries, in rising order.
    pub fn entries(&self) -> &[Entry]
        ensures { result.now ≡ self.now }
    {
        self.entries.as_slice()
    }
}

/// Returns the label of the agent that is in the cell at the tick: that of its entry, else the distance of the cell,
/// `Never` if no steps lead to the goal.
pub fn label_at(labels: &Labels, distances: &Distances, cell: Cell, tick: Tick) -> Label
    ensures { IsLabel distances.now.grid distances.now.goal (entries_of labels.now) cell tick result }
{
    match entry_at(labels.entries(), cell, tick) {
        Some(entry) => entry.label,
        None => match distances.get(cell) {
            Some(distance) => Label::Ticks(distance),
            None => Label::Never,
        },
    }
}

// Returns the first entry of the state.
fn entry_at(entries: &[Entry], cell: Cell, tick: Tick) -> Option<Entry>
    ensures { result ≡ find (λ entry. (entry.cell == cell) && (entry.tick == tick)) entries.now }
{
    for entry in entries {
        if is_at(entry, cell, tick) {
            return Some(*entry);
        }
    }
    None
}

fn is_at(entry: &Entry, cell: Cell, tick: Tick) -> bool
    ensures { result ≡ ((entry.now.cell == cell) && (entry.now.tick == tick)) }
{
    entry.cell == cell && entry.tick == tick
}
