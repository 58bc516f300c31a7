//! What a lemma of one agent shows. The judge of certificates asks this once the lemma is read.
ghost use Rattle.std.specs.Prelude.{◌≡◌, ◌+◌, ◌<◌, ◌≤◌, All, AllPairs, IfErr, IfOk, OnErr, length};
ghost use Rattle.mapf_lemmas.specs.SingleLabels.{IsSingleLabel};
ghost use Rattle.mapf_model.specs.Labels.{entries_of};
ghost use Rattle.mapf_model.specs.Printed.{IsBefore};
ghost use Rattle.mapf_model.specs.States.{state_of};
ghost use Rattle.mapf_single_labels.specs.Ranges.{IsLabelUpTo, IsPricedEntryInRange, greatest_entry_label};
ghost use Rattle.mapf_single_labels.specs.Ranges.{greatest_label};
ghost use Rattle.mapf_single_labels.specs.Tasks.{IsStartBound, IsUnsoundAt, ShowsBound, ShowsNothing, start_price};

use crate::judge::judge_entries;
use crate::marks::{EntryMarks, label_of};
use crate::task::SingleTask;
use mapf_lemmas::{Amount, PricedEntry};
use mapf_model::{Cell, State, Tick};

/// Judges a lemma of one agent, whose constraints are on the grid. Returns its bound, in units. If an entry isn't
/// sound, it returns the index of the first that isn't.
pub fn judge_one(
    task: &SingleTask,
    marks: &mut EntryMarks,
    entries: &[PricedEntry],
) -> Result<Amount, usize>
    requires rising { AllPairs IsBefore entries.now }
    requires range { All IsPricedEntryInRange entries.now }
    requires cells { All (λ entry. entry.cell < length marks.old.offsets) entries.now }
    // The lemma shows the statement with this bound.
    ensures shown { IfOk result (ShowsBound task.now entries.now) }
    ensures bound { IfOk result (IsStartBound task.now entries.now) }
    // A finite bound is at most the sum of the start's price and of the greatest label.
    ensures small { IfOk result (IsLabelUpTo (start_price task.now + greatest_label)) }
    // Where a tick is worth 1 unit, no label is greater than the greatest one of an entry.
    ensures plain { task.now.list.unit ≡ 1
        → IfOk result (IsLabelUpTo (start_price task.now + greatest_entry_label)) }
    // The lemma shows no statement.
    ensures nothing { OnErr result (ShowsNothing task.now entries.now) }
    ensures place { IfErr result (IsUnsoundAt task.now entries.now) }
    ensures size { length marks.new.offsets ≡ length marks.old.offsets }
{
    judge_entries(task, marks, entries)?;
    Ok(start_bound(task, entries))
}

/// Returns the sum of the label and the price of the start at tick 0, in units.
pub fn start_bound(task: &SingleTask, entries: &[PricedEntry]) -> Amount
    requires rising { AllPairs IsBefore entries.now }
    requires range { All IsPricedEntryInRange entries.now }
    ensures is { IsStartBound task.now entries.now result }
    ensures small { IsLabelUpTo (start_price task.now + greatest_label) result }
    ensures plain { task.now.list.unit ≡ 1 → IsLabelUpTo (start_price task.now + greatest_entry_label) result }
{
    let price = task.prices().cell(task.agent().start, 0);
    Amount::of(price).plus(start_label(task, entries))
}

/// Returns the label of the start at tick 0, in units: at most 4,294,967,295,000 if it is finite.
pub fn start_label(task: &SingleTask, entries: &[PricedEntry]) -> Amount
    requires rising { AllPairs IsBefore entries.now }
    requires range { All IsPricedEntryInRange entries.now }
    ensures is { IsSingleLabel task.now (entries_of entries.now) task.now.agent.start 0 result }
    ensures small { IsLabelUpTo greatest_label result }
    ensures plain { task.now.list.unit ≡ 1 → IsLabelUpTo greatest_entry_label result }
{
    let start = task.agent().start;
    match entry_at(entries, start, 0) {
        Some(label) => label,
        None => task.default_label(start, 0),
    }
}

// Returns the label of the entry of a state, None if there is no such entry. Searches by bisection.
fn entry_at(entries: &[PricedEntry], cell: Cell, tick: Tick) -> Option<Amount>
    requires { AllPairs IsBefore entries.now }
    ensures { result ≡ entries_of entries.now cell tick }
{
    match entries.binary_search_by_key(
        &State { tick, cell },
        |entry: &PricedEntry| state_of(entry),
    ) {
        Ok(place) => Some(label_of(&entries[place])),
        Err(_) => None,
    }
}

fn state_of(entry: &PricedEntry) -> State
    ensures { result ≡ state_of entry.now }
{
    State {
        tick: entry.tick,
        cell: entry.cell,
    }
}
