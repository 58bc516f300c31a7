//! Whether the entries of one agent are sound. The judges of lemmas of one agent and of two ask this of each entry.
ghost use Rattle.std.specs.Prelude.{◌≡◌, ◌+◌, ◌<◌, ◌≤◌, ◌↔◌, All, AllPairs, IsTrue, IfErr, OnOk, length};
ghost use Rattle.mapf_lemmas.specs.SingleLabels.{AreSound};
ghost use Rattle.mapf_model.specs.Grid.{IsFree};
ghost use Rattle.mapf_model.specs.Labels.{entries_of};
ghost use Rattle.mapf_model.specs.Printed.{IsBefore};
ghost use Rattle.mapf_single_labels.specs.Marks.{IsMarking};
ghost use Rattle.mapf_single_labels.specs.Ranges.{IsLabelUpTo, IsPricedEntryInRange, greatest_label};
ghost use Rattle.mapf_single_labels.specs.Tasks.{IsConsistent, IsConsistentStep, IsConsistentWith, IsOpenSound};
ghost use Rattle.mapf_single_labels.specs.Tasks.{IsRestSound, IsSoundAmong, IsUnsoundAt};

use crate::marks::EntryMarks;
use crate::task::SingleTask;
use mapf_lemmas::{Amount, PricedEntry, laws};
use mapf_model::Cell;

/// Checks that each entry is sound. Returns the index of the first that isn't.
pub fn judge_entries(
    task: &SingleTask,
    marks: &mut EntryMarks,
    entries: &[PricedEntry],
) -> Result<(), usize>
    requires rising { AllPairs IsBefore entries.now }
    requires range { All IsPricedEntryInRange entries.now }
    requires cells { All (λ entry. entry.cell < length marks.old.offsets) entries.now }
    ensures ok { OnOk result (AreSound task.now (entries_of entries.now)) }
    ensures err { IfErr result (IsUnsoundAt task.now entries.now) }
    ensures size { length marks.new.offsets ≡ length marks.old.offsets }
{
    marks.begin(entries);
    for k in 0..entries.len() {
        let entry = &entries[k];
        marks.advance(entries, entry.tick + 1);
        if !is_sound(task, entries, marks, entry) {
            return Err(k);
        }
    }
    Ok(())
}

/// Returns whether the entry is sound among these entries, of which those one tick later are marked.
pub fn is_sound(
    task: &SingleTask,
    entries: &[PricedEntry],
    marks: &EntryMarks,
    entry: &PricedEntry,
) -> bool
    requires rising { AllPairs IsBefore entries.now }
    requires range { All IsPricedEntryInRange entries.now }
    requires marking { IsMarking entries.now marks.now }
    requires after { marks.now.tick ≡ entry.now.tick + 1 }
    requires entry { IsPricedEntryInRange entry.now }
    ensures { IsTrue result ↔ IsSoundAmong task.now entries.now entry.now }
{
    let default = task.default_label(entry.cell, entry.tick);
    if entry.label.is_at_most(default) {
        return false;
    }
    // Few states are barred, so the labels, which decide more often than the constraints, are compared first.
    is_open_sound(task, entries, marks, entry) || task.is_barred(entry.cell, entry.tick)
}

// Returns whether the label is sound for a state that isn't barred.
fn is_open_sound(
    task: &SingleTask,
    entries: &[PricedEntry],
    marks: &EntryMarks,
    entry: &PricedEntry,
) -> bool
    requires rising { AllPairs IsBefore entries.now }
    requires range { All IsPricedEntryInRange entries.now }
    requires marking { IsMarking entries.now marks.now }
    requires after { marks.now.tick ≡ entry.now.tick + 1 }
    requires entry { IsPricedEntryInRange entry.now }
    requires free { IsFree task.now.grid entry.now.cell }
    ensures { IsTrue result ↔ IsOpenSound task.now entries.now entry.now }
{
    rests_well(task, entry) && goes_on(task, entries, marks, entry)
}

// Returns whether the label is at most what rest costs, or the agent may not rest.
fn rests_well(task: &SingleTask, entry: &PricedEntry) -> bool
    ensures { IsTrue result ↔ IsRestSound task.now entry.now }
{
    if !task.may_rest(entry.cell, entry.tick) {
        return true;
    }
    let rest = task.prices().rest(entry.cell, entry.tick);
    entry.label.is_at_most(Amount::of(rest))
}

// Returns whether the label is at most what each step that the agent may make costs, with the label after it.
fn goes_on(
    task: &SingleTask,
    entries: &[PricedEntry],
    marks: &EntryMarks,
    entry: &PricedEntry,
) -> bool
    requires rising { AllPairs IsBefore entries.now }
    requires range { All IsPricedEntryInRange entries.now }
    requires marking { IsMarking entries.now marks.now }
    requires after { marks.now.tick ≡ entry.now.tick + 1 }
    requires entry { IsPricedEntryInRange entry.now }
    requires free { IsFree task.now.grid entry.now.cell }
    ensures { IsTrue result ↔ IsConsistent task.now entries.now entry.now }
{
    let places = task.beside(entry.cell);
    for k in 0..places.len() {
        if let Some(next) = places[k] {
            if !step_holds(task, entries, marks, entry, next) {
                return false;
            }
        }
    }
    true
}

// Returns whether the label is at most what the step costs, with the label after it, or the agent may not take the
// step.
#[inline(always)]
fn step_holds(
    task: &SingleTask,
    entries: &[PricedEntry],
    marks: &EntryMarks,
    entry: &PricedEntry,
    next: Cell,
) -> bool
    requires rising { AllPairs IsBefore entries.now }
    requires range { All IsPricedEntryInRange entries.now }
    requires marking { IsMarking entries.now marks.now }
    requires after { marks.now.tick ≡ entry.now.tick + 1 }
    requires entry { IsPricedEntryInRange entry.now }
    ensures { IsTrue result ↔ IsConsistentStep task.now entries.now entry.now next }
{
    laws::lemmas_are_decided();
    // Few steps are forbidden and few have prices, so the labels are compared first.
    let after = task.label(entries, marks, next);
    let unit = Amount::of(task.prices().unit());
    if entry.label.is_at_most(unit.plus(after)) {
        return true;
    }
    pays_or_may_not(task, entry, next, after)
}

// Returns whether the label is at most what the step costs, with this label after it, or the agent may not take the
// step. A call of its own keeps the loop that asks small, so that it is unrolled.
#[inline(never)]
fn pays_or_may_not(task: &SingleTask, entry: &PricedEntry, next: Cell, after: Amount) -> bool
    requires entry { IsPricedEntryInRange entry.now }
    requires after { IsLabelUpTo greatest_label after }
    ensures { IsTrue result ↔ IsConsistentWith task.now entry.now next after }
{
    let price = Amount::of(task.prices().step(entry.cell, next, entry.tick));
    entry.label.is_at_most(price.plus(after)) || !task.may_step(entry.cell, next, entry.tick)
}
