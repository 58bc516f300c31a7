//! Whether a joint entry of one agent that is on its way, after the other has arrived, is sound.
ghost use Rattle.std.specs.Prelude.{◌≡◌, ◌+◌, ◌≤◌, ◌↔◌, ℕ, IsTrue};
ghost use Rattle.mapf_model.specs.Grid.{IsFree};
ghost use Rattle.mapf_model.specs.Limits.{greatest_cost};
ghost use Rattle.mapf_joint_labels.specs.Pairs.{HoldsAlone, IsPair, IsSoundIn, RestsAlone};
ghost use Rattle.mapf_joint_labels.specs.Pairs.{entry_of_one, own_task, task_of};

use crate::pair::{Pair, Side, is_within};
use mapf_lemmas::{Amount, laws};
use mapf_model::{Cell, Tick};
use mapf_single_labels::SingleTask;

/// A joint entry of one agent that is on its way, after the other has arrived.
#[derive(Clone, Copy, Debug, PartialEq, Eq)]
pub struct OnItsWay {
    pub cell: Cell,
    pub tick: Tick,
    pub label: Amount,
}

/// Returns whether the cell of the entry is free, and the entry is sound.
pub fn is_sound_alone(pair: &Pair, side: Side, entry: &OnItsWay) -> bool
    requires pair { IsPair pair.now }
    requires tick { entry.now.tick ≤ greatest_cost }
    ensures { IsTrue result ↔ IsSoundIn pair.now (entry_of_one side entry.now) }
{
    let task = pair.task(side);
    if !task.grid().is_free(entry.cell) {
        return false;
    }
    if entry.cell == pair.other_goal(side) || task.is_barred(entry.cell, entry.tick) {
        return true;
    }
    rests_alone(task, entry) && goes_on_alone(pair, side, entry)
}

// Returns whether the label is sound if the agent arrives for good.
fn rests_alone(task: &SingleTask, entry: &OnItsWay) -> bool
    ensures { IsTrue result ↔ RestsAlone task.now entry.now }
{
    if !task.may_rest(entry.cell, entry.tick) {
        return true;
    }
    let rest = task.prices().rest(entry.cell, entry.tick);
    entry.label.is_at_most(Amount::of(rest))
}

// Returns whether the label is sound for all steps of the agent.
fn goes_on_alone(pair: &Pair, side: Side, entry: &OnItsWay) -> bool
    requires pair { IsPair pair.now }
    requires tick { entry.now.tick ≤ greatest_cost }
    requires free { IsFree (own_task (task_of pair.now) side).grid entry.now.cell }
    ensures { IsTrue result ↔ ((next : ℕ) → HoldsAlone pair.now side entry.now next) }
{
    let task = pair.task(side);
    for place in &task.beside(entry.cell) {
        if let Some(next) = *place {
            if !holds_alone(pair, side, entry, next) {
                return false;
            }
        }
    }
    true
}

// Returns whether the label is sound for the step to this cell.
fn holds_alone(pair: &Pair, side: Side, entry: &OnItsWay, next: Cell) -> bool
    requires pair { IsPair pair.now }
    requires tick { entry.now.tick ≤ greatest_cost }
    ensures { IsTrue result ↔ HoldsAlone pair.now side entry.now next }
{
    laws::lemmas_are_decided();
    if next == pair.other_goal(side) {
        return true;
    }
    let task = pair.task(side);
    let price = task.prices().step(entry.cell, next, entry.tick);
    let after = pair.alone_label(side, next, entry.tick + 1);
    if is_within(entry.label, price, after) {
        return true;
    }
    !task.may_step(entry.cell, next, entry.tick)
}
