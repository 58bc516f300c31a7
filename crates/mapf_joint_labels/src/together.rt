//! Whether a joint entry of two agents that are both on their way is sound.
ghost use Rattle.std.specs.Prelude.{◌≡◌, ◌⊎◌, ◌+◌, ◌≤◌, ◌↔◌, ℕ, IsTrue, Contains, Option, Some, List};
ghost use Rattle.mapf_lemmas.specs.JointLabels.{AreApart};
ghost use Rattle.mapf_lemmas.specs.SingleLabels.{IsBarred, MayStep, step_price};
ghost use Rattle.mapf_model.specs.Grid.{IsFree};
ghost use Rattle.mapf_model.specs.Limits.{greatest_cost};
ghost use Rattle.mapf_joint_labels.specs.Pairs.{AreMarks, HoldsFor, IsPair, IsSoundIn, RestsFirst, RestsSecond};
ghost use Rattle.mapf_joint_labels.specs.Pairs.{entry_of_both};

use crate::never::are_apart;
use crate::pair::{Pair, PairMarks, is_within};
use mapf_lemmas::{Amount, JointCell, laws};
use mapf_model::{Cell, Tick};

/// A joint entry of two agents that are both on their way.
#[derive(Clone, Copy, Debug, PartialEq, Eq)]
pub struct OnTheWay {
    pub cells: JointCell,
    pub tick: Tick,
    pub label: Amount,
}

/// Returns whether the cells of the entry are free, and the entry is sound. The entries one tick later are marked.
pub fn is_sound_together(pair: &Pair, marks: &PairMarks, entry: &OnTheWay) -> bool
    requires pair { IsPair pair.now }
    requires marks { AreMarks pair.now marks.now (entry.now.tick + 1) }
    requires tick { entry.now.tick ≤ greatest_cost }
    ensures { IsTrue result ↔ IsSoundIn pair.now (entry_of_both entry.now) }
{
    let grid = pair.first_task.grid();
    if !grid.is_free(entry.cells.first) || !grid.is_free(entry.cells.second) {
        return false;
    }
    if entry.cells.first == entry.cells.second || is_barred(pair, entry) {
        return true;
    }
    first_rests(pair, entry) && second_rests(pair, entry) && goes_on(pair, marks, entry)
}

// Returns whether the state of one of the agents is barred.
fn is_barred(pair: &Pair, entry: &OnTheWay) -> bool
    ensures { IsTrue result ↔ (IsBarred pair.now.first_task.now entry.now.cells.first entry.now.tick
        ⊎ IsBarred pair.now.second_task.now entry.now.cells.second entry.now.tick) }
{
    pair.first_task.is_barred(entry.cells.first, entry.tick)
        || pair.second_task.is_barred(entry.cells.second, entry.tick)
}

// Returns whether the label is sound for all moves of both agents.
fn goes_on(pair: &Pair, marks: &PairMarks, entry: &OnTheWay) -> bool
    requires pair { IsPair pair.now }
    requires marks { AreMarks pair.now marks.now (entry.now.tick + 1) }
    requires tick { entry.now.tick ≤ greatest_cost }
    requires first { IsFree pair.now.first_task.now.grid entry.now.cells.first }
    requires second { IsFree pair.now.second_task.now.grid entry.now.cells.second }
    ensures { IsTrue result ↔ ((w x : ℕ) → HoldsFor pair.now entry.now w x) }
{
    for place in &pair.first_task.beside(entry.cells.first) {
        if let Some(first) = *place {
            if !keeps(pair, marks, entry, first) {
                return false;
            }
        }
    }
    true
}

// Returns whether the label is sound for this move of the first agent and all moves of the second.
fn keeps(pair: &Pair, marks: &PairMarks, entry: &OnTheWay, first: Cell) -> bool
    requires pair { IsPair pair.now }
    requires marks { AreMarks pair.now marks.now (entry.now.tick + 1) }
    requires tick { entry.now.tick ≤ greatest_cost }
    requires second { IsFree pair.now.second_task.now.grid entry.now.cells.second }
    ensures { IsTrue result ↔ ((x : ℕ) → HoldsFor pair.now entry.now first x) }
{
    if !pair.first_task.grid().is_free(first) {
        return true;
    }
    for place in &pair.second_task.beside(entry.cells.second) {
        if let Some(second) = *place {
            if !holds(pair, marks, entry, &JointCell { first, second }) {
                return false;
            }
        }
    }
    true
}

// Returns whether the label is sound for the moves to these cells, of which the first is free.
#[inline(always)]
fn holds(pair: &Pair, marks: &PairMarks, entry: &OnTheWay, next: &JointCell) -> bool
    requires pair { IsPair pair.now }
    requires marks { AreMarks pair.now marks.now (entry.now.tick + 1) }
    requires tick { entry.now.tick ≤ greatest_cost }
    requires free { IsFree pair.now.first_task.now.grid next.now.first }
    ensures { IsTrue result ↔ HoldsFor pair.now entry.now next.now.first next.now.second }
{
    laws::lemmas_are_decided();
    if !are_apart(&entry.cells, next.first, next.second) {
        return true;
    }
    let price = moves_price(pair, entry, next);
    let after = pair.both_label(marks, next.first, next.second);
    if is_within(entry.label, price, after) {
        return true;
    }
    !may_move(pair, entry, next)
}

// Returns what the moves to these cells cost together, in units.
#[inline(always)]
fn moves_price(pair: &Pair, entry: &OnTheWay, next: &JointCell) -> u64
    requires pair { IsPair pair.now }
    requires tick { entry.now.tick ≤ greatest_cost }
    ensures { result ≡ step_price pair.now.first_task.now.list entry.now.cells.first next.now.first entry.now.tick
        + step_price pair.now.first_task.now.list entry.now.cells.second next.now.second entry.now.tick }
{
    let first = pair
        .first_task
        .prices()
        .step(entry.cells.first, next.first, entry.tick);
    first
        + pair
            .second_task
            .prices()
            .step(entry.cells.second, next.second, entry.tick)
}

// Returns whether both agents may make the moves to these cells.
#[inline(never)]
fn may_move(pair: &Pair, entry: &OnTheWay, next: &JointCell) -> bool
    requires { entry.now.tick ≤ greatest_cost }
    ensures { IsTrue result ↔ (MayStep pair.now.first_task.now entry.now.cells.first next.now.first entry.now.tick
        × MayStep pair.now.second_task.now entry.now.cells.second next.now.second entry.now.tick) }
{
    pair.first_task
        .may_step(entry.cells.first, next.first, entry.tick)
        && pair
            .second_task
            .may_step(entry.cells.second, next.second, entry.tick)
}

// Returns whether the label is sound if the first agent arrives for good.
fn first_rests(pair: &Pair, entry: &OnTheWay) -> bool
    requires { IsPair pair.now }
    ensures { IsTrue result ↔ RestsFirst pair.now entry.now }
{
    laws::lemmas_are_decided();
    if !pair.first_task.may_rest(entry.cells.first, entry.tick) {
        return true;
    }
    let rest = pair.first_task.prices().rest(entry.cells.first, entry.tick);
    is_within(
        entry.label,
        rest,
        pair.second_label(entry.cells.second, entry.tick),
    )
}

// Returns whether the label is sound if the second agent arrives for good.
fn second_rests(pair: &Pair, entry: &OnTheWay) -> bool
    requires { IsPair pair.now }
    ensures { IsTrue result ↔ RestsSecond pair.now entry.now }
{
    laws::lemmas_are_decided();
    if !pair.second_task.may_rest(entry.cells.second, entry.tick) {
        return true;
    }
    let rest = pair
        .second_task
        .prices()
        .rest(entry.cells.second, entry.tick);
    is_within(
        entry.label,
        rest,
        pair.first_label(entry.cells.first, entry.tick),
    )
}
