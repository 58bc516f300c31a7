//! The order of joint entries, and how one is found in a sorted list. The marks of joint entries and the reader of
//! lemmas use it.
ghost use Rattle.std.specs.Prelude.{◌≡◌, ◌↔◌, ℕ, AllPairs, IsTrue};
ghost use Rattle.mapf_lemmas.specs.JointLabels.{joint_entries_of};
ghost use Rattle.mapf_lemmas.specs.declared.joint.JointState.TheVariants.{Both, FirstAlone, SecondAlone};
ghost use Rattle.mapf_joint_labels.specs.JointOrder.{Encloses, IsEarlierState, IsJointBefore, IsJointOf, IsPlaceOf};
ghost use Rattle.mapf_joint_labels.specs.JointOrder.{IsStateBefore};

use crate::runs::Run;
use mapf_lemmas::{Amount, JointEntry, JointState};
use mapf_model::{Cell, Tick};

/// Returns whether the one entry precedes the other: by tick; at one tick those of two agents on their way come first,
/// then those of the second alone, then those of the first alone; within each by the number of the first cell, and then
/// by that of the second.
pub fn is_before(one: &JointEntry, other: &JointEntry) -> bool
    ensures { IsTrue result ↔ IsJointBefore one.now other.now }
{
    is_earlier(&one.state, one.tick, other)
}

// Returns whether the joint state at the tick precedes that of the entry.
#[inline(always)]
fn is_earlier(state: &JointState, tick: Tick, entry: &JointEntry) -> bool
    ensures { IsTrue result ↔ IsEarlierState state.now tick entry.now.state entry.now.tick }
{
    if tick != entry.tick {
        return tick < entry.tick;
    }
    is_state_before(state, &entry.state)
}

#[inline(always)]
fn is_state_before(one: &JointState, other: &JointState) -> bool
    ensures { IsTrue result ↔ IsStateBefore one.now other.now }
{
    match *one {
        JointState::Both { first, second } => is_after_both(other, first, second),
        JointState::SecondAlone { second } => is_after_second(other, second),
        JointState::FirstAlone { first } => is_after_first(other, first),
    }
}

// Returns whether the state comes after that of both agents in these cells.
#[inline(always)]
fn is_after_both(state: &JointState, first: Cell, second: Cell) -> bool
    ensures { IsTrue result ↔ IsStateBefore (Both first second) state.now }
{
    match *state {
        JointState::Both {
            first: w,
            second: x,
        } => first < w || (first == w && second < x),
        _ => true,
    }
}

// Returns whether the state comes after that of the second agent alone in this cell.
#[inline(always)]
fn is_after_second(state: &JointState, second: Cell) -> bool
    ensures { IsTrue result ↔ IsStateBefore (SecondAlone second) state.now }
{
    match *state {
        JointState::Both { .. } => false,
        JointState::SecondAlone { second: x } => second < x,
        JointState::FirstAlone { .. } => true,
    }
}

// Returns whether the state comes after that of the first agent alone in this cell.
#[inline(always)]
fn is_after_first(state: &JointState, first: Cell) -> bool
    ensures { IsTrue result ↔ IsStateBefore (FirstAlone first) state.now }
{
    match *state {
        JointState::FirstAlone { first: w } => first < w,
        _ => false,
    }
}

/// Returns the label that the entries give the joint state at the tick, None if they give none. Its entry, if there is
/// one, is in this run. If the run is of other entries, there is none.
#[inline(always)]
pub fn label_in(entries: &[JointEntry], run: Run, state: &JointState, tick: Tick) -> Option<Amount>
    requires rising { AllPairs IsJointBefore entries.now }
    requires run { Encloses entries.now run state.now tick }
    ensures { result ≡ joint_entries_of entries.now state.now tick }
{
    match entries.get(place_in(entries, run, state, tick)) {
        Some(entry) if is_of(entry, state, tick) => Some(entry.label),
        _ => None,
    }
}

#[inline(always)]
fn is_of(entry: &JointEntry, state: &JointState, tick: Tick) -> bool
    ensures { IsTrue result ↔ IsJointOf state.now tick entry.now }
{
    entry.tick == tick && entry.state == *state
}

// Returns the index at which the entry of the joint state at the tick stands, if it stands in the run. Searches by
// bisection.
#[inline(always)]
fn place_in(entries: &[JointEntry], run: Run, state: &JointState, tick: Tick) -> usize
    ensures { (k : ℕ) → IsPlaceOf entries.now run state.now tick k → result ≡ k }
{
    if run.end > entries.len() || run.end <= run.begin {
        return entries.len();
    }
    let mut place = run.begin;
    let mut size = run.end - run.begin;
    while size > 1 {
        let half = size / 2;
        if !is_earlier(state, tick, &entries[place + half]) {
            place += half;
        }
        size -= half;
    }
    place
}
