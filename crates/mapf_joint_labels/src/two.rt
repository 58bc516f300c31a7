//! What a lemma of two agents by labels shows. The judge of certificates asks this once the lemma is read.
ghost use Rattle.std.specs.Prelude.{◌≡◌, ◌+◌, ◌≤◌, IfErr, IfOk, OnErr};
ghost use Rattle.mapf_single_labels.specs.Ranges.{IsLabelUpTo};
ghost use Rattle.mapf_joint_labels.specs.Pairs.{HaveRoom, IsPair};
ghost use Rattle.mapf_joint_labels.specs.Two.{IsStartBound, IsStartLabel, IsTwoFault, ShowsBound, ShowsNothing};
ghost use Rattle.mapf_joint_labels.specs.Two.{start_price};

use crate::judge::judge_joint_entries;
use crate::order::label_in;
use crate::pair::{Pair, PairMarks, whole};
use mapf_lemmas::{Amount, JointState};
use mapf_single_labels::{judge_entries, start_label};

/// Which entry of a lemma of two agents is the first that isn't sound, by its index among its kind. Those of the kinds
/// before it are sound.
#[derive(Clone, Copy, Debug, PartialEq, Eq)]
pub enum TwoFault {
    /// An entry of the first agent.
    First(usize),
    /// An entry of the second agent.
    Second(usize),
    /// A joint entry, which isn't sound or names a cell that isn't free.
    Joint(usize),
}

/// Judges a lemma of two agents by labels. Returns its bound, in units. Whether the agents differ, and whether the
/// constraints are on the grid, is judged by the caller.
pub fn judge_two(pair: &Pair, marks: &mut PairMarks) -> Result<Amount, TwoFault>
    requires pair { IsPair pair.now }
    requires room { HaveRoom pair.now marks.old }
    // The lemma shows the statement with this bound.
    ensures shown { IfOk result (ShowsBound pair.now) }
    ensures bound { IfOk result (IsStartBound pair.now) }
    // A finite bound is at most the sum of both starts' prices and of twice the greatest label.
    ensures small { IfOk result (IsLabelUpTo (start_price pair.now + 8589934590000)) }
    // Where a tick is worth 1 unit, no label is greater than the greatest one of an entry.
    ensures plain { pair.now.first_task.now.list.unit ≡ 1
        → IfOk result (IsLabelUpTo (start_price pair.now + 19999999998)) }
    // The lemma shows no statement.
    ensures nothing { OnErr result (ShowsNothing pair.now) }
    ensures fault { IfErr result (IsTwoFault pair.now) }
{
    if let Err(place) = judge_entries(pair.first_task, &mut marks.first, pair.first) {
        return Err(TwoFault::First(place));
    }
    if let Err(place) = judge_entries(pair.second_task, &mut marks.second, pair.second) {
        return Err(TwoFault::Second(place));
    }
    match judge_joint_entries(pair, marks) {
        Err(place) => Err(TwoFault::Joint(place)),
        Ok(()) => Ok(start_bound(pair)),
    }
}

// Returns the sum of the label and the prices of both starts at tick 0, in units.
fn start_bound(pair: &Pair) -> Amount
    requires { IsPair pair.now }
    ensures is { IsStartBound pair.now result }
    ensures small { IsLabelUpTo (start_price pair.now + 8589934590000) result }
    ensures plain { pair.now.first_task.now.list.unit ≡ 1
        → IsLabelUpTo (start_price pair.now + 19999999998) result }
{
    let price = prices_of_starts(pair);
    Amount::of(price).plus(label_of_starts(pair))
}

// Returns the sum of the prices of both starts at tick 0, in units: at most 2 * 10^17.
fn prices_of_starts(pair: &Pair) -> u64
    requires { IsPair pair.now }
    ensures value { result ≡ start_price pair.now }
    ensures small { result ≤ 200000000000000000 }
{
    let first = pair
        .first_task
        .prices()
        .cell(pair.first_task.agent().start, 0);
    first
        + pair
            .second_task
            .prices()
            .cell(pair.second_task.agent().start, 0)
}

// Returns the label of both starts at tick 0, in units: at most 8,589,934,590,000 if it is finite.
fn label_of_starts(pair: &Pair) -> Amount
    requires { IsPair pair.now }
    ensures is { IsStartLabel pair.now result }
    ensures small { IsLabelUpTo 8589934590000 result }
    ensures plain { pair.now.first_task.now.list.unit ≡ 1 → IsLabelUpTo 19999999998 result }
{
    let state = JointState::Both {
        first: pair.first_task.agent().start,
        second: pair.second_task.agent().start,
    };
    match label_in(pair.joint, whole(pair.joint), &state, 0) {
        Some(label) => label,
        None => {
            let first = start_label(pair.first_task, pair.first);
            first.plus(start_label(pair.second_task, pair.second))
        }
    }
}
