//! The judge of a leaf: may it name what it names (rule 8), and does it show what its tree has to show (rule 9)? The
//! judge of a tree calls it.
ghost use Rattle.std.specs.Prelude.{◌≡◌, ◌≤◌, ◌<◌, ◌^◌, IfErr, IfOk, OnOk, length};
ghost use Rattle.mapf_cases.specs.Floors.{CoverAgents};
ghost use Rattle.mapf_cases.specs.Leaves.{AreUsesInRange, IsLeafFault, IsLeafProblemInRange, IsScopeOf, divided_label};
ghost use Rattle.mapf_cases.specs.Leaves.{label_less};
ghost use Rattle.mapf_cases.specs.Loads.{HaveLoads};
ghost use Rattle.mapf_cases.specs.Places.{place_of};
ghost use Rattle.mapf_cases.specs.Standing.{constraints_after};
ghost use Rattle.mapf_lemmas.specs.Groups.{LeafShows, Scope, ticks_of};

use crate::floors::Floors;
use crate::groups::{Counting, divided, judge_groups};
use crate::known::{LeafList, LeafProblem, list_of};
use crate::leaf_fault::{LeafFault, UsePlace};
use crate::loads::Loads;
use crate::singles::judge_singles;
use mapf_lemmas::{Amount, LeafUses, laws};
use mapf_model::OutOfMemory;
use std::alloc::Global;
use std::marker::Model;

/// What the judge of leaves keeps from leaf to leaf, for so many agents of a problem, so that it allocates nothing. At
/// each leaf only what is kept of the scope's agents is set anew.
#[derive(Drop)]
pub struct LeafWork {
    floors: Floors,
    loads: Loads,
}

impl Model for LeafWork {
    ghost use Rattle.std.specs.Prelude.{ℕ, length};

    ghost Value = { ℕ };

    ghost use Rattle.mapf_cases.specs.Leaves.{IsWork};

    ghost view = { λ work. length work.floors.amounts.items };

    ghost invariant = { λ work. IsWork (length work.floors.amounts.items) work.floors work.loads };
}

impl LeafWork {
    /// Returns what is kept for so many agents.
    pub fn new(alloc: Global, agents: usize) -> Result<LeafWork, OutOfMemory>
        ensures { IfOk result (λ work. work ≡ agents) }
    {
        Ok(LeafWork {
            floors: Floors::new(alloc, agents)?,
            loads: Loads::new(alloc, agents)?,
        })
    }
}

/// Checks that a leaf shows that the agents of the scope cost at least the target together, in ticks. The time that
/// this takes grows with the number of the scope's agents, and with the agents and constraints of the lemmas that the
/// leaf names.
pub fn judge_leaf(
    leaf: &LeafProblem,
    work: &mut LeafWork,
    uses: &LeafUses,
    target: Amount,
) -> Result<(), LeafFault>
    requires leaf { IsLeafProblemInRange leaf.now }
    requires uses { AreUsesInRange (length leaf.now.list_totals.now) uses.now }
    requires work { work.old ≡ length leaf.now.start_distances.now }
    ensures ok { OnOk result ((scope : Scope) → IsScopeOf leaf.now scope
        → LeafShows scope (constraints_after leaf.now.standing.now) uses.now target) }
    ensures err { IfErr result (λ fault. (scope : Scope) → IsScopeOf leaf.now scope
        → LeafShows scope (constraints_after leaf.now.standing.now) uses.now target → ⊥) }
    ensures fault { IfErr result (IsLeafFault (place_of leaf.now) uses.now) }
    ensures work { work.new ≡ work.old }
{
    judge_with(leaf, &mut work.floors, &mut work.loads, uses, target)
}

fn judge_with(
    leaf: &LeafProblem,
    floors: &mut Floors,
    loads: &mut Loads,
    uses: &LeafUses,
    target: Amount,
) -> Result<(), LeafFault>
    requires leaf { IsLeafProblemInRange leaf.now }
    requires uses { AreUsesInRange (length leaf.now.list_totals.now) uses.now }
    requires floors { CoverAgents (length leaf.now.start_distances.now) floors.old }
    requires loads { HaveLoads (length leaf.now.start_distances.now) loads.old }
    ensures ok { OnOk result ((scope : Scope) → IsScopeOf leaf.now scope
        → LeafShows scope (constraints_after leaf.now.standing.now) uses.now target) }
    ensures err { IfErr result (λ fault. (scope : Scope) → IsScopeOf leaf.now scope
        → LeafShows scope (constraints_after leaf.now.standing.now) uses.now target → ⊥) }
    ensures fault { IfErr result (IsLeafFault (place_of leaf.now) uses.now) }
    ensures floors { CoverAgents (length leaf.now.start_distances.now) floors.new }
    ensures loads { HaveLoads (length leaf.now.start_distances.now) loads.new }
{
    laws::lemmas_are_decided();
    let list = list_of(leaf.list_totals, uses.list_number);
    let agents = leaf.agents.list();
    floors.begin(leaf.start_distances, agents, list.unit);
    loads.begin(agents);
    if let Err(index) = judge_singles(leaf, list, &uses.singles, floors) {
        return Err(LeafFault::NotAllowed(UsePlace::Single { index }));
    }
    let counting = Counting { list, floors };
    match judge_groups(leaf, &counting, &uses.groups, loads) {
        Ok(added) => {
            let bound = bound_of(list, floors.total(agents).plus(added));
            if target.is_at_most(bound) {
                Ok(())
            } else {
                Err(LeafFault::TooWeak)
            }
        }
        Err(place) => Err(LeafFault::NotAllowed(place)),
    }
}

// Returns the bound in ticks: this sum less all prices, but at least 0, divided by what a tick is worth and rounded up.
fn bound_of(list: LeafList, sum: Amount) -> Amount
    requires positive { 1 ≤ list.unit }
    requires small { ticks_of sum < 2 ^ 63 }
    ensures { result ≡ divided_label (label_less sum list.total) list.unit }
{
    match sum.units() {
        Some(units) => divided(Amount::of(units.saturating_sub(list.total)), list.unit),
        None => Amount::infinite(),
    }
}
