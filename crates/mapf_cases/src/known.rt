//! What the judge of leaves is given: the lemmas before a tree, its scope, and what stands at the leaf. The judges of
//! the uses outside groups and in groups look lemmas up here.
ghost use Rattle.std.specs.Prelude.{◌≡◌, ◌≤◌, ◌<◌, ◌↔◌, ◌⊎◌, None, All, IfSome, IfNone, IsTrue, length};
ghost use Rattle.mapf_cases.specs.Floors.{counted_by};
ghost use Rattle.mapf_cases.specs.Leaves.{IsLeafList, IsListIn};
ghost use Rattle.mapf_cases.specs.Places.{IsUsable, MayUse, place_of};
ghost use Rattle.mapf_cases.specs.Ranges.{IsStatementInRange, greatest_counted, greatest_unit};
ghost use Rattle.mapf_lemmas.specs.Groups.{ticks_of};

use crate::scope_agents::ScopeAgents;
use crate::standing::Standing;
use crate::use_judge::may_be_used;
use mapf_lemmas::{Amount, Statement};

/// What the judge of leaves knows of a price list.
#[derive(Clone, Copy, Debug, PartialEq, Eq)]
pub struct ListTotal {
    /// What a tick is worth, 1 to 1,000.
    pub unit: u32,
    /// The sum of all prices.
    pub total: u64,
}

/// What a leaf is judged by, beside what it names.
#[derive(Drop)]
pub struct LeafProblem<'a> {
    /// The statements of the lemmas that stand before the tree, by their numbers.
    pub known: &'a [Statement],
    /// The price lists, by their numbers.
    pub list_totals: &'a [ListTotal],
    /// For each agent of the problem the distance of its start in ticks, None if it can't reach its goal.
    pub start_distances: &'a [Option<u32>],
    /// The agents of which the tree speaks.
    pub agents: &'a ScopeAgents,
    /// The constraints that stand at the leaf.
    pub standing: &'a Standing,
}

/// The price list that a leaf names, or none, by which a tick is worth 1.
#[derive(Clone, Copy)]
pub struct LeafList {
    pub list_number: Option<u64>,
    /// What a tick is worth, 1 to 1,000.
    pub unit: u32,
    /// The sum of all prices.
    pub total: u64,
}

/// Returns the list with this number, or none.
pub fn list_of(totals: &[ListTotal], list_number: Option<u64>) -> LeafList
    requires { IsListIn (length totals.now) list_number }
    ensures { IsLeafList totals.now list_number result }
{
    match list_number {
        Some(number) => {
            let list = &totals[number as usize];
            LeafList {
                list_number,
                unit: list.unit,
                total: list.total,
            }
        }
        None => LeafList {
            list_number,
            unit: 1,
            total: 0,
        },
    }
}

/// Returns the statement of the lemma with this number if a leaf with the list of that number, or without one, may use
/// it: the lemma is known, it has the same list or none, its agents are of the scope, and its constraints are met.
pub fn usable<'a>(
    leaf: &'a LeafProblem,
    list_number: Option<u64>,
    lemma: u64,
) -> Option<&'a Statement>
    ensures some { IfSome result (λ statement. IsUsable (place_of leaf.now) list_number lemma statement.now) }
    ensures none { IfNone result (MayUse (place_of leaf.now) list_number lemma → ⊥) }
{
    let statement = leaf.known.get(lemma as usize)?;
    if fits_list(statement, list_number) && may_be_used(leaf.standing, leaf.agents, statement) {
        Some(statement)
    } else {
        None
    }
}

// Returns whether the statement has the list of this number, or none.
fn fits_list(statement: &Statement, list_number: Option<u64>) -> bool
    ensures { IsTrue result ↔ ((statement.now.list_number ≡ list_number) ⊎ (statement.now.list_number ≡ None)) }
{
    statement.list_number == list_number || statement.list_number == None
}

/// Returns what the bound of the statement counts at a leaf whose price list has this unit, in units of the list.
pub fn counted(statement: &Statement, unit: u32) -> Amount
    requires range { IsStatementInRange statement.now }
    requires unit { unit ≤ greatest_unit }
    ensures counted { result ≡ counted_by unit statement.now }
    ensures small { ticks_of result ≤ greatest_counted }
{
    match statement.list_number {
        Some(_) => statement.bound,
        None => match statement.bound.units() {
            Some(ticks) => Amount::of(unit as u64 * ticks),
            None => Amount::infinite(),
        },
    }
}
