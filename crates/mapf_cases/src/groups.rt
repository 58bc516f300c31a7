//! The judge of the uses of lemmas in groups, and what the groups are worth. The judge of a leaf calls it.
ghost use Rattle.std.specs.Prelude.{◌≡◌, ◌≤◌, ◌<◌, ◌+◌, ◌*◌, ◌^◌, List, All, IfErr, IfOk, OnOk, Some, length};
ghost use Rattle.std.specs.Prelude.{slice_get, slice_index_or, take};
ghost use Rattle.mapf_cases.specs.Floors.{CoverAgents, labels_of};
ghost use Rattle.mapf_cases.specs.Leaves.{IsFirstBadIn, divided_label, group_worth, use_worth};
ghost use Rattle.mapf_cases.specs.Loads.{AreLoads, HaveLoads};
ghost use Rattle.mapf_cases.specs.Places.{AreGroups, IsFirstBadUse, no_group, place_of, weight_at};
ghost use Rattle.mapf_cases.specs.Ranges.{IsGroupInRange, IsStatementInRange, greatest_counted, greatest_unit};
ghost use Rattle.mapf_cases.specs.Totals.{label_total};
ghost use Rattle.mapf_lemmas.specs.Groups.{ticks_of};
ghost use Rattle.mapf_lemmas.specs.Statements.{Statement};
ghost use Rattle.mapf_lemmas.specs.declared.leaf.Use.{Use};
ghost use Rattle.mapf_model.specs.Limits.{most_agents};

use crate::floors::Floors;
use crate::known::{LeafList, LeafProblem, counted, usable};
use crate::leaf_fault::UsePlace;
use crate::loads::Loads;
use mapf_lemmas::{Amount, Group, Statement};

/// What a leaf counts: by its price list, and the floors of the scope's agents.
#[derive(Drop)]
pub struct Counting<'a> {
    pub list: LeafList,
    pub floors: &'a Floors,
}

/// Checks that a leaf may name these groups. Returns the sum of what they are worth, in units of the leaf's price list,
/// or the place of the first use that isn't allowed.
pub fn judge_groups(
    leaf: &LeafProblem,
    counting: &Counting,
    groups: &[Group],
    loads: &mut Loads,
) -> Result<Amount, UsePlace>
    requires known { All IsStatementInRange leaf.now.known.now }
    requires agents { All (λ agent. agent < length leaf.now.start_distances.now) leaf.now.agents.now }
    requires scope { length leaf.now.agents.now ≤ most_agents }
    requires unit { counting.now.list.unit ≤ greatest_unit }
    requires floors { CoverAgents (length leaf.now.start_distances.now) counting.now.floors.now }
    requires have { HaveLoads (length leaf.now.start_distances.now) loads.old }
    requires few { length groups.now ≤ most_agents }
    requires groups { All IsGroupInRange groups.now }
    requires loads { AreLoads leaf.now.agents.now (weight_at leaf.now.known.now groups.now) 0 (λ agent. 0) 0 loads.old }
    ensures have { HaveLoads (length leaf.now.start_distances.now) loads.new }
    ensures ok { OnOk result (AreGroups (place_of leaf.now) counting.now.list.list_number groups.now) }
    ensures worth { IfOk result (λ sum. sum ≡ label_total (group_worth
        (labels_of leaf.now.known.now counting.now.list.unit counting.now.floors.now.amounts.items)) groups.now) }
    ensures small { IfOk result (λ sum. ticks_of sum ≤ length groups.now * (most_agents * greatest_counted)) }
    ensures bad { IfErr result (IsFirstBadIn (place_of leaf.now) counting.now.list.list_number groups.now) }
{
    let mut sum = Amount::of(0);
    for number in 0..groups.len() {
        match judge_group(leaf, counting, groups, number, loads) {
            Ok(worth) => sum = sum.plus(worth),
            Err(index) => {
                return Err(UsePlace::InGroup {
                    group: number,
                    index,
                });
            }
        }
    }
    Ok(sum)
}

// Checks that a leaf may name the group with this number, where those before it are allowed. Returns what it is worth,
// or the index of its first use that isn't allowed.
fn judge_group(
    leaf: &LeafProblem,
    counting: &Counting,
    groups: &[Group],
    number: usize,
    loads: &mut Loads,
) -> Result<Amount, usize>
    requires known { All IsStatementInRange leaf.now.known.now }
    requires agents { All (λ agent. agent < length leaf.now.start_distances.now) leaf.now.agents.now }
    requires scope { length leaf.now.agents.now ≤ most_agents }
    requires unit { counting.now.list.unit ≤ greatest_unit }
    requires floors { CoverAgents (length leaf.now.start_distances.now) counting.now.floors.now }
    requires have { HaveLoads (length leaf.now.start_distances.now) loads.old }
    requires few { length groups.now ≤ most_agents }
    requires groups { All IsGroupInRange groups.now }
    requires number { number < length groups.now }
    requires before { AreGroups (place_of leaf.now) counting.now.list.list_number (take number groups.now) }
    requires loads { AreLoads leaf.now.agents.now (weight_at leaf.now.known.now groups.now) number (λ agent. 0) 0
        loads.old }
    ensures have { HaveLoads (length leaf.now.start_distances.now) loads.new }
    ensures ok { OnOk result
        (AreGroups (place_of leaf.now) counting.now.list.list_number (take (number + 1) groups.now)) }
    ensures loads { OnOk result (AreLoads leaf.now.agents.now (weight_at leaf.now.known.now groups.now) (number + 1)
        (λ agent. 0) 0 loads.new) }
    ensures worth { IfOk result (λ worth. worth ≡ group_worth
        (labels_of leaf.now.known.now counting.now.list.unit counting.now.floors.now.amounts.items)
        (slice_index_or groups.now number no_group)) }
    ensures small { IfOk result (λ worth. ticks_of worth ≤ most_agents * greatest_counted) }
    ensures bad { IfErr result
        (IsFirstBadUse (place_of leaf.now) counting.now.list.list_number groups.now number) }
{
    let group = &groups[number];
    let mut sum = Amount::of(0);
    for k in 0..group.uses.len() {
        let used = group.uses[k];
        let Some(statement) = usable(leaf, counting.list.list_number, used.lemma) else {
            return Err(k);
        };
        if !loads.add(number, group.divisor, &statement.agents, used.weight) {
            return Err(k);
        }
        sum = sum.plus(worth_of_use(counting, statement, used.weight));
    }
    Ok(divided(sum, group.divisor))
}

// Returns the weight times what the lemma with this statement counts beyond the floors of its agents.
fn worth_of_use(counting: &Counting, statement: &Statement, weight: u32) -> Amount
    requires range { IsStatementInRange statement.now }
    requires unit { counting.now.list.unit ≤ greatest_unit }
    requires floors { All (λ floor. ticks_of floor ≤ greatest_counted) counting.now.floors.now.amounts.items }
    requires agents { All (λ agent. agent < length counting.now.floors.now.amounts.items) statement.now.agents }
    requires weight { weight ≤ greatest_unit }
    ensures worth { (known : List Statement) (used : Use) → slice_get known used.lemma ≡ Some statement.now
        → used.weight ≡ weight → result ≡ use_worth
        (labels_of known counting.now.list.unit counting.now.floors.now.amounts.items) used }
    ensures small { ticks_of result ≤ weight * greatest_counted }
{
    match counted(statement, counting.list.unit).units() {
        Some(units) => {
            let least = counting.floors.finite_total(&statement.agents);
            Amount::of(weight as u64 * units.saturating_sub(least))
        }
        None => Amount::infinite(),
    }
}

/// Returns the quotient, rounded up.
pub fn divided(amount: Amount, divisor: u32) -> Amount
    requires positive { 1 ≤ divisor }
    requires small { ticks_of amount < 2 ^ 63 }
    ensures { result ≡ divided_label amount divisor }
{
    match amount.units() {
        Some(units) => {
            let divisor = divisor as u64;
            Amount::of((units + (divisor - 1)) / divisor)
        }
        None => Amount::infinite(),
    }
}
