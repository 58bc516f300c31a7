//! The least priced costs of single agents at a leaf. The judge of a leaf sets them, and adds them up.
ghost use Rattle.std.specs.Prelude.{◌≡◌, ◌≤◌, ◌<◌, ◌↔◌, ◌*◌, [], List, All, IfOk, IsTrue, true, false, length};
ghost use Rattle.std.specs.Prelude.{slice_index_or, slice_set, sum_by};
ghost use Rattle.mapf_lemmas.specs.Groups.{ticks_of};
ghost use Rattle.mapf_lemmas.specs.Statements.{Statement};
ghost use Rattle.mapf_cases.specs.Totals.{label_total};
ghost use Rattle.mapf_cases.specs.Ranges.{greatest_counted, greatest_unit};
ghost use Rattle.mapf_cases.specs.Floors.{CoverAgents, AreFloors, distance_worth, floor_at};
ghost use Rattle.mapf_model.specs.Limits.{most_agents};

use mapf_lemmas::Amount;
use mapf_model::OutOfMemory;
use std::alloc::Global;

/// For each agent of a problem the least priced cost that a leaf shows of it alone, its floor, in units of the leaf's
/// price list. Only the floors of the scope's agents are those of the present leaf.
#[derive(Drop)]
pub struct Floors {
    /// The floors, at most 2 * 10^13 units if they are finite.
    pub amounts: Vec<Amount>,
    /// Whether the leaf names a lemma of this agent alone.
    pub named: Vec<bool>,
}

impl Floors {
    /// Returns floors for so many agents.
    pub fn new(alloc: Global, agents: usize) -> Result<Floors, OutOfMemory>
        ensures { IfOk result (CoverAgents agents) }
    {
        Ok(Floors {
            amounts: vec![in alloc; Amount::of(0); agents]?,
            named: vec![in alloc; false; agents]?,
        })
    }

    /// Sets the floors of these agents to what their distances, in ticks, are worth by this unit.
    pub fn begin(&mut self, distances: &[Option<u32>], agents: &[u32], unit: u32)
        requires cover { CoverAgents (length distances.now) self.old }
        requires agents { All (λ agent. agent < length distances.now) agents.now }
        requires unit { unit ≤ greatest_unit }
        ensures floors { (known : List Statement) → AreFloors known unit distances.now [] agents.now self.new }
        ensures cover { CoverAgents (length distances.now) self.new }
    {
        for agent in agents {
            let index = *agent as usize;
            self.amounts[index] = worth_of(distances[index], unit);
            self.named[index] = false;
        }
    }

    /// Sets the floor of an agent to what a lemma of it alone counts. Returns false if it has such a lemma already.
    pub fn set(&mut self, agent: u32, counted: Amount) -> bool
        requires agent { agent < length self.old.named.items }
        requires cover { CoverAgents (length self.old.named.items) self.old }
        requires counted { ticks_of counted ≤ greatest_counted }
        ensures first { IsTrue result ↔ (slice_index_or self.old.named.items agent false ≡ false) }
        ensures amounts { IsTrue result → self.new.amounts.items ≡ slice_set self.old.amounts.items agent counted }
        ensures named { IsTrue result → self.new.named.items ≡ slice_set self.old.named.items agent true }
        ensures cover { CoverAgents (length self.old.named.items) self.new }
    {
        let index = agent as usize;
        if self.named[index] {
            return false;
        }
        self.amounts[index] = counted;
        self.named[index] = true;
        true
    }

    /// Returns the sum of the floors of these agents.
    pub fn total(&self, agents: &[u32]) -> Amount
        requires cover { All (λ floor. ticks_of floor ≤ greatest_counted) self.now.amounts.items }
        requires agents { All (λ agent. agent < length self.now.amounts.items) agents.now }
        requires few { length agents.now ≤ most_agents }
        ensures sum { result ≡ label_total (floor_at self.now.amounts.items) agents.now }
        ensures small { ticks_of result ≤ length agents.now * greatest_counted }
    {
        let mut sum = Amount::of(0);
        for agent in agents {
            sum = sum.plus(self.amounts[*agent as usize]);
        }
        sum
    }

    /// Returns the sum of those of these agents' floors that are finite.
    pub fn finite_total(&self, agents: &[u32]) -> u64
        requires cover { All (λ floor. ticks_of floor ≤ greatest_counted) self.now.amounts.items }
        requires agents { All (λ agent. agent < length self.now.amounts.items) agents.now }
        requires few { length agents.now ≤ most_agents }
        ensures { result ≡ sum_by (λ agent. ticks_of (floor_at self.now.amounts.items agent)) agents.now }
    {
        let mut sum = 0;
        for agent in agents {
            sum += finite_units(self.amounts[*agent as usize]);
        }
        sum
    }
}

/// Returns the units of an amount, 0 if it is infinite.
pub fn finite_units(amount: Amount) -> u64
    ensures { result ≡ ticks_of amount }
{
    match amount.units() {
        Some(units) => units,
        None => 0,
    }
}

// Returns what a distance in ticks is worth by this unit.
fn worth_of(distance: Option<u32>, unit: u32) -> Amount
    requires { unit ≤ greatest_unit }
    ensures worth { result ≡ distance_worth unit distance }
    ensures small { ticks_of result ≤ greatest_counted }
{
    match distance {
        Some(ticks) => Amount::of(unit as u64 * ticks as u64),
        None => Amount::infinite(),
    }
}
