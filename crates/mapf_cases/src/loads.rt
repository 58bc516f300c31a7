//! Which group of a leaf each agent is in, and the sum of the weights of the group's uses that have it. The judge of
//! groups adds use after use.
ghost use Rattle.std.specs.Prelude.{◌≡◌, ◌≤◌, ◌<◌, ◌+◌, ◌*◌, ℕ, List, All, Contains, IfOk, IsTrue, false, length};
ghost use Rattle.std.specs.Prelude.{slice_index};
ghost use Rattle.mapf_cases.specs.Loads.{AreLoads, HaveLoads, IsAdded, IsOverloaded, IsRefused, weight_in};
ghost use Rattle.mapf_cases.specs.Ranges.{greatest_unit};
ghost use Rattle.mapf_lemmas.specs.Groups.{occurrences};
ghost use Rattle.mapf_model.specs.Limits.{most_agents};

use mapf_model::OutOfMemory;
use std::alloc::Global;

/// For each agent of a problem the group of a leaf that it is in, with its weight in that group. Only those of the
/// scope's agents are of the present leaf.
#[derive(Drop)]
pub struct Loads {
    /// The number of the agent's group, counted from 1, and 0 if it is in no group.
    pub marks: Vec<usize>,
    /// The agent's weight in its group.
    pub weights: Vec<u32>,
}

impl Loads {
    /// Returns marks for so many agents.
    pub fn new(alloc: Global, agents: usize) -> Result<Loads, OutOfMemory>
        ensures { IfOk result (HaveLoads agents) }
    {
        Ok(Loads {
            marks: vec![in alloc; 0; agents]?,
            weights: vec![in alloc; 0; agents]?,
        })
    }

    /// Says that these agents are in no group.
    pub fn begin(&mut self, agents: &[u32])
        requires loads { HaveLoads (length self.old.marks.items) self.old }
        requires agents { All (λ agent. agent < length self.old.marks.items) agents.now }
        ensures loads { HaveLoads (length self.old.marks.items) self.new }
        ensures none { (earlier : ℕ → ℕ → ℕ) (divisor : ℕ)
            → AreLoads agents.now earlier 0 (λ agent. 0) divisor self.new }
    {
        for agent in agents {
            self.marks[*agent as usize] = 0;
        }
    }

    /// Adds a use with this weight to the group with this number, counted from 0: each of its lemma's agents is in the
    /// group. Returns false if one of them is in another group, or has more than the divisor in this one.
    pub fn add(&mut self, group: usize, divisor: u32, agents: &[u32], weight: u32) -> bool
        requires loads { HaveLoads (length self.old.marks.items) self.old }
        requires group { group < most_agents }
        requires agents { All (λ agent. agent < length self.old.marks.items) agents.now }
        requires divisor { divisor ≤ greatest_unit }
        requires some { 1 ≤ weight }
        requires few { weight ≤ greatest_unit }
        ensures loads { HaveLoads (length self.old.marks.items) self.new }
        ensures added { IsTrue result → (scope : List ℕ) (earlier : ℕ → ℕ → ℕ) (present : ℕ → ℕ)
            → AreLoads scope earlier group present divisor self.old → All (Contains scope) agents.now
            → AreLoads scope earlier group (λ agent. present agent + weight * occurrences agent agents.now) divisor
            self.new }
        ensures over { result ≡ false → (scope : List ℕ) (earlier : ℕ → ℕ → ℕ) (present : ℕ → ℕ)
            → AreLoads scope earlier group present divisor self.old → All (Contains scope) agents.now
            → IsOverloaded agents.now earlier group (λ agent. present agent + weight * occurrences agent agents.now)
            divisor }
    {
        for agent in agents {
            if !self.add_agent(group, divisor, *agent, weight) {
                return false;
            }
        }
        true
    }

    // Adds the weight to that of the agent in the group with this number. Returns false if the agent is in another
    // group, or has more than the divisor then.
    fn add_agent(&mut self, group: usize, divisor: u32, agent: u32, weight: u32) -> bool
        requires loads { HaveLoads (length self.old.marks.items) self.old }
        requires group { group < most_agents }
        requires agent { agent < length self.old.marks.items }
        requires divisor { divisor ≤ greatest_unit }
        requires some { 1 ≤ weight }
        requires few { weight ≤ greatest_unit }
        ensures loads { HaveLoads (length self.old.marks.items) self.new }
        ensures added { IsTrue result → IsAdded group divisor agent weight self.old self.new }
        ensures over { result ≡ false → IsRefused group divisor agent weight self.old }
    {
        let index = agent as usize;
        let mark = self.marks[index];
        if mark != 0 && mark != group + 1 {
            return false;
        }
        let sum = self.weight_in(group, index) + weight;
        if sum > divisor {
            return false;
        }
        self.marks[index] = group + 1;
        self.weights[index] = sum;
        true
    }

    // Returns the weight of the agent at this index in the group with this number, 0 if it is in another or in none.
    fn weight_in(&self, group: usize, index: usize) -> u32
        requires loads { HaveLoads (length self.now.marks.items) self.now }
        requires group { group < most_agents }
        requires index { index < length self.now.marks.items }
        ensures weight { result
            ≡ weight_in group (slice_index self.now.marks.items index) (slice_index self.now.weights.items index) }
        ensures small { result ≤ greatest_unit }
    {
        if self.marks[index] == group + 1 {
            self.weights[index]
        } else {
            0
        }
    }
}
