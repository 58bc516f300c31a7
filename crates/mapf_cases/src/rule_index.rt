//! The constraints of single agents that stand, in an ordered set. The constraints at a node keep theirs here.
ghost use Rattle.std.specs.Prelude.{◌≡◌, ◌↔◌, ℕ, [], List, Contains, IfOk, OnOk, OnErr, IsTrue};
ghost use Rattle.mapf_lemmas.specs.declared.constraint.PathConstraint.{PathConstraint};
ghost use Rattle.mapf_lemmas.specs.Cases.{with_constraint};
ghost use Rattle.mapf_lemmas.specs.Statements.{IsMet};
ghost use Rattle.mapf_cases.specs.Rules.{constraint_of};

use crate::rule::Rule;
use mapf_model::OutOfMemory;
use std::alloc::Global;
use std::collections::BTreeSet;

/// The constraints of each agent. Finding, adding and removing one takes time that grows with the logarithm of their
/// number, whatever they are. They are removed in the reverse of the order in which they were added.
#[derive(Drop)]
pub struct RuleIndex {
    // By agent and then by rule.
    rules: BTreeSet<(u32, Rule)>,
}

impl RuleIndex {
    ghost use Rattle.mapf_cases.specs.declared.rule.Rule.{Rule};
    ghost use Rattle.mapf_cases.specs.Rules.{Indexes, CanRemove, ServesFrom};

    /// Returns an index without constraints.
    pub fn new(alloc: Global) -> RuleIndex
        ensures { Indexes (λ agent. []) result }
    {
        RuleIndex {
            rules: BTreeSet::new(alloc),
        }
    }

    /// Returns whether a constraint of the agent meets the needed one.
    pub fn meets(&self, agent: u32, needed: &Rule) -> bool
        ensures { (constraints : ℕ → List PathConstraint) → Indexes constraints self.now
            → IsTrue result ↔ IsMet (constraints agent) (constraint_of needed.now) }
    {
        if self.stands_from(agent, &needed.first_of_kind(), needed) {
            return true;
        }
        match needed.first_of_other_kind() {
            Some(first) => self.stands_from(agent, &first, needed),
            None => false,
        }
    }

    // Returns whether the agent's first constraint from this rule on meets the needed one.
    fn stands_from(&self, agent: u32, first: &Rule, needed: &Rule) -> bool
        ensures sound { (constraints : ℕ → List PathConstraint) → Indexes constraints self.now → IsTrue result
            → IsMet (constraints agent) (constraint_of needed.now) }
        ensures complete { (constraints : ℕ → List PathConstraint) (rule : Rule) → Indexes constraints self.now
            → Contains (constraints agent) (constraint_of rule) → ServesFrom agent first.now needed.now rule
            → IsTrue result }
    {
        match self.rules.range((agent, *first)..).next() {
            Some(&(of, rule)) => of == agent && rule.stands_for(needed),
            None => false,
        }
    }

    /// Adds a constraint. Returns whether the index lacked it.
    pub fn add(&mut self, agent: u32, rule: &Rule) -> Result<bool, OutOfMemory>
        ensures added { OnOk result ((constraints : ℕ → List PathConstraint) → Indexes constraints self.old
            → Indexes (with_constraint constraints agent (constraint_of rule.now)) self.new) }
        ensures undo { IfOk result (λ is_new. (constraints : ℕ → List PathConstraint) → Indexes constraints self.old
            → CanRemove constraints agent (constraint_of rule.now) is_new) }
        ensures unchanged { OnErr result ((constraints : ℕ → List PathConstraint) → Indexes constraints self.old
            → Indexes constraints self.new) }
    {
        Ok(self.rules.insert((agent, *rule))?)
    }

    /// Removes the constraint that was added last, if the index lacked it before.
    pub fn remove(&mut self, agent: u32, rule: &Rule, is_new: bool)
        ensures { (constraints : ℕ → List PathConstraint)
            → Indexes (with_constraint constraints agent (constraint_of rule.now)) self.old
            → CanRemove constraints agent (constraint_of rule.now) is_new → Indexes constraints self.new }
    {
        if is_new {
            self.rules.remove(&(agent, *rule));
        }
    }
}
