//! Which constraints stand at a node of a tree of cases. The judge of the tree adds and takes away what the splits
//! above the node add; the judges of uses and splits ask whether the constraints of a lemma are met.
ghost use Rattle.std.specs.Prelude.{◌≡◌, ◌≤◌, ◌↔◌, ◌-◌, ◌∷◌, ◌++◌, [], List, length, OnOk, OnErr, IsTrue};

use crate::addition::Addition;
use crate::clear_index::{ClearIndex, Earliest};
use crate::rule::Rule;
use crate::rule_index::RuleIndex;
use mapf_lemmas::{AgentConstraint, PathConstraint};
use mapf_model::{Cell, OutOfMemory, Tick};
use std::alloc::Global;
use std::marker::Model;

/// What was added, with what is needed to take it away again.
#[derive(Clone, Copy)]
pub enum Layer {
    /// A constraint of one agent, and whether the index lacked it before.
    One {
        own: AgentConstraint,
        is_new: bool,
    },
    /// A cell of which all agents but one keep clear, and what was kept of the cell before.
    Others {
        agent: u32,
        cell: Cell,
        tick: Tick,
        before: Option<Earliest>,
    },
}

/// The constraints that stand, as what was added to them and not taken away again, the last first. A constraint that
/// was added twice stands until both are taken away. To add one, to take one away and to ask whether one is met takes
/// time that grows with the logarithm of their number, whatever they are.
#[derive(Drop)]
pub struct Standing {
    // The last one last.
    layers: Vec<Layer>,
    rules: RuleIndex,
    clears: ClearIndex,
}

impl Model for Standing {
    ghost use Rattle.std.specs.Prelude.{List};
    ghost use Rattle.mapf_cases.specs.declared.addition.Addition.{Addition};

    ghost Value = { List Addition };

    ghost use Rattle.std.specs.Prelude.{map, reverse};
    ghost use Rattle.mapf_cases.specs.Layers.{addition_of, AreLayers};

    ghost view = { λ standing. map addition_of (reverse standing.layers.items) };

    ghost invariant = { λ standing. AreLayers (reverse standing.layers.items) standing.rules standing.clears };
}

impl Standing {
    ghost use Rattle.mapf_lemmas.specs.Statements.{IsMet};
    ghost use Rattle.mapf_cases.specs.declared.addition.Addition.{Addition};
    ghost use Rattle.mapf_cases.specs.Standing.{constraints_after};

    /// Returns the state in which nothing stands.
    pub fn new(alloc: Global) -> Standing
        ensures { result ≡ [] }
    {
        Standing {
            layers: Vec::new(alloc),
            rules: RuleIndex::new(alloc),
            clears: ClearIndex::new(alloc),
        }
    }

    /// Returns how many additions stand.
    pub fn count(&self) -> usize
        ensures { result ≡ length self.now }
    {
        self.layers.len()
    }

    /// Returns whether the constraint is met for the agent: some constraint of it that stands meets this one.
    pub fn meets(&self, agent: u32, needed: &PathConstraint) -> bool
        ensures { IsTrue result ↔ IsMet (constraints_after self.now agent) needed.now }
    {
        if self.rules.meets(agent, &Rule::of(needed)) {
            return true;
        }
        match *needed {
            PathConstraint::NotAt { cell, tick } => self.clears.is_clear(agent, cell, tick),
            PathConstraint::Clear { cell, tick } => self.clears.is_clear(agent, cell, tick),
            _ => false,
        }
    }

    /// Adds what a split or a lemma adds.
    pub fn add(&mut self, addition: Addition) -> Result<(), OutOfMemory>
        ensures added { OnOk result (self.new ≡ addition ∷ self.old) }
        ensures unchanged { OnErr result (self.new ≡ self.old) }
    {
        self.layers.reserve(1)?;
        let layer = match addition {
            Addition::One(own) => Layer::One {
                own,
                is_new: self.rules.add(own.agent, &Rule::of(&own.constraint))?,
            },
            Addition::Others { agent, cell, tick } => Layer::Others {
                agent,
                cell,
                tick,
                before: self.clears.add(agent, cell, tick)?,
            },
        };
        self.layers.push_reserved(layer);
        Ok(())
    }

    /// Takes away what was added last, again and again until at most so many additions stand.
    pub fn take_back_to(&mut self, count: usize)
        ensures taken { (more rest : List Addition) → self.old ≡ more ++ rest → length rest ≡ count
            → self.new ≡ rest }
        ensures kept { length self.old ≤ count → self.new ≡ self.old }
    {
        while self.count() > count {
            self.take_last();
        }
    }

    // Takes away what was added last, if there is anything.
    fn take_last(&mut self)
        ensures rest { (addition : Addition) (rest : List Addition) → self.old ≡ addition ∷ rest → self.new ≡ rest }
        ensures fewer { length self.new ≡ length self.old - 1 }
    {
        let Some(layer) = self.layers.pop() else {
            return;
        };
        match layer {
            Layer::One { own, is_new } => self
                .rules
                .remove(own.agent, &Rule::of(&own.constraint), is_new),
            Layer::Others {
                agent,
                cell,
                tick,
                before,
            } => self.clears.remove(agent, cell, tick, before),
        }
    }
}
