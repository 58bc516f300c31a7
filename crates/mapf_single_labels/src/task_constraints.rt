//! The constraints that a lemma has for one agent, so that they are found fast. The judges of entries ask for those of
//! a state or of a step.
ghost use Rattle.std.specs.Prelude.{◌≡◌, ◌↔◌, ◌++◌, ◌∷◌, [], Contains, IfOk, OnErr, OnOk, IsTrue};
ghost use Rattle.mapf_lemmas.specs.Constraints.{demanded_cost};
ghost use Rattle.mapf_lemmas.specs.Statements.{constraints_of};
ghost use Rattle.mapf_lemmas.specs.declared.constraint.PathConstraint.TheVariants.{NotMove};
ghost use Rattle.mapf_single_labels.specs.TaskConstraints.{IsForbidden, IsForbiddenFrom, IsLeastMost};

use crate::constraint_index::ConstraintIndex;
use mapf_lemmas::{AgentConstraint, PathConstraint};
use mapf_model::{Cell, OutOfMemory, Tick};
use std::alloc::Global;
use std::marker::Model;

/// The constraints of one agent, so that those of a state or a step are found fast.
#[derive(Drop)]
pub struct TaskConstraints {
    listed: Vec<PathConstraint>,
    index: ConstraintIndex,
}

impl Model for TaskConstraints {
    ghost use Rattle.std.specs.Prelude.{List};
    ghost use Rattle.mapf_lemmas.specs.declared.constraint.PathConstraint.{PathConstraint};

    ghost Value = { List PathConstraint };

    ghost use Rattle.mapf_single_labels.specs.ConstraintIndex.{Indexes};

    ghost view = { λ own. own.listed.items };

    ghost invariant = { λ own. Indexes own.listed.items own.index };
}

impl TaskConstraints {
    /// Returns no constraints, which take no memory.
    pub fn new(alloc: Global) -> TaskConstraints
        ensures { result ≡ [] }
    {
        TaskConstraints {
            listed: Vec::new(alloc),
            index: ConstraintIndex::new(alloc),
        }
    }

    /// Returns these constraints.
    pub fn of(alloc: Global, constraints: &[PathConstraint]) -> Result<TaskConstraints, OutOfMemory>
        ensures { IfOk result (λ own. own ≡ constraints.now) }
    {
        let mut own = TaskConstraints::new(alloc);
        for constraint in constraints {
            own.add(constraint)?;
        }
        Ok(own)
    }

    /// Returns the constraints of this agent among those of several agents.
    pub fn of_agent(
        alloc: Global,
        constraints: &[AgentConstraint],
        agent: u32,
    ) -> Result<TaskConstraints, OutOfMemory>
        ensures { IfOk result (λ own. own ≡ constraints_of constraints.now agent) }
    {
        let mut own = TaskConstraints::new(alloc);
        for one in constraints {
            if one.agent == agent {
                own.add(&one.constraint)?;
            }
        }
        Ok(own)
    }

    /// Adds a constraint.
    pub fn add(&mut self, constraint: &PathConstraint) -> Result<(), OutOfMemory>
        ensures added { OnOk result (self.new ≡ self.old ++ constraint.now ∷ []) }
        ensures unchanged { OnErr result (self.new ≡ self.old) }
    {
        self.listed.reserve(1)?;
        self.index.add(constraint)?;
        self.listed.push_reserved(*constraint);
        Ok(())
    }

    /// Returns whether some constraint forbids the agent to be in the cell at the tick, whatever its path costs.
    pub fn forbids(&self, cell: Cell, tick: Tick) -> bool
        ensures { IsTrue result ↔ IsForbidden self.now cell tick }
    {
        self.index.forbids(cell, tick)
    }

    /// Returns whether some constraint forbids the agent to be in the cell at the tick or later.
    pub fn forbids_from(&self, cell: Cell, tick: Tick) -> bool
        ensures { IsTrue result ↔ IsForbiddenFrom self.now cell tick }
    {
        self.index.forbids_from(cell, tick)
    }

    /// Returns whether a constraint forbids the agent to go from the one cell at the tick to the other.
    pub fn forbids_move(&self, from: Cell, to: Cell, tick: Tick) -> bool
        ensures { IsTrue result ↔ Contains self.now (NotMove from to tick) }
    {
        self.index.forbids_move(from, to, tick)
    }

    /// Returns the least cost that some constraint allows at most, in ticks, None if no constraint does.
    pub fn most(&self) -> Option<u32>
        ensures { IsLeastMost self.now result }
    {
        self.index.most()
    }

    /// Returns the greatest cost that some constraint demands at least, in ticks, 0 if no constraint does.
    #[inline(always)]
    pub fn least(&self) -> u32
        ensures { result ≡ demanded_cost self.now }
    {
        self.index.least()
    }
}
