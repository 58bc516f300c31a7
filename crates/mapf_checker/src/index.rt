//! Which constraints the agents have at a node. The path from the root keeps them here, and the judge of entries looks
//! them up.
ghost use Rattle.std.specs.Prelude.{◌≡◌, ◌↔◌, ℕ, [], List, Contains, IfOk, OnOk, OnErr, IsTrue};
ghost use Rattle.mapf_model.specs.declared.bar.Bar.{Bar};
ghost use Rattle.mapf_model.specs.Tree.{with_constraint};
ghost use Rattle.mapf_checker.specs.Index.{IsOn};

use mapf_model::{Bar, Cell, Constraint, OutOfMemory, Tick};
use std::alloc::Global;
use std::collections::BTreeSet;

/// How to remove a constraint that was added to an index.
#[derive(Clone, Copy)]
pub struct Undo {
    /// Whether the index lacked the constraint before.
    pub is_new: bool,
}

/// The constraints of each agent, in an ordered set. Finding, adding and removing a constraint takes time that grows
/// with the logarithm of their number, whatever they are. Constraints are removed in the reverse of the order in which
/// they were added.
#[derive(Drop)]
pub struct BarIndex {
    // By agent; an agent's vertex constraints come before its edge constraints, by cell and then by tick.
    constraints: BTreeSet<(u32, Bar)>,
}

impl BarIndex {
    ghost use Rattle.mapf_checker.specs.Index.{Indexes, CanUndo, IsBarredFrom};

    /// Returns an index without constraints.
    pub fn new(alloc: Global) -> BarIndex
        ensures { Indexes (λ agent. []) result }
    {
        BarIndex {
            constraints: BTreeSet::new(alloc),
        }
    }

    /// Returns whether the constraint is in the index.
    pub fn has(&self, constraint: &Constraint) -> bool
        ensures { (bars : ℕ → List Bar) → Indexes bars self.now
            → IsTrue result ↔ Contains (bars constraint.now.agent) constraint.now.bar }
    {
        self.constraints
            .contains(&(constraint.agent, constraint.bar))
    }

    /// Returns whether a vertex constraint forbids the cell to the agent at this tick or later.
    pub fn has_from(&self, agent: u32, cell: Cell, tick: Tick) -> bool
        ensures { (bars : ℕ → List Bar) → Indexes bars self.now → IsTrue result ↔ IsBarredFrom (bars agent) cell tick }
    {
        let least = Bar::Cell { cell, tick };
        match self.constraints.range((agent, least)..).next() {
            Some(&(of, bar)) => of == agent && is_on(bar, cell),
            None => false,
        }
    }

    /// Adds a constraint.
    pub fn add(&mut self, constraint: &Constraint) -> Result<Undo, OutOfMemory>
        ensures added { OnOk result ((bars : ℕ → List Bar) → Indexes bars self.old
            → Indexes (with_constraint bars constraint.now) self.new) }
        ensures undo { IfOk result (λ undo. (bars : ℕ → List Bar) → Indexes bars self.old
            → CanUndo bars constraint.now undo) }
        ensures unchanged { OnErr result ((bars : ℕ → List Bar) → Indexes bars self.old → Indexes bars self.new) }
    {
        let is_new = self.constraints.insert((constraint.agent, constraint.bar))?;
        Ok(Undo { is_new })
    }

    /// Removes the constraint that was added last.
    pub fn undo(&mut self, constraint: &Constraint, undo: &Undo)
        ensures { (bars : ℕ → List Bar) → Indexes (with_constraint bars constraint.now) self.old
            → CanUndo bars constraint.now undo.now → Indexes bars self.new }
    {
        if undo.is_new {
            self.constraints.remove(&(constraint.agent, constraint.bar));
        }
    }
}

// Returns whether it is a vertex constraint on the cell.
fn is_on(bar: Bar, cell: Cell) -> bool
    ensures { IsTrue result ↔ IsOn cell bar }
{
    match bar {
        Bar::Cell { cell: at, .. } => at == cell,
        Bar::Move { .. } => false,
    }
}
