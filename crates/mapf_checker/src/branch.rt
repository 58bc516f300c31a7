//! The path from the root to the node that is judged, with all that this node inherits. The judge of a tree moves along
//! it.
ghost use Rattle.std.specs.Prelude.{◌≡◌, ◌↔◌, ◌+◌, ◌<◌, ◌∷◌, ◌++◌, [], List, Contains, length};
ghost use Rattle.std.specs.Prelude.{IfNone, IfOk, IfSome, OnOk, IsTrue};
ghost use Rattle.mapf_checker.specs.Branch.{IndexesFirst};

use crate::index::{BarIndex, Undo};
use crate::starts::{StartChange, Starts};
use mapf_model::{Bar, Cell, Conflict, Constraint, Label, OutOfMemory, Tick};
use std::alloc::Global;
use std::marker::Model;

/// A child of a split.
#[derive(Clone, Copy)]
pub enum Child {
    Left,
    Right,
}

/// An edge of a constraint tree, from a split to one of its children.
#[derive(Drop)]
pub struct Edge {
    /// The split's conflict.
    pub conflict: Conflict,
    /// The child that the edge leads to. If it is the left child, the right child has not been read yet.
    pub child: Child,
    /// How the split's blocks change the entries of the starts, for both children.
    pub changes: Vec<StartChange>,
}

impl Edge {
    ghost use Rattle.mapf_checker.specs.Branch.{constraint_of};

    // Returns the constraint that the child adds.
    fn constraint(&self) -> Constraint
        ensures { result ≡ constraint_of self.now }
    {
        match self.child {
            Child::Left => self.conflict.left(),
            Child::Right => self.conflict.right(),
        }
    }
}

/// The path of a constraint tree from its root to the node that is read next: what that node inherits, and which nodes
/// are to be read after it. A tree is read in pre-order, so the right child of a split is read after the whole subtree
/// of the left child. Of the blocks along the path only the entries of the starts are kept. Constraints are looked up
/// only when a block is judged, so before that the index may lack those of the last edges.
#[derive(Drop)]
pub struct Branch {
    edges: Vec<Edge>,
    index: BarIndex,
    // For each of the first edges, whose constraints are in the index, how to remove its constraint again.
    undos: Vec<Undo>,
    starts: Starts,
}

impl Model for Branch {
    ghost use Rattle.std.specs.Prelude.{length};
    ghost use Rattle.mapf_checker.specs.Branch.{Route, IsIndexedBranch};

    ghost Value = { Route };

    ghost view = { λ branch. record {
      edges = branch.edges.items;
      indexed = length branch.undos.items;
      agents = length branch.starts.entries.items;
    } };

    ghost invariant = { λ branch.
        IsIndexedBranch branch.edges.items branch.undos.items branch.index branch.starts };
}

impl Branch {
    ghost use Rattle.mapf_checker.specs.Branch.{CanUndoEdge, IsIndexed, NextOf, IsSplit, descended, place_of};
    ghost use Rattle.mapf_checker.specs.Index.{IsBarredFrom};
    ghost use Rattle.mapf_checker.specs.Starts.{IsKept, AreOfFirst, KnowEntries};

    /// Returns the path that ends at the root, with nothing to be read after it.
    pub fn new(alloc: Global, agents: usize) -> Result<Branch, OutOfMemory>
        ensures { IfOk result (λ branch. branch ≡ record { edges = []; indexed = 0; agents = agents }) }
    {
        Ok(Branch {
            edges: Vec::new(alloc),
            index: BarIndex::new(alloc),
            undos: Vec::new(alloc),
            starts: Starts::new(alloc, agents)?,
        })
    }

    /// Adds to the index the constraints that it lacks.
    pub fn index_all(&mut self) -> Result<(), OutOfMemory>
        ensures indexed { OnOk result (IsIndexed self.new) }
        ensures edges { self.new.edges ≡ self.old.edges }
        ensures agents { self.new.agents ≡ self.old.agents }
    {
        while self.undos.len() < self.edges.len() {
            self.index_next()?;
        }
        Ok(())
    }

    // Adds the constraint of the next edge to the index.
    fn index_next(&mut self) -> Result<(), OutOfMemory>
        requires { self.old.indexed < length self.old.edges }
        ensures one { OnOk result (self.new.indexed ≡ self.old.indexed + 1) }
        ensures edges { self.new.edges ≡ self.old.edges }
        ensures agents { self.new.agents ≡ self.old.agents }
    {
        self.undos.reserve(1)?;
        let constraint = self.edges[self.undos.len()].constraint();
        let undo = self.index.add(&constraint)?;
        self.undos.push_reserved(undo);
        Ok(())
    }

    /// Returns whether the agent has the constraint.
    pub fn has(&self, agent: u32, bar: Bar) -> bool
        requires { IsIndexed self.now }
        ensures { IsTrue result ↔ Contains ((place_of self.now).here.bars agent) bar }
    {
        self.index.has(&Constraint { agent, bar })
    }

    /// Returns whether a vertex constraint forbids the cell to the agent at this tick or later.
    pub fn has_from(&self, agent: u32, cell: Cell, tick: Tick) -> bool
        requires { IsIndexed self.now }
        ensures { IsTrue result ↔ IsBarredFrom ((place_of self.now).here.bars agent) cell tick }
    {
        self.index.has_from(agent, cell, tick)
    }

    /// Returns the entry of the agent's start at tick 0 in the nearest block above.
    pub fn start_entry(&self, agent: usize) -> Option<Label>
        requires { agent < self.now.agents }
        ensures { IsKept (place_of self.now).here.entries agent result }
    {
        self.starts.get(agent)
    }

    /// Moves from a split, whose blocks make these changes, to its left child.
    pub fn split(
        &mut self,
        conflict: &Conflict,
        changes: Vec<StartChange>,
    ) -> Result<(), OutOfMemory>
        requires agents { AreOfFirst self.old.agents changes.items }
        requires entries { KnowEntries (place_of self.old).here.entries changes.items }
        ensures split { OnOk result (IsSplit (place_of self.old) conflict.now changes.items (place_of self.new)) }
        ensures agents { self.new.agents ≡ self.old.agents }
    {
        self.descend(conflict, Child::Left, changes)
    }

    /// Moves from a terminal node to the next node in pre-order. Returns false if there is none.
    pub fn backtrack(&mut self) -> Result<bool, OutOfMemory>
        ensures next { IfOk result (NextOf (place_of self.old) (place_of self.new)) }
        ensures agents { self.new.agents ≡ self.old.agents }
    {
        while let Some(edge) = self.leave() {
            let Edge {
                conflict,
                child,
                changes,
            } = edge;
            if let Child::Left = child {
                self.descend(&conflict, Child::Right, changes)?;
                return Ok(true);
            }
        }
        Ok(false)
    }

    // Removes the last edge, if there is one, and undoes its changes.
    fn leave(&mut self) -> Option<Edge>
        ensures last { IfSome result (λ edge. self.old.edges ≡ self.new.edges ++ edge ∷ []) }
        ensures root { IfNone result (self.old.edges ≡ []) }
        ensures undone { IfSome result (CanUndoEdge self.new.agents (place_of self.new).here) }
        ensures agents { self.new.agents ≡ self.old.agents }
    {
        let edge = self.edges.pop()?;
        take_out(&mut self.index, &mut self.undos, self.edges.len(), &edge);
        self.starts.undo(&edge.changes);
        Some(edge)
    }

    fn descend(
        &mut self,
        conflict: &Conflict,
        child: Child,
        changes: Vec<StartChange>,
    ) -> Result<(), OutOfMemory>
        requires agents { AreOfFirst self.old.agents changes.items }
        requires entries { KnowEntries (place_of self.old).here.entries changes.items }
        ensures place { OnOk result (place_of self.new
            ≡ descended (place_of self.old) conflict.now child changes.items) }
        ensures agents { self.new.agents ≡ self.old.agents }
    {
        self.edges.reserve(1)?;
        self.starts.change(&changes);
        let edge = Edge {
            conflict: *conflict,
            child,
            changes,
        };
        self.edges.push_reserved(edge);
        Ok(())
    }
}

// Removes from the index the constraint of the edge that comes after so many others, if the index has it.
fn take_out(index: &mut BarIndex, undos: &mut Vec<Undo>, edges: usize, edge: &Edge)
    ensures { (before : List Edge) → length before ≡ edges
        → IndexesFirst (before ++ edge.now ∷ []) undos.old.items index.old
        → IndexesFirst before undos.new.items index.new }
{
    if undos.len() <= edges {
        return;
    }
    if let Some(undo) = undos.pop() {
        index.undo(&edge.constraint(), &undo);
    }
}
