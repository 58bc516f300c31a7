//! The constraints of a configuration: where some of its agents go next.
use mapf_model::{Cell, OutOfMemory};
use std::alloc::Global;

/// A node of a tree of constraints. It says where the agent of its depth goes, and its parents say the same of the
/// agents before. The root, at depth 0, says nothing.
#[derive(Clone, Copy, Debug, PartialEq, Eq)]
pub struct Constraint {
    /// The place of its parent in the tree, of the root its own.
    pub parent: usize,
    /// Of how many agents it and its parents speak: the first ones by priority.
    pub depth: usize,
    /// Where the last of these agents goes.
    pub cell: Cell,
}

/// A tree of constraints, which are taken one after the other, in breadth.
#[derive(Debug, Drop)]
pub struct ConstraintTree {
    nodes: Vec<Constraint>,
    // How many of them were taken.
    taken: usize,
}

impl ConstraintTree {
    /// Returns the tree of the root alone.
    pub fn of(alloc: Global) -> Result<ConstraintTree, OutOfMemory> {
        let mut nodes = Vec::new(alloc);
        nodes.push(Constraint {
            parent: 0,
            depth: 0,
            cell: Cell(0),
        })?;
        Ok(ConstraintTree { nodes, taken: 0 })
    }

    /// Takes the next constraint, and returns its place. None if all were taken.
    pub fn take(&mut self) -> Option<usize> {
        let place = self.taken;
        if place >= self.nodes.len() {
            return None;
        }
        self.taken = place.saturating_add(1);
        Some(place)
    }

    /// Returns the constraint at a place.
    pub fn get(&self, place: usize) -> Option<&Constraint> {
        self.nodes.get(place)
    }

    /// Adds below a constraint that the agent of the next depth goes to one of these cells.
    pub fn grow(&mut self, parent: usize, cells: &[Cell]) -> Result<(), OutOfMemory> {
        let depth = match self.nodes.get(parent) {
            Some(constraint) => constraint.depth.saturating_add(1),
            None => return Ok(()),
        };
        for &cell in cells {
            self.nodes.push(Constraint {
                parent,
                depth,
                cell,
            })?;
        }
        Ok(())
    }
}
