//! A constraint tree while the search grows it: its agents, its nodes and the open list.
use crate::members::Members;
use crate::node::{Node, NodeSplit, SplitKind};
use crate::open_nodes::OpenNodes;
use mapf_layers::ConstraintSet;
use mapf_model::OutOfMemory;
use std::alloc::Global;

/// A constraint tree of some agents. Nodes are numbered in the order in which they were made; the root has number 0.
#[derive(Drop)]
pub struct SearchTree {
    alloc: Global,
    pub members: Members,
    /// By agent, what stands at the root. None if nothing does.
    pub given: Vec<ConstraintSet>,
    pub nodes: Vec<Node>,
    pub open: OpenNodes,
    /// No valid plan of the agents under the given constraints has a smaller sum, in ticks.
    pub bound: u64,
    /// Agents outside of the tree, with the numbers of their paths. The paths of the tree's agents avoid them where
    /// that costs nothing.
    pub outside: Vec<(u32, u32)>,
    pub account: Account,
}

/// How much work a tree's own children took, and the visits of its nodes: those that were worth it, and the others. The
/// first entry of two is that of visits of small groups.
#[derive(Clone, Copy, Debug, Default)]
pub struct Account {
    pub own: u64,
    pub gainful: [u64; 2],
    pub barren: [u64; 2],
}

impl Account {
    /// Returns whether visits of this kind that gained nothing took more than half of the tree's own work and four
    /// times the work of those that did.
    pub fn is_spent(&self, kind: usize) -> bool {
        let gainful = self.gainful.get(kind).copied().unwrap_or(0);
        let barren = self.barren.get(kind).copied().unwrap_or(0);
        barren > (self.own / 2).saturating_add(gainful.saturating_mul(4))
    }

    /// Notes the work of a visit.
    pub fn note(&mut self, is_wide: bool, gains: bool, work: u64) {
        let account = if gains {
            &mut self.gainful
        } else {
            &mut self.barren
        };
        if let Some(sum) = account.get_mut(usize::from(is_wide)) {
            *sum = sum.saturating_add(work);
        }
    }
}

impl SearchTree {
    /// Returns the tree of these agents without nodes.
    pub fn new(alloc: Global, members: Members, given: Vec<ConstraintSet>) -> SearchTree {
        SearchTree {
            alloc,
            members,
            given,
            nodes: Vec::new(alloc),
            open: OpenNodes::new(alloc),
            bound: 0,
            outside: Vec::new(alloc),
            account: Account::default(),
        }
    }

    /// Returns the node of a number.
    pub fn node(&self, number: u32) -> Option<&Node> {
        self.nodes.get(number as usize)
    }

    /// Returns the node of a number, to be changed.
    pub fn node_mut(&mut self, number: u32) -> Option<&mut Node> {
        self.nodes.get_mut(number as usize)
    }

    /// Returns the number of the next node.
    pub fn next_number(&self) -> Result<u32, OutOfMemory> {
        u32::try_from(self.nodes.len()).map_err(|_| OutOfMemory)
    }

    /// Opens a node.
    pub fn push(&mut self, number: u32) -> Result<(), OutOfMemory> {
        match self.nodes.get(number as usize) {
            Some(node) => self.open.add(node.bound, node.count.pairs, number),
            None => Ok(()),
        }
    }

    /// Splits a node, whose left child is the node of this number.
    pub fn split(&mut self, number: u32, kind: SplitKind, left: u32) {
        let alloc = self.alloc;
        if let Some(node) = self.node_mut(number) {
            node.split = Some(NodeSplit { kind, left });
            node.close(alloc);
        }
    }

    /// Adds to the set what stands at a node for one of its agents: what is given, and what the splits above it added.
    pub fn gather(
        &self,
        set: &mut ConstraintSet,
        number: u32,
        agent: u32,
    ) -> Result<(), OutOfMemory> {
        let place = self.members.place(agent).unwrap_or(usize::MAX);
        if let Some(given) = self.given.get(place) {
            set.add_all(given)?;
        }
        let mut at = number;
        for _ in 0..self.nodes.len() {
            let Some(node) = self.node(at) else {
                break;
            };
            let Some(added) = node.added else {
                break;
            };
            added.add_to(set, agent)?;
            at = node.parent;
        }
        Ok(())
    }
}
