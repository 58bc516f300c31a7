//! A node of a tree once the search has ended. An outcome lists these nodes, and the run of `solve` writes its
//! certificate from them.
ghost use Rattle.std.specs.Prelude.{◌≡◌, IfOk};
ghost use Rattle.mapf_model.specs.Tree.{SplitNode, LeafNode, ClashNode, node_of};
ghost use Rattle.mapf_model.specs.Nodes.{node_with};

use crate::bound_labels::BoundLabels;
use mapf_model::{AsNode, Conflict, Entry, Item, NodeKind, OutOfMemory};
use std::alloc::Global;
use std::marker::Model;

/// A node of the tree of a search that has ended. A tree is spelled by the list of its nodes in pre-order.
#[derive(Debug, Drop)]
pub struct TreeNode {
    kind: NodeKind,
    bound: BoundLabels,
}

impl Model for TreeNode {
    ghost use Rattle.mapf_model.specs.Tree.{Node};
    ghost use Rattle.mapf_model.specs.Nodes.{node_with};

    ghost Value = { Node };

    ghost view = { λ node. node_with node.kind node.bound };
}

impl TreeNode {
    /// Returns the split on the conflict, with the labels of the agent that was replanned at the node.
    pub fn split(conflict: Conflict, bound: BoundLabels) -> TreeNode
        ensures { result ≡ SplitNode conflict bound }
    {
        TreeNode {
            kind: NodeKind::Split(conflict),
            bound,
        }
    }

    /// Returns the leaf with these labels.
    pub fn leaf(bound: BoundLabels) -> TreeNode
        ensures { result ≡ LeafNode bound }
    {
        TreeNode {
            kind: NodeKind::Leaf,
            bound,
        }
    }

    /// Returns the clash of the two agents.
    pub fn clash(alloc: Global, i: u32, j: u32) -> TreeNode
        ensures { result ≡ ClashNode i j }
    {
        TreeNode {
            kind: NodeKind::Clash { i, j },
            bound: BoundLabels::none(alloc),
        }
    }

    /// Returns the node as an item, whose blocks are in memory of their own.
    pub fn into_item(self, alloc: Global) -> Result<Item, OutOfMemory>
        ensures { IfOk result (λ item. node_of item ≡ self) }
    {
        let TreeNode { kind, bound } = self;
        match kind {
            NodeKind::Split(conflict) => Ok(Item::split(conflict, bound.into_blocks(alloc)?)),
            NodeKind::Leaf => Ok(Item::Leaf(bound.into_blocks(alloc)?)),
            NodeKind::Clash { i, j } => Ok(Item::Clash { i, j }),
        }
    }
}

impl AsNode for TreeNode {
    ghost node = { λ node. node };

    fn kind(&self) -> NodeKind {
        self.kind
    }

    fn block_count(&self) -> usize {
        match self.kind {
            NodeKind::Clash { .. } => 0,
            _ => self.bound.count(),
        }
    }

    fn block(&self, place: usize) -> (u32, usize) {
        self.bound.block(place)
    }

    fn entry(&self, place: usize, index: usize) -> Entry {
        self.bound.entry(place, index)
    }
}
