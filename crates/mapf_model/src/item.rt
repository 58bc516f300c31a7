//! The nodes of a constraint tree as a certificate lists them, and the claim. The reader of certificates makes them,
//! and the checker judges them.
ghost use Rattle.std.specs.Prelude.{◌≡◌};
ghost use Rattle.mapf_model.specs.Tree.{SplitNode, node_of, blocks_of};

use crate::cell::{Cell, Tick};
use crate::conflict::Conflict;
use crate::label::{Block, Entry};
use crate::node::{AsNode, NodeKind};

/// A node of a constraint tree (Sharon et al. 2015). A tree is spelled by the list of its items in pre-order: a split
/// is followed by the items of its left child, then by those of its right child.
///
/// Splits and leaves have blocks of labels; in a proper tree a node has at most one for each agent. A block gives its
/// agent's labels at its node and in the whole subtree below, until a block of the same agent replaces it.
#[derive(Debug, Drop)]
pub enum Item {
    /// A split on a vertex conflict. The left child forbids agent `i` the cell at the tick, the right child agent `j`.
    Vertex {
        i: u32,
        j: u32,
        cell: Cell,
        tick: Tick,
        blocks: Vec<Block>,
    },
    /// A split on a swapping conflict. The left child forbids agent `i` the move from `from` to `to` at the tick, the
    /// right child forbids agent `j` the move from `to` to `from`.
    Swap {
        i: u32,
        j: u32,
        from: Cell,
        to: Cell,
        tick: Tick,
        blocks: Vec<Block>,
    },
    /// A leaf, with blocks of labels.
    Leaf(Vec<Block>),
    /// A terminal node that names two agents with the same goal.
    Clash {
        i: u32,
        j: u32,
    },
}

impl Item {
    /// Returns the split on the conflict, with these blocks.
    pub fn split(conflict: Conflict, blocks: Vec<Block>) -> Item
        ensures { node_of result ≡ SplitNode conflict blocks.items }
    {
        match conflict {
            Conflict::Vertex { i, j, cell, tick } => Item::Vertex {
                i,
                j,
                cell,
                tick,
                blocks,
            },
            Conflict::Swap {
                i,
                j,
                from,
                to,
                tick,
            } => Item::Swap {
                i,
                j,
                from,
                to,
                tick,
                blocks,
            },
        }
    }

    /// Returns the blocks of the node. A clash has none.
    pub fn blocks(&self) -> &[Block]
        ensures { result.now ≡ blocks_of (node_of self.now) }
    {
        match self {
            Item::Vertex { blocks, .. } => blocks,
            Item::Swap { blocks, .. } => blocks,
            Item::Leaf(blocks) => blocks,
            Item::Clash { .. } => &[],
        }
    }
}

impl AsNode for Item {
    ghost node = { λ item. node_of item };

    fn kind(&self) -> NodeKind {
        match *self {
            Item::Vertex {
                i,
                j,
                cell,
                tick,
                ..
            } => NodeKind::Split(Conflict::Vertex { i, j, cell, tick }),
            Item::Swap {
                i,
                j,
                from,
                to,
                tick,
                ..
            } => NodeKind::Split(Conflict::Swap {
                i,
                j,
                from,
                to,
                tick,
            }),
            Item::Leaf(_) => NodeKind::Leaf,
            Item::Clash { i, j } => NodeKind::Clash { i, j },
        }
    }

    fn block_count(&self) -> usize {
        self.blocks().len()
    }

    fn block(&self, place: usize) -> (u32, usize) {
        let block = &self.blocks()[place];
        (block.agent, block.entries.len())
    }

    fn entry(&self, place: usize, index: usize) -> Entry {
        let block = &self.blocks()[place];
        block.entries[index]
    }
}

/// What a certificate claims.
#[derive(Clone, Copy, Debug, PartialEq, Eq)]
pub enum Claim {
    /// No valid plan has a smaller sum of costs than this, in ticks. It comes with a plan of this sum.
    Cost(u64),
    /// No valid plan has a smaller sum of costs than this, in ticks. It comes with a limit.
    Bound(u64),
    /// No plan is valid.
    Impossible,
}
