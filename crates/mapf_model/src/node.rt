//! A node of a constraint tree, whoever holds its blocks: an item of a certificate, or a node of a search. The writer
//! of certificates reads both by this trait, and the judge of a tree asks an item for its kind.
ghost use Rattle.std.specs.Prelude.{◌≡◌, ◌<◌, Some, length, slice_get};
ghost use Rattle.mapf_model.specs.Blocks.{LabelBlock};
ghost use Rattle.mapf_model.specs.Nodes.{node_with};
ghost use Rattle.mapf_model.specs.Tree.{Node, blocks_of};

use crate::conflict::Conflict;
use crate::label::Entry;

/// What a node of a constraint tree is, without its blocks.
#[derive(Clone, Copy, Debug)]
pub enum NodeKind {
    /// The node is split on the conflict.
    Split(Conflict),
    /// A leaf.
    Leaf,
    /// A terminal node that names two agents with the same goal.
    Clash { i: u32, j: u32 },
}

/// A node of a constraint tree, whose blocks can be read entry by entry. A clash has no blocks.
pub trait AsNode {
    /// The node.
    ghost node: { Self → Node };

    /// Returns what the node is, without its blocks.
    fn kind(&self) -> NodeKind
        ensures { node_with result (blocks_of (node self.now)) ≡ node self.now };

    /// Returns the number of its blocks.
    fn block_count(&self) -> usize
        ensures { result ≡ length (blocks_of (node self.now)) };

    /// Returns the agent of the block at `place`, counted from 0, and the number of its entries.
    fn block(&self, place: usize) -> (u32, usize)
        requires { place < length (blocks_of (node self.now)) }
        ensures { (block : LabelBlock) → slice_get (blocks_of (node self.now)) place ≡ Some block →
            (block.agent ≡ result.0) × (length block.entries ≡ result.1) };

    /// Returns the entry at `index` of the block at `place`, both counted from 0.
    fn entry(&self, place: usize, index: usize) -> Entry
        requires { (block : LabelBlock) × (slice_get (blocks_of (node self.now)) place ≡ Some block)
            × (index < length block.entries) }
        ensures { (block : LabelBlock) → slice_get (blocks_of (node self.now)) place ≡ Some block →
            slice_get block.entries index ≡ Some result };
}
