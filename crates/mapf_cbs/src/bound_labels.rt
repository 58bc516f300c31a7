//! The labels that a node of a tree has: those of the one agent that was replanned there. A certificate has them as the
//! node's block.
ghost use Rattle.std.specs.Prelude.{◌≡◌, ◌<◌, ◌^◌, [], Some, All, length, slice_get, IfOk};
ghost use Rattle.mapf_model.specs.Blocks.{LabelBlock};
ghost use Rattle.mapf_cbs.specs.Search.{bound_blocks, labels_of};

use mapf_model::{Block, Entry, OutOfMemory};
use mapf_spacetime::{Found, StateLabels};
use std::alloc::Global;
use std::marker::Model;

/// The labels of the agent that was replanned at a node: one block, or none if no label is greater than its distance.
#[derive(Debug, Drop)]
pub struct BoundLabels {
    agent: u32,
    labels: StateLabels,
}

impl Model for BoundLabels {
    ghost use Rattle.std.specs.Prelude.{List};
    ghost use Rattle.mapf_model.specs.Blocks.{LabelBlock};
    ghost use Rattle.mapf_cbs.specs.Search.{bound_blocks};

    ghost Value = { List LabelBlock };

    ghost view = { λ bound. bound_blocks bound.agent bound.labels };
}

impl BoundLabels {
    /// Returns the labels of a node without a block.
    pub fn none(alloc: Global) -> BoundLabels
        ensures { result ≡ [] }
    {
        BoundLabels {
            agent: 0,
            labels: StateLabels::none(alloc),
        }
    }

    /// Returns the labels that the search for this agent, which was replanned at the node, found.
    pub fn of(agent: u32, found: Found<StateLabels>) -> BoundLabels
        ensures bound { result ≡ bound_blocks agent (labels_of found) }
        ensures small { All (λ block. length block.entries < 2 ^ 64) result }
    {
        BoundLabels {
            agent,
            labels: labels_of(found),
        }
    }

    /// Returns the number of blocks.
    pub fn count(&self) -> usize
        ensures { result ≡ length self.now }
    {
        usize::from(!self.labels.is_empty())
    }

    /// Returns the agent of a block and the number of its entries.
    pub fn block(&self, place: usize) -> (u32, usize)
        requires { place < length self.now }
        ensures { (block : LabelBlock) → slice_get self.now place ≡ Some block →
            (block.agent ≡ result.0) × (length block.entries ≡ result.1) }
    {
        (self.agent, self.labels.len())
    }

    /// Returns an entry of a block.
    pub fn entry(&self, place: usize, index: usize) -> Entry
        requires { (block : LabelBlock) × (slice_get self.now place ≡ Some block) × (index < length block.entries) }
        ensures { (block : LabelBlock) → slice_get self.now place ≡ Some block →
            slice_get block.entries index ≡ Some result }
    {
        self.labels.entry(index)
    }

    /// Returns the blocks, in memory of their own.
    pub fn into_blocks(self, alloc: Global) -> Result<Vec<Block>, OutOfMemory>
        ensures { IfOk result (λ blocks. blocks.items ≡ self) }
    {
        let BoundLabels { agent, labels } = self;
        let entries = labels.into_entries(alloc)?;
        let mut blocks = Vec::new(alloc);
        if !entries.is_empty() {
            blocks.push(Block { agent, entries })?;
        }
        Ok(blocks)
    }
}

// Returns the labels that were found.
fn labels_of(found: Found<StateLabels>) -> StateLabels
    ensures labels { result ≡ labels_of found }
    ensures small { length result < 2 ^ 64 }
{
    match found {
        Found::Arrives { path: _, labels } => labels,
        Found::Dead { labels } => labels,
    }
}
