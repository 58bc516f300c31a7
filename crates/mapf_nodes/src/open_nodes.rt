//! The open list: which node is expanded next.
use mapf_model::OutOfMemory;
use std::alloc::Global;
use std::cmp::Reverse;
use std::collections::BinaryHeap;

/// An open node: of least bound first, of these with the fewest pairs in conflict, of these the newest.
#[derive(Clone, Copy, Debug, PartialEq, Eq, PartialOrd, Ord)]
pub struct OpenNode {
    pub bound: u64,
    pub pairs: u32,
    pub number: Reverse<u32>,
}

/// The nodes that may be expanded.
#[derive(Drop)]
pub struct OpenNodes {
    heap: BinaryHeap<Reverse<OpenNode>>,
}

impl OpenNodes {
    /// Returns the list without nodes.
    pub fn new(alloc: Global) -> OpenNodes {
        OpenNodes {
            heap: BinaryHeap::new(alloc),
        }
    }

    /// Adds a node.
    pub fn add(&mut self, bound: u64, pairs: u32, number: u32) -> Result<(), OutOfMemory> {
        self.heap.push(Reverse(OpenNode {
            bound,
            pairs,
            number: Reverse(number),
        }))?;
        Ok(())
    }

    /// Returns how many nodes are open, for whoever watches the search.
    pub fn count(&self) -> usize {
        self.heap.len()
    }

    /// Removes and returns the first node, its bound and its number. None if none is open.
    pub fn take(&mut self) -> Option<(u64, u32)> {
        let Reverse(first) = self.heap.pop()?;
        Some((first.bound, first.number.0))
    }
}
