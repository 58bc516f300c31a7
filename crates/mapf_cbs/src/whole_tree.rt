//! The constraint tree of the simple search, whose least open node is found by a scan.
ghost use Rattle.std.specs.Prelude.{List, ◌≡◌, ◌+◌, ◌^◌, ◌<◌, ◌∷◌, [], ◌++◌, length, IfOk, OnOk, IsTrue, ◌↔◌};
ghost use Rattle.mapf_cbs.specs.State.{split_statuses};
ghost use Rattle.mapf_cbs.specs.Search.{View, AreBlockLists};
ghost use Rattle.mapf_cbs.specs.Whole.{AreWhole, IsLeastBelow};

use crate::bound_labels::BoundLabels;
use crate::node::Status;
use crate::search_tree::{expand, root_statuses};
use crate::whole_node::WholeNode;
use mapf_model::{Conflict, OutOfMemory};
use std::alloc::Global;

/// A full child, with its sum if the replanned agent still arrives.
#[derive(Debug, Drop)]
pub struct WholeChild {
    pub node: WholeNode,
    pub total: Option<u64>,
}

/// The constraint tree of a search with full nodes, numbered in the order in which they were made.
#[derive(Debug, Drop)]
pub struct WholeTree {
    pub nodes: Vec<WholeNode>,
    // The status of each node.
    pub statuses: Vec<Status>,
    // How many nodes were split.
    pub splits: u32,
}

impl WholeTree {
    /// Returns the tree of this root alone.
    pub fn of(alloc: Global, root: WholeNode) -> Result<WholeTree, OutOfMemory>
        ensures nodes { IfOk result (λ tree. tree.nodes.items ≡ root ∷ []) }
        ensures statuses { IfOk result (λ tree. tree.statuses.items ≡ Status.Open ∷ []) }
        ensures splits { IfOk result (λ tree. tree.splits ≡ 0) }
    {
        let mut nodes = Vec::new(alloc);
        nodes.push(root)?;
        Ok(WholeTree {
            nodes,
            statuses: root_statuses(alloc)?,
            splits: 0,
        })
    }

    /// Splits a node on the conflict: its children are added, the left one first.
    pub fn grow(
        &mut self,
        k: u32,
        conflict: &Conflict,
        left: WholeChild,
        right: WholeChild,
    ) -> Result<(), OutOfMemory>
        requires same { length self.old.statuses.items ≡ length self.old.nodes.items }
        requires few { length self.old.nodes.items < 2 ^ 31 }
        requires inside { k < length self.old.statuses.items }
        requires splits { self.old.splits < 2 ^ 31 }
        ensures nodes { OnOk result
            (self.new.nodes.items ≡ (self.old.nodes.items ++ left.node ∷ []) ++ right.node ∷ []) }
        ensures statuses { OnOk result
            (self.new.statuses.items ≡ split_statuses self.old.statuses.items k conflict.now left.total right.total) }
        ensures splits { OnOk result (self.new.splits ≡ self.old.splits + 1) }
    {
        expand(&mut self.statuses, k, conflict, left.total, right.total)?;
        self.nodes.push(left.node)?;
        self.nodes.push(right.node)?;
        self.splits += 1;
        Ok(())
    }
}

/// Moves the labels of each node out of the nodes.
pub fn labels_of_whole(
    alloc: Global,
    nodes: Vec<WholeNode>,
) -> Result<Vec<BoundLabels>, OutOfMemory>
    ensures { IfOk result (λ lists.
        (views : List View) → AreWhole nodes.items views → AreBlockLists views lists.items) }
{
    let mut lists = Vec::new(alloc);
    for node in nodes {
        lists.push(node.bound)?;
    }
    Ok(lists)
}

/// Returns the open node of least sum, of these the oldest. None if no node is open.
pub fn least_open(nodes: &[WholeNode], statuses: &[Status]) -> Option<u32>
    requires same { length statuses.now ≡ length nodes.now }
    requires few { length nodes.now < 2 ^ 32 }
    ensures { IsLeastBelow nodes.now statuses.now (length statuses.now) result }
{
    let mut least = None;
    for k in 0..nodes.len() as u32 {
        least = least_with(nodes, statuses, least, k);
    }
    least
}

// Returns the least open node among this one and those before it.
fn least_with(nodes: &[WholeNode], statuses: &[Status], least: Option<u32>, k: u32) -> Option<u32>
    requires same { length statuses.now ≡ length nodes.now }
    requires inside { k < length nodes.now }
    requires least { IsLeastBelow nodes.now statuses.now k least }
    ensures { IsLeastBelow nodes.now statuses.now (k + 1) result }
{
    if !is_open(&statuses[k as usize]) {
        return least;
    }
    if let Some(m) = least {
        if nodes[m as usize].total <= nodes[k as usize].total {
            return least;
        }
    }
    Some(k)
}

fn is_open(status: &Status) -> bool
    ensures { IsTrue result ↔ (status.now ≡ Status.Open) }
{
    matches!(status, Status::Open)
}
