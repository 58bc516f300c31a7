//! The tree of a search that has ended, in pre-order as a certificate lists it. Each ending makes its list of nodes
//! here.
ghost use Rattle.std.specs.Prelude.{◌≡◌, ◌<◌, ℕ, List, length, IfOk};
ghost use Rattle.mapf_model.specs.Tree.{ConstraintTree, nodes_of};
ghost use Rattle.mapf_cbs.specs.Search.{View, AreBlockLists, AreChildrenLater, IsOneTree, IsTreeAt};

use crate::bound_labels::BoundLabels;
use crate::node::Status;
use crate::tree_node::TreeNode;
use mapf_model::OutOfMemory;
use std::alloc::Global;
use std::mem;

/// Returns the nodes of a search's tree in pre-order, by the labels of each node, which are moved into them.
pub fn tree_nodes(
    alloc: Global,
    lists: Vec<BoundLabels>,
    statuses: &[Status],
) -> Result<Vec<TreeNode>, OutOfMemory>
    requires same { length statuses.now ≡ length lists.items }
    requires some { 0 < length statuses.now }
    requires later { AreChildrenLater statuses.now }
    requires one { (count : ℕ) × IsOneTree statuses.now count }
    ensures { IfOk result (λ nodes.
        (views : List View) → AreBlockLists views lists.items →
        (tree : ConstraintTree) × (nodes.items ≡ nodes_of tree) × IsTreeAt views statuses.now 0 tree) }
{
    let mut lists = lists;
    let mut nodes = Vec::new(alloc);
    let mut pending: Vec<u32> = Vec::new(alloc);
    pending.push(0)?;
    while let Some(k) = pending.pop() {
        let bound = mem::replace(&mut lists[k as usize], BoundLabels::none(alloc));
        let status = statuses[k as usize];
        match status {
            Status::Expanded { conflict, left } => {
                nodes.push(TreeNode::split(conflict, bound))?;
                pending.push(left + 1)?;
                pending.push(left)?;
            }
            _ => nodes.push(TreeNode::leaf(bound))?,
        }
    }
    Ok(nodes)
}
