//! How the labels leave the nodes when a search over trees ends. The ending makes the nodes of the tree from them.
ghost use Rattle.std.specs.Prelude.{◌^◌, ◌<◌, List, length, All, IfOk};
ghost use Rattle.mapf_cbs.specs.Search.{View, AreBlockLists};
ghost use Rattle.mapf_cbs.specs.Nodes.{AreViews, IsOwnOf};

use crate::bound_labels::BoundLabels;
use crate::node::Node;
use mapf_model::OutOfMemory;
use std::alloc::Global;

/// Moves the labels of each node out of the nodes.
pub fn labels_of_all(alloc: Global, nodes: Vec<Node>) -> Result<Vec<BoundLabels>, OutOfMemory>
    ensures { IfOk result (λ lists.
        (views : List View) → AreViews nodes.items views → AreBlockLists views lists.items) }
{
    let mut lists = Vec::new(alloc);
    for node in nodes {
        lists.push(bound_labels_of(alloc, node))?;
    }
    Ok(lists)
}

// Returns the labels of the node: none at the root.
fn bound_labels_of(alloc: Global, node: Node) -> BoundLabels
    ensures own { IsOwnOf node result }
    ensures small { All (λ block. length block.entries < 2 ^ 64) result }
{
    match node {
        Node::Root { .. } => BoundLabels::none(alloc),
        Node::Child {
            constraint,
            found,
            ..
        } => BoundLabels::of(constraint.agent, found),
    }
}
