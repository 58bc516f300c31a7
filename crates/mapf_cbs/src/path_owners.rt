//! Where the path of each agent at a node is found. The search over trees notes this for each node that it takes from
//! the open list.
ghost use Rattle.std.specs.Prelude.{◌≡◌, ◌<◌, List, length, IfOk};
ghost use Rattle.mapf_cbs.specs.Nodes.{AreNodesForAll};
ghost use Rattle.mapf_cbs.specs.PathOwners.{AreOwners, AreNone, IsOwner, IsNoted};

use crate::node::Node;
use mapf_model::OutOfMemory;
use std::alloc::Global;

/// For each agent its path owner at a node: the nearest one of the node and its ancestors at which the agent was
/// replanned, or the root if only the root found its path. There the agent has the path and the constraints that it has
/// at the node.
#[derive(Debug, Drop)]
pub struct PathOwners {
    pub node: u32,
    /// For each agent its path owner. None means the root.
    pub nearest: Vec<Option<u32>>,
}

impl PathOwners {
    /// Returns the number of the agent's path owner.
    pub fn of(&self, agent: u32) -> u32
        requires known { agent < length self.now.nearest.items }
        ensures { (nodes : List Node) → AreOwners nodes self.now → IsOwner nodes self.now.node agent result }
    {
        self.nearest[agent as usize].unwrap_or(0)
    }
}

/// Returns the path owners at the node `k` of the agents below this number.
pub fn owners_at(
    alloc: Global,
    nodes: &[Node],
    k: u32,
    agents: u32,
) -> Result<PathOwners, OutOfMemory>
    requires nodes { AreNodesForAll agents nodes.now }
    requires some { 0 < agents }
    requires inside { k < length nodes.now }
    ensures node { IfOk result (λ owners. owners.node ≡ k) }
    ensures count { IfOk result (λ owners. length owners.nearest.items ≡ agents) }
    ensures found { IfOk result (AreOwners nodes.now) }
{
    let mut nearest = none_of(alloc, agents)?;
    let mut at = k;
    while let Node::Child {
        parent,
        constraint,
        ..
    } = &nodes[at as usize]
    {
        note(&mut nearest, constraint.agent, at);
        at = *parent;
    }
    Ok(PathOwners { node: k, nearest })
}

// Returns a list with None for each agent.
fn none_of(alloc: Global, agents: u32) -> Result<Vec<Option<u32>>, OutOfMemory>
    ensures count { IfOk result (λ nearest. length nearest.items ≡ agents) }
    ensures none { IfOk result (λ nearest. AreNone nearest.items) }
{
    Ok(vec![in alloc; None; agents as usize]?)
}

// Enters the node for the agent, unless a node is entered for it already, which is nearer.
fn note(nearest: &mut Vec<Option<u32>>, agent: u32, node: u32)
    ensures count { length nearest.new.items ≡ length nearest.old.items }
    ensures noted { IsNoted nearest.old.items nearest.new.items agent node }
{
    if matches!(nearest.get(agent as usize), Some(None)) {
        nearest[agent as usize] = Some(node);
    }
}
