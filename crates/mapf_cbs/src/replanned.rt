//! What the split of its parent says about the conflicts of a node, for the search for the node's first conflict.
ghost use Rattle.std.specs.Prelude.{◌≡◌, ◌<◌, List, Some, length, slice_get};
ghost use Rattle.mapf_model.specs.Conflicts.{AreConflictFreeBefore};
ghost use Rattle.mapf_conflicts.specs.Pairs.{AreOthersFreeBefore};
ghost use Rattle.mapf_cbs.specs.Nodes.{AreViews};
ghost use Rattle.mapf_cbs.specs.Replanned.{AreSplitsFirst};
ghost use Rattle.mapf_cbs.specs.Search.{View};

use crate::node::{Node, Status};
use mapf_model::Tick;

/// The agent that was replanned at a node, and a tick before which no two others conflict there.
#[derive(Clone, Copy, Debug)]
pub struct Replanned {
    pub agent: u32,
    pub free: Tick,
}

/// Returns the agent that was replanned at the node, with the tick of the conflict on which the parent was split. At
/// the root any agent serves, with tick 0. The tick is 0 also if the statuses don't say that the parent was split.
pub fn replanned_at(nodes: &[Node], statuses: &[Status], k: u32) -> Replanned
    requires { k < length nodes.now }
    ensures { (views : List View) (view : View) → AreViews nodes.now views → AreSplitsFirst views statuses.now →
        slice_get views k ≡ Some view → AreOthersFreeBefore view.paths result.agent result.free }
{
    match &nodes[k as usize] {
        Node::Root { .. } => Replanned { agent: 0, free: 0 },
        Node::Child {
            parent,
            constraint,
            ..
        } => Replanned {
            agent: constraint.agent,
            free: split_tick(statuses, *parent),
        },
    }
}

// Returns the tick of the conflict on which the node was split, 0 if it wasn't split.
fn split_tick(statuses: &[Status], k: u32) -> Tick
    ensures { (views : List View) (view : View) → AreSplitsFirst views statuses.now → slice_get views k ≡ Some view →
        AreConflictFreeBefore view.paths result }
{
    match statuses.get(k as usize) {
        Some(Status::Expanded { conflict, .. }) => conflict.tick(),
        _ => 0,
    }
}
