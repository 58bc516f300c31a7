//! Which paths of a node aren't those of the root, for the search for the node's first conflict.
ghost use Rattle.std.specs.Prelude.{◌≡◌, ◌<◌, ◌≤◌, length, All, IfOk};
ghost use Rattle.mapf_model.specs.Limits.{most_path_cells};
ghost use Rattle.mapf_conflicts.specs.Replacements.{with_replacements};
ghost use Rattle.mapf_cbs.specs.PathOwners.{AreOwners};
ghost use Rattle.mapf_cbs.specs.Nodes.{HavePathsAt, HoldsOfAgentsAt, HoldsOfNode};

use crate::ancestors::path_at;
use crate::node::Node;
use crate::path_owners::PathOwners;
use mapf_conflicts::{BasePaths, PathsByTick, Replacement};
use mapf_model::OutOfMemory;
use std::alloc::Global;

// For how many replacements memory is requested at once. At few nodes more agents were replanned.
const AT_ONCE: usize = 16;

/// Returns a replacement of the root's path for each agent that was replanned below the root: its path at the owners'
/// node. Each agent must have a path there.
pub fn replacements_at<'a>(
    alloc: Global,
    nodes: &'a [Node],
    root: &BasePaths,
    owners: &PathOwners,
) -> Result<Vec<Replacement<'a>>, OutOfMemory>
    requires paths { HavePathsAt nodes.now owners.now.node (length owners.now.nearest.items) }
    requires owners { AreOwners nodes.now owners.now }
    requires root { HoldsOfNode nodes.now 0 (λ view. view.paths ≡ root.now) }
    requires count { length root.now ≡ length owners.now.nearest.items }
    ensures known { IfOk result (λ replacements. All (λ one. one.agent < length root.now) replacements.items) }
    ensures paths { IfOk result (λ replacements.
        HoldsOfAgentsAt nodes.now owners.now.node (length owners.now.nearest.items) (λ view.
        with_replacements root.now replacements.items ≡ view.paths)) }
    ensures short { IfOk result (λ replacements.
        All (λ path. length path ≤ most_path_cells) (with_replacements root.now replacements.items)) }
{
    // Calling `length_bound` and `cells` lets the prover use their contracts, which bound the lengths of the paths.
    let _bound = root.length_bound();
    let mut replacements = Vec::with_capacity(alloc, AT_ONCE)?;
    for agent in 0..owners.nearest.len() as u32 {
        if let Some(owner) = owners.nearest[agent as usize] {
            let path = path_at(nodes, owner, agent);
            let _cells = path.cells();
            replacements.push(Replacement { agent, path })?;
        }
    }
    Ok(replacements)
}
