//! What is read off a node and its ancestors: paths, constraints, the first conflict and the plan. The search over
//! trees and the making of children call it.
ghost use Rattle.std.specs.Prelude.{◌≡◌, ◌<◌, ◌≤◌, Some, length, slice_get, All, IfOk, IfSome, IfNone, OnOk};
ghost use Rattle.mapf_model.specs.Conflicts.{HaveSomeConflict};
ghost use Rattle.mapf_model.specs.Limits.{most_agents, most_path_cells};
ghost use Rattle.mapf_model.specs.Laws.{AreSameBars};
ghost use Rattle.mapf_conflicts.specs.Pairs.{AreOthersFreeBefore, paths_behind};
ghost use Rattle.mapf_cbs.specs.PathOwners.{AreOwners};
ghost use Rattle.mapf_cbs.specs.FirstConflicts.{IsFirstConflict};
ghost use Rattle.mapf_cbs.specs.Nodes.{AreNodesFor, AreNodesForAll, AreViewedAt, HavePathsAt, HaveTableBars};
ghost use Rattle.mapf_cbs.specs.Nodes.{HoldsOfAgentsAt, HoldsOfNode};

use crate::node::Node;
use crate::path_owners::PathOwners;
use crate::replacements::replacements_at;
use crate::replanned::Replanned;
use mapf_conflicts::{BasePaths, CellMarks, PatchedPaths, first_conflict_after_replanning};
use mapf_constraints::BarTable;
use mapf_model::{Conflict, OutOfMemory, Path, Plan};
use mapf_spacetime::Found;
use std::alloc::Global;

/// Returns the agent's path at a node: that of the nearest one of the node and its ancestors that holds a path of this
/// agent.
pub fn path_at(nodes: &[Node], k: u32, agent: u32) -> &Path
    requires nodes { AreNodesFor agent nodes.now }
    requires inside { k < length nodes.now }
    ensures { HoldsOfNode nodes.now k (λ view. slice_get view.paths agent ≡ Some result.now) }
{
    let mut at = k;
    loop {
        match &nodes[at as usize] {
            Node::Root { paths } => return &paths.paths()[agent as usize],
            Node::Child {
                parent,
                constraint,
                found,
            } => {
                if constraint.agent == agent {
                    match found {
                        Found::Arrives { path, .. } => return path,
                        Found::Dead { .. } => {}
                    }
                }
                at = *parent;
            }
        }
    }
}

/// Makes the table hold the agent's constraints at a node: those of the nodes on the way from the root to it.
pub fn gather_bars<B: BarTable>(
    table: &mut B,
    nodes: &[Node],
    k: u32,
    agent: u32,
) -> Result<(), OutOfMemory>
    requires nodes { AreNodesFor agent nodes.now }
    requires bars { HaveTableBars nodes.now }
    requires inside { k < length nodes.now }
    ensures { OnOk result
        (HoldsOfNode nodes.now k (λ view. AreSameBars (view.context.bars agent) (B.bars table.new))) }
{
    table.clear();
    let mut at = k;
    while let Node::Child {
        parent,
        constraint,
        ..
    } = &nodes[at as usize]
    {
        if constraint.agent == agent {
            table.add(constraint.bar)?;
        }
        at = *parent;
    }
    Ok(())
}

/// Returns the first conflict of the paths of the owners' node, None if there is none. Each agent must have a path
/// there, and before the tick `free` no two agents other than the replanned one may conflict.
pub fn conflict_at(
    alloc: Global,
    marks: &mut CellMarks,
    nodes: &[Node],
    owners: &PathOwners,
    replanned: Replanned,
) -> Result<Option<Conflict>, OutOfMemory>
    requires paths { HavePathsAt nodes.now owners.now.node (length owners.now.nearest.items) }
    requires owners { AreOwners nodes.now owners.now }
    requires others { AreViewedAt nodes.now owners.now.node (length owners.now.nearest.items) (λ view.
        AreOthersFreeBefore view.paths replanned.agent replanned.free) }
    ensures some { IfOk result (λ found. IfSome found (λ conflict.
        HoldsOfAgentsAt nodes.now owners.now.node (length owners.now.nearest.items) (λ view.
        IsFirstConflict view.paths conflict))) }
    ensures none { IfOk result (λ found. IfNone found
        (HoldsOfAgentsAt nodes.now owners.now.node (length owners.now.nearest.items) (λ view.
        HaveSomeConflict view.paths → ⊥))) }
    ensures short { OnOk result
        (HoldsOfAgentsAt nodes.now owners.now.node (length owners.now.nearest.items) (λ view.
        All (λ path. length path ≤ most_path_cells) view.paths)) }
{
    let root = root_paths(nodes, owners.nearest.len() as u32);
    let replacements = replacements_at(alloc, nodes, root, owners)?;
    let paths = PatchedPaths::of(root, &replacements);
    let Replanned { agent, free } = replanned;
    Ok(first_conflict_after_replanning(marks, &paths, agent, free))
}

/// Returns the paths of the owners' node as a plan. Each agent must have a path there.
pub fn plan_at(alloc: Global, nodes: &[Node], owners: &PathOwners) -> Result<Plan, OutOfMemory>
    requires paths { HavePathsAt nodes.now owners.now.node (length owners.now.nearest.items) }
    requires owners { AreOwners nodes.now owners.now }
    ensures paths { IfOk result (λ plan.
        HoldsOfAgentsAt nodes.now owners.now.node (length owners.now.nearest.items) (λ view. plan ≡ view.paths)) }
    ensures short { IfOk result (λ plan. All (λ path. length path ≤ most_path_cells) plan) }
{
    let paths = paths_at(alloc, nodes, owners)?;
    plan_of(alloc, &paths)
}

// Returns each agent's path at the owners' node, taken from the agent's path owner.
fn paths_at<'a>(
    alloc: Global,
    nodes: &'a [Node],
    owners: &PathOwners,
) -> Result<Vec<&'a Path>, OutOfMemory>
    requires paths { HavePathsAt nodes.now owners.now.node (length owners.now.nearest.items) }
    requires owners { AreOwners nodes.now owners.now }
    ensures count { IfOk result (λ paths. length paths.items ≡ length owners.now.nearest.items) }
    ensures paths { IfOk result (λ paths.
        HoldsOfAgentsAt nodes.now owners.now.node (length owners.now.nearest.items) (λ view.
        paths_behind paths.items ≡ view.paths)) }
    ensures short { IfOk result (λ paths. All (λ path. length path ≤ most_path_cells) (paths_behind paths.items)) }
{
    let mut paths = Vec::with_capacity(alloc, owners.nearest.len())?;
    for agent in 0..owners.nearest.len() as u32 {
        let path = path_at(nodes, owners.of(agent), agent);
        // Calling `cells` lets the prover use its contract, which bounds their number.
        let _cells = path.cells();
        paths.push(path)?;
    }
    Ok(paths)
}

// Returns the paths of the root.
fn root_paths(nodes: &[Node], agents: u32) -> &BasePaths
    requires nodes { AreNodesForAll agents nodes.now }
    requires some { 1 ≤ agents }
    requires inside { 0 < length nodes.now }
    ensures count { agents ≤ length result.now }
    ensures paths { HoldsOfNode nodes.now 0 (λ view. view.paths ≡ result.now) }
{
    match &nodes[0] {
        Node::Root { paths } => paths,
        Node::Child { .. } => unreachable!(),
    }
}

// Returns a plan of copies of the paths.
fn plan_of(alloc: Global, paths: &[&Path]) -> Result<Plan, OutOfMemory>
    requires few { (1 ≤ length paths.now) × (length paths.now ≤ most_agents) }
    ensures same { IfOk result (λ plan. plan ≡ paths_behind paths.now) }
    ensures short { IfOk result (λ plan. All (λ path. length path ≤ most_path_cells) plan) }
{
    let mut copies = Vec::new(alloc);
    for path in paths {
        copies.push(copied(alloc, path)?)?;
    }
    match Plan::of(copies) {
        Some(plan) => Ok(plan),
        None => unreachable!(),
    }
}

/// Returns a copy of the path.
pub fn copied(alloc: Global, path: &Path) -> Result<Path, OutOfMemory>
    ensures same { IfOk result (λ copy. copy ≡ path.now) }
    ensures short { IfOk result (λ copy. length copy ≤ most_path_cells) }
{
    let cells = Vec::from_slice(alloc, path.cells())?;
    Ok(Path::of(cells).unwrap())
}
