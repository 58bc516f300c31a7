//! How a search begins, the simple search too: with the paths of the root, or with a tree of one node which shows that
//! no plan is valid.
ghost use Rattle.std.specs.Prelude.{◌≡◌, ◌*◌, ◌^◌, ◌≤◌, ◌-◌, ◌∷◌, [], length, sum_by};
ghost use Rattle.std.specs.Prelude.{IfOk, IfSome, IfNone};
ghost use Rattle.mapf_model.specs.Limits.{most_agents};
ghost use Rattle.mapf_cbs.specs.Goals.{SomeGoalIsUnreachable};
ghost use Rattle.mapf_cbs.specs.Start.{IsBeginning, AreShortest};

use crate::bound_labels::BoundLabels;
use crate::clash::pair_of_one_goal;
use crate::tree_node::TreeNode;
use mapf_distance::shortest_path;
use mapf_model::{OutOfMemory, Path, Problem};
use std::alloc::Global;

/// How a search begins.
#[derive(Debug, Drop)]
pub enum Beginning {
    /// No plan is valid, and this tree of one node shows it.
    Impossible { tree: Vec<TreeNode> },
    /// The paths of the root, as the search begins.
    Root { paths: Vec<Path> },
}

/// Returns what is known before any search under constraints: no plan is valid if two agents have the same goal, or if
/// a goal can't be reached; else the paths of the root.
pub fn begin(alloc: Global, problem: &Problem) -> Result<Beginning, OutOfMemory>
    ensures { IfOk result (IsBeginning problem.now) }
{
    // Calling `width` lets the prover use its contract, which says that the grid is well formed.
    let _width = problem.grid().width();
    if let Some((i, j)) = pair_of_one_goal(problem.agents()) {
        let clash = TreeNode::clash(alloc, i as u32, j as u32);
        let tree = one_node(alloc, clash)?;
        return Ok(Beginning::Impossible { tree });
    }
    match shortest_paths(alloc, problem)? {
        Some(paths) => Ok(Beginning::Root { paths }),
        None => {
            let tree = one_node(alloc, TreeNode::leaf(BoundLabels::none(alloc)))?;
            Ok(Beginning::Impossible { tree })
        }
    }
}

// A tree of one node.
fn one_node(alloc: Global, node: TreeNode) -> Result<Vec<TreeNode>, OutOfMemory>
    ensures { IfOk result (λ tree. tree.items ≡ node ∷ []) }
{
    let mut tree = Vec::new(alloc);
    tree.push(node)?;
    Ok(tree)
}

// Returns a shortest path of each agent, None if some goal can't be reached. The agents' tables of distances aren't
// made for this, since most agents are never replanned.
fn shortest_paths(alloc: Global, problem: &Problem) -> Result<Option<Vec<Path>>, OutOfMemory>
    ensures unreachable { IfOk result (λ found. IfNone found (SomeGoalIsUnreachable problem.now)) }
    ensures count { IfOk result (λ found. IfSome found (λ paths. length paths.items ≡ length problem.now.agents)) }
    ensures shortest { IfOk result (λ found. IfSome found (λ paths. AreShortest problem.now paths.items)) }
{
    let mut paths = Vec::new(alloc);
    for agent in problem.agents() {
        match shortest_path(alloc, problem.grid(), agent.start, agent.goal)? {
            Some(path) => paths.push(path)?,
            None => return Ok(None),
        }
    }
    Ok(Some(paths))
}

/// Returns the sum of the paths' lengths in ticks.
pub fn total_of(paths: &[Path]) -> u64
    requires { length paths.now ≤ most_agents }
    ensures sum { result ≡ sum_by (λ path. length path - 1) paths.now }
    ensures small { result ≤ most_agents * 2 ^ 32 }
{
    let mut total = 0u64;
    for path in paths {
        total += path.cells().len() as u64 - 1;
    }
    total
}
