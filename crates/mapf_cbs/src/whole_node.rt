//! A node of the simple search, which holds the paths and the constraints of all agents.
ghost use Rattle.std.specs.Prelude.{◌≡◌, ◌*◌, ◌-◌, ◌^◌, ◌<◌, ◌≤◌, length, slice_set, sum, sum_by, All, IfOk};
ghost use Rattle.mapf_model.specs.Limits.{most_agents, most_path_cells};
ghost use Rattle.mapf_cbs.specs.Nodes.{IsRootView};
ghost use Rattle.mapf_cbs.specs.Search.{View};
ghost use Rattle.mapf_cbs.specs.Whole.{IsWhole, IsCopy, AreCopies, IsAfter};

use crate::ancestors::copied;
use crate::bound_labels::BoundLabels;
use crate::start::total_of;
use mapf_constraints::{BarTable, ListBars};
use mapf_model::{OutOfMemory, Path, Plan};
use mapf_spacetime::{Found, StateLabels};
use std::alloc::Global;

/// What a node holds of one agent.
#[derive(Debug, Drop)]
pub struct AgentPath {
    pub path: Path,
    pub bars: ListBars,
}

/// A full node of the constraint tree: it holds all that is known of it.
#[derive(Debug, Drop)]
pub struct WholeNode {
    // One for each agent.
    pub agent_paths: Vec<AgentPath>,
    // The labels of the agent that was replanned when the node was made.
    pub bound: BoundLabels,
    // The sum of the paths' costs.
    pub total: u64,
}

impl AgentPath {
    fn copy(&self, alloc: Global) -> Result<AgentPath, OutOfMemory>
        ensures { IfOk result (IsCopy self.now) }
    {
        Ok(AgentPath {
            path: copied(alloc, &self.path)?,
            bars: self.bars.copy()?,
        })
    }

    /// Returns the path after a search under these constraints: an agent that can't arrive keeps its path.
    pub fn after(
        &self,
        alloc: Global,
        found: &Found<StateLabels>,
        bars: ListBars,
    ) -> Result<AgentPath, OutOfMemory>
        ensures { IfOk result (IsAfter self.now found.now bars) }
    {
        match found {
            Found::Arrives { path, .. } => Ok(AgentPath {
                path: copied(alloc, path)?,
                bars,
            }),
            Found::Dead { .. } => Ok(AgentPath {
                path: copied(alloc, &self.path)?,
                bars,
            }),
        }
    }
}

/// Returns the paths with another one of the agent.
pub fn agent_paths_with(
    alloc: Global,
    agent_paths: &[AgentPath],
    agent: u32,
    agent_path: AgentPath,
) -> Result<Vec<AgentPath>, OutOfMemory>
    requires { agent < length agent_paths.now }
    ensures { IfOk result (λ all. AreCopies (slice_set agent_paths.now agent agent_path) all.items) }
{
    let mut all = copies(alloc, agent_paths)?;
    all[agent as usize] = agent_path;
    Ok(all)
}

fn copies(alloc: Global, agent_paths: &[AgentPath]) -> Result<Vec<AgentPath>, OutOfMemory>
    ensures { IfOk result (λ all. AreCopies agent_paths.now all.items) }
{
    let mut all = Vec::new(alloc);
    for i in 0..agent_paths.len() {
        all.push(agent_paths[i].copy(alloc)?)?;
    }
    Ok(all)
}

impl WholeNode {
    /// Returns the root of a tree: these paths, and no constraints.
    pub fn root(alloc: Global, paths: &[Path]) -> Result<WholeNode, OutOfMemory>
        requires { length paths.now ≤ most_agents }
        ensures count { IfOk result (λ node. length node.agent_paths.items ≡ length paths.now) }
        ensures small { IfOk result (λ node. node.total ≤ most_agents * 2 ^ 32) }
        ensures whole { IfOk result (λ node.
            (view : View) → IsRootView paths.now view → sum view.costs ≡ sum_by (λ path. length path - 1) paths.now →
            IsWhole node view) }
    {
        let total = total_of(paths);
        let mut agent_paths = Vec::new(alloc);
        for i in 0..paths.len() {
            agent_paths.push(AgentPath {
                path: copied(alloc, &paths[i])?,
                bars: ListBars::empty(alloc),
            })?;
        }
        Ok(WholeNode {
            agent_paths,
            bound: BoundLabels::none(alloc),
            total,
        })
    }

    /// Returns the paths of the node as a plan.
    pub fn plan(&self, alloc: Global) -> Result<Plan, OutOfMemory>
        requires { (1 ≤ length self.now.agent_paths.items) × (length self.now.agent_paths.items ≤ most_agents) }
        ensures paths { IfOk result (λ plan. (view : View) → IsWhole self.now view → plan ≡ view.paths) }
        ensures short { IfOk result (λ plan. All (λ path. length path ≤ most_path_cells) plan) }
    {
        let mut paths = Vec::new(alloc);
        for i in 0..self.agent_paths.len() {
            paths.push(copied(alloc, &self.agent_paths[i].path)?)?;
        }
        match Plan::of(paths) {
            Some(plan) => Ok(plan),
            None => unreachable!(),
        }
    }
}
