//! How a child of a split is made: the agent of its new constraint is replanned. The search over trees makes both
//! children of a split by it.
ghost use Rattle.std.specs.Prelude.{◌≡◌, ◌+◌, ◌-◌, ◌<◌, ◌∷◌, ◌^◌, List, Some, length, slice_get, sum, IfOk, OnOk};
ghost use Rattle.mapf_model.specs.Laws.{AreSameBars};
ghost use Rattle.mapf_model.specs.Path.{at, IsCost};
ghost use Rattle.mapf_model.specs.declared.bar.Bar.{Bar};
ghost use Rattle.mapf_model.specs.declared.problem.Agent.{Agent};
ghost use Rattle.mapf_spacetime.specs.Answer.{IsPathAnswer};
ghost use Rattle.mapf_spacetime.specs.Task.{task_of};
ghost use Rattle.mapf_cbs.specs.CheapestPath.{IsTableBar};
ghost use Rattle.mapf_cbs.specs.PathOwners.{AreOwners};
ghost use Rattle.mapf_distance.specs.Tables.{AreMade};
ghost use Rattle.mapf_cbs.specs.Search.{View, IsLive};
ghost use Rattle.mapf_cbs.specs.Nodes.{AreNodesFor, HaveTableBars, AreViews, HoldsOfNode};
ghost use Rattle.mapf_cbs.specs.GeneratedChild.{IsGeneratedChild, EndsAt, IsTotal};

use crate::ancestors::{gather_bars, path_at};
use crate::node::Node;
use crate::path_owners::PathOwners;
use crate::replanner::Replanner;
use mapf_constraints::BarTable;
use mapf_model::{Cell, Constraint, OutOfMemory, Path};
use mapf_spacetime::{Found, SearchTask, StateLabels, search_expecting};
use std::alloc::Global;

/// What one more constraint led to, with the new sum of costs if the agent still arrives.
#[derive(Debug, Drop)]
pub struct GeneratedChild {
    pub found: Found<StateLabels>,
    pub total: Option<u64>,
}

/// Returns the child of a node, whose path owners these are, under one more constraint.
pub fn child<B: BarTable>(
    alloc: Global,
    replanner: &mut Replanner<B>,
    nodes: &[Node],
    owners: &PathOwners,
    total: u64,
    constraint: Constraint,
) -> Result<GeneratedChild, OutOfMemory>
    requires tables { AreMade replanner.old.problem.now replanner.old.tables }
    requires nodes { AreNodesFor constraint.agent nodes.now }
    requires bars { HaveTableBars nodes.now }
    requires owners { AreOwners nodes.now owners.now }
    requires found { constraint.agent < length owners.now.nearest.items }
    requires known { constraint.agent < length replanner.old.problem.now.agents }
    requires bar { IsTableBar constraint.bar }
    requires small { total + 2 ^ 32 < 2 ^ 64 }
    requires live { (views : List View) × (view : View) × AreViews nodes.now views
        × (slice_get views owners.now.node ≡ Some view)
        × IsLive replanner.old.problem.now view × (total ≡ sum view.costs) }
    ensures generated { IfOk result (λ generated.
        HoldsOfNode nodes.now owners.now.node (λ view. IsLive replanner.old.problem.now view → total ≡ sum view.costs →
        IsGeneratedChild replanner.old.problem.now view constraint generated.found generated.total)) }
    ensures tables { OnOk result (AreMade replanner.old.problem.now replanner.new.tables) }
    ensures problem { OnOk result (replanner.new.problem.now ≡ replanner.old.problem.now) }
{
    let agent = constraint.agent;
    let who = replanner.problem.agents()[agent as usize];
    let old = cost_of(path_at(nodes, owners.of(agent), agent), who.goal);
    let found = search_under(alloc, replanner, nodes, owners, constraint, old)?;
    let total = new_total(&found, who.goal, total - u64::from(old));
    Ok(GeneratedChild { found, total })
}

// Searches for a path of the constraint's agent under its constraints at the node and this one. The path is expected to
// cost about as much as the agent's path at the node.
fn search_under<B: BarTable>(
    alloc: Global,
    replanner: &mut Replanner<B>,
    nodes: &[Node],
    owners: &PathOwners,
    constraint: Constraint,
    expected: u32,
) -> Result<Found<StateLabels>, OutOfMemory>
    requires tables { AreMade replanner.old.problem.now replanner.old.tables }
    requires nodes { AreNodesFor constraint.agent nodes.now }
    requires bars { HaveTableBars nodes.now }
    requires owners { AreOwners nodes.now owners.now }
    requires found { constraint.agent < length owners.now.nearest.items }
    requires known { constraint.agent < length replanner.old.problem.now.agents }
    requires bar { IsTableBar constraint.bar }
    ensures found { IfOk result (λ found.
        (who : Agent) → slice_get replanner.old.problem.now.agents constraint.agent ≡ Some who →
        HoldsOfNode nodes.now owners.now.node (λ view. (bars : List Bar)
        × AreSameBars bars (constraint.bar ∷ view.context.bars constraint.agent)
        × IsPathAnswer (task_of replanner.old.problem.now.grid who bars) found)) }
    ensures tables { OnOk result (AreMade replanner.old.problem.now replanner.new.tables) }
    ensures problem { OnOk result (replanner.new.problem.now ≡ replanner.old.problem.now) }
{
    let who = replanner.problem.agents()[constraint.agent as usize];
    gather_bars(
        &mut replanner.bars,
        nodes,
        owners.of(constraint.agent),
        constraint.agent,
    )?;
    replanner.bars.add(constraint.bar)?;
    replanner
        .tables
        .make(alloc, replanner.problem, constraint.agent)?;
    let distances = replanner.tables.get(constraint.agent);
    let task = SearchTask::of(replanner.problem.grid(), distances, &replanner.bars, who);
    search_expecting(alloc, &mut replanner.workspace, &task, expected)
}

/// Returns the cost of a path that ends at the goal.
pub fn cost_of(path: &Path, goal: Cell) -> u32
    requires { at path.now (length path.now - 1) ≡ goal }
    ensures { IsCost goal path.now result }
{
    match path.cost(goal) {
        Some(cost) => cost,
        None => unreachable!(),
    }
}

/// Returns the sum of costs with the path that was found, None if none was.
pub fn new_total(found: &Found<StateLabels>, goal: Cell, rest: u64) -> Option<u64>
    requires lawful { EndsAt found.now goal }
    requires small { rest + 2 ^ 32 < 2 ^ 64 }
    ensures { IsTotal found.now goal rest result }
{
    match found {
        Found::Arrives { path, .. } => Some(rest + u64::from(cost_of(path, goal))),
        Found::Dead { .. } => None,
    }
}
