//! The simple search: the same order of expansion and the same tie-breaking as plain search, with full nodes, and a
//! scan in place of the open list.
ghost use Rattle.std.specs.Prelude.{◌≡◌, ◌+◌, ◌^◌, ◌<◌, ◌≤◌, ◌∷◌, ℕ, length, IfOk, OnOk};
ghost use Rattle.mapf_model.specs.Conflicts.{tick_of};
ghost use Rattle.mapf_model.specs.Laws.{AreSameBars};
ghost use Rattle.mapf_model.specs.Limits.{most_splits, split_ticks};
ghost use Rattle.mapf_cbs.specs.Answer.{IsOutcome, IsSearchAnswer};
ghost use Rattle.mapf_cbs.specs.CheapestPath.{IsTableBar};
ghost use Rattle.mapf_cbs.specs.Goals.{HaveDifferentGoals};
ghost use Rattle.mapf_distance.specs.Tables.{AreTables};
ghost use Rattle.mapf_cbs.specs.Search.{View, IsLive};
ghost use Rattle.mapf_cbs.specs.Start.{IsRootStart};
ghost use Rattle.mapf_cbs.specs.Whole.{IsFirstAtWhole, IsWhole, IsWholeChild, IsWholePopped, IsWholeState};
ghost use Rattle.mapf_cbs.specs.declared.whole_node.WholeNode.{WholeNode};

use crate::answer::Answer;
use crate::bound_labels::BoundLabels;
use crate::child::{cost_of, new_total};
use crate::endings;
use crate::outcome::Outcome;
use crate::solver::cause_to_stop;
use crate::start::{Beginning, begin};
use crate::whole_node::{WholeNode, agent_paths_with};
use crate::whole_tree::{WholeChild, WholeTree, labels_of_whole, least_open};
use mapf_conflicts::first_conflict;
use mapf_constraints::{BarTable, ListBars};
use mapf_distance::{Distances, goal_tables};
use mapf_model::{Bar, Conflict, Constraint, OutOfMemory, Path, Problem};
use mapf_spacetime::{SearchTask, search_states};
use std::alloc::Global;

/// Returns what `solve` returns, by the simplest means.
pub fn solve_plain(alloc: Global, problem: &Problem, limit: u32) -> Result<Answer, OutOfMemory>
    requires { limit ≤ most_splits }
    ensures { IfOk result (IsSearchAnswer problem.now limit) }
{
    match begin(alloc, problem)? {
        Beginning::Impossible { tree } => Outcome::Impossible { tree }.into_answer(alloc),
        Beginning::Root { paths } => {
            let tables = goal_tables(alloc, problem)?;
            search_plain(alloc, problem, &tables, paths, limit)?.into_answer(alloc)
        }
    }
}

// Splits nodes, beginning with a root with these paths, least sum first, until a plan is found, no node is open or a
// limit is reached.
fn search_plain(
    alloc: Global,
    problem: &Problem,
    tables: &[Distances],
    paths: Vec<Path>,
    limit: u32,
) -> Result<Outcome, OutOfMemory>
    requires limit { limit ≤ most_splits }
    requires tables { AreTables problem.now tables.now }
    requires root { IsRootStart problem.now paths.items }
    ensures { IfOk result (IsOutcome problem.now limit) }
{
    let root = WholeNode::root(alloc, &paths)?;
    let mut tree = WholeTree::of(alloc, root)?;
    loop {
        let Some(k) = least_open(&tree.nodes, &tree.statuses) else {
            let lists = labels_of_whole(alloc, tree.nodes)?;
            return endings::impossible(alloc, lists, &tree.statuses);
        };
        let node = &tree.nodes[k as usize];
        let bound = node.total;
        let plan = node.plan(alloc)?;
        let Some(conflict) = first_conflict(&plan) else {
            let lists = labels_of_whole(alloc, tree.nodes)?;
            return endings::found(alloc, plan, lists, &tree.statuses);
        };
        if let Some(cause) = cause_to_stop(&conflict, tree.splits, limit) {
            let lists = labels_of_whole(alloc, tree.nodes)?;
            return endings::stopped(alloc, cause, bound, lists, &tree.statuses);
        }
        split_whole(alloc, problem, tables, &mut tree, k, &conflict)?;
    }
}

// Splits the node on the conflict.
fn split_whole(
    alloc: Global,
    problem: &Problem,
    tables: &[Distances],
    tree: &mut WholeTree,
    k: u32,
    conflict: &Conflict,
) -> Result<(), OutOfMemory>
    requires tables { AreTables problem.now tables.now }
    requires popped { (total : ℕ)
        × IsWholePopped problem.now tree.old.nodes.items tree.old.statuses.items tree.old.splits total k }
    requires goals { HaveDifferentGoals problem.now }
    requires meet { IsFirstAtWhole tree.old.nodes.items k conflict.now }
    requires early { tick_of conflict.now < split_ticks }
    requires few { tree.old.splits < most_splits }
    ensures state { OnOk result
        (IsWholeState problem.now tree.new.nodes.items tree.new.statuses.items (tree.old.splits + 1)) }
    ensures splits { OnOk result (tree.new.splits ≡ tree.old.splits + 1) }
{
    let left = child_of(
        alloc,
        problem,
        tables,
        &tree.nodes[k as usize],
        conflict.left(),
    )?;
    let right = child_of(
        alloc,
        problem,
        tables,
        &tree.nodes[k as usize],
        conflict.right(),
    )?;
    tree.grow(k, conflict, left, right)
}

// Returns the child of a node under one more constraint.
fn child_of(
    alloc: Global,
    problem: &Problem,
    tables: &[Distances],
    node: &WholeNode,
    constraint: Constraint,
) -> Result<WholeChild, OutOfMemory>
    requires tables { AreTables problem.now tables.now }
    requires known { constraint.agent < length problem.now.agents }
    requires count { length node.now.agent_paths.items ≡ length problem.now.agents }
    requires bar { IsTableBar constraint.bar }
    requires small { node.now.total + 2 ^ 32 < 2 ^ 64 }
    requires live { (view : View) × IsWhole node.now view × IsLive problem.now view }
    ensures count { IfOk result (λ generated.
        length generated.node.agent_paths.items ≡ length node.now.agent_paths.items) }
    ensures generated { IfOk result (λ generated.
        (view : View) → IsWhole node.now view → IsLive problem.now view →
        IsWholeChild problem.now view constraint generated.node generated.total) }
{
    let who = problem.agents()[constraint.agent as usize];
    let goal = who.goal;
    let bars = with_bar(
        &node.agent_paths[constraint.agent as usize].bars,
        constraint.bar,
    )?;
    let distances = &tables[constraint.agent as usize];
    let task = SearchTask::of(problem.grid(), distances, &bars, who);
    let found = search_states(alloc, &task)?;
    let old = cost_of(&node.agent_paths[constraint.agent as usize].path, goal);
    let total = new_total(&found, goal, node.total - u64::from(old));
    let agent_path = node.agent_paths[constraint.agent as usize].after(alloc, &found, bars)?;
    let agent_paths = agent_paths_with(alloc, &node.agent_paths, constraint.agent, agent_path)?;
    let bound = BoundLabels::of(constraint.agent, found);
    let sum = total.unwrap_or(node.total);
    Ok(WholeChild {
        node: WholeNode {
            agent_paths,
            bound,
            total: sum,
        },
        total,
    })
}

// Returns the constraints and one more.
fn with_bar(bars: &ListBars, bar: Bar) -> Result<ListBars, OutOfMemory>
    requires { IsTableBar bar }
    ensures { IfOk result (λ all. AreSameBars all (bar ∷ bars.now)) }
{
    let mut all = bars.copy()?;
    all.add(bar)?;
    Ok(all)
}
