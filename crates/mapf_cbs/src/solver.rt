//! The search over constraint trees: nodes are expanded until a plan is found, no node is open, or a limit is reached.
//! The run of `solve` calls it.
ghost use Rattle.std.specs.Prelude.{◌≡◌, ◌≢◌, ◌+◌, ◌<◌, ◌≤◌, length, IfOk, IfSome, IfNone, OnOk};
ghost use Rattle.mapf_model.specs.Conflicts.{tick_of};
ghost use Rattle.mapf_model.specs.Limits.{most_splits, split_ticks};
ghost use Rattle.mapf_cbs.specs.Answer.{IsOutcome, IsSearchAnswer};
ghost use Rattle.mapf_cbs.specs.PathOwners.{AreOwners};
ghost use Rattle.mapf_cbs.specs.Goals.{HaveDifferentGoals};
ghost use Rattle.mapf_cbs.specs.Nodes.{IsFirstAt};
ghost use Rattle.mapf_distance.specs.Tables.{AreMade};
ghost use Rattle.mapf_cbs.specs.Start.{IsRootStart};
ghost use Rattle.mapf_cbs.specs.State.{IsPopped, IsState, IsCauseToStop};

use crate::ancestors::{conflict_at, plan_at};
use crate::answer::Answer;
use crate::blocks::labels_of_all;
use crate::child::child;
use crate::endings;
use crate::open_nodes::OpenNodes;
use crate::outcome::Outcome;
use crate::path_owners::{PathOwners, owners_at};
use crate::replanned::replanned_at;
use crate::replanner::Replanner;
use crate::search_tree::SearchTree;
use crate::start::{Beginning, begin, total_of};
use mapf_conflicts::CellMarks;
use mapf_constraints::{BarTable, TickBars};
use mapf_model::limits::SPLIT_TICKS;
use mapf_model::{Cause, Conflict, OutOfMemory, Path, Problem, Unwatched, Watcher};
use std::alloc::Global;

/// Searches for an optimal plan, with at most `limit` splits of the constraint tree: 0 to 100,000. Of the open nodes
/// the one of least sum of costs, of these the oldest, is split next, on its first conflict. If two agents have the
/// same goal, or a goal can't be reached, no node is split. Out of memory is the only error.
pub fn solve(alloc: Global, problem: &Problem, limit: u32) -> Result<Answer, OutOfMemory>
    requires { limit ≤ most_splits }
    ensures { IfOk result (IsSearchAnswer problem.now limit) }
{
    solve_with::<TickBars>(alloc, problem, limit)
}

/// Searches as `solve` does, with each agent's constraints in a table of this type while its path is searched.
pub fn solve_with<B: BarTable>(
    alloc: Global,
    problem: &Problem,
    limit: u32,
) -> Result<Answer, OutOfMemory>
    requires { limit ≤ most_splits }
    ensures { IfOk result (IsSearchAnswer problem.now limit) }
{
    search_with::<B>(alloc, problem, limit)?.into_answer(alloc)
}

/// Searches as `solve` does, and returns the nodes of the tree instead of its items.
pub fn search(alloc: Global, problem: &Problem, limit: u32) -> Result<Outcome, OutOfMemory>
    requires { limit ≤ most_splits }
    ensures { IfOk result (IsOutcome problem.now limit) }
{
    search_with::<TickBars>(alloc, problem, limit)
}

/// Searches as `search` does, and tells the watcher how far it is.
pub fn search_watched<W: Watcher>(
    alloc: Global,
    problem: &Problem,
    limit: u32,
    watcher: &mut W,
) -> Result<Outcome, OutOfMemory>
    requires { limit ≤ most_splits }
    ensures { IfOk result (IsOutcome problem.now limit) }
{
    search_as::<TickBars, W>(alloc, problem, limit, watcher)
}

/// Searches as `search` does, with each agent's constraints in a table of this type while its path is searched.
pub fn search_with<B: BarTable>(
    alloc: Global,
    problem: &Problem,
    limit: u32,
) -> Result<Outcome, OutOfMemory>
    requires { limit ≤ most_splits }
    ensures { IfOk result (IsOutcome problem.now limit) }
{
    search_as::<B, Unwatched>(alloc, problem, limit, &mut Unwatched)
}

fn search_as<B: BarTable, W: Watcher>(
    alloc: Global,
    problem: &Problem,
    limit: u32,
    watcher: &mut W,
) -> Result<Outcome, OutOfMemory>
    requires { limit ≤ most_splits }
    ensures { IfOk result (IsOutcome problem.now limit) }
{
    match begin(alloc, problem)? {
        Beginning::Impossible { tree } => Ok(Outcome::Impossible { tree }),
        Beginning::Root { paths } => search_from::<B, W>(alloc, problem, paths, limit, watcher),
    }
}

// Splits nodes, beginning with a root with these paths, least sum first, until a plan is found, no node is open or a
// limit is reached.
fn search_from<B: BarTable, W: Watcher>(
    alloc: Global,
    problem: &Problem,
    paths: Vec<Path>,
    limit: u32,
    watcher: &mut W,
) -> Result<Outcome, OutOfMemory>
    requires limit { limit ≤ most_splits }
    requires root { IsRootStart problem.now paths.items }
    ensures { IfOk result (IsOutcome problem.now limit) }
{
    let agents = problem.agents().len() as u32;
    let total = total_of(&paths);
    let mut search = SearchTree::of(alloc, paths, total)?;
    let grid = problem.grid();
    let mut marks = CellMarks::new(alloc, (grid.width() * grid.height()) as usize)?;
    let mut replanner = Replanner::<B>::of(alloc, problem)?;
    loop {
        let Some((total, k)) = search.waiting.take_least() else {
            let lists = labels_of_all(alloc, search.nodes)?;
            return endings::impossible(alloc, lists, &search.statuses);
        };
        let owners = owners_at(alloc, &search.nodes, k, agents)?;
        let replanned = replanned_at(&search.nodes, &search.statuses, k);
        let first = conflict_at(alloc, &mut marks, &search.nodes, &owners, replanned)?;
        let Some(conflict) = first else {
            let plan = plan_at(alloc, &search.nodes, &owners)?;
            let lists = labels_of_all(alloc, search.nodes)?;
            return endings::found(alloc, plan, lists, &search.statuses);
        };
        if let Some(cause) = cause_to_stop(&conflict, search.splits, limit) {
            let lists = labels_of_all(alloc, search.nodes)?;
            return endings::stopped(alloc, cause, total, lists, &search.statuses);
        }
        split::<B>(
            alloc,
            &mut replanner,
            &mut search,
            &owners,
            total,
            &conflict,
        )?;
        tell(watcher, search.splits, total, &search.waiting);
    }
}

// Tells the watcher how far the search is, after each 256 splits.
fn tell<W: Watcher>(watcher: &mut W, splits: u32, total: u64, waiting: &OpenNodes) {
    if splits % 256 == 0 {
        watcher.note(splits, total, waiting.count());
    }
}

/// Returns why the conflict isn't split after so many splits, None if it is.
pub fn cause_to_stop(conflict: &Conflict, splits: u32, limit: u32) -> Option<Cause>
    ensures some { IfSome result (IsCauseToStop conflict.now splits limit) }
    ensures early { IfNone result (tick_of conflict.now < split_ticks) }
    ensures allowed { IfNone result (splits ≢ limit) }
{
    if conflict.tick() >= SPLIT_TICKS {
        return Some(Cause::Ticks);
    }
    if splits == limit {
        return Some(Cause::Splits(limit));
    }
    None
}

// Splits the node on the conflict.
fn split<B: BarTable>(
    alloc: Global,
    replanner: &mut Replanner<B>,
    search: &mut SearchTree,
    owners: &PathOwners,
    total: u64,
    conflict: &Conflict,
) -> Result<(), OutOfMemory>
    requires tables { AreMade replanner.old.problem.now replanner.old.tables }
    requires popped { IsPopped replanner.old.problem.now
        search.old.nodes.items search.old.statuses.items search.old.waiting search.old.splits total owners.now.node }
    requires owners { AreOwners search.old.nodes.items owners.now }
    requires count { length owners.now.nearest.items ≡ length replanner.old.problem.now.agents }
    requires goals { HaveDifferentGoals replanner.old.problem.now }
    requires meet { IsFirstAt replanner.old.problem.now search.old.nodes.items owners.now.node conflict.now }
    requires early { tick_of conflict.now < split_ticks }
    requires few { search.old.splits < most_splits }
    ensures state { OnOk result (IsState replanner.old.problem.now
        search.new.nodes.items search.new.statuses.items search.new.waiting (search.old.splits + 1)) }
    ensures splits { OnOk result (search.new.splits ≡ search.old.splits + 1) }
    ensures tables { OnOk result (AreMade replanner.old.problem.now replanner.new.tables) }
    ensures problem { OnOk result (replanner.new.problem.now ≡ replanner.old.problem.now) }
{
    let left = child(
        alloc,
        replanner,
        &search.nodes,
        owners,
        total,
        conflict.left(),
    )?;
    let right = child(
        alloc,
        replanner,
        &search.nodes,
        owners,
        total,
        conflict.right(),
    )?;
    search.grow(owners.node, conflict, left, right)
}
