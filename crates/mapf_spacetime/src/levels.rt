//! The search for one agent above the bound of its sweep, cost by cost.
ghost use Rattle.std.specs.Prelude.{◌≡◌, ◌<◌, ◌+◌, ℕ, [], IfOk, IfSome, IfNone, OnOk};
ghost use Rattle.mapf_constraints.specs.BarSets.{AreBefore};
ghost use Rattle.mapf_model.specs.Limits.{most_cells};
ghost use Rattle.mapf_spacetime.specs.Frontiers.{IsFrontier, IsLevelDone};
ghost use Rattle.mapf_spacetime.specs.Levels.{IsArrivalAt, IsWalkTo};
ghost use Rattle.mapf_spacetime.specs.States.{IsBelowLimit};
ghost use Rattle.mapf_spacetime.specs.Sweeps.{AreAll};
ghost use Rattle.mapf_spacetime.specs.Task.{MayRestFrom, IsWithin, cost_bound, start_of};

use crate::frontier::{Expansion, Frontier};
use crate::path_search::{PathSearch, SearchEnd, least_walk};
use crate::search_task::SearchTask;
use crate::turns::{FREE_FAILURES, NARROW};
use mapf_constraints::BarTable;
use mapf_model::limits::MOST_CELLS;
use mapf_model::{Cell, OutOfMemory};
use std::alloc::Global;

// How many failures the walk gains by a turn in a wide level, and how many open states are taken for each of them.
const FAILURES: usize = 16;

const STATES_PER_FAILURE: usize = 16;

/// Reaches states by rising f-value until the agent arrives, or no state is left to reach. Returns the cells of the
/// least walk of the cost at which it arrives, and keeps the states below that cost. If it never arrives, returns None
/// and keeps all states that can be reached.
pub fn by_levels<B: BarTable>(
    alloc: Global,
    frontier: &mut Frontier,
    task: &SearchTask<B>,
) -> Result<Option<Vec<Cell>>, OutOfMemory>
    requires frontier { IsFrontier task.now [] frontier.old }
    requires within { IsWithin task.now frontier.old.cost (start_of task.now) }
    requires rest { MayRestFrom task.now frontier.old.cost }
    requires limit { IsBelowLimit task.now frontier.old.cost }
    requires small { (last : ℕ) → AreBefore last task.now.bars → frontier.old.cost < last + most_cells }
    ensures arrives { IfOk result (λ found. IfSome found (λ cells. IsArrivalAt task.now frontier.new cells.items)) }
    ensures all { IfOk result (λ found. IfNone found (AreAll task.now frontier.new.cost frontier.new.reached)) }
    ensures limit { OnOk result (IsBelowLimit task.now frontier.new.cost) }
    ensures small { OnOk result (frontier.new.cost < cost_bound) }
{
    let horizon = task.horizon();
    let mut cost = frontier.cost();
    loop {
        if let Some(cells) = level(alloc, frontier, task)? {
            frontier.keep_low();
            return Ok(Some(cells));
        }
        if frontier.none_waits() {
            frontier.keep_all();
            return Ok(None);
        }
        frontier.raise();
        cost += 1;
        prove!(cost < horizon + MOST_CELLS);
    }
}

// Reaches the states of the cost. Returns the cells of the least walk of the cost if the agent arrives.
fn level<B: BarTable>(
    alloc: Global,
    frontier: &mut Frontier,
    task: &SearchTask<B>,
) -> Result<Option<Vec<Cell>>, OutOfMemory>
    requires frontier { IsFrontier task.now [] frontier.old }
    requires within { IsWithin task.now frontier.old.cost (start_of task.now) }
    requires rest { MayRestFrom task.now frontier.old.cost }
    requires small { frontier.old.cost < cost_bound }
    ensures arrives { IfOk result (λ found. IfSome found (λ cells. IsWalkTo task.now frontier.new cells.items)) }
    ensures done { IfOk result (λ found. IfNone found (IsLevelDone task.now frontier.new)) }
    ensures cost { OnOk result (frontier.new.cost ≡ frontier.old.cost) }
{
    let cost = frontier.cost();
    match frontier.expand(task, NARROW * cost as usize)? {
        Expansion::Arrives => Ok(Some(least_walk(alloc, task, cost)?)),
        Expansion::Done => Ok(None),
        Expansion::Paused => wide_level(alloc, frontier, task),
    }
}

// The same, while a walk of the cost is searched for by turns.
fn wide_level<B: BarTable>(
    alloc: Global,
    frontier: &mut Frontier,
    task: &SearchTask<B>,
) -> Result<Option<Vec<Cell>>, OutOfMemory>
    requires frontier { IsFrontier task.now [] frontier.old }
    requires within { IsWithin task.now frontier.old.cost (start_of task.now) }
    requires rest { MayRestFrom task.now frontier.old.cost }
    requires small { frontier.old.cost < cost_bound }
    ensures arrives { IfOk result (λ found. IfSome found (λ cells. IsWalkTo task.now frontier.new cells.items)) }
    ensures done { IfOk result (λ found. IfNone found (IsLevelDone task.now frontier.new)) }
    ensures cost { OnOk result (frontier.new.cost ≡ frontier.old.cost) }
{
    let cost = frontier.cost();
    let mut walk = PathSearch::of(alloc, task.start(), cost)?;
    let mut most_failures = FREE_FAILURES;
    loop {
        if let SearchEnd::AtGoal = walk.search(task, cost, most_failures)? {
            return Ok(Some(walk.into_cells()));
        }
        match frontier.expand(task, FAILURES * STATES_PER_FAILURE)? {
            Expansion::Arrives => return Ok(Some(walk.finish(task, cost)?)),
            Expansion::Done => return Ok(None),
            Expansion::Paused => {}
        }
        most_failures = most_failures.saturating_add(FAILURES);
    }
}
