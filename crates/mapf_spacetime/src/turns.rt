//! How the search for one agent begins: a walk and a sweep up to one bound take turns.
ghost use Rattle.std.specs.Prelude.{◌<◌, ◌≤◌, IfOk};
ghost use Rattle.mapf_model.specs.Grid.{IsGridMap};
ghost use Rattle.mapf_spacetime.specs.PathSearch.{CanArrive, IsSearching, IsWholeWalk};
ghost use Rattle.mapf_spacetime.specs.Task.{IsWithin, cost_bound, start_of};
ghost use Rattle.mapf_spacetime.specs.UpToBound.{IsUpTo};

use crate::path_search::{PathSearch, SearchEnd, least_walk};
use crate::search_task::SearchTask;
use crate::sweep::Sweep;
use mapf_constraints::BarTable;
use mapf_model::{Cell, OutOfMemory, Tick};
use std::alloc::Global;

/// From how many states a search for a walk backtracks before any state is swept.
pub const FREE_FAILURES: usize = 8;

/// How many states for each tick are reached without a further failure of the walk. A maze has hardly more.
pub const NARROW: usize = 8;

/// What a walk and a sweep up to the same bound found.
#[derive(Drop)]
pub enum UpToBound {
    /// The cells of a walk that ends at the goal at the bound.
    Walked(Vec<Cell>),
    /// The agent arrives at this cost, up to the bound and not earlier, by the walk of these cells. The sweep has kept
    /// the states below it.
    Arrived { cost: Tick, cells: Vec<Cell> },
    /// The agent doesn't arrive up to the bound, and the sweep has reached all states up to it.
    Swept,
}

/// Searches for a walk that ends at the bound and sweeps up to it, by turns: for each so many states that the sweep
/// reaches in wide ticks, the walk may backtrack once more. Neither begins anew. So the time is at most a multiple of
/// what the quicker of the two takes.
pub fn by_turns<B: BarTable>(
    alloc: Global,
    sweep: &mut Sweep,
    task: &SearchTask<B>,
    bound: u32,
    states_per_failure: usize,
) -> Result<UpToBound, OutOfMemory>
    requires small { bound < cost_bound }
    requires shape { IsGridMap task.now.grid }
    requires within { IsWithin task.now bound (start_of task.now) }
    requires some { 0 < states_per_failure }
    ensures { IfOk result (IsUpTo task.now bound sweep.new) }
{
    let mut walk = PathSearch::of(alloc, task.start(), bound)?;
    // From how many states the walk was allowed to backtrack; from any number once it has nowhere to go.
    let mut allowed = FREE_FAILURES;
    match walk.search(task, bound, allowed)? {
        SearchEnd::AtGoal => return Ok(UpToBound::Walked(walk.into_cells())),
        SearchEnd::Paused => {}
        SearchEnd::NoWay => allowed = usize::MAX,
    }
    let mut arrives = sweep.begin(task, bound)?;
    while !arrives && !sweep.is_over() {
        let most_failures = most_failures(sweep, task.horizon(), states_per_failure);
        if most_failures > allowed {
            allowed = most_failures;
            match walk.search(task, bound, most_failures)? {
                SearchEnd::AtGoal => return Ok(UpToBound::Walked(walk.into_cells())),
                SearchEnd::Paused => {}
                SearchEnd::NoWay => allowed = usize::MAX,
            }
        }
        arrives = sweep.advance(task)?;
    }
    if arrives {
        let cost = sweep.keep_low(task)?;
        let cells = least_walk_after(alloc, task, walk, bound, cost)?;
        return Ok(UpToBound::Arrived { cost, cells });
    }
    Ok(UpToBound::Swept)
}

// Returns the least walk of the cost, for which the search of a walk of the bound goes on if both are equal.
fn least_walk_after<B: BarTable>(
    alloc: Global,
    task: &SearchTask<B>,
    walk: PathSearch,
    bound: u32,
    cost: u32,
) -> Result<Vec<Cell>, OutOfMemory>
    requires small { bound < cost_bound }
    requires early { cost ≤ bound }
    requires searching { IsSearching task.now bound walk }
    requires arrives { CanArrive task.now cost (start_of task.now) }
    requires within { IsWithin task.now cost (start_of task.now) }
    ensures { IfOk result (λ cells. IsWholeWalk task.now cost cells.items) }
{
    if cost == bound {
        return walk.finish(task, cost);
    }
    least_walk(alloc, task, cost)
}

// Returns from how many states the walk may backtrack in all, given what the sweep has reached.
fn most_failures(sweep: &Sweep, horizon: Tick, states_per_failure: usize) -> usize
    requires { 0 < states_per_failure }
{
    // From each state at the horizon the agent arrives by a shortest path, so there is a walk.
    if sweep.tick() >= horizon {
        return usize::MAX;
    }
    let wide = sweep
        .states()
        .len()
        .saturating_sub(NARROW * sweep.tick() as usize);
    FREE_FAILURES.saturating_add(wide / states_per_failure)
}
