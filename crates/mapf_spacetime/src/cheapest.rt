//! The search for one agent: a cheapest path under constraints, with labels which show that none is cheaper. The search
//! over trees calls it for each child, and the simple search does too.
ghost use Rattle.std.specs.Prelude.{◌≡◌, ◌<◌, ◌≤◌, [], List, None, IfOk, AllPairs, Contains};
ghost use Rattle.mapf_model.specs.Limits.{greatest_cost};
ghost use Rattle.mapf_model.specs.Grid.{IsGridMap};
ghost use Rattle.mapf_model.specs.declared.label.Entry.{Entry};
ghost use Rattle.mapf_model.specs.declared.state.State.{State};
ghost use Rattle.mapf_spacetime.specs.PathSearch.{IsWholeWalk};
ghost use Rattle.mapf_spacetime.specs.Task.{Task, IsOpen, IsValue, IsWithin, MayRestFrom};
ghost use Rattle.mapf_spacetime.specs.Task.{cost_bound, start_of, task_of};
ghost use Rattle.mapf_spacetime.specs.Listed.{AreEntriesOf};
ghost use Rattle.mapf_spacetime.specs.Listing.{AreReachedEntries, HasValue, ListsReached};
ghost use Rattle.mapf_spacetime.specs.States.{IsBelowLimit};
ghost use Rattle.mapf_model.specs.States.{IsEarlier};
ghost use Rattle.mapf_spacetime.specs.Sweeps.{HasArrived, IsWhole};
ghost use Rattle.mapf_spacetime.specs.Answer.{IsPathAnswer, ShowNone};

use crate::found::Found;
use crate::labels::Labels;
use crate::levels::by_levels;
use crate::path_search::{least_walk, try_walk};
use crate::search_task::SearchTask;
use crate::state_labels::StateLabels;
use crate::sweep::Sweep;
use crate::turns::{FREE_FAILURES, UpToBound, by_turns};
use crate::workspace::Workspace;
use mapf_constraints::BarTable;
use mapf_distance::Distances;
use mapf_model::limits::MOST_CELLS;
use mapf_model::{Agent, Cell, Grid, OutOfMemory, Path, State};
use std::alloc::Global;

/// Returns a cheapest path of the agent under its constraints, with labels that show that none is cheaper; or labels
/// that show that no path arrives. Of all cheapest paths it is the lexicographically least by cell numbers.
pub fn search<'a, B: BarTable>(
    alloc: Global,
    grid: &'a Grid,
    distances: &'a Distances,
    bars: &'a B,
    agent: Agent,
) -> Result<Found, OutOfMemory>
    requires grid { distances.now.grid ≡ grid.now }
    requires goal { distances.now.goal ≡ agent.goal }
    ensures answer { IfOk result (IsPathAnswer (task_of grid.now agent (B.bars bars.now))) }
    // The labels are those of all states that can be reached with an f-value below the path's cost, and no others; of
    // an agent that never arrives, those of all states that can be reached and from which steps lead to the goal.
    ensures listed { IfOk result (ListsReached (task_of grid.now agent (B.bars bars.now))) }
{
    let task = SearchTask::of(grid, distances, bars, agent);
    with_labels(alloc, search_states(alloc, &task)?)
}

// Returns the same with labels in memory of their own.
pub(crate) fn with_labels(alloc: Global, found: Found<StateLabels>) -> Result<Found, OutOfMemory>
    ensures answer { (task : Task) → IsPathAnswer task found → IfOk result (IsPathAnswer task) }
    ensures listed { (task : Task) → ListsReached task found → IfOk result (ListsReached task) }
{
    match found {
        Found::Arrives { path, labels } => Ok(Found::Arrives {
            path,
            labels: Labels::of(labels.into_entries(alloc)?),
        }),
        Found::Dead { labels } => Ok(Found::Dead {
            labels: Labels::of(labels.into_entries(alloc)?),
        }),
    }
}

/// Searches as `search` does, and returns the labels in less memory.
pub fn search_states<B: BarTable>(
    alloc: Global,
    task: &SearchTask<B>,
) -> Result<Found<StateLabels>, OutOfMemory>
    ensures answer { IfOk result (IsPathAnswer task.now) }
    // The labels are those of all states that can be reached with an f-value below the path's cost, and no others; of
    // an agent that never arrives, those of all states that can be reached and from which steps lead to the goal.
    ensures listed { IfOk result (ListsReached task.now) }
{
    let mut workspace = Workspace::new(alloc);
    search_expecting(alloc, &mut workspace, task, 0)
}

/// Searches as `search_states` does, in the memory of earlier searches, of whatever problems. A path is expected to
/// cost about so much, in ticks. The answer doesn't depend on it, and the time is shortest if the cost is this or
/// little more. If a path costs less, all states of an f-value of at most the expected cost may be reached first.
pub fn search_expecting<B: BarTable>(
    alloc: Global,
    workspace: &mut Workspace,
    task: &SearchTask<B>,
    expected: u32,
) -> Result<Found<StateLabels>, OutOfMemory>
    ensures answer { IfOk result (IsPathAnswer task.now) }
    // The labels are those of all states that can be reached with an f-value below the path's cost, and no others; of
    // an agent that never arrives, those of all states that can be reached and from which steps lead to the goal.
    ensures listed { IfOk result (ListsReached task.now) }
{
    let start = State {
        tick: 0,
        cell: task.start(),
    };
    let Some(distance) = task.value(&start) else {
        return dead(alloc, task, &[]);
    };
    if !task.allows_start() {
        return dead(alloc, task, &[start]);
    }
    // Without constraints the path is a shortest path.
    if task.horizon() == 0 {
        return Ok(Found::Arrives {
            path: task.descend(alloc)?,
            labels: StateLabels::none(alloc),
        });
    }
    by_cost(alloc, workspace, task, distance, expected)
}

// Searches from the agent's distance, the expected cost or the tick from which the agent may rest at its goal,
// whichever is greatest: a path costs no less, unless more was expected.
fn by_cost<B: BarTable>(
    alloc: Global,
    workspace: &mut Workspace,
    task: &SearchTask<B>,
    distance: u32,
    expected: u32,
) -> Result<Found<StateLabels>, OutOfMemory>
    requires shape { IsGridMap task.now.grid }
    requires start { IsOpen task.now (start_of task.now) }
    requires distance { IsValue task.now (start_of task.now) distance }
    ensures answer { IfOk result (IsPathAnswer task.now) }
    ensures listed { IfOk result (ListsReached task.now) }
{
    let last = task.horizon() + MOST_CELLS - 1;
    let bound = distance.max(task.rest()).max(expected).min(last);
    // At the distance no state gets a label; above it most states that are swept do, so they are reached in any case.
    let states_per_failure = if bound == distance { 2 } else { 16 };
    let sweep = &mut workspace.sweep;
    match by_turns(alloc, sweep, task, bound, states_per_failure)? {
        UpToBound::Walked(cells) => walked(alloc, sweep, task, distance, bound, cells),
        UpToBound::Arrived { cost, cells } => arrive_by(alloc, task, sweep.low(), cost, cells),
        UpToBound::Swept => above(alloc, workspace, task, bound),
    }
}

// Searches above a bound up to which the sweep has reached all states.
fn above<B: BarTable>(
    alloc: Global,
    workspace: &mut Workspace,
    task: &SearchTask<B>,
    bound: u32,
) -> Result<Found<StateLabels>, OutOfMemory>
    requires shape { IsGridMap task.now.grid }
    requires start { IsOpen task.now (start_of task.now) }
    requires rest { MayRestFrom task.now bound }
    requires small { bound < cost_bound }
    requires whole { IsWhole task.now workspace.old.sweep }
    requires bound { workspace.old.sweep.bound ≡ bound }
    ensures answer { IfOk result (IsPathAnswer task.now) }
    ensures listed { IfOk result (ListsReached task.now) }
{
    let sweep = &mut workspace.sweep;
    if !sweep.is_cut() {
        return dead(alloc, task, sweep.states());
    }
    // A state was left out, so a cost one greater may be tried.
    let horizon = task.horizon();
    let cost = bound + 1;
    prove!(cost < horizon + MOST_CELLS);
    if let Some(cells) = try_walk(alloc, task, cost, FREE_FAILURES)? {
        return arrive_by(alloc, task, sweep.states(), cost, cells);
    }
    let frontier = &mut workspace.frontier;
    frontier.begin_above(task, sweep, cost)?;
    match by_levels(alloc, frontier, task)? {
        Some(cells) => arrive_by(alloc, task, frontier.reached(), frontier.cost(), cells),
        None => dead(alloc, task, frontier.reached()),
    }
}

// Returns the path of these cells and its labels, unless the agent arrives at a lesser cost: then that path.
fn walked<B: BarTable>(
    alloc: Global,
    sweep: &mut Sweep,
    task: &SearchTask<B>,
    distance: u32,
    cost: u32,
    cells: Vec<Cell>,
) -> Result<Found<StateLabels>, OutOfMemory>
    requires shape { IsGridMap task.now.grid }
    requires start { IsOpen task.now (start_of task.now) }
    requires distance { IsValue task.now (start_of task.now) distance }
    requires least { distance ≤ cost }
    requires small { cost < cost_bound }
    requires rest { MayRestFrom task.now cost }
    requires walk { IsWholeWalk task.now cost cells.items }
    ensures answer { IfOk result (IsPathAnswer task.now) }
    ensures listed { IfOk result (ListsReached task.now) }
{
    if cost == distance {
        return arrive_by(alloc, task, &[], cost, cells);
    }
    match sweep.arrival(task, cost - 1)? {
        Some(arrival) => arrive(alloc, task, sweep.low(), arrival),
        None => arrive_by(alloc, task, sweep.states(), cost, cells),
    }
}

// Returns the path and the labels of an agent that arrives at this cost.
fn arrive<B: BarTable>(
    alloc: Global,
    task: &SearchTask<B>,
    states: &[State],
    cost: u32,
) -> Result<Found<StateLabels>, OutOfMemory>
    requires shape { IsGridMap task.now.grid }
    requires small { cost < cost_bound }
    requires limit { IsBelowLimit task.now cost }
    requires start { IsOpen task.now (start_of task.now) }
    requires arrived { HasArrived task.now cost states.now }
    ensures answer { IfOk result (IsPathAnswer task.now) }
    ensures listed { IfOk result (ListsReached task.now) }
{
    let cells = least_walk(alloc, task, cost)?;
    arrive_by(alloc, task, states, cost, cells)
}

// Returns the path of these cells, and the labels of the states whose f-value is below its cost.
fn arrive_by<B: BarTable>(
    alloc: Global,
    task: &SearchTask<B>,
    states: &[State],
    cost: u32,
    cells: Vec<Cell>,
) -> Result<Found<StateLabels>, OutOfMemory>
    requires shape { IsGridMap task.now.grid }
    requires small { cost < cost_bound }
    requires limit { IsBelowLimit task.now cost }
    requires start { IsOpen task.now (start_of task.now) }
    requires arrived { HasArrived task.now cost states.now }
    requires walk { IsWholeWalk task.now cost cells.items }
    ensures answer { IfOk result (IsPathAnswer task.now) }
    ensures listed { IfOk result (ListsReached task.now) }
{
    mapf_model::laws::definitions_are_decided();
    let labels = StateLabels::of(alloc, states, Some(cost))?;
    Ok(Found::Arrives {
        path: Path::of(cells).unwrap(),
        labels,
    })
}

// Returns the labels `Never` of these states.
fn dead<B: BarTable>(
    alloc: Global,
    task: &SearchTask<B>,
    states: &[State],
) -> Result<Found<StateLabels>, OutOfMemory>
    requires shape { IsGridMap task.now.grid }
    requires few { (s : State) → Contains states.now s → IsWithin task.now greatest_cost s }
    requires rising { AllPairs IsEarlier states.now }
    requires none { (entries : List Entry) → AreEntriesOf states.now None entries → ShowNone task.now entries }
    requires all { (entries : List Entry) → AreEntriesOf states.now None entries →
        AreReachedEntries task.now (HasValue task.now) None entries }
    ensures answer { IfOk result (IsPathAnswer task.now) }
    ensures listed { IfOk result (ListsReached task.now) }
{
    let labels = StateLabels::of(alloc, states, None)?;
    Ok(Found::Dead { labels })
}
