//! The depth-first search for a walk of a given cost, for the search for one agent.
ghost use Rattle.std.specs.Prelude.{◌≡◌, ◌+◌, ◌-◌, ◌<◌, ◌≤◌, ◌^◌, ℕ, Some, length, slice_index};
ghost use Rattle.std.specs.Prelude.{false, IfOk, IfSome, IfNone, OnOk, IsTrue, Contains};
ghost use Rattle.mapf_constraints.specs.BarSets.{AreBefore};
ghost use Rattle.mapf_model.specs.Grid.{IsFree, Step};
ghost use Rattle.mapf_model.specs.Labels.{MayGo};
ghost use Rattle.mapf_model.specs.Limits.{most_path_cells};
ghost use Rattle.mapf_model.specs.Neighbours.{neighbourhood};
ghost use Rattle.mapf_spacetime.specs.Task.{IsValue, IsWithin, state_at, start_of, cost_bound};
ghost use Rattle.mapf_spacetime.specs.PathSearch.{AreNoWaysBelow, CanArrive, IsNoWayOn, IsSearching, IsWholeWalk};
ghost use Rattle.mapf_spacetime.specs.PathSearchEnds.{IsEnd};
ghost use Rattle.mapf_spacetime.specs.PathSearch.{state_of, turns_left, first_walk, with_step, with_failure};

use crate::search_task::SearchTask;
use crate::state_set::StateSet;
use mapf_constraints::BarTable;
use mapf_model::{Cell, OutOfMemory, State, Tick};
use std::alloc::Global;
use std::marker::Model;

/// How a search for a walk has ended.
#[derive(Drop)]
pub enum SearchEnd {
    /// The walk ends at the goal.
    AtGoal,
    /// The search has backtracked as often as it may, and can go on.
    Paused,
    /// No walk ends at the goal at this cost.
    NoWay,
}

/// Depth-first search: a walk from the start, one cell for each tick, and the states from which it had to backtrack.
#[derive(Drop)]
pub struct PathSearch {
    cells: Vec<Cell>,
    failed: StateSet,
}

impl Model for PathSearch {
    ghost use Rattle.mapf_spacetime.specs.PathSearch.{Walked};

    ghost Value = { Walked };

    ghost view = { λ walk. record { cells = walk.cells.items; failed = walk.failed } };
}

impl PathSearch {
    /// Returns a search at the start, with room for a walk of the cost.
    pub fn of(alloc: Global, start: Cell, cost: u32) -> Result<PathSearch, OutOfMemory>
        ensures { IfOk result (λ walk. walk ≡ first_walk start) }
    {
        let mut cells = Vec::with_capacity(alloc, cost as usize + 1)?;
        cells.push(start)?;
        Ok(PathSearch {
            cells,
            failed: StateSet::new(alloc),
        })
    }

    fn len(&self) -> usize
        ensures { result ≡ length self.now.cells }
    {
        self.cells.len()
    }

    // Returns how many states the search has backtracked from.
    fn failures(&self) -> usize
        ensures { result ≡ length self.now.failed }
    {
        self.failed.len()
    }

    // Returns the last state of the walk.
    fn last(&self) -> State
        requires some { 1 ≤ length self.now.cells }
        requires short { length self.now.cells ≤ most_path_cells }
        ensures { let tick = length self.now.cells - 1 in result ≡ state_at (slice_index self.now.cells tick) tick }
    {
        let tick = self.cells.len() - 1;
        State {
            tick: tick as Tick,
            cell: self.cells[tick],
        }
    }

    fn step(&mut self, to: Cell) -> Result<(), OutOfMemory>
        ensures { OnOk result (self.new ≡ with_step self.old to) }
    {
        self.cells.push(to)?;
        Ok(())
    }

    // Backtracks from the last state.
    fn turn_back(&mut self, state: State) -> Result<(), OutOfMemory>
        requires { Contains self.old.failed state → ⊥ }
        ensures turned { OnOk result (self.new ≡ with_failure self.old state) }
        ensures small { OnOk result (length self.new.failed < 2 ^ 64) }
    {
        self.failed.add(state)?;
        self.cells.pop();
        Ok(())
    }

    // Returns whether the constraints allow the agent to go to the cell, and it may still arrive at the cost from
    // there.
    #[inline(always)]
    fn leads<B: BarTable>(
        &self,
        task: &SearchTask<B>,
        from: &State,
        to: Cell,
        cost: u32,
        is_barred: bool,
    ) -> bool
        requires small { from.now.tick < most_path_cells }
        requires unbarred { is_barred ≡ false → (other : ℕ) → Step task.now.grid from.now.cell other →
            MayGo task.now.grid task.now.bars from.now.cell other from.now.tick }
        requires free { IsFree task.now.grid from.now.cell }
        requires wide { 0 < task.now.grid.width }
        requires beside { Contains (neighbourhood task.now.grid.width from.now.cell) (Some to) }
        ensures may { IsTrue result → MayGo task.now.grid task.now.bars from.now.cell to from.now.tick }
        ensures within { IsTrue result → IsWithin task.now cost (state_at to (from.now.tick + 1)) }
        ensures fresh { IsTrue result → Contains self.now.failed (state_at to (from.now.tick + 1)) → ⊥ }
        ensures no { result ≡ false → IsNoWayOn task.now cost self.now.failed from.now to }
    {
        let next = State {
            tick: from.tick + 1,
            cell: to,
        };
        if !is_within(task, &next, cost) {
            return false;
        }
        // A failed state is found sooner than a constraint where there are many.
        if self.failed.has(&next) {
            return false;
        }
        task.allows_if(is_barred, from, to)
    }

    // Returns the least cell of the state's neighbourhood from which the agent may still arrive.
    fn next<B: BarTable>(&self, task: &SearchTask<B>, from: &State, cost: u32) -> Option<Cell>
        requires small { from.now.tick < most_path_cells }
        requires free { IsFree task.now.grid from.now.cell }
        ensures may { IfSome result (λ to. MayGo task.now.grid task.now.bars from.now.cell to from.now.tick) }
        ensures within { IfSome result (λ to. IsWithin task.now cost (state_at to (from.now.tick + 1))) }
        ensures fresh { IfSome result (λ to. Contains self.now.failed (state_at to (from.now.tick + 1)) → ⊥) }
        ensures least { IfSome result (AreNoWaysBelow task.now cost self.now.failed from.now) }
        ensures none { IfNone result ((to : ℕ) → IsNoWayOn task.now cost self.now.failed from.now to) }
    {
        let is_barred = task.may_bar(from.tick);
        for place in task.beside(from.cell) {
            if let Some(to) = place {
                if self.leads(task, from, to, cost, is_barred) {
                    return Some(to);
                }
            }
        }
        None
    }

    // Takes one step, or backtracks if no step may lead to the goal. Returns false if there is nowhere to backtrack
    // to.
    #[inline(always)]
    fn go_on<B: BarTable>(&mut self, task: &SearchTask<B>, cost: u32) -> Result<bool, OutOfMemory>
        requires small { cost < cost_bound }
        requires searching { IsSearching task.now cost self.old }
        requires unfinished { length self.old.cells ≤ cost }
        ensures searching { IfOk result (λ goes. IsTrue goes → IsSearching task.now cost self.new) }
        ensures nearer { IfOk result (λ goes. IsTrue goes → turns_left self.new < turns_left self.old) }
        ensures none { IfOk result (λ goes. goes ≡ false → CanArrive task.now cost (start_of task.now) → ⊥) }
        ensures same { IfOk result (λ goes. goes ≡ false → self.new ≡ self.old) }
    {
        let here = self.last();
        if let Some(to) = self.next(task, &here, cost) {
            self.step(to)?;
            return Ok(true);
        }
        if self.len() == 1 {
            return Ok(false);
        }
        self.turn_back(here)?;
        Ok(true)
    }

    // Returns whether the f-value of the walk's last state is the cost, and its tick is not before the horizon. Then
    // only the shortest paths from there arrive at the cost, and no constraint forbids a step of any of them.
    #[inline(always)]
    fn is_direct<B: BarTable>(&self, task: &SearchTask<B>, cost: u32) -> bool
        requires some { 1 ≤ length self.now.cells }
        requires short { length self.now.cells ≤ most_path_cells }
        ensures free { IsTrue result → AreBefore (length self.now.cells - 1) task.now.bars }
        ensures level { IsTrue result →
            IsValue task.now (state_of self.now.cells (length self.now.cells - 1)) cost }
    {
        let here = self.last();
        here.tick >= task.horizon() && task.value(&here) == Some(cost)
    }

    // Adds to the walk a shortest path from its last cell to the goal: of these paths the lexicographically least by
    // cell numbers.
    fn go_straight<B: BarTable>(
        &mut self,
        task: &SearchTask<B>,
        cost: u32,
    ) -> Result<(), OutOfMemory>
        requires small { cost < cost_bound }
        requires searching { IsSearching task.now cost self.old }
        requires free { AreBefore (length self.old.cells - 1) task.now.bars }
        requires level { IsValue task.now (state_of self.old.cells (length self.old.cells - 1)) cost }
        ensures { OnOk result (IsWholeWalk task.now cost self.new.cells) }
    {
        while self.cells.len() <= cost as usize {
            let tick = self.cells.len() - 1;
            let here = self.cells[tick];
            self.cells.push(task.nearer(here, cost - tick as u32 - 1))?;
        }
        Ok(())
    }

    /// Goes on until the walk ends at the goal, at the cost. Stops once it has backtracked from so many states in all,
    /// or has nowhere to backtrack to.
    pub fn search<B: BarTable>(
        &mut self,
        task: &SearchTask<B>,
        cost: u32,
        most_failures: usize,
    ) -> Result<SearchEnd, OutOfMemory>
        requires small { cost < cost_bound }
        requires searching { IsSearching task.now cost self.old }
        ensures { IfOk result (IsEnd task.now cost self.new) }
    {
        while self.len() <= cost as usize {
            if self.is_direct(task, cost) {
                self.go_straight(task, cost)?;
                return Ok(SearchEnd::AtGoal);
            }
            if self.failures() >= most_failures {
                return Ok(SearchEnd::Paused);
            }
            if !self.go_on(task, cost)? {
                return Ok(SearchEnd::NoWay);
            }
        }
        Ok(SearchEnd::AtGoal)
    }

    /// Goes on until the walk ends at the goal, which some walk of the cost does. Returns its cells.
    pub fn finish<B: BarTable>(
        mut self,
        task: &SearchTask<B>,
        cost: u32,
    ) -> Result<Vec<Cell>, OutOfMemory>
        requires small { cost < cost_bound }
        requires searching { IsSearching task.now cost self }
        requires arrives { CanArrive task.now cost (start_of task.now) }
        ensures { IfOk result (λ cells. IsWholeWalk task.now cost cells.items) }
    {
        while self.len() <= cost as usize {
            if self.is_direct(task, cost) {
                self.go_straight(task, cost)?;
                return Ok(self.into_cells());
            }
            if !self.go_on(task, cost)? {
                unreachable!();
            }
        }
        Ok(self.into_cells())
    }

    /// Returns the cells of the walk.
    pub fn into_cells(self) -> Vec<Cell>
        ensures { result.items ≡ self.cells }
    {
        let PathSearch { cells, failed: _ } = self;
        cells
    }
}

// Returns whether the f-value, the tick plus the distance of the cell, is at most the cost.
fn is_within<B: BarTable>(task: &SearchTask<B>, state: &State, cost: u32) -> bool
    requires small { state.now.tick ≤ most_path_cells }
    ensures within { IsTrue result → IsWithin task.now cost state.now }
    ensures no { result ≡ false → IsFree task.now.grid state.now.cell → CanArrive task.now cost state.now → ⊥ }
{
    match task.value(state) {
        Some(value) => value <= cost,
        None => false,
    }
}

/// Returns the walk of the cost from the start to the goal that is the lexicographically least by cell numbers.
pub fn least_walk<B: BarTable>(
    alloc: Global,
    task: &SearchTask<B>,
    cost: u32,
) -> Result<Vec<Cell>, OutOfMemory>
    requires small { cost < cost_bound }
    requires arrives { CanArrive task.now cost (start_of task.now) }
    requires within { IsWithin task.now cost (start_of task.now) }
    ensures { IfOk result (λ cells. IsWholeWalk task.now cost cells.items) }
{
    PathSearch::of(alloc, task.start(), cost)?.finish(task, cost)
}

/// Returns the same walk if it is found before the search has backtracked from so many states.
pub fn try_walk<B: BarTable>(
    alloc: Global,
    task: &SearchTask<B>,
    cost: u32,
    most_failures: usize,
) -> Result<Option<Vec<Cell>>, OutOfMemory>
    requires small { cost < cost_bound }
    requires within { IsWithin task.now cost (start_of task.now) }
    ensures { IfOk result (λ found. IfSome found (λ cells. IsWholeWalk task.now cost cells.items)) }
{
    let mut walk = PathSearch::of(alloc, task.start(), cost)?;
    match walk.search(task, cost, most_failures)? {
        SearchEnd::AtGoal => Ok(Some(walk.into_cells())),
        SearchEnd::Paused | SearchEnd::NoWay => Ok(None),
    }
}
