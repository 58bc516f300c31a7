//! The task of the search for one agent, and what the search asks of it: steps, f-values, constraints, and when the
//! agent may rest.
ghost use Rattle.std.specs.Prelude.{◌≡◌, ◌+◌, ◌-◌, ◌*◌, ◌<◌, ◌≤◌, ◌↔◌, ℕ, IfOk, IfSome, IfNone, IsTrue, Contains};
ghost use Rattle.std.specs.Prelude.{false, length};
ghost use Rattle.mapf_model.specs.declared.bar.Bar.{Bar};
ghost use Rattle.mapf_constraints.specs.BarSets.{AreBefore};
ghost use Rattle.mapf_model.specs.Distance.{IsDistance, IsUnreachable};
ghost use Rattle.mapf_model.specs.Grid.{IsFree, IsGridMap, Step};
ghost use Rattle.mapf_model.specs.Labels.{MayGo};
ghost use Rattle.mapf_model.specs.Limits.{most_cells, most_path_cells, split_ticks};
ghost use Rattle.mapf_model.specs.Neighbours.{neighbourhood};
ghost use Rattle.mapf_model.specs.Path.{IsCost, IsPath, IsTight, at};
ghost use Rattle.mapf_distance.specs.Distances.{IsLeastDescent, IsReachable};
ghost use Rattle.mapf_spacetime.specs.Task.{task_of, start_of, IsOpen, IsValue, IsBelow, IsBarredLater, MayRestFrom};

use mapf_constraints::BarTable;
use mapf_distance::Distances;
use mapf_model::{Agent, Cell, Grid, OutOfMemory, Path, State, Tick};
use std::alloc::Global;
use std::marker::Model;

/// The task of the search for one agent: a grid, the agent's start and goal, its constraints, and the distances to its
/// goal.
#[derive(Drop)]
pub struct SearchTask<'a, B: BarTable> {
    grid: &'a Grid,
    distances: &'a Distances,
    bars: &'a B,
    agent: Agent,
    // A tick from which on there are no constraints.
    horizon: Tick,
    // The last tick at which the goal is forbidden.
    last_on_goal: Option<Tick>,
}

impl<'a, B: BarTable> Model for SearchTask<'a, B> {
    ghost use Rattle.std.specs.Prelude.{◌≡◌, ◌≤◌};
    ghost use Rattle.mapf_model.specs.Bars.{AreBars};
    ghost use Rattle.mapf_model.specs.Grid.{IsGridMap};
    ghost use Rattle.mapf_model.specs.Limits.{split_ticks};
    ghost use Rattle.mapf_constraints.specs.BarSets.{AreBefore, IsLastOn};
    ghost use Rattle.mapf_spacetime.specs.Task.{Task, task_of};

    ghost Value = { Task };

    ghost view = { λ task. task_of task.grid.now task.agent (B.bars task.bars.now) };

    ghost invariant = { λ task. (task.distances.now.grid ≡ task.grid.now)
        × (task.distances.now.goal ≡ task.agent.goal) × AreBars (B.bars task.bars.now)
        × AreBefore task.horizon (B.bars task.bars.now) × (task.horizon ≤ split_ticks)
        × IsLastOn (B.bars task.bars.now) task.agent.goal task.last_on_goal
        × IsGridMap task.grid.now };
}

impl<'a, B: BarTable> SearchTask<'a, B> {
    /// Returns the task of the agent on the grid, under these constraints. The distances are those to its goal.
    pub fn of(
        grid: &'a Grid,
        distances: &'a Distances,
        bars: &'a B,
        agent: Agent,
    ) -> SearchTask<'a, B>
        requires grid { distances.now.grid ≡ grid.now }
        requires goal { distances.now.goal ≡ agent.goal }
        ensures { result ≡ task_of grid.now agent (B.bars bars.now) }
    {
        // Calling `width` lets the prover use its contract, which says that the grid is well formed.
        let _width = grid.width();
        SearchTask {
            grid,
            distances,
            bars,
            agent,
            horizon: bars.horizon(),
            last_on_goal: bars.last_on(agent.goal),
        }
    }

    /// Returns the agent's start.
    pub(crate) fn start(&self) -> Cell
        ensures start { result ≡ self.now.start }
        ensures shape { IsGridMap self.now.grid }
    {
        self.agent.start
    }

    /// Returns a shortest path of the agent, constraints aside.
    pub(crate) fn descend(&self, alloc: Global) -> Result<Path, OutOfMemory>
        requires { IsReachable self.now.grid self.now.goal self.now.start }
        ensures path { IfOk result (IsPath self.now.grid) }
        ensures start { IfOk result (λ path. at path 0 ≡ self.now.start) }
        ensures goal { IfOk result (λ path. at path (length path - 1) ≡ self.now.goal) }
        ensures shortest { IfOk result (λ path.
            IsDistance self.now.grid self.now.goal self.now.start (length path - 1)) }
        ensures cost { IfOk result (λ path. IsCost self.now.goal path (length path - 1)) }
        ensures tight { IfOk result IsTight }
        ensures least { IfOk result (IsLeastDescent self.now.grid self.now.goal) }
        ensures few { IfOk result (λ path. length path ≤ most_path_cells) }
    {
        self.distances.descend(alloc, self.agent.start)
    }

    /// Returns the agent's goal.
    pub(crate) fn goal(&self) -> Cell
        ensures { result ≡ self.now.goal }
    {
        self.agent.goal
    }

    /// Returns whether a constraint may forbid a step that leaves at the tick.
    pub(crate) fn may_bar(&self, tick: Tick) -> bool
        requires { tick ≤ most_path_cells }
        ensures { result ≡ false → (from to : ℕ) → Step self.now.grid from to
            → MayGo self.now.grid self.now.bars from to tick }
    {
        if tick >= self.horizon {
            return false;
        }
        self.bars.may_bar_at(tick) || self.bars.may_bar_at(tick + 1)
    }

    /// Returns the neighbourhood of a cell, in rising order. Where its cells are free, the agent may be there one tick
    /// after it is in the cell, constraints aside.
    #[inline(always)]
    pub(crate) fn beside(&self, cell: Cell) -> [Option<Cell>; 5]
        requires { IsFree self.now.grid cell }
        ensures cells { result ≡ neighbourhood self.now.grid.width cell }
        ensures wide { 0 < self.now.grid.width }
    {
        self.distances.beside(cell)
    }

    /// Returns the f-value: the tick plus the distance of the cell. None if no steps lead to the goal.
    #[inline(always)]
    pub(crate) fn value(&self, state: &State) -> Option<u32>
        requires { state.now.tick ≤ most_path_cells }
        ensures some { IfSome result (IsValue self.now state.now) }
        ensures none { IfNone result (IsUnreachable self.now.grid self.now.goal state.now.cell) }
    {
        match self.distances.get(state.cell) {
            Some(distance) => Some(state.tick + distance),
            None => None,
        }
    }

    /// Returns the cell of the least number that is one step from this one and at this distance from the goal, one less
    /// than the distance of this cell.
    #[inline(always)]
    pub(crate) fn nearer(&self, cell: Cell, distance: u32) -> Cell
        requires { IsDistance self.now.grid self.now.goal cell (distance + 1) }
        ensures step { Step self.now.grid cell result }
        ensures nearer { IsDistance self.now.grid self.now.goal result distance }
        ensures least { (other : ℕ) → Step self.now.grid cell other
            → IsDistance self.now.grid self.now.goal other distance → result ≤ other }
    {
        self.distances.nearer(cell, distance)
    }

    /// Returns whether the constraints allow the agent to go from the state to the cell.
    // A call of its own keeps the loops that ask small, so that they are unrolled.
    #[inline(never)]
    pub(crate) fn allows(&self, from: &State, to: Cell) -> bool
        requires small { from.now.tick ≤ most_path_cells }
        requires step { Step self.now.grid from.now.cell to }
        ensures yes { IsTrue result → MayGo self.now.grid self.now.bars from.now.cell to from.now.tick }
        ensures no { result ≡ false → MayGo self.now.grid self.now.bars from.now.cell to from.now.tick → ⊥ }
    {
        // Mostly the table knows without a search that no constraint forbids the step.
        if !self.bars.may_bar_arrival(to, from.tick + 1) {
            return true;
        }
        if self.bars.bars_cell(to, from.tick + 1) {
            return false;
        }
        !self.bars.bars_move(from.cell, to, from.tick)
    }

    /// Returns the same, if it is known whether a constraint may forbid a step at this tick.
    #[inline(always)]
    pub(crate) fn allows_if(&self, is_barred: bool, from: &State, to: Cell) -> bool
        requires small { from.now.tick ≤ most_path_cells }
        requires step { Step self.now.grid from.now.cell to }
        requires free { is_barred ≡ false → MayGo self.now.grid self.now.bars from.now.cell to from.now.tick }
        ensures yes { IsTrue result → MayGo self.now.grid self.now.bars from.now.cell to from.now.tick }
        ensures no { result ≡ false → MayGo self.now.grid self.now.bars from.now.cell to from.now.tick → ⊥ }
    {
        !is_barred || self.allows(from, to)
    }

    /// Returns whether the agent may be in its start at tick 0.
    pub(crate) fn allows_start(&self) -> bool
        ensures yes { IsTrue result → IsOpen self.now (start_of self.now) }
        ensures no { result ≡ false → Contains self.now.bars (Bar.Cell self.now.start 0) }
    {
        !self.bars.bars_cell(self.agent.start, 0)
    }

    /// Returns whether the agent may stay at its goal from the tick on.
    pub(crate) fn may_rest_from(&self, tick: Tick) -> bool
        ensures yes { IsTrue result → MayRestFrom self.now tick }
        ensures no { result ≡ false → IsBarredLater self.now tick }
    {
        match self.last_on_goal {
            Some(last) => last < tick,
            None => true,
        }
    }

    /// Returns whether the agent is at its goal in this state and may stay.
    #[inline(always)]
    pub(crate) fn is_arrival(&self, state: &State) -> bool
        ensures goal { IsTrue result → state.now.cell ≡ self.now.goal }
        ensures rest { IsTrue result → MayRestFrom self.now state.now.tick }
        ensures no { result ≡ false → state.now.cell ≡ self.now.goal → IsBarredLater self.now state.now.tick }
    {
        state.cell == self.agent.goal && self.may_rest_from(state.tick)
    }

    /// Returns whether the f-value of the state is below the cost.
    #[inline(always)]
    pub(crate) fn is_below(&self, state: &State, cost: u32) -> bool
        requires { state.now.tick ≤ most_path_cells }
        ensures yes { IsTrue result → IsBelow self.now cost state.now }
        ensures no { result ≡ false → IsBelow self.now cost state.now → ⊥ }
    {
        match self.value(state) {
            Some(value) => value < cost,
            None => false,
        }
    }

    /// Returns the tick after the last one at which a constraint forbids the goal, 0 if none does.
    pub(crate) fn rest(&self) -> Tick
        ensures early { (bound : ℕ) → AreBefore bound self.now.bars → result ≤ bound }
        ensures rest { (tick : ℕ) → result ≤ tick → MayRestFrom self.now tick }
    {
        match self.last_on_goal {
            Some(last) => last + 1,
            None => 0,
        }
    }

    /// Returns how many cells the grid has.
    pub(crate) fn cells(&self) -> u32
        ensures count { result ≡ self.now.grid.width * self.now.grid.height }
        ensures few { result ≤ most_cells }
    {
        self.grid.width() * self.grid.height()
    }

    /// Returns a tick from which on there are no constraints.
    pub(crate) fn horizon(&self) -> Tick
        ensures above { AreBefore result self.now.bars }
        ensures early { result ≤ split_ticks }
    {
        self.horizon
    }
}
