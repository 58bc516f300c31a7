//! Which states an agent can reach up to a bound on its cost, tick by tick. The search for one agent calls it, and goes
//! on with the frontier above the bound.
ghost use Rattle.std.specs.Prelude.{◌≡◌, ◌+◌, ◌*◌, ◌++◌, ◌∷◌, ◌<◌, ◌≤◌, ◌↔◌, ℕ, [], List, Some, false};
ghost use Rattle.std.specs.Prelude.{Contains, IfOk, IfSome, IfNone, IsTrue, OnOk, length, slice_index_or};
ghost use Rattle.mapf_model.specs.Grid.{IsGridMap, Step};
ghost use Rattle.mapf_model.specs.Labels.{MayGo};
ghost use Rattle.mapf_model.specs.Limits.{most_cells, most_path_cells};
ghost use Rattle.mapf_model.specs.Neighbours.{neighbourhood};
ghost use Rattle.mapf_spacetime.specs.CellSets.{HasNumber, HasNone};
ghost use Rattle.mapf_spacetime.specs.States.{IsBelowLimit};
ghost use Rattle.mapf_spacetime.specs.Sweeps.{AreNext, AreStatesAt, AreSwept, HasArrived, IsExtended, IsNoted};
ghost use Rattle.mapf_spacetime.specs.Sweeps.{IsSweep, IsUnderWay, IsWhole, MeetsGoal};
ghost use Rattle.mapf_spacetime.specs.Task.{IsBarredLater, IsBelow, IsWithin, MayRestFrom, cost_bound};
ghost use Rattle.mapf_spacetime.specs.Task.{start_of};
ghost use Rattle.mapf_model.specs.declared.state.State.{State};

use crate::cell_set::CellSet;
use crate::search_task::SearchTask;
use mapf_constraints::BarTable;
use mapf_model::{Cell, OutOfMemory, State, Tick};
use std::alloc::Global;
use std::marker::Model;
use std::mem;

/// The states that an agent can reach with an f-value, tick plus distance, of at most a bound: all those of a tick,
/// then those of the next.
#[derive(Drop)]
pub struct Sweep {
    // By tick and then by cell.
    states: Vec<State>,
    // Those of them whose f-value is below the cost at which the agent arrives.
    low: Vec<State>,
    next_cells: CellSet,
    bound: u32,
    // Whether a state was left out because its f-value is above the bound.
    is_cut: bool,
    // The states from this index on are those of the tick, whose steps weren't followed yet.
    first: usize,
    tick: Tick,
}

impl Model for Sweep {
    ghost use Rattle.mapf_spacetime.specs.Sweeps.{Sweeping};

    ghost Value = { Sweeping };

    ghost view = { λ sweep. record {
      states = sweep.states.items;
      low = sweep.low.items;
      next_cells = sweep.next_cells;
      bound = sweep.bound;
      is_cut = sweep.is_cut;
      first = sweep.first;
      tick = sweep.tick;
    } };
}

impl Sweep {
    /// Returns a sweep that has reached no state.
    pub fn new(alloc: Global) -> Sweep {
        Sweep {
            states: Vec::new(alloc),
            low: Vec::new(alloc),
            next_cells: CellSet::new(alloc),
            bound: 0,
            is_cut: false,
            first: 0,
            tick: 0,
        }
    }

    /// Returns the states that were reached, by tick and then by cell.
    pub fn states(&self) -> &[State]
        ensures { result.now ≡ self.now.states }
    {
        self.states.as_slice()
    }

    /// Returns those of them whose f-value is below the cost of the agent's path.
    pub fn low(&self) -> &[State]
        ensures { result.now ≡ self.now.low }
    {
        self.low.as_slice()
    }

    /// Returns the tick whose states were reached last.
    pub fn tick(&self) -> Tick
        ensures { result ≡ self.now.tick }
    {
        self.tick
    }

    /// Exchanges its states with a list, after which they mean nothing.
    pub fn exchange_states(&mut self, list: &mut Vec<State>)
        ensures { list.new.items ≡ self.old.states }
    {
        mem::swap(&mut self.states, list);
    }

    // Has the start alone, in the memory of the sweep before.
    fn clear(&mut self, start: State, bound: u32, cells: u32) -> Result<(), OutOfMemory>
        requires { cells ≤ most_cells }
        ensures states { OnOk result (self.new.states ≡ start ∷ []) }
        ensures bound { OnOk result (self.new.bound ≡ bound) }
        ensures cut { OnOk result (self.new.is_cut ≡ false) }
        ensures first { OnOk result (self.new.first ≡ 0) }
        ensures tick { OnOk result (self.new.tick ≡ 0) }
        ensures none { OnOk result (HasNone self.new.next_cells) }
        ensures room { OnOk result (cells ≤ 64 * length self.new.next_cells) }
    {
        self.states.clear();
        self.states.push(start)?;
        self.next_cells.clear(cells)?;
        self.bound = bound;
        self.is_cut = false;
        self.first = 0;
        self.tick = 0;
        Ok(())
    }

    // Notes the cell to which a step leads, unless the step is forbidden, or the f-value is above the bound.
    #[inline(always)]
    fn note<B: BarTable>(&mut self, task: &SearchTask<B>, from: &State, to: Cell, is_barred: bool)
        requires small { from.now.tick < most_path_cells }
        requires next { AreNext task.now from.now.tick self.old }
        requires reached { Contains self.old.states from.now }
        requires within { IsWithin task.now self.old.bound from.now }
        requires free { is_barred ≡ false → (other : ℕ) → Step task.now.grid from.now.cell other →
            MayGo task.now.grid task.now.bars from.now.cell other from.now.tick }
        requires wide { 0 < task.now.grid.width }
        requires beside { Contains (neighbourhood task.now.grid.width from.now.cell) (Some to) }
        requires shape { IsGridMap task.now.grid }
        requires room { task.now.grid.width * task.now.grid.height ≤ 64 * length self.old.next_cells }
        ensures next { AreNext task.now from.now.tick self.new }
        ensures extended { IsExtended self.old self.new }
        ensures noted { IsNoted task.now self.new from.now to }
    {
        let next = State {
            tick: from.tick + 1,
            cell: to,
        };
        let Some(value) = task.value(&next) else {
            return;
        };
        if !task.allows_if(is_barred, from, to) {
            return;
        }
        if value <= self.bound {
            self.next_cells.insert(to);
        } else {
            self.is_cut = true;
        }
    }

    // Follows each of the steps from the state.
    #[inline(always)]
    fn follow<B: BarTable>(&mut self, task: &SearchTask<B>, from: &State, is_barred: bool)
        requires small { from.now.tick < most_path_cells }
        requires next { AreNext task.now from.now.tick self.old }
        requires reached { Contains self.old.states from.now }
        requires within { IsWithin task.now self.old.bound from.now }
        requires free { is_barred ≡ false → (other : ℕ) → Step task.now.grid from.now.cell other →
            MayGo task.now.grid task.now.bars from.now.cell other from.now.tick }
        requires shape { IsGridMap task.now.grid }
        requires room { task.now.grid.width * task.now.grid.height ≤ 64 * length self.old.next_cells }
        ensures next { AreNext task.now from.now.tick self.new }
        ensures extended { IsExtended self.old self.new }
        ensures noted { (to : ℕ) → IsNoted task.now self.new from.now to }
    {
        for place in task.beside(from.cell) {
            if let Some(to) = place {
                self.note(task, from, to, is_barred);
            }
        }
    }

    // Follows each step from the states of the tick.
    fn follow_tick<B: BarTable>(&mut self, task: &SearchTask<B>)
        requires small { self.old.tick < most_path_cells }
        requires sweep { IsSweep task.now self.old.tick self.old.first self.old }
        requires none { HasNone self.old.next_cells }
        requires shape { IsGridMap task.now.grid }
        requires room { task.now.grid.width * task.now.grid.height ≤ 64 * length self.old.next_cells }
        ensures next { AreNext task.now self.old.tick self.new }
        ensures extended { IsExtended self.old self.new }
        ensures noted { (k : ℕ) → self.old.first ≤ k → k < length self.old.states → (to : ℕ) →
            IsNoted task.now self.new (slice_index_or self.old.states k (start_of task.now)) to }
    {
        let is_barred = task.may_bar(self.tick);
        for place in self.first..self.states.len() {
            let from = self.states[place];
            self.follow(task, &from, is_barred);
        }
    }

    // Reaches the next cells, at the tick.
    fn reach(&mut self) -> Result<(), OutOfMemory>
        ensures reached { OnOk result ((states : List State)
            × AreStatesAt self.old.tick self.old.next_cells states × (self.new.states ≡ self.old.states ++ states)) }
        ensures none { OnOk result (HasNone self.new.next_cells) }
        ensures room { OnOk result (length self.new.next_cells ≡ length self.old.next_cells) }
        ensures bound { OnOk result (self.new.bound ≡ self.old.bound) }
        ensures cut { OnOk result (self.new.is_cut ≡ self.old.is_cut) }
        ensures first { OnOk result (self.new.first ≡ self.old.first) }
        ensures tick { OnOk result (self.new.tick ≡ self.old.tick) }
    {
        let tick = self.tick;
        while let Some(cell) = self.next_cells.take_least() {
            self.states.push(State { tick, cell })?;
        }
        Ok(())
    }

    // Returns whether the goal is one of the next cells, and the agent may rest there from the tick on.
    fn arrives<B: BarTable>(&self, task: &SearchTask<B>) -> bool
        ensures goal { IsTrue result → HasNumber self.now.next_cells task.now.goal }
        ensures rest { IsTrue result → MayRestFrom task.now self.now.tick }
        ensures no { result ≡ false → HasNumber self.now.next_cells task.now.goal →
            IsBarredLater task.now self.now.tick }
    {
        self.next_cells.has(task.goal()) && task.may_rest_from(self.tick)
    }

    /// Begins with the start, and leaves out states of an f-value above the bound. Returns whether the agent is at its
    /// goal and may stay.
    pub fn begin<B: BarTable>(
        &mut self,
        task: &SearchTask<B>,
        bound: u32,
    ) -> Result<bool, OutOfMemory>
        requires shape { IsGridMap task.now.grid }
        requires within { IsWithin task.now bound (start_of task.now) }
        ensures arrives { IfOk result (λ arrives. IsTrue arrives → MeetsGoal task.now self.new.tick self.new) }
        ensures goes { IfOk result (λ arrives. arrives ≡ false → IsUnderWay task.now self.new) }
        ensures bound { OnOk result (self.new.bound ≡ bound) }
    {
        let start = State {
            tick: 0,
            cell: task.start(),
        };
        self.clear(start, bound, task.cells())?;
        Ok(task.is_arrival(&start))
    }

    /// Returns whether no state is at the tick. Then all states up to the bound were reached.
    pub fn is_over(&self) -> bool
        ensures { IsTrue result ↔ (length self.now.states ≤ self.now.first) }
    {
        self.first >= self.states.len()
    }

    /// Goes to the next tick. Returns whether the agent arrives then.
    pub fn advance<B: BarTable>(&mut self, task: &SearchTask<B>) -> Result<bool, OutOfMemory>
        requires small { self.old.bound < cost_bound }
        requires shape { IsGridMap task.now.grid }
        requires goes { IsUnderWay task.now self.old }
        requires some { self.old.first < length self.old.states }
        ensures arrives { IfOk result (λ arrives. IsTrue arrives → MeetsGoal task.now self.new.tick self.new) }
        ensures goes { IfOk result (λ arrives. arrives ≡ false → IsUnderWay task.now self.new) }
        ensures bound { OnOk result (self.new.bound ≡ self.old.bound) }
        ensures tick { OnOk result (self.new.tick ≡ self.old.tick + 1) }
    {
        let end = self.states.len();
        self.follow_tick(task);
        self.tick += 1;
        if self.arrives(task) {
            return Ok(true);
        }
        self.reach()?;
        self.first = end;
        Ok(false)
    }

    /// Keeps the states whose f-value is below the tick at which the agent arrives. Returns that tick.
    pub fn keep_low<B: BarTable>(&mut self, task: &SearchTask<B>) -> Result<Tick, OutOfMemory>
        requires small { self.old.bound < cost_bound }
        requires meets { MeetsGoal task.now self.old.tick self.old }
        ensures arrives { IfOk result (λ cost. HasArrived task.now cost self.new.low) }
        ensures limit { IfOk result (IsBelowLimit task.now) }
        ensures early { IfOk result (λ cost. cost ≤ self.old.bound) }
    {
        let cost = self.tick;
        self.keep_below(task, cost)?;
        Ok(cost)
    }

    // Keeps the states whose f-value is below the cost.
    fn keep_below<B: BarTable>(
        &mut self,
        task: &SearchTask<B>,
        cost: u32,
    ) -> Result<(), OutOfMemory>
        requires small { self.old.bound < cost_bound }
        requires meets { MeetsGoal task.now cost self.old }
        ensures swept { OnOk result (AreSwept task.now cost self.new.low) }
        ensures kept { OnOk result ((state : State) → Contains self.old.states state → IsBelow task.now cost state →
            Contains self.new.low state) }
    {
        self.low.clear();
        for place in 0..self.states.len() {
            let state = self.states[place];
            if task.is_below(&state, cost) {
                self.low.push(state)?;
            }
        }
        Ok(())
    }

    /// Returns whether a state that can be reached was left out.
    pub fn is_cut(&self) -> bool
        ensures { result ≡ self.now.is_cut }
    {
        self.is_cut
    }

    /// Reaches all states of an f-value of at most the bound. Returns the tick at which the agent arrives, and keeps
    /// the states below it; None if it doesn't arrive up to the bound.
    pub fn arrival<B: BarTable>(
        &mut self,
        task: &SearchTask<B>,
        bound: u32,
    ) -> Result<Option<Tick>, OutOfMemory>
        requires small { bound < cost_bound }
        requires shape { IsGridMap task.now.grid }
        requires within { IsWithin task.now bound (start_of task.now) }
        ensures arrives { IfOk result (λ found. IfSome found (λ cost. HasArrived task.now cost self.new.low)) }
        ensures limit { IfOk result (λ found. IfSome found (IsBelowLimit task.now)) }
        ensures early { IfOk result (λ found. IfSome found (λ cost. cost ≤ bound)) }
        ensures whole { IfOk result (λ found. IfNone found (IsWhole task.now self.new)) }
        ensures bound { IfOk result (λ found. IfNone found (self.new.bound ≡ bound)) }
    {
        let mut arrives = self.begin(task, bound)?;
        while !arrives && !self.is_over() {
            arrives = self.advance(task)?;
        }
        if arrives {
            return Ok(Some(self.keep_low(task)?));
        }
        Ok(None)
    }
}
