//! The states reached by rising f-value, once the sweep has ended without an arrival. The search for one agent goes on
//! with them.
ghost use Rattle.std.specs.Prelude.{◌≡◌, ◌↔◌, ◌+◌, ◌<◌, ◌≤◌, ◌^◌, ℕ, [], ◌∷◌, List, Some, length, take, false};
ghost use Rattle.std.specs.Prelude.{IfOk, IfSome, IfNone, OnOk, IsTrue, Contains};
ghost use Rattle.mapf_model.specs.Grid.{Step};
ghost use Rattle.mapf_model.specs.Labels.{MayGo};
ghost use Rattle.mapf_model.specs.Limits.{most_path_cells, most_cells};
ghost use Rattle.mapf_model.specs.Neighbours.{neighbourhood};
ghost use Rattle.mapf_model.specs.declared.state.State.{State};
ghost use Rattle.mapf_spacetime.specs.Task.{Task, IsWithin, cost_bound};
ghost use Rattle.mapf_spacetime.specs.Sweeps.{AreAll, HasArrived, IsWhole};
ghost use Rattle.mapf_spacetime.specs.declared.frontier.Expansion.TheVariants.{Paused};
ghost use Rattle.mapf_spacetime.specs.Expansions.{IsExpanded};
ghost use Rattle.mapf_spacetime.specs.Frontiers.{AreLowReached, IsAtGoal, IsExhausted, IsFrontier, Keeps, NoneWait};
ghost use Rattle.mapf_spacetime.specs.Frontiers.{Takes, raised, takes_left, with_later, with_next, with_open};
ghost use Rattle.mapf_spacetime.specs.Frontiers.{with_reached};

use crate::reached::Reached;
use crate::search_task::SearchTask;
use crate::sweep::Sweep;
use mapf_constraints::BarTable;
use mapf_model::{Cell, OutOfMemory, State};
use std::alloc::Global;
use std::marker::Model;
use std::mem;

/// How far the open states of a cost were taken.
#[derive(Drop)]
pub enum Expansion {
    /// The agent arrives at the cost.
    Arrives,
    /// The agent doesn't arrive at the cost, and no state is open any more.
    Done,
    /// So many states were taken, and others may be open.
    Paused,
}

/// The states that a search has reached, in rising order of their f-values: tick plus distance.
#[derive(Drop)]
pub struct Frontier {
    reached: Reached,
    open_states: Vec<State>,
    // The states of the next cost, and those of the cost after it: a step raises the f-value by at most two.
    next_states: Vec<State>,
    later_states: Vec<State>,
    cost: u32,
    // How many of the reached states, the first ones, have an f-value below the cost.
    below: usize,
}

impl Model for Frontier {
    ghost use Rattle.mapf_spacetime.specs.Frontiers.{States};

    ghost Value = { States };

    ghost view = { λ f. record {
      reached = f.reached;
      open_states = f.open_states.items;
      next_states = f.next_states.items;
      later_states = f.later_states.items;
      cost = f.cost;
      below = f.below;
    } };
}

impl Frontier {
    /// Returns a frontier with no state.
    pub fn new(alloc: Global) -> Frontier {
        Frontier {
            reached: Reached::new(alloc),
            open_states: Vec::new(alloc),
            next_states: Vec::new(alloc),
            later_states: Vec::new(alloc),
            cost: 0,
            below: 0,
        }
    }

    /// Returns the cost whose states are followed now.
    pub fn cost(&self) -> u32
        ensures { result ≡ self.now.cost }
    {
        self.cost
    }

    /// Returns the states that were reached.
    pub fn reached(&self) -> &[State]
        ensures { result.now ≡ self.now.reached }
    {
        self.reached.states()
    }

    #[inline(always)]
    fn take_open(&mut self) -> Option<State>
        ensures some { IfSome result (λ state. self.old ≡ with_open self.new state) }
        ensures none { IfNone result ((self.old.open_states ≡ []) × (self.new ≡ self.old)) }
        ensures small { length self.old.open_states < 2 ^ 64 }
    {
        self.open_states.pop()
    }

    // Reaches a state. Returns whether it is new.
    #[inline(always)]
    fn reach(&mut self, state: State) -> Result<bool, OutOfMemory>
        requires { state.tick ≤ most_path_cells }
        ensures new { IfOk result (λ new. IsTrue new → self.new ≡ with_reached self.old state) }
        ensures old { IfOk result (λ new. new ≡ false → (self.new ≡ self.old) × Contains self.old.reached state) }
        ensures small { OnOk result (length self.new.reached < 2 ^ 64) }
    {
        let new = self.reached.add(state)?;
        Ok(new)
    }

    // Returns whether the state is the one in which its cell was reached last.
    #[inline(always)]
    fn was_reached(&self, state: &State) -> bool
        requires { state.now.tick ≤ most_path_cells }
        ensures { IsTrue result → Contains self.now.reached state.now }
    {
        self.reached.is_last(state)
    }

    /// Returns whether no state waits for a greater cost.
    pub fn none_waits(&self) -> bool
        ensures { IsTrue result ↔ NoneWait self.now }
    {
        self.next_states.is_empty() && self.later_states.is_empty()
    }

    /// Raises the cost by one when no state is open, and opens the states that waited for it.
    pub fn raise(&mut self)
        requires { self.old.cost < most_path_cells }
        ensures { self.old.open_states ≡ [] → self.new ≡ raised self.old }
    {
        self.cost += 1;
        self.below = self.reached.len();
        mem::swap(&mut self.open_states, &mut self.next_states);
        mem::swap(&mut self.next_states, &mut self.later_states);
    }

    // Keeps a state until the cost equals its f-value.
    #[inline(always)]
    fn place(&mut self, state: State, value: u32) -> Result<(), OutOfMemory>
        requires { self.old.cost < most_path_cells }
        ensures level { OnOk result (value ≤ self.old.cost → self.new ≡ with_open self.old state) }
        ensures next { OnOk result (value ≡ self.old.cost + 1 → self.new ≡ with_next self.old state) }
        ensures later { OnOk result (self.old.cost + 1 < value → self.new ≡ with_later self.old state) }
    {
        if value <= self.cost {
            self.open_states.push(state)?;
        } else if value == self.cost + 1 {
            self.next_states.push(state)?;
        } else {
            self.later_states.push(state)?;
        }
        Ok(())
    }

    // Takes the step from the state to a cell of its neighbourhood, unless it is forbidden, leads to a state that was
    // reached, or the goal can't be reached from there.
    #[inline(always)]
    fn take<B: BarTable>(
        &mut self,
        task: &SearchTask<B>,
        from: &State,
        to: Cell,
        is_barred: bool,
    ) -> Result<(), OutOfMemory>
        requires small { self.old.cost < most_path_cells }
        requires reached { Contains self.old.reached from.now }
        requires within { IsWithin task.now self.old.cost from.now }
        requires low { AreLowReached task.now from.now self.old }
        requires free { is_barred ≡ false → (other : ℕ) → Step task.now.grid from.now.cell other →
            MayGo task.now.grid task.now.bars from.now.cell other from.now.tick }
        requires wide { 0 < task.now.grid.width }
        requires beside { Contains (neighbourhood task.now.grid.width from.now.cell) (Some to) }
        ensures { OnOk result (Takes task.now from.now to self.old self.new) }
    {
        let next = State {
            tick: from.tick + 1,
            cell: to,
        };
        if self.was_reached(&next) {
            return Ok(());
        }
        let Some(value) = task.value(&next) else {
            return Ok(());
        };
        if value < self.cost || !task.allows_if(is_barred, from, to) {
            return Ok(());
        }
        self.place(next, value)?;
        Ok(())
    }

    // Takes each of the steps from a state.
    fn take_all<B: BarTable>(
        &mut self,
        task: &SearchTask<B>,
        from: &State,
    ) -> Result<(), OutOfMemory>
        requires small { self.old.cost < most_path_cells }
        requires reached { Contains self.old.reached from.now }
        requires within { IsWithin task.now self.old.cost from.now }
        requires low { AreLowReached task.now from.now self.old }
        ensures frontier { (busy : List State) → IsFrontier task.now (from.now ∷ busy) self.old →
            OnOk result (IsFrontier task.now busy self.new) }
        ensures keeps { OnOk result (Keeps self.old self.new) }
    {
        let is_barred = task.may_bar(from.tick);
        for place in task.beside(from.cell) {
            if let Some(to) = place {
                self.take(task, from, to, is_barred)?;
            }
        }
        Ok(())
    }

    /// Begins with the states of a sweep that didn't arrive: they are below the cost, and the steps from them to states
    /// of a greater f-value are taken. The sweep has other states afterwards, which mean nothing.
    pub fn begin_above<B: BarTable>(
        &mut self,
        task: &SearchTask<B>,
        sweep: &mut Sweep,
        cost: u32,
    ) -> Result<(), OutOfMemory>
        requires whole { IsWhole task.now sweep.old }
        requires cost { cost ≡ sweep.old.bound + 1 }
        requires small { cost < cost_bound }
        ensures frontier { OnOk result (IsFrontier task.now [] self.new) }
        ensures cost { OnOk result (self.new.cost ≡ cost) }
    {
        self.reached.begin_with(sweep, task.cells() as usize)?;
        self.open_states.clear();
        self.next_states.clear();
        self.later_states.clear();
        self.cost = cost;
        self.below = self.reached.len();
        // A step raises the f-value by at most two, so from states further below only states of the sweep are reached.
        let inner = cost.saturating_sub(2);
        for place in 0..self.below {
            let from = self.reached.states()[place];
            if !task.is_below(&from, inner) {
                self.take_all(task, &from)?;
            }
        }
        Ok(())
    }

    /// Takes so many open states, or all of them and those of the same f-value that they lead to, until the agent
    /// arrives.
    pub fn expand<B: BarTable>(
        &mut self,
        task: &SearchTask<B>,
        most: usize,
    ) -> Result<Expansion, OutOfMemory>
        requires small { self.old.cost < most_path_cells }
        requires frontier { IsFrontier task.now [] self.old }
        ensures expanded { IfOk result (IsExpanded task.now self.new) }
        ensures cost { OnOk result (self.new.cost ≡ self.old.cost) }
        ensures fewer { IfOk result (λ e. e ≡ Paused → takes_left self.new + most ≤ takes_left self.old) }
    {
        for _ in 0..most {
            let Some(state) = self.take_open() else {
                return Ok(Expansion::Done);
            };
            if task.is_arrival(&state) {
                return Ok(Expansion::Arrives);
            }
            if self.reach(state)? {
                self.take_all(task, &state)?;
            }
        }
        Ok(Expansion::Paused)
    }

    /// Keeps the states below the cost at which the agent arrives, by tick and then by cell.
    pub fn keep_low(&mut self)
        ensures arrives { (task : Task) → IsAtGoal task self.old → HasArrived task self.new.cost self.new.reached }
        ensures cost { self.new.cost ≡ self.old.cost }
    {
        self.reached.keep_sorted(self.below);
    }

    /// Keeps all states, which are all that can be reached, by tick and then by cell.
    pub fn keep_all(&mut self)
        ensures all { (task : Task) → IsExhausted task self.old → AreAll task self.new.cost self.new.reached }
        ensures cost { self.new.cost ≡ self.old.cost }
    {
        self.reached.keep_sorted(self.reached.len());
    }
}
