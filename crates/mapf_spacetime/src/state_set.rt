//! The states from which the search for a walk had to backtrack.
ghost use Rattle.std.specs.Prelude.{◌≡◌, ◌<◌, ◌↔◌, ◌^◌, ◌++◌, ◌∷◌, [], length, IsTrue, OnOk, Contains};

use indexmap::IndexSet;
use mapf_model::{Cell, OutOfMemory, State, Tick};
use std::alloc::Global;
use std::marker::Model;

// How many states are kept in an array, in which a look-up compares each. A search for a path has mostly no more.
const FEW: usize = 8;

/// A set of states, in the order in which they were added.
#[derive(Drop)]
pub struct StateSet {
    // The states that were added first, followed by entries that aren't used.
    few: [State; FEW],
    // How many entries of the array are used.
    count: usize,
    // The states that were added after the array was full.
    more: IndexSet<State>,
    // The tick of each state is from the first of these to the last.
    first: Tick,
    last: Tick,
}

impl Model for StateSet {
    ghost use Rattle.std.specs.Prelude.{◌≡◌, ◌<◌, ◌≤◌, ◌++◌, [], List, Contains, length, take};
    ghost use Rattle.mapf_model.specs.declared.state.State.{State};

    ghost Value = { List State };

    ghost view = { λ set. take set.count set.few ++ set.more.keys };

    ghost invariant = { λ set. (length set.few ≡ 8) × (set.count ≤ 8) × (set.count < 8 → set.more.keys ≡ [])
        × ((state : State) → Contains (take set.count set.few ++ set.more.keys) state
        → (set.first ≤ state.tick) × (state.tick ≤ set.last)) };
}

impl StateSet {
    /// Returns a set without states.
    pub fn new(alloc: Global) -> StateSet
        ensures { result ≡ [] }
    {
        let none = State {
            tick: 0,
            cell: Cell(0),
        };
        StateSet {
            few: [none; FEW],
            count: 0,
            more: IndexSet::new(alloc),
            first: Tick::MAX,
            last: 0,
        }
    }

    /// Returns the number of states.
    pub fn len(&self) -> usize
        ensures { result ≡ length self.now }
    {
        self.count + self.more.len()
    }

    /// Returns whether the state is in the set.
    #[inline(always)]
    pub fn has(&self, state: &State) -> bool
        ensures { IsTrue result ↔ Contains self.now state.now }
    {
        // Mostly no state of the set is near this tick.
        if state.tick < self.first || self.last < state.tick {
            return false;
        }
        self.holds(state)
    }

    // The same by comparing and hashing. A call of its own keeps the loops that ask small, so that they are unrolled.
    #[inline(never)]
    fn holds(&self, state: &State) -> bool
        ensures { IsTrue result ↔ Contains self.now state.now }
    {
        is_among(&self.few[..self.count], state) || (self.count == FEW && self.more.contains(state))
    }

    /// Adds a state that the set doesn't have.
    pub fn add(&mut self, state: State) -> Result<(), OutOfMemory>
        requires { Contains self.old state → ⊥ }
        ensures added { OnOk result (self.new ≡ self.old ++ state ∷ []) }
        ensures small { OnOk result (length self.new < 2 ^ 64) }
    {
        let tick = state.tick;
        let count = self.count;
        if count < FEW {
            self.few[count] = state;
            self.count = count + 1;
        } else {
            self.more.insert(state)?;
        }
        let first = self.first;
        self.first = first.min(tick);
        let last = self.last;
        self.last = last.max(tick);
        // Calling `len` lets the prover use its contract, which bounds it.
        let _count = self.more.len();
        Ok(())
    }
}

// Returns whether the state is one of these.
fn is_among(states: &[State], state: &State) -> bool
    ensures { IsTrue result ↔ Contains states.now state.now }
{
    for other in states {
        if other == state {
            return true;
        }
    }
    false
}
