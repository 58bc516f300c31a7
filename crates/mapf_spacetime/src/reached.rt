//! Which states the frontier has reached, so that it reaches none twice.
ghost use Rattle.std.specs.Prelude.{◌≡◌, ◌<◌, ◌≤◌, ◌↔◌, ◌^◌, ◌++◌, ◌∷◌, [], false, length, take, IsTrue, IfOk, OnOk};
ghost use Rattle.std.specs.Prelude.{AllPairs, Contains};
ghost use Rattle.mapf_model.specs.Limits.{most_path_cells};
ghost use Rattle.mapf_spacetime.specs.Frontiers.{AreBelow, AreOfBase, IsBase};
ghost use Rattle.mapf_model.specs.States.{IsEarlier};
ghost use Rattle.mapf_spacetime.specs.Task.{state_at};
ghost use Rattle.mapf_model.specs.declared.state.State.{State};

use crate::sweep::Sweep;
use mapf_model::{Cell, OutOfMemory, State, Tick};
use std::alloc::Global;
use std::marker::Model;

// How much the base rises from one search to the next: more than the ticks of any path.
const STAMP_TICKS: u32 = 16_777_216;

/// The states that a search has reached, in the order in which they were reached. The states of one f-value have
/// different cells, so the tick at which a cell was reached last shows whether such a state is new.
#[derive(Drop)]
pub struct Reached {
    states: Vec<State>,
    // For each cell the sum of the base and of the tick at which the cell was reached last. The stamps of earlier
    // searches are below the base, so they needn't be cleared.
    stamps: Vec<u32>,
    base: u32,
}

impl Model for Reached {
    ghost use Rattle.std.specs.Prelude.{List};
    ghost use Rattle.mapf_spacetime.specs.Frontiers.{AreLast, AreOfBase, IsBase};
    ghost use Rattle.mapf_model.specs.declared.state.State.{State};

    ghost Value = { List State };

    ghost view = { λ reached. reached.states.items };

    ghost invariant = { λ reached. AreLast reached.base reached.stamps.items reached.states.items
        × AreOfBase reached.base reached.stamps.items × IsBase reached.base };
}

impl Reached {
    /// Returns a list of no states, of a grid without cells.
    pub fn new(alloc: Global) -> Reached
        ensures { result ≡ [] }
    {
        Reached {
            states: Vec::new(alloc),
            stamps: Vec::new(alloc),
            base: STAMP_TICKS,
        }
    }

    // Allocates memory for the states of a grid of so many cells.
    fn make_room(&mut self, cells: usize) -> Result<(), OutOfMemory>
        ensures { OnOk result (self.new ≡ self.old) }
    {
        if self.stamps.len() < cells {
            self.stamps.resize(cells, 0)?;
        }
        Ok(())
    }

    /// Takes the states of a sweep in place of its own, and allocates memory for a grid of so many cells.
    pub fn begin_with(&mut self, sweep: &mut Sweep, cells: usize) -> Result<(), OutOfMemory>
        ensures { OnOk result (self.new ≡ sweep.old.states) }
    {
        // The next base may remove all stamps, so room for them is made after it.
        self.base = next_base(&mut self.stamps, self.base);
        sweep.exchange_states(&mut self.states);
        self.make_room(cells)?;
        Ok(())
    }

    /// Keeps the first so many states, in rising order by tick and then by cell, each once.
    pub fn keep_sorted(&mut self, count: usize)
        ensures rising { AllPairs IsEarlier self.new }
        ensures same { (state : State) → Contains self.new state ↔ Contains (take count self.old) state }
    {
        self.base = next_base(&mut self.stamps, self.base);
        self.states.truncate(count);
        self.states.sort_unstable();
        self.states.dedup();
    }

    /// Returns how many states were reached.
    pub fn len(&self) -> usize
        ensures { result ≡ length self.now }
    {
        self.states.len()
    }

    /// Returns the states that were reached, in their order.
    pub fn states(&self) -> &[State]
        ensures { result.now ≡ self.now }
    {
        self.states.as_slice()
    }

    /// Returns whether the state is the one in which its cell was reached last.
    #[inline(always)]
    pub fn is_last(&self, state: &State) -> bool
        requires { state.now.tick ≤ most_path_cells }
        ensures { IsTrue result → Contains self.now state.now }
    {
        match self.stamps.get(state.cell.0 as usize) {
            Some(stamp) => *stamp == self.base + state.tick,
            None => false,
        }
    }

    // Enters the tick at which a cell was reached.
    #[inline(always)]
    fn note(&mut self, cell: Cell, tick: Tick)
        requires small { tick ≤ most_path_cells }
        requires reached { Contains self.old (state_at cell tick) }
        ensures { self.new ≡ self.old }
    {
        let place = cell.0 as usize;
        if place < self.stamps.len() {
            self.stamps[place] = self.base + tick;
        }
    }

    /// Adds a state, unless it is the one in which its cell was reached last. Returns whether it was added.
    pub fn add(&mut self, state: State) -> Result<bool, OutOfMemory>
        requires { state.tick ≤ most_path_cells }
        ensures new { IfOk result (λ new. IsTrue new → self.new ≡ self.old ++ state ∷ []) }
        ensures old { IfOk result (λ new. new ≡ false → (self.new ≡ self.old) × Contains self.old state) }
        ensures small { OnOk result (length self.new < 2 ^ 64) }
    {
        if self.is_last(&state) {
            return Ok(false);
        }
        self.states.push(state)?;
        self.note(state.cell, state.tick);
        Ok(true)
    }
}

// Returns a base that is greater than each stamp, of which none is left if the bases are used up.
fn next_base(stamps: &mut Vec<u32>, base: u32) -> u32
    requires base { IsBase base }
    requires stamps { AreOfBase base stamps.old.items }
    ensures base { IsBase result }
    ensures above { AreBelow result stamps.new.items }
{
    if base < u32::MAX - 2 * STAMP_TICKS {
        return base + STAMP_TICKS;
    }
    stamps.clear();
    STAMP_TICKS
}
