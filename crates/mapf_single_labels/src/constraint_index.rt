//! An index of the constraints of one agent, by what is looked up.
ghost use Rattle.std.specs.Prelude.{◌≡◌, ◌↔◌, ◌++◌, ◌∷◌, [], List, Contains, OnOk, OnErr, IsTrue};
ghost use Rattle.mapf_lemmas.specs.declared.constraint.PathConstraint.{PathConstraint};
ghost use Rattle.mapf_lemmas.specs.declared.constraint.PathConstraint.TheVariants.{NotMove};
ghost use Rattle.mapf_lemmas.specs.Constraints.{demanded_cost};
ghost use Rattle.mapf_single_labels.specs.TaskConstraints.{IsBarredFrom, IsFirstClear, IsForbidden, IsForbiddenFrom};
ghost use Rattle.mapf_single_labels.specs.TaskConstraints.{IsLeastMost, IsOn, least_of};

use mapf_lemmas::PathConstraint;
use mapf_model::{Bar, Cell, OutOfMemory, Tick};
use std::alloc::Global;
use std::collections::{BTreeMap, BTreeSet};

/// The constraints of one agent, in time that grows with the logarithm of their number, whatever they are.
#[derive(Drop)]
pub struct ConstraintIndex {
    // The cells and the moves that are forbidden at one tick: cells come before moves, by cell and then by tick.
    bars: BTreeSet<Bar>,
    // For each cell that is to be clear the first tick from which on it is.
    clears: BTreeMap<Cell, Tick>,
    // The least cost that is allowed at most, if one is.
    most: Option<u32>,
    // The greatest cost that is demanded at least, 0 if none is.
    least: u32,
}

impl ConstraintIndex {
    ghost use Rattle.mapf_single_labels.specs.ConstraintIndex.{Indexes};

    /// Returns the index of no constraints, which takes no memory.
    pub fn new(alloc: Global) -> ConstraintIndex
        ensures { Indexes [] result }
    {
        ConstraintIndex {
            bars: BTreeSet::new(alloc),
            clears: BTreeMap::new(alloc),
            most: None,
            least: 0,
        }
    }

    /// Adds a constraint.
    pub fn add(&mut self, constraint: &PathConstraint) -> Result<(), OutOfMemory>
        ensures added { OnOk result ((listed : List PathConstraint) → Indexes listed self.old
            → Indexes (listed ++ constraint.now ∷ []) self.new) }
        ensures unchanged { OnErr result ((listed : List PathConstraint) → Indexes listed self.old
            → Indexes listed self.new) }
    {
        match *constraint {
            PathConstraint::NotAt { cell, tick } => {
                self.bars.insert(Bar::Cell { cell, tick })?;
            }
            PathConstraint::NotMove { from, to, tick } => {
                self.bars.insert(Bar::Move { from, to, tick })?;
            }
            PathConstraint::Clear { cell, tick } => {
                let first = least_of(self.first_clear(cell), tick);
                self.clears.insert(cell, first)?;
            }
            PathConstraint::Most { ticks } => {
                self.most = Some(least_of(self.most, ticks));
            }
            PathConstraint::Least { ticks } => self.least = self.least.max(ticks),
        }
        Ok(())
    }

    /// Returns whether some constraint forbids the agent to be in the cell at the tick, whatever its path costs.
    pub fn forbids(&self, cell: Cell, tick: Tick) -> bool
        ensures { (listed : List PathConstraint) → Indexes listed self.now
            → IsTrue result ↔ IsForbidden listed cell tick }
    {
        if self.bars.contains(&Bar::Cell { cell, tick }) {
            return true;
        }
        match self.first_clear(cell) {
            Some(first) => first <= tick,
            None => false,
        }
    }

    /// Returns whether some constraint forbids the agent to be in the cell at the tick or later.
    pub fn forbids_from(&self, cell: Cell, tick: Tick) -> bool
        ensures { (listed : List PathConstraint) → Indexes listed self.now
            → IsTrue result ↔ IsForbiddenFrom listed cell tick }
    {
        self.first_clear(cell).is_some() || self.has_from(cell, tick)
    }

    // Returns whether a constraint on one tick forbids the cell at this tick or later.
    fn has_from(&self, cell: Cell, tick: Tick) -> bool
        ensures { (listed : List PathConstraint) → Indexes listed self.now
            → IsTrue result ↔ IsBarredFrom listed cell tick }
    {
        match self.bars.range(Bar::Cell { cell, tick }..).next() {
            Some(&bar) => is_on(bar, cell),
            None => false,
        }
    }

    // Returns the first tick from which on the cell is to be clear.
    fn first_clear(&self, cell: Cell) -> Option<Tick>
        ensures { (listed : List PathConstraint) → Indexes listed self.now → IsFirstClear listed cell result }
    {
        self.clears.get(&cell).copied()
    }

    /// Returns whether a constraint forbids the agent to go from the one cell at the tick to the other.
    pub fn forbids_move(&self, from: Cell, to: Cell, tick: Tick) -> bool
        ensures { (listed : List PathConstraint) → Indexes listed self.now
            → IsTrue result ↔ Contains listed (NotMove from to tick) }
    {
        self.bars.contains(&Bar::Move { from, to, tick })
    }

    /// Returns the least cost that some constraint allows at most, None if no constraint does.
    pub fn most(&self) -> Option<u32>
        ensures { (listed : List PathConstraint) → Indexes listed self.now → IsLeastMost listed result }
    {
        self.most
    }

    /// Returns the greatest cost that some constraint demands at least, 0 if no constraint does.
    #[inline(always)]
    pub fn least(&self) -> u32
        ensures { (listed : List PathConstraint) → Indexes listed self.now → result ≡ demanded_cost listed }
    {
        self.least
    }
}

// Returns the lesser of the two numbers, or the second if there is no first.
fn least_of(old: Option<u32>, new: u32) -> u32
    ensures { result ≡ least_of old new }
{
    match old {
        Some(old) => old.min(new),
        None => new,
    }
}

// Returns whether it is a constraint on the cell.
fn is_on(bar: Bar, cell: Cell) -> bool
    ensures { IsTrue result ↔ IsOn cell bar }
{
    match bar {
        Bar::Cell { cell: at, .. } => at == cell,
        Bar::Move { .. } => false,
    }
}
