//! The cells that a sweep reaches at its next tick, from which it takes them in rising order.
ghost use Rattle.std.specs.Prelude.{◌≡◌, ◌≢◌, ◌*◌, ◌/◌, ◌<◌, ◌≤◌, ◌⊎◌, ◌↔◌, ℕ, length, slice_index};
ghost use Rattle.std.specs.Prelude.{IfSome, IfNone, IsTrue, OnOk};
ghost use Rattle.mapf_model.specs.Limits.{most_cells};
ghost use Rattle.mapf_spacetime.specs.CellSets.{AreEmptyOutside, HasNumber, HasNone, IsShort};

use crate::number_set::NumberSet;
use mapf_model::{Cell, OutOfMemory};
use std::alloc::Global;
use std::marker::Model;

/// A set of cells from which the least is taken again and again: a bit for each cell. The places of the words that
/// aren't 0 are in a set of their own, so the words between two cells that are far apart needn't be looked at.
#[derive(Drop)]
pub struct CellSet {
    words: Vec<u64>,
    // The places of the words that aren't 0.
    filled: NumberSet,
}

impl Model for CellSet {
    ghost use Rattle.std.specs.Prelude.{List, ℕ};
    ghost use Rattle.mapf_spacetime.specs.CellSets.{AreFilled, IsShort};

    ghost Value = { List ℕ };

    ghost view = { λ set. set.words.items };

    ghost invariant = { λ set. AreFilled set.words.items set.filled × IsShort set.words.items };
}

impl CellSet {
    /// Returns a set of no cells, with room for none.
    pub fn new(alloc: Global) -> CellSet {
        CellSet {
            words: Vec::new(alloc),
            filled: NumberSet::new(alloc),
        }
    }

    /// Removes all cells, and makes room for those below this number.
    pub fn clear(&mut self, cells: u32) -> Result<(), OutOfMemory>
        requires { cells ≤ most_cells }
        ensures none { OnOk result (HasNone self.new) }
        ensures room { OnOk result (cells ≤ 64 * length self.new) }
    {
        // Only the proof needs `from`: the places come in rising order, and it is greater than those that came.
        let mut from = 0u64;
        while let Some(place) = self.filled.take_least() {
            self.words[place as usize] = 0;
            from = u64::from(place) + 1;
        }
        let words = cells.div_ceil(64);
        if self.words.len() < words as usize {
            self.filled.clear(words)?;
            self.words.resize(words as usize, 0)?;
        }
        Ok(())
    }

    /// Returns whether the cell is in the set.
    pub fn has(&self, cell: Cell) -> bool
        ensures { IsTrue result ↔ HasNumber self.now cell }
    {
        match self.words.get(cell.0 as usize / 64) {
            Some(word) => (word >> (cell.0 % 64)) & 1 == 1,
            None => false,
        }
    }

    /// Adds a cell.
    #[inline(always)]
    pub fn insert(&mut self, cell: Cell)
        requires { cell < 64 * length self.old }
        ensures here { HasNumber self.new cell }
        ensures kept { (other : ℕ) → HasNumber self.old other → HasNumber self.new other }
        ensures only { (other : ℕ) → HasNumber self.new other → HasNumber self.old other ⊎ (other ≡ cell) }
        ensures room { length self.new ≡ length self.old }
    {
        let was_filled = add_to(&mut self.words, cell.0);
        if was_filled {
            return;
        }
        self.filled.insert(cell.0 / 64);
    }

    /// Removes and returns the cell of the least number, None if there is none.
    #[inline(always)]
    pub fn take_least(&mut self) -> Option<Cell>
        ensures some { IfSome result (HasNumber self.old) }
        ensures least { IfSome result (λ cell. (other : ℕ) → HasNumber self.old other → cell ≤ other) }
        ensures kept { IfSome result (λ cell. (other : ℕ)
            → HasNumber self.old other → other ≢ cell → HasNumber self.new other) }
        ensures only { IfSome result (λ cell. (other : ℕ)
            → HasNumber self.new other → HasNumber self.old other × (other ≢ cell)) }
        ensures none { IfNone result (HasNone self.old) }
        ensures same { IfNone result (self.new ≡ self.old) }
        ensures room { length self.new ≡ length self.old }
    {
        let place = self.filled.least()?;
        let (number, is_left) = take_from(&mut self.words, place);
        if is_left {
            return Some(Cell(number));
        }
        self.filled.take_least();
        Some(Cell(number))
    }
}

// Sets the bit of this number. Returns whether its word wasn't 0 before.
#[inline(always)]
fn add_to(words: &mut [u64], number: u32) -> bool
    requires { number < 64 * length words.old }
    ensures here { HasNumber words.new number }
    ensures kept { (other : ℕ) → HasNumber words.old other → HasNumber words.new other }
    ensures only { (other : ℕ) → HasNumber words.new other → HasNumber words.old other ⊎ (other ≡ number) }
    ensures filled { IsTrue result ↔ (slice_index words.old (number / 64) ≢ 0) }
    ensures some { slice_index words.new (number / 64) ≢ 0 }
    ensures others { (other : ℕ) → other ≢ number / 64 → slice_index words.new other ≡ slice_index words.old other }
{
    let place = number as usize / 64;
    let word = words[place];
    words[place] = word | (1 << (number % 64));
    word != 0
}

// Removes the least bit of the word at this place, which is the first word that isn't 0. Returns the number of that bit
// in the set, and whether the word has more bits.
#[inline(always)]
fn take_from(words: &mut [u64], place: u32) -> (u32, bool)
    requires inside { place < length words.old }
    requires some { slice_index words.old place ≢ 0 }
    requires first { AreEmptyOutside words.old place (length words.old) }
    requires short { IsShort words.old }
    ensures some { HasNumber words.old result.0 }
    ensures least { (other : ℕ) → HasNumber words.old other → result.0 ≤ other }
    ensures kept { (other : ℕ) → HasNumber words.old other → other ≢ result.0 → HasNumber words.new other }
    ensures only { (other : ℕ) → HasNumber words.new other → HasNumber words.old other × (other ≢ result.0) }
    ensures left { IsTrue result.1 ↔ (slice_index words.new place ≢ 0) }
    ensures others { (other : ℕ) → other ≢ place → slice_index words.new other ≡ slice_index words.old other }
{
    let word = words[place as usize];
    let bit = word.trailing_zeros();
    let rest = word & (word - 1);
    words[place as usize] = rest;
    (place * 64 + bit, rest != 0)
}
