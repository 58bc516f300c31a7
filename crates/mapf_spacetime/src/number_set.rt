//! A set of numbers from which the least is taken, for `CellSet`.
ghost use Rattle.std.specs.Prelude.{[], ◌≡◌, ◌≢◌, ◌*◌, ◌<◌, ◌≤◌, ◌⊎◌, ℕ, length, IfSome, IfNone, OnOk};
ghost use Rattle.mapf_model.specs.Limits.{most_cells};
ghost use Rattle.mapf_spacetime.specs.CellSets.{HasNumber, HasNone};

use mapf_model::OutOfMemory;
use std::alloc::Global;
use std::marker::Model;

/// A set of numbers from which the least is taken again and again: a bit for each number.
#[derive(Drop)]
pub struct NumberSet {
    words: Vec<u64>,
    // The words before this one are 0, and so are those from `end` on.
    first: usize,
    end: usize,
}

impl Model for NumberSet {
    ghost use Rattle.std.specs.Prelude.{List, ℕ};
    ghost use Rattle.mapf_spacetime.specs.CellSets.{AreEmptyOutside, IsShort};

    ghost Value = { List ℕ };

    ghost view = { λ set. set.words.items };

    ghost invariant = { λ set. AreEmptyOutside set.words.items set.first set.end × IsShort set.words.items };
}

impl NumberSet {
    /// Returns a set of no numbers, with room for none.
    pub fn new(alloc: Global) -> NumberSet
        ensures { result ≡ [] }
    {
        NumberSet {
            words: Vec::new(alloc),
            first: 0,
            end: 0,
        }
    }

    /// Removes all numbers, also if it fails, and makes room for those below this count.
    pub fn clear(&mut self, count: u32) -> Result<(), OutOfMemory>
        requires { count ≤ most_cells }
        ensures none { HasNone self.new }
        ensures room { OnOk result (count ≤ 64 * length self.new) }
        ensures grown { length self.old ≤ length self.new }
    {
        let words = count.div_ceil(64) as usize;
        for place in self.first..self.end {
            self.words[place] = 0;
        }
        if self.words.len() < words {
            self.words.resize(words, 0)?;
        }
        self.first = self.words.len();
        self.end = 0;
        Ok(())
    }

    /// Adds a number.
    #[inline(always)]
    pub fn insert(&mut self, number: u32)
        requires { number < 64 * length self.old }
        ensures here { HasNumber self.new number }
        ensures kept { (other : ℕ) → HasNumber self.old other → HasNumber self.new other }
        ensures only { (other : ℕ) → HasNumber self.new other → HasNumber self.old other ⊎ (other ≡ number) }
        ensures room { length self.new ≡ length self.old }
    {
        let place = number as usize / 64;
        self.words[place] |= 1 << (number % 64);
        self.first = self.first.min(place);
        self.end = self.end.max(place + 1);
    }

    /// Returns the least number, None if there is none.
    #[inline(always)]
    pub fn least(&mut self) -> Option<u32>
        ensures some { IfSome result (HasNumber self.old) }
        ensures least { IfSome result (λ number. (other : ℕ) → HasNumber self.old other → number ≤ other) }
        ensures none { IfNone result (HasNone self.old) }
        ensures same { self.new ≡ self.old }
    {
        while self.first < self.end {
            let word = self.words[self.first];
            if word != 0 {
                return Some(self.first as u32 * 64 + word.trailing_zeros());
            }
            self.first = self.first + 1;
        }
        self.first = self.words.len();
        self.end = 0;
        None
    }

    /// Removes and returns the least number, None if there is none.
    #[inline(always)]
    pub fn take_least(&mut self) -> Option<u32>
        ensures some { IfSome result (HasNumber self.old) }
        ensures least { IfSome result (λ number. (other : ℕ) → HasNumber self.old other → number ≤ other) }
        ensures kept { IfSome result (λ number. (other : ℕ)
            → HasNumber self.old other → other ≢ number → HasNumber self.new other) }
        ensures only { IfSome result (λ number. (other : ℕ)
            → HasNumber self.new other → HasNumber self.old other × (other ≢ number)) }
        ensures none { IfNone result (HasNone self.old) }
        ensures same { IfNone result (self.new ≡ self.old) }
        ensures room { length self.new ≡ length self.old }
    {
        while self.first < self.end {
            let word = self.words[self.first];
            if word != 0 {
                let bit = word.trailing_zeros();
                self.words[self.first] = word & (word - 1);
                return Some(self.first as u32 * 64 + bit);
            }
            self.first += 1;
        }
        self.first = self.words.len();
        self.end = 0;
        None
    }
}
