//! How the entries of one tick are found by their cells, for the judges of one agent and of two.
ghost use Rattle.std.specs.Prelude.{◌≡◌, ◌↔◌, ◌≤◌, ◌<◌, All, AllPairs, length, IsTrue, OnOk};
ghost use Rattle.mapf_model.specs.Labels.{entries_of};
ghost use Rattle.mapf_model.specs.Limits.{most_cells};
ghost use Rattle.mapf_model.specs.Printed.{IsBefore};
ghost use Rattle.mapf_single_labels.specs.Marks.{AreEarlier, AreMarked, AreNotEarlier, IsMarking, IsOf, IsOfTick};

use mapf_lemmas::{Amount, PricedEntry};
use mapf_model::{Cell, OutOfMemory, Tick};
use std::alloc::Global;
use std::marker::Model;

/// Marks by which an agent's entries of one tick are found: one for each cell of a grid. Marks are never cleared: a
/// mark counts only if the entry to which it leads is of the cell and of the tick. So one value serves for all lemmas
/// on a grid.
#[derive(Drop)]
pub struct EntryMarks {
    // For each cell, how far after the first entry of its tick the entry of the cell that was marked last is; 0 if none
    // was.
    offsets: Vec<u32>,
    // The index of the first entry of the tick, or where it would be.
    first: usize,
    tick: Tick,
}

impl Model for EntryMarks {
    ghost use Rattle.std.specs.Prelude.{◌≤◌, length};
    ghost use Rattle.mapf_model.specs.Limits.{most_cells};
    ghost use Rattle.mapf_single_labels.specs.Marks.{Marks};

    ghost Value = { Marks };

    ghost view = { λ marks. record { offsets = marks.offsets.items; first = marks.first; tick = marks.tick } };

    ghost invariant = { λ marks. length marks.offsets.items ≤ most_cells };
}

impl EntryMarks {
    /// Returns marks of no cells, which take no memory.
    pub fn new(alloc: Global) -> EntryMarks
        ensures { length result.offsets ≡ 0 }
    {
        EntryMarks {
            offsets: Vec::new(alloc),
            first: 0,
            tick: 0,
        }
    }

    /// Makes marks for the cells below this number, if they aren't made yet.
    pub fn make(&mut self, cells: usize) -> Result<(), OutOfMemory>
        requires { cells ≤ most_cells }
        ensures { OnOk result (cells ≤ length self.new.offsets) }
    {
        if self.offsets.len() < cells {
            self.offsets.resize(cells, 0)?;
        }
        Ok(())
    }

    /// Marks the entries of tick 0.
    pub fn begin(&mut self, entries: &[PricedEntry])
        requires rising { AllPairs IsBefore entries.now }
        requires cells { All (λ entry. entry.cell < length self.old.offsets) entries.now }
        ensures marking { IsMarking entries.now self.new }
        ensures tick { self.new.tick ≡ 0 }
        ensures size { length self.new.offsets ≡ length self.old.offsets }
    {
        self.first = 0;
        self.tick = 0;
        mark_from(&mut self.offsets, entries, 0, 0);
    }

    /// Marks the entries of this tick, in place of those of the marks' tick, which is not later.
    #[inline(always)]
    pub fn advance(&mut self, entries: &[PricedEntry], tick: Tick)
        requires rising { AllPairs IsBefore entries.now }
        requires marking { IsMarking entries.now self.old }
        requires later { self.old.tick ≤ tick }
        ensures marking { IsMarking entries.now self.new }
        ensures tick { self.new.tick ≡ tick }
        ensures size { length self.new.offsets ≡ length self.old.offsets }
    {
        if self.tick < tick {
            let first = first_at(entries, self.first, tick);
            self.first = first;
            self.tick = tick;
            mark_from(&mut self.offsets, entries, first, tick);
        }
    }

    /// Returns the tick whose entries are marked.
    #[inline(always)]
    pub fn tick(&self) -> Tick
        ensures { result ≡ self.now.tick }
    {
        self.tick
    }

    /// Returns the label of the cell's entry at the marks' tick, None if there is no such entry.
    #[inline(always)]
    pub fn entry(&self, entries: &[PricedEntry], cell: Cell) -> Option<Amount>
        requires rising { AllPairs IsBefore entries.now }
        requires marking { IsMarking entries.now self.now }
        ensures { result ≡ entries_of entries.now cell self.now.tick }
    {
        marked_entry(&self.offsets, entries, self.first, cell, self.tick)
    }
}

// Returns the label of the entry of this cell and tick, None if there is none. The mark of each entry of the tick says
// how far after the index `first` it is.
#[inline(always)]
fn marked_entry(
    offsets: &[u32],
    entries: &[PricedEntry],
    first: usize,
    cell: Cell,
    tick: Tick,
) -> Option<Amount>
    requires rising { AllPairs IsBefore entries.now }
    requires within { first ≤ length entries.now }
    requires marked { AreMarked offsets.now entries.now first tick }
    requires cells { All (λ entry. entry.cell < length offsets.now) entries.now }
    ensures { result ≡ entries_of entries.now cell tick }
{
    let place = cell.0 as usize;
    if place >= offsets.len() {
        return None;
    }
    match entries.get(first + offsets[place] as usize) {
        Some(entry) => {
            if is_of(entry, cell, tick) {
                Some(label_of(entry))
            } else {
                None
            }
        }
        None => None,
    }
}

// Returns whether the entry is of this cell and this tick.
#[inline(always)]
fn is_of(entry: &PricedEntry, cell: Cell, tick: Tick) -> bool
    ensures { IsTrue result ↔ IsOf cell tick entry.now }
{
    entry.cell == cell && entry.tick == tick
}

// Returns the first index, from this one on, whose entry isn't of an earlier tick; the number of entries if there is
// none.
fn first_at(entries: &[PricedEntry], from: usize, tick: Tick) -> usize
    requires rising { AllPairs IsBefore entries.now }
    requires within { from ≤ length entries.now }
    requires earlier { AreEarlier entries.now from tick }
    ensures within { result ≤ length entries.now }
    ensures earlier { AreEarlier entries.now result tick }
    ensures others { AreNotEarlier entries.now result tick }
{
    let mut place = from;
    while place < entries.len() {
        if tick_of(&entries[place]) >= tick {
            return place;
        }
        place += 1;
    }
    place
}

// Marks the entries of the tick. The first of them, if any, is at this index.
fn mark_from(offsets: &mut [u32], entries: &[PricedEntry], first: usize, tick: Tick)
    requires rising { AllPairs IsBefore entries.now }
    requires cells { All (λ entry. entry.cell < length offsets.old) entries.now }
    requires few { length offsets.old ≤ most_cells }
    requires within { first ≤ length entries.now }
    requires earlier { AreEarlier entries.now first tick }
    requires others { AreNotEarlier entries.now first tick }
    ensures { AreMarked offsets.new entries.now first tick }
{
    let mut place = first;
    while is_of_tick(entries, place, tick) {
        let cell = cell_of(&entries[place]);
        offsets[cell.0 as usize] = (place - first) as u32;
        place += 1;
    }
}

// Returns whether there is an entry at this index, and it is of the tick.
#[inline(always)]
fn is_of_tick(entries: &[PricedEntry], place: usize, tick: Tick) -> bool
    ensures { IsTrue result ↔ IsOfTick entries.now place tick }
{
    match entries.get(place) {
        Some(entry) => tick_of(entry) == tick,
        None => false,
    }
}

#[inline(always)]
fn cell_of(entry: &PricedEntry) -> Cell
    ensures { result ≡ entry.now.cell }
{
    entry.cell
}

#[inline(always)]
fn tick_of(entry: &PricedEntry) -> Tick
    ensures { result ≡ entry.now.tick }
{
    entry.tick
}

/// Returns the label of an entry.
#[inline(always)]
pub fn label_of(entry: &PricedEntry) -> Amount
    ensures { result ≡ entry.now.label }
{
    entry.label
}
