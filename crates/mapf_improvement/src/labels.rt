//! The states that a path search has reached: cells, each with a time in which nobody else is there.
use mapf_model::{Cell, OutOfMemory, Tick};
use std::alloc::Global;

// No label.
const NO_LABEL: u32 = u32::MAX;

/// A state: a cell, and a time in which nobody else is there and the agent can be.
#[derive(Clone, Copy, Debug, PartialEq, Eq)]
pub struct Reached {
    pub cell: Cell,
    /// The earliest tick at which the agent can be there, as far as is known.
    pub arrival: Tick,
    /// The tick at which somebody else comes, or `FOREVER`.
    pub end: Tick,
    /// The number of the label that it comes from, of the start its own.
    pub before: u32,
}

/// A state that was reached, as `Reached` says.
#[derive(Clone, Copy, Debug, PartialEq, Eq)]
struct Label {
    cell: Cell,
    arrival: Tick,
    end: Tick,
    before: u32,
    // The label that the cell has got before this one.
    older: u32,
    // Whether its arrival is new, and wasn't looked at.
    is_open: bool,
}

/// The labels of a search, by their numbers.
#[derive(Debug, Drop)]
pub struct Labels {
    list: Vec<Label>,
    // By cell, its newest label.
    newest: Vec<u32>,
}

impl Labels {
    /// Returns no labels yet, for a grid of so many cells.
    pub fn of(alloc: Global, cells: usize) -> Result<Labels, OutOfMemory> {
        Ok(Labels {
            list: Vec::new(alloc),
            newest: vec![in alloc; NO_LABEL; cells]?,
        })
    }

    /// Takes all labels away.
    pub fn clear(&mut self) {
        for label in &self.list {
            if let Some(newest) = self.newest.get_mut(label.cell.0 as usize) {
                *newest = NO_LABEL;
            }
        }
        self.list.clear();
    }

    /// Returns the number that the next label gets.
    pub fn next_number(&self) -> u32 {
        u32::try_from(self.list.len()).unwrap_or(NO_LABEL)
    }

    /// Notes a state. Returns the number of its label if the agent comes there earlier than was known.
    #[inline(always)]
    pub fn note(&mut self, reached: &Reached) -> Result<Option<u32>, OutOfMemory> {
        let Some(number) = self.find(reached.cell, reached.end) else {
            return self.add(reached);
        };
        match self.list.get_mut(number as usize) {
            Some(label) if reached.arrival < label.arrival => {
                label.arrival = reached.arrival;
                label.before = reached.before;
                label.is_open = true;
                Ok(Some(number))
            }
            _ => Ok(None),
        }
    }

    /// Returns the state of a label, None if it was looked at since it was noted.
    #[inline(always)]
    pub fn look_at(&mut self, number: u32) -> Option<Reached> {
        let label = self.list.get_mut(number as usize)?;
        if !label.is_open {
            return None;
        }
        label.is_open = false;
        Some(Reached {
            cell: label.cell,
            arrival: label.arrival,
            end: label.end,
            before: label.before,
        })
    }

    /// Returns the cells on the way to a label, one for each tick up to its arrival.
    pub fn way_to(&self, alloc: Global, number: u32) -> Result<Vec<Cell>, OutOfMemory> {
        let mut cells = Vec::new(alloc);
        let mut at = number;
        // The tick after the last one in the cell.
        let mut end = None;
        for _ in 0..self.list.len() {
            let Some(label) = self.list.get(at as usize) else {
                break;
            };
            let next = end.unwrap_or(label.arrival.saturating_add(1));
            let ticks = next.saturating_sub(label.arrival) as usize;
            cells.resize(cells.len().saturating_add(ticks), label.cell)?;
            if label.before == at {
                break;
            }
            end = Some(label.arrival);
            at = label.before;
        }
        cells.reverse();
        Ok(cells)
    }

    fn newest(&self, cell: Cell) -> u32 {
        match self.newest.get(cell.0 as usize) {
            Some(&number) => number,
            None => NO_LABEL,
        }
    }

    // Returns the label of the cell and of this end.
    #[inline(always)]
    fn find(&self, cell: Cell, end: Tick) -> Option<u32> {
        let mut number = self.newest(cell);
        for _ in 0..self.list.len() {
            let label = self.list.get(number as usize)?;
            if label.end == end {
                return Some(number);
            }
            number = label.older;
        }
        None
    }

    fn add(&mut self, reached: &Reached) -> Result<Option<u32>, OutOfMemory> {
        let number = self.next_number();
        let older = self.newest(reached.cell);
        self.list.push(Label {
            cell: reached.cell,
            arrival: reached.arrival,
            end: reached.end,
            before: reached.before,
            older,
            is_open: true,
        })?;
        if let Some(newest) = self.newest.get_mut(reached.cell.0 as usize) {
            *newest = number;
        }
        Ok(Some(number))
    }
}
