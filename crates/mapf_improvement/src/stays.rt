//! Who is where when: by cell, the times in which agents are there.
use mapf_model::{Cell, OutOfMemory, Tick};
use std::alloc::Global;

/// The end of a stay that never ends.
pub const FOREVER: Tick = Tick::MAX;

/// A time in which an agent is in a cell.
#[derive(Clone, Copy, Debug, PartialEq, Eq)]
pub struct Stay {
    /// Its first tick.
    pub from: Tick,
    /// The first tick after it, or `FOREVER`.
    pub end: Tick,
    pub agent: usize,
}

/// The stays of agents on paths that don't collide. At the end of its path an agent stays for ever.
#[derive(Debug, Drop)]
pub struct Stays {
    // By cell, in the order of their ticks.
    lists: Vec<Vec<Stay>>,
}

impl Stays {
    /// Returns a grid of so many cells with nobody on it.
    pub fn of(alloc: Global, cells: usize) -> Result<Stays, OutOfMemory> {
        let mut lists = Vec::with_capacity(alloc, cells)?;
        for _ in 0..cells {
            lists.push(Vec::new(alloc))?;
        }
        Ok(Stays { lists })
    }

    /// Returns the stays in a cell, in the order of their ticks.
    #[inline(always)]
    pub fn at(&self, cell: Cell) -> &[Stay] {
        match self.lists.get(cell.0 as usize) {
            Some(list) => list.as_slice(),
            None => &[],
        }
    }

    /// Returns who is in a cell at a tick.
    pub fn who(&self, cell: Cell, tick: Tick) -> Option<usize> {
        let list = self.at(cell);
        let place = list.partition_point(|stay| stay.end <= tick);
        match list.get(place) {
            Some(stay) if stay.from <= tick => Some(stay.agent),
            _ => None,
        }
    }

    /// Returns the tick from which on nobody comes to the cell any more. None if somebody stays there for ever.
    pub fn clear_from(&self, cell: Cell) -> Option<Tick> {
        match self.at(cell).last() {
            Some(last) if last.end == FOREVER => None,
            Some(last) => Some(last.end),
            None => Some(0),
        }
    }

    /// Puts the agent on a path.
    pub fn put(&mut self, agent: usize, path: &[Cell]) -> Result<(), OutOfMemory> {
        let mut from = 0;
        for (place, &cell) in path.iter().enumerate() {
            if let Some(end) = end_of_stay(path, place) {
                self.insert(cell, Stay { from, end, agent })?;
                from = end;
            }
        }
        Ok(())
    }

    /// Takes the agent off its path.
    pub fn take(&mut self, agent: usize, path: &[Cell]) {
        let mut from = 0;
        for (place, &cell) in path.iter().enumerate() {
            if let Some(end) = end_of_stay(path, place) {
                self.remove(cell, Stay { from, end, agent });
                from = end;
            }
        }
    }

    fn insert(&mut self, cell: Cell, stay: Stay) -> Result<(), OutOfMemory> {
        let Some(list) = self.lists.get_mut(cell.0 as usize) else {
            return Ok(());
        };
        let place = list.partition_point(|other| other.from < stay.from);
        if place <= list.len() {
            list.insert(place, stay)?;
        }
        Ok(())
    }

    fn remove(&mut self, cell: Cell, stay: Stay) {
        let Some(list) = self.lists.get_mut(cell.0 as usize) else {
            return;
        };
        let place = list.partition_point(|other| other.from < stay.from);
        if place < list.len() && list.get(place) == Some(&stay) {
            let _stay = list.remove(place);
        }
    }
}

// Returns the end of the stay whose last tick is this one on a path. None if the agent stays on.
fn end_of_stay(path: &[Cell], tick: usize) -> Option<Tick> {
    let next = tick.saturating_add(1);
    match path.get(next) {
        Some(cell) if path.get(tick) == Some(cell) => None,
        Some(_) => u32::try_from(next).ok(),
        None => Some(FOREVER),
    }
}
