//! The labels of an agent at all states that a path of little more than its least priced cost can come to.
use crate::prices::Prices;
use crate::resources::{NOWHERE, WAYS};
use crate::search::{PathSearch, Traveller};
use mapf_model::{OutOfMemory, Tick};
use std::alloc::Global;

// The label of a cell from which no steps lead to the goal: more than any path costs.
const UNREACHABLE: u64 = u64::MAX >> 20;

/// A state, and what it costs to come there.
#[derive(Clone, Copy, Debug)]
pub struct Reached {
    pub tick: Tick,
    pub cell: u32,
    pub cost: u64,
}

/// The labels of one agent.
#[derive(Debug, Drop)]
pub struct LabelTable {
    cells: usize,
    mark: u32,
    // By tick and cell, the table that a label is of, and the label.
    marks: Vec<u32>,
    labels: Vec<u64>,
    // By cell, the label of a state that isn't in the table: what its distance costs.
    others: Vec<u64>,
    /// The states with labels, by ticks.
    pub states: Vec<Reached>,
}

impl LabelTable {
    /// Returns the memory for so many cells and ticks.
    pub fn of(alloc: Global, cells: usize, ticks: Tick) -> Result<LabelTable, OutOfMemory> {
        let count = cells.saturating_mul(ticks as usize);
        Ok(LabelTable {
            cells,
            mark: 0,
            marks: vec![in alloc; 0; count]?,
            labels: vec![in alloc; 0; count]?,
            others: vec![in alloc; 0; cells]?,
            states: Vec::new(alloc),
        })
    }

    /// Makes the table for an agent, of all states on paths that cost less than this.
    pub fn make(
        &mut self,
        search: &mut PathSearch,
        prices: &Prices,
        who: &Traveller,
        limit: u64,
    ) -> Result<(), OutOfMemory> {
        self.mark = self.mark.saturating_add(1);
        self.states.clear();
        self.note_others(prices, who);
        search.begin(prices, who)?;
        for tick in 0..=prices.end {
            if search.open.cells.is_empty() {
                break;
            }
            search.open.cells.as_mut_slice().sort_unstable();
            self.add_layer(search, tick)?;
            if tick < prices.end {
                search.advance(prices, who, tick, limit << 16)?;
            }
        }
        for place in (0..self.states.len()).rev() {
            if let Some(&at) = self.states.get(place) {
                let label = self.label_by_steps(search, prices, who, &at);
                self.put(&at, label.min(limit.saturating_sub(at.cost)));
            }
        }
        Ok(())
    }

    fn note_others(&mut self, prices: &Prices, who: &Traveller) {
        for (cell, entry) in (0u32..).zip(self.others.iter_mut()) {
            *entry = who.left(cell, prices.unit).unwrap_or(UNREACHABLE);
        }
    }

    fn add_layer(&mut self, search: &PathSearch, tick: Tick) -> Result<(), OutOfMemory> {
        for &cell in &search.open.cells {
            let cost = search.open.cost(cell);
            self.states.push(Reached { tick, cell, cost })?;
        }
        Ok(())
    }

    fn label_by_steps(
        &self,
        search: &PathSearch,
        prices: &Prices,
        who: &Traveller,
        at: &Reached,
    ) -> u64 {
        if at.tick >= prices.end {
            return self.other(at.cell);
        }
        let mut least = UNREACHABLE;
        if at.cell == who.agent.goal.0 {
            least = search.rest_after(prices, at.tick);
        }
        for way in 0..WAYS {
            let to = prices.resources.beside(at.cell, way);
            if to == NOWHERE {
                continue;
            }
            let step = prices.of_step(at.tick, at.cell, to);
            let label = self.get(at.tick.saturating_add(1), to);
            let sum = u64::from(prices.unit)
                .saturating_add(step)
                .saturating_add(label);
            least = least.min(sum);
        }
        least
    }

    fn place(&self, tick: Tick, cell: u32) -> usize {
        (tick as usize)
            .saturating_mul(self.cells)
            .saturating_add(cell as usize)
    }

    fn put(&mut self, at: &Reached, label: u64) {
        let place = self.place(at.tick, at.cell);
        if let (Some(mark), Some(entry)) = (self.marks.get_mut(place), self.labels.get_mut(place)) {
            *mark = self.mark;
            *entry = label;
        }
    }

    /// Returns the label of a state: that of the table, or what its distance costs.
    #[inline(always)]
    pub fn get(&self, tick: Tick, cell: u32) -> u64 {
        let place = self.place(tick, cell);
        if self.marks.get(place) == Some(&self.mark) {
            return self.labels.get(place).copied().unwrap_or(0);
        }
        self.other(cell)
    }

    /// Returns what the distance of a cell costs.
    #[inline(always)]
    pub fn other(&self, cell: u32) -> u64 {
        self.others
            .get(cell as usize)
            .copied()
            .unwrap_or(UNREACHABLE)
    }
}
