//! A cheapest path with the fewest conflicts with the other agents' paths, up to its arrival.
use crate::cell_places::CellPlaces;
use crate::conflict_avoidance_table::ConflictAvoidanceTable;
use crate::layers::Layers;
use mapf_model::{Cell, Grid, OutOfMemory, Path, Tick};
use std::alloc::Global;

/// The memory in which paths with the fewest conflicts are found: for each cell of an agent's layers the best step to
/// it.
#[derive(Debug, Drop)]
pub struct BestSteps {
    steps: Vec<BestStep>,
    // Where the cells of the newest layer stand.
    places: CellPlaces,
    // What is added to a cell's number for each of its sources, in the order of their bits.
    offsets: [u32; 5],
}

/// The best step to a cell of the layers.
#[derive(Clone, Copy, Debug)]
struct BestStep {
    // How many conflicts the path has up to here.
    conflicts: u32,
    // The place of the cell before.
    source: usize,
    // From here another agent comes to the cell at the next tick, as `Meeting` says.
    next_from: Cell,
}

const NO_STEP: BestStep = BestStep {
    conflicts: 0,
    source: 0,
    next_from: Cell(0),
};

impl BestSteps {
    /// Returns memory for no steps yet, for layers on this grid.
    pub fn of(alloc: Global, grid: &Grid) -> Result<BestSteps, OutOfMemory> {
        let width = grid.width();
        Ok(BestSteps {
            steps: Vec::new(alloc),
            places: CellPlaces::of(alloc, (width * grid.height()) as usize)?,
            offsets: [width.wrapping_neg(), u32::MAX, 0, 1, width],
        })
    }

    #[inline(always)]
    fn at(&self, place: usize) -> BestStep {
        self.steps.get(place).copied().unwrap_or(NO_STEP)
    }

    // Makes room for so many steps. Those that are there are put anew before they are read.
    fn reserve(&mut self, count: usize) -> Result<(), OutOfMemory> {
        if self.steps.len() < count {
            self.steps.resize(count, NO_STEP)?;
        }
        Ok(())
    }

    // Returns the place of a cell in the newest layer, which begins at `first`.
    #[inline(always)]
    fn place_of(&self, cells: &[Cell], first: usize, cell: Cell) -> usize {
        self.places
            .find(cells, first, cells.len(), cell)
            .unwrap_or(0)
    }

    #[inline(always)]
    fn put(&mut self, place: usize, step: BestStep) {
        if let Some(entry) = self.steps.get_mut(place) {
            *entry = step;
        }
    }
}

// The best way to a cell: how many conflicts it has before the cell, and the place of the cell that it comes from.
#[derive(Clone, Copy, Debug)]
struct BestSource {
    conflicts: u32,
    source: usize,
}

const NO_SOURCE: BestSource = BestSource {
    conflicts: 0,
    source: 0,
};

impl Layers {
    /// Returns a cheapest path of the agent that has the fewest conflicts with the others up to its arrival. There must
    /// be room for it in the table. If the path of the layers' first cells has none, it is that one.
    pub fn best_path(
        &self,
        alloc: Global,
        table: &ConflictAvoidanceTable,
        steps: &mut BestSteps,
        agent: u32,
    ) -> Result<Path, OutOfMemory> {
        if self.is_first_path_free(table, agent) {
            return self.trace(alloc, None);
        }
        steps.reserve(self.cells.len())?;
        for tick in 0..=self.cost {
            self.find_steps(table, steps, agent, tick);
        }
        self.trace(alloc, Some(steps))
    }

    // Returns whether the path of the layers' first cells has no conflict up to its arrival.
    fn is_first_path_free(&self, table: &ConflictAvoidanceTable, agent: u32) -> bool {
        let mut later = self.cell(0);
        for back in 0..=self.cost {
            let cell = self.cell(self.range(back).0);
            let tick = self.cost.saturating_sub(back);
            let meeting = table.at(agent, tick).meeting(cell);
            if meeting.others > 0 || is_swap(meeting.next_from, cell, later) {
                return false;
            }
            later = cell;
        }
        true
    }

    // Finds the best steps to the cells of the layer of a tick.
    fn find_steps(
        &self,
        table: &ConflictAvoidanceTable,
        steps: &mut BestSteps,
        agent: u32,
        tick: Tick,
    ) {
        let table = table.at(agent, tick);
        let (low, high) = self.range(self.cost.saturating_sub(tick));
        let cells = self.cells.get(low..high).unwrap_or(&[]);
        for (offset, &cell) in cells.iter().enumerate() {
            let place = low.saturating_add(offset);
            let best = self.best_source(steps, high, place, cell);
            let meeting = table.meeting(cell);
            let step = BestStep {
                conflicts: best.conflicts.saturating_add(meeting.others),
                source: best.source,
                next_from: meeting.next_from,
            };
            steps.put(place, step);
        }
        for (offset, &cell) in cells.iter().enumerate() {
            steps.places.put(cell, low.saturating_add(offset));
        }
    }

    // Returns the best way to the cell at this place: of several the first. The layer before begins at `first`.
    #[inline(always)]
    fn best_source(&self, steps: &BestSteps, first: usize, place: usize, cell: Cell) -> BestSource {
        let mut best: Option<BestSource> = None;
        let mut sources = self.sources.get(place).copied().unwrap_or(0);
        for offset in steps.offsets {
            if sources % 2 == 1 {
                let from = Cell(cell.0.wrapping_add(offset));
                let source = steps.place_of(&self.cells, first, from);
                let step = steps.at(source);
                let swaps = u32::from(is_swap(step.next_from, from, cell));
                let conflicts = step.conflicts.saturating_add(swaps);
                match &best {
                    Some(least) if least.conflicts <= conflicts => {}
                    _ => best = Some(BestSource { conflicts, source }),
                }
            }
            sources /= 2;
        }
        best.unwrap_or(NO_SOURCE)
    }

    // Returns the path that goes back from the goal by these steps, or by the layers' first cells.
    fn trace(&self, alloc: Global, steps: Option<&BestSteps>) -> Result<Path, OutOfMemory> {
        let mut cells = Vec::with_capacity(alloc, (self.cost as usize).saturating_add(1))?;
        let mut place = 0;
        for back in 0..=self.cost {
            if steps.is_none() {
                place = self.range(back).0;
            }
            cells.push(self.cell(place))?;
            if let Some(steps) = steps {
                place = steps.at(place).source;
            }
        }
        cells.reverse();
        // A longer path than there may be doesn't fit into memory either.
        Path::of(cells).ok_or(OutOfMemory)
    }

    #[inline(always)]
    fn cell(&self, place: usize) -> Cell {
        self.cells.get(place).copied().unwrap_or(Cell(0))
    }
}

// Returns whether an agent that comes from `next_from` to the cell meets a path that goes from the cell to `to`.
fn is_swap(next_from: Cell, cell: Cell, to: Cell) -> bool {
    next_from != cell && next_from == to
}
