//! The layers of an agent's cheapest paths, and the labels that show that none is cheaper.
use crate::cell_places::CellPlaces;
use crate::layer_task::LayerTask;
use crate::reach::{Reach, Swept};
use crate::state_labels::StateLabels;
use crate::step_rules::StepRules;
use mapf_lemmas::{Amount, PricedEntry};
use mapf_model::{Cell, OutOfMemory, Tick};
use std::alloc::Global;

/// The memory in which layers are found, which serves one agent after another on the same grid.
#[derive(Debug, Drop)]
pub struct Workspace {
    reach: Reach,
    places: CellPlaces,
    // What the layers that are being found hold: see there.
    cells: Vec<Cell>,
    begins: Vec<u32>,
    sources: Vec<u8>,
}

impl Workspace {
    /// Returns the memory for a grid of so many cells.
    pub fn of(alloc: Global, cells: usize) -> Result<Workspace, OutOfMemory> {
        Ok(Workspace {
            reach: Reach::of(alloc, cells)?,
            places: CellPlaces::of(alloc, cells)?,
            cells: Vec::new(alloc),
            begins: Vec::new(alloc),
            sources: Vec::new(alloc),
        })
    }

    /// Returns the layers of the agent's cheapest paths, None if it can't arrive. A path is expected to cost at least
    /// so much, in ticks.
    pub fn layers(
        &mut self,
        alloc: Global,
        task: &LayerTask,
        expected: u32,
    ) -> Result<Option<Layers>, OutOfMemory> {
        let Some(cost) = self.reach.least_cost(task, expected)? else {
            return Ok(None);
        };
        self.cells.clear();
        self.begins.clear();
        self.sources.clear();
        self.begins.push(0)?;
        self.cells.push(task.agent.goal)?;
        for back in 0..cost {
            self.add_layer(task, cost.saturating_sub(back))?;
        }
        // The start has no sources.
        self.sources.push(0)?;
        self.begins.push(number(self.cells.len())?)?;
        Ok(Some(Layers {
            cost,
            cells: Vec::from_slice(alloc, &self.cells)?,
            begins: Vec::from_slice(alloc, &self.begins)?,
            sources: Vec::from_slice(alloc, &self.sources)?,
        }))
    }

    /// Returns sound labels by which the agent costs at least `value` ticks, or can't arrive if that is None: for each
    /// state that can be reached and whose label is greater than its default an entry, by tick and then by cell. They
    /// are sound if no path is cheaper. If cells have to be clear, None asks for a greatest cost too, since without one
    /// the states don't end.
    pub fn labels(
        &mut self,
        alloc: Global,
        task: &LayerTask,
        value: Option<u32>,
    ) -> Result<Vec<PricedEntry>, OutOfMemory> {
        let limit = match value {
            Some(ticks) => ticks.saturating_sub(1),
            None => task.most(),
        };
        // The default shows what a constraint asks for at least.
        if matches!(value, Some(ticks) if ticks <= task.constraints.least()) {
            return Ok(Vec::new(alloc));
        }
        let _swept: Swept = self.reach.sweep(task, limit, task.rest())?;
        let mut entries = Vec::with_capacity(alloc, self.reach.cells().len().max(1))?;
        if task.is_start_barred() && (value.is_none() || is_start_within(task, limit)) {
            entries.push(entry_of(task.agent.start, 0, value))?;
        }
        for tick in 0..self.reach.ticks() {
            let (low, high) = self.reach.range_at(tick);
            self.reach.sort(low, high);
            let row = self.reach.cells().get(low..high).unwrap_or(&[]);
            add_entries(&mut entries, row, tick, value)?;
        }
        Ok(entries)
    }

    /// Returns the least costs that the agent has left, for the states that it can reach with an f-value of at most
    /// `last`.
    pub fn state_labels(
        &mut self,
        alloc: Global,
        task: &LayerTask,
        last: u32,
    ) -> Result<StateLabels, OutOfMemory> {
        StateLabels::of(alloc, task, last, &mut self.reach)
    }

    // Adds the layer before the newest one, which is that of the tick, and the sources of the newest one's cells.
    fn add_layer(&mut self, task: &LayerTask, tick: Tick) -> Result<(), OutOfMemory> {
        let low = self.begins.last().copied().unwrap_or(0) as usize;
        let high = self.cells.len();
        self.begins.push(number(high)?)?;
        let range = self.reach.range_at(tick.saturating_sub(1));
        self.reach.index(range.0, range.1);
        let rules = task.constraints.steps_to(tick);
        for place in low..high {
            if let Some(&cell) = self.cells.get(place) {
                let step = BackStep {
                    rules: &rules,
                    range,
                    high,
                    cell,
                };
                let [above, left, here, right, below] = task.around(cell);
                let sources = self.add_source(&step, above, 1)?
                    | self.add_source(&step, left, 2)?
                    | self.add_source(&step, here, 4)?
                    | self.add_source(&step, right, 8)?
                    | self.add_source(&step, below, 16)?;
                self.sources.push(sources)?;
            }
        }
        Ok(())
    }

    // Adds a source of a cell, if the agent can be there one tick earlier and may go from there. Returns its bit then,
    // else 0.
    #[inline(always)]
    fn add_source(
        &mut self,
        step: &BackStep,
        from: Option<Cell>,
        bit: u8,
    ) -> Result<u8, OutOfMemory> {
        let Some(from) = from else {
            return Ok(0);
        };
        if !self.reach.has(step.range, from) {
            return Ok(0);
        }
        if !step.rules.is_open(from, step.cell) {
            return Ok(0);
        }
        let count = self.cells.len();
        if self
            .places
            .find(&self.cells, step.high, count, from)
            .is_none()
        {
            self.places.put(from, count);
            self.cells.push(from)?;
        }
        Ok(bit)
    }
}

// Returns whether the start's distance is at most the limit.
fn is_start_within(task: &LayerTask, limit: u32) -> bool {
    match task.distances.get(task.agent.start) {
        Some(distance) => distance <= limit,
        None => false,
    }
}

// Adds the entries of the states in these cells at a tick.
fn add_entries(
    entries: &mut Vec<PricedEntry>,
    cells: &[Cell],
    tick: Tick,
    value: Option<u32>,
) -> Result<(), OutOfMemory> {
    for &cell in cells {
        entries.push(entry_of(cell, tick, value))?;
    }
    Ok(())
}

// Returns the entry of a state of an agent that costs at least `value`, or can't arrive if that is None.
fn entry_of(cell: Cell, tick: Tick, value: Option<u32>) -> PricedEntry {
    let label = match value {
        Some(ticks) => Amount::of(u64::from(ticks.saturating_sub(tick))),
        None => Amount::infinite(),
    };
    PricedEntry { cell, tick, label }
}

/// The layers of the cheapest paths of one agent under its constraints.
///
/// The first cell of a layer is the first source of the first cell of the layer one tick later, so the first cells of
/// all layers are a path.
#[derive(Debug, Drop)]
pub struct Layers {
    // The cost of these paths, in ticks.
    pub(crate) cost: u32,
    // The cells of each layer, from the goal at the cost back to the start at tick 0.
    pub(crate) cells: Vec<Cell>,
    // Where the layers begin, that of the goal first, and where the last one ends.
    pub(crate) begins: Vec<u32>,
    // For each of the cells, its sources, the cells in which a path that comes to it can be one tick earlier: the sum
    // of 1 for the cell above, 2 for that to the left, 4 for the cell itself, 8 for that to the right, 16 for that below.
    pub(crate) sources: Vec<u8>,
}

impl Layers {
    /// Returns the cost of the agent's cheapest paths, in ticks.
    pub fn cost(&self) -> u32 {
        self.cost
    }

    /// Returns the width of the layer of the tick: in how many cells a cheapest path may be. After the arrival it is 1.
    pub fn width(&self, tick: Tick) -> u32 {
        let Some(back) = self.cost.checked_sub(tick) else {
            return 1;
        };
        let (low, high) = self.range(back);
        u32::try_from(high.saturating_sub(low)).unwrap_or(u32::MAX)
    }

    /// Returns where the layer begins and ends that is so many ticks before the arrival.
    pub(crate) fn range(&self, back: u32) -> (usize, usize) {
        let place = back as usize;
        let low = self.begins.get(place).copied().unwrap_or(0);
        let high = self
            .begins
            .get(place.saturating_add(1))
            .copied()
            .unwrap_or(low);
        (low as usize, high as usize)
    }
}

// What holds of all steps back from one cell.
#[derive(Drop)]
struct BackStep<'a> {
    // What the constraints allow of the steps to its tick.
    rules: &'a StepRules<'a>,
    // The range of the states that the sweep has reached one tick earlier.
    range: (usize, usize),
    // Where the layer of the tick before begins.
    high: usize,
    cell: Cell,
}

/// Returns a place or a count as it is kept. So many states don't fit into memory.
pub(crate) fn number(count: usize) -> Result<u32, OutOfMemory> {
    u32::try_from(count).map_err(|_| OutOfMemory)
}
