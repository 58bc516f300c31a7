//! The states that an agent can reach, tick by tick, with an f-value up to a limit. Layers and labels are made of them.
use crate::cell_places::CellPlaces;
use crate::layer_task::LayerTask;
use crate::spread::Spread;
use crate::step_rules::StepRules;
use mapf_model::{Cell, OutOfMemory, Tick};
use std::alloc::Global;

/// The states of a sweep. The memory of one sweep serves the next.
#[derive(Debug, Drop)]
pub struct Reach {
    // The cells of the states, tick by tick, in the order in which they were met.
    cells: Vec<Cell>,
    // Where those of each tick begin.
    begins: Vec<usize>,
    places: CellPlaces,
    // Whether a state was left out for its f-value.
    is_cut: bool,
    spread: Spread,
}

// By so many ticks a limit may exceed the cost that is usual before it is asked whether the agent can arrive at all.
const PATIENCE: u32 = 32;

/// How a sweep ended.
#[derive(Clone, Copy, Debug, PartialEq, Eq)]
pub enum Swept {
    /// The agent arrives for good at this tick, and not earlier.
    Arrives(Tick),
    /// It doesn't arrive by the limit. States of a greater f-value were left out.
    Cut,
    /// It never arrives: no state is left, or each one that was left out costs more than a constraint allows.
    Ended,
}

// What holds of all steps to one tick.
#[derive(Drop)]
struct Step<'a> {
    rules: StepRules<'a>,
    // The greatest distance that a state may have there.
    most: u32,
    // Where the states of this tick begin.
    first: usize,
}

impl Reach {
    /// Returns a reach without states, for a grid of so many cells.
    pub fn of(alloc: Global, cells: usize) -> Result<Reach, OutOfMemory> {
        Ok(Reach {
            cells: Vec::new(alloc),
            begins: Vec::new(alloc),
            places: CellPlaces::of(alloc, cells)?,
            is_cut: false,
            spread: Spread::of(alloc),
        })
    }

    /// Returns the cost of the agent's cheapest path, None if it can't arrive. A path is expected to cost at least so
    /// much.
    pub fn least_cost(
        &mut self,
        task: &LayerTask,
        expected: u32,
    ) -> Result<Option<u32>, OutOfMemory> {
        let Some(rest) = task.rest() else {
            return Ok(None);
        };
        let most = task.most();
        let usual = expected.max(task.distances.get(task.agent.start).unwrap_or(0));
        let mut limit = usual.max(rest).min(most);
        let mut rise = 1u32;
        // Without cells that have to be clear the agent can arrive, or a sweep finds that no state is left.
        let mut is_open = task.constraints.clear().is_empty();
        self.cells.clear();
        // The rises double, so the greatest cost is passed before they have all been made.
        for _ in 0..u32::BITS {
            if !is_open && self.is_long(usual, limit) {
                if !self.spread.arrives(task, rest, &mut self.places)? {
                    return Ok(None);
                }
                is_open = true;
            }
            match self.sweep(task, limit, Some(rest))? {
                Swept::Arrives(cost) => return Ok(Some(cost)),
                Swept::Ended => return Ok(None),
                Swept::Cut if limit >= most => return Ok(None),
                Swept::Cut => limit = limit.saturating_add(rise).min(most),
            }
            rise = rise.saturating_mul(2);
        }
        Ok(None)
    }

    // Returns whether the next sweep, up to the limit, takes longer than to find whether the agent can arrive at all: the
    // last one reached more states than there are cells, or it takes many ticks more than is usual.
    fn is_long(&self, usual: u32, limit: u32) -> bool {
        self.cells.len() > self.places.len() || limit > usual.saturating_add(PATIENCE)
    }

    /// Reaches states of f-values up to the limit, tick by tick, until the agent is at its goal at a tick from which on it
    /// may stay there, or none is left. If no such tick is given it goes on to the limit.
    pub fn sweep(
        &mut self,
        task: &LayerTask,
        limit: u32,
        rest: Option<Tick>,
    ) -> Result<Swept, OutOfMemory> {
        let greatest = task.greatest_cost();
        let end = limit.min(greatest);
        self.begin(task, end)?;
        for tick in 0..=end {
            let (low, high) = self.range_at(tick);
            if low >= high {
                break;
            }
            if matches!(rest, Some(rest) if tick >= rest)
                && self.has((low, high), task.agent.goal)
            {
                return Ok(Swept::Arrives(tick));
            }
            let Some(most) = end.saturating_sub(tick).checked_sub(1) else {
                self.is_cut = true;
                break;
            };
            let step = Step {
                rules: task.constraints.steps_to(tick.saturating_add(1)),
                most,
                first: high,
            };
            self.leave_all(task, &step, low)?;
        }
        Ok(if self.is_cut && limit < greatest {
            Swept::Cut
        } else {
            Swept::Ended
        })
    }

    /// Returns where the states of the tick begin and end in the list of cells.
    pub fn range_at(&self, tick: Tick) -> (usize, usize) {
        let place = tick as usize;
        let Some(&low) = self.begins.get(place) else {
            return (self.cells.len(), self.cells.len());
        };
        let next = self.begins.get(place.saturating_add(1));
        (low, next.copied().unwrap_or(self.cells.len()))
    }

    /// Returns the cells of the states, tick by tick.
    pub fn cells(&self) -> &[Cell] {
        &self.cells
    }

    /// Puts the cells of this range, which is that of a tick, in rising order.
    pub fn sort(&mut self, low: usize, high: usize) {
        if let Some(row) = self.cells.as_mut_slice().get_mut(low..high) {
            row.sort_unstable();
        }
    }

    /// Returns how many ticks the sweep has gone over.
    pub fn ticks(&self) -> u32 {
        u32::try_from(self.begins.len()).unwrap_or(u32::MAX)
    }

    /// Makes the places those of the states of this range.
    pub fn index(&mut self, low: usize, high: usize) {
        for place in low..high {
            if let Some(&cell) = self.cells.get(place) {
                self.places.put(cell, place);
            }
        }
    }

    /// Returns whether the cell is among those of a range that has been indexed.
    #[inline(always)]
    pub fn has(&self, range: (usize, usize), cell: Cell) -> bool {
        self.place_in(range, cell).is_some()
    }

    /// Returns the place of the cell among those of a range that has been indexed.
    #[inline(always)]
    pub fn place_in(&self, (low, high): (usize, usize), cell: Cell) -> Option<usize> {
        self.places.find(&self.cells, low, high, cell)
    }

    // Reaches the start, if the agent may be there and its distance is within the limit.
    fn begin(&mut self, task: &LayerTask, limit: u32) -> Result<(), OutOfMemory> {
        self.cells.clear();
        self.begins.clear();
        self.is_cut = false;
        let start = task.agent.start;
        let Some(distance) = task.distances.get(start) else {
            return Ok(());
        };
        if task.is_start_barred() {
            return Ok(());
        }
        if distance > limit {
            self.is_cut = true;
            return Ok(());
        }
        self.begins.push(0)?;
        self.places.put(start, 0);
        self.cells.push(start)?;
        Ok(())
    }

    // Goes on from the states of the newest tick, which begin at `low`.
    fn leave_all(&mut self, task: &LayerTask, step: &Step, low: usize) -> Result<(), OutOfMemory> {
        self.begins.push(step.first)?;
        for place in low..step.first {
            if let Some(&cell) = self.cells.get(place) {
                let [above, left, here, right, below] = task.around(cell);
                self.enter(task, step, cell, above)?;
                self.enter(task, step, cell, left)?;
                self.enter(task, step, cell, here)?;
                self.enter(task, step, cell, right)?;
                self.enter(task, step, cell, below)?;
            }
        }
        Ok(())
    }

    // Reaches a cell from another one, if it may be entered and wasn't reached at this tick yet.
    #[inline(always)]
    fn enter(
        &mut self,
        task: &LayerTask,
        step: &Step,
        from: Cell,
        to: Option<Cell>,
    ) -> Result<(), OutOfMemory> {
        let Some(to) = to else {
            return Ok(());
        };
        let Some(distance) = task.distances.get(to) else {
            return Ok(());
        };
        if distance > step.most {
            self.is_cut = true;
            return Ok(());
        }
        let count = self.cells.len();
        if self
            .places
            .find(&self.cells, step.first, count, to)
            .is_some()
        {
            return Ok(());
        }
        if !step.rules.is_open(from, to) {
            return Ok(());
        }
        self.places.put(to, count);
        self.cells.push(to)?;
        Ok(())
    }
}
