//! Whether an agent can arrive at all where cells have to be clear from some tick on, whatever it costs.
use crate::arrival::arrivals_at;
use crate::cell_places::CellPlaces;
use crate::layer_task::LayerTask;
use crate::step_rules::StepRules;
use mapf_model::limits::MOST_CELLS;
use mapf_model::{Cell, OutOfMemory, Tick};
use std::alloc::Global;
use std::mem;

/// The cells in which an agent can be at a tick. From one tick to the next only those are looked at that may lead to
/// new ones, so a sweep takes few steps more than there are cells and changes of the constraints.
#[derive(Debug, Drop)]
pub struct Spread {
    // Each cell in which the agent could be at some tick so far.
    cells: Vec<Touched>,
    // The cells beside which a new one may be, at this tick and at the next one.
    open: Vec<Cell>,
    next: Vec<Cell>,
}

// A cell that has been reached.
#[derive(Clone, Copy, Debug)]
struct Touched {
    cell: Cell,
    // Whether the agent can be there at the newest tick.
    is_there: bool,
    // The newest tick at which the cell was put among the open ones.
    opened: Tick,
}

impl Spread {
    /// Returns the memory of no sweep yet.
    pub fn of(alloc: Global) -> Spread {
        Spread {
            cells: Vec::new(alloc),
            open: Vec::new(alloc),
            next: Vec::new(alloc),
        }
    }

    /// Returns whether the agent can arrive, if it may stay at its goal from the tick `rest` on. A greatest cost that a
    /// constraint allows isn't asked for.
    pub fn arrives(
        &mut self,
        task: &LayerTask,
        rest: Tick,
        places: &mut CellPlaces,
    ) -> Result<bool, OutOfMemory> {
        self.begin(task, places)?;
        let horizon = task.constraints.horizon();
        let mut tick = 0;
        for _ in 0..=horizon.saturating_add(MOST_CELLS) {
            if tick >= rest && self.is_there(places, task.agent.goal) {
                return Ok(true);
            }
            if self.open.is_empty() {
                if tick >= horizon {
                    break;
                }
                // Until the next change of the constraints no cell is new.
                tick = next_change(task, tick).saturating_sub(1);
            }
            tick = tick.saturating_add(1);
            self.go_on(task, places, tick)?;
        }
        Ok(false)
    }

    // Puts the agent at its start.
    fn begin(&mut self, task: &LayerTask, places: &mut CellPlaces) -> Result<(), OutOfMemory> {
        self.cells.clear();
        self.open.clear();
        self.next.clear();
        if !task.is_start_barred() {
            self.enter(places, task.agent.start, 0)?;
        }
        mem::swap(&mut self.open, &mut self.next);
        Ok(())
    }

    // Goes on to the tick from the one before.
    fn go_on(
        &mut self,
        task: &LayerTask,
        places: &mut CellPlaces,
        tick: Tick,
    ) -> Result<(), OutOfMemory> {
        let rules = task.constraints.steps_to(tick);
        self.next.clear();
        for place in 0..self.open.len() {
            if let Some(&cell) = self.open.get(place) {
                if self.was_there(places, cell, tick) {
                    self.leave(task, places, &rules, cell)?;
                }
            }
        }
        self.remove_barred(task, places, tick)?;
        self.remove_cleared(task, places, tick);
        mem::swap(&mut self.open, &mut self.next);
        Ok(())
    }

    // Goes from a cell to those beside it.
    fn leave(
        &mut self,
        task: &LayerTask,
        places: &mut CellPlaces,
        rules: &StepRules,
        cell: Cell,
    ) -> Result<(), OutOfMemory> {
        for to in task.around(cell).into_iter().flatten() {
            if task.distances.get(to).is_none()
                || rules.is_cleared(to)
                || self.is_there(places, to)
            {
                continue;
            }
            if rules.is_barred(cell, to) {
                // A later step may be allowed.
                self.reopen(places, cell, rules.tick())?;
            } else {
                self.enter(places, to, rules.tick())?;
            }
        }
        Ok(())
    }

    // Adds a cell in which the agent can be at the tick, and couldn't be before.
    fn enter(
        &mut self,
        places: &mut CellPlaces,
        cell: Cell,
        tick: Tick,
    ) -> Result<(), OutOfMemory> {
        let touched = Touched {
            cell,
            is_there: true,
            opened: tick,
        };
        match self
            .find(places, cell)
            .and_then(|place| self.cells.get_mut(place))
        {
            Some(found) => *found = touched,
            None => {
                places.put(cell, self.cells.len());
                self.cells.push(touched)?;
            }
        }
        self.next.push(cell)?;
        Ok(())
    }

    // Puts a cell among the open ones of the tick, if it isn't among them.
    fn reopen(&mut self, places: &CellPlaces, cell: Cell, tick: Tick) -> Result<(), OutOfMemory> {
        let Some(place) = self.find(places, cell) else {
            return Ok(());
        };
        if let Some(found) = self.cells.get_mut(place) {
            if found.is_there && found.opened != tick {
                found.opened = tick;
                self.next.push(cell)?;
            }
        }
        Ok(())
    }

    // Takes the agent out of the cells that vertex constraints forbid at the tick. It may come back from beside them.
    fn remove_barred(
        &mut self,
        task: &LayerTask,
        places: &CellPlaces,
        tick: Tick,
    ) -> Result<(), OutOfMemory> {
        for bar in arrivals_at(task.constraints.arrivals(), tick) {
            if bar.from.is_none() && self.remove(places, bar.cell) {
                let [above, left, _, right, below] = task.around(bar.cell);
                for beside in [above, left, right, below].into_iter().flatten() {
                    self.reopen(places, beside, tick)?;
                }
            }
        }
        Ok(())
    }

    // Takes the agent out of the cells that have to be clear from this tick on.
    fn remove_cleared(&mut self, task: &LayerTask, places: &CellPlaces, tick: Tick) {
        for clear in task.constraints.clear() {
            if clear.tick == tick {
                self.remove(places, clear.cell);
            }
        }
    }

    // Takes the agent out of a cell. Returns whether it was there.
    fn remove(&mut self, places: &CellPlaces, cell: Cell) -> bool {
        match self
            .find(places, cell)
            .and_then(|place| self.cells.get_mut(place))
        {
            Some(found) => mem::replace(&mut found.is_there, false),
            None => false,
        }
    }

    // Returns whether the agent can be in the cell.
    fn is_there(&self, places: &CellPlaces, cell: Cell) -> bool {
        match self
            .find(places, cell)
            .and_then(|place| self.cells.get(place))
        {
            Some(found) => found.is_there,
            None => false,
        }
    }

    // Returns whether the agent can be in an open cell before the step to the tick, and hasn't come back to it by this step.
    fn was_there(&self, places: &CellPlaces, cell: Cell, tick: Tick) -> bool {
        match self
            .find(places, cell)
            .and_then(|place| self.cells.get(place))
        {
            Some(found) => found.is_there && found.opened != tick,
            None => false,
        }
    }

    // Returns the place of a cell that was reached at some tick.
    fn find(&self, places: &CellPlaces, cell: Cell) -> Option<usize> {
        let place = places.noted(cell)?;
        match self.cells.get(place) {
            Some(found) if found.cell == cell => Some(place),
            _ => None,
        }
    }
}

// Returns the first tick after this one at which a constraint changes what the agent may do, or the horizon.
fn next_change(task: &LayerTask, tick: Tick) -> Tick {
    let bars = task.constraints.arrivals();
    let first = bars.partition_point(|bar| bar.tick <= tick);
    let mut change = task.constraints.horizon();
    if let Some(bar) = bars.get(first) {
        change = change.min(bar.tick);
    }
    for clear in task.constraints.clear() {
        if clear.tick > tick {
            change = change.min(clear.tick);
        }
    }
    change
}
