//! What an agent's path costs at least from each state that it can reach, and the entries of a lemma about it.
use crate::layer_task::LayerTask;
use crate::layers::number;
use crate::reach::{Reach, Swept};
use crate::step_rules::StepRules;
use mapf_lemmas::{Amount, PricedEntry};
use mapf_model::{Cell, OutOfMemory, Tick};
use std::alloc::Global;

/// A cell in which an agent can be at a tick, and the least cost that is left from there.
#[derive(Clone, Copy, Debug)]
pub struct StateLabel {
    pub cell: Cell,
    /// In ticks. The greatest number if the agent can't arrive.
    pub rest: u32,
}

/// The least costs that an agent has left, for the states that it can reach with an f-value (tick plus distance) of at
/// most `last`.
///
/// A step out of these states counts as if the agent went straight to its goal after it. So the costs are lower bounds
/// that no step contradicts, and each one that is at most `last` minus its tick is exact.
#[derive(Debug, Drop)]
pub struct StateLabels {
    last: u32,
    // Tick by tick, and at each tick in rising order of cells.
    states: Vec<StateLabel>,
    // Where the states of each tick begin, and where the last ones end.
    begins: Vec<u32>,
}

// What holds of all steps from one tick to the next.
#[derive(Drop)]
struct Onward<'a> {
    task: &'a LayerTask<'a>,
    reach: &'a Reach,
    rules: StepRules<'a>,
    // The next tick, and where its states begin and end.
    tick: Tick,
    range: (usize, usize),
}

impl StateLabels {
    pub(crate) fn of(
        alloc: Global,
        task: &LayerTask,
        last: u32,
        reach: &mut Reach,
    ) -> Result<StateLabels, OutOfMemory> {
        let _swept: Swept = reach.sweep(task, last, None)?;
        let count = reach.cells().len();
        let mut labels = StateLabels {
            last,
            states: Vec::with_capacity(alloc, count.max(1))?,
            begins: Vec::with_capacity(alloc, (reach.ticks() as usize).saturating_add(1))?,
        };
        if count == 0 {
            labels.add_barred_start(task)?;
            return Ok(labels);
        }
        labels.states.resize(count, NO_STATE)?;
        labels.add_begins(reach)?;
        let settled = settled_from(task);
        let rest = task.rest();
        for back in 1..=reach.ticks() {
            let tick = reach.ticks().saturating_sub(back);
            let (low, high) = reach.range_at(tick);
            reach.sort(low, high);
            if tick >= settled {
                labels.fill_settled(task, reach, (low, high));
            } else {
                let is_rest = matches!(rest, Some(rest) if tick >= rest);
                labels.fill(task, reach, tick, is_rest);
            }
            reach.index(low, high);
        }
        Ok(labels)
    }

    /// Returns the greatest f-value of these states.
    pub fn last(&self) -> u32 {
        self.last
    }

    /// Returns the states of the tick, in rising order of cells.
    pub fn row(&self, tick: Tick) -> &[StateLabel] {
        let place = tick as usize;
        let (Some(&low), Some(&high)) = (
            self.begins.get(place),
            self.begins.get(place.saturating_add(1)),
        ) else {
            return &[];
        };
        self.states.get(low as usize..high as usize).unwrap_or(&[])
    }

    /// Returns sound labels by which the agent costs at least `value` ticks, if the states show so much, as entries by
    /// tick and then by cell: for each state of a smaller f-value whose label exceeds its default.
    pub fn entries(
        &self,
        alloc: Global,
        task: &LayerTask,
        value: u32,
    ) -> Result<Vec<PricedEntry>, OutOfMemory> {
        let mut entries = Vec::new(alloc);
        let rows = u32::try_from(self.begins.len()).unwrap_or(u32::MAX);
        for tick in 0..rows.min(value) {
            self.add_entries(&mut entries, task, value, tick)?;
        }
        Ok(entries)
    }

    // Adds the entries of the states of a tick.
    fn add_entries(
        &self,
        entries: &mut Vec<PricedEntry>,
        task: &LayerTask,
        value: u32,
        tick: Tick,
    ) -> Result<(), OutOfMemory> {
        let most = value.saturating_sub(tick);
        let least = task.constraints.least().saturating_sub(tick);
        for state in self.row(tick) {
            let ticks = state.rest.min(most);
            let distance = task.distances.get(state.cell).unwrap_or(u32::MAX);
            if distance < most && distance.max(least) < ticks {
                entries.push(PricedEntry {
                    cell: state.cell,
                    tick,
                    label: Amount::of(u64::from(ticks)),
                })?;
            }
        }
        Ok(())
    }

    // Adds the start if a constraint forbids it and its distance is at most `last`: the agent can't arrive.
    fn add_barred_start(&mut self, task: &LayerTask) -> Result<(), OutOfMemory> {
        let start = task.agent.start;
        self.begins.push(0)?;
        if task.is_start_barred() && task.distances.get(start).unwrap_or(u32::MAX) <= self.last {
            self.states.push(StateLabel {
                cell: start,
                rest: u32::MAX,
            })?;
            self.begins.push(1)?;
        }
        Ok(())
    }

    // Notes where the states of each tick begin.
    fn add_begins(&mut self, reach: &Reach) -> Result<(), OutOfMemory> {
        for tick in 0..=reach.ticks() {
            self.begins.push(number(reach.range_at(tick).0)?)?;
        }
        Ok(())
    }

    // Gives the states of this range their distances.
    fn fill_settled(&mut self, task: &LayerTask, reach: &Reach, (low, high): (usize, usize)) {
        for place in low..high {
            if let (Some(&cell), Some(state)) = (
                reach.cells().get(place),
                self.states.get_mut(place),
            ) {
                let rest = task.distances.get(cell).unwrap_or(u32::MAX);
                *state = StateLabel { cell, rest };
            }
        }
    }

    // Finds the costs that are left from the states of a tick by those of the next one. The agent may stay at its goal
    // from the tick on if `is_rest` says so.
    fn fill(&mut self, task: &LayerTask, reach: &Reach, tick: Tick, is_rest: bool) {
        let (low, high) = reach.range_at(tick);
        let next = tick.saturating_add(1);
        let onward = Onward {
            task,
            reach,
            rules: task.constraints.steps_to(next),
            tick: next,
            range: reach.range_at(next),
        };
        for place in low..high {
            let Some(&cell) = reach.cells().get(place) else {
                return;
            };
            let rest = if is_rest && cell == task.agent.goal {
                0
            } else {
                self.rest_from(&onward, cell)
            };
            if let Some(state) = self.states.get_mut(place) {
                *state = StateLabel { cell, rest };
            }
        }
    }

    // Returns the least cost that is left from a cell before a step.
    fn rest_from(&self, onward: &Onward, cell: Cell) -> u32 {
        let [above, left, here, right, below] = onward.task.around(cell);
        let least = self
            .rest_after(onward, cell, above)
            .min(self.rest_after(onward, cell, left))
            .min(self.rest_after(onward, cell, here))
            .min(self.rest_after(onward, cell, right))
            .min(self.rest_after(onward, cell, below));
        least.saturating_add(1)
    }

    // Returns the least cost that is left after a step, the greatest number if the step isn't allowed.
    #[inline(always)]
    fn rest_after(&self, onward: &Onward, from: Cell, to: Option<Cell>) -> u32 {
        let Some(to) = to else {
            return u32::MAX;
        };
        let Some(distance) = onward.task.distances.get(to) else {
            return u32::MAX;
        };
        if !onward.rules.allows(from, to, distance) {
            return u32::MAX;
        }
        if onward.tick.saturating_add(distance) > self.last {
            return distance;
        }
        // Each other step leads to one of the states.
        match onward.reach.place_in(onward.range, to) {
            Some(place) => self.states.get(place).map_or(distance, |state| state.rest),
            None => distance,
        }
    }
}

const NO_STATE: StateLabel = StateLabel {
    cell: Cell(0),
    rest: u32::MAX,
};

// Returns the tick from which on the agent goes straight to its goal, the greatest number if cells have to be clear.
fn settled_from(task: &LayerTask) -> Tick {
    if task.constraints.clear().is_empty() {
        task.constraints.horizon()
    } else {
        Tick::MAX
    }
}
