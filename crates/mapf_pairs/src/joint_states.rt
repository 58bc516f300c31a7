//! The joint states of two agents that have been reached, the way to each, and which of them are to be left.
use crate::emptying::empty;
use crate::single_steps::{SingleStep, short};
use crate::waiting::Waiting;
use indexmap::IndexMap;
use indexmap::map::Iter;
use mapf_model::{Cell, OutOfMemory, State, Tick};
use std::alloc::Global;

/// In place of the cell of an agent that has arrived for good.
pub(crate) const ARRIVED: Cell = Cell(u32::MAX);

/// The cells of both agents at a tick, `ARRIVED` for one that has arrived for good.
#[derive(Clone, Copy, Debug, PartialEq, Eq, Hash)]
pub(crate) struct Joint {
    pub(crate) tick: Tick,
    pub(crate) first: Cell,
    pub(crate) second: Cell,
}

/// One of the two agents.
#[derive(Clone, Copy, Debug)]
pub(crate) enum Mover {
    First,
    Second,
}

impl Joint {
    /// Returns the cell of an agent, `ARRIVED` if it has arrived for good.
    #[inline(always)]
    pub(crate) fn cell_of(&self, mover: Mover) -> Cell {
        match mover {
            Mover::First => self.first,
            Mover::Second => self.second,
        }
    }

    // Returns the joint state one tick later, after a step of the agent that hasn't arrived for good.
    fn after(&self, step: &SingleStep, mover: Mover) -> Joint {
        let tick = self.tick.saturating_add(1);
        match mover {
            Mover::First => Joint {
                tick,
                first: step.cell,
                second: ARRIVED,
            },
            Mover::Second => Joint {
                tick,
                first: ARRIVED,
                second: step.cell,
            },
        }
    }

    /// Returns the state of an agent that hasn't arrived for good.
    #[inline(always)]
    pub(crate) fn state_of(&self, mover: Mover) -> State {
        State {
            tick: self.tick,
            cell: self.cell_of(mover),
        }
    }
}

/// How a joint state is reached.
#[derive(Clone, Copy, Debug)]
pub(crate) struct Reached {
    /// What both agents have paid so far, in ticks.
    pub(crate) cost: u32,
    /// The place of the joint state before. That of the starts is their own.
    pub(crate) source: u32,
}

/// A joint state that is left in the round of a value.
#[derive(Clone, Copy, Debug)]
pub(crate) struct Leaving {
    pub(crate) joint: Joint,
    pub(crate) place: u32,
    pub(crate) cost: u32,
    pub(crate) value: u32,
}

/// The least value of steps that are due in a later round, the greatest number if there are none.
pub(crate) type Due = u32;

pub(crate) const NOTHING_DUE: Due = u32::MAX;

/// The joint states that have been reached, in the order in which they were met, each with the least cost.
#[derive(Drop)]
pub(crate) struct JointStates {
    states: IndexMap<Joint, Reached>,
    waiting: Waiting,
}

impl JointStates {
    /// Returns no joint states yet, with room for so many.
    pub(crate) fn of(alloc: Global, room: usize) -> Result<JointStates, OutOfMemory> {
        Ok(JointStates {
            states: IndexMap::with_capacity(alloc, room)?,
            waiting: Waiting::of(alloc)?,
        })
    }

    /// Begins anew with both starts, in the round of this value.
    pub(crate) fn begin(
        &mut self,
        first: Cell,
        second: Cell,
        value: u32,
    ) -> Result<(), OutOfMemory> {
        self.clear();
        let starts = Joint {
            tick: 0,
            first,
            second,
        };
        self.states.insert(starts, Reached { cost: 0, source: 0 })?;
        self.waiting.push(0, value, value)
    }

    // Removes all.
    fn clear(&mut self) {
        self.waiting.clear();
        empty(&mut self.states);
    }

    /// Returns how many there are.
    pub(crate) fn count(&self) -> usize {
        self.states.len()
    }

    /// Returns whether none is to be left in any later round.
    pub(crate) fn is_done(&self) -> bool {
        self.waiting.is_empty()
    }

    /// Returns all, with how each is reached.
    pub(crate) fn iter(&self) -> Iter<'_, Joint, Reached> {
        self.states.iter()
    }

    /// Returns the newest joint state that is to be left in the round of this value.
    #[inline(always)]
    pub(crate) fn pop(&mut self, value: u32) -> Option<Leaving> {
        let place = self.waiting.pop(value)?;
        let (joint, reached) = self.states.get_index(place as usize)?;
        Some(Leaving {
            joint: *joint,
            place,
            cost: reached.cost,
            value,
        })
    }

    /// Lets a joint state be left once more if steps from it are due.
    #[inline(always)]
    pub(crate) fn wait(&mut self, from: &Leaving, due: Due) -> Result<(), OutOfMemory> {
        if due == NOTHING_DUE {
            return Ok(());
        }
        self.waiting.push(from.place, from.value, due)
    }

    /// Adds a joint state that is reached at this cost, unless it is there. It is to be left in this round.
    #[inline(always)]
    pub(crate) fn add(
        &mut self,
        from: &Leaving,
        joint: Joint,
        cost: u32,
    ) -> Result<(), OutOfMemory> {
        let count = self.states.len();
        let reached = Reached {
            cost,
            source: from.place,
        };
        self.states.entry(joint)?.or_insert(reached);
        if self.states.len() > count {
            self.waiting.push(short(count)?, from.value, from.value)?;
        }
        Ok(())
    }

    /// Reaches the joint states of this round to which the first agent comes by a step and the second one by each of
    /// these. Returns the least of `due` and of the greater values.
    #[inline(always)]
    pub(crate) fn reach(
        &mut self,
        from: &Leaving,
        step: &SingleStep,
        others: &[SingleStep],
        due: Due,
    ) -> Result<Due, OutOfMemory> {
        let mut due = due;
        let cost = from.cost.saturating_add(2);
        let least = cost.saturating_add(step.rest);
        for other in others {
            let value = least.saturating_add(other.rest);
            if value < from.value || value >= due || is_conflict(&from.joint, step, other) {
                continue;
            }
            if value > from.value {
                due = value;
                continue;
            }
            let joint = Joint {
                tick: from.joint.tick.saturating_add(1),
                first: step.cell,
                second: other.cell,
            };
            self.add(from, joint, cost)?;
        }
        Ok(due)
    }

    /// Reaches the joint state to which an agent comes by a step after the other one has arrived for good, if that is in
    /// this round. Returns the least of `due` and of a greater value.
    #[inline(always)]
    pub(crate) fn reach_alone(
        &mut self,
        from: &Leaving,
        step: &SingleStep,
        mover: Mover,
        due: Due,
    ) -> Result<Due, OutOfMemory> {
        let cost = from.cost.saturating_add(1);
        let value = cost.saturating_add(step.rest);
        if value == from.value {
            let joint = from.joint.after(step, mover);
            self.add(from, joint, cost)?;
        }
        Ok(if value > from.value {
            due.min(value)
        } else {
            due
        })
    }

    /// Returns the cells of an agent's path to the joint state at this place, from its start up to its arrival for good
    /// or to this state.
    pub(crate) fn trace(
        &self,
        alloc: Global,
        place: u32,
        mover: Mover,
    ) -> Result<Vec<Cell>, OutOfMemory> {
        let mut cells = Vec::new(alloc);
        let mut place = place;
        let mut newest = Tick::MAX;
        for _ in 0..self.count() {
            let Some((joint, reached)) = self.states.get_index(place as usize) else {
                break;
            };
            // Where the other agent arrives for good, two joint states have one tick.
            let cell = joint.cell_of(mover);
            if cell != ARRIVED && joint.tick != newest {
                cells.push(cell)?;
                newest = joint.tick;
            }
            if reached.source == place {
                break;
            }
            place = reached.source;
        }
        cells.reverse();
        Ok(cells)
    }
}

// Returns whether the two steps from a joint state have a conflict.
#[inline(always)]
fn is_conflict(joint: &Joint, step: &SingleStep, other: &SingleStep) -> bool {
    step.cell == other.cell || (step.cell == joint.second && other.cell == joint.first)
}
