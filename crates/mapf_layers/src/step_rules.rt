//! What an agent's constraints allow of the steps to one tick.
use crate::arrival::Arrival;
use crate::constraint_set::{Clear, is_cleared};
use mapf_model::{Cell, Tick};

/// What holds of an agent's steps to one tick.
#[derive(Drop)]
pub struct StepRules<'a> {
    // The arrivals that are forbidden at the tick.
    bars: &'a [Arrival],
    // The cells that have to be clear, from this tick on or from a later one.
    clear: &'a [Clear],
    tick: Tick,
    // The greatest tick at which the agent may arrive for good.
    most: u32,
    // Whether no arrival is forbidden, and no cell has to be clear.
    is_free: bool,
}

impl<'a> StepRules<'a> {
    /// Returns the rules at a tick at which these arrivals are forbidden.
    pub(crate) fn of(
        bars: &'a [Arrival],
        clear: &'a [Clear],
        tick: Tick,
        most: Option<u32>,
    ) -> StepRules<'a> {
        StepRules {
            bars,
            clear,
            tick,
            most: most.unwrap_or(u32::MAX),
            is_free: bars.is_empty() && clear.is_empty(),
        }
    }

    /// Returns the tick.
    pub(crate) fn tick(&self) -> Tick {
        self.tick
    }

    /// Returns whether the agent may go from one cell to the other, which is at this distance from its goal.
    #[inline(always)]
    pub fn allows(&self, from: Cell, to: Cell, distance: u32) -> bool {
        self.tick.saturating_add(distance) <= self.most && self.is_open(from, to)
    }

    /// Returns whether the agent may go from one cell to the other, if it isn't too late for its greatest cost.
    #[inline(always)]
    pub(crate) fn is_open(&self, from: Cell, to: Cell) -> bool {
        self.is_free || !(self.is_barred(from, to) || self.is_cleared(to))
    }

    /// Returns whether the step is an arrival that is forbidden.
    pub(crate) fn is_barred(&self, from: Cell, to: Cell) -> bool {
        self.bars.iter().any(|bar| bar.is_step(from, to))
    }

    /// Returns whether the cell has to be clear at the tick.
    pub(crate) fn is_cleared(&self, to: Cell) -> bool {
        !self.clear.is_empty() && is_cleared(self.clear, to, self.tick)
    }
}
