//! The steps that one agent may take, and what it has left after each.
use crate::emptying::empty;
use crate::pair_task::PairSide;
use indexmap::IndexMap;
use mapf_model::{Cell, Grid, OutOfMemory, State, Tick};
use std::alloc::Global;

/// The steps of an agent from those of its states from which the search for one pair has taken some.
#[derive(Drop)]
pub(crate) struct SingleSteps {
    // Where the steps from a state begin and end.
    ranges: IndexMap<State, StepRange>,
    steps: Vec<SingleStep>,
    goal: Cell,
    // The first tick from which on the agent may stay at its goal, None if it never may.
    rest_from: Option<Tick>,
    // From this tick on the agent may go straight to its goal.
    settled_from: Tick,
}

/// A part of the list of steps.
#[derive(Clone, Copy, Debug)]
pub(crate) struct StepRange {
    low: u32,
    high: u32,
}

/// A step of an agent.
#[derive(Clone, Copy, Debug)]
pub(crate) struct SingleStep {
    /// The cell that it leads to.
    pub(crate) cell: Cell,
    /// The least cost that the agent has left there.
    pub(crate) rest: u32,
}

impl SingleSteps {
    /// Returns no steps yet, with room for those from so many states.
    pub(crate) fn of(alloc: Global, room: usize) -> Result<SingleSteps, OutOfMemory> {
        Ok(SingleSteps {
            ranges: IndexMap::with_capacity(alloc, room)?,
            steps: Vec::with_capacity(alloc, room)?,
            goal: Cell(0),
            rest_from: None,
            settled_from: 0,
        })
    }

    /// Begins anew with an agent. Returns the least cost that it has left at its start, the greatest number if it can't
    /// arrive.
    pub(crate) fn begin(&mut self, side: &PairSide) -> u32 {
        empty(&mut self.ranges);
        self.steps.clear();
        self.goal = side.agent.goal;
        self.rest_from = side.constraints.rest_from(self.goal);
        self.settled_from = if side.constraints.clear().is_empty() {
            side.constraints.horizon()
        } else {
            Tick::MAX
        };
        let start = side.agent.start;
        match side.distances.get(start) {
            Some(distance) => self.rest(side, start, 0, distance),
            None => u32::MAX,
        }
    }

    /// Returns whether the agent may stay for good in the cell from the tick on.
    #[inline(always)]
    pub(crate) fn may_rest(&self, cell: Cell, tick: Tick) -> bool {
        cell == self.goal && matches!(self.rest_from, Some(rest) if tick >= rest)
    }

    /// Returns the goal of the agent.
    pub(crate) fn goal(&self) -> Cell {
        self.goal
    }

    /// Returns the steps of a range, in falling order of cells.
    #[inline(always)]
    pub(crate) fn list(&self, range: StepRange) -> &[SingleStep] {
        self.steps
            .get(range.low as usize..range.high as usize)
            .unwrap_or(&[])
    }

    /// Finds the steps that the constraints allow from a state, and after which the agent can arrive.
    #[inline(always)]
    pub(crate) fn find(
        &mut self,
        alloc: Global,
        grid: &Grid,
        side: &PairSide,
        from: &State,
    ) -> Result<StepRange, OutOfMemory> {
        match self.ranges.get(from) {
            Some(range) => Ok(*range),
            None => self.add(alloc, grid, side, from),
        }
    }

    // Finds the steps from a state for the first time.
    #[inline(never)]
    fn add(
        &mut self,
        alloc: Global,
        grid: &Grid,
        side: &PairSide,
        from: &State,
    ) -> Result<StepRange, OutOfMemory> {
        let low = short(self.steps.len())?;
        if grid.is_free(from.cell) {
            let cells = grid.steps(alloc, from.cell);
            for &to in cells.as_slice().iter().rev() {
                self.add_step(side, from, to)?;
            }
        }
        let high = short(self.steps.len())?;
        let range = StepRange { low, high };
        self.ranges.insert(*from, range)?;
        Ok(range)
    }

    // Adds the step to a cell, if it is allowed and the agent can arrive after it.
    #[inline(always)]
    fn add_step(&mut self, side: &PairSide, from: &State, to: Cell) -> Result<(), OutOfMemory> {
        let Some(distance) = side.distances.get(to) else {
            return Ok(());
        };
        let tick = from.tick.saturating_add(1);
        if !side
            .constraints
            .steps_to(tick)
            .allows(from.cell, to, distance)
        {
            return Ok(());
        }
        let rest = self.rest(side, to, tick, distance);
        if rest < u32::MAX {
            self.steps.push(SingleStep { cell: to, rest })?;
        }
        Ok(())
    }

    // Returns the least cost that the agent has left in a cell that it can reach by the tick, and that is at this distance
    // from its goal. The greatest number if it can't arrive.
    #[inline(always)]
    fn rest(&self, side: &PairSide, cell: Cell, tick: Tick, distance: u32) -> u32 {
        if tick >= self.settled_from || tick.saturating_add(distance) > side.labels.last() {
            return distance;
        }
        let row = side.labels.row(tick);
        let place = row.partition_point(|state| state.cell < cell);
        match row.get(place) {
            Some(state) if state.cell == cell => state.rest,
            _ => distance,
        }
    }
}

/// Returns a count or a place as it is kept. So many don't fit into memory.
pub(crate) fn short(count: usize) -> Result<u32, OutOfMemory> {
    u32::try_from(count).map_err(|_| OutOfMemory)
}
