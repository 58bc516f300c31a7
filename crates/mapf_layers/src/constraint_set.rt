//! The constraints of one agent, sorted, so that two sets of them can be compared and looked up by tick.
use crate::arrival::{Arrival, arrivals_at};
use crate::step_rules::StepRules;
use mapf_lemmas::{AgentConstraint, PathConstraint};
use mapf_model::{Cell, OutOfMemory, Tick};
use std::alloc::Global;

/// A cell in which an agent isn't at any tick from this one on.
#[derive(Clone, Copy, Debug, PartialEq, Eq, PartialOrd, Ord, Hash)]
pub struct Clear {
    pub cell: Cell,
    pub tick: Tick,
}

/// The constraints of one agent, in a form by which two sets are compared: sorted, without those that follow from
/// another one.
#[derive(Debug, PartialEq, Eq, Hash, Drop)]
pub struct ConstraintSet {
    // In rising order.
    arrivals: Vec<Arrival>,
    // In rising order of cells, one for each.
    clear: Vec<Clear>,
    // The path costs at least so many ticks, 0 if no constraint says so.
    least: u32,
    // The path costs at most so many ticks, None if no constraint says so.
    most: Option<u32>,
}

impl ConstraintSet {
    /// Returns the set without constraints.
    pub fn new(alloc: Global) -> ConstraintSet {
        ConstraintSet {
            arrivals: Vec::new(alloc),
            clear: Vec::new(alloc),
            least: 0,
            most: None,
        }
    }

    /// Takes all constraints away.
    pub fn reset(&mut self) {
        self.arrivals.clear();
        self.clear.clear();
        self.least = 0;
        self.most = None;
    }

    /// Adds a constraint. After the last one `tidy` has to be called.
    pub fn add(&mut self, constraint: PathConstraint) -> Result<(), OutOfMemory> {
        match constraint {
            PathConstraint::NotAt { cell, tick } => self.arrivals.push(Arrival::at(cell, tick))?,
            PathConstraint::NotMove { from, to, tick } => {
                self.arrivals.push(Arrival::by_move(from, to, tick))?
            }
            PathConstraint::Clear { cell, tick } => self.clear.push(Clear { cell, tick })?,
            PathConstraint::Most { ticks } => {
                self.most = Some(ticks.min(self.most.unwrap_or(ticks)));
            }
            PathConstraint::Least { ticks } => self.least = self.least.max(ticks),
        }
        Ok(())
    }

    /// Adds all constraints of another set. After the last one `tidy` has to be called.
    pub fn add_all(&mut self, other: &ConstraintSet) -> Result<(), OutOfMemory> {
        self.arrivals.extend_from_slice(&other.arrivals)?;
        self.clear.extend_from_slice(&other.clear)?;
        self.least = self.least.max(other.least);
        if let Some(ticks) = other.most {
            self.most = Some(ticks.min(self.most.unwrap_or(ticks)));
        }
        Ok(())
    }

    /// Sorts the constraints, and drops those that are there twice or follow from another one: a vertex constraint on a
    /// cell that has to be clear by then, and a later tick from which a cell has to be clear.
    pub fn tidy(&mut self) {
        self.clear.sort_unstable();
        self.clear.dedup_by_key(|clear| clear.cell);
        self.arrivals.sort_unstable();
        self.arrivals.dedup();
        if !self.clear.is_empty() {
            let clear = &self.clear;
            self.arrivals.retain(|bar| bar.from.is_some()
                || !is_cleared(clear, bar.cell, bar.tick));
        }
    }

    /// Returns the same set once more.
    pub fn duplicate(&self, alloc: Global) -> Result<ConstraintSet, OutOfMemory> {
        Ok(ConstraintSet {
            arrivals: Vec::from_slice(alloc, &self.arrivals)?,
            clear: Vec::from_slice(alloc, &self.clear)?,
            least: self.least,
            most: self.most,
        })
    }

    /// Returns the arrivals that are forbidden, in rising order.
    pub fn arrivals(&self) -> &[Arrival] {
        &self.arrivals
    }

    /// Returns the cells that have to be clear, in rising order.
    pub fn clear(&self) -> &[Clear] {
        &self.clear
    }

    /// Returns how many ticks the path costs at least, 0 if no constraint says so.
    pub fn least(&self) -> u32 {
        self.least
    }

    /// Returns how many ticks the path costs at most, None if no constraint says so.
    pub fn most(&self) -> Option<u32> {
        self.most
    }

    /// Returns the tick after which nothing changes: no arrival is forbidden, and each cell that has to be clear is.
    pub fn horizon(&self) -> Tick {
        let mut horizon = self.least;
        if let Some(bar) = self.arrivals.last() {
            horizon = horizon.max(bar.tick);
        }
        for clear in &self.clear {
            horizon = horizon.max(clear.tick);
        }
        horizon
    }

    /// Returns the first tick from which on the agent may stay at its goal, None if the goal has to be clear.
    pub fn rest_from(&self, goal: Cell) -> Option<Tick> {
        if is_cleared(&self.clear, goal, Tick::MAX) {
            return None;
        }
        let mut rest = self.least;
        for bar in &self.arrivals {
            if bar.cell == goal && bar.from.is_none() {
                rest = rest.max(bar.tick.saturating_add(1));
            }
        }
        Some(rest)
    }

    /// Returns what holds of all steps to this tick.
    pub fn steps_to(&self, tick: Tick) -> StepRules<'_> {
        StepRules::of(
            arrivals_at(&self.arrivals, tick),
            &self.clear,
            tick,
            self.most,
        )
    }

    /// Returns whether each constraint of the other set is in this one, or follows from one that is.
    pub fn covers(&self, other: &ConstraintSet) -> bool {
        let is_most_covered = match (self.most, other.most) {
            (_, None) => true,
            (Some(most), Some(ticks)) => most <= ticks,
            (None, Some(_)) => false,
        };
        is_most_covered
            && other.least <= self.least
            && other
                .clear
                .iter()
                .all(|clear| is_cleared(&self.clear, clear.cell, clear.tick))
            && other.arrivals.iter().all(|bar| self.bars(bar))
    }

    // Returns whether the arrival is forbidden by a constraint of this set.
    fn bars(&self, bar: &Arrival) -> bool {
        self.arrivals.binary_search(bar).is_ok()
            || (bar.from.is_none() && is_cleared(&self.clear, bar.cell, bar.tick))
    }

    /// Returns whether the path obeys these constraints, at rest after its end too. The least cost isn't asked for,
    /// since a path may wait at its goal.
    pub fn is_obeyed_by(&self, path: &[Cell]) -> bool {
        let cost = cost_of(path);
        self.most.is_none_or(|most| cost <= most)
            && self.arrivals.iter().all(|bar| !is_arrival(path, bar))
            && self.clear.iter().all(|clear| is_left(path, clear))
    }

    /// Returns the constraints as those of the agent with this number.
    pub fn constraints(
        &self,
        alloc: Global,
        agent: u32,
    ) -> Result<Vec<AgentConstraint>, OutOfMemory> {
        let mut list = Vec::new(alloc);
        for bar in &self.arrivals {
            let constraint = bar.constraint();
            list.push(AgentConstraint { agent, constraint })?;
        }
        for &Clear { cell, tick } in &self.clear {
            let constraint = PathConstraint::Clear { cell, tick };
            list.push(AgentConstraint { agent, constraint })?;
        }
        if let Some(ticks) = self.most {
            let constraint = PathConstraint::Most { ticks };
            list.push(AgentConstraint { agent, constraint })?;
        }
        if self.least > 0 {
            let constraint = PathConstraint::Least { ticks: self.least };
            list.push(AgentConstraint { agent, constraint })?;
        }
        Ok(list)
    }
}

/// Returns whether the cell has to be clear at the tick, by these constraints, which rise by cell.
pub(crate) fn is_cleared(clear: &[Clear], cell: Cell, tick: Tick) -> bool {
    let place = clear.partition_point(|other| other.cell < cell);
    match clear.get(place) {
        Some(found) => found.cell == cell && found.tick <= tick,
        None => false,
    }
}

// Returns the cell of a path at a tick, which is its last one after its end. None if it has none.
fn cell_at(path: &[Cell], tick: Tick) -> Option<Cell> {
    path.get(tick as usize).or(path.last()).copied()
}

// Returns the tick of a path's last arrival in its last cell.
fn cost_of(path: &[Cell]) -> u32 {
    let mut cost = 0;
    for (tick, cell) in path.iter().enumerate() {
        if path.last() != Some(cell) {
            cost = u32::try_from(tick.saturating_add(1)).unwrap_or(u32::MAX);
        }
    }
    cost
}

// Returns whether the path makes the arrival.
fn is_arrival(path: &[Cell], bar: &Arrival) -> bool {
    if cell_at(path, bar.tick) != Some(bar.cell) {
        return false;
    }
    match bar.from {
        None => true,
        Some(from) => cell_at(path, bar.tick.saturating_sub(1)) == Some(from),
    }
}

// Returns whether the path has left the cell by the tick, and isn't in it from then on.
fn is_left(path: &[Cell], clear: &Clear) -> bool {
    let later = path.get(clear.tick as usize..).unwrap_or(&[]);
    path.last() != Some(&clear.cell) && !later.contains(&clear.cell)
}
