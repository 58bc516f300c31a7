//! The plan that is improved.
use crate::stays::Stays;
use mapf_distance::Distances;
use mapf_model::{Agent, Cell, OutOfMemory, Plan, Problem, Tick};
use std::alloc::Global;

/// A plan that is improved, and who is where when in it.
#[derive(Drop)]
pub struct Draft<'a> {
    pub problem: &'a Problem,
    // The distances to the goals, by agent.
    distances: &'a [Distances],
    // By agent, up to its arrival.
    paths: Vec<Vec<Cell>>,
    // The distances of the starts, by agent.
    least: Vec<u32>,
    pub stays: Stays,
    /// The sum of costs.
    pub sum: u64,
    /// The sum of the distances of the starts. No plan is cheaper.
    pub least_sum: u64,
}

impl<'a> Draft<'a> {
    /// Returns the draft of a plan.
    pub fn of(
        alloc: Global,
        problem: &'a Problem,
        distances: &'a [Distances],
        plan: &Plan,
    ) -> Result<Draft<'a>, OutOfMemory> {
        let grid = problem.grid();
        let mut draft = Draft {
            problem,
            distances,
            paths: Vec::with_capacity(alloc, plan.paths().len())?,
            least: Vec::with_capacity(alloc, plan.paths().len())?,
            stays: Stays::of(alloc, (grid.width() * grid.height()) as usize)?,
            sum: 0,
            least_sum: 0,
        };
        for path in plan.paths() {
            draft.add(Vec::from_slice(alloc, up_to_arrival(path.cells()))?)?;
        }
        Ok(draft)
    }

    // Adds the next agent with its path.
    fn add(&mut self, path: Vec<Cell>) -> Result<(), OutOfMemory> {
        let agent = self.paths.len();
        let least = match self.agent(agent) {
            Some(who) => self.distance(agent, who.start),
            None => 0,
        };
        self.stays.put(agent, &path)?;
        self.paths.push(path)?;
        self.least.push(least)?;
        self.least_sum = self.least_sum.saturating_add(u64::from(least));
        self.sum = self.sum.saturating_add(u64::from(self.cost(agent)));
        Ok(())
    }

    /// Returns how many agents there are.
    pub fn len(&self) -> usize {
        self.paths.len()
    }

    /// Returns the agent of a number.
    pub fn agent(&self, agent: usize) -> Option<Agent> {
        self.problem.agents().get(agent).copied()
    }

    /// Returns the distances to an agent's goal.
    pub fn distances(&self, agent: usize) -> Option<&'a Distances> {
        self.distances.get(agent)
    }

    /// Returns the agent's path, up to its arrival.
    pub fn path(&self, agent: usize) -> &[Cell] {
        match self.paths.get(agent) {
            Some(path) => path.as_slice(),
            None => &[],
        }
    }

    /// Returns where the agent is at a tick, None if there is no such agent.
    pub fn cell_at(&self, agent: usize, tick: Tick) -> Option<Cell> {
        let path = self.path(agent);
        let cell = path.get(tick as usize).or(path.last());
        cell.copied()
    }

    /// Returns what the agent's path costs, in ticks.
    pub fn cost(&self, agent: usize) -> u32 {
        let arrival = self.path(agent).len().saturating_sub(1);
        u32::try_from(arrival).unwrap_or(u32::MAX)
    }

    /// Returns how many steps it is for the agent from a cell to its goal, `u32::MAX` if no steps lead there.
    pub fn distance(&self, agent: usize, cell: Cell) -> u32 {
        match self.distances.get(agent) {
            Some(distances) => distances.get(cell).unwrap_or(u32::MAX),
            None => u32::MAX,
        }
    }

    /// Returns what the agent's path costs at least, in ticks.
    pub fn least(&self, agent: usize) -> u32 {
        self.least.get(agent).copied().unwrap_or(0)
    }

    /// Returns how much more the agent's path costs than the shortest one.
    pub fn delay(&self, agent: usize) -> u32 {
        self.cost(agent).saturating_sub(self.least(agent))
    }

    /// Takes the agent off the grid. Its path is kept.
    pub fn take_out(&mut self, agent: usize) {
        if let Some(path) = self.paths.get(agent) {
            self.stays.take(agent, path);
        }
    }

    /// Puts the agent back on its path.
    pub fn put_back(&mut self, agent: usize) -> Result<(), OutOfMemory> {
        match self.paths.get(agent) {
            Some(path) => self.stays.put(agent, path),
            None => Ok(()),
        }
    }

    /// Gives the agent, which was put on this path, the path in place of its old one.
    pub fn replace(&mut self, agent: usize, path: Vec<Cell>) {
        self.sum = self.sum.saturating_sub(u64::from(self.cost(agent)));
        if let Some(old) = self.paths.get_mut(agent) {
            *old = path;
        }
        self.sum = self.sum.saturating_add(u64::from(self.cost(agent)));
    }
}

// Returns a path without waits at its end.
fn up_to_arrival(cells: &[Cell]) -> &[Cell] {
    let last = cells.last();
    let arrival = cells.iter().rposition(|cell| last != Some(cell));
    let rest = arrival.map_or(0, |place| place.saturating_add(1));
    cells.get(..=rest).unwrap_or(cells)
}
