//! The paths of a node's agents in a conflict avoidance table, from node to node.
use crate::paths::Paths;
use mapf_layers::{BestSteps, ConflictAvoidanceTable, Layers};
use mapf_model::{Cell, Conflict, Grid, OutOfMemory, Path};
use std::alloc::Global;

/// The paths of all agents by tick and cell, with the number of each agent's path.
#[derive(Drop)]
pub struct Placed {
    alloc: Global,
    table: ConflictAvoidanceTable,
    // By agent.
    numbers: Vec<Option<u32>>,
    steps: BestSteps,
}

impl Placed {
    /// Returns the table of so many agents, none of which has a path yet.
    pub fn of(alloc: Global, grid: &Grid, agents: usize) -> Result<Placed, OutOfMemory> {
        let count = u32::try_from(agents).map_err(|_| OutOfMemory)?;
        Ok(Placed {
            alloc,
            table: ConflictAvoidanceTable::of(alloc, count)?,
            numbers: vec![in alloc; None; agents]?,
            steps: BestSteps::of(alloc, grid)?,
        })
    }

    /// Puts an agent on the path of a number.
    pub fn put(&mut self, paths: &Paths, agent: u32, number: u32) -> Result<(), OutOfMemory> {
        let Some(entry) = self.numbers.get_mut(agent as usize) else {
            return Ok(());
        };
        if *entry == Some(number) {
            return Ok(());
        }
        *entry = Some(number);
        let cells = paths.cells(number);
        self.table.reserve(self.alloc, count_of(cells))?;
        self.table.set(agent, cells);
        Ok(())
    }

    /// Returns the conflicts of the agent on this path with all others: by the other agent, then by tick.
    pub fn conflicts(&mut self, agent: u32, path: &[Cell]) -> Result<Vec<Conflict>, OutOfMemory> {
        self.table.reserve(self.alloc, count_of(path))?;
        self.table.conflicts(self.alloc, agent, path)
    }

    /// Returns a path of these layers of the agent that has the fewest conflicts with the others up to its arrival.
    pub fn best_path(&mut self, layers: &Layers, agent: u32) -> Result<Path, OutOfMemory> {
        self.table
            .reserve(self.alloc, layers.cost().saturating_add(1))?;
        layers.best_path(self.alloc, &self.table, &mut self.steps, agent)
    }
}

// Returns how many cells a path has. There are at most 10,000,000.
fn count_of(path: &[Cell]) -> u32 {
    u32::try_from(path.len()).unwrap_or(u32::MAX)
}
