//! Which agent is in a cell. PIBT asks it of the present tick and of the next one.
use mapf_model::{Cell, OutOfMemory};
use std::alloc::Global;

// Nobody. Agents are numbers of one byte here.
const NOBODY: u8 = u8::MAX;

/// The agent in each cell of a grid.
#[derive(Debug, Drop)]
pub struct Occupants {
    // By cell.
    agents: Vec<u8>,
}

impl Occupants {
    /// Returns a grid of so many cells with nobody in them.
    pub fn of(alloc: Global, cells: usize) -> Result<Occupants, OutOfMemory> {
        Ok(Occupants {
            agents: vec![in alloc; NOBODY; cells]?,
        })
    }

    /// Returns the agent in the cell.
    #[inline(always)]
    pub fn get(&self, cell: Cell) -> Option<usize> {
        match self.agents.get(cell.0 as usize) {
            Some(&agent) if agent != NOBODY => Some(usize::from(agent)),
            _ => None,
        }
    }

    /// Puts the agent into the cell.
    #[inline(always)]
    pub fn put(&mut self, cell: Cell, agent: usize) {
        self.set(cell, u8::try_from(agent).unwrap_or(NOBODY));
    }

    /// Takes whoever is there out of the cell.
    #[inline(always)]
    pub fn remove(&mut self, cell: Cell) {
        self.set(cell, NOBODY);
    }

    #[inline(always)]
    fn set(&mut self, cell: Cell, agent: u8) {
        if let Some(entry) = self.agents.get_mut(cell.0 as usize) {
            *entry = agent;
        }
    }
}
