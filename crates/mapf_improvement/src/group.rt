//! A group of agents that are planned again together.
use mapf_model::OutOfMemory;
use std::alloc::Global;

/// The greatest number of agents of a group.
pub const MOST_IN_GROUP: usize = 12;

/// Some different agents, up to a number that is wanted.
#[derive(Debug, Drop)]
pub struct Group {
    agents: Vec<usize>,
    wanted: usize,
}

impl Group {
    /// Returns a group of nobody.
    pub fn of(alloc: Global) -> Group {
        Group {
            agents: Vec::new(alloc),
            wanted: 0,
        }
    }

    /// Begins a new group of so many agents.
    pub fn begin(&mut self, wanted: usize) {
        self.agents.clear();
        self.wanted = wanted.min(MOST_IN_GROUP);
    }

    /// Adds an agent, unless it is there or no more are wanted.
    pub fn add(&mut self, agent: usize) -> Result<(), OutOfMemory> {
        if !self.is_full() && !self.agents.contains(&agent) {
            self.agents.push(agent)?;
        }
        Ok(())
    }

    /// Returns how many agents are wanted.
    pub fn wanted(&self) -> usize {
        self.wanted
    }

    /// Returns whether no more agents are wanted.
    pub fn is_full(&self) -> bool {
        self.agents.len() >= self.wanted
    }

    /// Returns the agents.
    pub fn agents(&self) -> &[usize] {
        &self.agents
    }

    /// Returns the agents, to be put into another order.
    pub fn agents_mut(&mut self) -> &mut [usize] {
        self.agents.as_mut_slice()
    }
}
