//! The agents of a tree.
use mapf_model::OutOfMemory;
use std::alloc::Global;

/// The agents of a tree, in rising order. Each has a place among them.
#[derive(Debug, Drop)]
pub struct Members {
    agents: Vec<u32>,
    // By agent of the problem.
    places: Vec<Option<u32>>,
}

impl Members {
    /// Returns these agents, which rise, of a problem with so many agents.
    pub fn of(alloc: Global, agents: Vec<u32>, count: usize) -> Result<Members, OutOfMemory> {
        let mut places = vec![in alloc; None; count]?;
        for (place, &agent) in (0u32..).zip(agents.iter()) {
            if let Some(entry) = places.get_mut(agent as usize) {
                *entry = Some(place);
            }
        }
        Ok(Members { agents, places })
    }

    /// Returns the agents.
    pub fn agents(&self) -> &[u32] {
        &self.agents
    }

    /// Returns how many agents there are.
    pub fn len(&self) -> usize {
        self.agents.len()
    }

    /// Returns the place of an agent, None if it isn't one of these.
    pub fn place(&self, agent: u32) -> Option<usize> {
        let place = self.places.get(agent as usize).copied().flatten()?;
        Some(place as usize)
    }

    /// Returns whether the agent is one of these.
    pub fn has(&self, agent: u32) -> bool {
        self.place(agent).is_some()
    }
}
