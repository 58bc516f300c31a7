//! Which pairs of agents were looked at since a moment.
use mapf_model::OutOfMemory;
use std::alloc::Global;

/// A mark for each pair of agents, from one moment to the next.
#[derive(Debug, Drop)]
pub struct PairMarks {
    agents: usize,
    // By pair, the moment since which it is marked.
    moments: Vec<u32>,
    now: u32,
}

impl PairMarks {
    /// Returns the marks of so many agents, before the first moment.
    pub fn of(alloc: Global, agents: usize) -> Result<PairMarks, OutOfMemory> {
        Ok(PairMarks {
            agents,
            moments: vec![in alloc; 0; agents.saturating_mul(agents)]?,
            now: 0,
        })
    }

    /// Takes all marks away.
    pub fn begin(&mut self) {
        self.now = self.now.saturating_add(1);
    }

    /// Marks a pair. Returns whether it had no mark.
    pub fn mark(&mut self, i: u32, j: u32) -> bool {
        let row = (i as usize).saturating_mul(self.agents);
        match self.moments.get_mut(row.saturating_add(j as usize)) {
            Some(moment) if *moment != self.now => {
                *moment = self.now;
                true
            }
            _ => false,
        }
    }
}
