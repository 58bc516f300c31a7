//! How many conflicts a node has, by which nodes of one bound are compared.
use mapf_model::{Conflict, OutOfMemory};
use std::alloc::Global;

/// The pairs of agents in conflict, and the conflicts. They are compared in this order.
#[derive(Clone, Copy, Debug, Default, PartialEq, Eq, PartialOrd, Ord)]
pub struct ConflictCount {
    pub pairs: u32,
    pub conflicts: u32,
}

impl ConflictCount {
    /// Counts these conflicts, of which those of a pair stand together.
    pub fn of(conflicts: &[Conflict]) -> ConflictCount {
        let mut count = ConflictCount::default();
        let mut last = None;
        for conflict in conflicts {
            count.add(conflict, &mut last);
        }
        count
    }

    /// Counts a conflict more, after one of this pair. None if it is the first one.
    pub fn add(&mut self, conflict: &Conflict, last: &mut Option<(u32, u32)>) {
        let pair = pair_of(conflict);
        if *last != Some(pair) {
            *last = Some(pair);
            self.pairs = self.pairs.saturating_add(1);
        }
        self.conflicts = self.conflicts.saturating_add(1);
    }
}

/// Returns the two agents of a conflict, that of the lesser number first.
pub fn pair_of(conflict: &Conflict) -> (u32, u32) {
    match *conflict {
        Conflict::Vertex { i, j, .. } => (i, j),
        Conflict::Swap { i, j, .. } => (i, j),
    }
}

/// Returns whether the agent takes part in the conflict.
pub fn is_of(conflict: &Conflict, agent: u32) -> bool {
    let (i, j) = pair_of(conflict);
    i == agent || j == agent
}

/// Returns the pairs of agents in conflict, in rising order.
pub fn pairs_of(alloc: Global, conflicts: &[Conflict]) -> Result<Vec<(u32, u32)>, OutOfMemory> {
    let mut pairs: Vec<(u32, u32)> = Vec::new(alloc);
    for conflict in conflicts {
        let pair = pair_of(conflict);
        // Those of a pair mostly stand together.
        if pairs.last() != Some(&pair) {
            pairs.push(pair)?;
        }
    }
    pairs.sort_unstable();
    pairs.dedup();
    Ok(pairs)
}
