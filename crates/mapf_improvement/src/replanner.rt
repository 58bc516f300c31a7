//! A group of agents is planned again.
use crate::draft::Draft;
use crate::numbers::Numbers;
use crate::path_search::{PathSearch, PathTask};
use mapf_model::{Cell, OutOfMemory};
use std::alloc::Global;

/// The memory in which groups are planned again.
#[derive(Drop)]
pub struct Replanner {
    search: PathSearch,
    // New paths of the first agents of the group.
    paths: Vec<Vec<Cell>>,
}

impl Replanner {
    /// Returns the memory for a grid of so many cells.
    pub fn of(alloc: Global, cells: usize) -> Result<Replanner, OutOfMemory> {
        Ok(Replanner {
            search: PathSearch::of(alloc, cells)?,
            paths: Vec::new(alloc),
        })
    }

    /// Takes the agents out of the draft and plans them again one after the other. Their new paths are kept if they cost
    /// no more together than the old ones.
    pub fn replan(
        &mut self,
        draft: &mut Draft,
        agents: &[usize],
        numbers: &mut Numbers,
    ) -> Result<(), OutOfMemory> {
        let mut spare = 0u32;
        for &agent in agents {
            spare = spare.saturating_add(draft.delay(agent));
            draft.take_out(agent);
        }
        if self.find_all(draft, agents, spare, numbers)? {
            self.keep(draft, agents);
            return Ok(());
        }
        self.undo(draft, agents)
    }

    // Finds new paths of the agents that cost at most so much more together than the shortest ones. Returns whether there
    // are any.
    fn find_all(
        &mut self,
        draft: &mut Draft,
        agents: &[usize],
        spare: u32,
        numbers: &mut Numbers,
    ) -> Result<bool, OutOfMemory> {
        let mut spare = spare;
        for &agent in agents {
            let least = draft.least(agent);
            let most = least.saturating_add(spare);
            let Some(path) = self.find_one(draft, agent, most, numbers)? else {
                return Ok(false);
            };
            let cost = u32::try_from(path.len().saturating_sub(1)).unwrap_or(most);
            spare = most.saturating_sub(cost);
            draft.stays.put(agent, &path)?;
            self.paths.push(path)?;
        }
        Ok(true)
    }

    fn find_one(
        &mut self,
        draft: &Draft,
        agent: usize,
        most: u32,
        numbers: &mut Numbers,
    ) -> Result<Option<Vec<Cell>>, OutOfMemory> {
        let (Some(who), Some(distances)) = (draft.agent(agent), draft.distances(agent)) else {
            return Ok(None);
        };
        let task = PathTask {
            grid: draft.problem.grid(),
            distances,
            stays: &draft.stays,
            agent: who,
            most,
        };
        self.search.find(&task, numbers)
    }

    // Gives the agents their new paths, on which they are.
    fn keep(&mut self, draft: &mut Draft, agents: &[usize]) {
        for &agent in agents.iter().rev() {
            if let Some(path) = self.paths.pop() {
                draft.replace(agent, path);
            }
        }
    }

    // Takes the first agents off their new paths, and puts all back on their old ones.
    fn undo(&mut self, draft: &mut Draft, agents: &[usize]) -> Result<(), OutOfMemory> {
        for (&agent, path) in agents.iter().zip(self.paths.iter()) {
            draft.stays.take(agent, path);
        }
        self.paths.clear();
        for &agent in agents {
            draft.put_back(agent)?;
        }
        Ok(())
    }
}
