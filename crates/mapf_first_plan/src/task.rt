//! What a search is about: the problem, and how far each cell is from each goal.
use mapf_distance::Distances;
use mapf_model::{Agent, Cell, Problem};
use smallvec::SmallVec;
use std::alloc::Global;

/// A problem with the distances to its agents' goals.
#[derive(Clone, Copy)]
pub struct Task<'a> {
    pub problem: &'a Problem,
    /// By agent.
    pub distances: &'a [Distances],
    /// The number of the search for the problem's plan, from 0.
    pub attempt: u32,
}

impl<'a> Task<'a> {
    /// Returns the agents.
    pub fn agents(&self) -> &'a [Agent] {
        self.problem.agents()
    }

    /// Returns how many steps it is for the agent from the cell to its goal, `u32::MAX` if no steps lead there.
    #[inline(always)]
    pub fn distance(&self, agent: usize, cell: Cell) -> u32 {
        let Some(distances) = self.distances.get(agent) else {
            return u32::MAX;
        };
        distances.get(cell).unwrap_or(u32::MAX)
    }

    /// Returns where an agent may be one tick after it is in the cell.
    #[inline(always)]
    pub fn steps(&self, alloc: Global, cell: Cell) -> SmallVec<Cell, 5> {
        let grid = self.problem.grid();
        if !grid.is_free(cell) {
            return SmallVec::new(alloc);
        }
        grid.steps(alloc, cell)
    }

    /// Returns whether the cell is the agent's goal.
    pub fn is_goal(&self, agent: usize, cell: Cell) -> bool {
        match self.agents().get(agent) {
            Some(who) => who.goal == cell,
            None => false,
        }
    }
}
