//! An agent whose layers are to be found: where it goes, and under which constraints.
use crate::constraint_set::ConstraintSet;
use mapf_distance::Distances;
use mapf_model::limits::MOST_CELLS;
use mapf_model::{Agent, Cell, Neighbourhoods, Tick};

/// An agent on a grid, with its constraints.
#[derive(Drop)]
pub struct LayerTask<'a> {
    /// The neighbourhoods of the grid's cells.
    pub neighbourhoods: &'a Neighbourhoods,
    /// The distances to the agent's goal.
    pub distances: &'a Distances,
    pub agent: Agent,
    pub constraints: &'a ConstraintSet,
}

impl<'a> LayerTask<'a> {
    /// Returns the first tick from which on the agent may stay at its goal, None if it never may.
    pub(crate) fn rest(&self) -> Option<Tick> {
        self.constraints.rest_from(self.agent.goal)
    }

    /// Returns a cost that no cheapest path exceeds, in ticks: after the last change of its constraints the agent needs
    /// no more steps than there are cells, and a constraint may allow it less.
    pub(crate) fn most(&self) -> u32 {
        self.constraints
            .horizon()
            .saturating_add(MOST_CELLS)
            .min(self.greatest_cost())
    }

    /// Returns the cost that a constraint allows at most, in ticks. The greatest number if none does.
    pub(crate) fn greatest_cost(&self) -> u32 {
        self.constraints.most().unwrap_or(u32::MAX)
    }

    /// Returns whether a constraint forbids the start at tick 0.
    pub(crate) fn is_start_barred(&self) -> bool {
        let start = self.agent.start;
        match self.distances.get(start) {
            Some(distance) => !self.constraints.steps_to(0).allows(start, start, distance),
            None => false,
        }
    }

    /// Returns the cells above and left, the cell itself, and those right and below; blocked ones among them.
    #[inline(always)]
    pub(crate) fn around(&self, cell: Cell) -> [Option<Cell>; 5] {
        if cell.0 < MOST_CELLS {
            self.neighbourhoods.around(cell)
        } else {
            [None; 5]
        }
    }
}
