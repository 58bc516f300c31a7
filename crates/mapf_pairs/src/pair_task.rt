//! What is asked: two agents on a grid, with their constraints and what is known of each of them alone.
use mapf_distance::Distances;
use mapf_layers::{ConstraintSet, StateLabels};
use mapf_model::{Agent, Grid};

/// One of two agents, with its constraints and what is known of its states.
#[derive(Clone, Copy)]
pub struct PairSide<'a> {
    pub agent: Agent,
    pub constraints: &'a ConstraintSet,
    /// Those to its goal.
    pub distances: &'a Distances,
    pub labels: &'a StateLabels,
    /// The cost of its cheapest path, in ticks.
    pub cost: u32,
}

/// Two agents on a grid.
#[derive(Clone, Copy)]
pub struct PairTask<'a> {
    pub grid: &'a Grid,
    pub first: PairSide<'a>,
    pub second: PairSide<'a>,
}
