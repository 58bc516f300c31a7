//! Which cells are on an agent's cheapest paths, tick by tick, and which of these paths has the fewest conflicts with the
//! other agents?
//!
//! The layers of an agent's cheapest paths under its constraints are a multi-valued decision diagram, MDD (Sharon et
//! al. 2013): for each tick the cells in which such a path may be. A cell that is alone in its layer is on each
//! cheapest path, which tells the conflicts that raise an agent's cost from those that it can avoid (Boyarski et al.
//! 2015).
//!
//! An agent's constraints are a `ConstraintSet`: vertex and edge constraints, cells that have to be clear from some tick
//! on, and a least and a greatest cost. It is sorted, so it is compared with another set and looked up by tick
//! (`StepRules`). An agent with a least cost may wait at its goal until then.
//!
//! A sweep goes from tick to tick over the states that can be reached with an f-value (tick plus distance) of at most
//! a limit, and stops at the first tick at which the agent arrives for good (`Reach`). The limit begins with the cost
//! that is expected, and the steps by which it rises double. It never exceeds the greatest cost, and a state that is
//! left out for that isn't waited for. From the arrival the layers are followed backwards over the states that the sweep
//! has reached (`Workspace::layers`). So the states of a layer stand in the order in which they were met, from the goal to
//! the start. A search keeps many layers, so each state takes five bytes: its cell, and a byte that says which of the
//! cells around it lead to it.
//!
//! Where cells have to be clear, the goal may be cut off for ever, and no limit would be high enough. So before sweeps
//! become long it is asked whether the agent can arrive at all. `Spread` follows the cells in which the agent can be,
//! whatever its f-value, until no constraint changes any more and no cell is new. At each tick it looks only at those
//! beside which a new cell may be, so it takes few steps more than there are cells.
//!
//! The labels of a lemma say that an agent costs at least a value (`Workspace::labels`). A search for two agents needs
//! more: `StateLabels` has all states up to an f-value, with the least cost that is left from each. They are found by a
//! sweep that doesn't stop at the arrival, and then from the last tick back to the first.
//!
//! The conflict avoidance table has all agents' paths, by tick and cell. It finds the conflicts of a path, and by it a
//! path of the layers with the fewest conflicts is found (`Layers::best_path`).
//!
//! Nothing is promised of the answers, since what a search makes of them is judged by a checker. What is proved is that
//! each call returns, within its ranges.
#![tactic(auto)]

mod arrival;
mod best_path;
mod cell_places;
mod conflict_avoidance_table;
mod constraint_set;
mod layer_task;
mod layers;
mod reach;
mod spread;
mod state_labels;
mod step_rules;

pub use arrival::Arrival;
pub use best_path::BestSteps;
pub use conflict_avoidance_table::ConflictAvoidanceTable;
pub use constraint_set::{Clear, ConstraintSet};
pub use layer_task::LayerTask;
pub use layers::{Layers, Workspace};
pub use state_labels::{StateLabel, StateLabels};
pub use step_rules::StepRules;
