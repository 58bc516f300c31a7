//! Which grid, and which problem on it, do these bytes spell?
#![tactic(auto)]

mod agent_row;
mod decimal;
mod header;
pub mod laws;
mod line;
mod map;
mod map_fault;
mod number;
mod scenario;
mod scenario_fault;
mod word;

pub use map::read_map;
pub use map_fault::MapFault;
pub use scenario::read_scen;
pub use scenario_fault::ScenFault;
