//! How many steps is it from each cell to a goal?
//!
//! A table holds the distance of each cell to one goal, found by breadth-first search. `LazyTables` makes an agent's
//! table when it is first asked for, `goal_tables` all at once.
//!
//! Where only one start matters, A* (Hart et al. 1968) runs from the goal to the start, with the Manhattan distance as
//! its heuristic. On an open map it expands at most the rectangle between both, in a maze nearly all cells. Its memory
//! is one entry for each cell and three lists of open cells, and is freed after each agent. `start_distances` ends once
//! the distance of the start is known. It goes in depth, so that it ends early where many paths are equally short.
//! `shortest_path` goes on until no cell of the last f-value is open. Then each cell of a shortest path has its
//! distance as its entry, and the least path is read off these entries. It expands the cells of an f-value row by row,
//! so few cells are open at a time. If no cell is open and the start wasn't reached, no steps lead there, and no table
//! is made.
#![tactic(auto)]

mod distances;
mod lazy_tables;
mod search;
mod shortest;
mod starts;
mod tables;
mod wave;

pub use distances::Distances;
pub use lazy_tables::LazyTables;
pub use shortest::shortest_path;
pub use starts::start_distances;
pub use tables::goal_tables;
