//! Which valid plan is found quickly?
//!
//! LaCAM (Okumura 2023, 'LaCAM: Search-Based Algorithm for Quick Multi-Agent Pathfinding') searches in depth over
//! configurations: where all agents are at a tick. Each configuration that is met has a tree of constraints, which say of
//! some agents where they go next. At each visit one of the constraints is taken, in breadth, and PIBT (Okumura et al.
//! 2022, 'Priority Inheritance with Backtracking for Iterative Multi-Agent Path Finding') moves all other agents: one
//! after the other takes the best step that is free, and whoever stands there is pushed away first. If that leads to a
//! configuration that was met before, the search goes back to it. A configuration whose tree has no more constraints is
//! left for good. So each configuration that can be reached is met in the end, and the search is complete: it finds a
//! plan if there is one, given time and memory.
//!
//! Two agents in a corridor can't pass by steps towards their goals. So PIBT finds out where two agents have to change
//! places, and pulls one behind the other to the next junction (the swap operation of Okumura 2023, 'Improving LaCAM for
//! Scalable Eventually Optimal Multi-Agent Pathfinding'). Equally good steps are ordered by a hash of cell, agent and
//! tick. Ordered by the number of the cell, the search takes far longer.
//!
//! The same problem always has the same plan. It is judged by a proved checker before anybody sees it, so nothing is
//! promised of it but its shape.
#![tactic(auto)]

mod configuration;
mod constraint_tree;
mod ends;
mod occupants;
mod outcome;
mod pibt;
mod priority;
mod search;
mod swap;
mod task;
mod trace;
mod turn;

pub use outcome::FirstPlan;
pub use search::{SUCCESSORS_TO_TRY, first_plan};
