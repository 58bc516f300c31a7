//! Which plan is optimal, and which constraint tree shows it? Conflict-based search (Sharon et al. 2015).
//!
//! A node is a delta node: it holds its parent, its one new constraint, and what the search for that agent found. Of a
//! node that was split the left child's number is kept, and the right child is the next node. The paths and constraints
//! of a node are read off its ancestors. Before a node is expanded they are walked once, and for each agent its *path
//! owner* is noted: the nearest of them at which it was replanned (`PathOwners`). An agent without one has its path
//! from the root. An agent's table of distances is made when it is first replanned, so memory is taken for the agents
//! that have conflicts.
//!
//! The open list (`OpenNodes`) keeps a queue of numbers for each sum. A new node has the greatest number, so its nodes
//! are taken in the order of (sum, number). `plain::solve_plain` keeps the same order by a scan, so a change of the
//! order is a change of both, and tests compare their results.
//!
//! During the search the tree is a list of nodes that name their parents, and a list of statuses that name children.
//! Its nodes in pre-order, as a certificate has them, are listed afterwards, with a stack and without recursion. The
//! labels of a node are in the tree once, at that node, and are moved there from the search: states in rising order,
//! and the one cost from which each label follows. `search` hands out the nodes of that tree, from which a run writes
//! its certificate a line at a time; `solve` makes items of them, with entries in memory of their own.
#![tactic(auto)]

mod ancestors;
mod answer;
mod blocks;
mod bound_labels;
mod child;
mod clash;
mod endings;
mod node;
mod open_nodes;
mod outcome;
mod path_owners;
pub mod plain;
mod replacements;
mod replanned;
mod replanner;
mod search_tree;
mod solver;
mod start;
mod tree_node;
mod whole_node;
mod whole_tree;
mod written;

pub use answer::Answer;
pub use bound_labels::BoundLabels;
pub use mapf_model::Cause;
pub use mapf_spacetime::StateLabels;
pub use outcome::Outcome;
pub use solver::{search, search_watched, search_with, solve, solve_with};
pub use tree_node::TreeNode;
