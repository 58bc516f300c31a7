//! A node of the search over trees, and its status. The walks from a node up to the root read both.
use mapf_conflicts::BasePaths;
use mapf_model::{Conflict, Constraint};
use mapf_spacetime::{Found, StateLabels};

/// A delta node of the constraint tree: the rest of its state is found at its ancestors.
#[derive(Debug, Drop)]
pub enum Node {
    /// No agent has constraints, and these are the agents' paths, of which most are also those of the other nodes.
    Root {
        paths: BasePaths,
    },
    /// The node has one more constraint than its parent, and this is what the search for its agent found.
    Child {
        parent: u32,
        constraint: Constraint,
        found: Found<StateLabels>,
    },
}

/// What has become of a node.
#[derive(Clone, Copy, Debug)]
pub enum Status {
    /// Each agent has a path, and the node wasn't split.
    Open,
    /// Some agent can't arrive.
    Dead,
    /// The node was split on the conflict. This is the number of its left child, and the next is that of the right one.
    Expanded { conflict: Conflict, left: u32 },
}
