//! What does a conflict-based search with pairs and groups of agents keep: its nodes, and what they share?
//!
//! A node of a constraint tree (`Node`) adds one thing to what stands at its parent (`Added`). It names each agent
//! under its constraints, each path and each bound by a number. What has a number stands in the `Store`, which serves
//! all trees of a search: agents under their constraints with their layers and labels (`Singles`), pairs of these with
//! a lower bound of the sum of their costs (`Pairs`), paths (`Paths`), and groups of agents with a search of their own
//! (`Groups`).
//!
//! Many nodes share an agent's constraints, since those that no path of about its cost can break are left out
//! (`add_relevant`). What an agent costs alone at a node is read off its number (`Costs`). What some agents cost at
//! least together is a `Fact`. Where such facts have common agents, their excesses are packed (`mapf_packing`), and
//! `Packings` keeps what was packed.
//!
//! A `SearchTree` has the nodes of a tree of some agents (`Members`) and its open list (`OpenNodes`): the node of the
//! least bound first, of these that with the fewest pairs in conflict, of these the newest. What stands for an agent at
//! a node is gathered from the nodes above it (`SearchTree::gather`).
//!
//! Nothing is promised of the answers, since what a search makes of them is judged by a checker. What is proved is that
//! each call returns, within its ranges.
#![tactic(auto)]

mod added;
mod conflict_count;
mod costs;
mod facts;
mod groups;
mod members;
mod node;
mod open_nodes;
mod packings;
mod pairs;
mod paths;
mod placed;
mod relevant;
mod search_tree;
mod singles;
mod store;

pub use added::{Added, Arrived, CostAtLeast};
pub use conflict_count::{ConflictCount, is_of, pair_of, pairs_of};
pub use costs::Costs;
pub use facts::{Fact, FactGroup, GroupFact, PairFact, WeightedFact};
pub use groups::{AgentGroup, GroupKey, Groups};
pub use members::Members;
pub use node::{CostsSplit, Node, NodeSplit, NodeState, SplitKind};
pub use open_nodes::OpenNodes;
pub use packings::Packings;
pub use pairs::{KnownPair, Pairs};
pub use paths::Paths;
pub use placed::Placed;
pub use relevant::add_relevant;
pub use search_tree::{Account, SearchTree};
pub use singles::{LABEL_DEPTH, Single, Singles};
pub use store::Store;
