//! The judge of proofs by cases, of certificates of version 3: which constraints stand at a node, which lemmas may be
//! used there, which splits are proper, what a leaf shows, and what is to be judged after a node.
#![tactic(auto)]

mod addition;
mod case_fault;
mod case_path;
mod case_tree;
mod clear_index;
mod floors;
mod groups;
mod known;
pub mod laws;
mod leaf_fault;
mod leaf_judge;
mod loads;
mod rule;
mod rule_index;
mod scope_agents;
mod singles;
mod split_fault;
mod split_judge;
mod standing;
mod use_judge;

pub use addition::Addition;
pub use case_fault::CaseFault;
pub use case_path::CasePath;
pub use case_tree::{CaseProgress, TreeProblem};
pub use known::{LeafProblem, ListTotal};
pub use leaf_fault::{LeafFault, UsePlace};
pub use leaf_judge::{LeafWork, judge_leaf};
pub use scope_agents::ScopeAgents;
pub use split_fault::SplitFault;
pub use split_judge::judge_split;
pub use standing::Standing;
pub use use_judge::may_be_used;
