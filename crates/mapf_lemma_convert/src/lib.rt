//! How does a certificate of version 1 or 2 become one of version 3?
//!
//! Each block of labels becomes a lemma of its agent, under the agent's constraints at the block's node. Each leaf uses
//! for each agent the lemma of its deepest block at the leaf or above it. No price lists are needed.
//!
//! `NodeWalk` goes over the nodes of the old tree in pre-order and makes the parts of the new certificate. What was made
//! is written after that.
#![tactic(auto)]

mod converter;
pub mod laws;
mod lemma_part;
mod node_walk;
#[cfg(test)]
mod tests;

pub use converter::{ConvertFault, convert_cert_to_lemmas};
