//! What lower bounds on the costs of some agents' paths mean, and how a certificate of version 3 shows them.
#![tactic(auto)]

mod amount;
mod constraint;
mod entry;
pub mod examples;
mod joint;
pub mod laws;
mod leaf;
mod price;
mod split;
mod statement;

pub use amount::Amount;
pub use constraint::{AgentConstraint, PathConstraint};
pub use entry::PricedEntry;
pub use joint::{JointCell, JointEntry, JointState};
pub use leaf::{Group, LeafUses, Use};
pub use price::{Price, PriceList};
pub use split::Split;
pub use statement::Statement;
