//! Which certificate of version 3 shows the bound that a constraint tree has?
//!
//! The tree of all agents is the certificate's tree (`certificate`). A node whose bound reaches the claim is a leaf,
//! whatever the search did below it. An agent's labels, the joint states of a pair, and the tree of a group are lemmas,
//! by labels and by cases. Each lemma is stated once, before those that use it.
//!
//! A lemma shows no more than some leaf or split uses (`Needs`). So what the leaves use is found first: from the tree
//! of all agents down to the smallest groups, each of which uses smaller ones alone.
//!
//! Where no plan is valid, as two agents have one goal or one start, or block each other for good, or an agent has no
//! way to its goal, a certificate of one node shows it (`same_goal`, `same_start`, `never_left`, `no_way`).
//!
//! Nothing is promised of the certificate: a checker that is proved judges it. What is proved is that each call
//! returns, within its ranges.
#![tactic(auto)]

mod drawing;
mod impossible;
mod needs;

pub use drawing::certificate;
pub use impossible::{never_left, no_way, same_goal, same_start};
