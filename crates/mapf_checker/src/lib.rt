//! Is this plan valid, and does this certificate show its claim?
//!
//! The first line of a certificate says its version. A certificate of version 3 is judged by `mapf_lemma_checker`: it
//! shows its claim by lemmas and a tree by cases. One of version 1 or 2 is a constraint tree, which is judged here.
//!
//! The nodes of a tree are read in pre-order. Along the path from the root the judge keeps each split's conflict and
//! the child that the path goes to, and for each agent the entry of its start at tick 0, with what each open split
//! changed of these entries. The blocks of a node are held until they are judged. Of the blocks above that node nothing
//! but these start entries is kept, so the memory grows with the number of blocks along the path and not with their
//! entries.
//!
//! The constraints are in an ordered set, so one is found, added or removed in time that grows with the logarithm of
//! their number, whoever wrote the certificate. They are needed only where a block is judged. So before that the
//! missing constraints of the tree path are added to the set (`Branch::index_all`), and a path without blocks adds
//! none.
//!
//! The entries of a block are judged in order, by tick and cell. Each is compared with the labels of its neighbourhood
//! one tick later. `EntryMarks` holds for each cell a mark, by which the entries of one tick are found: those of the
//! tick after the one whose entries are judged. Each entry is marked once. Marks are never cleared: one counts only if
//! the entry to which it leads is that of the state. An agent's table of distances is made at its first block.
#![tactic(auto)]

mod acceptance;
mod blocks;
mod branch;
mod cert_judge;
mod conflicts;
mod fault;
mod index;
mod judge;
mod labels;
mod lawful;
pub mod laws;
mod leaf;
mod marks;
mod plan_fault;
mod plan_judge;
mod starts;
mod tree;
mod tree_cert_judge;
mod validity;

pub use acceptance::{check, check_from};
pub use fault::{CheckFault, FromFault, Verdict};
pub use plan_fault::PlanFault;
pub use validity::check_plan;
