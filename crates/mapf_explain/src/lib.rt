//! What does a line that the program prints mean?
//!
//! An error is printed by its name and its numbers, as `F2 S7 32`, so that other programs can read it. Here stand the
//! words for people. They are no part of any promise.
#![tactic(auto)]

mod explained;
mod meanings;

pub use explained::explain;
