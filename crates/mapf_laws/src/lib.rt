//! What follows from the definitions beyond what the program rests on?
#![tactic(auto)]

pub mod impossible;
