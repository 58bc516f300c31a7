//! What do the arguments of the command line ask for?
#![tactic(auto)]

mod command;
mod job;
mod words;
mod words_fault;

pub use job::{Job, Search};
pub use words::job_of;
pub use words_fault::WordsFault;
