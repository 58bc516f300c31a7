//! What does a program in C call? Exports over texts in memory: two make runs of `mapf_app`, one judges a plan, four
//! keep a dispatcher, and one tells the version. Answers are told in numbers, and texts go into buffers of the
//! caller's.
//!
//! `include/mapf.h` declares the exports and the structs, and says what a caller has to ensure. Nothing checks that.
#![tactic(auto)]

mod answers;
mod asking;
mod check;
mod dispatcher;
mod faults;
mod handle;
mod kept;
mod numbers;
mod parts;
mod plan;
mod solve;
mod solving;
mod starting;
mod text_sink;
mod version;

pub use check::mapf_check;
pub use dispatcher::{
    mapf_dispatcher_ask, mapf_dispatcher_free, mapf_dispatcher_new, mapf_dispatcher_visit,
};
pub use handle::Dispatcher;
pub use kept::Kept;
pub use numbers::{Answer, FaultNumbers, Question, ReplyNumbers, Solution, VisitNumbers};
pub use plan::mapf_validate;
pub use solve::mapf_solve;
pub use version::mapf_version;
