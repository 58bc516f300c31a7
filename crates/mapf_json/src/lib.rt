//! Which object of JSON tells the answer, the refusal or the error of a run of `solve` or `check`?
//!
//! An object is written member by member, so it needs no memory and can tell that there is none.
#![tactic(auto)]

mod members;
mod nowhere;
mod object;
mod objects;
mod tell;

pub use tell::{tell_check_json, tell_solve_json};
