//! The runs: bytes in, bytes out, errors named.
#![tactic(auto)]

mod answer_writer;
mod check;
mod checked;
mod demo;
mod dispatch;
mod fault;
mod follow;
mod input;
mod kind;
pub mod laws;
mod line;
mod plan_in_hand;
mod planned;
mod play;
mod solve;
mod solve_by;
mod solved;
mod tell;

pub use answer_writer::Answered;
pub use check::run_check;
pub use demo::run_demo;
pub use dispatch::run_dispatch;
pub use fault::{Fault, Input, Output, PlayFault};
pub use follow::run_follow;
pub use kind::Kind;
pub use mapf_certificate::{CertFault, PlanTextFault};
pub use mapf_checker::{CheckFault, PlanFault, Verdict};
pub use mapf_player::EventFault;
pub use mapf_text::{MapFault, ScenFault};
pub use mapf_words::{Job, Search, WordsFault, job_of};
pub use planned::{Planned, read_planned};
pub use play::run_play;
pub use solve::run_solve;
pub use solve_by::{Asked, run_solve_by};
pub use tell::{tell_check, tell_run, tell_solve, tell_solve_by};
