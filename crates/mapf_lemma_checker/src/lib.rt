//! Does this certificate of version 3 show its claim?
//!
//! `judge_lemmas` reads a certificate part by part, and judges each part before it reads the next one. So only what
//! later parts need is kept of a part: of a price list its table, of a lemma its statement, of a tree what stands at
//! the node that comes next. `LemmaJudge` keeps this.
//!
//! What is judged of the kinds of parts stands in crates of its own: the labels of one agent, the labels and joint
//! cells of two, and trees by cases. Here their answers become errors with the line to which they belong.
#![tactic(auto)]

mod answer;
mod cert_judge;
mod constraints;
mod fault;
mod label_judge;
pub mod laws;
mod lemma_judge;
mod price_lists;
mod tree_judge;

pub use cert_judge::judge_lemmas;
pub use fault::{LemmaFault, LemmaRefusal};
