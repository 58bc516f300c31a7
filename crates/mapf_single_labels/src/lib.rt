//! Do these entries bound what one agent has to pay?
//!
//! A lemma of one agent lists labels of states, with which `judge_one` shows a lower bound on the agent's priced cost.
//! A lemma of two agents lists them too, and `judge_entries` judges those of each agent. Both go through the entries
//! in order, by tick and cell, and compare each with the labels of its neighbourhood one tick later. `EntryMarks`
//! finds the entries of that tick by their cells.
//!
//! `SingleTask` is what the entries are judged by. It answers what is asked of a state: whether it is barred, whether
//! the agent may step on or rest there, and which label it has without an entry. A judge of two agents asks the same.
//!
//! `PriceTable` keeps the prices of a list sorted, so that each is found by bisection; for rest it keeps sums of
//! prices. It is made once for a list and serves all lemmas. `TaskConstraints` keeps the constraints of a lemma for
//! one agent in ordered maps. Few steps have prices or are forbidden, so labels are compared before prices, and prices
//! before constraints.
#![tactic(auto)]

mod constraint_index;
mod judge;
mod keyed_price;
mod lemma;
mod marks;
mod on_grid;
mod point_prices;
mod price_table;
mod summed_prices;
mod task;
mod task_constraints;

pub use judge::{is_sound, judge_entries};
pub use lemma::{judge_one, start_bound, start_label};
pub use marks::EntryMarks;
pub use on_grid::{is_constraint_on, is_price_on};
pub use price_table::PriceTable;
pub use task::SingleTask;
pub use task_constraints::TaskConstraints;
