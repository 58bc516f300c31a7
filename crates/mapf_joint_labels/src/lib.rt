//! Do these joint labels bound the priced costs of two agents together, and do these joint cells show that two agents
//! never both arrive?
//!
//! Both lists are sorted by pairs of cells, and the pairs with the same first cell stand together, in a run. `CellRuns`
//! holds for each cell of a grid where its run begins and ends, so a pair is found by a bisection in one run. Runs are
//! never cleared: one counts only if the pair that is found in it is the one that was asked for.
//!
//! The joint cells of a lemma are judged in order by `judge_closed`: each with the moves of both agents from it.
//!
//! The joint entries of a lemma are judged in order, by tick. `PairMarks` has the runs of the joint entries of the tick
//! after the one that is judged, and the marks of both agents' own entries of that tick. Entries of one agent alone are
//! few, and are found by bisection in the whole list. `judge_two` judges all entries of a lemma and returns its bound.
#![tactic(auto)]

mod alone;
mod joint_marks;
mod judge;
mod never;
mod order;
mod pair;
mod runs;
mod together;
mod two;

pub use joint_marks::JointMarks;
pub use judge::judge_joint_entries;
pub use never::{NeverFault, judge_closed};
pub use order::{is_before, label_in};
pub use pair::{Pair, PairMarks, Side};
pub use runs::{CellRuns, Run};
pub use two::{TwoFault, judge_two};
