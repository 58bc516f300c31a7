//! How much do two agents' paths without a conflict cost together at least?
//!
//! A joint state is where both agents are at a tick: both under way, or one of them arrived for good. Its value is what
//! both have paid so far plus the least costs that they have left, each taken alone. So no two paths without a conflict
//! that go through it have a smaller sum of costs. `PairFinder` finds the joint states in rounds, those of the least
//! value first. The round in which both agents arrive for good has the least sum as its value. Two paths are read off
//! it, from the arrival back to the starts.
//!
//! A joint state leads to up to 25 others, most of which have a greater value. These aren't kept. Instead the state is
//! left once more, in the round of the least value among them. Within a round the newest state is left first, so two
//! paths without a conflict are often found after few steps.
//!
//! Each agent's own steps from a state are found once (`SingleSteps`), since many joint states share them. A joint
//! state is a tick and the cells of both agents then (`Joint`).
//!
//! The joint states of a value below a bound, with what is left to the bound, are the joint entries of a lemma by which
//! the two agents cost at least the bound together (`PairFinder::entries`).
//!
//! Nothing is promised of the answers, since what a search makes of them is judged by a checker. What is proved is that
//! each call returns, within its ranges.
#![tactic(auto)]

mod emptying;
mod joint_entries;
mod joint_states;
mod pair_finder;
mod pair_task;
mod rounds;
mod single_steps;
mod waiting;

pub use pair_finder::{PairFinder, PairFound};
pub use pair_task::{PairSide, PairTask};
