//! How is a valid plan made cheaper, step by step?
//!
//! Large neighbourhood search (Li et al. 2021, 'Anytime Multi-Agent Path Finding via Large Neighborhood Search'): a few
//! agents are taken out of the plan, and planned again one after the other, in an order drawn at random, each by a
//! cheapest path between the paths of all others. If they cost no more together than before, the new paths are kept.
//!
//! Groups of agents come by turns from two sources. The one is the agent with the greatest delay over its distance that
//! wasn't taken lately, with those that stop it: who crosses its goal after it could be there, and who is met on random
//! walks that would make it faster. The other are agents that visit cells about a random one.
//!
//! A group may be one agent alone. Where two agents have to make room for each other, planning both again finds nothing:
//! the first one would go straight, and leave no path for the second. But one by one they can adapt to each other.
//!
//! The paths of a group may cost no more together than before. What the agents that are still to be planned cost at
//! least is set aside, so the limit of each search is close, and most that would fail are short.
//!
//! A cheapest path of one agent between the others is found by safe interval path planning (Phillips and Likhachev
//! 2011): its states are a cell and a time in which nobody else is there, and not a cell and a tick. So neither memory
//! nor time depends on how long the agents wait, and there is no horizon beyond which no path could lead.
//!
//! The search is deterministic: it draws its numbers from a generator with a fixed seed, and looks at no clock.
#![tactic(auto)]

mod agents_about;
mod delayed;
mod draft;
mod group;
mod improver;
mod labels;
mod numbers;
mod open_labels;
mod path_search;
mod replanner;
mod stays;

pub use improver::Improver;
