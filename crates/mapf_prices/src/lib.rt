//! Which prices show that all agents together cost much?
//!
//! A cell at a tick serves one agent at most, and so does an edge between two ticks. Put a price on some of them: then
//! all agents together pay at most the sum of all prices. So the least cost of each agent with what it pays, added up,
//! less the sum of all prices, is a lower bound on the sum of costs of every valid plan. Good prices are found by
//! subgradient ascent (Held and Karp 1971 for tours, Lam et al. 2022 for agents by linear programming): in rounds, each
//! agent takes a path of least priced cost, then the price of what several agents use rises, and the price of what
//! nobody uses falls.
//!
//! All numbers are whole: a tick costs `UNIT` units, and prices count units. Rounds are counted, so the same problem has
//! always the same prices. A certificate of version 3 states them, with the labels that show each agent's least priced
//! cost, and is judged by a proved checker before anybody sees it. So nothing is promised of it.
#![tactic(auto)]

mod ascent;
mod couples;
mod joint;
mod label_table;
mod labels;
mod pairing;
mod paths;
mod prices;
mod resources;
mod rounded;
mod search;

pub use ascent::Known;
pub use rounded::{Budgets, FULL_BUDGETS, PriceBound, PricedLemma, QUICK_BUDGETS, price_bound};
