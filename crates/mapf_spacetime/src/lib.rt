//! What is a cheapest path of one agent under its constraints, and why is none cheaper?
//!
//! The search begins with the cost that is expected (`search_expecting`); the answer doesn't depend on it. A
//! depth-first search looks for the least walk of that cost (`PathSearch`). After the last constraint, if no tick is to
//! spare, it goes straight: each step leads to the nearer cell of the least number. When it has backtracked eight
//! times, a sweep begins, which reaches all states with an f-value (tick plus distance) of at most the cost (`Sweep`).
//! From then on both go by turns, and neither begins anew: the more states the sweep has reached, the more often the
//! walk may backtrack (`by_turns`). If the sweep arrives at that cost, the walk goes on from where it is.
//!
//! A sweep goes from tick to tick: the cells that can be reached at the next tick are bits of a `CellSet`, from which
//! they are taken in rising order, so the states come sorted as a block lists them. A `NumberSet` knows which words of
//! bits aren't 0, so that cells that are far apart are found without a look at the words between them. A sweep shows
//! that the agent arrives at a tick and not earlier, or that it doesn't arrive up to the cost, or that it never
//! arrives, if no state was left out for its f-value. The labels are the states below the least cost, so if a walk was
//! found a sweep up to one tick less gives them.
//!
//! If the agent doesn't arrive up to the first cost, a walk one tick longer is tried. After that states are reached by
//! rising f-value, from those on which the sweep left off (`Frontier`, `by_levels`), until the agent arrives or no
//! state is left. Where an f-value has more than eight states for each tick, a walk of that cost takes turns with them.
//! They are sorted at the end.
//!
//! A constraint is looked up only at ticks at which some constraint may be (`may_bar_at`), and only for steps whose
//! arrival some constraint may forbid (`may_bar_arrival`). A `Workspace` keeps the memory of one search for the next.
#![tactic(auto)]

mod cell_set;
mod cheapest;
mod found;
mod frontier;
mod labels;
mod levels;
mod number_set;
mod path_search;
mod reached;
mod search_task;
mod state_labels;
mod state_set;
mod sweep;
mod turns;
mod workspace;

pub use cheapest::{search, search_expecting, search_states};
pub use found::Found;
pub use labels::{Labels, label_at};
pub use search_task::SearchTask;
pub use state_labels::StateLabels;
pub use workspace::Workspace;
