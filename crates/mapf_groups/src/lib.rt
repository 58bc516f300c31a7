//! Which plan is optimal? A conflict-based search (Sharon et al. 2015) that bounds what pairs and groups of agents cost
//! together: the search of `solve --search cbsh`.
//!
//! A node knows what each agent costs alone under its constraints, and of pairs in conflict what both cost at least
//! together (Li et al. 2019). Where agents are in several such pairs, the excesses are packed (`mapf_packing`). Nodes
//! are expanded by the least bound, then by the fewest pairs in conflict, then the newest first. If a pair costs no
//! more together than alone, its two paths take the place of the node's where fewer conflicts are left, and so do the
//! paths of a child of the same sum: no split is needed then (a bypass, Boyarski et al. 2015).
//!
//! A conflict with an agent that rests at its goal is split on that agent's cost (Li et al. 2021a). So is the conflict
//! of a pair that costs one tick more together than alone: if the one agent keeps its cost, the other costs more. All
//! other conflicts are split as they are, cardinal ones first.
//!
//! Before a node with many agents is split, it is visited (`Visit`): its agents fall into groups, and each group is
//! searched by itself. An agent in conflict with another group gets another path of the same cost where that has fewer
//! conflicts. Groups that still conflict are united (independence detection, Standley 2010). The search for a group is
//! this same search over a tree of its own, under what stands for its agents at the node. It ends for now after some
//! work, and can be gone on with. The visit waits meanwhile (`Suspended`). What it shows is a bound of the node. If no
//! conflict is left, the groups' plans are one of all agents, and if few are, the node is split on one of them (Sharon
//! et al. 2012).
//!
//! What the nodes share is kept in one store (`mapf_nodes`). At the end a certificate of version 3 is drawn from the
//! trees (`mapf_tree_lemmas`). If a plan is known whose cost the search doesn't reach soon, prices are tried once
//! (`mapf_prices`), and the greater bound counts.
//!
//! Nothing is promised of the answers: a checker that is proved judges the plan and the certificate. What is proved of
//! the search is that it returns, within its ranges.
#![tactic(auto)]

mod begin;
mod blocking;
mod evaluate;
mod expand;
mod group_search;
mod joint_cells;
mod outcome;
mod pair_marks;
mod priced;
mod searcher;
mod solver;
mod split;
mod visit;

pub use outcome::Outcome;
pub use priced::{Priced, bound_by_prices};
pub use solver::{search, search_below};
