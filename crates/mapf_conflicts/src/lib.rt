//! Where do two paths of a plan first conflict?
//!
//! The first conflict is searched for tick by tick. `CellMarks` holds for each cell the agent that was marked there
//! last. Marks are never cleared: a mark counts only if the agent that it names is in the marked cell at this tick.
//! Agents are marked from the last to the first, so a mark is the least agent in its cell so far, and the last pair
//! that meets on the way is the first pair. A tick takes two look-ups for each agent if each cell has a mark. The scan
//! over pairs runs only at a tick at which a cell has no mark. `first_conflict` is the same code with marks of no
//! cells, so it takes no memory.
//!
//! A child differs from its parent in one path, and its parent was split on a first conflict. So before the tick of
//! that conflict only the replanned agent can conflict with others, and there only its cells are compared with theirs
//! (`first_conflict_after_replanning`).
//!
//! Most agents have the path that they had at the root. So the root's paths are kept with rows, one for each of the
//! first ticks, that hold the cells of all agents then (`BasePaths`). The cells of a node at a tick are a copy of the
//! row, in which those of the agents with another path are replaced (`PatchedPaths`). Later ticks are read off the
//! paths. The trait `PathsByTick` stands for these paths and for a plain list of paths, so there is one search for the
//! first conflict.
#![tactic(auto)]

mod base_paths;
mod first;
mod marked_pairs;
mod marks;
mod pairs;
mod patched_paths;
mod path_list;
mod paths_by_tick;

pub use base_paths::{BasePaths, MOST_ROWS};
pub use first::first_conflict;
pub use mapf_model::Conflict;
pub use marks::{CellMarks, first_conflict_after_replanning, first_conflict_in};
pub use patched_paths::{PatchedPaths, Replacement};
pub use paths_by_tick::PathsByTick;
