//! The types of multi-agent path finding, what they mean, and the laws over their meaning.
//!
//! A run reads from a `Source` and writes to a `Sink`. `ReadSource` and `WriteSink` put these over any reader and
//! writer of the standard library, `BytesSource` and `BytesSink` are memory, and `devices` has devices for tests: a
//! source and a sink that fail at a chosen call, and a source without end. A device of memory reports its bytes to the
//! contracts. Opaque devices, such as files and terminals, don't, and clauses about their bytes then say nothing.
//!
//! The two constraints of a split are `Conflict::left` and `Conflict::right`, for the search and the checker. The cells
//! around a cell come from `Cell::neighbourhood`, and where many cells are looked at from `Neighbourhoods`, which
//! doesn't divide; both list them by one function. The first pair of agents with a property comes from `first_pair`.
#![tactic(auto)]

mod bar;
mod cause;
mod cell;
mod conflict;
mod constraint;
pub mod devices;
pub mod examples;
mod grid;
mod item;
mod label;
pub mod laws;
pub mod limits;
mod memory;
mod neighbourhoods;
mod node;
mod pairs;
mod path;
mod plan;
mod problem;
mod sink;
mod source;
mod state;
mod watcher;

pub use bar::Bar;
pub use cause::Cause;
pub use cell::{Cell, Tick};
pub use conflict::Conflict;
pub use constraint::Constraint;
pub use grid::Grid;
pub use item::{Claim, Item};
pub use label::{Block, Entry, Label};
pub use memory::OutOfMemory;
pub use neighbourhoods::Neighbourhoods;
pub use node::{AsNode, NodeKind};
pub use pairs::first_pair;
pub use path::Path;
pub use plan::Plan;
pub use problem::{Agent, Problem};
pub use sink::{BytesSink, Sink, WriteSink, write_all};
pub use source::{BytesSource, Failed, ReadEnd, ReadSource, Source, read_all};
pub use state::State;
pub use watcher::{Unwatched, Watcher};
