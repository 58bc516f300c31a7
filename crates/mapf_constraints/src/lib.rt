//! Which cells and moves are forbidden to one agent?
//!
//! `TickBars` is a list with 64 chains through it, one for each remainder of the ticks modulo 64. Adding a constraint
//! is one push, and a refused one leaves nothing to be undone. Most queries meet an empty chain. It also has 512
//! flags, found by the cell and the tick of a forbidden arrival, and a chain is scanned only where the flag is set.
//! `ListBars` is the plain list.
#![tactic(auto)]

mod bar_table;
mod later;
mod link;
mod list_bars;
mod tick_bars;

pub use bar_table::BarTable;
pub use list_bars::ListBars;
pub use mapf_model::Bar;
pub use tick_bars::TickBars;
