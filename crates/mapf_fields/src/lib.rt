//! How are the lines and numbers of the project's own texts spelled, read and written?
//!
//! The spellings of the numbers below 1,000 are a constant table, so such a number is printed by a copy of four bytes,
//! whatever the count of its digits. A number of up to three digits, as nearly all are, is read without a loop.
#![tactic(auto)]

mod ends;
mod fault;
mod numbers;
mod page;
mod ranges;
mod spellings;

pub use ends::{cut, line_length};
pub use fault::LineFault;
pub use numbers::{field, last, pair, strip, whole};
pub use page::{PAGE_ROOM, Page};
pub use ranges::{below, from_one_to, up_to, within};
