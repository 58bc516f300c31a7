//! How does a plan look, tick by tick, and how do agents follow it, each at its own pace?
//!
//! A dispatch keeps the visits of each agent, the number of the visit that each agent is in, and all visits of all
//! agents in one list by cell and tick of entry. A reply is found in that list by binary search and a walk back over
//! the visits of the same cell that aren't left; it takes no memory. Agents keep the plan's order at each cell, so the
//! visits of a cell that are left come before all others, and the walk back ends at the first that it meets.
#![tactic(auto)]

mod cycles;
mod dispatch;
mod events;
mod follow_fault;
mod follower;
mod frame;
pub mod laws;
mod line;
mod line_start;
mod live;
mod marks;
mod player;
mod replies;
mod reply;
mod request;
mod row;
mod visit;

pub use dispatch::Dispatch;
pub use events::{EventFault, read_events};
pub use follow_fault::FollowFault;
pub use live::{MOST_REQUEST_BYTES, follow};
pub use player::play;
pub use replies::dispatch_all;
pub use reply::Reply;
pub use visit::Visit;
