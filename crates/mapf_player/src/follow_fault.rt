//! Why a run in which requests are answered as they come ends before it should.
use crate::events::EventFault;

/// Why no more requests are answered.
#[derive(Clone, Copy, Debug, PartialEq, Eq)]
pub enum FollowFault {
    /// The first line isn't the title, `E1`, or the requests end inside a line or before the title, `E2`.
    Events(EventFault),
    /// The requests can't be read: their source failed, or gave more than `MOST_REQUEST_BYTES`.
    Requests,
    /// An answer can't be written: the sink failed.
    Replies,
}
