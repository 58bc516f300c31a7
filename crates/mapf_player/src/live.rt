//! Agents follow a plan while their requests come: each line is answered before the next is heard. The run of `follow`
//! calls it.
ghost use Rattle.std.specs.Prelude.{◌≡◌, ◌⊎◌, ◌<◌, ◌↔◌, ℕ, List, IsErrOf, false, length, true};
ghost use Rattle.std.specs.Io.KnownBytes.{Appends, Consumes};
ghost use Rattle.mapf_player.specs.Following.{IsOutcome, most_request_bytes};

use crate::dispatch::Dispatch;
use crate::follow_fault::FollowFault;
use crate::follower::{Follower, Heard};
use mapf_fields::Page;
use mapf_model::{Grid, Sink, Source};

/// The greatest number of bytes of all requests.
pub const MOST_REQUEST_BYTES: u64 = 1 << 60;

/// Answers the requests of agents that follow a plan, as they come, until the line `end` or the end of the requests.
/// The first line is the title of an event text. Each further line gets its answer, a line too, which is written
/// before the next request is heard: the reply to the agent that asks, as `dispatch_all` writes it; to `status` the
/// agents that stand in full cycles; and to a line that is no request its error, which changes nothing. Nothing is
/// allocated.
pub fn follow<R: Source, K: Sink>(
    dispatch: Dispatch,
    grid: &Grid,
    requests: &mut R,
    sink: &mut K,
) -> Result<(), FollowFault>
    requires works { (R.has_failed requests.old ≡ false) × (K.has_failed sink.old ≡ false) }
    // What was written are the answers to the lines that came, and the run ends as it has to.
    ensures outcome { (came : List ℕ) × (written : List ℕ)
        × Consumes (R.remaining requests.old) (R.remaining requests.new) came
        × Appends (K.contents sink.old) (K.contents sink.new) written
        × IsOutcome grid.now.width dispatch (R.remaining requests.new) came written result }
    // An error of the source is returned only if it failed or gave more bytes than there may be, and always if it
    // failed.
    ensures requests { IsErrOf result FollowFault.Requests → (R.has_failed requests.new ≡ true)
        ⊎ ((came : List ℕ) × Consumes (R.remaining requests.old) (R.remaining requests.new) came
        × (most_request_bytes < length came)) }
    ensures failed { R.has_failed requests.new ≡ true → IsErrOf result FollowFault.Requests }
    // An error of the sink is returned if and only if it failed.
    ensures sink { IsErrOf result FollowFault.Replies ↔ (K.has_failed sink.new ≡ true) }
{
    let mut follower = Follower::of(dispatch);
    let mut page = Page::empty();
    let mut buffer = [0u8; 4096];
    let mut count = 0u64;
    while count <= MOST_REQUEST_BYTES {
        let Ok(n) = requests.pull(&mut buffer) else {
            return Err(FollowFault::Requests);
        };
        if n == 0 {
            return follower.end();
        }
        match follower.hear(&buffer[..n], grid, &mut page, sink) {
            Ok(Heard::More) => {}
            Ok(Heard::End) => return Ok(()),
            Err(fault) => return Err(fault),
        }
        count += n as u64;
    }
    Err(FollowFault::Requests)
}
