//! What a line says that comes while agents follow a plan. The follower reads its lines here.
ghost use Rattle.std.specs.Prelude.{ℕ};
ghost use Rattle.mapf_player.specs.Following.{IsRead};

use crate::events::{EventFault, agent_of};

/// What a line asks for.
#[derive(Clone, Copy, Debug, PartialEq, Eq)]
pub enum Request {
    /// This agent asks to move on.
    Agent(u32),
    /// Which agents stand in full cycles?
    Status,
    /// No more requests come.
    End,
}

/// The greatest number of bytes of a request, without its LF. A longer line is none, whatever it spells.
pub const LONGEST_REQUEST: usize = 64;

/// Returns what the line of this number says, where there are so many agents. `E1` if it is no request, `E3` if it is a
/// number but that of no agent.
pub fn request_of(number: u64, line: &[u8], agents: u32) -> Result<Request, EventFault>
    ensures { IsRead agents number line.now result }
{
    if line == b"end".as_slice() {
        return Ok(Request::End);
    }
    if line == b"status".as_slice() {
        return Ok(Request::Status);
    }
    if line.len() > LONGEST_REQUEST {
        return Err(EventFault::E1(number));
    }
    match agent_of(number, line, agents) {
        Ok(agent) => Ok(Request::Agent(agent)),
        Err(fault) => Err(fault),
    }
}
