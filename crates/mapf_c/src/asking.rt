//! How agents ask a dispatcher, and how its visits are told.
ghost use Rattle.std.specs.Prelude.{◌≡◌, ◌≤◌, length, slice_get};
ghost use Rattle.mapf_c.specs.Dispatchers.{FillsReplies, IsAnswered, no_reply, reply_numbers, told_of};

use crate::numbers::{ReplyNumbers, VisitNumbers};
use mapf_player::{Dispatch, Reply};

// The kinds of replies.
const GO: u32 = 1;

const HOLD: u32 = 2;

const DONE: u32 = 3;

const RANGE: u32 = 10;

impl ReplyNumbers {
    // Returns the numbers of a reply.
    fn of(reply: Reply) -> ReplyNumbers
        ensures { result ≡ reply_numbers reply }
    {
        match reply {
            Reply::Go(cell) => ReplyNumbers {
                kind: GO,
                number: cell.0,
            },
            Reply::Hold { other } => ReplyNumbers {
                kind: HOLD,
                number: other,
            },
            Reply::Done => ReplyNumbers {
                kind: DONE,
                number: 0,
            },
        }
    }

    // Returns that this isn't an agent.
    fn none() -> ReplyNumbers
        ensures { result ≡ no_reply }
    {
        ReplyNumbers {
            kind: RANGE,
            number: 0,
        }
    }
}

// Returns the reply to an agent that asks, or that it isn't one.
fn answer(dispatch: &mut Dispatch, agent: u32) -> ReplyNumbers
    ensures { IsAnswered dispatch.old agent result dispatch.new }
{
    if agent < dispatch.agents() {
        ReplyNumbers::of(dispatch.ask(agent))
    } else {
        ReplyNumbers::none()
    }
}

/// Lets agents ask one after another, and writes their replies to the front of the buffer. Nothing is allocated.
pub fn answer_all(dispatch: &mut Dispatch, agents: &[u32], replies: &mut [ReplyNumbers])
    requires { length agents.now ≤ length replies.old }
    ensures { FillsReplies dispatch.old agents.now replies.old replies.new dispatch.new }
{
    for (place, agent) in agents.iter().enumerate() {
        replies[place] = answer(dispatch, *agent);
    }
}

/// Returns how many visits the agent has, and the one of this number, counted from 0. It has none if it isn't an agent.
pub fn visit_of(dispatch: &Dispatch, agent: u32, number: u32) -> VisitNumbers
    ensures { result ≡ told_of (slice_get dispatch.now.visits agent) number }
{
    let Some(own) = dispatch.visits(agent) else {
        return VisitNumbers::none(0);
    };
    let count = own.len() as u32;
    match own.get(number as usize) {
        Some(visit) => VisitNumbers {
            count,
            cell: visit.cell.0,
            entry: visit.entry,
        },
        None => VisitNumbers::none(count),
    }
}
