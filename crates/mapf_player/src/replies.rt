//! How the replies of the dispatcher are written, a line for each event. The run of `dispatch` calls it for all events,
//! that of `follow` for each line as it comes.
ghost use Rattle.std.specs.Prelude.{◌≡◌, ◌<◌, ◌≤◌, ◌+◌, ◌++◌, ℕ, List, All, OnOk, OnErr, false, length, take};
ghost use Rattle.std.specs.Result.{is_err};
ghost use Rattle.std.specs.Io.KnownBytes.{Appends};
ghost use Rattle.mapf_player.specs.Dispatching.{AreReplies, Progress};
ghost use Rattle.mapf_fields.specs.Pages.{PassesOrFails, page_room};
ghost use Rattle.mapf_player.specs.Replies.{reply_line, reply_room, reply_text};
ghost use Rattle.mapf_player.specs.declared.reply.Reply.{Reply};

use crate::dispatch::Dispatch;
use crate::reply::Reply;
use mapf_fields::Page;
use mapf_model::{Failed, Grid, Sink};

// The greatest number of bytes of a reply's line: a word of two, three numbers with what stands before them, and LF.
const REPLY_ROOM: usize = 66;

/// Adds the line of the reply to an agent, for which there has to be room.
pub fn push_reply(page: &mut Page, grid: &Grid, agent: u32, reply: Reply)
    requires { length page.old + reply_room ≤ page_room }
    ensures { page.new ≡ page.old ++ reply_line grid.now.width agent reply }
{
    match reply {
        Reply::Go(cell) => {
            page.push_bytes(b"go");
            page.push_field(b' ', u64::from(agent));
            page.push_field(b' ', u64::from(cell.0 % grid.width()));
            page.push_field(b',', u64::from(cell.0 / grid.width()));
        }
        Reply::Hold { other } => {
            page.push_bytes(b"hold");
            page.push_field(b' ', u64::from(agent));
            page.push_bytes(b" by");
            page.push_field(b' ', u64::from(other));
        }
        Reply::Done => {
            page.push_bytes(b"done");
            page.push_field(b' ', u64::from(agent));
        }
    }
    page.push_byte(b'\n');
}

// Writes the reply to an agent.
fn put_reply<K: Sink>(
    page: &mut Page,
    sink: &mut K,
    grid: &Grid,
    agent: u32,
    reply: Reply,
) -> Result<(), Failed>
    requires { K.has_failed sink.old ≡ false }
    ensures text { PassesOrFails (K.contents sink.old) (K.contents sink.new) page.old page.new
        (reply_line grid.now.width agent reply) result }
    ensures failed { K.has_failed sink.new ≡ is_err result }
{
    page.reserve(sink, REPLY_ROOM)?;
    push_reply(page, grid, agent, reply);
    Ok(())
}

// Writes the replies to agents that ask one after another.
fn put_replies<K: Sink>(
    page: &mut Page,
    sink: &mut K,
    dispatch: &mut Dispatch,
    grid: &Grid,
    agents: &[u32],
) -> Result<(), Failed>
    requires works { K.has_failed sink.old ≡ false }
    requires agents { All (λ agent. agent < length dispatch.old.numbers) agents.now }
    ensures text { (replies : List Reply) × (after : Progress)
        × AreReplies dispatch.old agents.now replies after
        × PassesOrFails (K.contents sink.old) (K.contents sink.new) page.old page.new
        (reply_text grid.now.width agents.now replies) result
        × OnOk result (dispatch.new ≡ after) }
    // There are as many agents as before.
    ensures agents { length dispatch.new.numbers ≡ length dispatch.old.numbers }
    ensures failed { K.has_failed sink.new ≡ is_err result }
{
    for agent in agents {
        let reply = dispatch.ask(*agent);
        put_reply(page, sink, grid, *agent, reply)?;
    }
    Ok(())
}

/// Lets agents ask one after another, each as often as it is in the list, and writes the replies, a line each:
/// `go I x,y`, `hold I by J` or `done I`, where I and J are agents and x,y is the cell by its column and row. Nothing
/// is allocated. `Failed` is returned only if the sink failed; it then got a prefix of that text, and the contract
/// doesn't say where the agents are.
pub fn dispatch_all<K: Sink>(
    dispatch: &mut Dispatch,
    grid: &Grid,
    agents: &[u32],
    sink: &mut K,
) -> Result<(), Failed>
    requires works { K.has_failed sink.old ≡ false }
    requires agents { All (λ agent. agent < length dispatch.old.numbers) agents.now }
    // A line is written for each agent that asks, with its reply.
    ensures text { OnOk result ((replies : List Reply)
        × AreReplies dispatch.old agents.now replies dispatch.new
        × Appends (K.contents sink.old) (K.contents sink.new) (reply_text grid.now.width agents.now replies)) }
    ensures agents { length dispatch.new.numbers ≡ length dispatch.old.numbers }
    // An error is returned if and only if the sink failed.
    ensures failed { K.has_failed sink.new ≡ is_err result }
    // After an error the sink got a prefix of these lines.
    ensures front { OnErr result ((replies : List Reply) × (after : Progress)
        × AreReplies dispatch.old agents.now replies after × (n : ℕ)
        × (n ≤ length (reply_text grid.now.width agents.now replies))
        × Appends (K.contents sink.old) (K.contents sink.new)
        (take n (reply_text grid.now.width agents.now replies))) }
{
    let mut page = Page::empty();
    put_replies(&mut page, sink, dispatch, grid, agents)?;
    page.flush(sink)
}
