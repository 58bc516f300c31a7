//! The reader of event texts, and their errors. The run of `dispatch` calls it.
ghost use Rattle.std.specs.Prelude.{◌≡◌, ◌<◌, ◌+◌, ◌++◌, ℕ, List, All, IfOk, IfErr, IsOk, IsOkAnd, Ok, false, true};
ghost use Rattle.std.specs.Prelude.{codes, length};
ghost use Rattle.std.specs.Fmt.{decimal};
ghost use Rattle.mapf_fields.specs.Ends.{IsCut, lacks_end};
ghost use Rattle.mapf_player.specs.Events.{GivesNoAgent, HasEventFault, OrMemory, SpellsEvents, event_lines};

use mapf_fields::{below, cut, whole};
use std::alloc::Global;

/// Why an event text can't be read. Lines are counted from 1.
#[derive(Clone, Copy, Debug, PartialEq, Eq)]
pub enum EventFault {
    /// The line isn't the expected one.
    E1(u64),
    /// The text ends where this line would begin, or inside it.
    E2(u64),
    /// The agent of this line isn't one of the problem's agents.
    E3(u64),
    /// There is text after the last line, from this line on.
    E4(u64),
    /// Out of memory.
    Memory,
}

// Takes the next line.
fn line_at(number: u64, bytes: &[u8]) -> Result<(&[u8], &[u8]), EventFault>
    ensures found { IfOk result (λ p. IsCut bytes.entry.now p.0.now p.1.now) }
    ensures only { lacks_end bytes.entry.now ≡ false → IsOk result }
    ensures fault { IfErr result (λ fault. (fault ≡ EventFault.E2 number) × (lacks_end bytes.entry.now ≡ true)) }
{
    match cut(bytes) {
        Some(parts) => Ok(parts),
        None => Err(EventFault::E2(number)),
    }
}

/// Returns the agent of a line.
pub fn agent_of(number: u64, line: &[u8], agents: u32) -> Result<u32, EventFault>
    ensures found { IfOk result (λ agent. (line.now ≡ decimal agent) × (agent < agents)) }
    ensures only { (agent : ℕ) → agent < agents → line.now ≡ decimal agent → result ≡ Ok agent }
    ensures fault { IfErr result (GivesNoAgent line.now agents number) }
{
    let Ok(agent) = whole(line) else {
        return Err(EventFault::E1(number));
    };
    match below(agents, agent) {
        Ok(agent) => Ok(agent),
        Err(_) => Err(EventFault::E3(number)),
    }
}

// Returns the agents of the lines up to `end`, the number of the line after it, and what follows.
fn agents_of(alloc: Global, bytes: &[u8], agents: u32) -> Result<(Vec<u32>, u64, &[u8]), EventFault>
    ensures found { IfOk result (λ p. All (λ agent. agent < agents) p.0.items
        × (bytes.entry.now ≡ event_lines p.0.items ++ p.2.now)) }
    ensures only { (events rest : List ℕ) → All (λ agent. agent < agents) events
        → bytes.entry.now ≡ event_lines events ++ rest
        → OrMemory result (IsOkAnd result (λ p. (p.0.items ≡ events) × (p.2.now ≡ rest))) }
    ensures number { IfOk result (λ p. p.1 ≡ length p.0.items + 3) }
    // The error says this of the text in which these bytes follow the title.
    ensures fault { IfErr result (HasEventFault (codes "mapf-events 1\n" ++ bytes.entry.now) agents) }
{
    let mut events = Vec::new(alloc);
    let mut number = 2u64;
    let mut rest = bytes;
    loop {
        let (line, after) = line_at(number, rest)?;
        rest = after;
        if line == b"end".as_slice() {
            return Ok((events, number + 1, rest));
        }
        if events.push(agent_of(number, line, agents)?).is_err() {
            return Err(EventFault::Memory);
        }
        number += 1;
    }
}

/// Returns the agents that ask to move on, one after another, as an event text for so many agents spells them.
pub fn read_events(alloc: Global, bytes: &[u8], agents: u32) -> Result<Vec<u32>, EventFault>
    // If agents are returned, the bytes spell them.
    ensures found { IfOk result (λ events. SpellsEvents bytes.now agents events.items) }
    // Agents that the bytes spell are returned, unless memory runs out.
    ensures only { (events : List ℕ) → SpellsEvents bytes.now agents events
        → OrMemory result (IsOkAnd result (λ read. read.items ≡ events)) }
    // The lines before the reported location are correct, and the error is there.
    ensures fault { IfErr result (HasEventFault bytes.now agents) }
{
    let (title, rest) = line_at(1, bytes)?;
    if title != b"mapf-events 1".as_slice() {
        return Err(EventFault::E1(1));
    }
    let (events, number, rest) = agents_of(alloc, rest, agents)?;
    if rest.is_empty() {
        Ok(events)
    } else {
        Err(EventFault::E4(number))
    }
}
