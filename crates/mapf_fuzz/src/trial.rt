//! How a reader is handed texts, and whether an answer is a wrong one.
use crate::change::text_for;
use crate::count::Count;
use crate::samples::{AGENTS, CERTIFICATE, EVENTS, LEAST, MAP, PLAN, Reader, SCENARIO};
use anyhow::{Result, anyhow};
use mapf_app::{Fault, Verdict, run_check, run_dispatch, run_follow};
use mapf_model::{BytesSink, BytesSource, OutOfMemory};
use rand_pcg::Pcg32;
use std::alloc::Global;

// Room for the replies to events, and for the answers to requests, of a text that was damaged.
const ROOM: usize = 4096;

/// Hands so many texts to a reader.
pub fn tried(alloc: Global, reader: Reader, texts: u32, seed: u32) -> Result<Count> {
    let mut count = Count {
        reader,
        accepted: 0,
        refused: 0,
        wrong: 0,
    };
    let mut numbers = Pcg32::new(u64::from(seed), reader as u64);
    for _ in 0..texts {
        let text = text_for(alloc, reader, &mut numbers)?;
        match answer_to(alloc, reader, text.as_slice())? {
            Answer::Accepted => count.accepted = count.accepted.saturating_add(1),
            Answer::Refused => count.refused = count.refused.saturating_add(1),
            Answer::Wrong => count.wrong = count.wrong.saturating_add(1),
        }
    }
    Ok(count)
}

enum Answer {
    Accepted,
    Refused,
    Wrong,
}

// How a text is answered that stands in the place of the one that the reader reads.
fn answer_to(alloc: Global, reader: Reader, text: &[u8]) -> Result<Answer> {
    let (map, scenario, plan, certificate) = (
        MAP.as_bytes(),
        SCENARIO.as_bytes(),
        PLAN.as_bytes(),
        CERTIFICATE.as_bytes(),
    );
    match reader {
        Reader::Map => checked(alloc, text, scenario, plan, certificate, false),
        Reader::Scenario => checked(alloc, map, text, plan, certificate, false),
        Reader::Plan => checked(alloc, map, scenario, text, certificate, true),
        Reader::Certificate => checked(alloc, map, scenario, plan, text, true),
        Reader::Events => dispatched(alloc, text),
        Reader::Requests => followed(alloc, text),
    }
}

// How a check of these texts ends. Of the problem itself the least sum of costs is known.
fn checked(
    alloc: Global,
    map: &[u8],
    scenario: &[u8],
    plan: &[u8],
    certificate: &[u8],
    is_known: bool,
) -> Result<Answer> {
    let verdict = run_check(
        alloc,
        &mut BytesSource::of(map),
        &mut BytesSource::of(scenario),
        AGENTS,
        &mut BytesSource::of(plan),
        &mut BytesSource::of(certificate),
    );
    match verdict {
        Ok(verdict) if is_known && !is_true(verdict) => Ok(Answer::Wrong),
        Ok(_) => Ok(Answer::Accepted),
        Err(fault) => refused(fault),
    }
}

// Whether a verdict on the problem is true.
fn is_true(verdict: Verdict) -> bool {
    match verdict {
        Verdict::Optimal(cost) => cost == LEAST,
        Verdict::Bound(bound) => bound <= LEAST,
        Verdict::Within { bound, cost } => bound <= LEAST && LEAST <= cost,
        Verdict::Impossible => false,
    }
}

// How the dispatch of these events ends.
fn dispatched(alloc: Global, events: &[u8]) -> Result<Answer> {
    let Ok(mut replies) = BytesSink::with_room(alloc, ROOM) else {
        return Err(anyhow!("out of memory"));
    };
    let ended = run_dispatch(
        alloc,
        &mut BytesSource::of(MAP.as_bytes()),
        &mut BytesSource::of(SCENARIO.as_bytes()),
        AGENTS,
        &mut BytesSource::of(PLAN.as_bytes()),
        &mut BytesSource::of(events),
        &mut replies,
    );
    end_of(ended)
}

// How the run ends in which these requests are answered.
fn followed(alloc: Global, requests: &[u8]) -> Result<Answer> {
    let Ok(mut answers) = BytesSink::with_room(alloc, ROOM) else {
        return Err(anyhow!("out of memory"));
    };
    let ended = run_follow(
        alloc,
        &mut BytesSource::of(MAP.as_bytes()),
        &mut BytesSource::of(SCENARIO.as_bytes()),
        AGENTS,
        &mut BytesSource::of(PLAN.as_bytes()),
        &mut BytesSource::of(requests),
        &mut answers,
    );
    end_of(ended)
}

fn end_of(ended: Result<(), Fault>) -> Result<Answer> {
    match ended {
        Ok(()) => Ok(Answer::Accepted),
        Err(fault) => refused(fault),
    }
}

// A text that is refused. An error of a device is one of this program.
fn refused(fault: Fault) -> Result<Answer> {
    match fault {
        Fault::F4(_) | Fault::F5(_) | Fault::F6 => Err(anyhow!("{fault}")),
        _ => Ok(Answer::Refused),
    }
}
