//! How a text for a reader is drawn: from pieces, or as a sample with a few changes.
use crate::samples::{Reader, samples};
use anyhow::Result;
use rand::RngExt;
use rand_pcg::Pcg32;
use std::alloc::Global;

// What the texts of the formats are made of, and what isn't in any of them.
const PIECES: [&str; 41] = [
    "\n",
    " ",
    "\t",
    "\r\n",
    ",",
    "0",
    "1",
    "2",
    "3",
    "5",
    "9999999",
    "4294967296",
    "18446744073709551616",
    "00",
    "-",
    "-1",
    "inf",
    ".",
    "@",
    "type octile",
    "height 3",
    "width 3",
    "map",
    "version 1",
    "mapf-plan 2",
    "mapf-cert 3",
    "mapf-events 1",
    "status",
    "agents 2",
    "cost 5",
    "claim cost 5",
    "path 0 ",
    "vertex 0 1 1,1 1 0",
    "leaf 1",
    "agent 0 1",
    "at 0,1 0 3",
    "lemmas 1",
    "one 0 0 1 -",
    "use 0",
    "end\n",
    "\u{ff}",
];

// The greatest number of pieces of a text that is made, and of changes to one that is damaged.
const MOST_PIECES: u32 = 12;

const MOST_CHANGES: u32 = 3;

/// Returns a text for a reader: one of four is made of pieces, the others are samples with a few changes.
pub fn text_for(alloc: Global, reader: Reader, numbers: &mut Pcg32) -> Result<Vec<u8>> {
    if numbers.random_range(0..4u32) == 0 {
        return made(alloc, numbers);
    }
    let mut text = Vec::new(alloc);
    text.extend_from_slice(some(samples(reader), numbers).as_bytes())?;
    for _ in 0..numbers.random_range(1..=MOST_CHANGES) {
        text = changed(alloc, text.as_slice(), numbers)?;
    }
    Ok(text)
}

fn made(alloc: Global, numbers: &mut Pcg32) -> Result<Vec<u8>> {
    let mut text = Vec::new(alloc);
    for _ in 0..numbers.random_range(0..=MOST_PIECES) {
        text.extend_from_slice(some(&PIECES, numbers).as_bytes())?;
    }
    Ok(text)
}

// Returns the text with a part of a few bytes left out, told twice, or replaced by a piece or by any byte.
fn changed(alloc: Global, text: &[u8], numbers: &mut Pcg32) -> Result<Vec<u8>> {
    let begin = numbers.random_range(0..=text.len());
    let end = numbers.random_range(begin..=text.len().min(begin.saturating_add(8)));
    let (before, rest) = text.split_at(begin);
    let (part, after) = rest.split_at((end - begin).min(rest.len()));
    let mut found = Vec::new(alloc);
    found.extend_from_slice(before)?;
    match numbers.random_range(0..4u32) {
        0 => {}
        1 => {
            found.extend_from_slice(part)?;
            found.extend_from_slice(part)?;
        }
        2 => found.extend_from_slice(some(&PIECES, numbers).as_bytes())?,
        _ => found.push(numbers.random_range(0..=u8::MAX))?,
    }
    found.extend_from_slice(after)?;
    Ok(found)
}

// Returns one of some words, which is empty if there are none.
fn some(words: &[&'static str], numbers: &mut Pcg32) -> &'static str {
    if words.is_empty() {
        return "";
    }
    let place = numbers.random_range(0..words.len());
    words.get(place).copied().unwrap_or("")
}
