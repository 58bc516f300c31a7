//! How a line of version 3 is read, given which lines may come. The reader of lines calls it for each line that it has
//! cut.
ghost use Rattle.std.specs.Prelude.{◌≡◌, ◌<◌, ◌≤◌, Ok, IfOk, OnOk, length};
ghost use Rattle.mapf_model.specs.Limits.{longest_cert_line};
ghost use Rattle.mapf_lemma_texts.specs.Lines.{IsLine, words, width_of};
ghost use Rattle.mapf_lemma_texts.specs.LineReading.{read_title, read_count, read_agents, read_cost, read_bound};
ghost use Rattle.mapf_lemma_texts.specs.LineReading.{read_claim, read_label_line, read_end, read_later, read_line};

use crate::constraint_line::constraint_line;
use crate::label_line::{at, cells};
use crate::leaf_line::leaf_line;
use crate::lemma_line::lemma_line;
use crate::line::LemmaLine;
use crate::price_line::price_line;
use crate::sizes::{LinePlace, LineSizes};
use crate::split_line::split_line;
use mapf_fields::{LineFault, from_one_to, last, strip, within};
use mapf_model::Claim;
use mapf_model::limits::{GREATEST_SUM, MOST_AGENTS};

#[tactic(auto, unfolding(crate::specs::LineReading::read_title))]
fn title_line(bytes: &[u8]) -> Result<LemmaLine, LineFault>
    ensures { result ≡ read_title bytes.now }
{
    if bytes == b"mapf-cert 3".as_slice() {
        return Ok(LemmaLine::Title);
    }
    Err(LineFault::Shape)
}

#[tactic(auto, unfolding(crate::specs::LineReading::read_count))]
fn count(rest: &[u8]) -> Result<LemmaLine, LineFault>
    ensures { result ≡ read_count rest.now }
{
    let agents = last(b' ', rest)?;
    Ok(LemmaLine::Agents(from_one_to(MOST_AGENTS, agents)?))
}

#[tactic(auto, unfolding(crate::specs::LineReading::read_agents))]
fn agents_line(bytes: &[u8]) -> Result<LemmaLine, LineFault>
    ensures { result ≡ read_agents bytes.now }
{
    match strip(bytes, b"agents") {
        Some(rest) => count(rest),
        None => Err(LineFault::Shape),
    }
}

#[tactic(auto, unfolding(crate::specs::LineReading::read_cost))]
fn cost(rest: &[u8]) -> Result<LemmaLine, LineFault>
    ensures { result ≡ read_cost rest.now }
{
    let cost = last(b' ', rest)?;
    Ok(LemmaLine::Claim(Claim::Cost(within(0, GREATEST_SUM, cost)?)))
}

#[tactic(auto, unfolding(crate::specs::LineReading::read_bound))]
fn bound(rest: &[u8]) -> Result<LemmaLine, LineFault>
    ensures { result ≡ read_bound rest.now }
{
    let bound = last(b' ', rest)?;
    Ok(LemmaLine::Claim(Claim::Bound(within(0, GREATEST_SUM, bound)?)))
}

#[tactic(auto, unfolding(crate::specs::LineReading::read_claim))]
fn claim_line(bytes: &[u8]) -> Result<LemmaLine, LineFault>
    ensures { result ≡ read_claim bytes.now }
{
    if bytes == b"claim impossible".as_slice() {
        return Ok(LemmaLine::Claim(Claim::Impossible));
    }
    if let Some(rest) = strip(bytes, b"claim cost") {
        return cost(rest);
    }
    match strip(bytes, b"claim bound") {
        Some(rest) => bound(rest),
        None => Err(LineFault::Shape),
    }
}

#[tactic(auto, unfolding(crate::specs::LineReading::read_label_line))]
#[inline(always)]
fn label_line(bytes: &[u8], sizes: &LineSizes) -> Result<LemmaLine, LineFault>
    ensures { result ≡ read_label_line sizes.now bytes.now }
{
    if let Some(rest) = strip(bytes, b"at") {
        return at(rest, sizes);
    }
    match strip(bytes, b"cells") {
        Some(rest) => cells(rest, sizes),
        None => Err(LineFault::Shape),
    }
}

#[tactic(auto, unfolding(crate::specs::LineReading::read_end))]
fn end_line(bytes: &[u8]) -> Result<LemmaLine, LineFault>
    ensures { result ≡ read_end bytes.now }
{
    if bytes == b"end".as_slice() {
        return Ok(LemmaLine::End);
    }
    Err(LineFault::Shape)
}

// A kind of line whose word the bytes don't begin with has another shape, so the next kinds are tried. Those that texts
// have most come first.
#[tactic(auto, unfolding(crate::specs::LineReading::read_later))]
fn later_line(bytes: &[u8], sizes: &LineSizes) -> Result<LemmaLine, LineFault>
    ensures { result ≡ read_later sizes.now bytes.now }
{
    match label_line(bytes, sizes) {
        Err(LineFault::Shape) => {}
        read => return read,
    }
    match price_line(bytes, sizes) {
        Err(LineFault::Shape) => {}
        read => return read,
    }
    match constraint_line(bytes, sizes) {
        Err(LineFault::Shape) => {}
        read => return read,
    }
    match leaf_line(bytes, sizes) {
        Err(LineFault::Shape) => {}
        read => return read,
    }
    match split_line(bytes, sizes) {
        Err(LineFault::Shape) => {}
        read => return read,
    }
    match lemma_line(bytes, sizes) {
        Err(LineFault::Shape) => end_line(bytes),
        read => read,
    }
}

fn judge(place: &LinePlace, bytes: &[u8]) -> Result<LemmaLine, LineFault>
    ensures { result ≡ read_line place.now bytes.now }
{
    match place {
        LinePlace::Title => title_line(bytes),
        LinePlace::Agents => agents_line(bytes),
        LinePlace::Claim => claim_line(bytes),
        LinePlace::Later(sizes) => later_line(bytes, sizes),
    }
}

/// Reads a line of a certificate of version 3, of which bytes are all but the LF. `LineFault::Shape` if the bytes have
/// the shape of no line that may come there, `LineFault::Range` if they have and a number is out of its range.
pub fn line_of(place: &LinePlace, bytes: &[u8]) -> Result<LemmaLine, LineFault>
    // If a line is returned, it may come there, and the bytes spell it.
    ensures found { IfOk result (λ line. IsLine place.now line × (bytes.now ≡ words (width_of place.now) line)) }
    ensures some { OnOk result (0 < length bytes.now) }
    ensures short { OnOk result (length bytes.now ≤ longest_cert_line) }
    // A line that may come there and that the bytes spell is returned.
    ensures only { (line : LemmaLine) → IsLine place.now line
        → bytes.now ≡ words (width_of place.now) line → result ≡ Ok line }
{
    judge(place, bytes)
}
