//! How the lines of labels are read within the buffer, without a search for their ends first. The reader of lines tries
//! this before it cuts a line.
ghost use Rattle.mapf_fields.specs.Numbers.{Gives};
ghost use Rattle.mapf_certificate.specs.EntryReading.{BeginsWithText, read_line_end};
ghost use Rattle.mapf_lemma_texts.specs.FrontReading.{read_amount_front, read_label_end, read_entry_front};
ghost use Rattle.mapf_lemma_texts.specs.FrontReading.{read_both_front, read_label_front};
ghost use Rattle.mapf_lemma_texts.specs.Lines.{IsLine, line_text, width_of};
ghost use Rattle.std.specs.Prelude.{◌≤◌, IfSome};

use crate::line::LemmaLine;
use crate::parts::{AmountWord, amount_to};
use crate::ranges::GREATEST_LABEL;
use crate::sizes::{LinePlace, LineSizes};
use mapf_certificate::LineBuffer;
use mapf_fields::{LineFault, field, pair, strip, up_to};
use mapf_lemmas::{JointEntry, JointState, PricedEntry};
use mapf_model::limits::GREATEST_COST;

// Reads the amount after the blank that bytes begin with. Returns it and what follows.
#[tactic(auto, unfolding(crate::specs::FrontReading::read_amount_front))]
#[inline(always)]
fn amount_front(bytes: &[u8]) -> Result<(AmountWord, &[u8]), LineFault>
    ensures { Gives (λ p. (p.0, p.1.now)) result (read_amount_front bytes.entry.now) }
{
    if let Some(rest) = strip(bytes, b" inf") {
        return Ok((AmountWord::Infinite, rest));
    }
    let (units, rest) = field(b' ', bytes)?;
    Ok((AmountWord::Units(units), rest))
}

// Returns what follows the LF that bytes begin with.
#[tactic(auto, unfolding(mapf_certificate::specs::EntryReading::read_line_end))]
#[inline(always)]
fn line_end(bytes: &[u8]) -> Result<&[u8], LineFault>
    ensures { Gives (λ r. r.now) result (read_line_end bytes.entry.now) }
{
    match bytes {
        [first, rest @ ..] if *first == b'\n' => Ok(rest),
        _ => Err(LineFault::Shape),
    }
}

// Reads the tick and the label with which the line of an entry ends. Returns them, whose numbers aren't judged yet, and
// what follows the LF.
#[tactic(auto, unfolding(crate::specs::FrontReading::read_label_end))]
#[inline(always)]
fn label_end(bytes: &[u8]) -> Result<(Option<u64>, AmountWord, &[u8]), LineFault>
    ensures { Gives (λ p. (p.0, p.1, p.2.now)) result (read_label_end bytes.entry.now) }
{
    let (tick, rest) = field(b' ', bytes)?;
    let (word, rest) = amount_front(rest)?;
    let rest = line_end(rest)?;
    Ok((tick, word, rest))
}

// Reads the label of a cell, after `at`. Returns its line and what follows the LF.
#[tactic(auto, unfolding(crate::specs::FrontReading::read_entry_front))]
#[inline(always)]
fn entry_front<'a>(bytes: &'a [u8], sizes: &LineSizes) -> Result<(LemmaLine, &'a [u8]), LineFault>
    ensures { Gives (λ p. (p.0, p.1.now)) result (read_entry_front sizes.now bytes.entry.now) }
{
    let (x, y, rest) = pair(bytes)?;
    let (tick, word, rest) = label_end(rest)?;
    let entry = PricedEntry {
        cell: sizes.cell(x, y)?,
        tick: up_to(GREATEST_COST, tick)?,
        label: amount_to(GREATEST_LABEL, &word)?,
    };
    Ok((LemmaLine::At(entry), rest))
}

// Reads the label of two cells, after `at`. Returns its line and what follows the LF.
#[tactic(auto, unfolding(crate::specs::FrontReading::read_both_front))]
#[inline(always)]
fn both_front<'a>(bytes: &'a [u8], sizes: &LineSizes) -> Result<(LemmaLine, &'a [u8]), LineFault>
    ensures { Gives (λ p. (p.0, p.1.now)) result (read_both_front sizes.now bytes.entry.now) }
{
    let (first_x, first_y, rest) = pair(bytes)?;
    let (second_x, second_y, rest) = pair(rest)?;
    let (tick, word, rest) = label_end(rest)?;
    let first = sizes.cell(first_x, first_y)?;
    let second = sizes.cell(second_x, second_y)?;
    let entry = JointEntry {
        state: JointState::Both { first, second },
        tick: up_to(GREATEST_COST, tick)?,
        label: amount_to(GREATEST_LABEL, &word)?,
    };
    Ok((LemmaLine::JointAt(entry), rest))
}

// Reads the line of a label of one cell or of two that bytes begin with, in one pass from left to right. Returns it and
// what follows the LF. If bytes begin with no such line, `line_of` reports what is wrong with them, and not this error.
#[tactic(auto, unfolding(crate::specs::FrontReading::read_label_front))]
#[inline(always)]
fn label_front<'a>(bytes: &'a [u8], sizes: &LineSizes) -> Result<(LemmaLine, &'a [u8]), LineFault>
    ensures { Gives (λ p. (p.0, p.1.now)) result (read_label_front sizes.now bytes.entry.now) }
{
    let Some(rest) = strip(bytes, b"at") else {
        return Err(LineFault::Shape);
    };
    match entry_front(rest, sizes) {
        Ok(read) => Ok(read),
        Err(_) => both_front(rest, sizes),
    }
}

/// Returns the line of a label whose whole line is in the buffer, if it may come there, and the length of the line with
/// its LF.
#[inline(always)]
pub fn label_there(buffer: &LineBuffer, place: &LinePlace) -> Option<(LemmaLine, usize)>
    ensures line { IfSome result (λ p. IsLine place.now p.0) }
    ensures text { IfSome result (λ p. BeginsWithText buffer.now.bytes (line_text (width_of place.now) p.0) p.1) }
    ensures some { IfSome result (λ p. 2 ≤ p.1) }
{
    let LinePlace::Later(sizes) = place else {
        return None;
    };
    let bytes = buffer.all();
    match label_front(bytes, sizes) {
        Ok((line, rest)) => Some((line, bytes.len() - rest.len())),
        Err(_) => None,
    }
}
