//! How the line of an entry is read within the buffer, without a search for its end first. The reader of lists tries
//! this before it takes a line.
ghost use Rattle.mapf_fields.specs.Numbers.{Gives};
ghost use Rattle.mapf_certificate.specs.EntryReading.{read_label_front, read_line_end, read_entry_parts};
ghost use Rattle.mapf_certificate.specs.EntryReading.{read_entry_front};

use crate::sizes::Sizes;
use mapf_fields::{LineFault, field, from_one_to, pair, strip, up_to};
use mapf_model::limits::GREATEST_COST;
use mapf_model::{Entry, Label};

// Reads the label after the blank that bytes begin with. Returns it and what follows.
#[tactic(auto, unfolding(crate::specs::EntryReading::read_label_front))]
#[inline(always)]
fn label_front(bytes: &[u8]) -> Result<(Label, &[u8]), LineFault>
    ensures { Gives (λ p. (p.0, p.1.now)) result (read_label_front bytes.entry.now) }
{
    if let Some(rest) = strip(bytes, b" inf") {
        return Ok((Label::Never, rest));
    }
    let (ticks, rest) = field(b' ', bytes)?;
    Ok((Label::Ticks(from_one_to(GREATEST_COST, ticks)?), rest))
}

// Returns what follows the LF that bytes begin with.
#[tactic(auto, unfolding(crate::specs::EntryReading::read_line_end))]
#[inline(always)]
fn line_end(bytes: &[u8]) -> Result<&[u8], LineFault>
    ensures { Gives (λ r. r.now) result (read_line_end bytes.entry.now) }
{
    match bytes {
        [first, rest @ ..] if *first == b'\n' => Ok(rest),
        _ => Err(LineFault::Shape),
    }
}

// Reads the line of an entry that bytes begin with, without its first word. Returns the entry and what follows the LF.
#[tactic(auto, unfolding(crate::specs::EntryReading::read_entry_parts))]
#[inline(always)]
fn entry_parts<'a>(bytes: &'a [u8], sizes: &Sizes) -> Result<(Entry, &'a [u8]), LineFault>
    ensures { Gives (λ p. (p.0, p.1.now)) result (read_entry_parts sizes.now bytes.entry.now) }
{
    let (x, y, rest) = pair(bytes)?;
    let (tick, rest) = field(b' ', rest)?;
    let (label, rest) = label_front(rest)?;
    let rest = line_end(rest)?;
    let entry = Entry {
        cell: sizes.cell(x, y)?,
        tick: up_to(GREATEST_COST, tick)?,
        label,
    };
    Ok((entry, rest))
}

/// Reads the line of an entry that bytes begin with, in one pass from left to right. Returns the entry and what follows
/// the LF. If bytes begin with no such line, `line_of` reports what is wrong with them, and not this error.
#[tactic(auto, unfolding(crate::specs::EntryReading::read_entry_front))]
#[inline(always)]
pub fn entry_front<'a>(bytes: &'a [u8], sizes: &Sizes) -> Result<(Entry, &'a [u8]), LineFault>
    ensures { Gives (λ p. (p.0, p.1.now)) result (read_entry_front sizes.now bytes.entry.now) }
{
    if let Some(rest) = strip(bytes, b"at") {
        return entry_parts(rest, sizes);
    }
    Err(LineFault::Shape)
}
