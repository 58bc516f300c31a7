//! How the lines of labels and of joint cells are read: nearly all lines of a certificate are of these kinds.
ghost use Rattle.std.specs.Prelude.{◌≡◌};
ghost use Rattle.mapf_lemma_texts.specs.LineReading.{read_entry, read_both, read_first_alone, read_second_alone};
ghost use Rattle.mapf_lemma_texts.specs.LineReading.{read_joint, read_at, read_cells};

use crate::line::LemmaLine;
use crate::parts::{amount_to, amount_word, star};
use crate::ranges::GREATEST_LABEL;
use crate::sizes::LineSizes;
use mapf_fields::{LineFault, field, last, pair, up_to};
use mapf_lemmas::{JointCell, JointEntry, JointState, PricedEntry};
use mapf_model::limits::GREATEST_COST;

#[tactic(auto, unfolding(crate::specs::LineReading::read_entry))]
#[inline(always)]
fn entry(rest: &[u8], sizes: &LineSizes) -> Result<LemmaLine, LineFault>
    ensures { result ≡ read_entry sizes.now rest.now }
{
    let (x, y, rest) = pair(rest)?;
    let (tick, rest) = field(b' ', rest)?;
    let word = amount_word(rest)?;
    Ok(LemmaLine::At(PricedEntry {
        cell: sizes.cell(x, y)?,
        tick: up_to(GREATEST_COST, tick)?,
        label: amount_to(GREATEST_LABEL, &word)?,
    }))
}

#[tactic(auto, unfolding(crate::specs::LineReading::read_both))]
fn both(rest: &[u8], sizes: &LineSizes) -> Result<LemmaLine, LineFault>
    ensures { result ≡ read_both sizes.now rest.now }
{
    let (first_x, first_y, rest) = pair(rest)?;
    let (second_x, second_y, rest) = pair(rest)?;
    let (tick, rest) = field(b' ', rest)?;
    let word = amount_word(rest)?;
    let first = sizes.cell(first_x, first_y)?;
    let second = sizes.cell(second_x, second_y)?;
    Ok(LemmaLine::JointAt(JointEntry {
        state: JointState::Both { first, second },
        tick: up_to(GREATEST_COST, tick)?,
        label: amount_to(GREATEST_LABEL, &word)?,
    }))
}

#[tactic(auto, unfolding(crate::specs::LineReading::read_first_alone))]
fn first_alone(rest: &[u8], sizes: &LineSizes) -> Result<LemmaLine, LineFault>
    ensures { result ≡ read_first_alone sizes.now rest.now }
{
    let (x, y, rest) = pair(rest)?;
    let rest = star(rest)?;
    let (tick, rest) = field(b' ', rest)?;
    let word = amount_word(rest)?;
    let first = sizes.cell(x, y)?;
    Ok(LemmaLine::JointAt(JointEntry {
        state: JointState::FirstAlone { first },
        tick: up_to(GREATEST_COST, tick)?,
        label: amount_to(GREATEST_LABEL, &word)?,
    }))
}

#[tactic(auto, unfolding(crate::specs::LineReading::read_second_alone))]
fn second_alone(rest: &[u8], sizes: &LineSizes) -> Result<LemmaLine, LineFault>
    ensures { result ≡ read_second_alone sizes.now rest.now }
{
    let rest = star(rest)?;
    let (x, y, rest) = pair(rest)?;
    let (tick, rest) = field(b' ', rest)?;
    let word = amount_word(rest)?;
    let second = sizes.cell(x, y)?;
    Ok(LemmaLine::JointAt(JointEntry {
        state: JointState::SecondAlone { second },
        tick: up_to(GREATEST_COST, tick)?,
        label: amount_to(GREATEST_LABEL, &word)?,
    }))
}

#[tactic(auto, unfolding(crate::specs::LineReading::read_joint))]
fn joint_at(rest: &[u8], sizes: &LineSizes) -> Result<LemmaLine, LineFault>
    ensures { result ≡ read_joint sizes.now rest.now }
{
    match both(rest, sizes) {
        Err(LineFault::Shape) => {}
        read => return read,
    }
    match first_alone(rest, sizes) {
        Err(LineFault::Shape) => second_alone(rest, sizes),
        read => read,
    }
}

/// Reads a label of one agent or of two, after `at`.
#[tactic(auto, unfolding(crate::specs::LineReading::read_at))]
#[inline(always)]
pub fn at(rest: &[u8], sizes: &LineSizes) -> Result<LemmaLine, LineFault>
    ensures { result ≡ read_at sizes.now rest.now }
{
    match entry(rest, sizes) {
        Err(LineFault::Shape) => joint_at(rest, sizes),
        read => read,
    }
}

/// Reads the cells of two agents, after `cells`.
#[tactic(auto, unfolding(crate::specs::LineReading::read_cells))]
pub fn cells(rest: &[u8], sizes: &LineSizes) -> Result<LemmaLine, LineFault>
    ensures { result ≡ read_cells sizes.now rest.now }
{
    let (first_x, first_y, rest) = pair(rest)?;
    let (second_x, rest) = field(b' ', rest)?;
    let second_y = last(b',', rest)?;
    Ok(LemmaLine::Cells(JointCell {
        first: sizes.cell(first_x, first_y)?,
        second: sizes.cell(second_x, second_y)?,
    }))
}
