//! How the lines of leaves are read, by their first words.
ghost use Rattle.std.specs.Prelude.{◌≡◌};
ghost use Rattle.mapf_lemma_texts.specs.LineReading.{read_leaf, read_group, read_single_use, read_weighted_use};
ghost use Rattle.mapf_lemma_texts.specs.LineReading.{read_use, read_leaf_line};

use crate::line::LemmaLine;
use crate::parts::{list_number, list_word};
use crate::ranges::{GREATEST_WEIGHT, MOST_LISTED, MOST_USES};
use crate::sizes::LineSizes;
use mapf_fields::{LineFault, field, from_one_to, last, strip, up_to, within};
use mapf_lemmas::Use;

#[tactic(auto, unfolding(crate::specs::LineReading::read_leaf))]
fn leaf(rest: &[u8], sizes: &LineSizes) -> Result<LemmaLine, LineFault>
    ensures { result ≡ read_leaf sizes.now rest.now }
{
    let (uses, rest) = field(b' ', rest)?;
    let (groups, rest) = field(b' ', rest)?;
    let list = list_word(rest)?;
    Ok(LemmaLine::Leaf {
        uses: up_to(sizes.agents, uses)?,
        groups: up_to(sizes.agents, groups)?,
        list_number: list_number(sizes.lists, list)?,
    })
}

#[tactic(auto, unfolding(crate::specs::LineReading::read_group))]
fn group(rest: &[u8]) -> Result<LemmaLine, LineFault>
    ensures { result ≡ read_group rest.now }
{
    let (uses, rest) = field(b' ', rest)?;
    let divisor = last(b' ', rest)?;
    Ok(LemmaLine::Group {
        uses: from_one_to(MOST_USES, uses)?,
        divisor: from_one_to(GREATEST_WEIGHT, divisor)?,
    })
}

#[tactic(auto, unfolding(crate::specs::LineReading::read_single_use))]
fn single_use(rest: &[u8]) -> Result<LemmaLine, LineFault>
    ensures { result ≡ read_single_use rest.now }
{
    let lemma = last(b' ', rest)?;
    Ok(LemmaLine::Use(within(0, MOST_LISTED, lemma)?))
}

#[tactic(auto, unfolding(crate::specs::LineReading::read_weighted_use))]
fn weighted_use(rest: &[u8]) -> Result<LemmaLine, LineFault>
    ensures { result ≡ read_weighted_use rest.now }
{
    let (lemma, rest) = field(b' ', rest)?;
    let weight = last(b' ', rest)?;
    Ok(LemmaLine::WeightedUse(Use {
        lemma: within(0, MOST_LISTED, lemma)?,
        weight: from_one_to(GREATEST_WEIGHT, weight)?,
    }))
}

#[tactic(auto, unfolding(crate::specs::LineReading::read_use))]
fn use_of(rest: &[u8]) -> Result<LemmaLine, LineFault>
    ensures { result ≡ read_use rest.now }
{
    match single_use(rest) {
        Err(LineFault::Shape) => weighted_use(rest),
        read => read,
    }
}

/// Reads a line of a leaf. `LineFault::Shape` if the bytes begin with no word of these lines.
#[tactic(auto, unfolding(crate::specs::LineReading::read_leaf_line))]
pub fn leaf_line(bytes: &[u8], sizes: &LineSizes) -> Result<LemmaLine, LineFault>
    ensures { result ≡ read_leaf_line sizes.now bytes.now }
{
    if let Some(rest) = strip(bytes, b"use") {
        return use_of(rest);
    }
    if let Some(rest) = strip(bytes, b"group") {
        return group(rest);
    }
    if let Some(rest) = strip(bytes, b"leaf") {
        return leaf(rest, sizes);
    }
    Err(LineFault::Shape)
}
