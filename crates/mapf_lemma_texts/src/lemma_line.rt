//! How the first lines of lemmas are read, by their first words.
ghost use Rattle.std.specs.Prelude.{◌≡◌};
ghost use Rattle.mapf_lemma_texts.specs.LineReading.{read_lemmas, read_one, read_two, read_never, read_cases};
ghost use Rattle.mapf_lemma_texts.specs.LineReading.{read_agent, read_lemma_line};

use crate::line::LemmaLine;
use crate::parts::{amount_to, amount_word, list_number, list_word};
use crate::ranges::{MOST_CONSTRAINTS, MOST_LISTED};
use crate::sizes::LineSizes;
use mapf_fields::{LineFault, below, field, from_one_to, last, strip, up_to, within};
use mapf_model::limits::GREATEST_SUM;

#[tactic(auto, unfolding(crate::specs::LineReading::read_lemmas))]
fn lemmas(rest: &[u8]) -> Result<LemmaLine, LineFault>
    ensures { result ≡ read_lemmas rest.now }
{
    let lemmas = last(b' ', rest)?;
    Ok(LemmaLine::Lemmas(within(0, MOST_LISTED, lemmas)?))
}

#[tactic(auto, unfolding(crate::specs::LineReading::read_one))]
fn one(rest: &[u8], sizes: &LineSizes) -> Result<LemmaLine, LineFault>
    ensures { result ≡ read_one sizes.now rest.now }
{
    let (agent, rest) = field(b' ', rest)?;
    let (constraints, rest) = field(b' ', rest)?;
    let (entries, rest) = field(b' ', rest)?;
    let list = list_word(rest)?;
    Ok(LemmaLine::One {
        agent: below(sizes.agents, agent)?,
        constraints: up_to(MOST_CONSTRAINTS, constraints)?,
        entries: within(0, MOST_LISTED, entries)?,
        list_number: list_number(sizes.lists, list)?,
    })
}

#[tactic(auto, unfolding(crate::specs::LineReading::read_two))]
fn two(rest: &[u8], sizes: &LineSizes) -> Result<LemmaLine, LineFault>
    ensures { result ≡ read_two sizes.now rest.now }
{
    let (first, rest) = field(b' ', rest)?;
    let (second, rest) = field(b' ', rest)?;
    let (constraints, rest) = field(b' ', rest)?;
    let (first_entries, rest) = field(b' ', rest)?;
    let (second_entries, rest) = field(b' ', rest)?;
    let (joint_entries, rest) = field(b' ', rest)?;
    let list = list_word(rest)?;
    Ok(LemmaLine::Two {
        first: below(sizes.agents, first)?,
        second: below(sizes.agents, second)?,
        constraints: up_to(MOST_CONSTRAINTS, constraints)?,
        first_entries: within(0, MOST_LISTED, first_entries)?,
        second_entries: within(0, MOST_LISTED, second_entries)?,
        joint_entries: within(0, MOST_LISTED, joint_entries)?,
        list_number: list_number(sizes.lists, list)?,
    })
}

#[tactic(auto, unfolding(crate::specs::LineReading::read_never))]
fn never(rest: &[u8], sizes: &LineSizes) -> Result<LemmaLine, LineFault>
    ensures { result ≡ read_never sizes.now rest.now }
{
    let (first, rest) = field(b' ', rest)?;
    let (second, rest) = field(b' ', rest)?;
    let cells = last(b' ', rest)?;
    Ok(LemmaLine::Never {
        first: below(sizes.agents, first)?,
        second: below(sizes.agents, second)?,
        cells: within(1, MOST_LISTED, cells)?,
    })
}

#[tactic(auto, unfolding(crate::specs::LineReading::read_cases))]
fn cases(rest: &[u8], sizes: &LineSizes) -> Result<LemmaLine, LineFault>
    ensures { result ≡ read_cases sizes.now rest.now }
{
    let (agents, rest) = field(b' ', rest)?;
    let (constraints, rest) = field(b' ', rest)?;
    let word = amount_word(rest)?;
    Ok(LemmaLine::Cases {
        agents: from_one_to(sizes.agents, agents)?,
        constraints: up_to(MOST_CONSTRAINTS, constraints)?,
        bound: amount_to(GREATEST_SUM, &word)?,
    })
}

#[tactic(auto, unfolding(crate::specs::LineReading::read_agent))]
fn agent(rest: &[u8], sizes: &LineSizes) -> Result<LemmaLine, LineFault>
    ensures { result ≡ read_agent sizes.now rest.now }
{
    let agent = last(b' ', rest)?;
    Ok(LemmaLine::Agent(below(sizes.agents, agent)?))
}

/// Reads the first line of a lemma, an agent, or the number of lemmas. `LineFault::Shape` if the bytes begin with no
/// word of these lines.
#[tactic(auto, unfolding(crate::specs::LineReading::read_lemma_line))]
pub fn lemma_line(bytes: &[u8], sizes: &LineSizes) -> Result<LemmaLine, LineFault>
    ensures { result ≡ read_lemma_line sizes.now bytes.now }
{
    if let Some(rest) = strip(bytes, b"one") {
        return one(rest, sizes);
    }
    if let Some(rest) = strip(bytes, b"two") {
        return two(rest, sizes);
    }
    if let Some(rest) = strip(bytes, b"never") {
        return never(rest, sizes);
    }
    if let Some(rest) = strip(bytes, b"cases") {
        return cases(rest, sizes);
    }
    if let Some(rest) = strip(bytes, b"agent") {
        return agent(rest, sizes);
    }
    if let Some(rest) = strip(bytes, b"lemmas") {
        return lemmas(rest);
    }
    Err(LineFault::Shape)
}
