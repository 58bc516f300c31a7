//! How the lines of splits and clashes are read, by their first words.
ghost use Rattle.std.specs.Prelude.{◌≡◌};
ghost use Rattle.mapf_lemma_texts.specs.LineReading.{read_vertex, read_swap, read_cost_split, read_costs, read_clash};
ghost use Rattle.mapf_lemma_texts.specs.LineReading.{read_split_line};

use crate::line::LemmaLine;
use crate::ranges::{LAST_COST_SPLIT, MOST_LISTED};
use crate::sizes::LineSizes;
use mapf_fields::{LineFault, below, field, last, pair, strip, up_to, within};
use mapf_model::limits::{GREATEST_COST, LAST_SPLIT_TICK};

#[tactic(auto, unfolding(crate::specs::LineReading::read_vertex))]
fn vertex(rest: &[u8], sizes: &LineSizes) -> Result<LemmaLine, LineFault>
    ensures { result ≡ read_vertex sizes.now rest.now }
{
    let (i, rest) = field(b' ', rest)?;
    let (j, rest) = field(b' ', rest)?;
    let (x, y, rest) = pair(rest)?;
    let tick = last(b' ', rest)?;
    Ok(LemmaLine::Vertex {
        i: below(sizes.agents, i)?,
        j: below(sizes.agents, j)?,
        cell: sizes.cell(x, y)?,
        tick: up_to(LAST_SPLIT_TICK, tick)?,
    })
}

#[tactic(auto, unfolding(crate::specs::LineReading::read_swap))]
fn swap(rest: &[u8], sizes: &LineSizes) -> Result<LemmaLine, LineFault>
    ensures { result ≡ read_swap sizes.now rest.now }
{
    let (i, rest) = field(b' ', rest)?;
    let (j, rest) = field(b' ', rest)?;
    let (from_x, from_y, rest) = pair(rest)?;
    let (to_x, to_y, rest) = pair(rest)?;
    let tick = last(b' ', rest)?;
    Ok(LemmaLine::Swap {
        i: below(sizes.agents, i)?,
        j: below(sizes.agents, j)?,
        from: sizes.cell(from_x, from_y)?,
        to: sizes.cell(to_x, to_y)?,
        tick: up_to(LAST_SPLIT_TICK, tick)?,
    })
}

#[tactic(auto, unfolding(crate::specs::LineReading::read_cost_split))]
fn cost(rest: &[u8], sizes: &LineSizes) -> Result<LemmaLine, LineFault>
    ensures { result ≡ read_cost_split sizes.now rest.now }
{
    let (i, rest) = field(b' ', rest)?;
    let ticks = last(b' ', rest)?;
    Ok(LemmaLine::Cost {
        i: below(sizes.agents, i)?,
        ticks: up_to(LAST_COST_SPLIT, ticks)?,
    })
}

#[tactic(auto, unfolding(crate::specs::LineReading::read_costs))]
fn costs(rest: &[u8], sizes: &LineSizes) -> Result<LemmaLine, LineFault>
    ensures { result ≡ read_costs sizes.now rest.now }
{
    let (i, rest) = field(b' ', rest)?;
    let (ticks, rest) = field(b' ', rest)?;
    let (j, rest) = field(b' ', rest)?;
    let (least, rest) = field(b' ', rest)?;
    let lemma = last(b' ', rest)?;
    Ok(LemmaLine::Costs {
        i: below(sizes.agents, i)?,
        ticks: up_to(LAST_COST_SPLIT, ticks)?,
        j: below(sizes.agents, j)?,
        least: up_to(GREATEST_COST, least)?,
        lemma: within(0, MOST_LISTED, lemma)?,
    })
}

#[tactic(auto, unfolding(crate::specs::LineReading::read_clash))]
fn clash(rest: &[u8], sizes: &LineSizes) -> Result<LemmaLine, LineFault>
    ensures { result ≡ read_clash sizes.now rest.now }
{
    let (i, rest) = field(b' ', rest)?;
    let j = last(b' ', rest)?;
    Ok(LemmaLine::Clash {
        i: below(sizes.agents, i)?,
        j: below(sizes.agents, j)?,
    })
}

/// Reads a split or a clash. `LineFault::Shape` if the bytes begin with no word of these lines.
#[tactic(auto, unfolding(crate::specs::LineReading::read_split_line))]
pub fn split_line(bytes: &[u8], sizes: &LineSizes) -> Result<LemmaLine, LineFault>
    ensures { result ≡ read_split_line sizes.now bytes.now }
{
    if let Some(rest) = strip(bytes, b"vertex") {
        return vertex(rest, sizes);
    }
    if let Some(rest) = strip(bytes, b"swap") {
        return swap(rest, sizes);
    }
    if let Some(rest) = strip(bytes, b"costs") {
        return costs(rest, sizes);
    }
    if let Some(rest) = strip(bytes, b"cost") {
        return cost(rest, sizes);
    }
    if let Some(rest) = strip(bytes, b"clash") {
        return clash(rest, sizes);
    }
    Err(LineFault::Shape)
}
