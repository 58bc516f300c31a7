//! How the lines of constraints are read, by their first words.
ghost use Rattle.std.specs.Prelude.{◌≡◌};
ghost use Rattle.mapf_lemma_texts.specs.LineReading.{read_not_at, read_not_move, read_not, read_clear, read_most};
ghost use Rattle.mapf_lemma_texts.specs.LineReading.{read_least, read_constraint_line};

use crate::line::LemmaLine;
use crate::ranges::LAST_COST_SPLIT;
use crate::sizes::LineSizes;
use mapf_fields::{LineFault, below, field, last, pair, strip, up_to};
use mapf_lemmas::{AgentConstraint, PathConstraint};
use mapf_model::limits::{GREATEST_COST, LAST_SPLIT_TICK};

#[tactic(auto, unfolding(crate::specs::LineReading::read_not_at))]
fn not_at(rest: &[u8], sizes: &LineSizes) -> Result<LemmaLine, LineFault>
    ensures { result ≡ read_not_at sizes.now rest.now }
{
    let (agent, rest) = field(b' ', rest)?;
    let (x, y, rest) = pair(rest)?;
    let tick = last(b' ', rest)?;
    let agent = below(sizes.agents, agent)?;
    let constraint = PathConstraint::NotAt {
        cell: sizes.cell(x, y)?,
        tick: up_to(LAST_SPLIT_TICK, tick)?,
    };
    Ok(LemmaLine::Constraint(AgentConstraint { agent, constraint }))
}

#[tactic(auto, unfolding(crate::specs::LineReading::read_not_move))]
fn not_move(rest: &[u8], sizes: &LineSizes) -> Result<LemmaLine, LineFault>
    ensures { result ≡ read_not_move sizes.now rest.now }
{
    let (agent, rest) = field(b' ', rest)?;
    let (from_x, from_y, rest) = pair(rest)?;
    let (to_x, to_y, rest) = pair(rest)?;
    let tick = last(b' ', rest)?;
    let agent = below(sizes.agents, agent)?;
    let constraint = PathConstraint::NotMove {
        from: sizes.cell(from_x, from_y)?,
        to: sizes.cell(to_x, to_y)?,
        tick: up_to(LAST_SPLIT_TICK, tick)?,
    };
    Ok(LemmaLine::Constraint(AgentConstraint { agent, constraint }))
}

#[tactic(auto, unfolding(crate::specs::LineReading::read_not))]
fn not(rest: &[u8], sizes: &LineSizes) -> Result<LemmaLine, LineFault>
    ensures { result ≡ read_not sizes.now rest.now }
{
    match not_at(rest, sizes) {
        Err(LineFault::Shape) => not_move(rest, sizes),
        read => read,
    }
}

#[tactic(auto, unfolding(crate::specs::LineReading::read_clear))]
fn clear(rest: &[u8], sizes: &LineSizes) -> Result<LemmaLine, LineFault>
    ensures { result ≡ read_clear sizes.now rest.now }
{
    let (agent, rest) = field(b' ', rest)?;
    let (x, y, rest) = pair(rest)?;
    let tick = last(b' ', rest)?;
    let agent = below(sizes.agents, agent)?;
    let constraint = PathConstraint::Clear {
        cell: sizes.cell(x, y)?,
        tick: up_to(LAST_COST_SPLIT, tick)?,
    };
    Ok(LemmaLine::Constraint(AgentConstraint { agent, constraint }))
}

#[tactic(auto, unfolding(crate::specs::LineReading::read_most))]
fn most(rest: &[u8], sizes: &LineSizes) -> Result<LemmaLine, LineFault>
    ensures { result ≡ read_most sizes.now rest.now }
{
    let (agent, rest) = field(b' ', rest)?;
    let ticks = last(b' ', rest)?;
    let agent = below(sizes.agents, agent)?;
    let constraint = PathConstraint::Most {
        ticks: up_to(LAST_COST_SPLIT, ticks)?,
    };
    Ok(LemmaLine::Constraint(AgentConstraint { agent, constraint }))
}

#[tactic(auto, unfolding(crate::specs::LineReading::read_least))]
fn least(rest: &[u8], sizes: &LineSizes) -> Result<LemmaLine, LineFault>
    ensures { result ≡ read_least sizes.now rest.now }
{
    let (agent, rest) = field(b' ', rest)?;
    let ticks = last(b' ', rest)?;
    let agent = below(sizes.agents, agent)?;
    let constraint = PathConstraint::Least {
        ticks: up_to(GREATEST_COST, ticks)?,
    };
    Ok(LemmaLine::Constraint(AgentConstraint { agent, constraint }))
}

/// Reads a constraint. `LineFault::Shape` if the bytes begin with no word of a constraint.
#[tactic(auto, unfolding(crate::specs::LineReading::read_constraint_line))]
pub fn constraint_line(bytes: &[u8], sizes: &LineSizes) -> Result<LemmaLine, LineFault>
    ensures { result ≡ read_constraint_line sizes.now bytes.now }
{
    if let Some(rest) = strip(bytes, b"not") {
        return not(rest, sizes);
    }
    if let Some(rest) = strip(bytes, b"clear") {
        return clear(rest, sizes);
    }
    if let Some(rest) = strip(bytes, b"most") {
        return most(rest, sizes);
    }
    if let Some(rest) = strip(bytes, b"least") {
        return least(rest, sizes);
    }
    Err(LineFault::Shape)
}
