//! How each kind of line of a plan text is read, for the reader of plan texts.
ghost use Rattle.std.specs.Prelude.{◌≡◌};
ghost use Rattle.mapf_fields.specs.Numbers.{Gives};
ghost use Rattle.mapf_certificate.specs.PlanReading.{read_plan_title, read_agents_line, read_cause, cause_in_range};
ghost use Rattle.mapf_certificate.specs.PlanReading.{read_bound, bound_in_range, read_limit, read_answer_line};
ghost use Rattle.mapf_certificate.specs.PlanReading.{read_path_front};

use crate::tree_line::{agent_count, cost};
use crate::version::Version;
use mapf_fields::{LineFault, field, last, strip, up_to, within};
use mapf_model::Cause;
use mapf_model::limits::{GREATEST_SUM, MOST_SPLITS};

/// Line 3 of a plan text.
#[derive(Clone, Copy)]
pub enum AnswerLine {
    Cost(u64),
    Impossible,
    Limit {
        cause: Cause,
        // The bound, which version 1 doesn't have.
        bound: Option<u64>,
    },
}

/// Why the search ended, as it was read: after this number of splits, or at `ticks`.
#[derive(Clone, Copy)]
enum CauseWord {
    Splits(Option<u64>),
    Ticks,
}

/// Reads line 1. Returns the version.
#[tactic(auto, unfolding(crate::specs::PlanReading::read_plan_title))]
pub fn title_line(line: &[u8]) -> Result<Version, LineFault>
    ensures { result ≡ read_plan_title line.now }
{
    if line == b"mapf-plan 1".as_slice() {
        return Ok(Version::One);
    }
    if line == b"mapf-plan 2".as_slice() {
        return Ok(Version::Two);
    }
    Err(LineFault::Shape)
}

/// Reads line 2. Returns the number of agents.
#[tactic(auto, unfolding(crate::specs::PlanReading::read_agents_line))]
pub fn agents_line(line: &[u8]) -> Result<u32, LineFault>
    ensures { result ≡ read_agents_line line.now }
{
    match strip(line, b"agents") {
        Some(rest) => agent_count(rest),
        None => Err(LineFault::Shape),
    }
}

// Reads why the search ended. Returns it and what follows.
#[tactic(auto, unfolding(crate::specs::PlanReading::read_cause))]
fn cause_word(rest: &[u8]) -> Result<(CauseWord, &[u8]), LineFault>
    ensures { Gives (λ p. (p.0, p.1.now)) result (read_cause rest.entry.now) }
{
    if let Some(rest) = strip(rest, b" ticks") {
        return Ok((CauseWord::Ticks, rest));
    }
    let (splits, rest) = field(b' ', rest)?;
    Ok((CauseWord::Splits(splits), rest))
}

// Reads the bound at the end of a limit's line, which version 1 doesn't have.
#[tactic(auto, unfolding(crate::specs::PlanReading::read_bound))]
fn bound_word(version: Version, rest: &[u8]) -> Result<Option<Option<u64>>, LineFault>
    ensures { result ≡ read_bound version rest.now }
{
    match version {
        Version::One => match rest {
            [] => Ok(None),
            _ => Err(LineFault::Shape),
        },
        Version::Two => match strip(rest, b" bound") {
            Some(rest) => Ok(Some(last(b' ', rest)?)),
            None => Err(LineFault::Shape),
        },
    }
}

fn cause(word: &CauseWord) -> Result<Cause, LineFault>
    ensures { result ≡ cause_in_range word.now }
{
    match *word {
        CauseWord::Ticks => Ok(Cause::Ticks),
        CauseWord::Splits(splits) => Ok(Cause::Splits(up_to(MOST_SPLITS, splits)?)),
    }
}

fn bound(told: Option<Option<u64>>) -> Result<Option<u64>, LineFault>
    ensures { result ≡ bound_in_range told }
{
    match told {
        Some(bound) => Ok(Some(within(0, GREATEST_SUM, bound)?)),
        None => Ok(None),
    }
}

#[tactic(auto, unfolding(crate::specs::PlanReading::read_limit))]
fn limit(version: Version, rest: &[u8]) -> Result<AnswerLine, LineFault>
    ensures { result ≡ read_limit version rest.now }
{
    let (word, rest) = cause_word(rest)?;
    let told = bound_word(version, rest)?;
    Ok(AnswerLine::Limit {
        cause: cause(&word)?,
        bound: bound(told)?,
    })
}

/// Reads line 3.
#[tactic(auto, unfolding(crate::specs::PlanReading::read_answer_line))]
pub fn answer_line(version: Version, line: &[u8]) -> Result<AnswerLine, LineFault>
    ensures { result ≡ read_answer_line version line.now }
{
    if line == b"impossible".as_slice() {
        return Ok(AnswerLine::Impossible);
    }
    if let Some(rest) = strip(line, b"cost") {
        return Ok(AnswerLine::Cost(cost(rest)?));
    }
    if let Some(rest) = strip(line, b"limit") {
        return limit(version, rest);
    }
    Err(LineFault::Shape)
}

/// Reads the agent and the cost of a path's line, whose ranges aren't checked yet. Returns them and the pairs.
#[tactic(auto, unfolding(crate::specs::PlanReading::read_path_front))]
pub fn path_front(line: &[u8]) -> Result<(Option<u64>, Option<u64>, &[u8]), LineFault>
    ensures { Gives (λ p. (p.0, p.1, p.2.now)) result (read_path_front line.entry.now) }
{
    let Some(rest) = strip(line, b"path") else {
        return Err(LineFault::Shape);
    };
    let (agent, rest) = field(b' ', rest)?;
    let (cost, rest) = field(b' ', rest)?;
    if rest.is_empty() {
        return Err(LineFault::Shape);
    }
    Ok((agent, cost, rest))
}
