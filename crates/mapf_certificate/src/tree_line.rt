//! How each kind of line of a certificate is read, given what is expected. The reader of lines calls it for each line
//! that it has cut.
ghost use Rattle.std.specs.Prelude.{◌≡◌, ◌<◌, Ok, IfOk, OnOk, length};
ghost use Rattle.mapf_certificate.specs.Lines.{IsLine, words, width_of};
ghost use Rattle.mapf_certificate.specs.LineReading.{read_title, read_count, read_cost, read_agents};
ghost use Rattle.mapf_certificate.specs.LineReading.{read_bound_claim, read_claim};
ghost use Rattle.mapf_certificate.specs.LineReading.{read_vertex, read_swap, read_leaf, read_clash, read_agent};
ghost use Rattle.mapf_certificate.specs.LineReading.{read_label_word, label_in_range, read_entry, read_tree_line};
ghost use Rattle.mapf_certificate.specs.LineReading.{read_blocks, blocks_in_range};
ghost use Rattle.mapf_certificate.specs.LineReading.{read_line};

use crate::line::CertLine;
use crate::sizes::Sizes;
use crate::version::Version;
use mapf_fields::{LineFault, below, field, from_one_to, last, pair, strip, up_to, within};
use mapf_model::limits::{GREATEST_COST, GREATEST_SUM, LAST_SPLIT_TICK, MOST_AGENTS};
use mapf_model::{Claim, Conflict, Entry, Label};

/// Which line of a certificate is expected.
#[derive(Clone, Copy)]
pub enum Due {
    Title,
    Agents,
    /// The claim, in a text of this version.
    Claim(Version),
    /// Any line of the tree, or `end`.
    Tree(Sizes),
}

#[tactic(auto, unfolding(crate::specs::LineReading::read_title))]
fn title_line(bytes: &[u8]) -> Result<CertLine, LineFault>
    ensures { result ≡ read_title bytes.now }
{
    if bytes == b"mapf-cert 1".as_slice() {
        return Ok(CertLine::Title(Version::One));
    }
    if bytes == b"mapf-cert 2".as_slice() {
        return Ok(CertLine::Title(Version::Two));
    }
    Err(LineFault::Shape)
}

/// Reads the number of agents, after `agents`.
#[tactic(auto, unfolding(crate::specs::LineReading::read_count))]
pub fn agent_count(rest: &[u8]) -> Result<u32, LineFault>
    ensures { result ≡ read_count rest.now }
{
    from_one_to(MOST_AGENTS, last(b' ', rest)?)
}

/// Reads a sum of costs, after its word.
#[tactic(auto, unfolding(crate::specs::LineReading::read_cost))]
pub fn cost(rest: &[u8]) -> Result<u64, LineFault>
    ensures { result ≡ read_cost rest.now }
{
    within(0, GREATEST_SUM, last(b' ', rest)?)
}

#[tactic(auto, unfolding(crate::specs::LineReading::read_agents))]
fn agents_line(bytes: &[u8]) -> Result<CertLine, LineFault>
    ensures { result ≡ read_agents bytes.now }
{
    match strip(bytes, b"agents") {
        Some(rest) => Ok(CertLine::Agents(agent_count(rest)?)),
        None => Err(LineFault::Shape),
    }
}

// Reads the line of a claimed bound, which version 1 doesn't have.
#[tactic(auto, unfolding(crate::specs::LineReading::read_bound_claim))]
fn bound_line(version: Version, bytes: &[u8]) -> Result<CertLine, LineFault>
    ensures { result ≡ read_bound_claim version bytes.now }
{
    match version {
        Version::One => Err(LineFault::Shape),
        Version::Two => match strip(bytes, b"claim bound") {
            Some(rest) => Ok(CertLine::Claim(Claim::Bound(cost(rest)?))),
            None => Err(LineFault::Shape),
        },
    }
}

#[tactic(auto, unfolding(crate::specs::LineReading::read_claim))]
fn claim_line(version: Version, bytes: &[u8]) -> Result<CertLine, LineFault>
    ensures { result ≡ read_claim version bytes.now }
{
    if bytes == b"claim impossible".as_slice() {
        return Ok(CertLine::Claim(Claim::Impossible));
    }
    match strip(bytes, b"claim cost") {
        Some(rest) => Ok(CertLine::Claim(Claim::Cost(cost(rest)?))),
        None => bound_line(version, bytes),
    }
}

// Reads the number of blocks at the end of a split's line, which version 1 doesn't have.
#[tactic(auto, unfolding(crate::specs::LineReading::read_blocks))]
fn blocks_word(version: Version, rest: &[u8]) -> Result<Option<Option<u64>>, LineFault>
    ensures { result ≡ read_blocks version rest.now }
{
    match version {
        Version::One => match rest {
            [] => Ok(None),
            _ => Err(LineFault::Shape),
        },
        Version::Two => Ok(Some(last(b' ', rest)?)),
    }
}

fn block_count(agents: u32, blocks: Option<Option<u64>>) -> Result<Option<u64>, LineFault>
    ensures { result ≡ blocks_in_range agents blocks }
{
    match blocks {
        Some(blocks) => Ok(Some(within(0, agents as u64, blocks)?)),
        None => Ok(None),
    }
}

#[tactic(auto, unfolding(crate::specs::LineReading::read_vertex))]
fn vertex(rest: &[u8], sizes: &Sizes) -> Result<CertLine, LineFault>
    ensures { result ≡ read_vertex sizes.now rest.now }
{
    let (i, rest) = field(b' ', rest)?;
    let (j, rest) = field(b' ', rest)?;
    let (x, y, rest) = pair(rest)?;
    let (tick, rest) = field(b' ', rest)?;
    let blocks = blocks_word(sizes.version, rest)?;
    Ok(CertLine::Split {
        conflict: Conflict::Vertex {
            i: below(sizes.agents, i)?,
            j: below(sizes.agents, j)?,
            cell: sizes.cell(x, y)?,
            tick: up_to(LAST_SPLIT_TICK, tick)?,
        },
        blocks: block_count(sizes.agents, blocks)?,
    })
}

#[tactic(auto, unfolding(crate::specs::LineReading::read_swap))]
fn swap(rest: &[u8], sizes: &Sizes) -> Result<CertLine, LineFault>
    ensures { result ≡ read_swap sizes.now rest.now }
{
    let (i, rest) = field(b' ', rest)?;
    let (j, rest) = field(b' ', rest)?;
    let (from_x, from_y, rest) = pair(rest)?;
    let (to_x, to_y, rest) = pair(rest)?;
    let (tick, rest) = field(b' ', rest)?;
    let blocks = blocks_word(sizes.version, rest)?;
    Ok(CertLine::Split {
        conflict: Conflict::Swap {
            i: below(sizes.agents, i)?,
            j: below(sizes.agents, j)?,
            from: sizes.cell(from_x, from_y)?,
            to: sizes.cell(to_x, to_y)?,
            tick: up_to(LAST_SPLIT_TICK, tick)?,
        },
        blocks: block_count(sizes.agents, blocks)?,
    })
}

#[tactic(auto, unfolding(crate::specs::LineReading::read_leaf))]
fn leaf(rest: &[u8], sizes: &Sizes) -> Result<CertLine, LineFault>
    ensures { result ≡ read_leaf sizes.now rest.now }
{
    let blocks = last(b' ', rest)?;
    Ok(CertLine::Leaf(within(0, sizes.agents as u64, blocks)?))
}

#[tactic(auto, unfolding(crate::specs::LineReading::read_clash))]
fn clash(rest: &[u8], sizes: &Sizes) -> Result<CertLine, LineFault>
    ensures { result ≡ read_clash sizes.now rest.now }
{
    let (i, rest) = field(b' ', rest)?;
    let j = last(b' ', rest)?;
    Ok(CertLine::Clash {
        i: below(sizes.agents, i)?,
        j: below(sizes.agents, j)?,
    })
}

#[tactic(auto, unfolding(crate::specs::LineReading::read_agent))]
fn agent(rest: &[u8], sizes: &Sizes) -> Result<CertLine, LineFault>
    ensures { result ≡ read_agent sizes.now rest.now }
{
    let (agent, rest) = field(b' ', rest)?;
    let entries = last(b' ', rest)?;
    Ok(CertLine::Agent {
        agent: below(sizes.agents, agent)?,
        entries: within(1, u64::MAX, entries)?,
    })
}

/// A label as it was read: its ticks, or `Never` for `inf`.
#[derive(Clone, Copy)]
enum LabelWord {
    Ticks(Option<u64>),
    Never,
}

#[tactic(auto, unfolding(crate::specs::LineReading::read_label_word))]
fn label_word(rest: &[u8]) -> Result<LabelWord, LineFault>
    ensures { result ≡ read_label_word rest.now }
{
    if rest == b" inf".as_slice() {
        return Ok(LabelWord::Never);
    }
    Ok(LabelWord::Ticks(last(b' ', rest)?))
}

fn label(word: &LabelWord) -> Result<Label, LineFault>
    ensures { result ≡ label_in_range word.now }
{
    match *word {
        LabelWord::Never => Ok(Label::Never),
        LabelWord::Ticks(ticks) => Ok(Label::Ticks(from_one_to(GREATEST_COST, ticks)?)),
    }
}

#[tactic(auto, unfolding(crate::specs::LineReading::read_entry))]
fn entry(rest: &[u8], sizes: &Sizes) -> Result<CertLine, LineFault>
    ensures { result ≡ read_entry sizes.now rest.now }
{
    let (x, y, rest) = pair(rest)?;
    let (tick, rest) = field(b' ', rest)?;
    let word = label_word(rest)?;
    Ok(CertLine::At(Entry {
        cell: sizes.cell(x, y)?,
        tick: up_to(GREATEST_COST, tick)?,
        label: label(&word)?,
    }))
}

#[tactic(auto, unfolding(crate::specs::LineReading::read_tree_line))]
fn tree_line(bytes: &[u8], sizes: &Sizes) -> Result<CertLine, LineFault>
    ensures { result ≡ read_tree_line sizes.now bytes.now }
{
    if let Some(rest) = strip(bytes, b"at") {
        return entry(rest, sizes);
    }
    if let Some(rest) = strip(bytes, b"agent") {
        return agent(rest, sizes);
    }
    if let Some(rest) = strip(bytes, b"leaf") {
        return leaf(rest, sizes);
    }
    if let Some(rest) = strip(bytes, b"vertex") {
        return vertex(rest, sizes);
    }
    if let Some(rest) = strip(bytes, b"swap") {
        return swap(rest, sizes);
    }
    if let Some(rest) = strip(bytes, b"clash") {
        return clash(rest, sizes);
    }
    if bytes == b"end".as_slice() {
        return Ok(CertLine::End);
    }
    Err(LineFault::Shape)
}

/// Reads a line of a certificate.
#[inline(always)]
pub fn line_of(due: &Due, bytes: &[u8]) -> Result<CertLine, LineFault>
    // If a line is returned, it is an expected one and the bytes spell it.
    ensures found { IfOk result (λ line. IsLine due.now line × (bytes.now ≡ words (width_of due.now) line)) }
    ensures some { OnOk result (0 < length bytes.now) }
    // An expected line that the bytes spell is returned.
    ensures only { (line : CertLine) → IsLine due.now line
        → bytes.now ≡ words (width_of due.now) line → result ≡ Ok line }
{
    judge(due, bytes)
}

fn judge(due: &Due, bytes: &[u8]) -> Result<CertLine, LineFault>
    ensures { result ≡ read_line due.now bytes.now }
{
    match due {
        Due::Title => title_line(bytes),
        Due::Agents => agents_line(bytes),
        Due::Claim(version) => claim_line(*version, bytes),
        Due::Tree(sizes) => tree_line(bytes, sizes),
    }
}
