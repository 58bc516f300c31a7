//! The lemma of a block, and whether it fits into a text.
ghost use Rattle.std.specs.Prelude.{◌≡◌, ◌↔◌, All, IfOk, IsTrue};
ghost use Rattle.mapf_lemma_convert.specs.Conversion.{path_constraint};
ghost use Rattle.mapf_lemma_convert.specs.NodeWalk.{own_constraints, block_part, PartFits, LemmasFit};

use mapf_lemma_texts::ranges::{MOST_CONSTRAINTS, MOST_LISTED};
use mapf_lemma_texts::{OneLemma, Part};
use mapf_lemmas::{AgentConstraint, Amount, PathConstraint, PricedEntry};
use mapf_model::{Bar, Block, Constraint, Entry, Label};
use std::alloc::{AllocError, Global};

// Returns the constraint of version 3 that forbids the same.
fn path_constraint(bar: Bar) -> PathConstraint
    ensures { result ≡ path_constraint bar }
{
    match bar {
        Bar::Cell { cell, tick } => PathConstraint::NotAt { cell, tick },
        Bar::Move { from, to, tick } => PathConstraint::NotMove { from, to, tick },
    }
}

// Returns the entry of version 3 with the same label.
fn priced_entry(entry: &Entry) -> PricedEntry
    ensures { result ≡ entry.now }
{
    let label = match entry.label {
        Label::Ticks(ticks) => Amount::of(ticks as u64),
        Label::Never => Amount::infinite(),
    };
    PricedEntry {
        cell: entry.cell,
        tick: entry.tick,
        label,
    }
}

// Returns this agent's constraints.
fn own_constraints(
    alloc: Global,
    agent: u32,
    constraints: &[Constraint],
) -> Result<Vec<AgentConstraint>, AllocError>
    ensures { IfOk result (λ own. own.items ≡ own_constraints agent constraints.now) }
{
    let mut own = Vec::new(alloc);
    for one in constraints {
        if agent == one.agent {
            let constraint = path_constraint(one.bar);
            own.push(AgentConstraint { agent, constraint })?;
        }
    }
    Ok(own)
}

// Returns the entries of version 3 with the same labels.
fn priced_entries(alloc: Global, entries: &[Entry]) -> Result<Vec<PricedEntry>, AllocError>
    ensures { IfOk result (λ priced. priced.items ≡ entries.now) }
{
    let mut priced = Vec::new(alloc);
    for entry in entries {
        priced.push(priced_entry(entry))?;
    }
    Ok(priced)
}

/// Returns the lemma of a block at a node with these constraints.
pub fn lemma_part(
    alloc: Global,
    constraints: &[Constraint],
    block: &Block,
) -> Result<Part, AllocError>
    ensures { IfOk result (λ part. part ≡ block_part constraints.now block.now) }
{
    Ok(Part::One(OneLemma {
        agent: block.agent,
        constraints: own_constraints(alloc, block.agent, constraints)?,
        list_number: None,
        entries: priced_entries(alloc, &block.entries)?,
    }))
}

// Returns whether the part lists no more than a lemma of one agent may.
fn fits(part: &Part) -> bool
    ensures { IsTrue result ↔ PartFits part.now }
{
    match part {
        Part::One(lemma) => lemma.constraints.len() <= MOST_CONSTRAINTS as usize
            && lemma.entries.len() as u64 <= MOST_LISTED,
        _ => true,
    }
}

// Returns whether each part lists no more than a lemma of one agent may.
fn all_fit(parts: &[Part]) -> bool
    ensures { IsTrue result ↔ All PartFits parts.now }
{
    parts.iter().all(|part| fits(part))
}

/// Returns whether these lemmas can stand in a text.
pub fn lemmas_fit(lemmas: &[Part]) -> bool
    ensures { IsTrue result ↔ LemmasFit lemmas.now }
{
    all_fit(lemmas) && lemmas.len() as u64 <= MOST_LISTED
}
