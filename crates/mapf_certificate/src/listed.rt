//! What `Lines::list` needs to read the two rising lists of a certificate: the entries of a block, and the blocks of a
//! node.
ghost use Rattle.mapf_certificate.specs.Bounded.{IsBlockFor, IsEntryFor, IsNextEntry, IsOfLesserAgent, MayFollow};
ghost use Rattle.mapf_certificate.specs.Buffered.{spare};
ghost use Rattle.mapf_certificate.specs.Certificates.{block_text, entry_text};
ghost use Rattle.mapf_certificate.specs.EntryReading.{BeginsWithText};
ghost use Rattle.mapf_certificate.specs.Untouched.{TakesThere};
ghost use Rattle.mapf_certificate.specs.Window.{Window, BeginsWith, Fails};
ghost use Rattle.mapf_certificate.specs.declared.sizes.Sizes.{Sizes};
ghost use Rattle.mapf_model.specs.Printed.{IsBefore};
ghost use Rattle.std.specs.Prelude.{◌≡◌, ◌<◌, ◌≤◌, ◌↔◌, ℕ, List, IsTrue, All, AllPairs, IfOk, IfErr, IfSome, OnOk};
ghost use Rattle.std.specs.Prelude.{false};

use crate::cert::LinesFault;
use crate::entry_line::entry_front;
use crate::line::CertLine;
use crate::lines::Lines;
use crate::sizes::Sizes;
use crate::tree_line::Due;
use mapf_model::{Block, Entry, Source};
use std::alloc::Global;

/// What a certificate lists in rising order: the entries of a block, by tick and cell, and the blocks of a node, by
/// agent.
pub trait Listed: Drop {
    /// Whether its numbers are in range.
    ghost is_for: { Sizes → Self → Type 0 };
    /// Whether the first may come before the second.
    ghost precedes: { Self → Self → Type 0 };
    /// Its lines, in a certificate for a grid of this width.
    ghost text: { ℕ → Self → List ℕ };

    /// Reads the next one after these.
    fn next_after<S: Source>(
        lines: &mut Lines,
        alloc: Global,
        source: &mut S,
        sizes: &Sizes,
        before: &[Self],
    ) -> Result<Self, LinesFault>
        requires works { S.has_failed source.old ≡ false }
        requires rising { AllPairs precedes before.now }
        ensures works { OnOk result (S.has_failed source.new ≡ false) }
        ensures spare { spare lines.new.buffer ≤ spare lines.old.buffer }
        ensures next { IfOk result (MayFollow Self (is_for sizes.now) precedes before.now) }
        ensures there { IfOk result (λ value. TakesThere source.old source.new lines.old.buffer lines.new.buffer
            (text sizes.now.width value)) }
        ensures taken { IfOk result (λ value. Window (S.remaining source.old) (S.remaining source.new)
            lines.old.buffer lines.new.buffer (text sizes.now.width value)) }
        ensures fails { IfErr result (Fails (S.remaining source.old) (S.remaining source.new) (S.has_failed source.new)
            lines.old.buffer (BeginsWith Self (MayFollow Self (is_for sizes.now) precedes before.now)
            (text sizes.now.width))) };
}

// Returns whether the entry may follow these.
fn follows_entries(before: &[Entry], entry: &Entry) -> bool
    requires { AllPairs IsBefore before.now }
    ensures { IsTrue result ↔ All (λ b. IsBefore b entry.now) before.now }
{
    match before.last() {
        Some(last) => last.is_before(entry),
        None => true,
    }
}

// Returns whether a block of this agent may follow these.
fn follows_blocks(before: &[Block], agent: u32) -> bool
    requires { AllPairs IsOfLesserAgent before.now }
    ensures { IsTrue result ↔ All (λ b. b.agent < agent) before.now }
{
    match before.last() {
        Some(last) => last.agent < agent,
        None => true,
    }
}

// Returns the entry whose whole line is in the buffer, if it may follow these, and the length of the line.
#[inline(always)]
fn entry_there(lines: &Lines, sizes: &Sizes, before: &[Entry]) -> Option<(Entry, usize)>
    requires { AllPairs IsBefore before.now }
    ensures next { IfSome result (λ p. IsNextEntry sizes.now before.now p.0) }
    ensures text { IfSome result (λ p.
        BeginsWithText lines.now.buffer.bytes (entry_text sizes.now.width p.0) p.1) }
{
    let bytes = lines.buffer.all();
    match entry_front(bytes, sizes) {
        Ok((entry, rest)) if follows_entries(before, &entry) => {
            Some((entry, bytes.len() - rest.len()))
        }
        _ => None,
    }
}

impl Listed for Entry {
    ghost is_for = { IsEntryFor };

    ghost precedes = { IsBefore };

    ghost text = { entry_text };

    fn next_after<S: Source>(
        lines: &mut Lines,
        _alloc: Global,
        source: &mut S,
        sizes: &Sizes,
        before: &[Entry],
    ) -> Result<Entry, LinesFault> {
        if let Some((entry, length)) = entry_there(lines, sizes, before) {
            lines.count = lines.count.saturating_add(1);
            lines.buffer.take(length);
            return Ok(entry);
        }
        let CertLine::At(entry) = lines.next(source, &Due::Tree(*sizes))? else {
            return Err(lines.misfit());
        };
        if !follows_entries(before, &entry) {
            return Err(lines.misfit());
        }
        Ok(entry)
    }
}

impl Listed for Block {
    ghost is_for = { IsBlockFor };

    ghost precedes = { IsOfLesserAgent };

    ghost text = { block_text };

    fn next_after<S: Source>(
        lines: &mut Lines,
        alloc: Global,
        source: &mut S,
        sizes: &Sizes,
        before: &[Block],
    ) -> Result<Block, LinesFault> {
        let CertLine::Agent { agent, entries } = lines.next(source, &Due::Tree(*sizes))? else {
            return Err(lines.misfit());
        };
        if !follows_blocks(before, agent) {
            return Err(lines.misfit());
        }
        let entries = lines.list(alloc, source, sizes, entries)?;
        Ok(Block { agent, entries })
    }
}
