//! The writer of whole certificates of version 3.
ghost use Rattle.std.specs.Prelude.{◌≡◌, ◌↔◌, ◌++◌, [], All, false, IfOk, IsErrOf, IsTrue, OnOk};
ghost use Rattle.std.specs.List.{flat_map};
ghost use Rattle.std.specs.Result.{is_err};
ghost use Rattle.mapf_fields.specs.Pages.{PassesOrFails, WritesOrFails};
ghost use Rattle.mapf_lemma_texts.specs.Lines.{line_text};
ghost use Rattle.mapf_lemma_texts.specs.PartReading.{header_text};
ghost use Rattle.mapf_lemma_texts.specs.Parts.{part_text};
ghost use Rattle.mapf_lemma_texts.specs.PartWriting.{AreFew, HasFewUses, HasFewValues, certificate_text};

use crate::line::LemmaLine;
use crate::part::Part;
use crate::text_writer::LemmaWriter;
use mapf_certificate::MemorySink;
use mapf_lemmas::Group;
use mapf_model::{Claim, Failed, Grid, Sink};
use std::alloc::Global;

/// Why the text of a certificate isn't returned.
#[derive(Clone, Copy, Debug, PartialEq, Eq)]
pub enum WriteFault {
    /// A part lists more constraints, agents, uses or groups than 32 bits can count.
    TooMany,
    /// Out of memory.
    Memory,
}

// Returns whether 32 bits can count the values.
fn are_few<T>(values: &[T]) -> bool
    ensures { IsTrue result ↔ AreFew values.now }
{
    values.len() <= u32::MAX as usize
}

fn has_few_uses(group: &Group) -> bool
    ensures { IsTrue result ↔ HasFewUses group.now }
{
    are_few(&group.uses)
}

fn all_have_few_uses(groups: &[Group]) -> bool
    ensures { IsTrue result ↔ All HasFewUses groups.now }
{
    groups.iter().all(|group| has_few_uses(group))
}

fn has_few_values(part: &Part) -> bool
    ensures { IsTrue result ↔ HasFewValues part.now }
{
    match part {
        Part::One(lemma) => are_few(&lemma.constraints),
        Part::Two(lemma) => are_few(&lemma.constraints),
        Part::Cases(lemma) => are_few(&lemma.agents) && are_few(&lemma.constraints),
        Part::Leaf(leaf) => {
            are_few(&leaf.singles) && are_few(&leaf.groups) && all_have_few_uses(&leaf.groups)
        }
        _ => true,
    }
}

fn all_have_few_values(parts: &[Part]) -> bool
    ensures { IsTrue result ↔ All HasFewValues parts.now }
{
    parts.iter().all(|part| has_few_values(part))
}

impl LemmaWriter {
    /// Writes the first three lines.
    pub fn header<K: Sink>(&mut self, sink: &mut K, agents: u32, claim: Claim) -> Result<(), Failed>
        requires { K.has_failed sink.old ≡ false }
        ensures text { PassesOrFails (K.contents sink.old) (K.contents sink.new) self.old.page self.new.page
            (header_text self.old.width agents claim) result }
        ensures width { self.new.width ≡ self.old.width }
        ensures failed { K.has_failed sink.new ≡ is_err result }
    {
        self.line(sink, &LemmaLine::Title)?;
        self.line(sink, &LemmaLine::Agents(agents))?;
        self.line(sink, &LemmaLine::Claim(claim))
    }

    /// Writes the lines of parts.
    pub fn parts<K: Sink>(&mut self, sink: &mut K, parts: &[Part]) -> Result<(), Failed>
        requires works { K.has_failed sink.old ≡ false }
        requires few { All HasFewValues parts.now }
        ensures text { PassesOrFails (K.contents sink.old) (K.contents sink.new) self.old.page self.new.page
            (flat_map (part_text self.old.width) parts.now) result }
        ensures width { self.new.width ≡ self.old.width }
        ensures failed { K.has_failed sink.new ≡ is_err result }
    {
        for part in parts {
            self.part(sink, part)?;
        }
        Ok(())
    }

    /// Writes the last line, and what is left on the page.
    pub fn end<K: Sink>(&mut self, sink: &mut K) -> Result<(), Failed>
        requires { K.has_failed sink.old ≡ false }
        ensures text { WritesOrFails (K.contents sink.old) (K.contents sink.new)
            (self.old.page ++ line_text self.old.width LemmaLine.End) result }
        ensures empty { OnOk result (self.new.page ≡ []) }
        ensures width { self.new.width ≡ self.old.width }
        ensures failed { K.has_failed sink.new ≡ is_err result }
    {
        self.line(sink, &LemmaLine::End)?;
        self.finish(sink)
    }

    /// Writes a certificate: its header, these parts and `end`. `PartReader` reads it back if these are the parts of
    /// one certificate, in their ranges and orders. Any others are written too, but nothing is promised of reading
    /// their text. `Failed` is returned only if the sink failed; it then got a prefix of that text.
    pub fn cert<K: Sink>(
        &mut self,
        sink: &mut K,
        agents: u32,
        claim: Claim,
        parts: &[Part],
    ) -> Result<(), Failed>
        requires works { K.has_failed sink.old ≡ false }
        requires empty { self.old.page ≡ [] }
        requires few { All HasFewValues parts.now }
        ensures text { WritesOrFails (K.contents sink.old) (K.contents sink.new)
            (certificate_text self.old.width agents claim parts.now) result }
        ensures empty { OnOk result (self.new.page ≡ []) }
        ensures width { self.new.width ≡ self.old.width }
        ensures failed { K.has_failed sink.new ≡ is_err result }
    {
        self.header(sink, agents, claim)?;
        self.parts(sink, parts)?;
        self.end(sink)
    }
}

/// Returns the text of a certificate for a grid of this size, as `LemmaWriter::cert` writes it.
pub fn write_lemma_cert(
    alloc: Global,
    grid: &Grid,
    agents: u32,
    claim: Claim,
    parts: &[Part],
) -> Result<Vec<u8>, WriteFault>
    ensures text { IfOk result (λ bytes. bytes.items ≡ certificate_text grid.now.width agents claim parts.now) }
    // Parts are refused exactly if one of them lists too many values.
    ensures refused { IsErrOf result WriteFault.TooMany ↔ (All HasFewValues parts.now → ⊥) }
{
    if !all_have_few_values(parts) {
        return Err(WriteFault::TooMany);
    }
    let mut sink = MemorySink::empty(alloc);
    let mut writer = LemmaWriter::of(grid);
    match writer.cert(&mut sink, agents, claim, parts) {
        Ok(()) => Ok(sink.into_bytes()),
        Err(_) => Err(WriteFault::Memory),
    }
}
