//! The reader of a certificate of version 3 from a source, part by part. A checker calls it, and judges each part
//! before it asks for the next.
ghost use Rattle.mapf_certificate.specs.Buffered.{spare};
ghost use Rattle.mapf_certificate.specs.Untouched.{IsUntouched};
ghost use Rattle.mapf_certificate.specs.Window.{Window, Fails, Pulls, IsNotTextMemory, IsNoTextFault};
ghost use Rattle.mapf_lemma_texts.specs.Lines.{IsLaterLine};
ghost use Rattle.mapf_lemma_texts.specs.PartReading.{IfUnfaulted, IfHeaderDue, IfPartDue, IsRestAt, AwaitsParts};
ghost use Rattle.mapf_lemma_texts.specs.PartReading.{AwaitsText, HasHeader, TakesHeader, TakesPart, TakesEnd, ReadsEnd};
ghost use Rattle.mapf_lemma_texts.specs.PartReading.{AreSizesAfter, AreFirstSizes, header_text};
ghost use Rattle.mapf_lemma_texts.specs.Parts.{IsPart};
ghost use Rattle.mapf_lemma_texts.specs.Ranges.{IsOneTo};
ghost use Rattle.mapf_lemma_texts.specs.declared.due.Due.TheVariants as dues;
ghost use Rattle.mapf_lemma_texts.specs.declared.line.LemmaLine.TheVariants.{End};
ghost use Rattle.mapf_lemma_texts.specs.declared.part.Part.{Part};
ghost use Rattle.mapf_model.specs.Limits.{greatest_side, most_agents};
ghost use Rattle.mapf_model.specs.Printed.{IsClaimInRange};
ghost use Rattle.mapf_model.specs.declared.item.Claim.{Claim};
ghost use Rattle.std.specs.Io.KnownBytes.{IsAtEnd};
ghost use Rattle.std.specs.Prelude.{[], ◌∷◌, ℕ, List, Some, None, true, false, ◌≡◌, ◌↔◌, ◌<◌, ◌≤◌, ◌^◌, IfOk};
ghost use Rattle.std.specs.Prelude.{IfErr, IsErrOf, IfSome, IsSome, IsSomeAnd, OnOk, MatchResult};

use crate::due::Due;
use crate::line::LemmaLine;
use crate::lines::LemmaLines;
use crate::part::Part;
use crate::part_lines::part_of;
use crate::sizes::{LinePlace, LineSizes};
use mapf_certificate::{LineBuffer, LinesFault};
use mapf_model::{Claim, OutOfMemory, Source};
use std::alloc::Global;
use std::marker::Model;

/// Reads a certificate of version 3 from a source, part by part. It holds a buffer and not the source: pass the same
/// source to every call.
#[derive(Drop)]
pub struct PartReader {
    alloc: Global,
    width: u32,
    height: u32,
    lines: LemmaLines,
    // What bounds the numbers of lines, and the claim, if the header was read.
    header: Option<(LineSizes, Claim)>,
    // Which part comes next.
    due: Due,
    // The error that was returned.
    fault: Option<LinesFault>,
    // Whether the whole certificate was read.
    is_whole: bool,
    // The line in which the last part begins.
    part_line: u64,
}

impl Model for PartReader {
    ghost use Rattle.mapf_lemma_texts.specs.PartReading.{PartReading, IsPartReading};

    ghost Value = { PartReading };

    ghost view = { λ r. record {
      width = r.width;
      height = r.height;
      buffer = r.lines.buffer;
      header = r.header;
      due = r.due;
      fault = r.fault;
      is_whole = r.is_whole;
    } };

    ghost invariant = { λ r. IsPartReading (record {
      width = r.width;
      height = r.height;
      buffer = r.lines.buffer;
      header = r.header;
      due = r.due;
      fault = r.fault;
      is_whole = r.is_whole;
    }) };
}

impl PartReader {
    /// Allocates the buffer; later only parts are allocated. At most `limit` bytes may come from the source.
    pub fn open(
        alloc: Global,
        width: u32,
        height: u32,
        limit: u64,
    ) -> Result<PartReader, OutOfMemory>
        requires some_columns { 1 ≤ width }
        requires few_columns { width ≤ greatest_side }
        requires some_rows { 1 ≤ height }
        requires few_rows { height ≤ greatest_side }
        ensures { IfOk result (λ r. r ≡ record {
          width = width;
          height = height;
          buffer = record { bytes = []; left = limit };
          header = None;
          due = dues.Prices;
          fault = None;
          is_whole = false;
        }) }
    {
        Ok(PartReader::over(alloc, width, height, LineBuffer::open(alloc, limit)?))
    }

    /// Reads a certificate whose first bytes are in a buffer already, of which nothing was taken.
    pub fn over(alloc: Global, width: u32, height: u32, buffer: LineBuffer) -> PartReader
        requires some_columns { 1 ≤ width }
        requires few_columns { width ≤ greatest_side }
        requires some_rows { 1 ≤ height }
        requires few_rows { height ≤ greatest_side }
        requires bounded { spare buffer < 2 ^ 64 }
        ensures { result ≡ record {
          width = width;
          height = height;
          buffer = buffer;
          header = None;
          due = dues.Prices;
          fault = None;
          is_whole = false;
        } }
    {
        PartReader {
            alloc,
            width,
            height,
            lines: LemmaLines::over(buffer),
            header: None,
            due: Due::Prices,
            fault: None,
            is_whole: false,
            part_line: 0,
        }
    }

    /// Returns the line in which the last part begins, counted from 1, or 0 before the first. What a part lists follows
    /// line by line, in the order of the fields of its type. No contract says which line it is; it is tested.
    pub fn line(&self) -> u64 {
        self.part_line
    }

    /// Returns the number of agents, 1 to 200, and the claim.
    pub fn header<S: Source>(&mut self, source: &mut S) -> Result<(u32, Claim), LinesFault>
        requires works { self.old.fault ≡ None → S.has_failed source.old ≡ false }
        requires unread { self.old.header ≡ None }
        // An error is returned again, without reading from the source.
        ensures faulted { IfErr result (λ fault. self.new.fault ≡ Some fault) }
        ensures repeats_fault { IfSome self.old.fault (λ fault.
            (result ≡ Err fault) × IsUntouched self.old self.new source.old source.new) }

        // How the result depends on the bytes.
        ensures header { IfUnfaulted self.old (IfOk result (λ h.
            TakesHeader (S.remaining source.old) (S.remaining source.new) self.old self.new h.0 h.1)) }
        ensures fails { IfUnfaulted self.old (IfErr result
            (Fails (S.remaining source.old) (S.remaining source.new) (S.has_failed source.new)
            self.old.buffer (HasHeader self.old.width))) }
        ensures only { (agents : ℕ) (claim : Claim) (parts : List Part)
            → IfUnfaulted self.old (AwaitsText (S.remaining source.old) self.old agents claim parts
            → MatchResult result (λ h. (h.0 ≡ agents) × (h.1 ≡ claim)
            × AwaitsParts (S.remaining source.new) self.new parts) IsNoTextFault) }

        // Whether the source failed, and how many bytes came from it. An error of the text is never out of memory.
        ensures device { IfUnfaulted self.old
            (IsErrOf result LinesFault.Device ↔ (S.has_failed source.new ≡ true)) }
        ensures pulls { IfUnfaulted self.old (Pulls (S.remaining source.old) (S.remaining source.new)
            self.old.buffer.left (IsErrOf result LinesFault.TooLong)) }
        ensures inner { IfErr result IsNotTextMemory }

        // What the reader keeps of the text.
        ensures grid { (self.new.width ≡ self.old.width) × (self.new.height ≡ self.old.height) }
        ensures part { (self.new.is_whole ≡ self.old.is_whole) × (self.new.due ≡ self.old.due) }
        ensures known { OnOk result (IsSome self.new.header) }
        ensures unfaulted { OnOk result (self.new.fault ≡ None) }
        ensures works { OnOk result (S.has_failed source.new ≡ false) }
    {
        if let Some(fault) = self.fault {
            return Err(fault);
        }
        match read_header(&mut self.lines, source) {
            Ok((agents, claim)) => {
                self.header = Some((first_sizes(self.width, self.height, agents), claim));
                Ok((agents, claim))
            }
            Err(why) => {
                self.fault = Some(why);
                Err(why)
            }
        }
    }

    /// Returns the next part, or None if the whole certificate was read.
    pub fn next_part<S: Source>(&mut self, source: &mut S) -> Result<Option<Part>, LinesFault>
        requires works { self.old.fault ≡ None → S.has_failed source.old ≡ false }
        requires header { self.old.fault ≡ None → IsSome self.old.header }
        // An error is returned again, and so is the end, without reading from the source.
        ensures faulted { IfErr result (λ fault. self.new.fault ≡ Some fault) }
        ensures repeats_fault { IfSome self.old.fault (λ fault.
            (result ≡ Err fault) × IsUntouched self.old self.new source.old source.new) }
        ensures repeats_end { IfUnfaulted self.old (self.old.is_whole ≡ true
            → (result ≡ Ok None) × IsUntouched self.old self.new source.old source.new) }

        // How the result depends on the bytes.
        ensures part { IfPartDue self.old (IfOk result (λ o. IfSome o
            (TakesPart (S.remaining source.old) (S.remaining source.new) self.old self.new))) }
        ensures end { IfPartDue self.old (IfOk result (λ o. o ≡ None
            → TakesEnd (S.remaining source.old) (S.remaining source.new) self.old self.new)) }
        ensures fails { IfUnfaulted self.old (IfErr result
            (Fails (S.remaining source.old) (S.remaining source.new) (S.has_failed source.new)
            self.old.buffer (IsRestAt self.old))) }
        ensures only_part { (part : Part) (parts : List Part)
            → IfPartDue self.old (AwaitsParts (S.remaining source.old) self.old (part ∷ parts)
            → MatchResult result (λ o. IsSomeAnd o (λ read.
            (read ≡ part) × AwaitsParts (S.remaining source.new) self.new parts)) IsNoTextFault) }
        ensures only_end { IfPartDue self.old (AwaitsParts (S.remaining source.old) self.old []
            → MatchResult result (λ o. o ≡ None) IsNoTextFault) }

        // Whether the source failed, and how many bytes came from it. An error of the text is never out of memory.
        ensures device { IfUnfaulted self.old
            (IsErrOf result LinesFault.Device ↔ (S.has_failed source.new ≡ true)) }
        ensures pulls { IfUnfaulted self.old (Pulls (S.remaining source.old) (S.remaining source.new)
            self.old.buffer.left (IsErrOf result LinesFault.TooLong)) }
        ensures inner { IfErr result IsNotTextMemory }

        // What the reader keeps of the text.
        ensures grid { (self.new.width ≡ self.old.width) × (self.new.height ≡ self.old.height) }
        ensures whole { IfOk result (λ o. IsSome o → self.new.is_whole ≡ false) }
        ensures known { OnOk result (IsSome self.new.header) }
        ensures unfaulted { OnOk result (self.new.fault ≡ None) }
        ensures works { OnOk result (S.has_failed source.new ≡ false) }
        ensures nearer { IfOk result (λ o. IsSome o → spare self.new.buffer < spare self.old.buffer) }
    {
        if let Some(fault) = self.fault {
            return Err(fault);
        }
        if self.is_whole {
            return Ok(None);
        }
        match self.read_part(source) {
            Ok(Some(part)) => Ok(Some(part)),
            Ok(None) => {
                self.is_whole = true;
                Ok(None)
            }
            Err(fault) => {
                self.fault = Some(fault);
                Err(fault)
            }
        }
    }

    fn read_part<S: Source>(&mut self, source: &mut S) -> Result<Option<Part>, LinesFault>
        requires works { S.has_failed source.old ≡ false }
        requires header { IsSome self.old.header }
        ensures unfaulted { self.new.fault ≡ self.old.fault }
        ensures header { IsSome self.new.header }
        ensures whole { self.new.is_whole ≡ self.old.is_whole }
        ensures grid { (self.new.width ≡ self.old.width) × (self.new.height ≡ self.old.height) }
        ensures part { IfOk result (λ o. IfSome o
            (TakesPart (S.remaining source.old) (S.remaining source.new) self.old self.new)) }
        ensures end { IfOk result (λ o. o ≡ None
            → ReadsEnd (S.remaining source.old) (S.remaining source.new) self.old self.new) }
        ensures fails { IfErr result (Fails (S.remaining source.old) (S.remaining source.new) (S.has_failed source.new)
            self.old.buffer (IsRestAt self.old)) }
        ensures same { (part : Part) (parts : List Part)
            → AwaitsParts (S.remaining source.old) self.old (part ∷ parts)
            → IfOk result (λ o. IfSome o (λ read.
            (read ≡ part) × AwaitsParts (S.remaining source.new) self.new parts)) }
        ensures works { OnOk result (S.has_failed source.new ≡ false) }
        ensures nearer { OnOk result (spare self.new.buffer < spare self.old.buffer) }
    {
        let (sizes, claim) = self.header.unwrap();
        let line = self.lines.next(source, &LinePlace::Later(sizes))?;
        let number = self.lines.count;
        if self.due.is_end() {
            take_end(&mut self.lines, source, &line)?;
            return Ok(None);
        }
        if !self.due.admits(&line) {
            return Err(self.lines.misfit());
        }
        let part = part_of(self.alloc, &mut self.lines, source, &sizes, &line)?;
        self.header = Some((sizes_after(&sizes, &part), claim));
        self.due = self.due.after(&part);
        self.part_line = number;
        Ok(Some(part))
    }
}

// Returns the sizes by which the lines after the header are judged, before the number of lists is known.
fn first_sizes(width: u32, height: u32, agents: u32) -> LineSizes
    requires columns { (1 ≤ width) × (width ≤ greatest_side) }
    requires rows { (1 ≤ height) × (height ≤ greatest_side) }
    requires agents { IsOneTo most_agents agents }
    ensures { AreFirstSizes width height agents result }
{
    LineSizes {
        width,
        height,
        agents,
        lists: 0,
    }
}

// Returns the sizes by which the lines after this part are judged.
fn sizes_after(sizes: &LineSizes, part: &Part) -> LineSizes
    requires { IsPart sizes.now part.now }
    ensures { AreSizesAfter sizes.now part.now result }
{
    match part {
        Part::Prices(lists) => LineSizes {
            width: sizes.width,
            height: sizes.height,
            agents: sizes.agents,
            lists: *lists,
        },
        _ => *sizes,
    }
}

// Checks that the line is `end`, and that nothing follows it.
fn take_end<S: Source>(
    lines: &mut LemmaLines,
    source: &mut S,
    line: &LemmaLine,
) -> Result<(), LinesFault>
    requires { S.has_failed source.old ≡ false }
    ensures works { OnOk result (S.has_failed source.new ≡ false) }
    ensures spare { spare lines.new.buffer ≤ spare lines.old.buffer }
    ensures end { OnOk result (line.now ≡ End) }
    ensures taken { OnOk result
        (Window (S.remaining source.old) (S.remaining source.new) lines.old.buffer lines.new.buffer []) }
    ensures ended { OnOk result (IsAtEnd (S.remaining source.new)) }
    ensures empty { OnOk result (lines.new.buffer.bytes ≡ []) }
    ensures fails { IfErr result (Fails (S.remaining source.old) (S.remaining source.new) (S.has_failed source.new)
        lines.old.buffer (λ text. (line.now ≡ End) × (text ≡ []))) }
{
    match line {
        LemmaLine::End => lines.end(source),
        _ => Err(lines.misfit()),
    }
}

fn read_header<S: Source>(
    lines: &mut LemmaLines,
    source: &mut S,
) -> Result<(u32, Claim), LinesFault>
    requires { S.has_failed source.old ≡ false }
    ensures agents { IfOk result (λ h. IsOneTo most_agents h.0) }
    ensures claim { IfOk result (λ h. IsClaimInRange h.1) }
    ensures works { OnOk result (S.has_failed source.new ≡ false) }
    ensures spare { spare lines.new.buffer ≤ spare lines.old.buffer }
    ensures taken { (width : ℕ) → IfOk result (λ h. Window (S.remaining source.old) (S.remaining source.new)
        lines.old.buffer lines.new.buffer (header_text width h.0 h.1)) }
    ensures fails { (width : ℕ) → IfErr result
        (Fails (S.remaining source.old) (S.remaining source.new) (S.has_failed source.new)
        lines.old.buffer (HasHeader width)) }
{
    let LemmaLine::Title = lines.next(source, &LinePlace::Title)? else {
        return Err(lines.misfit());
    };
    let LemmaLine::Agents(agents) = lines.next(source, &LinePlace::Agents)? else {
        return Err(lines.misfit());
    };
    let LemmaLine::Claim(claim) = lines.next(source, &LinePlace::Claim)? else {
        return Err(lines.misfit());
    };
    Ok((agents, claim))
}
