//! The reader of a certificate from a source, item by item. The checker calls it, and so does the reader of whole
//! certificates.
ghost use Rattle.mapf_certificate.specs.Bounded.{BeginsWithNode};
ghost use Rattle.mapf_certificate.specs.Buffered.{spare};
ghost use Rattle.mapf_certificate.specs.CertReading.{HasHeader, IsRestAt, Awaits, AwaitsCert, CompletesNode};
ghost use Rattle.mapf_certificate.specs.CertReading.{TakesHeader, TakesNode, TakesEnd, ReadsEnd, trees_pending_after};
ghost use Rattle.mapf_certificate.specs.Certificates.{line_text, node_text, header_text};
ghost use Rattle.mapf_certificate.specs.Lines.{IsAgentCount, IsCertClaim, IsTitleLine, IsTreeLine, grid_for};
ghost use Rattle.mapf_certificate.specs.Reading.{Reading, IfUnfaulted, IfHeaderDue, IfItemDue, grid_at, agents_at};
ghost use Rattle.mapf_certificate.specs.Untouched.{IsUntouched, RefusesThere, TakesThere};
ghost use Rattle.mapf_certificate.specs.Window.{Window, BeginsWith, Fails, Pulls, IsNotTextMemory, IsNoTextFault};
ghost use Rattle.mapf_certificate.specs.declared.line.CertLine.{CertLine};
ghost use Rattle.mapf_certificate.specs.declared.line.CertLine.TheVariants.{End};
ghost use Rattle.mapf_certificate.specs.declared.version.Version.{Version};
ghost use Rattle.mapf_certificate.specs.declared.version.Version.TheVariants.{One};
ghost use Rattle.mapf_model.specs.Limits.{greatest_side};
ghost use Rattle.mapf_model.specs.declared.item.Claim.{Claim};
ghost use Rattle.mapf_model.specs.Tree.{Node, node_of};
ghost use Rattle.std.specs.Io.KnownBytes.{IsAtEnd};
ghost use Rattle.std.specs.Prelude.{[], ◌∷◌, ◌++◌, ℕ, List, Some, true, IfErr, IsErrOf, ◌^◌, ◌≡◌, ◌↔◌, ◌<◌, ◌≤◌, ◌+◌};
ghost use Rattle.std.specs.Prelude.{IfOk, IfSome, IsSome, IsSomeAnd, OnOk, None, false, MatchResult};

use crate::buffer::LineBuffer;
use crate::cert::LinesFault;
use crate::line::CertLine;
use crate::lines::Lines;
use crate::sizes::Sizes;
use crate::tree_line::Due;
use crate::version::Version;
use mapf_model::{AsNode, Claim, Item, NodeKind, OutOfMemory, Source};
use std::alloc::Global;
use std::marker::Model;

/// Reads a certificate from a source, item by item. It holds a buffer and not the source: pass the same source to every
/// call.
#[derive(Drop)]
pub struct CertLines {
    alloc: Global,
    width: u32,
    height: u32,
    lines: Lines,
    // What the first line said, if the header was read.
    version: Version,
    header: Option<(u32, Claim)>,
    // The error that was returned.
    fault: Option<LinesFault>,
    // Whether the whole certificate was read.
    is_whole: bool,
    // How many subtrees are pending.
    pending: u64,
    // The line of the first word of the last item.
    item_line: u64,
}

impl Model for CertLines {
    ghost use Rattle.mapf_certificate.specs.Reading.{Reading, IsReaderState};

    ghost Value = { Reading };

    ghost view = { λ l. record {
      width = l.width;
      height = l.height;
      buffer = l.lines.buffer;
      version = l.version;
      header = l.header;
      fault = l.fault;
      is_whole = l.is_whole;
      pending = l.pending;
    } };

    ghost invariant = { λ l. IsReaderState (record {
      width = l.width;
      height = l.height;
      buffer = l.lines.buffer;
      version = l.version;
      header = l.header;
      fault = l.fault;
      is_whole = l.is_whole;
      pending = l.pending;
    }) };
}

impl CertLines {
    /// Allocates the buffer; later only blocks are allocated. At most `limit` bytes may come from the source.
    pub fn open(
        alloc: Global,
        width: u32,
        height: u32,
        limit: u64,
    ) -> Result<CertLines, OutOfMemory>
        requires some_columns { 1 ≤ width }
        requires few_columns { width ≤ greatest_side }
        requires some_rows { 1 ≤ height }
        requires few_rows { height ≤ greatest_side }
        ensures { IfOk result (λ l. l ≡ record {
          width = width;
          height = height;
          buffer = record { bytes = []; left = limit };
          version = One;
          header = None;
          fault = None;
          is_whole = false;
          pending = 1;
        }) }
    {
        Ok(CertLines::over(alloc, width, height, LineBuffer::open(alloc, limit)?))
    }

    /// Reads a certificate whose first bytes are in a buffer already, of which nothing was taken.
    pub fn over(alloc: Global, width: u32, height: u32, buffer: LineBuffer) -> CertLines
        requires some_columns { 1 ≤ width }
        requires few_columns { width ≤ greatest_side }
        requires some_rows { 1 ≤ height }
        requires few_rows { height ≤ greatest_side }
        requires bounded { spare buffer < 2 ^ 64 }
        ensures { result ≡ record {
          width = width;
          height = height;
          buffer = buffer;
          version = One;
          header = None;
          fault = None;
          is_whole = false;
          pending = 1;
        } }
    {
        CertLines {
            alloc,
            width,
            height,
            lines: Lines::over(buffer),
            version: Version::One,
            header: None,
            fault: None,
            is_whole: false,
            pending: 1,
            item_line: 0,
        }
    }

    /// Returns the line in which the last item begins, counted from 1, or 0 before the first. No contract says which
    /// line it is; it is tested.
    pub fn line(&self) -> u64 {
        self.item_line
    }

    /// Returns the version of the text, if the header was read.
    pub fn version(&self) -> Version
        requires { IsSome self.now.header }
        ensures { result ≡ self.now.version }
    {
        self.version
    }

    /// Returns the number of agents, 1 to 200, and the claim.
    pub fn header<S: Source>(&mut self, source: &mut S) -> Result<(u32, Claim), LinesFault>
        requires works { self.old.fault ≡ None → S.has_failed source.old ≡ false }
        // An error is returned again, and so is the header, without reading from the source.
        ensures faulted { IfErr result (λ fault. self.new.fault ≡ Some fault) }
        ensures repeats_fault { IfSome self.old.fault (λ fault.
            (result ≡ Err fault) × IsUntouched self.old self.new source.old source.new) }
        ensures repeats_header { IfUnfaulted self.old (IfSome self.old.header (λ h.
            (result ≡ Ok h) × IsUntouched self.old self.new source.old source.new)) }

        // How the result depends on the bytes.
        ensures header { IfHeaderDue self.old (IfOk result (λ h.
            TakesHeader (S.remaining source.old) (S.remaining source.new) self.old self.new h.0 h.1)) }
        ensures fails { IfUnfaulted self.old (IfErr result
            (Fails (S.remaining source.old) (S.remaining source.new) (S.has_failed source.new)
            self.old.buffer (HasHeader self.old.width))) }
        ensures only { (version : Version) (agents : ℕ) (claim : Claim) (nodes : List Node)
            → IfHeaderDue self.old (AwaitsCert (S.remaining source.old) self.old version agents claim nodes
            → MatchResult result (λ h. (self.new.version ≡ version) × (h.0 ≡ agents) × (h.1 ≡ claim)
            × Awaits (S.remaining source.new) self.new nodes) IsNoTextFault) }

        // If the header's lines were all in the buffer, the source is not read.
        ensures there { IfHeaderDue self.old (IfOk result (λ h.
            TakesThere source.old source.new self.old.buffer self.new.buffer
            (header_text self.new.version self.old.width h.0 h.1))) }
        // Nor is it read if a line is in the buffer that isn't the first of a certificate.
        ensures refused { IfUnfaulted self.old (RefusesThere source.old source.new self.old.buffer
            (BeginsWith CertLine IsTitleLine (line_text 1))) }
        // Whether the source failed, and how many bytes came from it. An error of the text is never out of memory.
        ensures device { IfUnfaulted self.old
            (IsErrOf result LinesFault.Device ↔ (S.has_failed source.new ≡ true)) }
        ensures pulls { IfUnfaulted self.old (Pulls (S.remaining source.old) (S.remaining source.new)
            self.old.buffer.left (IsErrOf result LinesFault.TooLong)) }
        ensures inner { IfErr result IsNotTextMemory }

        // What the reader keeps of the text.
        ensures grid { (self.new.width ≡ self.old.width) × (self.new.height ≡ self.old.height) }
        ensures pending { self.new.pending ≡ self.old.pending }
        ensures part { self.new.is_whole ≡ self.old.is_whole }
        ensures known { IfOk result (λ h. self.new.header ≡ Some h) }
        ensures unfaulted { OnOk result (self.new.fault ≡ None) }
        ensures works { OnOk result (S.has_failed source.new ≡ false) }
    {
        if let Some(fault) = self.fault {
            return Err(fault);
        }
        if let Some(header) = self.header {
            return Ok(header);
        }
        match read_header(&mut self.lines, source) {
            Ok((version, agents, claim)) => {
                self.version = version;
                self.header = Some((agents, claim));
                Ok((agents, claim))
            }
            Err(why) => {
                self.fault = Some(why);
                Err(why)
            }
        }
    }

    /// Returns the next item of the tree, or None if the whole certificate was read.
    pub fn next_item<S: Source>(&mut self, source: &mut S) -> Result<Option<Item>, LinesFault>
        requires works { self.old.fault ≡ None → S.has_failed source.old ≡ false }
        requires header { self.old.fault ≡ None → IsSome self.old.header }
        // An error is returned again, and so is the end, without reading from the source.
        ensures faulted { IfErr result (λ fault. self.new.fault ≡ Some fault) }
        ensures repeats_fault { IfSome self.old.fault (λ fault.
            (result ≡ Err fault) × IsUntouched self.old self.new source.old source.new) }
        ensures repeats_end { IfUnfaulted self.old (self.old.is_whole ≡ true
            → (result ≡ Ok None) × IsUntouched self.old self.new source.old source.new) }

        // How the result depends on the bytes.
        ensures item { IfItemDue self.old (IfOk result (λ o. IfSome o (λ item.
            TakesNode (S.remaining source.old) (S.remaining source.new) self.old self.new (node_of item)))) }
        ensures end { IfItemDue self.old (IfOk result (λ o. o ≡ None
            → TakesEnd (S.remaining source.old) (S.remaining source.new) self.old self.new)) }
        ensures fails { IfUnfaulted self.old (IfErr result
            (Fails (S.remaining source.old) (S.remaining source.new) (S.has_failed source.new)
            self.old.buffer (IsRestAt self.old))) }
        ensures only_item { (node : Node) (nodes : List Node)
            → IfItemDue self.old (Awaits (S.remaining source.old) self.old (node ∷ nodes)
            → MatchResult result (λ o. IsSomeAnd o (λ item.
            (node_of item ≡ node) × Awaits (S.remaining source.new) self.new nodes)) IsNoTextFault) }
        ensures only_end { IfItemDue self.old (Awaits (S.remaining source.old) self.old []
            → MatchResult result (λ o. o ≡ None) IsNoTextFault) }

        // If the item's lines were all in the buffer, the source is not read.
        ensures there { IfUnfaulted self.old (IfOk result (λ o. IfSome o (λ item.
            TakesThere source.old source.new self.old.buffer self.new.buffer
            (node_text self.old.version self.old.width (node_of item))))) }
        // Nor is it read if a line is in the buffer that is neither a line of a tree nor `end`.
        ensures refused { IfUnfaulted self.old (RefusesThere source.old source.new self.old.buffer
            (BeginsWith CertLine (IsTreeLine self.old.version (grid_at self.old) (agents_at self.old))
            (line_text self.old.width))) }
        // Whether the source failed, and how many bytes came from it. An error of the text is never out of memory.
        ensures device { IfUnfaulted self.old
            (IsErrOf result LinesFault.Device ↔ (S.has_failed source.new ≡ true)) }
        ensures pulls { IfUnfaulted self.old (Pulls (S.remaining source.old) (S.remaining source.new)
            self.old.buffer.left (IsErrOf result LinesFault.TooLong)) }
        ensures inner { IfErr result IsNotTextMemory }

        // What the reader keeps of the text.
        ensures grid { (self.new.width ≡ self.old.width) × (self.new.height ≡ self.old.height) }
        ensures part { IfOk result (λ o. IsSome o → self.new.is_whole ≡ false) }
        ensures known { (self.new.version ≡ self.old.version) × (self.new.header ≡ self.old.header) }
        ensures unfaulted { OnOk result (self.new.fault ≡ None) }
        ensures works { OnOk result (S.has_failed source.new ≡ false) }
        ensures nearer { IfOk result (λ o. IsSome o → spare self.new.buffer < spare self.old.buffer) }
    {
        if let Some(fault) = self.fault {
            return Err(fault);
        }
        if self.is_whole {
            return Ok(None);
        }
        match self.read_item(source) {
            Ok(Some(item)) => Ok(Some(item)),
            Ok(None) => {
                self.is_whole = true;
                Ok(None)
            }
            Err(fault) => {
                self.fault = Some(fault);
                Err(fault)
            }
        }
    }

    fn read_item<S: Source>(&mut self, source: &mut S) -> Result<Option<Item>, LinesFault>
        requires works { S.has_failed source.old ≡ false }
        requires header { IsSome self.old.header }
        ensures unfaulted { self.new.fault ≡ self.old.fault }
        ensures header { (self.new.version ≡ self.old.version) × (self.new.header ≡ self.old.header) }
        ensures part { self.new.is_whole ≡ self.old.is_whole }
        ensures grid { (self.new.width ≡ self.old.width) × (self.new.height ≡ self.old.height) }
        ensures item { IfOk result (λ o. IfSome o (λ item.
            TakesNode (S.remaining source.old) (S.remaining source.new) self.old self.new (node_of item))) }
        ensures end { IfOk result (λ o. o ≡ None
            → ReadsEnd (S.remaining source.old) (S.remaining source.new) self.old self.new) }
        ensures refused { RefusesThere source.old source.new self.old.buffer
            (BeginsWith CertLine (IsTreeLine self.old.version (grid_at self.old) (agents_at self.old))
            (line_text self.old.width)) }
        ensures there { IfOk result (λ o. IfSome o (λ item.
            TakesThere source.old source.new self.old.buffer self.new.buffer
            (node_text self.old.version self.old.width (node_of item)))) }
        ensures fails { IfErr result (Fails (S.remaining source.old) (S.remaining source.new) (S.has_failed source.new)
            self.old.buffer (IsRestAt self.old)) }
        ensures same { (node : Node) (nodes : List Node) → Awaits (S.remaining source.old) self.old (node ∷ nodes)
            → IfOk result (λ o. IfSome o (λ item.
            (node_of item ≡ node) × Awaits (S.remaining source.new) self.new nodes)) }
        ensures works { OnOk result (S.has_failed source.new ≡ false) }
        ensures nearer { OnOk result (spare self.new.buffer < spare self.old.buffer) }
    {
        let (agents, _) = self.header.unwrap();
        let sizes = Sizes {
            version: self.version,
            width: self.width,
            height: self.height,
            agents,
        };
        let line = self.lines.next(source, &Due::Tree(sizes))?;
        let number = self.lines.count;
        if self.pending == 0 {
            take_end(&mut self.lines, source, &line)?;
            return Ok(None);
        }
        let item = item_of(self.alloc, &mut self.lines, source, &sizes, &line)?;
        self.pending = trees_pending_after(self.pending, &item);
        self.item_line = number;
        Ok(Some(item))
    }
}

// Returns how many subtrees are pending after this item.
fn trees_pending_after(pending: u64, item: &Item) -> u64
    requires some { 1 ≤ pending }
    requires few { pending + 1 < 2 ^ 64 }
    ensures { result ≡ trees_pending_after pending (node_of item.now) }
{
    match item.kind() {
        NodeKind::Split(_) => pending + 1,
        NodeKind::Leaf | NodeKind::Clash { .. } => pending - 1,
    }
}

// Checks that the line is `end`, and that nothing follows it.
fn take_end<S: Source>(lines: &mut Lines, source: &mut S, line: &CertLine) -> Result<(), LinesFault>
    requires { S.has_failed source.old ≡ false }
    ensures works { OnOk result (S.has_failed source.new ≡ false) }
    ensures spare { spare lines.new.buffer ≤ spare lines.old.buffer }
    ensures end { OnOk result (line.now ≡ End) }
    ensures taken { OnOk result
        (Window (S.remaining source.old) (S.remaining source.new) lines.old.buffer lines.new.buffer []) }
    ensures ended { OnOk result (IsAtEnd (S.remaining source.new)) }
    ensures empty { OnOk result (lines.new.buffer.bytes ≡ []) }
    ensures fails { IfErr result (Fails (S.remaining source.old) (S.remaining source.new) (S.has_failed source.new)
        lines.old.buffer (λ text. (line.now ≡ End) × (text ≡ []))) }
{
    match line {
        CertLine::End => lines.end(source),
        _ => Err(lines.misfit()),
    }
}

// Reads the item that begins with this line.
fn item_of<S: Source>(
    alloc: Global,
    lines: &mut Lines,
    source: &mut S,
    sizes: &Sizes,
    line: &CertLine,
) -> Result<Item, LinesFault>
    requires works { S.has_failed source.old ≡ false }
    requires line { IsTreeLine sizes.now.version (grid_for sizes.now) sizes.now.agents line.now }
    ensures works { OnOk result (S.has_failed source.new ≡ false) }
    ensures spare { spare lines.new.buffer ≤ spare lines.old.buffer }
    ensures item { IfOk result (λ item. CompletesNode sizes.now.version (grid_for sizes.now) sizes.now.agents
        (S.remaining source.old) (S.remaining source.new)
        lines.old.buffer lines.new.buffer line.now (node_of item)) }
    ensures there { IfOk result (λ item. (taken : List ℕ)
        → line_text sizes.now.width line.now ++ taken ≡ node_text sizes.now.version sizes.now.width (node_of item)
        → TakesThere source.old source.new lines.old.buffer lines.new.buffer taken) }
    ensures fails { IfErr result (Fails (S.remaining source.old) (S.remaining source.new) (S.has_failed source.new)
        lines.old.buffer (λ text. BeginsWithNode sizes.now (line_text sizes.now.width line.now ++ text))) }
{
    match *line {
        CertLine::Split { conflict, blocks } => {
            let blocks = lines.list(alloc, source, sizes, blocks.unwrap_or(0))?;
            Ok(Item::split(conflict, blocks))
        }
        CertLine::Leaf(count) => {
            let blocks = lines.list(alloc, source, sizes, count)?;
            Ok(Item::Leaf(blocks))
        }
        CertLine::Clash { i, j } => Ok(Item::Clash { i, j }),
        _ => Err(lines.misfit()),
    }
}

fn read_header<S: Source>(
    lines: &mut Lines,
    source: &mut S,
) -> Result<(Version, u32, Claim), LinesFault>
    requires { S.has_failed source.old ≡ false }
    ensures agents { IfOk result (λ h. IsAgentCount h.1) }
    ensures claim { IfOk result (λ h. IsCertClaim h.0 h.2) }
    ensures refused { RefusesThere source.old source.new lines.old.buffer
        (BeginsWith CertLine IsTitleLine (line_text 1)) }
    ensures there { (width : ℕ) → IfOk result (λ h.
        TakesThere source.old source.new lines.old.buffer lines.new.buffer (header_text h.0 width h.1 h.2)) }
    ensures works { OnOk result (S.has_failed source.new ≡ false) }
    ensures spare { spare lines.new.buffer ≤ spare lines.old.buffer }
    ensures taken { (width : ℕ) → IfOk result (λ h. Window (S.remaining source.old) (S.remaining source.new)
        lines.old.buffer lines.new.buffer (header_text h.0 width h.1 h.2)) }
    ensures fails { (width : ℕ) → IfErr result
        (Fails (S.remaining source.old) (S.remaining source.new) (S.has_failed source.new)
        lines.old.buffer (HasHeader width)) }
{
    let CertLine::Title(version) = lines.next(source, &Due::Title)? else {
        return Err(lines.misfit());
    };
    let CertLine::Agents(agents) = lines.next(source, &Due::Agents)? else {
        return Err(lines.misfit());
    };
    let CertLine::Claim(claim) = lines.next(source, &Due::Claim(version))? else {
        return Err(lines.misfit());
    };
    Ok((version, agents, claim))
}
