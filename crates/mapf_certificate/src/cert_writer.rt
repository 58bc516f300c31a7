//! The writer of certificates, from the nodes of a search or from items. The run of `solve` writes to a sink, the
//! converter and tests into memory.
ghost use Rattle.std.specs.Prelude.{◌≡◌, ◌<◌, ◌++◌, [], List, Some, OnOk, IfOk, All, false, length, map, slice_get};
ghost use Rattle.std.specs.List.{flat_map};
ghost use Rattle.std.specs.Result.{is_err};
ghost use Rattle.mapf_fields.specs.Pages.{PassesOrFails, WritesOrFails};
ghost use Rattle.mapf_model.specs.Blocks.{LabelBlock};
ghost use Rattle.mapf_model.specs.Nodes.{node_with};
ghost use Rattle.mapf_model.specs.Tree.{blocks_of, node_of};
ghost use Rattle.mapf_certificate.specs.Certificates.{entries_text, block_text, blocks_text, first_line};
ghost use Rattle.mapf_certificate.specs.Certificates.{line_text, node_text};
ghost use Rattle.mapf_certificate.specs.Certificates.{header_text, cert_text, IsNodeOfVersion};
ghost use Rattle.mapf_certificate.specs.Lines.{IsClaimOfVersion};

use crate::cert::Cert;
use crate::line::CertLine;
use crate::memory_sink::MemorySink;
use crate::text_writer::TextWriter;
use crate::version::Version;
use mapf_model::{AsNode, Claim, Failed, Grid, NodeKind, OutOfMemory, Sink};
use std::alloc::Global;

// Returns the first line of a node of this kind with so many blocks.
fn first_line(version: Version, kind: NodeKind, blocks: usize) -> CertLine
    ensures { (listed : List LabelBlock) → blocks ≡ length listed →
        result ≡ first_line version (node_with kind listed) }
{
    match kind {
        NodeKind::Split(conflict) => CertLine::Split {
            conflict,
            blocks: match version {
                Version::One => None,
                Version::Two => Some(blocks as u64),
            },
        },
        NodeKind::Leaf => CertLine::Leaf(blocks as u64),
        NodeKind::Clash { i, j } => CertLine::Clash { i, j },
    }
}

impl TextWriter {
    // Writes the first three lines of a certificate.
    fn header<K: Sink>(
        &mut self,
        sink: &mut K,
        version: Version,
        agents: u32,
        claim: Claim,
    ) -> Result<(), Failed>
        requires { K.has_failed sink.old ≡ false }
        ensures text { PassesOrFails (K.contents sink.old) (K.contents sink.new) self.old.page self.new.page
            (header_text version self.old.width agents claim) result }
        ensures width { self.new.width ≡ self.old.width }
        ensures failed { K.has_failed sink.new ≡ is_err result }
    {
        self.line(sink, &CertLine::Title(version))?;
        self.line(sink, &CertLine::Agents(agents))?;
        self.line(sink, &CertLine::Claim(claim))
    }

    // Writes all entries of the block at `place`; `count` is their number.
    fn entries<K: Sink, N: AsNode>(
        &mut self,
        sink: &mut K,
        node: &N,
        place: usize,
        count: usize,
    ) -> Result<(), Failed>
        requires works { K.has_failed sink.old ≡ false }
        requires all { (block : LabelBlock) × (slice_get (blocks_of (N.node node.now)) place ≡ Some block)
            × (length block.entries ≡ count) }
        ensures text { (block : LabelBlock) → slice_get (blocks_of (N.node node.now)) place ≡ Some block →
            PassesOrFails (K.contents sink.old) (K.contents sink.new) self.old.page self.new.page
            (entries_text self.old.width block.entries) result }
        ensures width { self.new.width ≡ self.old.width }
        ensures failed { K.has_failed sink.new ≡ is_err result }
    {
        for index in 0..count {
            self.entry(sink, &node.entry(place, index))?;
        }
        Ok(())
    }

    // Writes a block of the node: its agent and how many entries it has, and these.
    fn block<K: Sink, N: AsNode>(
        &mut self,
        sink: &mut K,
        node: &N,
        place: usize,
    ) -> Result<(), Failed>
        requires works { K.has_failed sink.old ≡ false }
        requires inside { place < length (blocks_of (N.node node.now)) }
        ensures text { (block : LabelBlock) → slice_get (blocks_of (N.node node.now)) place ≡ Some block →
            PassesOrFails (K.contents sink.old) (K.contents sink.new) self.old.page self.new.page
            (block_text self.old.width block) result }
        ensures width { self.new.width ≡ self.old.width }
        ensures failed { K.has_failed sink.new ≡ is_err result }
    {
        let (agent, count) = node.block(place);
        let entries = count as u64;
        self.line(sink, &CertLine::Agent { agent, entries })?;
        self.entries(sink, node, place, count)
    }

    fn blocks<K: Sink, N: AsNode>(&mut self, sink: &mut K, node: &N) -> Result<(), Failed>
        requires { K.has_failed sink.old ≡ false }
        ensures text { PassesOrFails (K.contents sink.old) (K.contents sink.new) self.old.page self.new.page
            (blocks_text self.old.width (blocks_of (N.node node.now))) result }
        ensures width { self.new.width ≡ self.old.width }
        ensures failed { K.has_failed sink.new ≡ is_err result }
    {
        for place in 0..node.block_count() {
            self.block(sink, node, place)?;
        }
        Ok(())
    }

    // Writes the line of a node, and its blocks.
    fn node<K: Sink, N: AsNode>(
        &mut self,
        sink: &mut K,
        version: Version,
        node: &N,
    ) -> Result<(), Failed>
        requires { K.has_failed sink.old ≡ false }
        ensures text { PassesOrFails (K.contents sink.old) (K.contents sink.new) self.old.page self.new.page
            (node_text version self.old.width (N.node node.now)) result }
        ensures width { self.new.width ≡ self.old.width }
        ensures failed { K.has_failed sink.new ≡ is_err result }
    {
        self.line(sink, &first_line(version, node.kind(), node.block_count()))?;
        self.blocks(sink, node)
    }

    fn nodes<K: Sink, N: AsNode>(
        &mut self,
        sink: &mut K,
        version: Version,
        nodes: &[N],
    ) -> Result<(), Failed>
        requires { K.has_failed sink.old ≡ false }
        ensures text { PassesOrFails (K.contents sink.old) (K.contents sink.new) self.old.page self.new.page
            (flat_map (λ one. node_text version self.old.width (N.node one)) nodes.now) result }
        ensures width { self.new.width ≡ self.old.width }
        ensures failed { K.has_failed sink.new ≡ is_err result }
    {
        for node in nodes {
            self.node(sink, version, node)?;
        }
        Ok(())
    }

    // Writes the last line of a certificate, and what is left on the page.
    fn finish<K: Sink>(&mut self, sink: &mut K) -> Result<(), Failed>
        requires { K.has_failed sink.old ≡ false }
        ensures text { WritesOrFails (K.contents sink.old) (K.contents sink.new)
            (self.old.page ++ line_text self.old.width CertLine.End) result }
        ensures empty { OnOk result (self.new.page ≡ []) }
        ensures width { self.new.width ≡ self.old.width }
        ensures failed { K.has_failed sink.new ≡ is_err result }
    {
        self.line(sink, &CertLine::End)?;
        self.page.flush(sink)
    }

    /// Writes a certificate: its header, these nodes and `end`. Nothing is left on the page. If the version can't
    /// express the claim or a node, as version 1 a bound or blocks on a split, the text spells no certificate. Nothing
    /// is allocated. `Failed` is returned only if the sink failed; it then got a prefix of that text.
    pub fn tree<K: Sink, N: AsNode>(
        &mut self,
        sink: &mut K,
        version: Version,
        agents: u32,
        claim: Claim,
        nodes: &[N],
    ) -> Result<(), Failed>
        requires works { K.has_failed sink.old ≡ false }
        requires empty { self.old.page ≡ [] }
        ensures text { WritesOrFails (K.contents sink.old) (K.contents sink.new)
            (cert_text version self.old.width agents claim (map N.node nodes.now)) result }
        ensures empty { OnOk result (self.new.page ≡ []) }
        ensures width { self.new.width ≡ self.old.width }
        ensures failed { K.has_failed sink.new ≡ is_err result }
    {
        self.header(sink, version, agents, claim)?;
        self.nodes(sink, version, nodes)?;
        self.finish(sink)
    }

    /// Writes a certificate: its header, its items and `end`. `read_cert` reads it back if the number of agents, the
    /// claim and the numbers of the items are in the ranges of docs/FORMATS.md, the agents of each node's blocks and
    /// the entries of each block rise, and the items are those of one tree. Any other certificate is written too, but
    /// nothing is promised of reading its text. In version 1 blocks on splits and a bound have no spelling. `Failed` is
    /// returned only if the sink failed; it then got a prefix of that text.
    pub fn cert<K: Sink>(&mut self, sink: &mut K, cert: &Cert) -> Result<(), Failed>
        requires works { K.has_failed sink.old ≡ false }
        requires empty { self.old.page ≡ [] }
        requires claim { IsClaimOfVersion cert.now.version cert.now.claim }
        requires nodes { All (λ item. IsNodeOfVersion cert.now.version (node_of item)) cert.now.tree.items }
        ensures text { WritesOrFails (K.contents sink.old) (K.contents sink.new)
            (cert_text cert.now.version self.old.width cert.now.agents cert.now.claim
            (map node_of cert.now.tree.items)) result }
        ensures empty { OnOk result (self.new.page ≡ []) }
        ensures width { self.new.width ≡ self.old.width }
        ensures failed { K.has_failed sink.new ≡ is_err result }
    {
        self.tree(sink, cert.version, cert.agents, cert.claim, &cert.tree)
    }
}

/// Returns the text of a certificate for a grid of this size, as `TextWriter::cert` writes it.
pub fn write_cert(alloc: Global, cert: &Cert, grid: &Grid) -> Result<Vec<u8>, OutOfMemory>
    requires claim { IsClaimOfVersion cert.now.version cert.now.claim }
    requires nodes { All (λ item. IsNodeOfVersion cert.now.version (node_of item)) cert.now.tree.items }
    ensures { IfOk result (λ bytes. bytes.items
        ≡ cert_text cert.now.version grid.now.width cert.now.agents cert.now.claim (map node_of cert.now.tree.items)) }
{
    let mut sink = MemorySink::empty(alloc);
    let mut writer = TextWriter::of(grid);
    if writer.cert(&mut sink, cert).is_err() {
        return Err(OutOfMemory);
    }
    Ok(sink.into_bytes())
}
