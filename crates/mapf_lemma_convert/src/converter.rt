//! The call that converts a text of version 1 or 2 into one of version 3, for users of the library. The program doesn't
//! call it.
ghost use Rattle.std.specs.Prelude.{◌≡◌, ◌++◌, [], false, List, ℕ, Some, All, IfOk, IfErr, OnOk, MatchResult, map};
ghost use Rattle.std.specs.List.{flat_map};
ghost use Rattle.std.specs.Result.{is_err};
ghost use Rattle.mapf_fields.specs.Pages.{Passes};
ghost use Rattle.mapf_certificate.specs.CertReading.{IsSpelled, IsCertOf};
ghost use Rattle.mapf_certificate.specs.Certificates.{SpellsCert};
ghost use Rattle.mapf_certificate.specs.declared.version.Version.{Version};
ghost use Rattle.mapf_model.specs.declared.item.Claim.{Claim};
ghost use Rattle.mapf_model.specs.Tree.{ConstraintTree, node_of};
ghost use Rattle.mapf_lemma_texts.specs.Lines.{line_text};
ghost use Rattle.mapf_lemma_texts.specs.PartReading.{header_text};
ghost use Rattle.mapf_lemma_texts.specs.Parts.{part_text};
ghost use Rattle.mapf_lemma_texts.specs.PartWriting.{HasFewValues};
ghost use Rattle.mapf_lemma_convert.specs.Conversion.{CanBeConverted, converted_text};
ghost use Rattle.mapf_lemma_convert.specs.NodeWalk.{walk_over, walk_start, walked_text};
ghost use Rattle.mapf_lemma_convert.specs.Results.{IsConversion, IsConvertedText, IsRefused, IsRefusedTree};

use crate::lemma_part::lemmas_fit;
use crate::node_walk::NodeWalk;
use mapf_certificate::{Cert, CertFault, MemorySink, read_cert};
use mapf_lemma_texts::{LemmaLine, LemmaWriter, Part};
use mapf_model::{Claim, Failed, Grid, Item};
use std::alloc::{AllocError, Global};

/// Why a text isn't converted.
#[derive(Clone, Copy, Debug, PartialEq, Eq)]
pub enum ConvertFault {
    /// It spells no certificate of version 1 or 2.
    Text(CertFault),
    /// A block has more constraints or entries than a lemma may have, or there are more blocks than lemmas may be.
    TooLarge,
    /// Out of memory.
    Memory,
}

// Writes the first three lines.
fn write_header(
    sink: &mut MemorySink,
    writer: &mut LemmaWriter,
    agents: u32,
    claim: Claim,
) -> Result<(), Failed>
    requires { sink.old.1 ≡ false }
    ensures text { OnOk result (Passes (Some sink.old.0) (Some sink.new.0) writer.old.page writer.new.page
        (header_text writer.old.width agents claim)) }
    ensures width { writer.new.width ≡ writer.old.width }
    ensures failed { sink.new.1 ≡ is_err result }
{
    writer.line(sink, &LemmaLine::Title)?;
    writer.line(sink, &LemmaLine::Agents(agents))?;
    writer.line(sink, &LemmaLine::Claim(claim))
}

// Writes the parts.
fn write_parts(
    sink: &mut MemorySink,
    writer: &mut LemmaWriter,
    parts: &[Part],
) -> Result<(), Failed>
    requires works { sink.old.1 ≡ false }
    requires few { All HasFewValues parts.now }
    ensures text { OnOk result (Passes (Some sink.old.0) (Some sink.new.0) writer.old.page writer.new.page
        (flat_map (part_text writer.old.width) parts.now)) }
    ensures width { writer.new.width ≡ writer.old.width }
    ensures failed { sink.new.1 ≡ is_err result }
{
    for part in parts {
        writer.part(sink, part)?;
    }
    Ok(())
}

// Writes the last line, and what is left on the page.
fn write_end(sink: &mut MemorySink, writer: &mut LemmaWriter) -> Result<(), Failed>
    requires { sink.old.1 ≡ false }
    ensures { OnOk result (sink.new.0
        ≡ sink.old.0 ++ (writer.old.page ++ line_text writer.old.width LemmaLine.End)) }
{
    writer.line(sink, &LemmaLine::End)?;
    writer.finish(sink)
}

// Writes the certificate of this number of agents, this claim, and the parts that the walk made.
fn write_walked(
    sink: &mut MemorySink,
    grid: &Grid,
    agents: u32,
    claim: Claim,
    walk: &NodeWalk,
) -> Result<(), Failed>
    requires empty { sink.old ≡ ([], false) }
    requires lemmas { All HasFewValues walk.now.lemmas }
    requires cases { All HasFewValues walk.now.cases }
    ensures { OnOk result (sink.new.0 ≡ walked_text grid.now.width agents claim walk.now) }
{
    let mut writer = LemmaWriter::of(grid);
    write_header(sink, &mut writer, agents, claim)?;
    let lemmas = walk.lemmas().len() as u64;
    write_parts(sink, &mut writer, &[Part::Prices(0), Part::Lemmas(lemmas)])?;
    write_parts(sink, &mut writer, walk.lemmas())?;
    write_parts(sink, &mut writer, walk.cases())?;
    write_end(sink, &mut writer)
}

// Returns the walk over these nodes.
fn walk_over(alloc: Global, items: &[Item]) -> Result<NodeWalk, AllocError>
    ensures { IfOk result (λ walk. walk ≡ walk_over walk_start (map node_of items.now)) }
{
    let mut walk = NodeWalk::new(alloc)?;
    walk.nodes(alloc, items)?;
    Ok(walk)
}

// Returns the text of the converted certificate.
fn converted_text(alloc: Global, cert: &Cert, grid: &Grid) -> Result<Vec<u8>, ConvertFault>
    requires { (text : List ℕ) × IsSpelled grid.now text cert.now }
    ensures { (text : List ℕ) (version : Version) (agents : ℕ) (claim : Claim) (tree : ConstraintTree)
        → SpellsCert grid.now text version agents claim tree → IsCertOf version agents claim tree cert.now
        → MatchResult result (λ new. IsConvertedText grid.now agents claim tree new.items) (IsRefusedTree tree) }
{
    let width = grid.width();
    prove!(0 < width);
    let Ok(walk) = walk_over(alloc, &cert.tree) else {
        return Err(ConvertFault::Memory);
    };
    if !lemmas_fit(walk.lemmas()) {
        return Err(ConvertFault::TooLarge);
    }
    let mut sink = MemorySink::empty(alloc);
    match write_walked(&mut sink, grid, cert.agents, cert.claim, &walk) {
        Ok(()) => Ok(sink.into_bytes()),
        Err(_) => Err(ConvertFault::Memory),
    }
}

/// Returns the text of version 3 that says what this text of version 1 or 2 says.
pub fn convert_cert_to_lemmas(
    alloc: Global,
    text: &[u8],
    grid: &Grid,
) -> Result<Vec<u8>, ConvertFault>
    // If a text is returned, it spells the converted certificate of the one that the old text spells.
    ensures found { IfOk result (λ new. IsConversion grid.now text.now new.items) }
    // If the text is refused, it spells no certificate of version 1 or 2, or one that can't be converted, unless memory
    // ran out.
    ensures refused { IfErr result (IsRefused grid.now text.now) }
    // A certificate that can be converted is converted, unless memory runs out.
    ensures only { (version : Version) (agents : ℕ) (claim : Claim) (tree : ConstraintTree)
        → SpellsCert grid.now text.now version agents claim tree → CanBeConverted tree
        → MatchResult result (λ new. new.items ≡ converted_text grid.now agents claim tree)
        (λ fault. fault ≡ ConvertFault.Memory) }
{
    match read_cert(alloc, text, grid) {
        Ok(cert) => converted_text(alloc, &cert, grid),
        Err(CertFault::Memory) => Err(ConvertFault::Memory),
        Err(fault) => Err(ConvertFault::Text(fault)),
    }
}
