//! The reader of a whole certificate in memory, for the converter and for tests.
ghost use Rattle.mapf_certificate.specs.CertReading.{IsSpelled, IsCertOf, AwaitsCert};
ghost use Rattle.mapf_certificate.specs.Certificates.{SpellsCert};
ghost use Rattle.mapf_certificate.specs.Window.{StopsReader, IsNoTextFault};
ghost use Rattle.mapf_certificate.specs.declared.version.Version.{Version};
ghost use Rattle.mapf_model.specs.declared.item.Claim.{Claim};
ghost use Rattle.mapf_model.specs.Tree.{ConstraintTree, Node, node_of};
ghost use Rattle.std.specs.Prelude.{◌≡◌, ℕ, List, Some, None, false, map, IfOk, IfErr, MatchResult};

use crate::cert::{Cert, CertFault, LinesFault};
use crate::cert_lines::CertLines;
use mapf_model::{BytesSource, Grid, Source};
use std::alloc::Global;

// Returns the certificate that a source gives.
fn collect<S: Source>(
    alloc: Global,
    lines: &mut CertLines,
    source: &mut S,
) -> Result<Cert, LinesFault>
    requires works { S.has_failed source.old ≡ false }
    requires unfaulted { lines.old.fault ≡ None }
    requires unread { lines.old.header ≡ None }
    requires part { lines.old.is_whole ≡ false }
    ensures found { IfOk result (λ cert. (bytes : List ℕ) → S.remaining source.old ≡ Some bytes
        → AwaitsCert (S.remaining source.old) lines.old
        cert.version cert.agents cert.claim (map node_of cert.tree.items)) }
    ensures only { (version : Version) (agents : ℕ) (claim : Claim) (nodes : List Node)
        → AwaitsCert (S.remaining source.old) lines.old version agents claim nodes
        → MatchResult result (λ cert.
        (cert.version ≡ version) × (cert.agents ≡ agents) × (cert.claim ≡ claim)
        × (map node_of cert.tree.items ≡ nodes)) IsNoTextFault }
    ensures stops { IfErr result
        (StopsReader (S.remaining source.old) (S.remaining source.new) (S.has_failed source.new) lines.old.buffer) }
{
    let (agents, claim) = lines.header(source)?;
    let version = lines.version();
    let mut tree = Vec::new(alloc);
    while let Some(item) = lines.next_item(source)? {
        if tree.push(item).is_err() {
            return Err(LinesFault::Memory);
        }
    }
    Ok(Cert {
        version,
        agents,
        claim,
        tree,
    })
}

/// Reads a certificate of version 1 or 2 for a grid of this size.
pub fn read_cert(alloc: Global, bytes: &[u8], grid: &Grid) -> Result<Cert, CertFault>
    // If a certificate is returned, the bytes spell it, in range.
    ensures found { IfOk result (IsSpelled grid.now bytes.now) }
    // A certificate that the bytes spell is returned, unless memory runs out.
    ensures only { (version : Version) (agents : ℕ) (claim : Claim) (tree : ConstraintTree)
        → SpellsCert grid.now bytes.now version agents claim tree
        → MatchResult result (IsCertOf version agents claim tree) (λ fault. fault ≡ CertFault.Memory) }
{
    let mut source = BytesSource::of(bytes);
    let Ok(mut lines) = CertLines::open(alloc, grid.width(), grid.height(), bytes.len() as u64)
    else {
        return Err(CertFault::Memory);
    };
    match collect(alloc, &mut lines, &mut source) {
        Ok(cert) => Ok(cert),
        Err(LinesFault::Text(fault)) => Err(fault),
        Err(LinesFault::Memory) => Err(CertFault::Memory),
        Err(LinesFault::Device | LinesFault::TooLong) => unreachable!(),
    }
}
