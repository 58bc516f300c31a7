//! How a certificate of version 1 becomes one of version 2, for users of the library. The program doesn't call it.
ghost use Rattle.mapf_certificate.specs.Certificates.{SpellsCert, IsConverted};
ghost use Rattle.mapf_certificate.specs.Lines.{title_words};
ghost use Rattle.mapf_certificate.specs.declared.version.Version.TheVariants.{One, Two};
ghost use Rattle.mapf_model.specs.declared.item.Claim.{Claim};
ghost use Rattle.mapf_model.specs.Tree.{ConstraintTree};
ghost use Rattle.std.specs.Prelude.{◌≡◌, ◌⊎◌, ℕ, List, ◌∷◌, ◌++◌, IfOk, MatchResult};

use crate::cert::{Cert, CertFault};
use crate::cert_reader::read_cert;
use crate::cert_writer::write_cert;
use crate::version::Version;
use mapf_model::Grid;
use std::alloc::Global;

/// Returns the text of version 2 that has the agents, the claim and the tree of this text of version 1. A text that
/// begins as one of version 2 has an error in line 1.
pub fn convert_cert(alloc: Global, bytes: &[u8], grid: &Grid) -> Result<Vec<u8>, CertFault>
    // If a text is returned, the bytes spell a certificate of version 1, and the text spells the same in version 2.
    ensures found { IfOk result (λ out. IsConverted grid.now bytes.now out.items) }
    // A text of version 1 is converted, unless memory runs out.
    ensures only { (agents : ℕ) (claim : Claim) (tree : ConstraintTree)
        → SpellsCert grid.now bytes.now One agents claim tree
        → MatchResult result (λ out. SpellsCert grid.now out.items Two agents claim tree)
        (λ fault. fault ≡ CertFault.Memory) }
    // A text that begins with the first line of version 2 has an error in line 1, unless memory runs out.
    ensures later { (rest : List ℕ) → bytes.now ≡ title_words Two ++ (10 ∷ rest)
        → MatchResult result (λ out. ⊥) (λ fault. (fault ≡ CertFault.K1 1) ⊎ (fault ≡ CertFault.Memory)) }
{
    match read_cert(alloc, bytes, grid) {
        Ok(cert) if cert.version == Version::One => {
            let cert = Cert {
                version: Version::Two,
                agents: cert.agents,
                claim: cert.claim,
                tree: cert.tree,
            };
            match write_cert(alloc, &cert, grid) {
                Ok(out) => Ok(out),
                Err(_) => Err(CertFault::Memory),
            }
        }
        Err(CertFault::Memory) => Err(CertFault::Memory),
        Err(fault) if !bytes.starts_with(b"mapf-cert 2\n") => Err(fault),
        _ => Err(CertFault::K1(1)),
    }
}
