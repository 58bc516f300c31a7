//! The judge of a certificate of any version. The check of both texts calls it.
ghost use Rattle.std.specs.Prelude.{◌≡◌, ◌↔◌, ◌++◌, ◌≤◌, [], ℕ, List, Some, false, length};
ghost use Rattle.std.specs.Prelude.{IfErr, IfOk, OnOk, IsTrue, MatchResult};
ghost use Rattle.mapf_certificate.specs.Bounded.{BeginsWithLine};
ghost use Rattle.mapf_certificate.specs.Buffered.{spare};
ghost use Rattle.mapf_certificate.specs.Window.{ComesWithin, Fails, Window};
ghost use Rattle.mapf_certificate.specs.declared.tree_line.Due.TheVariants.{Title};
ghost use Rattle.mapf_model.specs.declared.item.Claim.{Claim};
ghost use Rattle.mapf_checker.specs.Faults.{IsOfChecking, IsNoRefusal};
ghost use Rattle.mapf_checker.specs.Refusals.{BeginsVersionThree, HasCertRefusal};
ghost use Rattle.mapf_checker.specs.Verdict.{IsShown, IsGoodCert};
ghost use Rattle.mapf_lemma_checker.specs.Answers.{FitsAnswer};

use crate::fault::FromFault;
use crate::tree_cert_judge::judge_tree_cert;
use mapf_certificate::{LineBuffer, LinesFault};
use mapf_lemma_checker::judge_lemmas;
use mapf_model::{Claim, Problem, Source};
use std::alloc::Global;

// The first line of a certificate of version 3.
const LEMMA_TITLE: &[u8] = b"mapf-cert 3";

/// Checks that the source gives a certificate for the problem that shows its claim, and that the claim fits an answer
/// whose claim is `answer`. Returns the certificate's claim, or the first error.
pub fn judge_cert<S: Source>(
    alloc: Global,
    problem: &Problem,
    answer: &Claim,
    source: &mut S,
    limit: u64,
) -> Result<Claim, FromFault>
    requires { S.has_failed source.old ≡ false }
    ensures works { OnOk result (S.has_failed source.new ≡ false) }
    ensures came { OnOk result (ComesWithin (S.remaining source.old) (S.remaining source.new)
        (record { bytes = []; left = limit })) }
    ensures fits { IfOk result (FitsAnswer answer.now) }
    ensures shown { IfOk result (IsShown problem.now) }
    ensures good { (bytes : List ℕ) → S.remaining source.old ≡ Some bytes
        → IfOk result (λ claimed. IsGoodCert problem.now answer.now claimed bytes) }
    ensures within { (bytes : List ℕ) → S.remaining source.old ≡ Some bytes → OnOk result (length bytes ≤ limit) }
    ensures only { (bytes : List ℕ) (claimed : Claim) → S.remaining source.old ≡ Some bytes
        → FitsAnswer answer.now claimed → IsGoodCert problem.now answer.now claimed bytes
        → MatchResult result (λ given. given ≡ claimed) IsNoRefusal }
    ensures stops { IfErr result (IsOfChecking (S.remaining source.old) (S.remaining source.new)
        (S.has_failed source.new) (record { bytes = []; left = limit })
        (HasCertRefusal problem.now answer.now (S.remaining source.old))) }
{
    let mut buffer = LineBuffer::open(alloc, limit)?;
    if begins_version_three(&mut buffer, source)? {
        Ok(judge_lemmas(alloc, problem, answer, source, buffer)?)
    } else {
        judge_tree_cert(alloc, problem, answer, source, buffer)?;
        Ok(*answer)
    }
}

// Reads until the first line is in the buffer, and takes nothing. Returns whether it is that of a certificate of
// version 3.
fn begins_version_three<S: Source>(
    buffer: &mut LineBuffer,
    source: &mut S,
) -> Result<bool, LinesFault>
    requires { S.has_failed source.old ≡ false }
    ensures works { OnOk result (S.has_failed source.new ≡ false) }
    ensures spare { spare buffer.new ≡ spare buffer.old }
    ensures window { OnOk result
        (Window (S.remaining source.old) (S.remaining source.new) buffer.old buffer.new []) }
    ensures title { IfOk result (λ is. (more : List ℕ) → IsTrue is ↔ BeginsVersionThree (buffer.new.bytes ++ more)) }
    // If there is no first line, the text begins with that of no version.
    ensures fails { IfErr result (λ fault.
        Fails (S.remaining source.old) (S.remaining source.new) (S.has_failed source.new) buffer.old
        (BeginsWithLine Title) fault
        × Fails (S.remaining source.old) (S.remaining source.new) (S.has_failed source.new) buffer.old
        BeginsVersionThree fault) }
{
    match buffer.begins_with(source, LEMMA_TITLE) {
        Ok(is) => Ok(is),
        Err(why) => Err(LinesFault::without_line(1, why)),
    }
}
