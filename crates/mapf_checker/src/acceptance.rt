//! The check of a plan text and its certificate for a problem: both are judged, and a verdict is returned. The run of
//! `check` calls it.
ghost use Rattle.std.specs.Prelude.{◌≡◌, ◌↔◌, ◌⊎◌, ◌<◌, ◌≤◌, ℕ, List, Some, true, false, length};
ghost use Rattle.std.specs.Prelude.{IfOk, IfErr, OnOk, IsErrOf, MatchResult};
ghost use Rattle.std.specs.Io.KnownBytes.{Consumes};
ghost use Rattle.mapf_certificate.specs.Window.{Pulls};
ghost use Rattle.mapf_checker.specs.declared.fault.Verdict.{Verdict};
ghost use Rattle.mapf_checker.specs.Faults.{IsNoMemoryRefusal, HasNoTextMemory, IfRefused, IsNoRefusal};
ghost use Rattle.mapf_checker.specs.Refusals.{HasRefusal};
ghost use Rattle.mapf_checker.specs.Verdict.{AreAccepted, IsGoodPlan, IsTrueText, IsVerdictOn};
ghost use Rattle.mapf_lemma_checker.specs.Answers.{FitsAnswer};
ghost use Rattle.mapf_model.specs.declared.item.Claim.{Claim};

use crate::cert_judge::judge_cert;
use crate::fault::{CheckFault, FromFault, Verdict};
use crate::laws::accepted_is_true;
use crate::plan_judge::judge_plan;
use mapf_model::{BytesSource, Claim, Problem, Source};
use std::alloc::Global;

/// Checks a plan text and a certificate for the problem. Returns the verdict, or why they are not accepted: the plan
/// text is judged first, then the certificate line by line.
///
/// A certificate of version 1 or 2 has to make the claim of the plan text's answer: the cost of its plan, its bound, or
/// `impossible`. One of version 3 may also claim a bound that isn't above the cost of the plan. If that bound equals
/// the cost, the plan is optimal. If it is smaller, the verdict is `Verdict::Within`.
pub fn check(
    alloc: Global,
    problem: &Problem,
    plan_text: &[u8],
    cert_text: &[u8],
) -> Result<Verdict, CheckFault>
    // What the verdict says is true: the plan is optimal with that sum; or it is valid with that sum, and no valid plan
    // has a sum below the bound; or no plan is valid; or no valid plan has a sum below the bound of a limit.
    ensures truth { IfOk result (IsTrueText problem.now plan_text.now) }
    // A pair of texts is accepted if and only if it meets the specification, unless memory runs out.
    ensures accepted { IfOk result (AreAccepted problem.now plan_text.now cert_text.now) }
    ensures only { (verdict : Verdict) → AreAccepted problem.now plan_text.now cert_text.now verdict
        → MatchResult result (λ given. given ≡ verdict) (λ fault. fault ≡ CheckFault.Memory) }
    ensures refused { IfErr result (λ fault. (fault ≡ CheckFault.Memory)
        ⊎ HasRefusal problem.now plan_text.now (Some cert_text.now) fault) }
    // Out of memory is reported as `CheckFault::Memory` and in no other way.
    ensures inner { IfErr result HasNoTextMemory }
{
    let mut source = BytesSource::of(cert_text);
    let limit = cert_text.len() as u64;
    match check_from(alloc, problem, plan_text, &mut source, limit) {
        Ok(verdict) => Ok(verdict),
        Err(FromFault::Refused(fault)) => Err(fault),
        Err(FromFault::Memory) => Err(CheckFault::Memory),
        Err(FromFault::Device | FromFault::TooLong) => unreachable!(),
    }
}

/// Checks a plan text and a certificate for the problem, where the certificate is read from a source and has at most
/// `limit` bytes. Returns the verdict, or why there is none. The source is not read before the plan text is accepted.
/// What a certificate may claim is as for `check`, in each version.
pub fn check_from<S: Source>(
    alloc: Global,
    problem: &Problem,
    plan_text: &[u8],
    source: &mut S,
    limit: u64,
) -> Result<Verdict, FromFault>
    requires { S.has_failed source.old ≡ false }
    // What the verdict says is true: the plan is optimal with that sum; or it is valid with that sum, and no valid plan
    // has a sum below the bound; or no plan is valid; or no valid plan has a sum below the bound of a limit.
    ensures truth { IfOk result (IsTrueText problem.now plan_text.now) }
    // If the source reports its bytes: a pair of texts is accepted if and only if it meets the specification, unless
    // memory runs out, the source fails or it gives too many bytes.
    ensures accepted { (bytes : List ℕ) → S.remaining source.old ≡ Some bytes
        → IfOk result (AreAccepted problem.now plan_text.now bytes) }
    ensures only { (bytes : List ℕ) (verdict : Verdict) → S.remaining source.old ≡ Some bytes
        → AreAccepted problem.now plan_text.now bytes verdict
        → MatchResult result (λ given. given ≡ verdict) IsNoRefusal }
    ensures refused { IfErr result (IfRefused (HasRefusal problem.now plan_text.now (S.remaining source.old))) }
    // Out of memory is reported as `FromFault::Memory` and in no other way.
    ensures inner { IfErr result IsNoMemoryRefusal }
    // A certificate with more bytes than the limit is never accepted.
    ensures within { (bytes : List ℕ) → S.remaining source.old ≡ Some bytes → OnOk result (length bytes ≤ limit) }
    // If the plan text is not accepted, the source is not read.
    ensures unpulled { ((answer : Claim) → IsGoodPlan problem.now plan_text.now answer → ⊥)
        → source.new ≡ source.old }
    // `Device` is returned if and only if the source failed.
    ensures device { IsErrOf result FromFault.Device ↔ (S.has_failed source.new ≡ true) }
    // At most one byte more than the limit is read, and `TooLong` is returned if and only if that byte was read.
    ensures pulls { Pulls (S.remaining source.old) (S.remaining source.new) limit (IsErrOf result FromFault.TooLong) }
    ensures too_long { IsErrOf result FromFault.TooLong → (came : List ℕ)
        × Consumes (S.remaining source.old) (S.remaining source.new) came × (limit < length came) }
{
    accepted_is_true();
    let answer = judge_plan(alloc, problem, plan_text)?;
    let claimed = judge_cert(alloc, problem, &answer, source, limit)?;
    Ok(verdict_on(answer, claimed))
}

// Returns the verdict on an answer with the first claim, beside a certificate that shows the second.
fn verdict_on(answer: Claim, claimed: Claim) -> Verdict
    requires { FitsAnswer answer claimed }
    ensures { IsVerdictOn answer claimed result }
{
    match (answer, claimed) {
        (Claim::Cost(cost), Claim::Bound(bound)) if bound < cost => Verdict::Within { bound, cost },
        (Claim::Cost(cost), _) => Verdict::Optimal(cost),
        (Claim::Bound(bound), _) => Verdict::Bound(bound),
        (Claim::Impossible, _) => Verdict::Impossible,
    }
}
