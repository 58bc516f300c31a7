//! The run of `check`: is what a plan text says shown by its certificate? The program makes it over files, the demo
//! over memory.
ghost use Rattle.std.specs.Prelude.{◌≡◌, ◌≤◌, false, IfOk, IfErr, MatchResult};
ghost use Rattle.mapf_app.specs.Checked.{HasGoodPlan};
ghost use Rattle.mapf_app.specs.Faults.{HasNoInnerMemory, IsChecking, IsOfInput, IsOfMap, IsOfProblem};
ghost use Rattle.mapf_app.specs.Headline.{JudgesTruly, IsDueVerdict};
ghost use Rattle.mapf_app.specs.Order.{HasReadGrid, HasReadProblem, IsReadWhole};
ghost use Rattle.mapf_app.specs.Runs.{ReportsSource, ReportsLaterSource};
ghost use Rattle.mapf_checker.specs.declared.fault.Verdict.{Verdict};
ghost use Rattle.mapf_model.specs.Limits.{most_agents, most_cert_bytes, most_text_bytes};

use crate::fault::{Fault, Input};
use crate::input::{read_problem, read_text};
use mapf_checker::{FromFault, Verdict, check_from};
use mapf_model::Source;
use mapf_model::limits::MOST_CERT_BYTES;
use std::alloc::Global;

/// Checks a plan text and a certificate for the problem of the first `k` agents of a scenario, and returns the verdict.
/// Reads the map, the scenario and the plan text; the certificate is read only after the plan text was accepted.
pub fn run_check<M: Source, S: Source, P: Source, C: Source>(
    alloc: Global,
    map: &mut M,
    scen: &mut S,
    k: u32,
    plan: &mut P,
    cert: &mut C,
) -> Result<Verdict, Fault>
    requires works { (M.has_failed map.old ≡ false) × (S.has_failed scen.old ≡ false)
        × (P.has_failed plan.old ≡ false) × (C.has_failed cert.old ≡ false) }
    requires range { (1 ≤ k) × (k ≤ most_agents) }
    // The verdict is true of the problem that was read, and both texts are accepted for it.
    ensures verdict { IfOk result
        (JudgesTruly (M.remaining map.old) (S.remaining scen.old) (P.remaining plan.old) (C.remaining cert.old) k) }
    // What has to be accepted is accepted, unless a device fails, an input is too long or memory runs out.
    ensures accepted { (verdict : Verdict) → IsDueVerdict
        (M.remaining map.old) (S.remaining scen.old) (P.remaining plan.old) (C.remaining cert.old) k verdict →
        MatchResult result (λ given. given ≡ verdict) IsOfInput }
    // Each reported error is one that the inputs have (of P and K errors that the text spells none, and of C6 to C10 of
    // version 3 that it has one of these). For the map, the scenario and an invalid plan its location is correct too.
    ensures fault { IfErr result
        (IsChecking (M.remaining map.old) (S.remaining scen.old) (P.remaining plan.old) (C.remaining cert.old) k) }
    // Out of memory is `F6`, and inside no other error.
    ensures inner { IfErr result HasNoInnerMemory }
    // An error of a source is reported only if the source failed or gave more bytes than its limit, and always if the
    // source failed. No input with more bytes than its limit is accepted. Each input is read only after those before it
    // were read whole and accepted.
    ensures map { ReportsSource result Input.Map most_text_bytes
        (M.has_failed map.new) (M.remaining map.old) (M.remaining map.new) }
    ensures scen { ReportsLaterSource result Input.Scen most_text_bytes
        (S.has_failed scen.new) (S.remaining scen.old) (S.remaining scen.new) (scen.new ≡ scen.old)
        IsOfMap (HasReadGrid (M.has_failed map.new) (M.remaining map.old) (M.remaining map.new)) }
    ensures plan { ReportsLaterSource result Input.Plan most_text_bytes
        (P.has_failed plan.new) (P.remaining plan.old) (P.remaining plan.new) (plan.new ≡ plan.old)
        IsOfProblem (HasReadProblem (M.has_failed map.new) (M.remaining map.old) (M.remaining map.new)
        (S.has_failed scen.new) (S.remaining scen.old) (S.remaining scen.new) k) }
    ensures cert { ReportsLaterSource result Input.Cert most_cert_bytes
        (C.has_failed cert.new) (C.remaining cert.old) (C.remaining cert.new) (cert.new ≡ cert.old)
        (λ _. ⊥) (HasReadProblem (M.has_failed map.new) (M.remaining map.old) (M.remaining map.new)
        (S.has_failed scen.new) (S.remaining scen.old) (S.remaining scen.new) k
        × IsReadWhole (P.has_failed plan.new) (P.remaining plan.old) (P.remaining plan.new)
        × HasGoodPlan (M.remaining map.old) (S.remaining scen.old) (P.remaining plan.old) k) }
{
    let problem = read_problem(alloc, map, scen, k)?;
    let plan_text = read_text(alloc, plan, Input::Plan)?;
    match check_from(alloc, &problem, plan_text.as_slice(), cert, MOST_CERT_BYTES) {
        Ok(verdict) => Ok(verdict),
        Err(FromFault::Refused(refusal)) => Err(Fault::Refused(refusal)),
        Err(FromFault::Device) => Err(Fault::F4(Input::Cert)),
        Err(FromFault::TooLong) => Err(Fault::F4(Input::Cert)),
        Err(FromFault::Memory) => Err(Fault::F6),
    }
}
