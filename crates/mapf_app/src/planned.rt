//! How the runs of `play`, `dispatch` and `follow` read what they share: a problem, and a valid plan for it.
ghost use Rattle.std.specs.Prelude.{◌≡◌, ◌≤◌, ◌⊎◌, ℕ, List, Ok, Err, false, IfOk, IfErr, OnOk};
ghost use Rattle.std.specs.Result.{IsErrAnd};
ghost use Rattle.mapf_app.specs.Faults.{HasNoInnerMemory, IsOfInput, IsOfMap, IsOfProblem, IsPlanning, IsReadingPlan};
ghost use Rattle.mapf_app.specs.Faults.{fault_of_plan_text};
ghost use Rattle.mapf_app.specs.Order.{HasReadGrid, HasReadProblem, HasReadPlan};
ghost use Rattle.mapf_app.specs.Planned.{IsDuePlan, SpellsPlanned, SpellsValidPlan};
ghost use Rattle.mapf_app.specs.Runs.{ReportsSource, ReportsLaterSource};
ghost use Rattle.mapf_app.specs.declared.planned.Planned.{Planned};
ghost use Rattle.mapf_model.specs.Limits.{most_agents, most_text_bytes};

use crate::fault::{Fault, Input, PlayFault};
use crate::input::{read_problem, read_text};
use mapf_certificate::{PlanAnswer, PlanText, PlanTextFault, read_plan};
use mapf_checker::check_plan;
use mapf_model::{Plan, Problem, Source};
use std::alloc::Global;

/// A problem, and a valid plan for it.
#[derive(Debug, Drop)]
pub struct Planned {
    pub problem: Problem,
    pub plan: Plan,
}

// Returns a plan text's error as an error of a run.
fn fault_of_plan_text(fault: PlanTextFault) -> Fault
    ensures { result ≡ fault_of_plan_text fault }
{
    match fault {
        PlanTextFault::Memory => Fault::F6,
        _ => Fault::F3(PlayFault::Text(fault)),
    }
}

// Returns the valid plan that a plan text spells for the problem.
fn valid_plan(alloc: Global, problem: &Problem, bytes: &[u8]) -> Result<Plan, Fault>
    ensures found { IfOk result (SpellsValidPlan problem.now bytes.now) }
    ensures only { (plan : List (List ℕ)) → SpellsValidPlan problem.now bytes.now plan →
        (result ≡ Ok plan) ⊎ (result ≡ Err Fault.F6) }
    ensures fault { IfErr result (IsReadingPlan problem.now bytes.now) }
    ensures inner { IfErr result HasNoInnerMemory }
{
    let PlanText { agents, answer, .. } = match read_plan(alloc, bytes, problem.grid()) {
        Ok(text) => text,
        Err(fault) => return Err(fault_of_plan_text(fault)),
    };
    let PlanAnswer::Found(plan) = answer else {
        return Err(Fault::F3(PlayFault::NoPlan));
    };
    if agents as usize != problem.agents().len() {
        return Err(Fault::F3(PlayFault::OtherCount));
    }
    match check_plan(problem, &plan) {
        Ok(_) => Ok(plan),
        Err(fault) => Err(Fault::F3(PlayFault::Invalid(fault))),
    }
}

/// Returns the problem of the first `k` agents that a map and a scenario spell, and the valid plan that a plan text
/// spells for it. Each input is read only after the one before it was accepted.
pub fn read_planned<M: Source, S: Source, P: Source>(
    alloc: Global,
    map: &mut M,
    scen: &mut S,
    k: u32,
    plan: &mut P,
) -> Result<Planned, Fault>
    requires works { (M.has_failed map.old ≡ false) × (S.has_failed scen.old ≡ false)
        × (P.has_failed plan.old ≡ false) }
    requires range { (1 ≤ k) × (k ≤ most_agents) }
    // If a problem and a plan are returned, the inputs spell them.
    ensures found { IfOk result (λ planned. SpellsPlanned
        (M.remaining map.old) (S.remaining scen.old) (P.remaining plan.old) k planned.problem planned.plan) }
    // A problem and a valid plan that the inputs spell are returned, unless a device fails, an input is too long or
    // memory runs out.
    ensures only { (planned : Planned) →
        IsDuePlan (M.remaining map.old) (S.remaining scen.old) (P.remaining plan.old) k planned.problem planned.plan →
        (result ≡ Ok planned) ⊎ IsErrAnd result IsOfInput }
    // Each reported error is one that the inputs have. For the map, the scenario and an invalid plan its location is
    // correct too.
    ensures fault { IfErr result (IsPlanning (M.remaining map.old) (S.remaining scen.old) (P.remaining plan.old) k) }
    // Out of memory is `F6`, and inside no other error.
    ensures inner { IfErr result HasNoInnerMemory }
    // An error of a source is reported only if the source failed or gave more bytes than its limit, and always if the
    // source failed. No input with more bytes than its limit is accepted. Each input is read only after those before it
    // were read whole and accepted.
    ensures map { ReportsSource result Input.Map most_text_bytes
        (M.has_failed map.new) (M.remaining map.old) (M.remaining map.new) }
    ensures scen { ReportsLaterSource result Input.Scen most_text_bytes
        (S.has_failed scen.new) (S.remaining scen.old) (S.remaining scen.new) (scen.new ≡ scen.old)
        IsOfMap (HasReadGrid (M.has_failed map.new) (M.remaining map.old) (M.remaining map.new)) }
    ensures plan { ReportsLaterSource result Input.Plan most_text_bytes
        (P.has_failed plan.new) (P.remaining plan.old) (P.remaining plan.new) (plan.new ≡ plan.old)
        IsOfProblem (HasReadProblem (M.has_failed map.new) (M.remaining map.old) (M.remaining map.new)
        (S.has_failed scen.new) (S.remaining scen.old) (S.remaining scen.new) k) }
    // All three are read whole, and none has more bytes than the limit.
    ensures whole { OnOk result (HasReadPlan (M.has_failed map.new) (M.remaining map.old) (M.remaining map.new)
        (S.has_failed scen.new) (S.remaining scen.old) (S.remaining scen.new)
        (P.has_failed plan.new) (P.remaining plan.old) (P.remaining plan.new) k) }
{
    let problem = read_problem(alloc, map, scen, k)?;
    let text = read_text(alloc, plan, Input::Plan)?;
    let paths = valid_plan(alloc, &problem, text.as_slice())?;
    Ok(Planned {
        problem,
        plan: paths,
    })
}
