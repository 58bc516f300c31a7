//! The judge of a plan text: is it good for the problem, and what is the claim of its answer? The check of
//! both texts calls it first.
ghost use Rattle.std.specs.Prelude.{◌≡◌, IfOk, IfErr, MatchResult};
ghost use Rattle.mapf_checker.specs.Faults.{IsOfJudging};
ghost use Rattle.mapf_checker.specs.Refusals.{HasPlanRefusal};
ghost use Rattle.mapf_checker.specs.Verdict.{IsGoodPlan};
ghost use Rattle.mapf_model.specs.declared.item.Claim.{Claim};

use crate::fault::{CheckFault, FromFault};
use crate::validity::check_plan;
use mapf_certificate::{PlanAnswer, PlanText, read_plan};
use mapf_model::{Claim, Problem, laws};
use std::alloc::Global;

/// Returns the claim of the plan text's answer, if the text is valid for the problem: the cost of its plan, which is
/// valid, or `impossible`, or its bound.
pub fn judge_plan(alloc: Global, problem: &Problem, plan_text: &[u8]) -> Result<Claim, FromFault>
    ensures good { IfOk result (IsGoodPlan problem.now plan_text.now) }
    ensures only { (answer : Claim) → IsGoodPlan problem.now plan_text.now answer
        → MatchResult result (λ given. given ≡ answer) (λ fault. fault ≡ FromFault.Memory) }
    ensures refused { IfErr result (IsOfJudging (HasPlanRefusal problem.now plan_text.now)) }
{
    laws::sums_are_one();
    let PlanText { agents, answer, .. } = read_plan(alloc, plan_text, problem.grid())?;
    if agents as usize != problem.agents().len() {
        return Err(FromFault::Refused(CheckFault::C3));
    }
    match answer {
        PlanAnswer::Found(plan) => match check_plan(problem, &plan) {
            Ok(sum) => Ok(Claim::Cost(sum)),
            Err(fault) => Err(FromFault::Refused(CheckFault::C5(fault))),
        },
        PlanAnswer::Impossible => Ok(Claim::Impossible),
        PlanAnswer::Bounded { bound, .. } => Ok(Claim::Bound(bound)),
        PlanAnswer::Limit(_) => Err(FromFault::Refused(CheckFault::C4)),
    }
}
