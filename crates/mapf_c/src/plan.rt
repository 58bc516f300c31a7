//! The call that judges a plan alone.
ghost use Rattle.std.specs.Prelude.{◌≡◌, List, Some, [], ℕ, IfErr, IfOk};
ghost use Rattle.mapf_app.specs.Faults.{HasNoInnerMemory, IsOfInput, IsPlanning};
ghost use Rattle.mapf_app.specs.Planned.{IsDuePlan, SpellsPlanned};
ghost use Rattle.mapf_c.specs.Answers.{unanswered};
ghost use Rattle.mapf_c.specs.Checks.{IsCount, IsReadable};
ghost use Rattle.mapf_c.specs.Faults.{out_of_range};
ghost use Rattle.mapf_c.specs.Plans.{IsAnswerOfPlan, SpellsCost, plan_answer};
ghost use Rattle.mapf_model.specs.Plan.{Instance};

use crate::check::is_count;
use crate::numbers::{Answer, FaultNumbers};
use mapf_app::{Fault, Planned, PlayFault, read_planned};
use mapf_checker::check_plan;
use mapf_model::BytesSource;
use std::alloc::Global;

/// Returns the problem of the first agents of a scenario, and the valid plan for it that the texts spell.
pub fn planned_of(
    alloc: Global,
    map: &[u8],
    scen: &[u8],
    agents: u32,
    plan: &[u8],
) -> Result<Planned, Fault>
    requires { IsCount agents }
    ensures found { IfOk result (λ planned.
        SpellsPlanned (Some map.now) (Some scen.now) (Some plan.now) agents planned.problem planned.plan) }
    ensures due { (problem : Instance) (paths : List (List ℕ)) →
        IsDuePlan (Some map.now) (Some scen.now) (Some plan.now) agents problem paths → IfErr result IsOfInput }
    ensures fault { IfErr result (IsPlanning (Some map.now) (Some scen.now) (Some plan.now) agents) }
    ensures inner { IfErr result HasNoInnerMemory }
    ensures readable { IfErr result (IsReadable map.now scen.now plan.now []) }
{
    let mut map = BytesSource::of(map);
    let mut scen = BytesSource::of(scen);
    let mut plan = BytesSource::of(plan);
    match read_planned(alloc, &mut map, &mut scen, agents, &mut plan) {
        Ok(planned) => Ok(planned),
        Err(fault) => Err(fault),
    }
}

// Returns the sum of costs of the valid plan that the texts spell.
fn cost_of(alloc: Global, map: &[u8], scen: &[u8], agents: u32, plan: &[u8]) -> Result<u64, Fault>
    requires { IsCount agents }
    ensures valid { IfOk result (SpellsCost map.now scen.now plan.now agents) }
    ensures due { (problem : Instance) (paths : List (List ℕ)) →
        IsDuePlan (Some map.now) (Some scen.now) (Some plan.now) agents problem paths → IfErr result IsOfInput }
    ensures fault { IfErr result (IsPlanning (Some map.now) (Some scen.now) (Some plan.now) agents) }
    ensures inner { IfErr result HasNoInnerMemory }
    ensures readable { IfErr result (IsReadable map.now scen.now plan.now []) }
{
    let planned = match planned_of(alloc, map, scen, agents, plan) {
        Ok(planned) => planned,
        Err(fault) => return Err(fault),
    };
    match check_plan(&planned.problem, &planned.plan) {
        Ok(cost) => Ok(cost),
        Err(fault) => Err(Fault::F3(PlayFault::Invalid(fault))),
    }
}

/// Judges the plan of a plan text alone, for the problem of the first agents of a scenario, and answers its sum of
/// costs if it is valid, and else why not. A caller in C ensures what `include/mapf.h` says of texts.
#[unsafe(no_mangle)]
pub extern "C" fn mapf_validate(
    alloc: Global,
    map: &[u8],
    scen: &[u8],
    agents: u32,
    plan: &[u8],
) -> Answer
    // A cost is that of the valid plan which the texts spell. An error is one that they have; which P error it is, is
    // only tested. A valid plan is found valid, unless a text is too long or memory runs out.
    ensures answer { IsCount agents → IsAnswerOfPlan map.now scen.now plan.now agents result }
    // Other numbers of agents than 1 to 200 are told as out of their range.
    ensures range { (IsCount agents → ⊥) → result ≡ unanswered out_of_range }
{
    if !is_count(agents) {
        return Answer::unanswered(FaultNumbers::out_of_range());
    }
    Answer::of_cost(cost_of(alloc, map, scen, agents, plan))
}
