//! How a dispatcher is made of texts in memory.
ghost use Rattle.std.specs.Prelude.{List, Some, [], ℕ, IfErr, IfOk};
ghost use Rattle.mapf_app.specs.Faults.{HasNoInnerMemory, IsOfInput, IsPlanning};
ghost use Rattle.mapf_app.specs.Planned.{IsDuePlan};
ghost use Rattle.mapf_c.specs.Checks.{IsCount, IsReadable};
ghost use Rattle.mapf_c.specs.Dispatchers.{BeginsPlan};
ghost use Rattle.mapf_model.specs.Plan.{Instance};

use crate::plan::planned_of;
use mapf_app::Fault;
use mapf_player::Dispatch;
use std::alloc::Global;

/// Returns the dispatcher of the valid plan that the texts spell. Each agent is in its first visit.
pub fn dispatch_of(
    alloc: Global,
    map: &[u8],
    scen: &[u8],
    agents: u32,
    plan: &[u8],
) -> Result<Box<Dispatch>, Fault>
    requires { IsCount agents }
    ensures found { IfOk result (λ made. BeginsPlan map.now scen.now plan.now agents made.value) }
    ensures due { (problem : Instance) (paths : List (List ℕ)) →
        IsDuePlan (Some map.now) (Some scen.now) (Some plan.now) agents problem paths → IfErr result IsOfInput }
    ensures fault { IfErr result (IsPlanning (Some map.now) (Some scen.now) (Some plan.now) agents) }
    ensures inner { IfErr result HasNoInnerMemory }
    ensures readable { IfErr result (IsReadable map.now scen.now plan.now []) }
{
    let planned = match planned_of(alloc, map, scen, agents, plan) {
        Ok(planned) => planned,
        Err(fault) => return Err(fault),
    };
    let dispatch = match Dispatch::new(alloc, &planned.plan) {
        Ok(dispatch) => dispatch,
        Err(_) => return Err(Fault::F6),
    };
    match Box::new(alloc, dispatch) {
        Ok(made) => Ok(made),
        Err(_) => Err(Fault::F6),
    }
}
