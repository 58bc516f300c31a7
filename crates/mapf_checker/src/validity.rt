//! The check of plans: is the plan valid, and what does it cost? The judge of a plan text calls it, and so do the runs
//! of `play`, `dispatch` and `follow`, that of the second search, and the calls for C.
ghost use Rattle.std.specs.Prelude.{◌≡◌, ◌↔◌, length, IfOk, OnOk, IfErr, IsOk};
ghost use Rattle.mapf_model.specs.Plan.{IsValid, IsSumOfCosts};
ghost use Rattle.mapf_checker.specs.Defects.{HasDefect, AreLawful, path_fault_of};

use crate::conflicts::first_conflict;
use crate::lawful::{PathFault, check_path};
use crate::plan_fault::PlanFault;
use mapf_model::{Path, Plan, Problem};

/// Returns the sum of costs of a valid plan, in ticks, or the first error. The paths are checked in the order of the
/// agents, each by its start, its steps and its end. Then comes the first conflict: the least tick, at a tick vertex
/// conflicts before swapping conflicts, then the least agents.
pub fn check_plan(problem: &Problem, plan: &Plan) -> Result<u64, PlanFault>
    requires { length plan.now ≡ length problem.now.agents }
    // Ok is returned if and only if the plan is valid.
    ensures valid { IsOk result ↔ IsValid problem.now plan.now }
    // The sum is its sum of costs.
    ensures sum { IfOk result (IsSumOfCosts problem.now.agents plan.now) }
    // The reported error location is correct.
    ensures fault { IfErr result (HasDefect problem.now plan.now) }
{
    check_paths(problem, plan.paths())?;
    if let Some(fault) = first_conflict(plan.paths()) {
        return Err(fault);
    }
    match plan.sum(problem) {
        Some(sum) => Ok(sum),
        None => unreachable!(),
    }
}

// Checks that each agent's path is lawful. Returns the first error of the first path that isn't.
fn check_paths(problem: &Problem, paths: &[Path]) -> Result<(), PlanFault>
    requires { length paths.now ≡ length problem.now.agents }
    ensures lawful { OnOk result (AreLawful problem.now paths.now (length paths.now)) }
    ensures fault { IfErr result (HasDefect problem.now paths.now) }
{
    let agents = problem.agents();
    for i in 0..agents.len() {
        if let Err(fault) = check_path(problem.grid(), &agents[i], &paths[i]) {
            return Err(fault_of_path(i as u32, fault));
        }
    }
    Ok(())
}

fn fault_of_path(agent: u32, fault: PathFault) -> PlanFault
    ensures { result ≡ path_fault_of agent fault }
{
    match fault {
        PathFault::WrongStart => PlanFault::V1 { agent },
        PathFault::BadStep { tick } => PlanFault::V2 { agent, tick },
        PathFault::WrongGoal => PlanFault::V3 { agent },
    }
}
