//! The plan that the run by `cbsh` has before its search begins. Nothing is promised of it: it is checked before it is
//! written.
use mapf_distance::goal_tables;
use mapf_first_plan::{FirstPlan, SUCCESSORS_TO_TRY, first_plan};
use mapf_improvement::Improver;
use mapf_model::{OutOfMemory, Plan, Problem};
use std::alloc::Global;

/// A plan, and its sum of costs in ticks.
#[derive(Debug, Drop)]
pub struct PlanInHand {
    pub plan: Plan,
    pub cost: u64,
}

/// Makes a first plan, and tries so many improvements of it. None if no first plan is found within its bound, which is
/// always so where no plan is valid.
pub fn plan_in_hand(
    alloc: Global,
    problem: &Problem,
    improvements: u32,
) -> Result<Option<PlanInHand>, OutOfMemory> {
    let distances = goal_tables(alloc, problem)?;
    let plan = match first_plan(alloc, problem, &distances, SUCCESSORS_TO_TRY)? {
        FirstPlan::Found(plan) => plan,
        FirstPlan::Impossible | FirstPlan::Stopped => return Ok(None),
    };
    let mut improver = Improver::of(alloc, problem, &distances, &plan)?;
    improver.improve(u64::from(improvements), 0)?;
    Ok(Some(PlanInHand {
        plan: improver.plan()?,
        cost: improver.cost(),
    }))
}
