//! The run of `follow`: agents follow a plan, and each request gets its answer as it comes. The program makes it over
//! files and the standard streams.
ghost use Rattle.std.specs.Prelude.{◌≡◌, ◌≤◌, ◌↔◌, ℕ, List, true, false, IfErr, IsErrOf};
ghost use Rattle.mapf_app.specs.Faults.{HasNoInnerMemory, IsOfMap, IsOfProblem};
ghost use Rattle.mapf_app.specs.Followed.{EndsFollowing, Follows, IsFollowing, IsOfRequests, fault_of_end};
ghost use Rattle.mapf_app.specs.Order.{HasReadGrid, HasReadPlan, HasReadProblem};
ghost use Rattle.mapf_app.specs.Planned.{IsDuePlan};
ghost use Rattle.mapf_app.specs.Runs.{IsUnreadable, ReportsSource, ReportsLaterSource};
ghost use Rattle.mapf_model.specs.Limits.{most_agents, most_text_bytes};
ghost use Rattle.mapf_model.specs.Plan.{Instance};
ghost use Rattle.mapf_player.specs.Following.{most_request_bytes};

use crate::fault::{Fault, Input, Output, PlayFault};
use crate::planned::{Planned, read_planned};
use mapf_model::{OutOfMemory, Sink, Source};
use mapf_player::{Dispatch, FollowFault, follow};
use std::alloc::Global;

// Returns why no more requests are answered as an error of a run.
fn fault_of_end(end: FollowFault) -> Fault
    ensures { result ≡ fault_of_end end }
{
    match end {
        FollowFault::Events(fault) => Fault::F3(PlayFault::Events(fault)),
        FollowFault::Requests => Fault::F4(Input::Events),
        FollowFault::Replies => Fault::F5(Output::Out),
    }
}

/// Lets the first `k` agents of a scenario follow a plan, and answers their requests as they come, until the line `end`
/// or the end of the requests. Reads the map, the scenario and the plan text first, and takes all memory that it needs.
/// From the first request on it takes none. After an error of these three, or of memory, no request was read and nothing
/// was written.
pub fn run_follow<M: Source, S: Source, P: Source, R: Source, K: Sink>(
    alloc: Global,
    map: &mut M,
    scen: &mut S,
    k: u32,
    plan: &mut P,
    requests: &mut R,
    sink: &mut K,
) -> Result<(), Fault>
    requires works { (M.has_failed map.old ≡ false) × (S.has_failed scen.old ≡ false)
        × (P.has_failed plan.old ≡ false) × (R.has_failed requests.old ≡ false) × (K.has_failed sink.old ≡ false) }
    requires range { (1 ≤ k) × (k ≤ most_agents) }
    // The requests that came were answered while all agents follow the valid plan that was read, and whatever they are,
    // no two agents are ever in one cell, and each enters the cells of its path in their order. The run ends as the
    // requests and the devices make it end. After an error that comes before the requests none was read and nothing
    // written.
    ensures followed { EndsFollowing (Follows (M.remaining map.old) (S.remaining scen.old) (P.remaining plan.old) k
        (R.remaining requests.old) (R.remaining requests.new) (K.contents sink.old) (K.contents sink.new))
        ((requests.new ≡ requests.old) × (sink.new ≡ sink.old)) result }
    // If the plan text spells a valid plan, an error is one of the requests, of a device or of memory.
    ensures due { (problem : Instance) (paths : List (List ℕ)) →
        IsDuePlan (M.remaining map.old) (S.remaining scen.old) (P.remaining plan.old) k problem paths →
        IfErr result IsOfRequests }
    // Each reported error is one that the first three inputs have; of the requests `followed` says it. For the map, the
    // scenario and an invalid plan its location is correct too.
    ensures fault { IfErr result (IsFollowing (M.remaining map.old) (S.remaining scen.old) (P.remaining plan.old) k) }
    // Out of memory is `F6`, and inside no other error.
    ensures inner { IfErr result HasNoInnerMemory }
    // An error of a source is reported only if the source failed or gave more bytes than its limit, and always if the
    // source failed. No map, scenario or plan text with more bytes than its limit is accepted. Each input is read only
    // after those before it were read whole and accepted.
    ensures map { ReportsSource result Input.Map most_text_bytes
        (M.has_failed map.new) (M.remaining map.old) (M.remaining map.new) }
    ensures scen { ReportsLaterSource result Input.Scen most_text_bytes
        (S.has_failed scen.new) (S.remaining scen.old) (S.remaining scen.new) (scen.new ≡ scen.old)
        IsOfMap (HasReadGrid (M.has_failed map.new) (M.remaining map.old) (M.remaining map.new)) }
    ensures plan { ReportsLaterSource result Input.Plan most_text_bytes
        (P.has_failed plan.new) (P.remaining plan.old) (P.remaining plan.new) (plan.new ≡ plan.old)
        IsOfProblem (HasReadProblem (M.has_failed map.new) (M.remaining map.old) (M.remaining map.new)
        (S.has_failed scen.new) (S.remaining scen.old) (S.remaining scen.new) k) }
    ensures requests { IsErrOf result (Fault.F4 Input.Events) →
        IsUnreadable (R.has_failed requests.new) (R.remaining requests.old) (R.remaining requests.new)
        most_request_bytes }
    ensures failed { R.has_failed requests.new ≡ true → IsErrOf result (Fault.F4 Input.Events) }
    ensures order { (HasReadPlan (M.has_failed map.new) (M.remaining map.old) (M.remaining map.new)
        (S.has_failed scen.new) (S.remaining scen.old) (S.remaining scen.new)
        (P.has_failed plan.new) (P.remaining plan.old) (P.remaining plan.new) k → ⊥) → requests.new ≡ requests.old }
    // An error of the sink is reported if and only if it failed.
    ensures sink { IsErrOf result (Fault.F5 Output.Out) ↔ (K.has_failed sink.new ≡ true) }
{
    let Planned { problem, plan } = read_planned(alloc, map, scen, k, plan)?;
    let dispatch = match Dispatch::new(alloc, &plan) {
        Ok(dispatch) => dispatch,
        Err(OutOfMemory) => return Err(Fault::F6),
    };
    match follow(dispatch, problem.grid(), requests, sink) {
        Ok(()) => Ok(()),
        Err(end) => Err(fault_of_end(end)),
    }
}
