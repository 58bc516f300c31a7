//! The run of `dispatch`: agents follow a plan, and each event of a text gets its reply. The program makes it over
//! files.
ghost use Rattle.std.specs.Prelude.{◌≡◌, ◌≤◌, ◌<◌, ℕ, List, All, Ok, Err, false, true};
ghost use Rattle.std.specs.Prelude.{IfOk, IfErr, IfSome, OnOk, IsErrOf, MatchResult, Some};
ghost use Rattle.mapf_app.specs.Dispatched.{DispatchesTruly, IsDueDispatch, ShowsReplies};
ghost use Rattle.mapf_app.specs.Faults.{HasNoInnerMemory, IsDispatching, IsOfDevices, IsOfInput};
ghost use Rattle.mapf_app.specs.Faults.{IsOfMap, IsOfPlan, IsOfProblem, IsReadingEvents, fault_of_events};
ghost use Rattle.mapf_app.specs.Order.{HasReadGrid, HasReadPlan, HasReadProblem, IsReadWhole};
ghost use Rattle.mapf_app.specs.Runs.{ReportsSource, ReportsLaterSource, IsUnreadable, WritesText};
ghost use Rattle.mapf_model.specs.Limits.{most_agents, most_text_bytes};
ghost use Rattle.mapf_model.specs.Plan.{Instance};
ghost use Rattle.mapf_player.specs.Events.{SpellsEvents};

use crate::fault::{Fault, Input, Output, PlayFault};
use crate::input::read_text;
use crate::planned::{Planned, read_planned};
use mapf_model::{Failed, OutOfMemory, Sink, Source};
use mapf_player::{Dispatch, EventFault, dispatch_all, read_events};
use std::alloc::Global;

// Returns an event text's error as an error of a run.
fn fault_of_events(fault: EventFault) -> Fault
    ensures { result ≡ fault_of_events fault }
{
    match fault {
        EventFault::Memory => Fault::F6,
        _ => Fault::F3(PlayFault::Events(fault)),
    }
}

// Returns the agents that ask, one after another, in the order of the event text.
fn read_asking<E: Source>(alloc: Global, events: &mut E, k: u32) -> Result<Vec<u32>, Fault>
    requires works { E.has_failed events.old ≡ false }
    requires few { k ≤ most_agents }
    ensures found { IfOk result (λ agents. IfSome (E.remaining events.old) (λ text. SpellsEvents text k agents.items)) }
    ensures low { IfOk result (λ agents. All (λ agent. agent < k) agents.items) }
    ensures only { (text agents : List ℕ) → E.remaining events.old ≡ Some text → SpellsEvents text k agents →
        IfOk result (λ read. read.items ≡ agents) × IfErr result IsOfInput }
    ensures read { OnOk result
        (IsReadWhole (E.has_failed events.new) (E.remaining events.old) (E.remaining events.new)) }
    ensures fault { IfErr result (IsReadingEvents (E.remaining events.old) k) }
    ensures inner { IfErr result HasNoInnerMemory }
    ensures failed { E.has_failed events.new ≡ true → IsErrOf result (Fault.F4 Input.Events) }
    ensures unreadable { IsErrOf result (Fault.F4 Input.Events) →
        IsUnreadable (E.has_failed events.new) (E.remaining events.old) (E.remaining events.new) most_text_bytes }
{
    let text = read_text(alloc, events, Input::Events)?;
    match read_events(alloc, text.as_slice(), k) {
        Ok(agents) => Ok(agents),
        Err(fault) => Err(fault_of_events(fault)),
    }
}

/// Lets the first `k` agents of a scenario follow a plan, and writes for each event in order the reply to the agent
/// that asks to move on. Reads the map, the scenario, the plan text and the event text. After an error of one of
/// these, or of memory, the sink is as it was.
pub fn run_dispatch<M: Source, S: Source, P: Source, E: Source, K: Sink>(
    alloc: Global,
    map: &mut M,
    scen: &mut S,
    k: u32,
    plan: &mut P,
    events: &mut E,
    sink: &mut K,
) -> Result<(), Fault>
    requires works { (M.has_failed map.old ≡ false) × (S.has_failed scen.old ≡ false)
        × (P.has_failed plan.old ≡ false) × (E.has_failed events.old ≡ false) × (K.has_failed sink.old ≡ false) }
    requires range { (1 ≤ k) × (k ≤ most_agents) }
    // What is written are the replies to the events that were read, while all agents follow the valid plan that was
    // read. An error of the sink is reported if and only if the sink failed. The sink then got a prefix of such a text.
    // After any other error it is as it was.
    ensures text { WritesText result (DispatchesTruly
        (M.remaining map.old) (S.remaining scen.old) (P.remaining plan.old) (E.remaining events.old) k)
        (K.has_failed sink.new) (K.contents sink.old) (K.contents sink.new) (sink.new ≡ sink.old) }
    // If the texts spell events and a valid plan, the replies are written, unless a device fails, an input is too long
    // or memory runs out.
    ensures due { (problem : Instance) (paths : List (List ℕ)) (agents : List ℕ) →
        IsDueDispatch (M.remaining map.old) (S.remaining scen.old) (P.remaining plan.old) (E.remaining events.old) k
        problem paths agents →
        MatchResult result
        (λ _. ShowsReplies problem paths agents (K.contents sink.old) (K.contents sink.new)) IsOfDevices }
    // Each reported error is one that the inputs have. For the map, the scenario, an invalid plan and the events its
    // location is correct too.
    ensures fault { IfErr result (IsDispatching
        (M.remaining map.old) (S.remaining scen.old) (P.remaining plan.old) (E.remaining events.old) k) }
    // Out of memory is `F6`, and inside no other error.
    ensures inner { IfErr result HasNoInnerMemory }
    // An error of a source is reported only if the source failed or gave more bytes than its limit, and always if the
    // source failed. No input with more bytes than its limit is accepted. Each input is read only after those before it
    // were read whole and accepted.
    ensures map { ReportsSource result Input.Map most_text_bytes
        (M.has_failed map.new) (M.remaining map.old) (M.remaining map.new) }
    ensures scen { ReportsLaterSource result Input.Scen most_text_bytes
        (S.has_failed scen.new) (S.remaining scen.old) (S.remaining scen.new) (scen.new ≡ scen.old)
        IsOfMap (HasReadGrid (M.has_failed map.new) (M.remaining map.old) (M.remaining map.new)) }
    ensures plan { ReportsLaterSource result Input.Plan most_text_bytes
        (P.has_failed plan.new) (P.remaining plan.old) (P.remaining plan.new) (plan.new ≡ plan.old)
        IsOfProblem (HasReadProblem (M.has_failed map.new) (M.remaining map.old) (M.remaining map.new)
        (S.has_failed scen.new) (S.remaining scen.old) (S.remaining scen.new) k) }
    ensures events { ReportsLaterSource result Input.Events most_text_bytes
        (E.has_failed events.new) (E.remaining events.old) (E.remaining events.new) (events.new ≡ events.old)
        IsOfPlan (HasReadPlan (M.has_failed map.new) (M.remaining map.old) (M.remaining map.new)
        (S.has_failed scen.new) (S.remaining scen.old) (S.remaining scen.new)
        (P.has_failed plan.new) (P.remaining plan.old) (P.remaining plan.new) k) }
{
    let Planned { problem, plan } = read_planned(alloc, map, scen, k, plan)?;
    let agents = read_asking(alloc, events, k)?;
    let mut dispatch = match Dispatch::new(alloc, &plan) {
        Ok(dispatch) => dispatch,
        Err(OutOfMemory) => return Err(Fault::F6),
    };
    match dispatch_all(&mut dispatch, problem.grid(), agents.as_slice(), sink) {
        Ok(()) => Ok(()),
        Err(Failed) => Err(Fault::F5(Output::Out)),
    }
}
