//! The calls of a dispatcher.
ghost use Rattle.std.specs.Prelude.{◌≡◌, None};
ghost use Rattle.mapf_c.specs.Checks.{IsCount};
ghost use Rattle.mapf_c.specs.Dispatchers.{IsCallOf, IsMadeOf, visit_told};
ghost use Rattle.mapf_c.specs.Faults.{out_of_range};

use crate::asking::{answer_all, visit_of};
use crate::check::is_count;
use crate::handle::Dispatcher;
use crate::numbers::{FaultNumbers, ReplyNumbers, VisitNumbers};
use crate::starting::dispatch_of;
use std::alloc::Global;

/// Makes the dispatcher of a valid plan for the problem of the first agents of a scenario, or answers why there is
/// none. One that the handle had before is freed. A caller in C ensures what `include/mapf.h` says of texts and
/// dispatchers.
#[unsafe(no_mangle)]
pub extern "C" fn mapf_dispatcher_new(
    alloc: Global,
    dispatcher: &mut Dispatcher,
    map: &[u8],
    scen: &[u8],
    agents: u32,
    plan: &[u8],
) -> FaultNumbers
    // It begins the valid plan which the texts spell. An error is one that they have; which P error it is, is only
    // tested. If they spell a valid plan, it is made, unless a text is too long or memory runs out.
    ensures made { IsCount agents →
        IsMadeOf map.now scen.now plan.now agents dispatcher.new.kept.progress result }
    // Other numbers of agents than 1 to 200 are told as out of their range.
    ensures range { (IsCount agents → ⊥) → (dispatcher.new.kept.progress ≡ None) × (result ≡ out_of_range) }
{
    drop(dispatcher.take(alloc));
    if !is_count(agents) {
        return FaultNumbers::out_of_range();
    }
    match dispatch_of(alloc, map, scen, agents, plan) {
        Ok(dispatch) => {
            *dispatcher = Dispatcher::of(dispatch);
            FaultNumbers::none()
        }
        Err(fault) => FaultNumbers::of(fault),
    }
}

/// Lets agents ask one after another whether they may move on, and puts the replies into the buffer if there are as
/// many places. Returns how many were answered. A caller in C ensures what `include/mapf.h` says of dispatchers.
#[unsafe(no_mangle)]
pub extern "C" fn mapf_dispatcher_ask(
    alloc: Global,
    dispatcher: &mut Dispatcher,
    agents: &[u32],
    replies: &mut [ReplyNumbers],
) -> usize
    // Each reply is the dispatcher's, one after another. One that isn't an agent is told so, and changes nothing. If
    // the buffer is too short, nothing changes.
    ensures { IsCallOf dispatcher.old.kept.progress agents.now replies.old replies.new result
        dispatcher.new.kept.progress }
{
    let Some(mut dispatch) = dispatcher.take(alloc) else {
        return 0;
    };
    let fits = agents.len() <= replies.len();
    if fits {
        answer_all(&mut dispatch, agents, replies);
    }
    *dispatcher = Dispatcher::of(dispatch);
    if fits { agents.len() } else { 0 }
}

/// Returns how many visits an agent has, and the cell and the tick of entry of one of them. A caller in C ensures what
/// `include/mapf.h` says of dispatchers.
#[unsafe(no_mangle)]
pub extern "C" fn mapf_dispatcher_visit(
    alloc: Global,
    dispatcher: &mut Dispatcher,
    agent: u32,
    number: u32,
) -> VisitNumbers
    // The visit is the plan's.
    ensures told { result ≡ visit_told dispatcher.old.kept.progress agent number }
    // Nothing changes.
    ensures same { dispatcher.new.kept.progress ≡ dispatcher.old.kept.progress }
{
    let Some(dispatch) = dispatcher.take(alloc) else {
        return VisitNumbers::none(0);
    };
    let told = visit_of(&dispatch, agent, number);
    *dispatcher = Dispatcher::of(dispatch);
    told
}

/// Gives the memory of a dispatcher back, if there is one. A caller in C ensures what `include/mapf.h` says of
/// dispatchers.
#[unsafe(no_mangle)]
pub extern "C" fn mapf_dispatcher_free(alloc: Global, dispatcher: &mut Dispatcher)
    // There is none afterwards.
    ensures { dispatcher.new.kept.progress ≡ None }
{
    drop(dispatcher.take(alloc));
}
