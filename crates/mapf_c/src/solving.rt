//! The run that solves a problem, over texts in memory.
ghost use Rattle.std.specs.Prelude.{◌≡◌, IfErr, IfOk};
ghost use Rattle.mapf_c.specs.Solves.{IsAskable, IsHindrance, IsTrueAnswer, of_memory, search_of};

use crate::numbers::Question;
use crate::text_sink::TextSink;
use mapf_app::{Answered, Asked, Fault, Search, run_solve_by};
use mapf_model::{BytesSource, Unwatched};
use std::alloc::Global;

// The number of plain search.
const CBS: u32 = 0;

/// An answer with its two texts.
#[derive(Drop)]
pub struct Written {
    pub answer: Answered,
    pub plan: TextSink,
    pub cert: TextSink,
}

// Returns the search of this number.
fn search_of(number: u32) -> Search
    ensures { result ≡ search_of number }
{
    if number == CBS {
        Search::Cbs
    } else {
        Search::Cbsh
    }
}

// Returns the error. A text that couldn't be written found no memory.
fn of_memory(fault: Fault) -> Fault
    ensures { result ≡ of_memory fault }
{
    match fault {
        Fault::F5(_) => Fault::F6,
        fault => fault,
    }
}

/// Solves the problem of the first agents of a scenario by the search that is asked for, and returns its answer and
/// both texts, or why there are none.
pub fn solve_in_memory(
    alloc: Global,
    map: &[u8],
    scen: &[u8],
    question: &Question,
) -> Result<Written, Fault>
    requires { IsAskable question.now }
    // The answer and the texts are true of the problem that was read.
    ensures answer { IfOk result (λ written.
        IsTrueAnswer map.now scen.now question.now written.answer written.plan.0 written.cert.0) }
    // An error is one that the texts have, or memory ran out.
    ensures fault { IfErr result (IsHindrance map.now scen.now question.now.agents) }
{
    let mut map = BytesSource::of(map);
    let mut scen = BytesSource::of(scen);
    let mut plan = TextSink::new(alloc);
    let mut cert = TextSink::new(alloc);
    let asked = Asked {
        search: search_of(question.search),
        k: question.agents,
        limit: question.limit,
        improvements: question.improvements,
        watcher: &mut Unwatched,
    };
    match run_solve_by(alloc, &mut map, &mut scen, asked, &mut plan, &mut cert) {
        Ok(answer) => Ok(Written { answer, plan, cert }),
        Err(fault) => Err(of_memory(fault)),
    }
}
