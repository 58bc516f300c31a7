//! The call that checks a plan text and a certificate.
ghost use Rattle.std.specs.Prelude.{◌≡◌, ◌↔◌, IsTrue, IfErr, IfOk, MatchResult, Some};
ghost use Rattle.mapf_app.specs.Faults.{HasNoInnerMemory, IsChecking, IsOfInput};
ghost use Rattle.mapf_app.specs.Headline.{IsDueVerdict, JudgesTruly};
ghost use Rattle.mapf_c.specs.Answers.{unanswered};
ghost use Rattle.mapf_c.specs.Checks.{IsAnswerOfCheck, IsCount, IsReadable};
ghost use Rattle.mapf_c.specs.Faults.{out_of_range};
ghost use Rattle.mapf_checker.specs.declared.fault.Verdict.{Verdict};

use crate::numbers::{Answer, FaultNumbers};
use mapf_app::{Fault, Verdict, run_check};
use mapf_model::BytesSource;
use mapf_model::limits::MOST_AGENTS;
use std::alloc::Global;

/// Returns whether so many agents may count.
pub fn is_count(agents: u32) -> bool
    ensures { IsTrue result ↔ IsCount agents }
{
    1 <= agents && agents <= MOST_AGENTS
}

// Checks a plan text and a certificate in memory.
fn check_in_memory(
    alloc: Global,
    map: &[u8],
    scen: &[u8],
    agents: u32,
    plan: &[u8],
    cert: &[u8],
) -> Result<Verdict, Fault>
    requires { IsCount agents }
    ensures verdict { IfOk result (JudgesTruly (Some map.now) (Some scen.now) (Some plan.now) (Some cert.now) agents) }
    ensures accepted { (verdict : Verdict) →
        IsDueVerdict (Some map.now) (Some scen.now) (Some plan.now) (Some cert.now) agents verdict →
        MatchResult result (λ given. given ≡ verdict) IsOfInput }
    ensures fault { IfErr result (IsChecking (Some map.now) (Some scen.now) (Some plan.now) (Some cert.now) agents) }
    ensures inner { IfErr result HasNoInnerMemory }
    ensures readable { IfErr result (IsReadable map.now scen.now plan.now cert.now) }
{
    let mut map = BytesSource::of(map);
    let mut scen = BytesSource::of(scen);
    let mut plan = BytesSource::of(plan);
    let mut cert = BytesSource::of(cert);
    run_check(alloc, &mut map, &mut scen, agents, &mut plan, &mut cert)
}

/// Checks a plan text and a certificate for the problem of the first agents of a scenario, and answers the verdict or
/// why there is none. A caller in C ensures what `include/mapf.h` says of texts.
#[unsafe(no_mangle)]
pub extern "C" fn mapf_check(
    alloc: Global,
    map: &[u8],
    scen: &[u8],
    agents: u32,
    plan: &[u8],
    cert: &[u8],
) -> Answer
    // The verdict is true of the problem that was read, and both texts are accepted for it. An error is one that the
    // texts have; which P, K or, in version 3, C error it is, is only tested. What has to be accepted is accepted,
    // unless a text is too long or memory runs out.
    ensures answer { IsCount agents → IsAnswerOfCheck map.now scen.now plan.now cert.now agents result }
    // Other numbers of agents than 1 to 200 are told as out of their range.
    ensures range { (IsCount agents → ⊥) → result ≡ unanswered out_of_range }
{
    if !is_count(agents) {
        return Answer::unanswered(FaultNumbers::out_of_range());
    }
    Answer::of_check(check_in_memory(alloc, map, scen, agents, plan, cert))
}
