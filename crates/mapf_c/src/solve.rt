//! The call that solves a problem.
ghost use Rattle.std.specs.Prelude.{◌≡◌, ◌↔◌, IsTrue, if◌then◌else◌};
ghost use Rattle.mapf_c.specs.Answers.{unsolved};
ghost use Rattle.mapf_c.specs.Faults.{out_of_range};
ghost use Rattle.mapf_c.specs.Solves.{IsAskable, IsPut, IsSolutionOf, fit};

use crate::check::is_count;
use crate::numbers::{Answer, FaultNumbers, Question, Solution};
use crate::solving::solve_in_memory;
use mapf_model::limits::MOST_SPLITS;
use std::alloc::Global;

// The greatest number of a search.
const LAST_SEARCH: u32 = 1;

// The greatest number of improvements.
const MOST_IMPROVEMENTS: u32 = 1_000_000;

fn is_askable(question: &Question) -> bool
    ensures { IsTrue result ↔ IsAskable question.now }
{
    is_count(question.agents)
        && question.search <= LAST_SEARCH
        && question.limit <= MOST_SPLITS
        && question.improvements <= MOST_IMPROVEMENTS
}

fn flag(is_so: bool) -> u32
    ensures { result ≡ if is_so then 1 else 0 }
{
    if is_so { 1 } else { 0 }
}

// Puts both texts to the fronts of their buffers if both fit, and returns whether they do.
fn put(plan_text: &[u8], plan: &mut [u8], cert_text: &[u8], cert: &mut [u8]) -> bool
    ensures fit { result ≡ fit plan_text.now plan.old cert_text.now cert.old }
    ensures plan { IsPut result plan_text.now plan.old plan.new }
    ensures cert { IsPut result cert_text.now cert.old cert.new }
{
    let fits = plan_text.len() <= plan.len() && cert_text.len() <= cert.len();
    if fits {
        plan[..plan_text.len()].copy_from_slice(plan_text);
        cert[..cert_text.len()].copy_from_slice(cert_text);
    }
    fits
}

/// Solves the problem of the first agents of a scenario by the search that is asked for. Puts the plan text and the
/// certificate into the buffers if both fit, and tells their lengths, or why there are none. A caller in C ensures what
/// `include/mapf.h` says of texts and buffers.
#[unsafe(no_mangle)]
pub extern "C" fn mapf_solve(
    alloc: Global,
    map: &[u8],
    scen: &[u8],
    question: Question,
    plan: &mut [u8],
    cert: &mut [u8],
) -> Solution
    // The answer and both texts are true of the problem that was read, and an error is one that the map or the scenario
    // has, or memory ran out. If there is an answer and both texts fit, they are written. Else nothing is.
    ensures answer { IsAskable question →
        IsSolutionOf map.now scen.now question result plan.old plan.new cert.old cert.new }
    // A number out of its range is told, and nothing is written.
    ensures range { (IsAskable question → ⊥) →
        (result ≡ unsolved out_of_range) × (plan.new ≡ plan.old) × (cert.new ≡ cert.old) }
{
    if !is_askable(&question) {
        return Solution::unsolved(FaultNumbers::out_of_range());
    }
    match solve_in_memory(alloc, map, scen, &question) {
        Ok(written) => {
            let (plan_text, cert_text) = (written.plan.bytes(), written.cert.bytes());
            let is_written = put(plan_text, plan, cert_text, cert);
            Solution {
                answer: Answer::of_kind(written.answer.kind),
                refused: FaultNumbers::of_refused(written.answer.refused),
                is_written: flag(is_written),
                plan_length: plan_text.len(),
                cert_length: cert_text.len(),
            }
        }
        Err(fault) => Solution::unsolved(FaultNumbers::of(fault)),
    }
}
