//! The answers of the runs of `solve`, from the search to the sinks: that of plain search, and that of the second
//! search, which is written only if the check accepts it. Nothing is written before all memory was allocated.
ghost use Rattle.std.specs.Prelude.{◌≡◌, ◌≤◌, false, IfErr, IfOk, IfSome};
ghost use Rattle.mapf_app.specs.Answered.{IsCheckedAnswer, IsLimitedBy, with_refusal};
ghost use Rattle.mapf_app.specs.Checked.{HasNoCheckMemory};
ghost use Rattle.mapf_app.specs.Faults.{IsOfWriting};
ghost use Rattle.mapf_app.specs.Policy.{IsPlainAnswer};
ghost use Rattle.mapf_app.specs.Runs.{ReportsSinks, WritesTexts};
ghost use Rattle.mapf_app.specs.Solved.{AreExactTexts, plan_bytes, cert_bytes};
ghost use Rattle.mapf_certificate.specs.Plans.{IsFew};
ghost use Rattle.mapf_model.specs.Limits.{most_splits};

use crate::checked::{Checked, Effort, Unaccepted, search_checked};
use crate::fault::{Fault, Output};
use crate::kind::Kind;
use crate::solved::{Solved, solve_problem};
use mapf_certificate::{TextWriter, Version};
use mapf_checker::CheckFault;
use mapf_model::{Problem, Sink, Watcher, write_all};
use mapf_words::Search;
use std::alloc::Global;

/// The answer of a run that solves a problem by a search of the user's choice.
#[derive(Clone, Copy, Debug, PartialEq, Eq)]
pub struct Answered {
    pub kind: Kind,
    /// Why the check refused what the second search answered, so that this is the answer of plain search. It is a
    /// defect of that search, and never `CheckFault::Memory`.
    pub refused: Option<CheckFault>,
}

// Writes the plan text and the certificate of a solved problem line by line, and returns the answer.
fn write_solved<P: Sink, C: Sink>(
    problem: &Problem,
    solved: &Solved,
    plan_sink: &mut P,
    cert_sink: &mut C,
) -> Result<Kind, Fault>
    requires works { (P.has_failed plan_sink.old ≡ false) × (C.has_failed cert_sink.old ≡ false) }
    requires few { IsFew solved.now.text.answer }
    ensures texts { WritesTexts result
        (AreExactTexts solved.now.kind (plan_bytes problem.now solved.now) (cert_bytes problem.now solved.now))
        (P.contents plan_sink.old) (P.contents plan_sink.new) (C.contents cert_sink.old) (C.contents cert_sink.new) }
    ensures sinks { ReportsSinks result (P.has_failed plan_sink.new) (C.has_failed cert_sink.new)
        (plan_sink.new ≡ plan_sink.old) (cert_sink.new ≡ cert_sink.old) }
    ensures kind { IfOk result (λ kind. kind ≡ solved.now.kind) }
    ensures fault { IfErr result IsOfWriting }
{
    let agents = problem.agents().len() as u32;
    let mut writer = TextWriter::of(problem.grid());
    if writer.plan(plan_sink, &solved.text).is_err() {
        return Err(Fault::F5(Output::Plan));
    }
    let written = writer.tree(cert_sink, Version::Two, agents, solved.claim, &solved.tree);
    if written.is_err() {
        return Err(Fault::F5(Output::Cert));
    }
    Ok(solved.kind)
}

// Writes the two texts of an answer that was checked, and returns the answer.
fn write_checked<P: Sink, C: Sink>(
    checked: &Checked,
    plan_sink: &mut P,
    cert_sink: &mut C,
) -> Result<Kind, Fault>
    requires works { (P.has_failed plan_sink.old ≡ false) × (C.has_failed cert_sink.old ≡ false) }
    ensures texts { WritesTexts result
        (AreExactTexts checked.now.kind checked.now.plan.items checked.now.cert.items)
        (P.contents plan_sink.old) (P.contents plan_sink.new) (C.contents cert_sink.old) (C.contents cert_sink.new) }
    ensures sinks { ReportsSinks result (P.has_failed plan_sink.new) (C.has_failed cert_sink.new)
        (plan_sink.new ≡ plan_sink.old) (cert_sink.new ≡ cert_sink.old) }
    ensures kind { IfOk result (λ kind. kind ≡ checked.now.kind) }
    ensures fault { IfErr result IsOfWriting }
{
    if write_all(plan_sink, checked.plan.as_slice()).is_err() {
        return Err(Fault::F5(Output::Plan));
    }
    if write_all(cert_sink, checked.cert.as_slice()).is_err() {
        return Err(Fault::F5(Output::Cert));
    }
    Ok(checked.kind)
}

/// Solves the problem by plain conflict-based search with at most `limit` splits, tells the watcher how far it is, and
/// writes both texts. Nothing is written before all memory was allocated.
pub fn write_plain<W: Watcher, P: Sink, C: Sink>(
    alloc: Global,
    problem: &Problem,
    limit: u32,
    watcher: &mut W,
    plan_sink: &mut P,
    cert_sink: &mut C,
) -> Result<Kind, Fault>
    requires works { (P.has_failed plan_sink.old ≡ false) × (C.has_failed cert_sink.old ≡ false) }
    requires few { limit ≤ most_splits }
    ensures texts { WritesTexts result (IsPlainAnswer problem.now limit)
        (P.contents plan_sink.old) (P.contents plan_sink.new) (C.contents cert_sink.old) (C.contents cert_sink.new) }
    ensures sinks { ReportsSinks result (P.has_failed plan_sink.new) (C.has_failed cert_sink.new)
        (plan_sink.new ≡ plan_sink.old) (cert_sink.new ≡ cert_sink.old) }
    ensures limit { IfOk result (IsLimitedBy limit) }
    ensures fault { IfErr result IsOfWriting }
{
    let Ok(solved) = solve_problem(alloc, problem, limit, watcher) else {
        return Err(Fault::F6);
    };
    write_solved(problem, &solved, plan_sink, cert_sink)
}

/// Returns the answer with what was refused before it.
pub fn with_refusal(
    written: Result<Kind, Fault>,
    refused: Option<CheckFault>,
) -> Result<Answered, Fault>
    ensures { result ≡ with_refusal written refused }
{
    match written {
        Ok(kind) => Ok(Answered { kind, refused }),
        Err(fault) => Err(fault),
    }
}

/// Solves the problem by the second search in the same manner, but writes both texts only if the check accepts them.
/// If it refuses them, they are dropped, and plain search solves the problem with the same limit. If memory runs out
/// before they are accepted or refused, no search answers.
pub fn write_by_cbsh<W: Watcher, P: Sink, C: Sink>(
    alloc: Global,
    problem: &Problem,
    effort: Effort,
    watcher: &mut W,
    plan_sink: &mut P,
    cert_sink: &mut C,
) -> Result<Answered, Fault>
    requires works { (P.has_failed plan_sink.old ≡ false) × (C.has_failed cert_sink.old ≡ false) }
    requires few { effort.limit ≤ most_splits }
    ensures texts { WritesTexts result (IsCheckedAnswer problem.now effort.limit)
        (P.contents plan_sink.old) (P.contents plan_sink.new) (C.contents cert_sink.old) (C.contents cert_sink.new) }
    ensures sinks { ReportsSinks result (P.has_failed plan_sink.new) (C.has_failed cert_sink.new)
        (plan_sink.new ≡ plan_sink.old) (cert_sink.new ≡ cert_sink.old) }
    ensures limit { IfOk result (λ answer. IsLimitedBy effort.limit answer.kind) }
    ensures refused { IfOk result (λ answer. IfSome answer.refused HasNoCheckMemory) }
    ensures fault { IfErr result IsOfWriting }
{
    match search_checked(alloc, problem, effort, watcher) {
        Ok(checked) => with_refusal(write_checked(&checked, plan_sink, cert_sink), None),
        Err(Unaccepted::Memory) => Err(Fault::F6),
        Err(Unaccepted::Refused(refusal)) => with_refusal(
            write_plain(alloc, problem, effort.limit, watcher, plan_sink, cert_sink),
            Some(refusal),
        ),
    }
}
