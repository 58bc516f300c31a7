//! The run of plain search: a problem is read and solved, and the plan text and the certificate are written. The demo
//! makes it over memory; the program makes that of `solve_by.rt`.
ghost use Rattle.std.specs.Prelude.{◌≡◌, ◌≤◌, ℕ, List, false, IfErr, IsSome, MatchResult};
ghost use Rattle.std.specs.Io.KnownBytes.{Appends};
ghost use Rattle.mapf_app.specs.Faults.{HasNoInnerMemory, IsOfDevices, IsOfMap, IsSolving};
ghost use Rattle.mapf_app.specs.Headline.{PrintsTruly};
ghost use Rattle.mapf_app.specs.Order.{HasReadGrid};
ghost use Rattle.mapf_app.specs.Policy.{PrintsByPolicy};
ghost use Rattle.mapf_app.specs.Problems.{SpellsProblem};
ghost use Rattle.mapf_app.specs.Runs.{ReportsSinks, WritesTexts, ReportsSource, ReportsLaterSource};
ghost use Rattle.mapf_app.specs.Solved.{Prints};
ghost use Rattle.mapf_model.specs.Limits.{most_agents, most_splits, most_text_bytes};
ghost use Rattle.mapf_model.specs.Plan.{Instance};
ghost use Rattle.mapf_words.specs.declared.job.Search.TheVariants.{Cbs};

use crate::answer_writer::write_plain;
use crate::fault::{Fault, Input};
use crate::input::read_problem;
use crate::kind::Kind;
use mapf_model::{Sink, Source, Unwatched};
use std::alloc::Global;

/// Solves the problem of the first `k` agents of a scenario with at most `limit` splits, and writes the plan text and
/// then the certificate, both in version 2. Reads the map and then the scenario. Nothing is written before all memory
/// was allocated.
pub fn run_solve<M: Source, S: Source, P: Sink, C: Sink>(
    alloc: Global,
    map: &mut M,
    scen: &mut S,
    k: u32,
    limit: u32,
    plan_sink: &mut P,
    cert_sink: &mut C,
) -> Result<Kind, Fault>
    requires works { (M.has_failed map.old ≡ false) × (S.has_failed scen.old ≡ false)
        × (P.has_failed plan_sink.old ≡ false) × (C.has_failed cert_sink.old ≡ false) }
    requires range { (1 ≤ k) × (k ≤ most_agents) × (limit ≤ most_splits) }
    // A printed plan is optimal, 'impossible' is printed only if no plan is valid, a bound only if no valid plan has a
    // smaller sum of costs, and both texts are accepted for the problem that was read. A sink that failed got a prefix
    // of such a text.
    ensures printed { WritesTexts result (PrintsTruly (M.remaining map.old) (S.remaining scen.old) k Cbs)
        (P.contents plan_sink.old) (P.contents plan_sink.new) (C.contents cert_sink.old) (C.contents cert_sink.new) }
    // These texts can be chosen so that they are also as plain conflict-based search promises. The certificate has a
    // tree of at most `limit` splits, each on the first conflict of the first cheapest paths at a node with a sum no
    // greater than that of any terminal node. A plan's paths are the first of the cheapest ones at a leaf. The tree of
    // a `limit` answer justifies its cause, and its bound is the least sum. So this clause implies `printed`, which
    // names no search.
    ensures policy { WritesTexts result (PrintsByPolicy (M.remaining map.old) (S.remaining scen.old) k limit)
        (P.contents plan_sink.old) (P.contents plan_sink.new) (C.contents cert_sink.old) (C.contents cert_sink.new) }
    // If the map and the scenario spell a problem, it is solved, unless a device fails, an input is too long or memory
    // runs out. As they spell no other, it is the problem of `policy`.
    ensures due { (problem : Instance) → IsSome (M.remaining map.old) → IsSome (S.remaining scen.old) →
        SpellsProblem (M.remaining map.old) (S.remaining scen.old) k problem →
        MatchResult result (λ kind. (plan_text : List ℕ) × (cert_text : List ℕ)
        × Prints Cbs problem kind plan_text cert_text
        × Appends (P.contents plan_sink.old) (P.contents plan_sink.new) plan_text
        × Appends (C.contents cert_sink.old) (C.contents cert_sink.new) cert_text) IsOfDevices }
    // Each reported error is one that the inputs have, and its location is correct.
    ensures fault { IfErr result (IsSolving (M.remaining map.old) (S.remaining scen.old) k) }
    // Out of memory is `F6`, and inside no other error.
    ensures inner { IfErr result HasNoInnerMemory }
    // An error of a source is reported only if the source failed or gave more bytes than its limit, and always if the
    // source failed. No input with more bytes than its limit is accepted. The scenario is read only after the map was
    // read whole and accepted.
    ensures map { ReportsSource result Input.Map most_text_bytes
        (M.has_failed map.new) (M.remaining map.old) (M.remaining map.new) }
    ensures scen { ReportsLaterSource result Input.Scen most_text_bytes
        (S.has_failed scen.new) (S.remaining scen.old) (S.remaining scen.new) (scen.new ≡ scen.old)
        IsOfMap (HasReadGrid (M.has_failed map.new) (M.remaining map.old) (M.remaining map.new)) }
    // An error of a sink is reported if and only if the sink failed. After an error of the plan text's sink the
    // certificate's is as it was. After an error that isn't one of an output nothing was written.
    ensures sinks { ReportsSinks result (P.has_failed plan_sink.new) (C.has_failed cert_sink.new)
        (plan_sink.new ≡ plan_sink.old) (cert_sink.new ≡ cert_sink.old) }
{
    let problem = read_problem(alloc, map, scen, k)?;
    write_plain(alloc, &problem, limit, &mut Unwatched, plan_sink, cert_sink)
}
