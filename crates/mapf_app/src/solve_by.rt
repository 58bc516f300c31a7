//! The run of `solve` by a search of the user's choice. What the second search answers is checked before it is written.
ghost use Rattle.std.specs.Prelude.{◌≡◌, ◌≢◌, ◌≤◌, ℕ, List, false, IfErr, IfOk, IfSome, IsSome, MatchResult};
ghost use Rattle.std.specs.Io.KnownBytes.{Appends};
ghost use Rattle.mapf_app.specs.Answered.{IsLimitedBy, IsOfPlainSearch, answering};
ghost use Rattle.mapf_app.specs.Checked.{HasNoCheckMemory};
ghost use Rattle.mapf_app.specs.Faults.{HasNoInnerMemory, IsOfDevices, IsOfMap, IsSolving};
ghost use Rattle.mapf_app.specs.Headline.{PrintsTruly};
ghost use Rattle.mapf_app.specs.Order.{HasReadGrid};
ghost use Rattle.mapf_app.specs.Policy.{PrintsByPolicy};
ghost use Rattle.mapf_app.specs.Problems.{SpellsProblem};
ghost use Rattle.mapf_app.specs.Runs.{ReportsSinks, WritesTexts, ReportsSource, ReportsLaterSource};
ghost use Rattle.mapf_app.specs.Solved.{Prints};
ghost use Rattle.mapf_model.specs.Limits.{most_agents, most_splits, most_text_bytes};
ghost use Rattle.mapf_model.specs.Plan.{Instance};
ghost use Rattle.mapf_words.specs.declared.job.Search.TheVariants.{Cbs};

use crate::answer_writer::{Answered, with_refusal, write_by_cbsh, write_plain};
use crate::checked::Effort;
use crate::fault::{Fault, Input};
use crate::input::read_problem;
use mapf_model::{Sink, Source, Watcher};
use mapf_words::Search;
use std::alloc::Global;

/// What a run is asked for.
#[derive(Drop)]
pub struct Asked<'w, W: Watcher> {
    pub search: Search,
    /// How many agents count: 1 to 200.
    pub k: u32,
    /// How many splits the search may make: 0 to 100,000; the second search may make 300 all the same.
    pub limit: u32,
    /// How many improvements of its first plan the second search tries: 0 to 1,000,000.
    pub improvements: u32,
    /// Who is told how far the search is.
    pub watcher: &'w mut W,
}

/// Solves the problem of the first agents of a scenario by the search that is asked for, and writes the plan text, in
/// version 2, and then the certificate: that of plain search in version 2, that of the second search in version 3.
/// Reads the map and then the scenario. Nothing is written before all memory was allocated. What the second search
/// answers is checked before it is written; if it is refused, plain search solves the problem with the same limit.
pub fn run_solve_by<W: Watcher, M: Source, S: Source, P: Sink, C: Sink>(
    alloc: Global,
    map: &mut M,
    scen: &mut S,
    asked: Asked<'_, W>,
    plan_sink: &mut P,
    cert_sink: &mut C,
) -> Result<Answered, Fault>
    requires works { (M.has_failed map.old ≡ false) × (S.has_failed scen.old ≡ false)
        × (P.has_failed plan_sink.old ≡ false) × (C.has_failed cert_sink.old ≡ false) }
    requires range { (1 ≤ asked.k) × (asked.k ≤ most_agents) × (asked.limit ≤ most_splits) }
    // A printed plan is optimal, or valid beside a bound; 'impossible' is printed only if no plan is valid, a bound
    // only if no valid plan has a smaller sum of costs, and both texts are accepted for the problem that was read. The
    // certificate is of version 2 if the answer is plain search's, and else of version 3. A sink that failed got a
    // prefix of such a text.
    ensures printed { WritesTexts result
        (λ answer. PrintsTruly (M.remaining map.old) (S.remaining scen.old) asked.entry.k
        (answering asked.entry.search answer.refused) answer.kind)
        (P.contents plan_sink.old) (P.contents plan_sink.new) (C.contents cert_sink.old) (C.contents cert_sink.new) }
    // If the answer is plain search's, these texts can be chosen so that they are also as `run_solve` promises.
    ensures policy { WritesTexts result (λ answer plan cert. IsOfPlainSearch asked.entry.search answer →
        PrintsByPolicy (M.remaining map.old) (S.remaining scen.old) asked.entry.k asked.entry.limit
        answer.kind plan cert)
        (P.contents plan_sink.old) (P.contents plan_sink.new) (C.contents cert_sink.old) (C.contents cert_sink.new) }
    // An answer that names a number of splits names the limit.
    ensures limit { IfOk result (λ answer. IsLimitedBy asked.entry.limit answer.kind) }
    // Nothing is refused before the answer if plain search was asked for. Want of memory is no refusal.
    ensures refused { IfOk result (λ answer. IfSome answer.refused
        (λ refusal. HasNoCheckMemory refusal × (asked.entry.search ≢ Cbs))) }
    // If the map and the scenario spell a problem, it is answered, unless a device fails, an input is too long or
    // memory runs out.
    ensures due { (problem : Instance) → IsSome (M.remaining map.old) → IsSome (S.remaining scen.old) →
        SpellsProblem (M.remaining map.old) (S.remaining scen.old) asked.entry.k problem →
        MatchResult result (λ answer. (plan_text : List ℕ) × (cert_text : List ℕ)
        × Prints (answering asked.entry.search answer.refused) problem answer.kind plan_text cert_text
        × Appends (P.contents plan_sink.old) (P.contents plan_sink.new) plan_text
        × Appends (C.contents cert_sink.old) (C.contents cert_sink.new) cert_text) IsOfDevices }
    // Each reported error is one that the inputs have, and its location is correct.
    ensures fault { IfErr result (IsSolving (M.remaining map.old) (S.remaining scen.old) asked.entry.k) }
    // Out of memory is `F6`, and inside no other error.
    ensures inner { IfErr result HasNoInnerMemory }
    // An error of a source is reported only if the source failed or gave more bytes than its limit, and always if the
    // source failed. No input with more bytes than its limit is accepted. The scenario is read only after the map was
    // read whole and accepted.
    ensures map { ReportsSource result Input.Map most_text_bytes
        (M.has_failed map.new) (M.remaining map.old) (M.remaining map.new) }
    ensures scen { ReportsLaterSource result Input.Scen most_text_bytes
        (S.has_failed scen.new) (S.remaining scen.old) (S.remaining scen.new) (scen.new ≡ scen.old)
        IsOfMap (HasReadGrid (M.has_failed map.new) (M.remaining map.old) (M.remaining map.new)) }
    // An error of a sink is reported if and only if the sink failed. After an error of the plan text's sink the
    // certificate's is as it was. After an error that isn't one of an output nothing was written.
    ensures sinks { ReportsSinks result (P.has_failed plan_sink.new) (C.has_failed cert_sink.new)
        (plan_sink.new ≡ plan_sink.old) (cert_sink.new ≡ cert_sink.old) }
{
    let problem = read_problem(alloc, map, scen, asked.k)?;
    match asked.search {
        Search::Cbs => with_refusal(
            write_plain(
                alloc,
                &problem,
                asked.limit,
                asked.watcher,
                plan_sink,
                cert_sink,
            ),
            None,
        ),
        Search::Cbsh => write_by_cbsh(
            alloc,
            &problem,
            Effort {
                limit: asked.limit,
                improvements: asked.improvements,
            },
            asked.watcher,
            plan_sink,
            cert_sink,
        ),
    }
}
