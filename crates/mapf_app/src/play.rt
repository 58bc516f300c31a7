//! The run of `play`: a valid plan is shown tick by tick. The program makes it over files.
ghost use Rattle.std.specs.Prelude.{◌≡◌, ◌≤◌, ℕ, List, false, IfErr, MatchResult};
ghost use Rattle.mapf_app.specs.Faults.{HasNoInnerMemory, IsOfDevices, IsOfMap, IsOfProblem, IsPlaying};
ghost use Rattle.mapf_app.specs.Order.{HasReadGrid, HasReadProblem};
ghost use Rattle.mapf_app.specs.Planned.{IsDuePlan};
ghost use Rattle.mapf_app.specs.Played.{PlaysTruly, ShowsPlan};
ghost use Rattle.mapf_app.specs.Runs.{ReportsSource, ReportsLaterSource, WritesText};
ghost use Rattle.mapf_model.specs.Limits.{most_agents, most_text_bytes};
ghost use Rattle.mapf_model.specs.Plan.{Instance};

use crate::fault::{Fault, Input, Output};
use crate::planned::{Planned, read_planned};
use mapf_model::{Failed, Sink, Source};
use mapf_player::play;
use std::alloc::Global;

/// Writes where the first `k` agents of a scenario are at each tick of a plan. Reads the map, the scenario and the plan
/// text. Nothing is written before the plan was found valid.
pub fn run_play<M: Source, S: Source, P: Source, K: Sink>(
    alloc: Global,
    map: &mut M,
    scen: &mut S,
    k: u32,
    plan: &mut P,
    sink: &mut K,
) -> Result<(), Fault>
    requires works { (M.has_failed map.old ≡ false) × (S.has_failed scen.old ≡ false)
        × (P.has_failed plan.old ≡ false) × (K.has_failed sink.old ≡ false) }
    requires range { (1 ≤ k) × (k ≤ most_agents) }
    // What is written shows the valid plan that was read, for the problem that was read. An error of the sink is
    // reported if and only if the sink failed. The sink then got a prefix of such a text. After any other error it is
    // as it was.
    ensures text { WritesText result
        (PlaysTruly (M.remaining map.old) (S.remaining scen.old) (P.remaining plan.old) k)
        (K.has_failed sink.new) (K.contents sink.old) (K.contents sink.new) (sink.new ≡ sink.old) }
    // If the plan text spells a valid plan, this plan is written, unless a device fails, an input is too long or memory
    // runs out.
    ensures due { (problem : Instance) (paths : List (List ℕ)) →
        IsDuePlan (M.remaining map.old) (S.remaining scen.old) (P.remaining plan.old) k problem paths →
        MatchResult result (λ _. ShowsPlan problem paths (K.contents sink.old) (K.contents sink.new)) IsOfDevices }
    // Each reported error is one that the inputs have. For the map, the scenario and an invalid plan its location is
    // correct too.
    ensures fault { IfErr result (IsPlaying (M.remaining map.old) (S.remaining scen.old) (P.remaining plan.old) k) }
    // Out of memory is `F6`, and inside no other error.
    ensures inner { IfErr result HasNoInnerMemory }
    // An error of a source is reported only if the source failed or gave more bytes than its limit, and always if the
    // source failed. No input with more bytes than its limit is accepted. Each input is read only after those before it
    // were read whole and accepted.
    ensures map { ReportsSource result Input.Map most_text_bytes
        (M.has_failed map.new) (M.remaining map.old) (M.remaining map.new) }
    ensures scen { ReportsLaterSource result Input.Scen most_text_bytes
        (S.has_failed scen.new) (S.remaining scen.old) (S.remaining scen.new) (scen.new ≡ scen.old)
        IsOfMap (HasReadGrid (M.has_failed map.new) (M.remaining map.old) (M.remaining map.new)) }
    ensures plan { ReportsLaterSource result Input.Plan most_text_bytes
        (P.has_failed plan.new) (P.remaining plan.old) (P.remaining plan.new) (plan.new ≡ plan.old)
        IsOfProblem (HasReadProblem (M.has_failed map.new) (M.remaining map.old) (M.remaining map.new)
        (S.has_failed scen.new) (S.remaining scen.old) (S.remaining scen.new) k) }
{
    let Planned { problem, plan } = read_planned(alloc, map, scen, k, plan)?;
    match play(&problem, &plan, sink) {
        Ok(()) => Ok(()),
        Err(Failed) => Err(Fault::F5(Output::Out)),
    }
}
