//! The run that the program makes without arguments: the runs of `solve` and `check`, over memory, for a built-in
//! problem.
ghost use Rattle.std.specs.Prelude.{◌≡◌, ◌⊎◌, ◌≤◌, ◌++◌, ℕ, List, false, true, Some, IfOk, IfErr, OnOk, OnErr, IsErrOf};
ghost use Rattle.std.specs.Prelude.{length, take};
ghost use Rattle.std.specs.Result.{is_err};
ghost use Rattle.std.specs.Io.KnownBytes.{Appends};
ghost use Rattle.mapf_app.specs.Faults.{HasNoInnerMemory, IsBeforeWriting};
ghost use Rattle.mapf_app.specs.Headline.{JudgesTruly};
ghost use Rattle.mapf_app.specs.Told.{verdict_line};
ghost use Rattle.mapf_checker.specs.declared.fault.Verdict.{Verdict};

use crate::check::run_check;
use crate::fault::{Fault, Output};
use crate::line::{Line, write_line};
use crate::solve::run_solve;
use mapf_checker::Verdict;
use mapf_model::{BytesSink, BytesSource, Failed, OutOfMemory, Sink, write_all};
use std::alloc::Global;

// Four agents on an open square, each of which goes to its neighbour's cell.
const MAP: &[u8] = b"type octile\nheight 2\nwidth 2\nmap\n..\n..\n";

const SCEN: &[u8] = b"version 1\n\
0 square.map 2 2 0 0 1 0 1\n\
0 square.map 2 2 1 0 1 1 1\n\
0 square.map 2 2 1 1 0 1 1\n\
0 square.map 2 2 0 1 0 0 1\n";

const AGENTS: u32 = 4;

// The size of the memory for each of the two texts.
const ROOM: usize = 4096;

/// Solves and checks a small problem in memory, four agents that rotate on an open square of four cells, and writes its
/// plan text, its certificate and the verdict.
pub fn run_demo<K: Sink>(alloc: Global, sink: &mut K) -> Result<(), Fault>
    requires { K.has_failed sink.old ≡ false }
    // What is written is a plan text, a certificate and the verdict with which both texts are accepted for the built-in
    // problem.
    ensures text { OnOk result ((plan_text : List ℕ) × (cert_text : List ℕ) × (verdict : Verdict)
        × JudgesTruly (Some MAP.now) (Some SCEN.now) (Some plan_text) (Some cert_text) AGENTS verdict
        × Appends (K.contents sink.old) (K.contents sink.new) (plan_text ++ (cert_text ++ verdict_line verdict))) }
    // A sink that failed got a prefix of such a text.
    ensures front { IsErrOf result (Fault.F5 Output.Out) →
        (plan_text : List ℕ) × (cert_text : List ℕ) × (verdict : Verdict) × (n : ℕ)
        × JudgesTruly (Some MAP.now) (Some SCEN.now) (Some plan_text) (Some cert_text) AGENTS verdict
        × Appends (K.contents sink.old) (K.contents sink.new)
        (take n (plan_text ++ (cert_text ++ verdict_line verdict))) }
    // Out of memory is `F6`, and inside no other error.
    ensures inner { IfErr result HasNoInnerMemory }
    // An error of the sink is reported if and only if the sink failed. After any other error it is as it was.
    ensures sink { IsErrOf result (Fault.F5 Output.Out) → K.has_failed sink.new ≡ true }
    ensures sink_failed { K.has_failed sink.new ≡ true → IsErrOf result (Fault.F5 Output.Out) }
    ensures unwritten { IfErr result (λ fault. (fault ≡ Fault.F5 Output.Out) ⊎ (sink.new ≡ sink.old)) }
{
    let mut plan = sink_with_room(alloc)?;
    let mut cert = sink_with_room(alloc)?;
    let mut map = BytesSource::of(MAP);
    let mut scen = BytesSource::of(SCEN);
    run_solve(alloc, &mut map, &mut scen, AGENTS, 0, &mut plan, &mut cert)?;
    let (plan_text, cert_text) = (plan.bytes(), cert.bytes());
    let verdict = checked(alloc, plan_text, cert_text)?;
    match tell(sink, plan_text, cert_text, verdict) {
        Ok(()) => Ok(()),
        Err(Failed) => Err(Fault::F5(Output::Out)),
    }
}

fn sink_with_room(alloc: Global) -> Result<BytesSink, Fault>
    ensures works { IfOk result (λ sink. sink.2 ≡ false) }
    ensures fault { IfErr result (λ fault. fault ≡ Fault.F6) }
{
    match BytesSink::with_room(alloc, ROOM) {
        Ok(sink) => Ok(sink),
        Err(OutOfMemory) => Err(Fault::F6),
    }
}

fn checked(alloc: Global, plan: &[u8], cert: &[u8]) -> Result<Verdict, Fault>
    ensures verdict { IfOk result (JudgesTruly (Some MAP.now) (Some SCEN.now) (Some plan.now) (Some cert.now) AGENTS) }
    ensures fault { IfErr result IsBeforeWriting }
    ensures inner { IfErr result HasNoInnerMemory }
{
    let mut map = BytesSource::of(MAP);
    let mut scen = BytesSource::of(SCEN);
    let mut plan = BytesSource::of(plan);
    let mut cert = BytesSource::of(cert);
    run_check(alloc, &mut map, &mut scen, AGENTS, &mut plan, &mut cert)
}

fn tell<K: Sink>(sink: &mut K, plan: &[u8], cert: &[u8], verdict: Verdict) -> Result<(), Failed>
    requires { K.has_failed sink.old ≡ false }
    ensures text { OnOk result
        (Appends (K.contents sink.old) (K.contents sink.new) (plan.now ++ (cert.now ++ verdict_line verdict))) }
    ensures prefix { OnErr result ((n : ℕ) × (n ≤ length (plan.now ++ (cert.now ++ verdict_line verdict)))
        × Appends (K.contents sink.old) (K.contents sink.new)
        (take n (plan.now ++ (cert.now ++ verdict_line verdict)))) }
    ensures failed { K.has_failed sink.new ≡ is_err result }
{
    write_all(sink, plan)?;
    write_all(sink, cert)?;
    write_line(sink, &Line::of_verdict(verdict))
}
