//! What the program prints for an answer, a verdict, a refused answer and each error of a run, as one line. `tell.rt`
//! and the demo write their lines here.
ghost use Rattle.std.specs.Prelude.{◌≡◌, ◌≤◌, ◌++◌, ◌⊎◌, ℕ, List, false, Some, None, OnErr, OnOk};
ghost use Rattle.std.specs.Prelude.{codes, drop, length, take};
ghost use Rattle.std.specs.Result.{is_err};
ghost use Rattle.std.specs.Io.KnownBytes.{Appends};
ghost use Rattle.mapf_app.specs.FaultLines.{cert_fault_line, event_fault_line, fault_line, map_fault_line};
ghost use Rattle.mapf_app.specs.FaultLines.{plan_fault_line, plan_text_fault_line, play_fault_line};
ghost use Rattle.mapf_app.specs.FaultLines.{refusal_line, scenario_fault_line};
ghost use Rattle.mapf_app.specs.Told.{BeginsRefused, IsRefusedLine, bound_text, defect_text, message_text};
ghost use Rattle.mapf_app.specs.Told.{number_text, rest_text, verdict_line};

use crate::fault::{Fault, Input, Output, PlayFault};
use itoa::Buffer;
use mapf_certificate::{CertFault, PlanTextFault};
use mapf_checker::{CheckFault, PlanFault, Verdict};
use mapf_fields::strip;
use mapf_model::{Failed, Sink, write_all};
use mapf_player::EventFault;
use mapf_text::{MapFault, ScenFault};

/// A line that the program prints: words, the name of an error of a text or a plan, numbers, and a bound.
#[derive(Clone, Copy, Debug, PartialEq, Eq)]
pub struct Line {
    words: &'static str,
    defect: Option<&'static str>,
    numbers: (Option<u64>, Option<u64>, Option<u64>),
    bound: Option<u64>,
}

impl Line {
    /// Returns the line with these words only.
    pub fn of(words: &'static str) -> Line
        ensures { result ≡ record { words = words.entry; defect = None; numbers = (None, None, None); bound = None } }
    {
        Line {
            words,
            defect: None,
            numbers: (None, None, None),
            bound: None,
        }
    }

    fn naming(self, defect: &'static str) -> Line
        ensures { result ≡ record self { defect = Some defect.entry } }
    {
        Line {
            defect: Some(defect),
            ..self
        }
    }

    /// Returns the line with this number.
    pub fn with(self, number: u64) -> Line
        ensures { result ≡ record self { numbers = (Some number, None, None) } }
    {
        Line {
            numbers: (Some(number), None, None),
            ..self
        }
    }

    /// Returns the line with a bound.
    pub fn bounded(self, bound: u64) -> Line
        ensures { result ≡ record self { bound = Some bound } }
    {
        Line {
            bound: Some(bound),
            ..self
        }
    }

    /// Returns the line with these two numbers.
    pub fn with_two(self, first: u64, second: u64) -> Line
        ensures { result ≡ record self { numbers = (Some first, Some second, None) } }
    {
        Line {
            numbers: (Some(first), Some(second), None),
            ..self
        }
    }

    fn with_three(self, first: u64, second: u64, third: u64) -> Line
        ensures { result ≡ record self { numbers = (Some first, Some second, Some third) } }
    {
        Line {
            numbers: (Some(first), Some(second), Some(third)),
            ..self
        }
    }

    /// Returns the line of a verdict.
    pub fn of_verdict(verdict: Verdict) -> Line
        ensures { message_text result ≡ verdict_line verdict }
    {
        match verdict {
            Verdict::Optimal(cost) => Line::of("optimal").with(cost),
            Verdict::Within { bound, cost } => Line::of("within").with_two(bound, cost),
            Verdict::Bound(bound) => Line::of("bound").with(bound),
            Verdict::Impossible => Line::of("impossible"),
        }
    }

    /// Returns the line of an error.
    pub fn of_fault(fault: Fault) -> Line
        ensures { message_text result ≡ fault_line fault }
    {
        match fault {
            Fault::F1(fault) => map_line(fault),
            Fault::F2(fault) => scenario_line(fault),
            Fault::F3(fault) => play_line(fault),
            Fault::F4(Input::Map) => Line::of("F4 map"),
            Fault::F4(Input::Scen) => Line::of("F4 scen"),
            Fault::F4(Input::Plan) => Line::of("F4 plan"),
            Fault::F4(Input::Cert) => Line::of("F4 cert"),
            Fault::F4(Input::Events) => Line::of("F4 events"),
            Fault::F5(Output::Plan) => Line::of("F5 plan"),
            Fault::F5(Output::Cert) => Line::of("F5 cert"),
            Fault::F5(Output::Out) => Line::of("F5 out"),
            Fault::F6 => Line::of("F6"),
            Fault::Refused(refusal) => refusal_line(refusal),
        }
    }
}

fn map_line(fault: MapFault) -> Line
    ensures { message_text result ≡ map_fault_line fault }
{
    match fault {
        MapFault::M1 => Line::of("F1 M1"),
        MapFault::M2 => Line::of("F1 M2"),
        MapFault::M3 => Line::of("F1 M3"),
        MapFault::M4 { line } => Line::of("F1 M4").with(line as u64),
        MapFault::M5 => Line::of("F1 M5"),
        MapFault::M6 { row } => Line::of("F1 M6").with(row as u64),
        MapFault::M7 { x, y } => Line::of("F1 M7").with_two(x as u64, y as u64),
        MapFault::M8 { rows } => Line::of("F1 M8").with(rows as u64),
        MapFault::M9 { line } => Line::of("F1 M9").with(line),
        MapFault::Memory => Line::of("F6"),
    }
}

fn scenario_line(fault: ScenFault) -> Line
    ensures { message_text result ≡ scenario_fault_line fault }
{
    match fault {
        ScenFault::S1 => Line::of("F2 S1"),
        ScenFault::S2 { row } => Line::of("F2 S2").with(row as u64),
        ScenFault::S3 { row, field } => Line::of("F2 S3").with_two(row as u64, field as u64),
        ScenFault::S4 { row } => Line::of("F2 S4").with(row as u64),
        ScenFault::S5 { row } => Line::of("F2 S5").with(row as u64),
        ScenFault::S6 { row } => Line::of("F2 S6").with(row as u64),
        ScenFault::S7 { rows } => Line::of("F2 S7").with(rows as u64),
        ScenFault::Memory => Line::of("F6"),
    }
}

fn refusal_line(refusal: CheckFault) -> Line
    ensures text { message_text result ≡ refusal_line refusal }
    ensures words { (rest : List ℕ) → refusal_line refusal ≡ codes "refused " ++ rest
        → BeginsRefused result.words.now }
{
    match refusal {
        CheckFault::C1(fault) => plan_text_line("refused C1", fault),
        CheckFault::C2(fault) => certificate_line(fault),
        CheckFault::C3 => Line::of("refused C3"),
        CheckFault::C4 => Line::of("refused C4"),
        CheckFault::C5(fault) => plan_line("refused C5", fault),
        CheckFault::C6(line) => Line::of("refused C6").with(line),
        CheckFault::C7(line) => Line::of("refused C7").with(line),
        CheckFault::C8(line) => Line::of("refused C8").with(line),
        CheckFault::C9(line) => Line::of("refused C9").with(line),
        CheckFault::C10(line) => Line::of("refused C10").with(line),
        CheckFault::Memory => Line::of("F6"),
    }
}

fn plan_text_line(words: &'static str, fault: PlanTextFault) -> Line
    ensures text { message_text result ≡ plan_text_fault_line words.entry.now fault }
    ensures words { (fault ≡ PlanTextFault.Memory) ⊎ (result.words ≡ words.entry) }
{
    match fault {
        PlanTextFault::P1(line) => Line::of(words).naming("P1").with(line),
        PlanTextFault::P2(line) => Line::of(words).naming("P2").with(line),
        PlanTextFault::P3(line) => Line::of(words).naming("P3").with(line),
        PlanTextFault::P4(line) => Line::of(words).naming("P4").with(line),
        PlanTextFault::Memory => Line::of("F6"),
    }
}

fn certificate_line(fault: CertFault) -> Line
    ensures text { message_text result ≡ cert_fault_line fault }
    ensures words { (fault ≡ CertFault.Memory) ⊎ BeginsRefused result.words.now }
{
    match fault {
        CertFault::K1(line) => Line::of("refused C2 K1").with(line),
        CertFault::K2(line) => Line::of("refused C2 K2").with(line),
        CertFault::K3(line) => Line::of("refused C2 K3").with(line),
        CertFault::K4(line) => Line::of("refused C2 K4").with(line),
        CertFault::Memory => Line::of("F6"),
    }
}

fn plan_line(words: &'static str, fault: PlanFault) -> Line
    ensures text { message_text result ≡ plan_fault_line words.entry.now fault }
    ensures words { result.words ≡ words.entry }
{
    let line = Line::of(words);
    match fault {
        PlanFault::V1 { agent } => line.naming("V1").with(agent as u64),
        PlanFault::V2 { agent, tick } => line.naming("V2").with_two(agent as u64, tick as u64),
        PlanFault::V3 { agent } => line.naming("V3").with(agent as u64),
        PlanFault::V4 { i, j, tick } => line
            .naming("V4")
            .with_three(i as u64, j as u64, tick as u64),
        PlanFault::V5 { i, j, tick } => line
            .naming("V5")
            .with_three(i as u64, j as u64, tick as u64),
    }
}

fn play_line(fault: PlayFault) -> Line
    ensures { message_text result ≡ play_fault_line fault }
{
    match fault {
        PlayFault::Text(fault) => plan_text_line("F3", fault),
        PlayFault::NoPlan => Line::of("F3 none"),
        PlayFault::OtherCount => Line::of("F3 count"),
        PlayFault::Invalid(fault) => plan_line("F3", fault),
        PlayFault::Events(fault) => event_line(fault),
    }
}

fn event_line(fault: EventFault) -> Line
    ensures { message_text result ≡ event_fault_line fault }
{
    match fault {
        EventFault::E1(line) => Line::of("F3 E1").with(line),
        EventFault::E2(line) => Line::of("F3 E2").with(line),
        EventFault::E3(line) => Line::of("F3 E3").with(line),
        EventFault::E4(line) => Line::of("F3 E4").with(line),
        EventFault::Memory => Line::of("F6"),
    }
}

// Writes a blank and the name, if there is one.
fn write_defect<K: Sink>(sink: &mut K, defect: Option<&'static str>) -> Result<(), Failed>
    requires { K.has_failed sink.old ≡ false }
    ensures text { OnOk result (Appends (K.contents sink.old) (K.contents sink.new) (defect_text defect.entry)) }
    ensures failed { K.has_failed sink.new ≡ is_err result }
    ensures prefix { OnErr result ((n : ℕ) × (n ≤ length (defect_text defect.entry))
        × Appends (K.contents sink.old) (K.contents sink.new) (take n (defect_text defect.entry))) }
{
    let Some(defect) = defect else {
        return Ok(());
    };
    write_all(sink, b" ")?;
    write_all(sink, defect.as_bytes())
}

// Writes a blank and the number, if there is one.
fn write_number<K: Sink>(sink: &mut K, number: Option<u64>) -> Result<(), Failed>
    requires { K.has_failed sink.old ≡ false }
    ensures text { OnOk result (Appends (K.contents sink.old) (K.contents sink.new) (number_text number)) }
    ensures failed { K.has_failed sink.new ≡ is_err result }
    ensures prefix { OnErr result ((n : ℕ) × (n ≤ length (number_text number))
        × Appends (K.contents sink.old) (K.contents sink.new) (take n (number_text number))) }
{
    let Some(number) = number else {
        return Ok(());
    };
    let mut buffer = Buffer::new();
    write_all(sink, b" ")?;
    write_all(sink, buffer.format(number).as_bytes())
}

// Writes the word and the bound, if there is one.
fn write_bound<K: Sink>(sink: &mut K, bound: Option<u64>) -> Result<(), Failed>
    requires { K.has_failed sink.old ≡ false }
    ensures text { OnOk result (Appends (K.contents sink.old) (K.contents sink.new) (bound_text bound)) }
    ensures failed { K.has_failed sink.new ≡ is_err result }
    ensures prefix { OnErr result ((n : ℕ) × (n ≤ length (bound_text bound))
        × Appends (K.contents sink.old) (K.contents sink.new) (take n (bound_text bound))) }
{
    let Some(bound) = bound else {
        return Ok(());
    };
    write_all(sink, b" bound")?;
    write_number(sink, Some(bound))
}

// Writes what a line says after its words, and then this end of the line.
fn write_rest<K: Sink>(sink: &mut K, line: &Line, end: &[u8]) -> Result<(), Failed>
    requires { K.has_failed sink.old ≡ false }
    ensures text { OnOk result (Appends (K.contents sink.old) (K.contents sink.new) (rest_text line.now end.now)) }
    ensures failed { K.has_failed sink.new ≡ is_err result }
    ensures prefix { OnErr result ((n : ℕ) × (n ≤ length (rest_text line.now end.now))
        × Appends (K.contents sink.old) (K.contents sink.new) (take n (rest_text line.now end.now))) }
{
    let (first, second, third) = line.numbers;
    write_defect(sink, line.defect)?;
    write_number(sink, first)?;
    write_number(sink, second)?;
    write_number(sink, third)?;
    write_bound(sink, line.bound)?;
    write_all(sink, end)
}

/// Writes the line with its LF.
pub fn write_line<K: Sink>(sink: &mut K, line: &Line) -> Result<(), Failed>
    requires { K.has_failed sink.old ≡ false }
    ensures text { OnOk result (Appends (K.contents sink.old) (K.contents sink.new) (message_text line.now)) }
    ensures failed { K.has_failed sink.new ≡ is_err result }
    ensures prefix { OnErr result ((n : ℕ) × (n ≤ length (message_text line.now))
        × Appends (K.contents sink.old) (K.contents sink.new) (take n (message_text line.now))) }
{
    write_all(sink, line.words.as_bytes())?;
    write_rest(sink, line, b"\n")
}

// Returns the words of a refusal's line without the first of them.
fn code_of(words: &[u8]) -> &[u8]
    ensures { BeginsRefused words.now → result.now ≡ drop 8 words.now }
{
    strip(words, b"refused ").unwrap_or(words)
}

/// Writes the line that says that the check refused what the second search answered, with the code of the refusal as
/// `check` prints it.
pub fn write_refused<K: Sink>(sink: &mut K, refusal: CheckFault) -> Result<(), Failed>
    requires { K.has_failed sink.old ≡ false }
    ensures text { (text : List ℕ) → IsRefusedLine refusal text
        → OnOk result (Appends (K.contents sink.old) (K.contents sink.new) text) }
    ensures failed { K.has_failed sink.new ≡ is_err result }
    ensures prefix { (text : List ℕ) → IsRefusedLine refusal text
        → OnErr result ((n : ℕ) × (n ≤ length text)
        × Appends (K.contents sink.old) (K.contents sink.new) (take n text)) }
{
    let line = refusal_line(refusal);
    write_all(sink, b"mapf: the answer of cbsh was refused (")?;
    write_all(sink, code_of(line.words.as_bytes()))?;
    write_rest(sink, &line, b"); this is the answer of cbs\n")
}
