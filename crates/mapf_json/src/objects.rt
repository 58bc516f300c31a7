//! The object of each answer, of each verdict, of each refusal and of each error.
ghost use Rattle.std.specs.Prelude.{◌≡◌};
ghost use Rattle.mapf_json.specs.Answers.{kind_object, verdict_object};
ghost use Rattle.mapf_json.specs.Faults.{cert_object, fault_object, input_object, map_object, memory_object};
ghost use Rattle.mapf_json.specs.Faults.{output_object, plan_object, plan_text_object, refusal_object};
ghost use Rattle.mapf_json.specs.Faults.{scenario_object};
ghost use Rattle.mapf_json.specs.Written.{object_text};

use crate::object::Object;
use mapf_app::{
    CertFault, CheckFault, Fault, Input, Kind, MapFault, Output, PlanFault, PlanTextFault,
    ScenFault, Verdict,
};
use mapf_model::Cause;

/// Returns the object of an answer of `solve`.
pub fn of_kind(kind: Kind) -> Object
    ensures { object_text result ≡ kind_object kind }
{
    match kind {
        Kind::Found(cost) => Object::of("cost").with("cost", cost),
        Kind::Impossible => Object::of("impossible"),
        Kind::Limit {
            cause: Cause::Splits(splits),
            bound,
        } => Object::of("limit")
            .coded("cause", "splits")
            .with("splits", splits as u64)
            .and("bound", bound),
        Kind::Limit {
            cause: Cause::Ticks,
            bound,
        } => Object::of("limit")
            .coded("cause", "ticks")
            .with("bound", bound),
        Kind::Within { bound, cost } => Object::of("within").with("bound", bound).and("cost", cost),
    }
}

/// Returns the object of a verdict of `check`.
pub fn of_verdict(verdict: Verdict) -> Object
    ensures { object_text result ≡ verdict_object verdict }
{
    match verdict {
        Verdict::Optimal(cost) => Object::of("optimal").with("cost", cost),
        Verdict::Within { bound, cost } => Object::of("within")
            .with("bound", bound)
            .and("cost", cost),
        Verdict::Bound(bound) => Object::of("bound").with("bound", bound),
        Verdict::Impossible => Object::of("impossible"),
    }
}

/// Returns the object of an error or of a refusal.
pub fn of_fault(fault: Fault) -> Object
    ensures { object_text result ≡ fault_object fault }
{
    match fault {
        Fault::F1(fault) => of_map(fault),
        Fault::F2(fault) => of_scenario(fault),
        Fault::F3(_) => Object::of("fault").coded("fault", "F3"),
        Fault::F4(input) => of_input(input),
        Fault::F5(output) => of_output(output),
        Fault::F6 => of_memory(),
        Fault::Refused(refusal) => of_refusal(refusal),
    }
}

fn of_memory() -> Object
    ensures { object_text result ≡ memory_object }
{
    Object::of("fault").coded("fault", "F6")
}

fn of_map(fault: MapFault) -> Object
    ensures { object_text result ≡ map_object fault }
{
    let map = Object::of("fault").coded("fault", "F1").about("map");
    match fault {
        MapFault::M1 => map.naming("M1"),
        MapFault::M2 => map.naming("M2"),
        MapFault::M3 => map.naming("M3"),
        MapFault::M4 { line } => map.naming("M4").with("line", line as u64),
        MapFault::M5 => map.naming("M5"),
        MapFault::M6 { row } => map.naming("M6").with("row", row as u64),
        MapFault::M7 { x, y } => map
            .naming("M7")
            .with("column", x as u64)
            .and("row", y as u64),
        MapFault::M8 { rows } => map.naming("M8").with("rows", rows as u64),
        MapFault::M9 { line } => map.naming("M9").with("line", line),
        MapFault::Memory => of_memory(),
    }
}

fn of_scenario(fault: ScenFault) -> Object
    ensures { object_text result ≡ scenario_object fault }
{
    let scen = Object::of("fault").coded("fault", "F2").about("scen");
    match fault {
        ScenFault::S1 => scen.naming("S1"),
        ScenFault::S2 { row } => scen.naming("S2").with("row", row as u64),
        ScenFault::S3 { row, field } => scen
            .naming("S3")
            .with("row", row as u64)
            .and("field", field as u64),
        ScenFault::S4 { row } => scen.naming("S4").with("row", row as u64),
        ScenFault::S5 { row } => scen.naming("S5").with("row", row as u64),
        ScenFault::S6 { row } => scen.naming("S6").with("row", row as u64),
        ScenFault::S7 { rows } => scen.naming("S7").with("rows", rows as u64),
        ScenFault::Memory => of_memory(),
    }
}

fn of_input(input: Input) -> Object
    ensures { object_text result ≡ input_object input }
{
    let unread = Object::of("fault").coded("fault", "F4");
    match input {
        Input::Map => unread.about("map"),
        Input::Scen => unread.about("scen"),
        Input::Plan => unread.about("plan"),
        Input::Cert => unread.about("cert"),
        Input::Events => unread.about("events"),
    }
}

fn of_output(output: Output) -> Object
    ensures { object_text result ≡ output_object output }
{
    let unwritten = Object::of("fault").coded("fault", "F5");
    match output {
        Output::Plan => unwritten.about("plan"),
        Output::Cert => unwritten.about("cert"),
        Output::Out => unwritten.about("out"),
    }
}

fn of_refusal(refusal: CheckFault) -> Object
    ensures { object_text result ≡ refusal_object refusal }
{
    let refused = Object::of("refused");
    match refusal {
        CheckFault::C1(fault) => of_plan_text(fault),
        CheckFault::C2(fault) => of_certificate(fault),
        CheckFault::C3 => refused.coded("refusal", "C3"),
        CheckFault::C4 => refused.coded("refusal", "C4"),
        CheckFault::C5(fault) => of_plan(fault),
        CheckFault::C6(line) => refused
            .coded("refusal", "C6")
            .about("cert")
            .with("line", line),
        CheckFault::C7(line) => refused
            .coded("refusal", "C7")
            .about("cert")
            .with("line", line),
        CheckFault::C8(line) => refused
            .coded("refusal", "C8")
            .about("cert")
            .with("line", line),
        CheckFault::C9(line) => refused
            .coded("refusal", "C9")
            .about("cert")
            .with("line", line),
        CheckFault::C10(line) => refused
            .coded("refusal", "C10")
            .about("cert")
            .with("line", line),
        CheckFault::Memory => of_memory(),
    }
}

fn of_plan_text(fault: PlanTextFault) -> Object
    ensures { object_text result ≡ plan_text_object fault }
{
    let text = Object::of("refused").coded("refusal", "C1").about("plan");
    match fault {
        PlanTextFault::P1(line) => text.naming("P1").with("line", line),
        PlanTextFault::P2(line) => text.naming("P2").with("line", line),
        PlanTextFault::P3(line) => text.naming("P3").with("line", line),
        PlanTextFault::P4(line) => text.naming("P4").with("line", line),
        PlanTextFault::Memory => of_memory(),
    }
}

fn of_certificate(fault: CertFault) -> Object
    ensures { object_text result ≡ cert_object fault }
{
    let cert = Object::of("refused").coded("refusal", "C2").about("cert");
    match fault {
        CertFault::K1(line) => cert.naming("K1").with("line", line),
        CertFault::K2(line) => cert.naming("K2").with("line", line),
        CertFault::K3(line) => cert.naming("K3").with("line", line),
        CertFault::K4(line) => cert.naming("K4").with("line", line),
        CertFault::Memory => of_memory(),
    }
}

fn of_plan(fault: PlanFault) -> Object
    ensures { object_text result ≡ plan_object fault }
{
    let plan = Object::of("refused").coded("refusal", "C5").about("plan");
    match fault {
        PlanFault::V1 { agent } => plan.naming("V1").with("agent", agent as u64),
        PlanFault::V2 { agent, tick } => plan
            .naming("V2")
            .with("agent", agent as u64)
            .and("tick", tick as u64),
        PlanFault::V3 { agent } => plan.naming("V3").with("agent", agent as u64),
        PlanFault::V4 { i, j, tick } => plan
            .naming("V4")
            .with("agent", i as u64)
            .and("other", j as u64)
            .and_last("tick", tick as u64),
        PlanFault::V5 { i, j, tick } => plan
            .naming("V5")
            .with("agent", i as u64)
            .and("other", j as u64)
            .and_last("tick", tick as u64),
    }
}
