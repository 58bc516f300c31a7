//! The numbers of each error and of each refusal.
ghost use Rattle.std.specs.Prelude.{◌≡◌};
ghost use Rattle.mapf_c.specs.Faults.{bare, cert_numbers, fault_numbers, input_numbers, map_numbers, none, one};
ghost use Rattle.mapf_c.specs.Faults.{out_of_range, plan_numbers, plan_text_numbers, play_numbers, refusal_numbers};
ghost use Rattle.mapf_c.specs.Faults.{scenario_numbers, three, two};

use crate::numbers::FaultNumbers;
use mapf_app::{
    CertFault, CheckFault, Fault, Input, MapFault, PlanFault, PlanTextFault, PlayFault, ScenFault,
};

// The numbers of errors and refusals.
const F1: u32 = 1;

const F2: u32 = 2;

const F3: u32 = 3;

const F4: u32 = 4;

const F6: u32 = 6;

const RANGE: u32 = 10;

const C1: u32 = 11;

const C2: u32 = 12;

const C3: u32 = 13;

const C4: u32 = 14;

const C5: u32 = 15;

const C6: u32 = 16;

const C7: u32 = 17;

const C8: u32 = 18;

const C9: u32 = 19;

const C10: u32 = 20;

// What is added to the number of an error of a text or of a plan, by its letter.
const M: u32 = 100;

const S: u32 = 200;

const P: u32 = 300;

const K: u32 = 400;

const V: u32 = 500;

const TEXT: u32 = 600;

impl FaultNumbers {
    /// Returns no error.
    pub fn none() -> FaultNumbers
        ensures { result ≡ none }
    {
        FaultNumbers::bare(0, 0)
    }

    /// Returns the error that a number of the caller's is out of its range.
    pub fn out_of_range() -> FaultNumbers
        ensures { result ≡ out_of_range }
    {
        FaultNumbers::bare(RANGE, 0)
    }

    /// Returns the numbers of an error of a run, or of a refusal.
    pub fn of(fault: Fault) -> FaultNumbers
        ensures { result ≡ fault_numbers fault }
    {
        match fault {
            Fault::F1(fault) => of_map(fault),
            Fault::F2(fault) => of_scenario(fault),
            Fault::F3(fault) => of_play(fault),
            Fault::F4(input) => of_input(input),
            Fault::F5(_) | Fault::F6 => of_memory(),
            Fault::Refused(refusal) => FaultNumbers::of_refusal(refusal),
        }
    }

    /// Returns the numbers of a refusal.
    pub fn of_refusal(refusal: CheckFault) -> FaultNumbers
        ensures { result ≡ refusal_numbers refusal }
    {
        match refusal {
            CheckFault::C1(fault) => of_plan_text(C1, fault),
            CheckFault::C2(fault) => of_certificate(fault),
            CheckFault::C3 => FaultNumbers::bare(C3, 0),
            CheckFault::C4 => FaultNumbers::bare(C4, 0),
            CheckFault::C5(fault) => of_plan(C5, fault),
            CheckFault::C6(line) => FaultNumbers::bare(C6, 0).with(line),
            CheckFault::C7(line) => FaultNumbers::bare(C7, 0).with(line),
            CheckFault::C8(line) => FaultNumbers::bare(C8, 0).with(line),
            CheckFault::C9(line) => FaultNumbers::bare(C9, 0).with(line),
            CheckFault::C10(line) => FaultNumbers::bare(C10, 0).with(line),
            CheckFault::Memory => of_memory(),
        }
    }

    fn bare(error: u32, defect: u32) -> FaultNumbers
        ensures { result ≡ bare error defect }
    {
        FaultNumbers {
            error,
            defect,
            count: 0,
            first: 0,
            second: 0,
            third: 0,
        }
    }

    fn with(self, number: u64) -> FaultNumbers
        ensures { result ≡ one self.error self.defect number }
    {
        FaultNumbers {
            count: 1,
            first: number,
            ..FaultNumbers::bare(self.error, self.defect)
        }
    }

    fn with_two(self, first: u64, second: u64) -> FaultNumbers
        ensures { result ≡ two self.error self.defect first second }
    {
        FaultNumbers {
            count: 2,
            first,
            second,
            ..FaultNumbers::bare(self.error, self.defect)
        }
    }

    fn with_three(self, first: u64, second: u64, third: u64) -> FaultNumbers
        ensures { result ≡ three self.error self.defect first second third }
    {
        FaultNumbers {
            count: 3,
            first,
            second,
            third,
            ..FaultNumbers::bare(self.error, self.defect)
        }
    }
}

fn of_memory() -> FaultNumbers
    ensures { result ≡ bare 6 0 }
{
    FaultNumbers::bare(F6, 0)
}

fn of_map(fault: MapFault) -> FaultNumbers
    ensures { result ≡ map_numbers fault }
{
    match fault {
        MapFault::M1 => FaultNumbers::bare(F1, M + 1),
        MapFault::M2 => FaultNumbers::bare(F1, M + 2),
        MapFault::M3 => FaultNumbers::bare(F1, M + 3),
        MapFault::M4 { line } => FaultNumbers::bare(F1, M + 4).with(line as u64),
        MapFault::M5 => FaultNumbers::bare(F1, M + 5),
        MapFault::M6 { row } => FaultNumbers::bare(F1, M + 6).with(row as u64),
        MapFault::M7 { x, y } => FaultNumbers::bare(F1, M + 7).with_two(x as u64, y as u64),
        MapFault::M8 { rows } => FaultNumbers::bare(F1, M + 8).with(rows as u64),
        MapFault::M9 { line } => FaultNumbers::bare(F1, M + 9).with(line),
        MapFault::Memory => of_memory(),
    }
}

fn of_scenario(fault: ScenFault) -> FaultNumbers
    ensures { result ≡ scenario_numbers fault }
{
    match fault {
        ScenFault::S1 => FaultNumbers::bare(F2, S + 1),
        ScenFault::S2 { row } => FaultNumbers::bare(F2, S + 2).with(row as u64),
        ScenFault::S3 { row, field } => {
            FaultNumbers::bare(F2, S + 3).with_two(row as u64, field as u64)
        }
        ScenFault::S4 { row } => FaultNumbers::bare(F2, S + 4).with(row as u64),
        ScenFault::S5 { row } => FaultNumbers::bare(F2, S + 5).with(row as u64),
        ScenFault::S6 { row } => FaultNumbers::bare(F2, S + 6).with(row as u64),
        ScenFault::S7 { rows } => FaultNumbers::bare(F2, S + 7).with(rows as u64),
        ScenFault::Memory => of_memory(),
    }
}

fn of_plan_text(error: u32, fault: PlanTextFault) -> FaultNumbers
    ensures { result ≡ plan_text_numbers error fault }
{
    match fault {
        PlanTextFault::P1(line) => FaultNumbers::bare(error, P + 1).with(line),
        PlanTextFault::P2(line) => FaultNumbers::bare(error, P + 2).with(line),
        PlanTextFault::P3(line) => FaultNumbers::bare(error, P + 3).with(line),
        PlanTextFault::P4(line) => FaultNumbers::bare(error, P + 4).with(line),
        PlanTextFault::Memory => of_memory(),
    }
}

fn of_certificate(fault: CertFault) -> FaultNumbers
    ensures { result ≡ cert_numbers fault }
{
    match fault {
        CertFault::K1(line) => FaultNumbers::bare(C2, K + 1).with(line),
        CertFault::K2(line) => FaultNumbers::bare(C2, K + 2).with(line),
        CertFault::K3(line) => FaultNumbers::bare(C2, K + 3).with(line),
        CertFault::K4(line) => FaultNumbers::bare(C2, K + 4).with(line),
        CertFault::Memory => of_memory(),
    }
}

fn of_plan(error: u32, fault: PlanFault) -> FaultNumbers
    ensures { result ≡ plan_numbers error fault }
{
    match fault {
        PlanFault::V1 { agent } => FaultNumbers::bare(error, V + 1).with(agent as u64),
        PlanFault::V2 { agent, tick } => {
            FaultNumbers::bare(error, V + 2).with_two(agent as u64, tick as u64)
        }
        PlanFault::V3 { agent } => FaultNumbers::bare(error, V + 3).with(agent as u64),
        PlanFault::V4 { i, j, tick } => {
            FaultNumbers::bare(error, V + 4).with_three(i as u64, j as u64, tick as u64)
        }
        PlanFault::V5 { i, j, tick } => {
            FaultNumbers::bare(error, V + 5).with_three(i as u64, j as u64, tick as u64)
        }
    }
}

// No call reads events, so their errors aren't told apart.
fn of_play(fault: PlayFault) -> FaultNumbers
    ensures { result ≡ play_numbers fault }
{
    match fault {
        PlayFault::Text(fault) => of_plan_text(F3, fault),
        PlayFault::NoPlan => FaultNumbers::bare(F3, TEXT + 5),
        PlayFault::OtherCount => FaultNumbers::bare(F3, TEXT + 6),
        PlayFault::Invalid(fault) => of_plan(F3, fault),
        PlayFault::Events(_) => FaultNumbers::bare(F3, 0),
    }
}

fn of_input(input: Input) -> FaultNumbers
    ensures { result ≡ input_numbers input }
{
    match input {
        Input::Map => FaultNumbers::bare(F4, TEXT + 1),
        Input::Scen => FaultNumbers::bare(F4, TEXT + 2),
        Input::Plan => FaultNumbers::bare(F4, TEXT + 3),
        Input::Cert => FaultNumbers::bare(F4, TEXT + 4),
        Input::Events => FaultNumbers::bare(F4, 0),
    }
}
