//! A second line about an error or a refusal, for people: what it means, and in which file. It is written where
//! standard error is a terminal, and nowhere else.
use mapf_app::{CheckFault, Fault, Input, Job, Output, PlayFault, tell_run};
use mapf_explain::explain;
use mapf_model::{BytesSink, OutOfMemory};
use std::alloc::Global;
use std::io::{IsTerminal, Write};

/// Writes in words why the job ended, with the path of the file that has the error. If that fails, nothing becomes of
/// it.
pub fn tell_in_words(rt: &HostRuntime, job: &Job, fault: &Fault) {
    if !rt.stderr().is_terminal() {
        return;
    }
    if let Ok(Some(line)) = line(rt.alloc(), job, fault) {
        let _ = rt.stderr().write_all(line.as_bytes());
    }
}

// Returns the line. None if there is no memory for one, as the error may say.
fn line(alloc: Global, job: &Job, fault: &Fault) -> Result<Option<String>, OutOfMemory> {
    let Some(words) = words(alloc, fault)? else {
        return Ok(None);
    };
    let line = match path_of(job, fault) {
        Some(path) => format!(in alloc; "{path:?}: {words}\n")?,
        None => format!(in alloc; "{words}\n")?,
    };
    Ok(Some(line))
}

// Returns what the line of the error means.
fn words(alloc: Global, fault: &Fault) -> Result<Option<String>, OutOfMemory> {
    if *fault == Fault::F6 {
        return Ok(None);
    }
    let mut sink = BytesSink::with_room(alloc, 64)?;
    tell_run(&Err(*fault), &mut sink);
    match str::from_utf8(sink.bytes()) {
        Ok(text) => Ok(explain(alloc, text.trim_end())?),
        Err(_) => Ok(None),
    }
}

// A file of a job.
#[derive(Clone, Copy)]
enum File {
    Map,
    Scenario,
    Plan,
    Certificate,
    Events,
}

fn path_of<'a>(job: &'a Job, fault: &Fault) -> Option<&'a str> {
    let file = file_of(fault)?;
    let (map, scen, plan, cert, events) = match job {
        Job::Solve {
            map,
            scen,
            plan,
            cert,
            ..
        }
        | Job::SolveBy {
            map,
            scen,
            plan,
            cert,
            ..
        }
        | Job::Check {
            map,
            scen,
            plan,
            cert,
            ..
        } => (map, scen, plan, Some(cert), None),
        Job::Play {
            map,
            scen,
            plan,
            ..
        }
        | Job::Follow {
            map,
            scen,
            plan,
            ..
        } => (map, scen, plan, None, None),
        Job::Dispatch {
            map,
            scen,
            plan,
            events,
            ..
        } => (map, scen, plan, None, Some(events)),
        Job::SolveInJson { .. } | Job::CheckInJson { .. } => return None,
        Job::Demo | Job::Explain { .. } => return None,
    };
    match file {
        File::Map => Some(map.as_str()),
        File::Scenario => Some(scen.as_str()),
        File::Plan => Some(plan.as_str()),
        File::Certificate => cert.map(String::as_str),
        File::Events => events.map(String::as_str),
    }
}

// Returns the file that has the error. None if it is none of them, or one of two.
fn file_of(fault: &Fault) -> Option<File> {
    match fault {
        Fault::F1(_) | Fault::F4(Input::Map) => Some(File::Map),
        Fault::F2(_) | Fault::F4(Input::Scen) => Some(File::Scenario),
        Fault::F3(PlayFault::Events(_)) | Fault::F4(Input::Events) => Some(File::Events),
        Fault::F3(_) | Fault::F4(Input::Plan) | Fault::F5(Output::Plan) => Some(File::Plan),
        Fault::F4(Input::Cert) | Fault::F5(Output::Cert) => Some(File::Certificate),
        Fault::F5(Output::Out) | Fault::F6 => None,
        Fault::Refused(CheckFault::C1(_) | CheckFault::C5(_)) => Some(File::Plan),
        Fault::Refused(CheckFault::C3 | CheckFault::C4 | CheckFault::Memory) => None,
        Fault::Refused(_) => Some(File::Certificate),
    }
}
