//! What `main` takes from the command line, and what it prints when a job is done or refused, with the exit status.
use crate::in_words::tell_in_words;
use crate::outputs::{OneFile, Unsolved};
use mapf_app::{Answered, Fault, Job, Verdict, tell_check, tell_run, tell_solve_by};
use mapf_explain::explain;
use mapf_json::{tell_check_json, tell_solve_json};
use mapf_model::{WriteSink, write_all};
use std::process::ExitCode;
use std::rt::Env;
use std::{env, io};

/// Returns the arguments of the command line, the program's name first.
pub fn all(rt: &HostRuntime) -> io::Result<Vec<String>> {
    let mut words = Vec::new(rt.alloc());
    for word in env::args(rt)? {
        words.push(word)?;
    }
    Ok(words)
}

/// Prints the text that was asked for: the help, or the version.
pub fn shown(rt: &HostRuntime, text: &str) -> ExitCode {
    let mut out = WriteSink::of(rt.stdout());
    match write_all(&mut out, text.as_bytes()) {
        Ok(()) => ExitCode::from(0),
        Err(_) => ExitCode::from(2),
    }
}

/// Prints what a line of the program means, or that there is no such line.
pub fn explained(rt: &HostRuntime, line: &str) -> ExitCode {
    let Ok(words) = explain(rt.alloc(), line) else {
        return no_memory(rt);
    };
    let Some(words) = words else {
        return refused(rt, "error: mapf prints no such line\n");
    };
    match format!(in rt.alloc(); "{words}\n") {
        Ok(text) => shown(rt, text.as_str()),
        Err(_) => no_memory(rt),
    }
}

/// Prints the usage error.
pub fn refused(rt: &HostRuntime, text: &str) -> ExitCode {
    let mut err = WriteSink::of(rt.stderr());
    let _ = write_all(&mut err, text.as_bytes());
    ExitCode::from(2)
}

/// Reports two paths of the same file, one of them of an output.
pub fn one_file(rt: &HostRuntime, one: &OneFile<'_>) -> ExitCode {
    let (first, second) = (one.first, one.second);
    let text = format!(in rt.alloc();
        "error: {} and {} are one file: {:?} and {:?}\n",
        first.argument, second.argument, first.path, second.path
    );
    match text {
        Ok(text) => refused(rt, text.as_str()),
        Err(_) => no_memory(rt),
    }
}

/// Reports why the arguments couldn't be read: out of memory, or one of them isn't text.
pub fn unread(rt: &HostRuntime, error: &io::Error) -> ExitCode {
    if error.kind() == io::ErrorKind::OutOfMemory {
        return no_memory(rt);
    }
    refused(rt, "error: a word of the command line is no UTF-8 text\n")
}

/// Reports out of memory.
pub fn no_memory(rt: &HostRuntime) -> ExitCode {
    told(rt, &Err(Fault::F6))
}

// Reports how a run ended, by the line for it.
fn told(rt: &HostRuntime, answer: &Result<(), Fault>) -> ExitCode {
    let mut err = WriteSink::of(rt.stderr());
    ExitCode::from(tell_run(answer, &mut err))
}

/// Reports how a run ended that writes its own output.
pub fn ended(rt: &HostRuntime, job: &Job, answer: &Result<(), Fault>) -> ExitCode {
    let status = told(rt, answer);
    if let Err(fault) = answer {
        tell_in_words(rt, job, fault);
    }
    status
}

/// Reports the verdict, or the error.
pub fn checked(rt: &HostRuntime, job: &Job, answer: &Result<Verdict, Fault>) -> ExitCode {
    let mut out = WriteSink::of(rt.stdout());
    let mut err = WriteSink::of(rt.stderr());
    let status = tell_check(answer, &mut out, &mut err);
    if let Err(fault) = answer {
        tell_in_words(rt, job, fault);
    }
    ExitCode::from(status)
}

/// Reports the verdict, or the error, by an object of JSON.
pub fn checked_in_json(rt: &HostRuntime, answer: &Result<Verdict, Fault>) -> ExitCode {
    let mut out = WriteSink::of(rt.stdout());
    let mut err = WriteSink::of(rt.stderr());
    ExitCode::from(tell_check_json(answer, &mut out, &mut err))
}

/// Reports the answer, or why there is none.
pub fn solved(rt: &HostRuntime, job: &Job, answer: Result<Answered, Unsolved<'_>>) -> ExitCode {
    let answer = match answer {
        Ok(answer) => Ok(answer),
        Err(Unsolved::Fault(fault)) => Err(fault),
        Err(Unsolved::OneFile(one)) => return one_file(rt, &one),
    };
    let mut out = WriteSink::of(rt.stdout());
    let mut err = WriteSink::of(rt.stderr());
    let status = tell_solve_by(&answer, &mut out, &mut err);
    if let Err(fault) = &answer {
        tell_in_words(rt, job, fault);
    }
    ExitCode::from(status)
}

/// Reports the answer, or why there is none, by an object of JSON. Of two paths of one file there is none.
pub fn solved_in_json(rt: &HostRuntime, answer: Result<Answered, Unsolved<'_>>) -> ExitCode {
    let answer = match answer {
        Ok(answer) => Ok(answer),
        Err(Unsolved::Fault(fault)) => Err(fault),
        Err(Unsolved::OneFile(one)) => return one_file(rt, &one),
    };
    let mut out = WriteSink::of(rt.stdout());
    let mut err = WriteSink::of(rt.stderr());
    ExitCode::from(tell_solve_json(&answer, &mut out, &mut err))
}
