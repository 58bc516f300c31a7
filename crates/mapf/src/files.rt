//! The commands over files. Each opens the files that its arguments name and makes the run; `main` calls them.
ghost use Rattle.std.specs.Prelude.{◌≡◌, ◌≤◌};
ghost use Rattle.mapf_model.specs.Limits.{most_agents, most_splits};

use crate::outputs;
use crate::outputs::{Place, Unsolved, identity_of, store};
use crate::progress::Progress;
use mapf_app::{
    Answered, Asked, Fault, Input, Output, Search, Verdict, run_check, run_dispatch, run_follow,
    run_play, run_solve_by,
};
use mapf_model::{ReadSource, WriteSink};
use std::fs;
use std::fs::File;
use std::rt::Files;

/// The files of a problem, and how many of its agents count: 1 to 200.
#[derive(Clone, Copy)]
pub struct ProblemFiles<'a> {
    pub map: &'a str,
    pub scen: &'a str,
    pub k: u32,
}

/// By which search a problem is solved, how many splits it may make, 0 to 100,000, and how many improvements of its
/// first plan the second search tries, 0 to 1,000,000. The second search may make 300 splits all the same.
#[derive(Clone, Copy)]
pub struct SolveOptions {
    pub search: Search,
    pub limit: u32,
    pub improvements: u32,
}

impl ProblemFiles<'_> {
    // Opens MAP, and then SCEN.
    fn open(&self, rt: &HostRuntime) -> Result<(File, File), Fault> {
        let map = open(rt, self.map, Input::Map)?;
        let scen = open(rt, self.scen, Input::Scen)?;
        Ok((map, scen))
    }
}

fn open(rt: &HostRuntime, path: &str, input: Input) -> Result<File, Fault> {
    match fs::open(rt, path) {
        Ok(file) => Ok(file),
        Err(_) => Err(Fault::F4(input)),
    }
}

// Returns an open input, as a file that an argument names.
fn placed<'a>(
    argument: &'a str,
    path: &'a str,
    file: &File,
    input: Input,
) -> Result<Place<'a>, Fault> {
    match identity_of(file) {
        Ok(file) => Ok(Place {
            argument,
            path,
            file,
        }),
        Err(_) => Err(Fault::F4(input)),
    }
}

/// Solves the problem in two files, and writes the plan text and the certificate to two others.
pub fn solve<'a>(
    rt: &HostRuntime,
    problem: ProblemFiles<'a>,
    options: SolveOptions,
    plan: &'a str,
    cert: &'a str,
) -> Result<Answered, Unsolved<'a>>
    requires some { 1 ≤ problem.k }
    requires few { problem.k ≤ most_agents }
    requires limit { options.limit ≤ most_splits }
{
    let (map, scen) = problem.open(rt)?;
    let outputs = outputs::open(
        rt,
        placed("MAP", problem.map, &map, Input::Map)?,
        placed("SCEN", problem.scen, &scen, Input::Scen)?,
        plan,
        cert,
    )?;
    let mut progress = Progress::of(rt);
    let answer = run_solve_by(
        rt.alloc(),
        &mut ReadSource::of(&map),
        &mut ReadSource::of(&scen),
        Asked {
            search: options.search,
            k: problem.k,
            limit: options.limit,
            improvements: options.improvements,
            watcher: &mut progress,
        },
        &mut WriteSink::of(&outputs.plan),
        &mut WriteSink::of(&outputs.cert),
    );
    progress.erase();
    let answer = answer?;
    store(&outputs.plan, Output::Plan)?;
    store(&outputs.cert, Output::Cert)?;
    Ok(answer)
}

/// Checks the plan text and the certificate in two files for the problem in two others.
pub fn check(
    rt: &HostRuntime,
    problem: ProblemFiles,
    plan: &str,
    cert: &str,
) -> Result<Verdict, Fault>
    requires some { 1 ≤ problem.k }
    requires few { problem.k ≤ most_agents }
{
    let (map, scen) = problem.open(rt)?;
    let plan = open(rt, plan, Input::Plan)?;
    let cert = open(rt, cert, Input::Cert)?;
    run_check(
        rt.alloc(),
        &mut ReadSource::of(map),
        &mut ReadSource::of(scen),
        problem.k,
        &mut ReadSource::of(plan),
        &mut ReadSource::of(cert),
    )
}

/// Writes the plan of a plan text, for the problem in two other files, to standard output.
pub fn play(rt: &HostRuntime, problem: ProblemFiles, plan: &str) -> Result<(), Fault>
    requires some { 1 ≤ problem.k }
    requires few { problem.k ≤ most_agents }
{
    let (map, scen) = problem.open(rt)?;
    let plan = open(rt, plan, Input::Plan)?;
    run_play(
        rt.alloc(),
        &mut ReadSource::of(map),
        &mut ReadSource::of(scen),
        problem.k,
        &mut ReadSource::of(plan),
        &mut WriteSink::of(rt.stdout()),
    )
}

/// Writes the replies to agents that follow the plan of a plan text, for the problem in two other files, to standard
/// output.
pub fn dispatch(
    rt: &HostRuntime,
    problem: ProblemFiles,
    plan: &str,
    events: &str,
) -> Result<(), Fault>
    requires some { 1 ≤ problem.k }
    requires few { problem.k ≤ most_agents }
{
    let (map, scen) = problem.open(rt)?;
    let plan = open(rt, plan, Input::Plan)?;
    let events = open(rt, events, Input::Events)?;
    run_dispatch(
        rt.alloc(),
        &mut ReadSource::of(map),
        &mut ReadSource::of(scen),
        problem.k,
        &mut ReadSource::of(plan),
        &mut ReadSource::of(events),
        &mut WriteSink::of(rt.stdout()),
    )
}

/// Answers the requests that come on standard input, of agents that follow the plan of a plan text, for the problem in
/// two other files. Each answer goes to standard output before the next request is read.
pub fn follow(rt: &HostRuntime, problem: ProblemFiles, plan: &str) -> Result<(), Fault>
    requires some { 1 ≤ problem.k }
    requires few { problem.k ≤ most_agents }
{
    let (map, scen) = problem.open(rt)?;
    let plan = open(rt, plan, Input::Plan)?;
    run_follow(
        rt.alloc(),
        &mut ReadSource::of(map),
        &mut ReadSource::of(scen),
        problem.k,
        &mut ReadSource::of(plan),
        &mut ReadSource::of(rt.stdin()),
        &mut WriteSink::of(rt.stdout()),
    )
}
