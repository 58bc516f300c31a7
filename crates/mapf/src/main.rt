//! The program: it plans for many agents on a grid, checks and shows such plans, and lets agents follow them.
#![tactic(auto)]

ghost use Rattle.mapf_words.specs.Jobs.{IsInRange};

mod files;
mod in_words;
mod outputs;
mod progress;
mod words;

use files::{ProblemFiles, SolveOptions};
use mapf_app::{Job, Search, WordsFault, job_of, run_demo};
use mapf_model::WriteSink;
use std::process::ExitCode;

fn main(rt: HostRuntime) -> ExitCode {
    let words = match words::all(&rt) {
        Ok(words) => words,
        Err(error) => return words::unread(&rt, &error),
    };
    match job_of(rt.alloc(), words) {
        Ok(job) => run(&rt, &job),
        Err(WordsFault::Shown(text)) => words::shown(&rt, text.as_str()),
        Err(WordsFault::Bad(text)) => words::refused(&rt, text.as_str()),
        Err(WordsFault::Memory) => words::no_memory(&rt),
    }
}

fn run(rt: &HostRuntime, job: &Job) -> ExitCode
    requires { IsInRange job.now }
{
    match job {
        Job::Demo => words::ended(
            rt,
            job,
            &run_demo(rt.alloc(), &mut WriteSink::of(rt.stdout())),
        ),
        Job::Solve {
            map,
            scen,
            k,
            limit,
            plan,
            cert,
        } => words::solved(
            rt,
            job,
            files::solve(
                rt,
                ProblemFiles { map, scen, k: *k },
                SolveOptions {
                    search: Search::Cbs,
                    limit: *limit,
                    improvements: 0,
                },
                plan,
                cert,
            ),
        ),
        Job::SolveBy {
            search,
            map,
            scen,
            k,
            limit,
            improvements,
            plan,
            cert,
        } => words::solved(
            rt,
            job,
            files::solve(
                rt,
                ProblemFiles { map, scen, k: *k },
                SolveOptions {
                    search: *search,
                    limit: *limit,
                    improvements: *improvements,
                },
                plan,
                cert,
            ),
        ),
        Job::SolveInJson {
            search,
            map,
            scen,
            k,
            limit,
            improvements,
            plan,
            cert,
        } => words::solved_in_json(
            rt,
            files::solve(
                rt,
                ProblemFiles { map, scen, k: *k },
                SolveOptions {
                    search: *search,
                    limit: *limit,
                    improvements: *improvements,
                },
                plan,
                cert,
            ),
        ),
        Job::Check {
            map,
            scen,
            k,
            plan,
            cert,
        } => words::checked(
            rt,
            job,
            &files::check(rt, ProblemFiles { map, scen, k: *k }, plan, cert),
        ),
        Job::CheckInJson {
            map,
            scen,
            k,
            plan,
            cert,
        } => {
            let problem = ProblemFiles { map, scen, k: *k };
            words::checked_in_json(rt, &files::check(rt, problem, plan, cert))
        }
        Job::Play { map, scen, k, plan } => words::ended(
            rt,
            job,
            &files::play(rt, ProblemFiles { map, scen, k: *k }, plan),
        ),
        Job::Dispatch {
            map,
            scen,
            k,
            plan,
            events,
        } => words::ended(
            rt,
            job,
            &files::dispatch(rt, ProblemFiles { map, scen, k: *k }, plan, events),
        ),
        Job::Follow { map, scen, k, plan } => words::ended(
            rt,
            job,
            &files::follow(rt, ProblemFiles { map, scen, k: *k }, plan),
        ),
        Job::Explain { line } => words::explained(rt, line),
    }
}
