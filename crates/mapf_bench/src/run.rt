//! How a job is run on a problem, and what is printed of it.
ghost use Rattle.std.specs.Prelude.{◌≡◌, false, IfOk};
ghost use Rattle.mapf_bench.specs.Jobs.{IsInRange};

use crate::job::{Job, Task};
use crate::problem::Texts;
use anyhow::{Result, anyhow};
use mapf_app::{Asked, Fault, Kind, Search, run_check, run_play, run_solve, run_solve_by};
use mapf_model::{BytesSink, BytesSource, OutOfMemory, Unwatched};
use std::alloc::Global;
use std::hash::{FoldHasher, Hasher};

// Room for the longest text. What isn't written of it takes no memory.
const ROOM: usize = 2_000_000_000;

// How many improvements of its first plan the second search tries for each agent, as the program does unless it is told.
const IMPROVEMENTS_FOR_EACH: u32 = 50;

// How often the answer is checked where that is the job.
const TIMES_JUDGED: u32 = 20;

/// Runs the job on the problem and returns a line with the answers and a digest of each text.
pub fn line_of(alloc: Global, job: &Job, made: &Texts) -> Result<String>
    requires { IsInRange job.now }
{
    let mut plan = sink(alloc, ROOM)?;
    let mut cert = sink(alloc, ROOM)?;
    let kind = match job.task {
        Task::Second | Task::Judge => by_second(alloc, job, made, &mut plan, &mut cert)?,
        Task::Solve | Task::Check | Task::Play => by_plain(alloc, job, made, &mut plan, &mut cert)?,
    };
    let (plan_text, cert_text) = (plan.bytes(), cert.bytes());
    let mut line = format!(in alloc;
        "{kind:?}, plan {:016x}, certificate of {} bytes {:016x}",
        digest(plan_text),
        cert_text.len(),
        digest(cert_text)
    )?;
    match job.task {
        Task::Solve | Task::Second => {}
        Task::Check => line.push_str(checked(alloc, job, made, plan_text, cert_text)?.as_str())?,
        Task::Play => {
            line.push_str(checked(alloc, job, made, plan_text, cert_text)?.as_str())?;
            if let Kind::Found(_) = kind {
                line.push_str(played(alloc, job, made, plan_text)?.as_str())?;
            }
        }
        Task::Judge => {
            for _ in 1..TIMES_JUDGED {
                checked(alloc, job, made, plan_text, cert_text)?;
            }
            line.push_str(checked(alloc, job, made, plan_text, cert_text)?.as_str())?;
        }
    }
    Ok(line)
}

// Solves the problem by plain search.
fn by_plain(
    alloc: Global,
    job: &Job,
    made: &Texts,
    plan: &mut BytesSink,
    cert: &mut BytesSink,
) -> Result<Kind>
    requires range { IsInRange job.now }
    requires works { (plan.old.2 ≡ false) × (cert.old.2 ≡ false) }
{
    run_solve(
        alloc,
        &mut BytesSource::of(made.map.as_bytes()),
        &mut BytesSource::of(made.scen.as_bytes()),
        job.agents,
        job.limit,
        plan,
        cert,
    )
    .map_err(error_of)
}

// Solves the problem by the second search.
fn by_second(
    alloc: Global,
    job: &Job,
    made: &Texts,
    plan: &mut BytesSink,
    cert: &mut BytesSink,
) -> Result<Kind>
    requires range { IsInRange job.now }
    requires works { (plan.old.2 ≡ false) × (cert.old.2 ≡ false) }
{
    let asked = Asked {
        search: Search::Cbsh,
        k: job.agents,
        limit: job.limit,
        improvements: job.agents * IMPROVEMENTS_FOR_EACH,
        watcher: &mut Unwatched,
    };
    let answered = run_solve_by(
        alloc,
        &mut BytesSource::of(made.map.as_bytes()),
        &mut BytesSource::of(made.scen.as_bytes()),
        asked,
        plan,
        cert,
    )
    .map_err(error_of)?;
    Ok(answered.kind)
}

// Returns what the check says of the answer.
fn checked(alloc: Global, job: &Job, made: &Texts, plan: &[u8], cert: &[u8]) -> Result<String>
    requires { IsInRange job.now }
{
    let verdict = run_check(
        alloc,
        &mut BytesSource::of(made.map.as_bytes()),
        &mut BytesSource::of(made.scen.as_bytes()),
        job.agents,
        &mut BytesSource::of(plan),
        &mut BytesSource::of(cert),
    )
    .map_err(error_of)?;
    Ok(format!(in alloc; ", {verdict:?}")?)
}

// Returns a digest of the played plan.
fn played(alloc: Global, job: &Job, made: &Texts, plan: &[u8]) -> Result<String>
    requires { IsInRange job.now }
{
    let mut out = sink(alloc, ROOM)?;
    run_play(
        alloc,
        &mut BytesSource::of(made.map.as_bytes()),
        &mut BytesSource::of(made.scen.as_bytes()),
        job.agents,
        &mut BytesSource::of(plan),
        &mut out,
    )
    .map_err(error_of)?;
    let text = out.bytes();
    Ok(format!(in alloc; ", played in {} bytes {:016x}", text.len(), digest(text))?)
}

fn error_of(fault: Fault) -> anyhow::Error {
    anyhow!("{fault}")
}

fn sink(alloc: Global, room: usize) -> Result<BytesSink>
    ensures { IfOk result (λ sink. sink.2 ≡ false) }
{
    match BytesSink::with_room(alloc, room) {
        Ok(sink) => Ok(sink),
        Err(OutOfMemory) => Err(anyhow!("out of memory")),
    }
}

fn digest(text: &[u8]) -> u64 {
    let mut hasher = FoldHasher::default();
    hasher.write(text);
    hasher.finish()
}
