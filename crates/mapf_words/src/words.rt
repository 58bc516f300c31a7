//! The reader of arguments: it makes a job of them, or says why there is none. `main` calls it.
ghost use Rattle.std.specs.Prelude.{◌≡◌, ◌⊎◌, ◌≤◌, ◌<◌, ◌↔◌, ℕ, None, IfOk, OnOk, Ok, IsTrue, codes, map, vec_len};
ghost use Rattle.std.specs.String.{string_bytes};
ghost use Rattle.clap.specs.Matches.{first_value, found_of};
ghost use Rattle.mapf_words.specs.CommandLine.{IsReadFrom};
ghost use Rattle.mapf_words.specs.Jobs.{AreDistinctNames, AreOwnOutputs, AsksForJson, HasOwnOutputs, IsEffortOf};
ghost use Rattle.mapf_words.specs.Jobs.{IsImprovementsOf, IsInRange, IsJobOf, IsNumberOf, IsSearchOf};
ghost use Rattle.mapf_words.specs.Jobs.{most_improvements, named};
ghost use Rattle.mapf_model.specs.Limits.{most_agents};

use crate::command::mapf;
use crate::job::{IMPROVEMENTS_FOR_EACH, Job, MOST_IMPROVEMENTS, Search};
use crate::words_fault::WordsFault;
use clap::ArgMatches;
use clap::error::ErrorKind;
use mapf_model::limits::{MOST_AGENTS, MOST_SPLITS};
use std::alloc::{AllocError, Global};

// Returns the text of the argument of that name.
fn text_of(alloc: Global, given: &ArgMatches<'_>, name: &str) -> Result<String, AllocError>
    ensures { IfOk result (λ text. string_bytes text ≡ named (found_of given.now) name.now) }
{
    String::from_str(alloc, given.get_str(name).unwrap_or(""))
}

// Returns the number of the argument of that name, and checks its range. The parser of the command line checks the same
// range for its message; the contract rests on this check.
fn number_of(
    alloc: Global,
    given: &ArgMatches<'_>,
    name: &str,
    low: u32,
    high: u32,
) -> Result<u32, WordsFault>
    ensures range { IfOk result (λ n. (low ≤ n) × (n ≤ high)) }
    ensures number { IfOk result (IsNumberOf (found_of given.now) name.now) }
    ensures due { (n : ℕ) → IsNumberOf (found_of given.now) name.now n → low ≤ n → n ≤ high → result ≡ Ok n }
{
    match given.get_one::<u32>(name) {
        Some(n) if low <= n && n <= high => Ok(n),
        _ => Err(WordsFault::Bad(format!(in alloc;
            "error: {name} isn't a number from {low} to {high}\n"
        )?)),
    }
}

// Refuses an output with the name of another file, each with the name of its argument. What is written to the null
// device is discarded, so two arguments may name it.
fn apart(alloc: Global, output: (&str, &str), other: (&str, &str)) -> Result<(), WordsFault>
    ensures { OnOk result (AreDistinctNames output.entry.1.now other.entry.1.now) }
{
    let ((second, text), (first, other)) = (output, other);
    if text != other || text == "/dev/null" {
        return Ok(());
    }
    Err(WordsFault::Bad(format!(in alloc; "error: {first} and {second} are one file: {text:?}\n")?))
}

// Refuses `solve` if it would overwrite an input, or one output by the other.
fn own_outputs(
    alloc: Global,
    map: &str,
    scen: &str,
    plan: &str,
    cert: &str,
) -> Result<(), WordsFault>
    ensures { OnOk result (AreOwnOutputs map.now scen.now plan.now cert.now) }
{
    let (map, scen) = (("MAP", map), ("SCEN", scen));
    let (plan, cert) = (("PLAN", plan), ("CERT", cert));
    apart(alloc, plan, map)?;
    apart(alloc, plan, scen)?;
    apart(alloc, cert, map)?;
    apart(alloc, cert, scen)?;
    apart(alloc, cert, plan)
}

// Returns the search that the option `--search` names.
fn search_of(alloc: Global, given: &ArgMatches<'_>) -> Result<Search, WordsFault>
    ensures { IfOk result (IsSearchOf (found_of given.now)) }
{
    match given.get_str("search") {
        None | Some("cbs") => Ok(Search::Cbs),
        Some("cbsh") => Ok(Search::Cbsh),
        Some(name) => Err(WordsFault::Bad(format!(in alloc;
            "error: no search is named {name:?}: say cbs or cbsh\n"
        )?)),
    }
}

// Returns how many improvements of a first plan are to be tried.
fn improvements_of(alloc: Global, given: &ArgMatches<'_>, k: u32) -> Result<u32, WordsFault>
    requires { k ≤ most_agents }
    ensures range { IfOk result (λ n. n ≤ most_improvements) }
    ensures number { IfOk result (IsImprovementsOf (found_of given.now) k) }
{
    match given.get_str("improve") {
        None => Ok(IMPROVEMENTS_FOR_EACH * k),
        Some(_) => number_of(alloc, given, "improve", 0, MOST_IMPROVEMENTS),
    }
}

// Refuses the option `--improve`, which plain search has no use for.
fn no_improvements(alloc: Global, given: &ArgMatches<'_>) -> Result<(), WordsFault>
    ensures { OnOk result (first_value (found_of given.now) (codes "improve") ≡ None) }
{
    match given.get_str("improve") {
        None => Ok(()),
        Some(_) => Err(WordsFault::Bad(String::from_str(
            alloc,
            "error: --improve is for --search cbsh\n",
        )?)),
    }
}

// Returns how many improvements of a first plan this search is to try.
fn effort_of(
    alloc: Global,
    given: &ArgMatches<'_>,
    search: Search,
    k: u32,
) -> Result<u32, WordsFault>
    requires { k ≤ most_agents }
    ensures range { IfOk result (λ n. n ≤ most_improvements) }
    ensures number { IfOk result (IsEffortOf (found_of given.now) search k) }
{
    match search {
        Search::Cbs => {
            no_improvements(alloc, given)?;
            Ok(0)
        }
        Search::Cbsh => improvements_of(alloc, given, k),
    }
}

// Returns whether the option `--json` is given.
fn asks_for_json(given: &ArgMatches<'_>) -> bool
    ensures { IsTrue result ↔ AsksForJson (found_of given.now) }
{
    match given.get_str("json") {
        Some(text) => text == "true",
        None => false,
    }
}

fn solve_of(alloc: Global, given: &ArgMatches<'_>) -> Result<Job, WordsFault>
    ensures range { IfOk result IsInRange }
    ensures named { IfOk result (IsJobOf (codes "solve") (found_of given.now)) }
    ensures own { IfOk result HasOwnOutputs }
{
    let search = search_of(alloc, given)?;
    let map = text_of(alloc, given, "MAP")?;
    let scen = text_of(alloc, given, "SCEN")?;
    let k = number_of(alloc, given, "K", 1, MOST_AGENTS)?;
    let limit = number_of(alloc, given, "LIMIT", 0, MOST_SPLITS)?;
    let plan = text_of(alloc, given, "PLAN")?;
    let cert = text_of(alloc, given, "CERT")?;
    own_outputs(alloc, &map, &scen, &plan, &cert)?;
    let improvements = effort_of(alloc, given, search, k)?;
    if asks_for_json(given) {
        return Ok(Job::SolveInJson {
            search,
            map,
            scen,
            k,
            limit,
            improvements,
            plan,
            cert,
        });
    }
    Ok(match search {
        Search::Cbs => Job::Solve {
            map,
            scen,
            k,
            limit,
            plan,
            cert,
        },
        Search::Cbsh => Job::SolveBy {
            search,
            map,
            scen,
            k,
            limit,
            improvements,
            plan,
            cert,
        },
    })
}

fn check_of(alloc: Global, given: &ArgMatches<'_>) -> Result<Job, WordsFault>
    ensures range { IfOk result IsInRange }
    ensures named { IfOk result (IsJobOf (codes "check") (found_of given.now)) }
    ensures own { IfOk result HasOwnOutputs }
{
    let map = text_of(alloc, given, "MAP")?;
    let scen = text_of(alloc, given, "SCEN")?;
    let agents = number_of(alloc, given, "K", 1, MOST_AGENTS)?;
    let plan = text_of(alloc, given, "PLAN")?;
    let cert = text_of(alloc, given, "CERT")?;
    if asks_for_json(given) {
        return Ok(Job::CheckInJson {
            map,
            scen,
            k: agents,
            plan,
            cert,
        });
    }
    Ok(Job::Check {
        map,
        scen,
        k: agents,
        plan,
        cert,
    })
}

fn play_of(alloc: Global, given: &ArgMatches<'_>) -> Result<Job, WordsFault>
    ensures range { IfOk result IsInRange }
    ensures named { IfOk result (IsJobOf (codes "play") (found_of given.now)) }
    ensures own { IfOk result HasOwnOutputs }
{
    Ok(Job::Play {
        map: text_of(alloc, given, "MAP")?,
        scen: text_of(alloc, given, "SCEN")?,
        k: number_of(alloc, given, "K", 1, MOST_AGENTS)?,
        plan: text_of(alloc, given, "PLAN")?,
    })
}

fn dispatch_of(alloc: Global, given: &ArgMatches<'_>) -> Result<Job, WordsFault>
    ensures range { IfOk result IsInRange }
    ensures named { IfOk result (IsJobOf (codes "dispatch") (found_of given.now)) }
    ensures own { IfOk result HasOwnOutputs }
{
    Ok(Job::Dispatch {
        map: text_of(alloc, given, "MAP")?,
        scen: text_of(alloc, given, "SCEN")?,
        k: number_of(alloc, given, "K", 1, MOST_AGENTS)?,
        plan: text_of(alloc, given, "PLAN")?,
        events: text_of(alloc, given, "EVENTS")?,
    })
}

fn follow_of(alloc: Global, given: &ArgMatches<'_>) -> Result<Job, WordsFault>
    ensures range { IfOk result IsInRange }
    ensures named { IfOk result (IsJobOf (codes "follow") (found_of given.now)) }
    ensures own { IfOk result HasOwnOutputs }
{
    Ok(Job::Follow {
        map: text_of(alloc, given, "MAP")?,
        scen: text_of(alloc, given, "SCEN")?,
        k: number_of(alloc, given, "K", 1, MOST_AGENTS)?,
        plan: text_of(alloc, given, "PLAN")?,
    })
}

fn explain_of(alloc: Global, given: &ArgMatches<'_>) -> Result<Job, WordsFault>
    ensures range { IfOk result IsInRange }
    ensures named { IfOk result (IsJobOf (codes "explain") (found_of given.now)) }
    ensures own { IfOk result HasOwnOutputs }
{
    Ok(Job::Explain {
        line: text_of(alloc, given, "LINE")?,
    })
}

// Returns the job of a command, from the arguments by their names.
fn job_in(alloc: Global, command: &str, given: &ArgMatches<'_>) -> Result<Job, WordsFault>
    ensures range { IfOk result IsInRange }
    ensures named { IfOk result (IsJobOf command.now (found_of given.now)) }
    ensures own { IfOk result HasOwnOutputs }
{
    match command {
        "solve" => solve_of(alloc, given),
        "check" => check_of(alloc, given),
        "play" => play_of(alloc, given),
        "dispatch" => dispatch_of(alloc, given),
        "follow" => follow_of(alloc, given),
        "explain" => explain_of(alloc, given),
        _ => Err(WordsFault::Bad(String::from_str(alloc, "error: no such command\n")?)),
    }
}

fn fault_of(alloc: Global, error: &clap::Error) -> WordsFault {
    if error.kind() == ErrorKind::OutOfMemory {
        return WordsFault::Memory;
    }
    match error.to_string(alloc) {
        Ok(text) if error.use_stderr() => WordsFault::Bad(text),
        Ok(text) => WordsFault::Shown(text),
        Err(_) => WordsFault::Memory,
    }
}

/// Returns the job of these arguments, of which the first is the program's name. Without further arguments it is the
/// demo. A job that would overwrite a file that it reads, or write two texts to one file, is a usage error.
pub fn job_of(alloc: Global, words: Vec<String>) -> Result<Job, WordsFault>
    // K and LIMIT lie in their ranges.
    ensures range { IfOk result IsInRange }
    // No output has the name of an input or of the other output, `/dev/null` aside.
    ensures own { IfOk result HasOwnOutputs }
    // Without a command, and only then, the job is the demo.
    ensures demo { (result ≡ Ok Job.Demo) ↔ (vec_len words < 2) }
    // A job other than the demo is that of the command which `clap` finds in words that it accepts, by its model of the
    // command line (`mapf_command`). The job's file names and numbers are the arguments of their names.
    ensures read { IfOk result (λ job. (job ≡ Job.Demo) ⊎ IsReadFrom (map string_bytes words.items) job) }
{
    if words.len() < 2 {
        return Ok(Job::Demo);
    }
    let matches = match mapf(alloc)?.try_get_matches_from(words.as_slice()) {
        Ok(matches) => matches,
        Err(error) => return Err(fault_of(alloc, &error)),
    };
    match matches.subcommand() {
        Some((command, given)) => job_in(alloc, command, given),
        None => Err(WordsFault::Bad(String::from_str(alloc, "error: no command\n")?)),
    }
}
