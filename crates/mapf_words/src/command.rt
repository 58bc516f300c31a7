//! The arguments of the program, as the parser of the command line takes them, with all texts of the help.
ghost use Rattle.std.specs.Prelude.{◌≡◌, codes, false, IfOk};
ghost use Rattle.clap.specs.Words.{app_of, rule_of};
ghost use Rattle.mapf_words.specs.CommandLine.{IsCommand, check_command, dispatch_command, explain_command};
ghost use Rattle.mapf_words.specs.CommandLine.{file_argument, flag_argument, follow_command};
ghost use Rattle.mapf_words.specs.CommandLine.{mapf_command, number_argument, number_option, option_argument};
ghost use Rattle.mapf_words.specs.CommandLine.{play_command, program, solve_command};
ghost use Rattle.mapf_words.specs.Jobs.{most_improvements};

use crate::job::MOST_IMPROVEMENTS;
use clap::{Arg, ArgAction, Command, value_parser};
use mapf_model::limits::{MOST_AGENTS, MOST_SPLITS};
use mapf_model::{most_agents, most_splits};
use std::alloc::{AllocError, Global};

const ABOUT: &str =
    "Solves multi-agent path finding on four-connected grids: finds a plan with the least sum of
costs, and writes a certificate which shows that no valid plan costs less. It also checks
certificates, shows plans tick by tick, leads agents along a plan, and explains what it prints.
Without arguments it solves and checks a small built-in problem.";

// The program's version, which Cargo.toml has too, and below it those of the texts.
const VERSION: &str = "1.1.0-dev
reads plan texts 1 and 2, certificates 1, 2 and 3, event texts 1
writes plan texts 2, certificates 2 and 3";

const OVERVIEW: &str = "Files:
  MAP     the grid: a MovingAI map of type octile
  SCEN    the agents: a MovingAI scenario of version 1, of which the first K rows count
  PLAN    the plan text, and CERT its certificate: solve writes both, check reads both, and
          play, dispatch and follow read PLAN
  EVENTS  the agents that ask to go on, one after another: dispatch reads it

Examples:
  mapf solve grid.map agents.scen 5 1000 plan.txt cert.txt
  mapf check grid.map agents.scen 5 plan.txt cert.txt
  mapf play grid.map agents.scen 5 plan.txt
  mapf dispatch grid.map agents.scen 5 plan.txt events.txt
  mapf follow grid.map agents.scen 5 plan.txt
  mapf explain 'F2 S7 32'

Standard output of solve is one line, such as 'cost 5', of check one line, such as 'optimal 5', of
play the grid at each tick, of dispatch a reply to each event, such as 'go 1 1,1', of follow one to
each request on standard input, as it comes, of explain a line in words, and without arguments the
plan text, the certificate and the verdict of the built-in problem.

Exit status:
  0  solved, accepted, shown, dispatched, followed, or explained
  1  check refused the plan text or the certificate
  2  an error or a usage error, with a message on standard error
  3  solve found that no plan is valid
  4  solve reached a limit: it shows a bound alone, beside a plan or without one

Errors, with details in the same line, which explain puts into words: F1 the map, F2 the scenario,
F3 a plan that can't be played or followed, events or requests, F4 a file that can't be read, F5 one
that can't be written, F6 out of memory.";

const SOLVE_ABOUT: &str =
    "Finds an optimal plan for the first K agents, and writes it with its certificate";

const SOLVE_OUTPUT: &str =
    "PLAN and CERT have to be two different files, and neither of them may be MAP or SCEN: otherwise
nothing is written. They are made or emptied before MAP and SCEN are read.

Standard output has one line:
  cost C               the sum of the agents' costs, in ticks
  impossible           no plan is valid
  limit S bound B      no plan, with S splits allowed; no valid plan costs less than B
  limit ticks bound B  no plan, since the agents have a conflict too late; B as above
  within B C           by cbsh at a limit: a plan that costs C; no valid plan costs less than B

Example:
  mapf solve grid.map agents.scen 5 1000 plan.txt cert.txt
    plans for the first 5 agents of agents.scen, with at most 1000 splits, and prints 'cost 104'

Exit status:
  0  solved
  2  an error or a usage error, with a message on standard error
  3  impossible
  4  a limit was reached";

const CHECK_ABOUT: &str =
    "Checks whether CERT shows what PLAN says: a plan that is optimal, none that is valid, or a bound";

const CHECK_OUTPUT: &str = "Standard output has one line:
  optimal C    the plan is valid, costs C, and no valid plan costs less
  within B C   the plan is valid, costs C, and no valid plan costs less than B
  bound B      PLAN says that a limit was reached, and no valid plan costs less than B
  impossible   no plan is valid
  refused ..   the texts don't show it, with the reason

Example:
  mapf check grid.map agents.scen 5 plan.txt cert.txt
    checks a plan for the first 5 agents of agents.scen, and prints 'optimal 104'

Exit status:
  0  accepted
  1  refused
  2  an error or a usage error, with a message on standard error";

const PLAY_ABOUT: &str = "Shows where the agents of a valid plan are, tick by tick";

const PLAY_OUTPUT: &str =
    "Standard output has, for each tick, a line 'tick T' and a line for each row of the grid, and
last a line 'end M' with the makespan M, in ticks. In a row:
  .  a free cell
  @  a blocked cell
  0  an agent: 0 to 9, a to z for 10 to 35, A to Z for 36 to 61, * from 62 on

If PLAN holds no plan, or a plan for another number of agents, or one that isn't valid, it can't be
played (F3), and standard output is empty.

Example:
  mapf play grid.map agents.scen 5 plan.txt

Exit status:
  0  shown
  2  an error or a usage error, with a message on standard error";

const DISPATCH_ABOUT: &str =
    "Tells agents that follow a valid plan, each at its own pace, whether they may go on";

const DISPATCH_OUTPUT: &str =
    "All agents begin where their paths begin. An event is one agent that asks to go on into the next cell
of its path. EVENTS has a line 'mapf-events 1', for each event a line with the agent's number, 0 to
K-1, and last a line 'end'. Standard output has a line for each event:
  go I x,y     agent I goes on into this cell, given by its column and row
  hold I by J  agent I stays, and may ask again later: agent J, the least such agent, hasn't yet left
               this cell, through which the plan takes it first
  done I       agent I is at the end of its path

An agent may wait in any cell for any time, but counts as being in the next cell as soon as 'go' is
printed: send the next event only after the agent has arrived. Then, whatever the events, no two
agents are ever in one cell, and none is told to go into a cell in which another is. It isn't
promised that some agent may go on: agents that rotate on a cycle with no free cell between them are
held at every request.

If PLAN can't be followed or EVENTS can't be read (F3), standard output is empty.

Example:
  mapf dispatch grid.map agents.scen 5 plan.txt events.txt
    prints a reply to each event, such as 'go 1 1,1'

Exit status:
  0  dispatched
  2  an error or a usage error, with a message on standard error";

const FOLLOW_ABOUT: &str =
    "Tells agents that follow a valid plan whether they may go on, while their requests come";

const FOLLOW_OUTPUT: &str =
    "Standard input has a line 'mapf-events 1', and then one request a line. Each request is answered by
one line on standard output before mapf reads on:
  I        agent I, 0 to K-1, asks to go on: the answer is 'go I x,y', 'hold I by J' or 'done I', as
           dispatch gives it
  status   the answer is 'cycle', and then the numbers of the agents that stand in full cycles:
           cycles of agents of which each is held by the next, so that all of them wait for ever
  end      there are no more requests; the end of the input between two lines is the same

Any other line is no request, and changes nothing. Its answer is one of:
  error E1 LINE  this line of standard input is no request, and changes nothing
  error E3 LINE  it is the number of no agent

An agent counts as being in the next cell as soon as 'go' is printed: let no agent ask until this
agent has arrived. Then, whatever is asked, no two agents are ever in one cell.

Standard output is empty if PLAN can't be followed, or if the first line isn't that title (F3).

Example:
  mapf follow grid.map agents.scen 5 plan.txt
    answers each line of standard input, such as '1', by a line such as 'go 1 1,1'

Exit status:
  0  followed
  2  an error or a usage error, with a message on standard error";

const EXPLAIN_ABOUT: &str = "Says in words what a line means that mapf prints";

const EXPLAIN_OUTPUT: &str =
    "LINE is one argument: an error of standard error, or a line of standard output, but no row of a
grid. No file is opened.

Example:
  mapf explain 'F2 S7 32'
    prints that the scenario ends after 32 rows

Exit status:
  0  explained
  2  mapf prints no such line, or a usage error, with a message on standard error";

const MAP: &str = "The grid: a MovingAI map of type octile";

const SCEN: &str = "The agents: a MovingAI scenario of version 1 for that map";

const K: &str = most_agents!("How many agents: the first K rows of SCEN, 1 to ");

const SEARCH: &str =
    "The search: cbs, which is plain conflict-based search, or cbsh, a second one, whose
answer is checked before it is written; cbs unless told";

const IMPROVE: &str =
    "How often cbsh may improve its first plan, 0 to 1000000; 50 for each agent unless told";

const LIMIT: &str = most_splits!("How often the search may split on a conflict, 0 to ");

const JSON: &str = "Print one JSON object in place of the line, and one for an error too";

fn file<'a>(alloc: Global, name: &'a str, help: &'a str) -> Arg<'a>
    ensures rule { rule_of result ≡ file_argument name.entry.now }
    ensures local { result.global ≡ false }
{
    Arg::new(alloc, name).required(true).help(help)
}

fn number<'a>(alloc: Global, name: &'a str, low: u32, high: u32, help: &'a str) -> Arg<'a>
    ensures rule { rule_of result ≡ number_argument name.entry.now low high }
    ensures local { result.global ≡ false }
{
    Arg::new(alloc, name)
        .required(true)
        .value_parser(value_parser!(u32).range(i64::from(low)..=i64::from(high)))
        .help(help)
}

// Returns the option by which a search is chosen.
fn search<'a>(alloc: Global) -> Arg<'a>
    ensures rule { rule_of result ≡ option_argument (codes "search") }
    ensures local { result.global ≡ false }
{
    Arg::new(alloc, "search")
        .long("search")
        .value_name("NAME")
        .help(SEARCH)
}

// Returns the option by which a number of improvements is asked for.
fn improve<'a>(alloc: Global) -> Arg<'a>
    ensures rule { rule_of result ≡ number_option (codes "improve") 0 most_improvements }
    ensures local { result.global ≡ false }
{
    Arg::new(alloc, "improve")
        .long("improve")
        .value_name("N")
        .value_parser(value_parser!(u32).range(0..=i64::from(MOST_IMPROVEMENTS)))
        .help(IMPROVE)
}

// Returns the flag by which an object of JSON is asked for.
fn json<'a>(alloc: Global) -> Arg<'a>
    ensures rule { rule_of result ≡ flag_argument (codes "json") }
    ensures local { result.global ≡ false }
{
    Arg::new(alloc, "json")
        .long("json")
        .action(ArgAction::SetTrue)
        .help(JSON)
}

fn solve<'a>(alloc: Global) -> Result<Command<'a>, AllocError>
    ensures { IfOk result (IsCommand solve_command) }
{
    Command::new(alloc, "solve")
        .about(SOLVE_ABOUT)
        .after_help(SOLVE_OUTPUT)
        .arg(file(alloc, "MAP", MAP))?
        .arg(file(alloc, "SCEN", SCEN))?
        .arg(number(alloc, "K", 1, MOST_AGENTS, K))?
        .arg(number(alloc, "LIMIT", 0, MOST_SPLITS, LIMIT))?
        .arg(file(alloc, "PLAN", "Where the plan text is written"))?
        .arg(file(alloc, "CERT", "Where the certificate is written"))?
        .arg(search(alloc))?
        .arg(improve(alloc))?
        .arg(json(alloc))
}

fn check<'a>(alloc: Global) -> Result<Command<'a>, AllocError>
    ensures { IfOk result (IsCommand check_command) }
{
    Command::new(alloc, "check")
        .about(CHECK_ABOUT)
        .after_help(CHECK_OUTPUT)
        .arg(file(alloc, "MAP", MAP))?
        .arg(file(alloc, "SCEN", SCEN))?
        .arg(number(alloc, "K", 1, MOST_AGENTS, K))?
        .arg(file(alloc, "PLAN", "The plan text, as solve wrote it"))?
        .arg(file(alloc, "CERT", "The certificate, as solve wrote it"))?
        .arg(json(alloc))
}

fn play<'a>(alloc: Global) -> Result<Command<'a>, AllocError>
    ensures { IfOk result (IsCommand play_command) }
{
    Command::new(alloc, "play")
        .about(PLAY_ABOUT)
        .after_help(PLAY_OUTPUT)
        .arg(file(alloc, "MAP", MAP))?
        .arg(file(alloc, "SCEN", SCEN))?
        .arg(number(alloc, "K", 1, MOST_AGENTS, K))?
        .arg(file(alloc, "PLAN", "The plan text, as solve wrote it"))
}

fn dispatch<'a>(alloc: Global) -> Result<Command<'a>, AllocError>
    ensures { IfOk result (IsCommand dispatch_command) }
{
    Command::new(alloc, "dispatch")
        .about(DISPATCH_ABOUT)
        .after_help(DISPATCH_OUTPUT)
        .arg(file(alloc, "MAP", MAP))?
        .arg(file(alloc, "SCEN", SCEN))?
        .arg(number(alloc, "K", 1, MOST_AGENTS, K))?
        .arg(file(alloc, "PLAN", "The plan text, as solve wrote it"))?
        .arg(file(
            alloc,
            "EVENTS",
            "The agents that ask to go on, one after another",
        ))
}

fn follow<'a>(alloc: Global) -> Result<Command<'a>, AllocError>
    ensures { IfOk result (IsCommand follow_command) }
{
    Command::new(alloc, "follow")
        .about(FOLLOW_ABOUT)
        .after_help(FOLLOW_OUTPUT)
        .arg(file(alloc, "MAP", MAP))?
        .arg(file(alloc, "SCEN", SCEN))?
        .arg(number(alloc, "K", 1, MOST_AGENTS, K))?
        .arg(file(alloc, "PLAN", "The plan text, as solve wrote it"))
}

fn explain<'a>(alloc: Global) -> Result<Command<'a>, AllocError>
    ensures { IfOk result (IsCommand explain_command) }
{
    Command::new(alloc, "explain")
        .about(EXPLAIN_ABOUT)
        .after_help(EXPLAIN_OUTPUT)
        .arg(file(alloc, "LINE", "The line, as 'F2 S7 32'"))
}

// Returns the program without its commands.
fn program<'a>(alloc: Global) -> Command<'a>
    ensures { app_of result ≡ program }
{
    Command::new(alloc, "mapf")
        .version(VERSION)
        .about(ABOUT)
        .after_help(OVERVIEW)
        .override_usage("mapf [COMMAND]")
        .subcommand_required(true)
}

/// Returns the description of the arguments that the program takes.
pub fn mapf<'a>(alloc: Global) -> Result<Command<'a>, AllocError>
    ensures { IfOk result (λ command. app_of command ≡ mapf_command) }
{
    program(alloc)
        .subcommand(solve(alloc)?)?
        .subcommand(check(alloc)?)?
        .subcommand(play(alloc)?)?
        .subcommand(dispatch(alloc)?)?
        .subcommand(follow(alloc)?)?
        .subcommand(explain(alloc)?)
}
