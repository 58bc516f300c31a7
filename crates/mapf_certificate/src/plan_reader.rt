//! The reader of plan texts. The checker calls it, and so do the runs of `play`, `dispatch` and `follow`.
ghost use Rattle.std.specs.Prelude.{◌≡◌, ◌<◌, ◌≤◌, ◌+◌, ◌++◌, ℕ, List, All, Ok, Err, true, codes, length};
ghost use Rattle.std.specs.Prelude.{◌↔◌, IsOk, IsSome, IfSome, IfOk, IsOkAnd};
ghost use Rattle.mapf_model.specs.Printed.{IsOnGrid, IsPathInRange};
ghost use Rattle.mapf_model.specs.Limits.{most_path_cells};
ghost use Rattle.mapf_model.specs.Path.{IsTight};
ghost use Rattle.mapf_fields.specs.Numbers.{Gives};
ghost use Rattle.mapf_certificate.specs.Lines.{grid_for};
ghost use Rattle.mapf_certificate.specs.Plans.{ArePaths, cells_text, path_words, paths_text, cost_of, plan_text};
ghost use Rattle.mapf_certificate.specs.Plans.{IsAnswerInRange, IsPlanText, IsPathOf};
ghost use Rattle.mapf_certificate.specs.PlanReading.{next_line, next_words, next_title, next_agents, next_answer};
ghost use Rattle.mapf_certificate.specs.PlanReading.{read_end, read_header, line_of, rest_of, IsAnswerLine};
ghost use Rattle.mapf_certificate.specs.PlanReading.{read_pair_cell, fault_at, OrMemory};

use crate::plan_lines::{AnswerLine, agents_line, answer_line, path_front, title_line};
use crate::plan_text::{PlanAnswer, PlanText, PlanTextFault};
use crate::sizes::Sizes;
use crate::version::Version;
use mapf_fields::{LineFault, below, cut, pair, up_to};
use mapf_model::limits::GREATEST_COST;
use mapf_model::{Cause, Cell, Grid, Path, Plan};
use std::alloc::Global;

#[tactic(auto, unfolding(crate::specs::PlanReading::next_line))]
fn line_at(number: u64, bytes: &[u8]) -> Result<(&[u8], &[u8]), PlanTextFault>
    ensures { Gives (λ p. (p.0.now, p.1.now)) result (next_line number bytes.entry.now) }
{
    match cut(bytes) {
        Some(parts) => Ok(parts),
        None => Err(PlanTextFault::P2(number)),
    }
}

fn fault_of_line(number: u64, fault: LineFault) -> PlanTextFault
    ensures { fault_at {A = ℕ} number (Err fault) ≡ Err result }
{
    match fault {
        LineFault::Shape => PlanTextFault::P1(number),
        LineFault::Range => PlanTextFault::P3(number),
    }
}

// Takes the next line, which has to consist of these words.
#[tactic(auto, unfolding(crate::specs::PlanReading::next_words))]
fn take_words<'a>(number: u64, words: &[u8], bytes: &'a [u8]) -> Result<&'a [u8], PlanTextFault>
    ensures { Gives (λ r. r.now) result (next_words number words.now bytes.entry.now) }
{
    let (line, rest) = line_at(number, bytes)?;
    if line == words {
        Ok(rest)
    } else {
        Err(PlanTextFault::P1(number))
    }
}

// Takes line 1.
#[tactic(auto, unfolding(crate::specs::PlanReading::next_title))]
fn take_title(bytes: &[u8]) -> Result<(Version, &[u8]), PlanTextFault>
    ensures { Gives (λ p. (p.0, p.1.now)) result (next_title bytes.entry.now) }
{
    let (line, rest) = line_at(1, bytes)?;
    match title_line(line) {
        Ok(version) => Ok((version, rest)),
        Err(fault) => Err(fault_of_line(1, fault)),
    }
}

// Takes line 2.
#[tactic(auto, unfolding(crate::specs::PlanReading::next_agents))]
fn take_agents(bytes: &[u8]) -> Result<(u32, &[u8]), PlanTextFault>
    ensures { Gives (λ p. (p.0, p.1.now)) result (next_agents bytes.entry.now) }
{
    let (line, rest) = line_at(2, bytes)?;
    match agents_line(line) {
        Ok(agents) => Ok((agents, rest)),
        Err(fault) => Err(fault_of_line(2, fault)),
    }
}

// Takes line 3.
#[tactic(auto, unfolding(crate::specs::PlanReading::next_answer))]
fn take_answer(version: Version, bytes: &[u8]) -> Result<(AnswerLine, &[u8]), PlanTextFault>
    ensures { Gives (λ p. (p.0, p.1.now)) result (next_answer version bytes.entry.now) }
{
    let (line, rest) = line_at(3, bytes)?;
    match answer_line(version, line) {
        Ok(answer) => Ok((answer, rest)),
        Err(fault) => Err(fault_of_line(3, fault)),
    }
}

// Checks that the line is `end`, and that nothing follows it.
#[tactic(auto, unfolding(crate::specs::PlanReading::read_end))]
fn end(number: u64, bytes: &[u8]) -> Result<(), PlanTextFault>
    requires { number < 1000 }
    ensures { result ≡ read_end number bytes.now }
{
    let rest = take_words(number, b"end", bytes)?;
    if rest.is_empty() {
        Ok(())
    } else {
        Err(PlanTextFault::P4(number + 1))
    }
}

// Reads the pair that bytes begin with. Returns its cell, None if it isn't on the grid, and what follows.
#[tactic(auto, unfolding(crate::specs::PlanReading::read_pair_cell))]
fn pair_cell<'a>(bytes: &'a [u8], sizes: &Sizes) -> Result<(Option<Cell>, &'a [u8]), LineFault>
    ensures { Gives (λ p. (p.0, p.1.now)) result (read_pair_cell sizes.now bytes.entry.now) }
{
    let (x, y, rest) = pair(bytes)?;
    Ok((sizes.cell(x, y).ok(), rest))
}

/// The pairs of a path's line: whether each is a cell of the grid, and the cells before the first that isn't.
#[derive(Drop)]
struct Pairs {
    cells: Vec<Cell>,
    are_cells: bool,
}

fn pairs_of(alloc: Global, number: u64, bytes: &[u8], sizes: &Sizes) -> Result<Pairs, PlanTextFault>
    ensures found { IfOk result (λ p. p.are_cells ≡ true
        → All (IsOnGrid (grid_for sizes.now)) p.cells.items × (bytes.now ≡ cells_text sizes.now.width p.cells.items)) }
    ensures only { (path : List ℕ) → All (IsOnGrid (grid_for sizes.now)) path
        → bytes.now ≡ cells_text sizes.now.width path
        → OrMemory result (IsOkAnd result (λ p. (p.are_cells ≡ true) × (p.cells.items ≡ path))) }
{
    let mut cells = Vec::new(alloc);
    let mut are_cells = true;
    let mut rest = bytes;
    while !rest.is_empty() {
        let (cell, after) = match pair_cell(rest, sizes) {
            Ok(parts) => parts,
            Err(fault) => return Err(fault_of_line(number, fault)),
        };
        match cell {
            Some(cell) if are_cells => {
                if cells.push(cell).is_err() {
                    return Err(PlanTextFault::Memory);
                }
            }
            Some(_) => {}
            None => are_cells = false,
        }
        rest = after;
    }
    Ok(Pairs { cells, are_cells })
}

// Reads the next line, the path of this agent.
fn path_of(
    alloc: Global,
    number: u64,
    due: u32,
    line: &[u8],
    sizes: &Sizes,
) -> Result<Path, PlanTextFault>
    ensures found { IfOk result (λ path.
        IsPathInRange (grid_for sizes.now) path × (line.now ≡ path_words sizes.now.width due path)) }
    ensures only { (path : List ℕ) → IsPathInRange (grid_for sizes.now) path → due < sizes.now.agents
        → line.now ≡ path_words sizes.now.width due path → OrMemory result (result ≡ Ok path) }
{
    let (agent, cost, rest) = match path_front(line) {
        Ok(parts) => parts,
        Err(fault) => return Err(fault_of_line(number, fault)),
    };
    let pairs = pairs_of(alloc, number, rest, sizes)?;
    match judge_path(agent, cost, due, &pairs, sizes) {
        Ok(()) => {}
        Err(fault) => return Err(fault_of_line(number, fault)),
    }
    match tight(pairs.cells) {
        Some(path) => Ok(path),
        None => Err(PlanTextFault::P1(number)),
    }
}

// Returns the path of these cells, None if the last two are equal.
fn tight(cells: Vec<Cell>) -> Option<Path>
    ensures tight { IsSome result
        ↔ ((1 ≤ length cells.items) × (length cells.items ≤ most_path_cells) × IsTight cells.items) }
    ensures value { IfSome result (λ path. path ≡ cells.items) }
{
    match Path::of(cells) {
        Some(path) if path.is_tight() => Some(path),
        _ => None,
    }
}

// Checks that the agent is the expected one, that the cost is one less than the number of pairs, and that all are in
// their ranges.
fn judge_path(
    agent: Option<u64>,
    cost: Option<u64>,
    due: u32,
    pairs: &Pairs,
    sizes: &Sizes,
) -> Result<(), LineFault>
    ensures { IsOk result
        ↔ IsPathOf sizes.now.agents agent cost due pairs.now.are_cells (length pairs.now.cells.items) }
{
    let agent = below(sizes.agents, agent)?;
    let cost = up_to(GREATEST_COST, cost)?;
    if !pairs.are_cells {
        return Err(LineFault::Range);
    }
    if agent == due && pairs.cells.len() as u64 == cost as u64 + 1 {
        Ok(())
    } else {
        Err(LineFault::Shape)
    }
}

// Reads the paths of all agents. Returns them, the sum of their costs, and what follows.
fn paths_of<'a>(
    alloc: Global,
    bytes: &'a [u8],
    sizes: &Sizes,
) -> Result<(Vec<Path>, u64, &'a [u8]), PlanTextFault>
    ensures found { IfOk result (λ p.
        ArePaths (grid_for sizes.now) sizes.now.agents bytes.entry.now p.0.items p.1 p.2.now) }
    ensures only { (plan : List (List ℕ)) (rest : List ℕ) → length plan ≡ sizes.now.agents
        → All (IsPathInRange (grid_for sizes.now)) plan
        → bytes.entry.now ≡ paths_text sizes.now.width 0 plan ++ rest
        → OrMemory result (IsOkAnd result (λ p. (p.0.items ≡ plan) × (p.2.now ≡ rest))) }
{
    let mut paths = Vec::new(alloc);
    let mut sum = 0u64;
    let mut rest = bytes;
    for due in 0..sizes.agents {
        let number = 4 + due as u64;
        let (line, after) = line_at(number, rest)?;
        let path = path_of(alloc, number, due, line, sizes)?;
        sum += path.cells().len() as u64 - 1;
        if paths.push(path).is_err() {
            return Err(PlanTextFault::Memory);
        }
        rest = after;
    }
    Ok((paths, sum, rest))
}

fn plan_of(alloc: Global, bytes: &[u8], cost: u64, sizes: &Sizes) -> Result<Plan, PlanTextFault>
    ensures found { IfOk result (λ plan.
        (length plan ≡ sizes.now.agents) × All (IsPathInRange (grid_for sizes.now)) plan
        × (cost ≡ cost_of plan) × (bytes.now ≡ paths_text sizes.now.width 0 plan ++ codes "end\n")) }
    ensures only { (plan : List (List ℕ)) → length plan ≡ sizes.now.agents
        → All (IsPathInRange (grid_for sizes.now)) plan → cost ≡ cost_of plan
        → bytes.now ≡ paths_text sizes.now.width 0 plan ++ codes "end\n" → OrMemory result (result ≡ Ok plan) }
{
    let (paths, sum, rest) = paths_of(alloc, bytes, sizes)?;
    end(4 + sizes.agents as u64, rest)?;
    match Plan::of(paths) {
        Some(plan) if sum == cost => Ok(plan),
        _ => Err(PlanTextFault::P1(3)),
    }
}

// Takes the first three lines.
#[tactic(auto, unfolding(crate::specs::PlanReading::read_header))]
fn take_header(bytes: &[u8]) -> Result<(Version, u32, AnswerLine, &[u8]), PlanTextFault>
    ensures { Gives (λ p. (p.0, p.1, p.2, p.3.now)) result (read_header bytes.entry.now) }
{
    let (version, rest) = take_title(bytes)?;
    let (agents, rest) = take_agents(rest)?;
    let (answer, rest) = take_answer(version, rest)?;
    Ok((version, agents, answer, rest))
}

fn limit_of(cause: Cause, bound: Option<u64>) -> PlanAnswer
    ensures { line_of result ≡ AnswerLine.Limit cause bound }
{
    match bound {
        Some(bound) => PlanAnswer::Bounded { cause, bound },
        None => PlanAnswer::Limit(cause),
    }
}

// Reads the rest of the answer whose line was read.
fn answer_of(
    alloc: Global,
    line: &AnswerLine,
    rest: &[u8],
    sizes: &Sizes,
) -> Result<PlanAnswer, PlanTextFault>
    requires { IsAnswerLine sizes.now.version line.now }
    ensures found { IfOk result (λ answer. IsAnswerInRange (grid_for sizes.now) sizes.now.agents answer
        × (line.now ≡ line_of answer) × (rest.now ≡ rest_of sizes.now.width answer)) }
    ensures only { (answer : PlanAnswer) → IsAnswerInRange (grid_for sizes.now) sizes.now.agents answer
        → line.now ≡ line_of answer → rest.now ≡ rest_of sizes.now.width answer
        → OrMemory result (result ≡ Ok answer) }
{
    match *line {
        AnswerLine::Cost(cost) => {
            let plan = plan_of(alloc, rest, cost, sizes)?;
            Ok(PlanAnswer::Found(plan))
        }
        AnswerLine::Impossible => {
            end(4, rest)?;
            Ok(PlanAnswer::Impossible)
        }
        AnswerLine::Limit { cause, bound } => {
            end(4, rest)?;
            Ok(limit_of(cause, bound))
        }
    }
}

/// Reads a plan text for a grid of this size.
pub fn read_plan(alloc: Global, bytes: &[u8], grid: &Grid) -> Result<PlanText, PlanTextFault>
    // If a plan text is returned, the bytes spell it.
    ensures found { IfOk result (λ p. IsPlanText grid.now p × (bytes.now ≡ plan_text grid.now.width p)) }
    // A plan text that the bytes spell is returned, unless memory runs out.
    ensures only { (p : PlanText) → IsPlanText grid.now p → bytes.now ≡ plan_text grid.now.width p
        → OrMemory result (result ≡ Ok p) }
{
    let (version, agents, line, rest) = take_header(bytes)?;
    let answer = answer_of(alloc, &line, rest, &Sizes::of(version, grid, agents))?;
    Ok(PlanText {
        version,
        agents,
        answer,
    })
}
