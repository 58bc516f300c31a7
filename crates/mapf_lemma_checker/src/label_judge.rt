//! The judges of lemmas by labels and by joint cells. The judge of parts calls them with what was read, and makes the
//! lemma's statement of the bound that they return.
ghost use Rattle.std.specs.Prelude.{◌≡◌, ◌≤◌, ◌*◌, ◌≢◌, ℕ, IfOk, IfErr, OnOk, None, Some, length, slice_get, ◌<◌};
ghost use Rattle.mapf_distance.specs.Tables.{AreMade, HasTable};
ghost use Rattle.mapf_lemma_texts.specs.declared.part.Part.TheVariants as parts;
ghost use Rattle.mapf_model.specs.Grid.{IsFree};
ghost use Rattle.mapf_model.specs.Limits.{most_cells};
ghost use Rattle.mapf_lemmas.specs.Prices.{no_list};
ghost use Rattle.mapf_lemma_checker.specs.Faults.{IsRefusedFor};
ghost use Rattle.mapf_lemma_checker.specs.declared.fault.LemmaFault.TheVariants.{Refused};
ghost use Rattle.mapf_lemma_checker.specs.declared.fault.LemmaRefusal.TheVariants.{C7};
ghost use Rattle.mapf_lemma_checker.specs.LemmaParts.{AreCellPricesSmall, IsPartOf, IsSmallBound};
ghost use Rattle.mapf_lemma_checker.specs.LemmaParts.{HasStatement, HasNoStatement};
ghost use Rattle.mapf_lemma_checker.specs.LemmaParts.{IsAgentTask, one_of, two_of, never_of};
ghost use Rattle.mapf_lemma_checker.specs.LemmaParts.{one_statement, two_statement, never_statement};

use crate::constraints::{judge_constraints, line_at};
use crate::fault::{LemmaFault, LemmaRefusal};
use mapf_distance::LazyTables;
use mapf_joint_labels::{CellRuns, NeverFault, Pair, PairMarks, TwoFault, judge_closed, judge_two};
use mapf_lemma_texts::{NeverLemma, OneLemma, TwoLemma};
use mapf_lemmas::Amount;
use mapf_model::{Agent, OutOfMemory, Problem};
use mapf_single_labels::{PriceTable, SingleTask, TaskConstraints, judge_one};
use std::alloc::Global;

/// What the judges of lemmas keep from lemma to lemma: the distances to the goals of the agents that had a lemma so
/// far, and marks for the cells, which are made at the first lemma that needs them.
#[derive(Drop)]
pub struct LabelJudge {
    alloc: Global,
    tables: LazyTables,
    marks: PairMarks,
    runs: CellRuns,
}

impl LabelJudge {
    /// Returns the state before the first lemma.
    pub fn new(alloc: Global, problem: &Problem) -> Result<LabelJudge, OutOfMemory>
        ensures { IfOk result (λ judge. AreMade problem.now judge.tables) }
    {
        Ok(LabelJudge {
            alloc,
            tables: LazyTables::of(alloc, problem)?,
            marks: PairMarks::new(alloc),
            runs: CellRuns::new(alloc),
        })
    }

    /// Judges a lemma of one agent that begins in this line. Returns its bound, in units of its price list. A lemma
    /// without a list is judged with the table that has no prices.
    pub fn one(
        &mut self,
        problem: &Problem,
        prices: &PriceTable,
        lemma: &OneLemma,
        line: u64,
    ) -> Result<Amount, LemmaFault>
        requires tables { AreMade problem.now self.old.tables }
        requires part { (lists : ℕ) × IsPartOf problem.now lists (parts.One lemma.now) }
        requires plain { lemma.now.list_number ≡ None → prices.now ≡ no_list }
        requires prices { AreCellPricesSmall prices.now }
        ensures tables { OnOk result (AreMade problem.now self.new.tables) }
        ensures shown { IfOk result (λ least. HasStatement problem.now prices.now (one_of lemma.now)
            lemma.now.list_number (one_statement lemma.now least)) }
        ensures small { IfOk result (IsSmallBound lemma.now.list_number) }
        ensures refused { IfErr result (IsRefusedFor
            (HasNoStatement problem.now prices.now (one_of lemma.now) lemma.now.list_number)) }
    {
        let first = line.saturating_add(1);
        judge_constraints(problem.grid(), &lemma.constraints, first)?;
        self.tables.make(self.alloc, problem, lemma.agent)?;
        self.marks.first.make(cell_count(problem))?;
        let own = TaskConstraints::of_agent(self.alloc, &lemma.constraints, lemma.agent)?;
        let task = SingleTask::of_agent(problem, &self.tables, prices, &own, lemma.agent);
        match judge_one(&task, &mut self.marks.first, &lemma.entries) {
            Ok(bound) => Ok(bound),
            Err(place) => Err(unsound(line_at(line_at(first, lemma.constraints.len()), place))),
        }
    }

    /// Judges a lemma of two agents by labels that begins in this line. Returns its bound, in units of its price list.
    /// A lemma without a list is judged with the table that has no prices.
    pub fn two<'x>(
        &mut self,
        problem: &'x Problem,
        prices: &'x PriceTable,
        lemma: &'x TwoLemma,
        line: u64,
    ) -> Result<Amount, LemmaFault>
        requires tables { AreMade problem.now self.old.tables }
        requires part { (lists : ℕ) × IsPartOf problem.now lists (parts.Two lemma.now) }
        requires plain { lemma.now.list_number ≡ None → prices.now ≡ no_list }
        requires prices { AreCellPricesSmall prices.now }
        ensures tables { OnOk result (AreMade problem.now self.new.tables) }
        ensures shown { IfOk result (λ least. HasStatement problem.now prices.now (two_of lemma.now)
            lemma.now.list_number (two_statement lemma.now least)) }
        ensures small { IfOk result (IsSmallBound lemma.now.list_number) }
        ensures refused { IfErr result (IsRefusedFor
            (HasNoStatement problem.now prices.now (two_of lemma.now) lemma.now.list_number)) }
    {
        let first = line.saturating_add(1);
        judge_agents(lemma.i, lemma.j, line)?;
        judge_constraints(problem.grid(), &lemma.constraints, first)?;
        self.tables.make(self.alloc, problem, lemma.i)?;
        self.tables.make(self.alloc, problem, lemma.j)?;
        self.marks.make(cell_count(problem))?;
        let own = TaskConstraints::of_agent(self.alloc, &lemma.constraints, lemma.i)?;
        let other = TaskConstraints::of_agent(self.alloc, &lemma.constraints, lemma.j)?;
        let (one, two) = tasks_of(problem, &self.tables, prices, &own, &other, lemma);
        let pair = Pair {
            first_task: &one,
            second_task: &two,
            first: &lemma.first,
            second: &lemma.second,
            joint: &lemma.joint,
        };
        match judge_two(&pair, &mut self.marks) {
            Ok(bound) => Ok(bound),
            Err(fault) => Err(unsound(line_of_entry(lemma, fault, first))),
        }
    }

    /// Judges a lemma of two agents by joint cells that begins in this line.
    pub fn never(
        &mut self,
        problem: &Problem,
        lemma: &NeverLemma,
        line: u64,
    ) -> Result<(), LemmaFault>
        requires part { (lists : ℕ) × IsPartOf problem.now lists (parts.Never lemma.now) }
        ensures tables { self.new.tables ≡ self.old.tables }
        ensures shown { OnOk result
            (HasStatement problem.now no_list (never_of lemma.now) None (never_statement lemma.now)) }
        ensures refused { IfErr result (IsRefusedFor
            (HasNoStatement problem.now no_list (never_of lemma.now) None)) }
    {
        judge_agents(lemma.i, lemma.j, line)?;
        self.runs.make(cell_count(problem))?;
        let first = agent_at(problem, lemma.i);
        let second = agent_at(problem, lemma.j);
        match judge_closed(
            problem.grid(),
            &first,
            &second,
            &mut self.runs,
            &lemma.cells,
        ) {
            Ok(()) => Ok(()),
            Err(NeverFault::Starts) => Err(unsound(line)),
            Err(NeverFault::Cell(place)) => Err(unsound(line_at(line, place).saturating_add(1))),
        }
    }
}

// Returns the agent of this number.
fn agent_at(problem: &Problem, agent: u32) -> Agent
    requires { agent < length problem.now.agents }
    ensures is { slice_get problem.now.agents agent ≡ Some result }
    ensures free { IsFree problem.now.grid result.start }
{
    problem.agents()[agent as usize]
}

// Returns how many cells the problem's grid has.
fn cell_count(problem: &Problem) -> usize
    ensures value { result ≡ problem.now.grid.width * problem.now.grid.height }
    ensures free { result ≡ length problem.now.grid.free }
    ensures few { result ≤ most_cells }
{
    let grid = problem.grid();
    (grid.width() * grid.height()) as usize
}

// Checks that the two agents of the lemma in this line are different (rule 1).
fn judge_agents(i: u32, j: u32, line: u64) -> Result<(), LemmaFault>
    ensures differ { OnOk result (i ≢ j) }
    ensures refused { IfErr result (IsRefusedFor (i ≡ j)) }
{
    if i == j {
        return Err(LemmaFault::Refused(LemmaRefusal::C10(line)));
    }
    Ok(())
}

// Returns the line of an entry of a lemma whose first constraint, or entry, stands in this line.
fn line_of_entry(lemma: &TwoLemma, fault: TwoFault, first: u64) -> u64 {
    let entries = line_at(first, lemma.constraints.len());
    let second = line_at(entries, lemma.first.len());
    match fault {
        TwoFault::First(place) => line_at(entries, place),
        TwoFault::Second(place) => line_at(second, place),
        TwoFault::Joint(place) => line_at(line_at(second, lemma.second.len()), place),
    }
}

fn unsound(line: u64) -> LemmaFault
    ensures { result ≡ Refused (C7 line) }
{
    LemmaFault::Refused(LemmaRefusal::C7(line))
}

// Returns the tasks of both agents of a lemma, under these constraints. The tables of their distances must have been
// made.
fn tasks_of<'t>(
    problem: &'t Problem,
    tables: &'t LazyTables,
    prices: &'t PriceTable,
    own: &'t TaskConstraints,
    other: &'t TaskConstraints,
    lemma: &TwoLemma,
) -> (SingleTask<'t>, SingleTask<'t>)
    requires tables { AreMade problem.now tables.now }
    requires first { HasTable tables.now lemma.now.i }
    requires second { HasTable tables.now lemma.now.j }
    ensures first { IsAgentTask problem.entry.now prices.entry.now own.entry.now lemma.entry.now.i result.0 }
    ensures second { IsAgentTask problem.entry.now prices.entry.now other.entry.now lemma.entry.now.j result.1 }
{
    (
        SingleTask::of_agent(problem, tables, prices, own, lemma.i),
        SingleTask::of_agent(problem, tables, prices, other, lemma.j),
    )
}
