//! The judge of joint cells, which show that two agents can't both arrive: the set has the pair of starts and not that
//! of goals, and two moves without a conflict never lead out of it. The judge of certificates calls it.
ghost use Rattle.std.specs.Prelude.{◌≡◌, ◌↔◌, ℕ, All, AllPairs, Contains, Some, length};
ghost use Rattle.std.specs.Prelude.{IsTrue, IsOk, IfErr, IfNone, IfSome};
ghost use Rattle.mapf_model.specs.Grid.{IsFree, Step};
ghost use Rattle.mapf_lemmas.specs.JointCells.{IsClosed};
ghost use Rattle.mapf_lemmas.specs.JointLabels.{AreApart};
ghost use Rattle.mapf_joint_labels.specs.Runs.{AreRunsOf, CoverGrid, IsCellBefore, IsRunFor};
ghost use Rattle.mapf_joint_labels.specs.Never.{HasNext, IsClosedIn, IsFirstOpen, IsIndexed, IsNeverFault};
ghost use Rattle.mapf_joint_labels.specs.Never.{KeepsIn, StaysIn};

use crate::runs::{CellRuns, Run};
use mapf_lemmas::JointCell;
use mapf_model::{Agent, Cell, Grid, Neighbourhoods};

/// Why joint cells don't show that two agents can't both arrive.
#[derive(Clone, Copy, Debug, PartialEq, Eq)]
pub enum NeverFault {
    /// The starts of both agents aren't one of the joint cells.
    Starts,
    /// The starts are, but the joint cell at this index isn't as it should be: one of its cells is blocked, both are
    /// the same, or they are both goals; or two moves without a conflict lead from it to a pair that isn't one of the
    /// joint cells. Those before it are as they should be.
    Cell(usize),
}

/// Judges joint cells, which rise by the number of the first cell and then by that of the second. Ok is returned if and
/// only if the agents, whose starts are free, never leave them without a conflict, and both goals aren't among them.
pub fn judge_closed(
    grid: &Grid,
    first: &Agent,
    second: &Agent,
    runs: &mut CellRuns,
    cells: &[JointCell],
) -> Result<(), NeverFault>
    requires start { IsFree grid.now first.now.start }
    requires runs { CoverGrid grid.now runs.old }
    requires rising { AllPairs IsCellBefore cells.now }
    ensures closed { IsOk result ↔ IsClosed grid.now first.now second.now cells.now }
    ensures fault { IfErr result (IsNeverFault grid.now first.now second.now cells.now) }
    ensures runs { CoverGrid grid.now runs.new }
{
    mark(runs, cells);
    let set = CellSet {
        grid,
        first_goal: first.goal,
        second_goal: second.goal,
        cells,
        runs,
    };
    if !set.contains(first.start, second.start) {
        return Err(NeverFault::Starts);
    }
    match set.first_open() {
        Some(place) => Err(NeverFault::Cell(place)),
        None => Ok(()),
    }
}

// Sets the runs of the joint cells.
fn mark(runs: &mut CellRuns, cells: &[JointCell])
    requires { AllPairs IsCellBefore cells.now }
    ensures runs { AreRunsOf runs.new cells.now }
    ensures size { length runs.new ≡ length runs.old }
{
    let mut begin = 0;
    for k in 0..cells.len() {
        let first = cells[k].first;
        if cells[begin].first != first {
            begin = k;
        }
        runs.set(first, Run { begin, end: k + 1 });
    }
}

/// Joint cells on a grid with their runs, and the goals of both agents.
#[derive(Drop)]
struct CellSet<'a> {
    grid: &'a Grid,
    first_goal: Cell,
    second_goal: Cell,
    cells: &'a [JointCell],
    runs: &'a CellRuns,
}

impl<'a> CellSet<'a> {
    // Returns the index of the first joint cell that isn't as it should be, None if all are.
    fn first_open(&self) -> Option<usize>
        requires { IsIndexed self.now }
        ensures some { IfSome result (IsFirstOpen self.now) }
        ensures none { IfNone result (All (IsClosedIn self.now) self.now.cells.now) }
    {
        for (k, cell) in self.cells.iter().enumerate() {
            if !self.is_closed_at(cell) {
                return Some(k);
            }
        }
        None
    }

    // Returns whether the joint cell is as it should be.
    fn is_closed_at(&self, here: &JointCell) -> bool
        requires { IsIndexed self.now }
        ensures { IsTrue result ↔ IsClosedIn self.now here.now }
    {
        if !self.grid.is_free(here.first) || !self.grid.is_free(here.second) {
            return false;
        }
        if here.first == here.second {
            return false;
        }
        if here.first == self.first_goal && here.second == self.second_goal {
            return false;
        }
        self.stays(here)
    }

    // Returns whether each two moves without a conflict lead to one of the joint cells.
    fn stays(&self, here: &JointCell) -> bool
        requires indexed { IsIndexed self.now }
        requires first { IsFree self.now.grid.now here.now.first }
        requires second { IsFree self.now.grid.now here.now.second }
        ensures { IsTrue result ↔ StaysIn self.now.grid.now self.now.cells.now here.now }
    {
        let width = self.grid.width();
        let seconds = here.second.neighbourhood(width);
        for place in &here.first.neighbourhood(width) {
            if let Some(first) = *place {
                if !self.keeps(here, first, &seconds) {
                    return false;
                }
            }
        }
        true
    }

    // Returns whether the move of the first agent to this cell, if it is free, with each move of the second to a free
    // one of these leads to one of the joint cells or is a conflict.
    fn keeps(&self, here: &JointCell, first: Cell, seconds: &[Option<Cell>]) -> bool
        requires indexed { IsIndexed self.now }
        ensures { IsTrue result ↔ KeepsIn self.now here.now first seconds.now }
    {
        if !self.grid.is_free(first) {
            return true;
        }
        for place in seconds {
            if let Some(second) = *place {
                if !self.has_next(here, first, second) {
                    return false;
                }
            }
        }
        true
    }

    // Returns whether these two cells are one of the joint cells, or the second isn't free, or the moves to them are a
    // conflict. The first is free.
    #[inline(always)]
    fn has_next(&self, here: &JointCell, first: Cell, second: Cell) -> bool
        requires indexed { IsIndexed self.now }
        requires free { IsFree self.now.grid.now first }
        ensures { IsTrue result ↔ HasNext self.now here.now first second }
    {
        if !self.grid.is_free(second) || !are_apart(here, first, second) {
            return true;
        }
        self.contains(first, second)
    }

    // Returns whether these two cells are one of the joint cells. The first of them is free.
    #[inline(always)]
    fn contains(&self, first: Cell, second: Cell) -> bool
        requires indexed { IsIndexed self.now }
        requires free { IsFree self.now.grid.now first }
        ensures { IsTrue result ↔ Contains self.now.cells.now (record { first = first; second = second }) }
    {
        let place = place_in(self.cells, self.runs.get(first), second);
        match self.cells.get(place) {
            Some(found) => found.first == first && found.second == second,
            None => false,
        }
    }
}

/// Returns whether the moves of two agents from the one pair of cells to these are no conflict.
#[inline(always)]
pub fn are_apart(from: &JointCell, first: Cell, second: Cell) -> bool
    ensures { IsTrue result ↔ AreApart from.now.first from.now.second first second }
{
    first != second && (first != from.second || second != from.first)
}

// Returns the index at which the pair with this second cell stands in a run, if it stands in it. Searches by bisection.
#[inline(always)]
fn place_in(cells: &[JointCell], run: Run, second: Cell) -> usize
    ensures { (k : ℕ) (first : ℕ) → IsRunFor cells.now run k (record { first = first; second = second }) → result ≡ k }
{
    if run.end > cells.len() || run.end <= run.begin {
        return cells.len();
    }
    let mut place = run.begin;
    let mut size = run.end - run.begin;
    while size > 1 {
        let half = size / 2;
        if cells[place + half].second <= second {
            place += half;
        }
        size -= half;
    }
    place
}
