//! The search in depth over configurations.
ghost use Rattle.std.specs.Prelude.{IfOk};
ghost use Rattle.mapf_first_plan.specs.FirstPlan.{HasShape};

use crate::configuration::Visited;
use crate::ends::{goals_of, is_plainly_impossible, starts_of};
use crate::outcome::FirstPlan;
use crate::pibt::Pibt;
use crate::priority::{first_order, next_order};
use crate::task::Task;
use crate::trace::plan_to;
use indexmap::IndexMap;
use mapf_distance::Distances;
use mapf_model::{Cell, OutOfMemory, Problem};
use std::alloc::Global;

/// A good bound on the successors that are tried: the last search may try 100,000. For 200 agents so many take up to
/// 400 MB.
pub const SUCCESSORS_TO_TRY: u64 = 124_000;

// Most searches that end try fewer successors. One that doesn't is given up, and another one begins, which orders equally
// good steps in another way.
const SUCCESSORS_BEFORE_RESTART: u64 = 3_000;

// How many searches may be given up. The next one may try all successors that are left.
const RESTARTS: u32 = 8;

/// Searches for a plan, and tries at most `most` successors of configurations. The distances are those to the agents'
/// goals, by agent, as `mapf_distance::goal_tables` makes them. Each successor takes at most some time that grows with
/// the number of agents. Each new configuration is kept, in about 20 bytes for each agent. Out of memory is the only
/// error.
pub fn first_plan(
    alloc: Global,
    problem: &Problem,
    distances: &[Distances],
    most: u64,
) -> Result<FirstPlan, OutOfMemory>
    // A plan has a path for each agent.
    ensures { IfOk result (HasShape problem.now) }
{
    let task = Task {
        problem,
        distances,
        attempt: 0,
    };
    if is_plainly_impossible(alloc, &task)? {
        return Ok(FirstPlan::Impossible);
    }
    let mut left = most;
    for attempt in 0..RESTARTS {
        let share = left.min(SUCCESSORS_BEFORE_RESTART);
        left = left.saturating_sub(share);
        match plan_by(alloc, problem, distances, attempt, share)? {
            FirstPlan::Stopped => {}
            ended => return Ok(ended),
        }
    }
    plan_by(alloc, problem, distances, RESTARTS, left)
}

// Searches for a plan from the starts, and tries so many successors at most. Its number says how equally good steps are
// ordered.
fn plan_by(
    alloc: Global,
    problem: &Problem,
    distances: &[Distances],
    attempt: u32,
    most: u64,
) -> Result<FirstPlan, OutOfMemory>
    ensures { IfOk result (HasShape problem.now) }
{
    let task = Task {
        problem,
        distances,
        attempt,
    };
    let mut search = Search::of(alloc, task)?;
    match search.run(most)? {
        Ended::AtGoal(number) => {
            let plan = plan_to(alloc, problem, &search.met, number)?;
            Ok(FirstPlan::Found(plan))
        }
        Ended::Exhausted => Ok(FirstPlan::Impossible),
        Ended::Stopped => Ok(FirstPlan::Stopped),
    }
}

/// The configurations that were met, by the agents' cells. Their numbers are their indices.
pub type Met = IndexMap<Vec<Cell>, Visited>;

// How a search ended.
#[derive(Clone, Copy, Debug, PartialEq, Eq)]
enum Ended {
    // All agents are at their goals in the configuration of this number.
    AtGoal(usize),
    // Each configuration was met, and none is left to be visited.
    Exhausted,
    Stopped,
}

// A search, and its memory.
#[derive(Drop)]
struct Search<'a> {
    alloc: Global,
    task: Task<'a>,
    met: Met,
    // The numbers of the configurations that are still to be visited, the next one last.
    open: Vec<usize>,
    goals: Vec<Cell>,
    pibt: Pibt<'a>,
}

impl<'a> Search<'a> {
    // Returns the search that has met the configuration of the starts.
    fn of(alloc: Global, task: Task<'a>) -> Result<Search<'a>, OutOfMemory> {
        let starts = starts_of(alloc, task.agents())?;
        let root = Visited::of(alloc, 0, 0, first_order(alloc, &task)?)?;
        let mut met = IndexMap::new(alloc);
        met.insert(starts, root)?;
        let mut open = Vec::new(alloc);
        open.push(0)?;
        Ok(Search {
            alloc,
            task,
            met,
            open,
            goals: goals_of(alloc, task.agents())?,
            pibt: Pibt::of(alloc, task)?,
        })
    }

    // Visits configurations until one is the goal, none is left, or so many successors were tried.
    fn run(&mut self, most: u64) -> Result<Ended, OutOfMemory> {
        let mut tried = 0u64;
        // Each turn tries a successor, or leaves a configuration that was met by one.
        for _ in 0..u64::MAX {
            let Some(&number) = self.open.last() else {
                return Ok(Ended::Exhausted);
            };
            if self.is_goal(number) {
                return Ok(Ended::AtGoal(number));
            }
            let Some(constraint) = self.take_constraint(number) else {
                let _left = self.open.pop();
                continue;
            };
            if tried >= most {
                return Ok(Ended::Stopped);
            }
            tried = tried.saturating_add(1);
            self.grow(number, constraint)?;
            if let Some(cells) = self.successor(number, constraint)? {
                self.meet(number, cells)?;
            }
        }
        Ok(Ended::Stopped)
    }

    // Returns whether all agents are at their goals.
    fn is_goal(&self, number: usize) -> bool {
        match self.met.get_index(number) {
            Some((cells, _)) => *cells == self.goals,
            None => false,
        }
    }

    // Takes the next constraint of a configuration. Returns its place in the tree.
    fn take_constraint(&mut self, number: usize) -> Option<usize> {
        let visited = self.met.get_index_mut(number)?;
        visited.constraints.take()
    }

    // Adds below a constraint where the next agent may go.
    fn grow(&mut self, number: usize, constraint: usize) -> Result<(), OutOfMemory> {
        let Some(cell) = self.next_cell(number, constraint) else {
            return Ok(());
        };
        let steps = self.task.steps(self.alloc, cell);
        match self.met.get_index_mut(number) {
            Some(visited) => visited.constraints.grow(constraint, steps.as_slice()),
            None => Ok(()),
        }
    }

    // Returns where the first agent is of which a constraint doesn't speak.
    fn next_cell(&self, number: usize, constraint: usize) -> Option<Cell> {
        match self.met.get_index(number) {
            Some((cells, visited)) => {
                let depth = visited.constraints.get(constraint)?.depth;
                let priority = visited.order.get(depth)?;
                cells.get(priority.agent).copied()
            }
            None => None,
        }
    }

    // Returns the successor of a configuration under a constraint, None if PIBT finds none.
    fn successor(
        &mut self,
        number: usize,
        constraint: usize,
    ) -> Result<Option<Vec<Cell>>, OutOfMemory> {
        match self.met.get_index(number) {
            Some((cells, visited)) => self.pibt.successor(cells, visited, constraint),
            None => Ok(None),
        }
    }

    // Opens the configuration of these cells. If it is new, it comes after the one of this number.
    fn meet(&mut self, before: usize, cells: Vec<Cell>) -> Result<(), OutOfMemory> {
        if let Some(known) = self.met.get_index_of(&cells) {
            self.open.push(known)?;
            return Ok(());
        }
        if let Some(visited) = self.after(before, &cells)? {
            self.open.push(self.met.len())?;
            self.met.insert(cells, visited)?;
        }
        Ok(())
    }

    // Returns the configuration of these cells, which is new and comes after the one of this number.
    fn after(&self, before: usize, cells: &[Cell]) -> Result<Option<Visited>, OutOfMemory> {
        match self.met.get_index(before) {
            Some((_, visited)) => {
                let order = next_order(self.alloc, &self.task, &visited.order, cells)?;
                let tick = visited.tick.saturating_add(1);
                Ok(Some(Visited::of(self.alloc, before, tick, order)?))
            }
            None => Ok(None),
        }
    }
}
