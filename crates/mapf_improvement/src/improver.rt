//! The improvement of a plan, in as many steps as its caller likes.
ghost use Rattle.std.specs.Prelude.{◌≡◌, IfOk, length};

use crate::agents_about::AgentsAbout;
use crate::delayed::Delayed;
use crate::draft::Draft;
use crate::group::{Group, MOST_IN_GROUP};
use crate::numbers::Numbers;
use crate::replanner::Replanner;
use mapf_distance::Distances;
use mapf_model::{OutOfMemory, Path, Plan, Problem};
use std::alloc::Global;
use std::marker::Model;

/// A valid plan that gets cheaper. To contracts it is the problem that the plan is for.
#[derive(Drop)]
pub struct Improver<'a> {
    alloc: Global,
    problem: &'a Problem,
    draft: Draft<'a>,
    numbers: Numbers,
    // How many improvements were tried.
    tried: u64,
    group: Group,
    delayed: Delayed,
    about: AgentsAbout,
    replanner: Replanner,
}

impl<'a> Model for Improver<'a> {
    ghost use Rattle.mapf_model.specs.Plan.{Instance};

    ghost Value = { Instance };

    ghost view = { λ improver. improver.problem.now };
}

impl<'a> Improver<'a> {
    /// Returns the improver of a plan before any improvement. The distances are those to the agents' goals, by agent, as
    /// `mapf_distance::goal_tables` makes them. The plan has to be valid, else nothing is promised of what becomes of it.
    /// Out of memory is the only error.
    pub fn of(
        alloc: Global,
        problem: &'a Problem,
        distances: &'a [Distances],
        plan: &Plan,
    ) -> Result<Improver<'a>, OutOfMemory>
        ensures { IfOk result (λ improver. improver ≡ problem.entry.now) }
    {
        let grid = problem.grid();
        let cells = (grid.width() * grid.height()) as usize;
        Ok(Improver {
            alloc,
            problem,
            draft: Draft::of(alloc, problem, distances, plan)?,
            numbers: Numbers::new(),
            tried: 0,
            group: Group::of(alloc),
            delayed: Delayed::of(alloc, plan.paths().len())?,
            about: AgentsAbout::of(alloc, cells)?,
            replanner: Replanner::of(alloc, cells)?,
        })
    }

    /// Returns the sum of costs of the plan, in ticks.
    pub fn cost(&self) -> u64 {
        self.draft.sum
    }

    /// Returns how many improvements were tried.
    pub fn tried(&self) -> u64 {
        self.tried
    }

    /// Tries so many improvements more. Stops when the plan's sum of costs is as low as the bound, in ticks, or the sum of
    /// the distances from the starts to the goals: no plan is cheaper. So give 0 if no bound is known. The sum of costs
    /// never rises. Out of memory is the only error. After it the plan is still as it was, and nothing more may be tried.
    pub fn improve(&mut self, improvements: u64, bound: u64) -> Result<(), OutOfMemory>
        ensures { self.new ≡ self.old }
    {
        for _ in 0..improvements {
            if self.draft.sum <= bound.max(self.draft.least_sum) {
                break;
            }
            self.tried = self.tried.saturating_add(1);
            self.choose()?;
            self.numbers.shuffle(self.group.agents_mut());
            let agents = self.group.agents();
            self.replanner
                .replan(&mut self.draft, agents, &mut self.numbers)?;
        }
        Ok(())
    }

    /// Returns the plan, without waits at the ends of its paths.
    pub fn plan(&self) -> Result<Plan, OutOfMemory>
        // It has a path for each agent.
        ensures { IfOk result (λ plan. length plan ≡ length self.now.agents) }
    {
        let count = self.problem.agents().len();
        let mut paths = Vec::with_capacity(self.alloc, count)?;
        for agent in 0..count {
            let cells = Vec::from_slice(self.alloc, self.draft.path(agent))?;
            paths.push(Path::of(cells).ok_or(OutOfMemory)?)?;
        }
        Plan::of(paths).ok_or(OutOfMemory)
    }

    // Chooses the group that is planned again next, from the two sources by turns.
    fn choose(&mut self) -> Result<(), OutOfMemory>
        ensures { self.new ≡ self.old }
    {
        let size = self.numbers.below(MOST_IN_GROUP).saturating_add(1);
        self.group.begin(size.min(self.draft.len()));
        if self.tried % 2 == 1 {
            if let Some(centre) = self.delayed.take_centre(&self.draft) {
                return self
                    .delayed
                    .choose(&self.draft, centre, &mut self.group, &mut self.numbers);
            }
        }
        self.about
            .choose(&self.draft, &mut self.group, &mut self.numbers)
    }
}
