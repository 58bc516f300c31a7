//! Tables of distances that are made when they are needed, for the search over trees and for the judges of trees and of
//! lemmas.
ghost use Rattle.std.specs.Prelude.{◌≡◌, ◌<◌, ℕ, Some, IfOk, OnOk, length, slice_get};
ghost use Rattle.mapf_distance.specs.Tables.{AreMade, HasTable};

use crate::distances::Distances;
use mapf_model::{OutOfMemory, Problem};
use std::alloc::Global;
use std::marker::Model;

/// The distances to the goals of a problem's agents. The table of an agent is made when it is first needed, so agents
/// that don't need one take no memory.
#[derive(Debug, Drop)]
pub struct LazyTables {
    tables: Vec<Option<Distances>>,
}

impl Model for LazyTables {
    ghost use Rattle.std.specs.Prelude.{List, Option};
    ghost use Rattle.mapf_distance.specs.Distances.{GoalMap};

    ghost Value = { List (Option GoalMap) };

    ghost view = { λ tables. tables.tables.items };
}

impl LazyTables {
    /// Returns the tables with none made yet.
    pub fn of(alloc: Global, problem: &Problem) -> Result<LazyTables, OutOfMemory>
        ensures { IfOk result (AreMade problem.now) }
    {
        let mut tables = Vec::with_capacity(alloc, problem.agents().len())?;
        for _ in problem.agents() {
            tables.push(None)?;
        }
        Ok(LazyTables { tables })
    }

    /// Makes the agent's table if it isn't made yet.
    pub fn make(&mut self, alloc: Global, problem: &Problem, agent: u32) -> Result<(), OutOfMemory>
        requires tables { AreMade problem.now self.old }
        requires known { agent < length problem.now.agents }
        ensures tables { OnOk result (AreMade problem.now self.new) }
        // A table that was made is there.
        ensures made { OnOk result (HasTable self.new agent) }
        // A table that was made is kept, and none is lost.
        ensures kept { OnOk result ((other : ℕ) → HasTable self.old other → HasTable self.new other) }
    {
        let place = agent as usize;
        if self.tables[place].is_none() {
            let goal = problem.agents()[place].goal;
            self.tables[place] = Some(Distances::of(alloc, problem.grid(), goal)?);
        }
        Ok(())
    }

    /// Returns the table of an agent, which must have been made.
    pub fn get(&self, agent: u32) -> &Distances
        requires { HasTable self.now agent }
        ensures { slice_get self.now agent ≡ Some (Some result.now) }
    {
        match &self.tables[agent as usize] {
            Some(distances) => distances,
            None => unreachable!(),
        }
    }
}
