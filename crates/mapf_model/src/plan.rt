//! A plan: the paths of all agents, and the sum of their costs. The search and the reader of plan texts make it.
ghost use Rattle.std.specs.Prelude.{◌≡◌, ◌≤◌, ◌↔◌, ℕ, List, length, IfSome, IfNone, IsSome};
ghost use Rattle.mapf_model.specs.Limits.{most_agents};
ghost use Rattle.mapf_model.specs.Plan.{IsSumOfCosts, SomePathEndsElsewhere};

use crate::limits::MOST_AGENTS;
use crate::path::Path;
use crate::problem::Problem;
use std::marker::Model;

/// A plan of 1 to 200 paths, one for each agent. It need not be valid.
#[derive(Debug, Drop)]
pub struct Plan {
    paths: Vec<Path>,
}

impl Model for Plan {
    ghost Value = { List (List ℕ) };

    ghost view = { λ p. p.paths.items };

    ghost invariant = { λ p. (1 ≤ length p.paths.items) × (length p.paths.items ≤ most_agents) };
}

impl Plan {
    /// Returns the plan of these paths. None unless there are 1 to 200.
    pub fn of(paths: Vec<Path>) -> Option<Plan>
        ensures size { IsSome result ↔ ((1 ≤ length paths.items) × (length paths.items ≤ most_agents)) }
        ensures value { IfSome result (λ plan. plan ≡ paths.items) }
    {
        if paths.len() < 1 || paths.len() > MOST_AGENTS as usize {
            return None;
        }
        Some(Plan { paths })
    }

    /// Returns the paths, in the order of their agents.
    pub fn paths(&self) -> &[Path]
        ensures value { result.now ≡ self.now }
        ensures some { 1 ≤ length result.now }
        ensures few { length result.now ≤ most_agents }
    {
        &self.paths
    }

    /// Returns the sum of the costs of the agents' paths, in ticks. None if a path doesn't end at its agent's goal.
    pub fn sum(&self, problem: &Problem) -> Option<u64>
        requires { length self.now ≡ length problem.now.agents }
        ensures sum { IfSome result (IsSumOfCosts problem.now.agents self.now) }
        // None is returned only if some path ends elsewhere.
        ensures none { IfNone result (SomePathEndsElsewhere problem.now.agents self.now) }
    {
        let agents = problem.agents();
        let mut total = 0;
        for (i, path) in self.paths.iter().enumerate() {
            let Some(cost) = path.cost(agents[i].goal) else {
                return None;
            };
            total += cost as u64;
        }
        Some(total)
    }
}
