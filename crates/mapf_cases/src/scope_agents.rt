//! The agents of which a tree of cases speaks. The judges of uses and leaves look them up.
ghost use Rattle.std.specs.Prelude.{◌≡◌, ◌↔◌, ◌<◌, All, Contains, IfOk, IsTrue};

use mapf_model::OutOfMemory;
use std::alloc::Global;
use std::marker::Model;

/// The agents of a scope, as their list and as a mark for each agent of the problem.
#[derive(Drop)]
pub struct ScopeAgents {
    agents: Vec<u32>,
    // By the number of the agent, whether it is in the list.
    marks: Vec<bool>,
}

impl Model for ScopeAgents {
    ghost use Rattle.std.specs.Prelude.{ℕ, List};
    ghost use Rattle.mapf_cases.specs.Scopes.{Mark};

    ghost Value = { List ℕ };

    ghost view = { λ scope. scope.agents.items };

    ghost invariant = { λ scope. Mark scope.agents.items scope.marks.items };
}

impl ScopeAgents {
    /// Returns the scope of these agents, of a problem with so many.
    pub fn of(alloc: Global, count: usize, agents: Vec<u32>) -> Result<ScopeAgents, OutOfMemory>
        requires { All (λ agent. agent < count) agents.items }
        ensures { IfOk result (λ scope. scope ≡ agents.items) }
    {
        let mut marks = vec![in alloc; false; count]?;
        for &agent in &agents {
            marks[agent as usize] = true;
        }
        Ok(ScopeAgents { agents, marks })
    }

    /// Returns the agents in their order.
    pub fn list(&self) -> &[u32]
        ensures { result.now ≡ self.now }
    {
        &self.agents
    }

    /// Returns whether the agent is one of the scope.
    pub fn has(&self, agent: u32) -> bool
        ensures { IsTrue result ↔ Contains self.now agent }
    {
        let agent = agent as usize;
        agent < self.marks.len() && self.marks[agent]
    }
}
