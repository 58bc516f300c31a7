//! Whether a lemma may be used at a node. The judges of leaves and of splits ask it.
ghost use Rattle.std.specs.Prelude.{◌≡◌, ◌↔◌, All, Contains, IsTrue};
ghost use Rattle.mapf_lemmas.specs.Groups.{Scope, MayBeUsed};
ghost use Rattle.mapf_lemmas.specs.Statements.{IsMet};
ghost use Rattle.mapf_cases.specs.Standing.{constraints_after};

use crate::scope_agents::ScopeAgents;
use crate::standing::Standing;
use mapf_lemmas::{AgentConstraint, Statement};

/// Returns whether the lemma with this statement may be used where these constraints stand: all its agents are of the
/// scope, and each of its constraints is met. This takes time that grows with the number of its agents and constraints.
pub fn may_be_used(standing: &Standing, agents: &ScopeAgents, statement: &Statement) -> bool
    ensures { (scope : Scope) → scope.agents ≡ agents.now
        → IsTrue result ↔ MayBeUsed scope (constraints_after standing.now) statement.now }
{
    are_inside(agents, &statement.agents) && are_met(standing, &statement.constraints)
}

// Returns whether all these agents are of the scope.
fn are_inside(agents: &ScopeAgents, named: &[u32]) -> bool
    ensures { IsTrue result ↔ All (Contains agents.now) named.now }
{
    for &agent in named {
        if !agents.has(agent) {
            return false;
        }
    }
    true
}

// Returns whether all these constraints are met.
fn are_met(standing: &Standing, constraints: &[AgentConstraint]) -> bool
    ensures { IsTrue result
        ↔ All (λ own. IsMet (constraints_after standing.now own.agent) own.constraint) constraints.now }
{
    for own in constraints {
        if !standing.meets(own.agent, &own.constraint) {
            return false;
        }
    }
    true
}
