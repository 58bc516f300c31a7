//! Which two agents share a goal, for the beginning of a search: then no plan is valid.
ghost use Rattle.std.specs.Prelude.{◌<◌, length, IfNone, IfSome, IsTrue, ◌↔◌};
ghost use Rattle.mapf_model.specs.Pairs.{IsFirstPair, HoldsOfNoPair};
ghost use Rattle.mapf_cbs.specs.Start.{HaveGoal};

use mapf_model::{Agent, first_pair};

/// Returns the first two agents with the same goal: the pair of the least first agent, and of these the one of the
/// least second agent.
pub fn pair_of_one_goal(agents: &[Agent]) -> Option<(usize, usize)>
    ensures some { IfSome result (IsFirstPair (HaveGoal agents.now) (length agents.now)) }
    ensures none { IfNone result (HoldsOfNoPair (HaveGoal agents.now) (length agents.now)) }
{
    first_pair(
        agents.len(),
        |i: usize, j: usize| -> bool
            requires { (i < j) × (j < length agents.now) }
            ensures { IsTrue result ↔ HaveGoal agents.entry.now i j }
        { agents[i].goal == agents[j].goal },
    )
}
