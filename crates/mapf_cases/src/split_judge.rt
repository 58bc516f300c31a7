//! The judge of splits (rules 5 and 6 of certificates of version 3). The judge of a tree calls it.
ghost use Rattle.std.specs.Prelude.{◌≡◌, ◌↔◌, ◌⊎◌, ◌<◌, ◌-◌, ◌^◌, ◌∷◌, [], OnOk, IfErr, IsTrue};
ghost use Rattle.mapf_lemmas.specs.Groups.{Scope};
ghost use Rattle.mapf_lemmas.specs.Cases.{IsProperSplit};
ghost use Rattle.mapf_model.specs.Tree.{AreTwoAgents};
ghost use Rattle.mapf_cases.specs.Splits.{HasSplitDefect, IsBoundOfTwo, IsScopeWith, IsWellFormed, NamesBound};
ghost use Rattle.mapf_cases.specs.Standing.{constraints_after};

use crate::scope_agents::ScopeAgents;
use crate::split_fault::SplitFault;
use crate::standing::Standing;
use crate::use_judge::may_be_used;
use mapf_lemmas::{Amount, Split, Statement};
use mapf_model::Problem;

/// Checks that a split is proper where these constraints stand. `known` has the statements of the lemmas before the
/// tree, by their numbers, and `agents` those of which the tree speaks.
pub fn judge_split(
    problem: &Problem,
    known: &[Statement],
    agents: &ScopeAgents,
    standing: &Standing,
    split: &Split,
) -> Result<(), SplitFault>
    ensures ok { OnOk result ((scope : Scope) → IsScopeWith problem.now known.now agents.now scope
        → IsProperSplit scope (constraints_after standing.now) split.now) }
    ensures well_formed { OnOk result (IsWellFormed problem.now split.now) }
    ensures err { IfErr result (λ fault. (scope : Scope) → IsScopeWith problem.now known.now agents.now scope
        → HasSplitDefect scope (constraints_after standing.now) split.now fault) }
{
    if !is_well_formed(problem, split) {
        return Err(SplitFault::BadSplit);
    }
    if !names_bound(known, agents, standing, split) {
        return Err(SplitFault::LemmaNotAllowed);
    }
    Ok(())
}

fn is_well_formed(problem: &Problem, split: &Split) -> bool
    ensures { IsTrue result ↔ IsWellFormed problem.now split.now }
{
    let grid = problem.grid();
    match *split {
        Split::Vertex { i, j, cell, .. } => are_two_agents(problem, i, j) && grid.is_free(cell),
        Split::Swap { i, j, from, to, .. } => are_two_agents(problem, i, j)
            && grid.are_adjacent(from, to),
        Split::Cost { i, .. } => (i as usize) < problem.agents().len(),
        Split::Costs { i, j, .. } => are_two_agents(problem, i, j),
    }
}

fn are_two_agents(problem: &Problem, i: u32, j: u32) -> bool
    ensures { IsTrue result ↔ AreTwoAgents problem.now i j }
{
    let count = problem.agents().len();
    i != j && (i as usize) < count && (j as usize) < count
}

// Returns whether the split names no lemma, or one that may be used here and says what the split needs.
fn names_bound(
    known: &[Statement],
    agents: &ScopeAgents,
    standing: &Standing,
    split: &Split,
) -> bool
    ensures { (scope : Scope) → scope.known ≡ known.now → scope.agents ≡ agents.now
        → IsTrue result ↔ NamesBound scope (constraints_after standing.now) split.now }
{
    match *split {
        Split::Costs {
            i,
            ticks,
            j,
            least,
            lemma,
        } => match known.get(lemma as usize) {
            Some(statement) => {
                bounds_two(statement, i, j, ticks as u64 + least as u64)
                    && may_be_used(standing, agents, statement)
            }
            None => false,
        },
        _ => true,
    }
}

// Returns whether the statement is about these two agents and no others, without a price list, and bounds their costs
// by at least so many ticks.
fn bounds_two(statement: &Statement, i: u32, j: u32, total: u64) -> bool
    requires { total < 2 ^ 64 - 1 }
    ensures { IsTrue result ↔ IsBoundOfTwo statement.now i j total }
{
    are_these_two(&statement.agents, i, j)
        && statement.list_number.is_none()
        && Amount::of(total).is_at_most(statement.bound)
}

// Returns whether the agents are these two, in either order.
fn are_these_two(agents: &[u32], i: u32, j: u32) -> bool
    ensures { IsTrue result ↔ ((agents.now ≡ i ∷ j ∷ []) ⊎ (agents.now ≡ j ∷ i ∷ [])) }
{
    agents.len() == 2 && ((agents[0] == i && agents[1] == j) || (agents[0] == j && agents[1] == i))
}
