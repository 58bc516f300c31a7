//! What the run of `solve` writes for each outcome of the search: the plan text, and the claim and the tree of the
//! certificate.
ghost use Rattle.std.specs.Prelude.{◌≤◌, ℕ, IfOk, length};
ghost use Rattle.mapf_app.specs.Policy.{IsSolvedByPolicy};
ghost use Rattle.mapf_app.specs.Solved.{IsSolved};
ghost use Rattle.mapf_certificate.specs.declared.version.Version.TheVariants.{Two};
ghost use Rattle.mapf_cbs.specs.Answer.{IsOptimalAnswer, IsImpossibleAnswer, IsLimitAnswer};
ghost use Rattle.mapf_certificate.specs.Plans.{IsAnswerInRange, IsAnswerOfVersion, IsFew, SpellsPlan, plan_text};
ghost use Rattle.mapf_model.specs.Answers.{IsPrintable, IsShownOptimal, IsShownImpossible, IsShownBound};
ghost use Rattle.mapf_model.specs.Limits.{most_splits};
ghost use Rattle.mapf_model.specs.Plan.{IsValid, IsSumOfCosts};
ghost use Rattle.mapf_model.specs.Tree.{ConstraintTree};

use crate::kind::Kind;
use mapf_cbs::{Outcome, TreeNode, search_watched};
use mapf_certificate::{PlanAnswer, PlanText, Version};
use mapf_model::{Cause, Claim, OutOfMemory, Plan, Problem, Watcher, laws};
use std::alloc::Global;

/// What a run prints of a problem that it solved: the answer of the plan text, and the claim and the tree of the
/// certificate. Both texts are of version 2.
#[derive(Debug, Drop)]
pub struct Solved {
    pub kind: Kind,
    pub text: PlanText,
    pub claim: Claim,
    pub tree: Vec<TreeNode>,
}

fn text_of(problem: &Problem, answer: PlanAnswer) -> PlanText
    requires range { IsAnswerInRange problem.now.grid (length problem.now.agents) answer }
    requires version { IsAnswerOfVersion Two answer }
    ensures spells { SpellsPlan problem.now.grid (plan_text problem.now.grid.width result) Two
        (length problem.now.agents) answer }
    ensures few { IsFew result.answer }
{
    PlanText {
        version: Version::Two,
        agents: problem.agents().len() as u32,
        answer,
    }
}

// Returns the sum of costs of a valid plan.
fn sum_of(problem: &Problem, plan: &Plan) -> u64
    requires { IsValid problem.now plan.now }
    ensures { IsSumOfCosts problem.now.agents plan.now result }
{
    plan.sum(problem).unwrap()
}

// What is printed for each outcome. That it is true needs only what the tree shows; that it follows the policy is said
// for every limit with which the search may have been called.
fn found(problem: &Problem, plan: Plan, tree: Vec<TreeNode>) -> Solved
    requires { (shown : ConstraintTree)
        × IsPrintable problem.now tree.items shown × IsShownOptimal problem.now plan shown }
    ensures prints { IsSolved problem.now result }
    ensures policy { (limit : ℕ) → IsOptimalAnswer problem.now limit plan tree.items →
        IsSolvedByPolicy problem.now limit result }
    ensures few { IsFew result.text.answer }
{
    laws::sums_are_one();
    let sum = sum_of(problem, &plan);
    Solved {
        kind: Kind::Found(sum),
        text: text_of(problem, PlanAnswer::Found(plan)),
        claim: Claim::Cost(sum),
        tree,
    }
}

fn impossible(problem: &Problem, tree: Vec<TreeNode>) -> Solved
    requires { (shown : ConstraintTree)
        × IsPrintable problem.now tree.items shown × IsShownImpossible problem.now shown }
    ensures prints { IsSolved problem.now result }
    ensures policy { (limit : ℕ) → IsImpossibleAnswer problem.now limit tree.items →
        IsSolvedByPolicy problem.now limit result }
    ensures few { IsFew result.text.answer }
{
    Solved {
        kind: Kind::Impossible,
        text: text_of(problem, PlanAnswer::Impossible),
        claim: Claim::Impossible,
        tree,
    }
}

fn limited(problem: &Problem, cause: Cause, bound: u64, tree: Vec<TreeNode>) -> Solved
    requires range { IsAnswerInRange problem.now.grid (length problem.now.agents) (PlanAnswer.Bounded cause bound) }
    requires shown { (shown : ConstraintTree)
        × IsPrintable problem.now tree.items shown × IsShownBound problem.now bound shown }
    ensures prints { IsSolved problem.now result }
    ensures policy { (limit : ℕ) → IsLimitAnswer problem.now limit cause bound tree.items →
        IsSolvedByPolicy problem.now limit result }
    ensures few { IsFew result.text.answer }
{
    Solved {
        kind: Kind::Limit { cause, bound },
        text: text_of(problem, PlanAnswer::Bounded { cause, bound }),
        claim: Claim::Bound(bound),
        tree,
    }
}

/// Solves the problem with at most `limit` splits, and tells the watcher how far it is. All memory that the two texts
/// need is allocated here.
pub fn solve_problem<W: Watcher>(
    alloc: Global,
    problem: &Problem,
    limit: u32,
    watcher: &mut W,
) -> Result<Solved, OutOfMemory>
    requires { limit ≤ most_splits }
    ensures prints { IfOk result (λ solved. IsSolved problem.now solved) }
    ensures policy { IfOk result (λ solved. IsSolvedByPolicy problem.now limit solved) }
    ensures few { IfOk result (λ solved. IsFew solved.text.answer) }
{
    match search_watched(alloc, problem, limit, watcher)? {
        Outcome::Found { plan, tree } => Ok(found(problem, plan, tree)),
        Outcome::Impossible { tree } => Ok(impossible(problem, tree)),
        Outcome::Limit { cause, bound, tree } => Ok(limited(problem, cause, bound, tree)),
    }
}
