//! The judge of a tree of cases, a node at a time in pre-order. The judge of a certificate hands it each node that it
//! reads. A leaf is judged by the judge of leaves, by what stands there; then the tree moves on.
ghost use Rattle.std.specs.Prelude.{◌≡◌, ◌∷◌, ◌↔◌, [], false, IfErr, IfOk, OnOk, IsTrue};
ghost use Rattle.mapf_lemmas.specs.Groups.{Scope, LeafUses};
ghost use Rattle.mapf_lemmas.specs.Statements.{constraints_of};
ghost use Rattle.mapf_model.specs.declared.label.Label.{Label};
ghost use Rattle.mapf_model.specs.Plan.{Instance};
ghost use Rattle.mapf_model.specs.Tree.{ShareGoal};
ghost use Rattle.mapf_cases.specs.Nodes.{BranchNode, LeafNode, ClashNode, IsGoodNode, contexts_after};
ghost use Rattle.mapf_cases.specs.Paths.{contexts_of};
ghost use Rattle.mapf_cases.specs.Splits.{IsCostInRange};

use crate::case_fault::CaseFault;
use crate::case_path::CasePath;
use crate::scope_agents::ScopeAgents;
use crate::split_judge::judge_split;
use crate::standing::Standing;
use mapf_lemmas::{AgentConstraint, Split, Statement};
use mapf_model::{OutOfMemory, Problem};
use std::alloc::Global;

/// What the nodes of a tree are judged by.
#[derive(Drop)]
pub struct TreeProblem<'a> {
    pub problem: &'a Problem,
    /// The statements of the lemmas that stand before the tree, by their numbers.
    pub known: &'a [Statement],
    /// The agents of which the tree speaks.
    pub agents: &'a ScopeAgents,
}

/// How far a tree, whose nodes come in pre-order, was judged.
#[derive(Drop)]
pub struct CaseProgress {
    path: CasePath,
    /// Whether the whole tree was judged.
    pub is_over: bool,
}

impl CaseProgress {
    ghost use Rattle.mapf_cases.specs.Progress.{HasNodeDefect, IsScopeOf, here_of, pending_by};

    /// Returns the state before the root is judged, where these constraints stand.
    pub fn new(alloc: Global, constraints: &[AgentConstraint]) -> Result<CaseProgress, OutOfMemory>
        ensures { IfOk result (λ progress. pending_by progress ≡ constraints_of constraints.now ∷ []) }
    {
        Ok(CaseProgress {
            path: CasePath::new(alloc, constraints)?,
            is_over: false,
        })
    }

    /// Returns what stands at the node that is judged next.
    pub fn standing(&self) -> &Standing
        ensures { result.now ≡ self.now.path.standing }
    {
        self.path.standing()
    }

    /// Judges a split, and moves to its left child.
    pub fn split(&mut self, tree: &TreeProblem, split: &Split) -> Result<(), CaseFault>
        requires going { self.old.is_over ≡ false }
        requires cost { IsCostInRange split.now }
        ensures pending { OnOk result (pending_by self.new
            ≡ contexts_after tree.now.problem.now (pending_by self.old) (BranchNode split.now)) }
        ensures good { OnOk result ((scope : Scope) (target : Label) → IsScopeOf tree.now scope
            → IsGoodNode scope target (here_of self.old) (BranchNode split.now)) }
        ensures refused { IfErr result (λ fault. (scope : Scope) → IsScopeOf tree.now scope
            → HasNodeDefect scope (here_of self.old) (BranchNode split.now) fault) }
    {
        if let Err(fault) = judge_split(
            tree.problem,
            tree.known,
            tree.agents,
            self.path.standing(),
            split,
        ) {
            return Err(CaseFault::Split(fault));
        }
        let Ok(()) = self.path.split(tree.problem, split) else {
            return Err(CaseFault::Memory);
        };
        Ok(())
    }

    /// Moves on after a leaf. The caller has judged it by what stands there.
    pub fn leaf(&mut self) -> Result<(), OutOfMemory>
        requires going { self.old.is_over ≡ false }
        ensures { OnOk result ((problem : Instance) (uses : LeafUses)
            → pending_by self.new ≡ contexts_after problem (pending_by self.old) (LeafNode uses)) }
    {
        self.end()
    }

    /// Judges a clash, and moves on.
    pub fn clash(&mut self, problem: &Problem, i: u32, j: u32) -> Result<(), CaseFault>
        requires going { self.old.is_over ≡ false }
        ensures pending { OnOk result
            (pending_by self.new ≡ contexts_after problem.now (pending_by self.old) (ClashNode i j)) }
        ensures good { OnOk result (ShareGoal problem.now i j) }
        ensures refused { IfErr result (λ fault. (scope : Scope) → scope.problem ≡ problem.now
            → HasNodeDefect scope (here_of self.old) (ClashNode i j) fault) }
    {
        if !share_goal(problem, i, j) {
            return Err(CaseFault::FalseClash);
        }
        let Ok(()) = self.end() else {
            return Err(CaseFault::Memory);
        };
        Ok(())
    }

    // Moves to the next node after a terminal node.
    fn end(&mut self) -> Result<(), OutOfMemory>
        ensures { OnOk result (contexts_of self.old.path ≡ here_of self.old ∷ pending_by self.new) }
    {
        let more = self.path.next()?;
        self.is_over = !more;
        Ok(())
    }
}

fn share_goal(problem: &Problem, i: u32, j: u32) -> bool
    ensures { IsTrue result ↔ ShareGoal problem.now i j }
{
    let agents = problem.agents();
    let (first, second) = (i as usize, j as usize);
    if i == j || first >= agents.len() || second >= agents.len() {
        return false;
    }
    agents[first].goal == agents[second].goal
}
