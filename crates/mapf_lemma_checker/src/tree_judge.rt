//! The judge of the nodes of one tree, of a lemma by cases or the last one. The judge of parts opens it at a lemma's
//! head, or at the first node of the last tree.
ghost use Rattle.std.specs.Prelude.{◌≡◌, ◌↔◌, ◌∷◌, [], ◌<◌, ◌≤◌, All, false, true, length, IfOk, IfErr, OnOk};
ghost use Rattle.std.specs.Prelude.{IsTrue, ℕ, ◌⊎◌};
ghost use Rattle.mapf_cases.specs.Leaves.{AreLinesInRange, AreUsesInRange};
ghost use Rattle.mapf_cases.specs.Nodes.{BranchNode, LeafNode, ClashNode, IsGoodNode, contexts_after};
ghost use Rattle.mapf_cases.specs.Progress.{here_of, pending_by};
ghost use Rattle.mapf_cases.specs.Splits.{IsCostInRange};
ghost use Rattle.mapf_lemmas.specs.Groups.{Scope};
ghost use Rattle.mapf_lemmas.specs.Statements.{constraints_of};
ghost use Rattle.mapf_model.specs.Limits.{most_agents};
ghost use Rattle.mapf_model.specs.Plan.{Instance};
ghost use Rattle.mapf_lemma_checker.specs.Faults.{IsRefusedFor};
ghost use Rattle.mapf_lemma_checker.specs.Trees.{IsNodeProblemInRange, IsPlaceOfFault, IsScopeOf, RefusesNode};
ghost use Rattle.mapf_lemma_checker.specs.declared.fault.LemmaFault.TheVariants.{Refused};
ghost use Rattle.mapf_lemma_checker.specs.declared.fault.LemmaRefusal.TheVariants.{C8, C10};

use crate::fault::{LemmaFault, LemmaRefusal};
use mapf_cases::{
    CaseFault, CaseProgress, LeafFault, LeafProblem, LeafWork, ListTotal, ScopeAgents, SplitFault,
    TreeProblem, judge_leaf, laws,
};
use mapf_lemmas::{AgentConstraint, Amount, LeafUses, Split, Statement};
use mapf_model::{OutOfMemory, Problem};
use std::alloc::Global;

/// What the nodes of a tree are judged by, beside what is kept of the tree.
#[derive(Drop)]
pub struct NodeProblem<'a> {
    pub problem: &'a Problem,
    /// The statements of the lemmas that stand before the tree.
    pub known: &'a [Statement],
    pub list_totals: &'a [ListTotal],
    pub start_distances: &'a [Option<u32>],
}

/// A tree of which some nodes are still to come.
#[derive(Drop)]
pub struct OpenTree {
    agents: ScopeAgents,
    target: Amount,
    progress: CaseProgress,
}

impl OpenTree {
    /// Returns the state before the root of a tree, where these constraints stand. The tree has to show that these
    /// agents cost at least the target together, in ticks.
    pub fn new(
        alloc: Global,
        problem: &Problem,
        agents: Vec<u32>,
        constraints: &[AgentConstraint],
        target: Amount,
    ) -> Result<OpenTree, OutOfMemory>
        requires { All (λ agent. agent < length problem.now.agents) agents.items }
        ensures agents { IfOk result (λ tree. tree.agents ≡ agents.items) }
        ensures target { IfOk result (λ tree. tree.target ≡ target) }
        ensures pending { IfOk result (λ tree. pending_by tree.progress ≡ constraints_of constraints.now ∷ []) }
    {
        Ok(OpenTree {
            agents: ScopeAgents::of(alloc, problem.agents().len(), agents)?,
            target,
            progress: CaseProgress::new(alloc, constraints)?,
        })
    }

    /// Returns whether all nodes of the tree were judged.
    pub fn is_over(&self) -> bool
        ensures { result ≡ self.now.progress.is_over }
    {
        self.progress.is_over
    }

    /// Judges the split in this line.
    pub fn split(&mut self, node: &NodeProblem, split: &Split, line: u64) -> Result<(), LemmaFault>
        requires going { self.old.progress.is_over ≡ false }
        requires cost { IsCostInRange split.now }
        ensures agents { self.new.agents ≡ self.old.agents }
        ensures target { self.new.target ≡ self.old.target }
        ensures pending { OnOk result (pending_by self.new.progress
            ≡ contexts_after node.now.problem.now (pending_by self.old.progress) (BranchNode split.now)) }
        ensures good { OnOk result ((scope : Scope) → IsScopeOf node.now self.old.agents scope
            → IsGoodNode scope self.old.target (here_of self.old.progress) (BranchNode split.now)) }
        ensures refused { IfErr result (λ fault. (scope : Scope) → IsScopeOf node.now self.old.agents scope
            → IsRefusedFor (IsGoodNode scope self.old.target (here_of self.old.progress) (BranchNode split.now) → ⊥)
            fault) }
    {
        let tree = TreeProblem {
            problem: node.problem,
            known: node.known,
            agents: &self.agents,
        };
        match self.progress.split(&tree, split) {
            Ok(()) => Ok(()),
            Err(fault) => Err(fault_of_node(fault, line)),
        }
    }

    /// Judges the leaf that begins in this line.
    pub fn leaf(
        &mut self,
        node: &NodeProblem,
        work: &mut LeafWork,
        uses: &LeafUses,
        line: u64,
    ) -> Result<(), LemmaFault>
        requires going { self.old.progress.is_over ≡ false }
        requires range { IsNodeProblemInRange node.now self.old.agents }
        requires uses { AreUsesInRange (length node.now.list_totals.now) uses.now }
        requires lines { AreLinesInRange uses.now }
        requires work { work.old ≡ length node.now.start_distances.now }
        ensures agents { self.new.agents ≡ self.old.agents }
        ensures target { self.new.target ≡ self.old.target }
        ensures pending { OnOk result (pending_by self.new.progress
            ≡ contexts_after node.now.problem.now (pending_by self.old.progress) (LeafNode uses.now)) }
        ensures good { OnOk result ((scope : Scope) → IsScopeOf node.now self.old.agents scope
            → IsGoodNode scope self.old.target (here_of self.old.progress) (LeafNode uses.now)) }
        ensures refused { IfErr result (λ fault. (scope : Scope) → IsScopeOf node.now self.old.agents scope
            → IsRefusedFor (IsGoodNode scope self.old.target (here_of self.old.progress) (LeafNode uses.now) → ⊥)
            fault) }
        ensures work { work.new ≡ work.old }
    {
        let leaf = LeafProblem {
            known: node.known,
            list_totals: node.list_totals,
            start_distances: node.start_distances,
            agents: &self.agents,
            standing: self.progress.standing(),
        };
        if let Err(fault) = judge_leaf(&leaf, work, uses, self.target) {
            return Err(fault_of_leaf(fault, uses, line));
        }
        self.progress.leaf()?;
        Ok(())
    }

    /// Judges the clash in this line.
    pub fn clash(&mut self, problem: &Problem, i: u32, j: u32, line: u64) -> Result<(), LemmaFault>
        requires going { self.old.progress.is_over ≡ false }
        ensures agents { self.new.agents ≡ self.old.agents }
        ensures target { self.new.target ≡ self.old.target }
        ensures pending { OnOk result (pending_by self.new.progress
            ≡ contexts_after problem.now (pending_by self.old.progress) (ClashNode i j)) }
        ensures good { OnOk result ((scope : Scope) → scope.problem ≡ problem.now
            → IsGoodNode scope self.old.target (here_of self.old.progress) (ClashNode i j)) }
        ensures refused { IfErr result (λ fault. (scope : Scope) → scope.problem ≡ problem.now
            → IsRefusedFor (IsGoodNode scope self.old.target (here_of self.old.progress) (ClashNode i j) → ⊥) fault) }
    {
        match self.progress.clash(problem, i, j) {
            Ok(()) => Ok(()),
            Err(fault) => Err(fault_of_node(fault, line)),
        }
    }
}

// Returns the error of a split or a clash in this line.
fn fault_of_node(fault: CaseFault, line: u64) -> LemmaFault
    ensures { RefusesNode fault result }
{
    laws::defects_refute();
    match fault {
        CaseFault::Memory => LemmaFault::Memory,
        CaseFault::Split(SplitFault::BadSplit) => LemmaFault::Refused(LemmaRefusal::C6(line)),
        CaseFault::Split(SplitFault::LemmaNotAllowed) => LemmaFault::Refused(LemmaRefusal::C10(
            line,
        )),
        CaseFault::FalseClash => LemmaFault::Refused(LemmaRefusal::C9(line)),
    }
}

// Returns the error of a leaf that begins in this line.
fn fault_of_leaf(fault: LeafFault, uses: &LeafUses, line: u64) -> LemmaFault
    requires lines { AreLinesInRange uses.now }
    requires place { IsPlaceOfFault uses.now fault }
    ensures { (at : ℕ) × ((result ≡ Refused (C8 at)) ⊎ (result ≡ Refused (C10 at))) }
{
    match fault {
        LeafFault::NotAllowed(place) => LemmaFault::Refused(LemmaRefusal::C10(line.saturating_add(
            place.lines_to(uses),
        ))),
        LeafFault::TooWeak => LemmaFault::Refused(LemmaRefusal::C8(line)),
    }
}
