//! The judge of the parts of a certificate, one after another. The judge of a certificate hands it each part that it
//! reads.
ghost use Rattle.std.specs.Prelude.{◌≡◌, ◌∷◌, ◌++◌, ◌≤◌, [], None, Some, IfOk, IfErr, OnOk, length};
ghost use Rattle.std.specs.List.{range_with_len};
ghost use Rattle.mapf_lemma_checker.specs.Faults.{IsRefusedFor};
ghost use Rattle.mapf_lemma_checker.specs.LemmaParts.{IsPartOf};
ghost use Rattle.mapf_cases.specs.Progress.{pending_by};
ghost use Rattle.mapf_lemma_checker.specs.States.{JudgeState, ShowsPart, IsPlaceFor};
ghost use Rattle.mapf_lemma_checker.specs.Judges.{AreSpokenOf, IsReady};
ghost use Rattle.mapf_lemma_checker.specs.States.{first_state, tree_in, with_tree};
ghost use Rattle.mapf_lemma_checker.specs.Judges.{state_of, tree_state};
ghost use Rattle.mapf_model.specs.Limits.{most_agents};
ghost use Rattle.mapf_model.specs.Plan.{Instance};
ghost use Rattle.mapf_lemma_texts.specs.declared.part.Part.TheVariants as parts;
ghost use Rattle.mapf_lemma_texts.specs.WholeTexts.{split_part};
ghost use Rattle.mapf_lemmas.specs.Lemmas.{all_agents};

use crate::constraints::{judge_constraints, line_at};
use crate::fault::LemmaFault;
use crate::label_judge::LabelJudge;
use crate::price_lists::PriceLists;
use crate::tree_judge::{NodeProblem, OpenTree};
use mapf_cases::LeafWork;
use mapf_distance::start_distances;
use mapf_lemma_texts::{CasesHead, NeverLemma, OneLemma, Part, TwoLemma};
use mapf_lemmas::{AgentConstraint, Amount, LeafUses, Split, Statement};
use mapf_model::{OutOfMemory, Problem};
use std::alloc::Global;

/// How far a certificate was judged.
#[derive(Drop)]
pub struct LemmaJudge {
    alloc: Global,
    // What the last tree has to show, in ticks.
    target: Amount,
    lists: PriceLists,
    labels: LabelJudge,
    // The statements of the lemmas that were judged, by their numbers.
    known: Vec<Statement>,
    // The distances of the starts.
    start_distances: Vec<Option<u32>>,
    leaf_work: LeafWork,
    // The statement of the lemma by cases whose tree is judged, if one is.
    case: Option<Statement>,
    // The tree that is judged, if its root or its lemma's head was.
    tree: Option<OpenTree>,
}

impl LemmaJudge {
    /// Returns the state before the first part. The last tree has to show that all agents cost at least the target, in
    /// ticks.
    pub fn new(alloc: Global, problem: &Problem, target: Amount) -> Result<LemmaJudge, OutOfMemory>
        ensures ready { IfOk result (IsReady problem.now) }
        ensures target { IfOk result (λ judge. judge.target ≡ target) }
        ensures nothing { IfOk result (λ judge. state_of judge ≡ first_state) }
    {
        Ok(LemmaJudge {
            alloc,
            target,
            lists: PriceLists::new(alloc),
            labels: LabelJudge::new(alloc, problem)?,
            known: Vec::new(alloc),
            start_distances: start_distances(alloc, problem)?,
            leaf_work: LeafWork::new(alloc, problem.agents().len())?,
            case: None,
            tree: None,
        })
    }

    /// Judges the part that begins in this line.
    pub fn part(&mut self, problem: &Problem, part: Part, line: u64) -> Result<(), LemmaFault>
        requires ready { IsReady problem.now self.old }
        requires part { IsPartOf problem.now (length self.old.lists) part }
        requires place { IsPlaceFor problem.now self.old.target (state_of self.old) part }
        ensures ready { OnOk result (IsReady problem.now self.new) }
        ensures target { self.new.target ≡ self.old.target }
        ensures shown { OnOk result
            (ShowsPart problem.now self.old.target (state_of self.old) part (state_of self.new)) }
        ensures refused { IfErr result (IsRefusedFor ((next : JudgeState)
            → ShowsPart problem.now self.old.target (state_of self.old) part next → ⊥)) }
    {
        match part {
            Part::Prices(_) | Part::Lemmas(_) => Ok(()),
            Part::List(list) => self.lists.add(problem, list, line),
            Part::One(lemma) => self.one(problem, lemma, line),
            Part::Two(lemma) => self.two(problem, lemma, line),
            Part::Never(lemma) => self.never(problem, lemma, line),
            Part::Cases(head) => self.cases(problem, head, line),
            Part::Leaf(uses) => self.leaf(problem, &uses, line),
            Part::Clash { i, j } => self.clash(problem, i, j, line),
            Part::Vertex { i, j, cell, tick } => self.split(
                problem,
                &Split::Vertex { i, j, cell, tick },
                line,
            ),
            Part::Swap {
                i,
                j,
                from,
                to,
                tick,
            } => self.split(
                problem,
                &Split::Swap {
                    i,
                    j,
                    from,
                    to,
                    tick,
                },
                line,
            ),
            Part::Cost { i, ticks } => self.split(problem, &Split::Cost { i, ticks }, line),
            Part::Costs {
                i,
                ticks,
                j,
                least,
                lemma,
            } => self.split(
                problem,
                &Split::Costs {
                    i,
                    ticks,
                    j,
                    least,
                    lemma,
                },
                line,
            ),
        }
    }

    fn one(&mut self, problem: &Problem, lemma: OneLemma, line: u64) -> Result<(), LemmaFault>
        requires ready { IsReady problem.now self.old }
        requires part { IsPartOf problem.now (length self.old.lists) (parts.One lemma) }
        requires place { IsPlaceFor problem.now self.old.target (state_of self.old) (parts.One lemma) }
        ensures ready { OnOk result (IsReady problem.now self.new) }
        ensures target { self.new.target ≡ self.old.target }
        ensures shown { OnOk result
            (ShowsPart problem.now self.old.target (state_of self.old) (parts.One lemma) (state_of self.new)) }
        ensures refused { IfErr result (IsRefusedFor ((next : JudgeState)
            → ShowsPart problem.now self.old.target (state_of self.old) (parts.One lemma) next → ⊥)) }
    {
        let prices = self.lists.table(lemma.list_number);
        let bound = self.labels.one(problem, prices, &lemma, line)?;
        let agents = one_agent(self.alloc, lemma.agent)?;
        self.learn(Statement {
            agents,
            constraints: lemma.constraints,
            list_number: lemma.list_number,
            bound,
        })?;
        Ok(())
    }

    fn two(&mut self, problem: &Problem, lemma: TwoLemma, line: u64) -> Result<(), LemmaFault>
        requires ready { IsReady problem.now self.old }
        requires part { IsPartOf problem.now (length self.old.lists) (parts.Two lemma) }
        requires place { IsPlaceFor problem.now self.old.target (state_of self.old) (parts.Two lemma) }
        ensures ready { OnOk result (IsReady problem.now self.new) }
        ensures target { self.new.target ≡ self.old.target }
        ensures shown { OnOk result
            (ShowsPart problem.now self.old.target (state_of self.old) (parts.Two lemma) (state_of self.new)) }
        ensures refused { IfErr result (IsRefusedFor ((next : JudgeState)
            → ShowsPart problem.now self.old.target (state_of self.old) (parts.Two lemma) next → ⊥)) }
    {
        let prices = self.lists.table(lemma.list_number);
        let bound = self.labels.two(problem, prices, &lemma, line)?;
        let agents = two_agents(self.alloc, lemma.i, lemma.j)?;
        self.learn(Statement {
            agents,
            constraints: lemma.constraints,
            list_number: lemma.list_number,
            bound,
        })?;
        Ok(())
    }

    fn never(&mut self, problem: &Problem, lemma: NeverLemma, line: u64) -> Result<(), LemmaFault>
        requires ready { IsReady problem.now self.old }
        requires part { IsPartOf problem.now (length self.old.lists) (parts.Never lemma) }
        requires place { IsPlaceFor problem.now self.old.target (state_of self.old) (parts.Never lemma) }
        ensures ready { OnOk result (IsReady problem.now self.new) }
        ensures target { self.new.target ≡ self.old.target }
        ensures shown { OnOk result
            (ShowsPart problem.now self.old.target (state_of self.old) (parts.Never lemma) (state_of self.new)) }
        ensures refused { IfErr result (IsRefusedFor ((next : JudgeState)
            → ShowsPart problem.now self.old.target (state_of self.old) (parts.Never lemma) next → ⊥)) }
    {
        self.labels.never(problem, &lemma, line)?;
        let agents = two_agents(self.alloc, lemma.i, lemma.j)?;
        self.learn(Statement {
            agents,
            constraints: Vec::new(self.alloc),
            list_number: None,
            bound: Amount::infinite(),
        })?;
        Ok(())
    }

    // Judges the head of a lemma by cases, and opens its tree.
    fn cases(&mut self, problem: &Problem, head: CasesHead, line: u64) -> Result<(), LemmaFault>
        requires ready { IsReady problem.now self.old }
        requires part { IsPartOf problem.now (length self.old.lists) (parts.Cases head) }
        requires place { IsPlaceFor problem.now self.old.target (state_of self.old) (parts.Cases head) }
        ensures ready { OnOk result (IsReady problem.now self.new) }
        ensures target { self.new.target ≡ self.old.target }
        ensures shown { OnOk result
            (ShowsPart problem.now self.old.target (state_of self.old) (parts.Cases head) (state_of self.new)) }
        ensures refused { IfErr result (IsRefusedFor ((next : JudgeState)
            → ShowsPart problem.now self.old.target (state_of self.old) (parts.Cases head) next → ⊥)) }
    {
        let first = line_at(line, head.agents.len()).saturating_add(1);
        judge_constraints(problem.grid(), &head.constraints, first)?;
        let agents = copy_of(&head.agents)?;
        self.tree = Some(OpenTree::new(
            self.alloc,
            problem,
            agents,
            &head.constraints,
            head.bound,
        )?);
        self.case = Some(Statement {
            agents: head.agents,
            constraints: head.constraints,
            list_number: None,
            bound: head.bound,
        });
        Ok(())
    }

    fn split(&mut self, problem: &Problem, split: &Split, line: u64) -> Result<(), LemmaFault>
        requires ready { IsReady problem.now self.old }
        requires part { IsPartOf problem.now (length self.old.lists) (split_part split.now) }
        requires place { IsPlaceFor problem.now self.old.target (state_of self.old) (split_part split.now) }
        ensures ready { OnOk result (IsReady problem.now self.new) }
        ensures target { self.new.target ≡ self.old.target }
        ensures shown { OnOk result
            (ShowsPart problem.now self.old.target (state_of self.old) (split_part split.now) (state_of self.new)) }
        ensures refused { IfErr result (IsRefusedFor ((next : JudgeState)
            → ShowsPart problem.now self.old.target (state_of self.old) (split_part split.now) next → ⊥)) }
    {
        let mut tree = self.take_tree(problem)?;
        let node = NodeProblem {
            problem,
            known: &self.known,
            list_totals: self.lists.totals(),
            start_distances: &self.start_distances,
        };
        tree.split(&node, split, line)?;
        self.tree = Some(tree);
        Ok(())
    }

    fn leaf(&mut self, problem: &Problem, uses: &LeafUses, line: u64) -> Result<(), LemmaFault>
        requires ready { IsReady problem.now self.old }
        requires part { IsPartOf problem.now (length self.old.lists) (parts.Leaf uses.now) }
        requires place { IsPlaceFor problem.now self.old.target (state_of self.old) (parts.Leaf uses.now) }
        ensures ready { OnOk result (IsReady problem.now self.new) }
        ensures target { self.new.target ≡ self.old.target }
        ensures shown { OnOk result
            (ShowsPart problem.now self.old.target (state_of self.old) (parts.Leaf uses.now) (state_of self.new)) }
        ensures refused { IfErr result (IsRefusedFor ((next : JudgeState)
            → ShowsPart problem.now self.old.target (state_of self.old) (parts.Leaf uses.now) next → ⊥)) }
    {
        let mut tree = self.take_tree(problem)?;
        let node = NodeProblem {
            problem,
            known: &self.known,
            list_totals: self.lists.totals(),
            start_distances: &self.start_distances,
        };
        tree.leaf(&node, &mut self.leaf_work, uses, line)?;
        self.put_back(tree)?;
        Ok(())
    }

    fn clash(&mut self, problem: &Problem, i: u32, j: u32, line: u64) -> Result<(), LemmaFault>
        requires ready { IsReady problem.now self.old }
        requires part { IsPartOf problem.now (length self.old.lists) (parts.Clash i j) }
        requires place { IsPlaceFor problem.now self.old.target (state_of self.old) (parts.Clash i j) }
        ensures ready { OnOk result (IsReady problem.now self.new) }
        ensures target { self.new.target ≡ self.old.target }
        ensures shown { OnOk result
            (ShowsPart problem.now self.old.target (state_of self.old) (parts.Clash i j) (state_of self.new)) }
        ensures refused { IfErr result (IsRefusedFor ((next : JudgeState)
            → ShowsPart problem.now self.old.target (state_of self.old) (parts.Clash i j) next → ⊥)) }
    {
        let mut tree = self.take_tree(problem)?;
        tree.clash(problem, i, j, line)?;
        self.put_back(tree)?;
        Ok(())
    }

    // Takes the tree whose nodes come next: the one that is judged, else the last one.
    fn take_tree(&mut self, problem: &Problem) -> Result<OpenTree, OutOfMemory>
        requires { IsReady problem.now self.old }
        ensures tree { IfOk result (λ tree. tree_state self.old.case tree
            ≡ tree_in problem.now self.old.target (state_of self.old).tree) }
        ensures agents { IfOk result (λ tree. AreSpokenOf problem.now tree.agents) }
        ensures rest { self.new ≡ record self.old { tree = None } }
    {
        match self.tree.take() {
            Some(tree) => Ok(tree),
            None => {
                let agents = all_agents(self.alloc, problem)?;
                let none: Vec<AgentConstraint> = Vec::new(self.alloc);
                OpenTree::new(self.alloc, problem, agents, &none, self.target)
            }
        }
    }

    // Goes on with the tree. If it is over and of a lemma, adds the lemma's statement.
    fn put_back(&mut self, tree: OpenTree) -> Result<(), OutOfMemory>
        requires { self.old.tree ≡ None }
        ensures ready { (problem : Instance) → IsReady problem (record self.old { tree = Some tree })
            → OnOk result (IsReady problem self.new) }
        ensures target { self.new.target ≡ self.old.target }
        ensures state { OnOk result (state_of self.new ≡ with_tree (state_of self.old) self.old.case
            (tree_state self.old.case tree) (pending_by tree.progress)) }
    {
        if !tree.is_over() {
            self.tree = Some(tree);
            return Ok(());
        }
        let Some(statement) = self.case.take() else {
            self.tree = Some(tree);
            return Ok(());
        };
        self.learn(statement)
    }

    // Adds the statement of a lemma.
    fn learn(&mut self, statement: Statement) -> Result<(), OutOfMemory>
        ensures rest { self.new ≡ record self.old { known = self.new.known } }
        ensures known { OnOk result (self.new.known.items ≡ self.old.known.items ++ statement ∷ []) }
    {
        self.known.push(statement)?;
        Ok(())
    }
}

fn one_agent(alloc: Global, agent: u32) -> Result<Vec<u32>, OutOfMemory>
    ensures { IfOk result (λ agents. agents.items ≡ agent ∷ []) }
{
    Ok(Vec::from_array(alloc, [agent])?)
}

fn copy_of(agents: &Vec<u32>) -> Result<Vec<u32>, OutOfMemory>
    ensures { IfOk result (λ copy. copy.items ≡ agents.now.items) }
{
    Ok(agents.clone()?)
}

fn two_agents(alloc: Global, i: u32, j: u32) -> Result<Vec<u32>, OutOfMemory>
    ensures { IfOk result (λ agents. agents.items ≡ i ∷ j ∷ []) }
{
    Ok(Vec::from_array(alloc, [i, j])?)
}

// Returns the numbers of all agents.
fn all_agents(alloc: Global, problem: &Problem) -> Result<Vec<u32>, OutOfMemory>
    requires { length problem.now.agents ≤ most_agents }
    ensures { IfOk result (λ agents. agents.items ≡ all_agents problem.now) }
{
    let mut agents = Vec::new(alloc);
    for agent in 0..problem.agents().len() {
        agents.push(agent as u32)?;
    }
    Ok(agents)
}
