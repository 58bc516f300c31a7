//! The judge of a tree, an item at a time in pre-order. The judge of a certificate hands it each item that it reads.
ghost use Rattle.std.specs.Prelude.{◌≡◌, ◌↔◌, ◌∷◌, [], All, false, length, IfErr, IfOk, OnOk, IsTrue};
ghost use Rattle.mapf_certificate.specs.Certificates.{IsNode};
ghost use Rattle.mapf_certificate.specs.declared.version.Version.{Version};
ghost use Rattle.mapf_model.specs.declared.item.Claim.{Claim};
ghost use Rattle.mapf_model.specs.Printed.{AreBlocksInRange};
ghost use Rattle.mapf_model.specs.Tree.{SplitNode, LeafNode, ClashNode, node_of, root};
ghost use Rattle.mapf_model.specs.Tree.{IsProperSplit, SplitShows, AreProperBlocks, AreBlocksSound};
ghost use Rattle.mapf_model.specs.Tree.{AreTwoAgents, ShareGoal};
ghost use Rattle.mapf_checker.specs.Faults.{IsOfJudging};
ghost use Rattle.mapf_distance.specs.Tables.{AreStartDistances};
ghost use Rattle.mapf_checker.specs.AgentProblem.{CanJudge};
ghost use Rattle.mapf_checker.specs.Marks.{CoverGrid};
ghost use Rattle.mapf_checker.specs.NodeDefects.{HasNodeDefect, IsUnsoundLabel, IsGoodNode};
ghost use Rattle.mapf_checker.specs.Starts.{AreChangesBy};
ghost use Rattle.mapf_checker.specs.Branch.{place_of};

use crate::blocks::{NodeProblem, changes_by, judge_blocks, make_tables};
use crate::branch::Branch;
use crate::fault::{CheckFault, FromFault};
use crate::leaf::judge_leaf;
use crate::marks::EntryMarks;
use crate::starts::StartChange;
use mapf_distance::{LazyTables, start_distances};
use mapf_model::{AsNode, Block, Claim, Conflict, Item, NodeKind, OutOfMemory, Problem};
use std::alloc::Global;

/// How far a tree, whose items come in pre-order, was judged.
#[derive(Drop)]
pub struct Progress {
    branch: Branch,
    // The distances to the goals of the agents that had a block so far.
    tables: LazyTables,
    // Made at the first block.
    marks: EntryMarks,
    // The distances of the starts, made at the first leaf.
    distances: Vec<Option<u32>>,
    /// Whether the whole tree was judged.
    pub is_over: bool,
}

impl Progress {
    ghost use Rattle.mapf_checker.specs.Progress.{pending_by, contexts_after, here_of, AreAllAlike, IsReady};

    /// Returns the state before the root is judged.
    pub fn new(alloc: Global, problem: &Problem) -> Result<Progress, OutOfMemory>
        ensures ready { IfOk result (IsReady problem.now) }
        ensures pending { IfOk result (λ progress. pending_by progress ≡ root ∷ []) }
    {
        Ok(Progress {
            branch: Branch::new(alloc, problem.agents().len())?,
            tables: LazyTables::of(alloc, problem)?,
            marks: EntryMarks::new(alloc),
            distances: Vec::new(alloc),
            is_over: false,
        })
    }

    /// Judges the item that begins in this line.
    pub fn item(
        &mut self,
        alloc: Global,
        problem: &Problem,
        claim: &Claim,
        item: &Item,
        line: u64,
    ) -> Result<(), FromFault>
        requires ready { IsReady problem.now self.old }
        requires going { self.old.is_over ≡ false }
        requires node { (version : Version)
            × IsNode version problem.now.grid (length problem.now.agents) (node_of item.now) }
        ensures ready { OnOk result (IsReady problem.now self.new) }
        ensures pending { OnOk result (AreAllAlike problem.now (pending_by self.new)
            (contexts_after (pending_by self.old) (node_of item.now))) }
        ensures good { OnOk result (IsGoodNode problem.now claim.now (here_of self.old) (node_of item.now)) }
        ensures refused { IfErr result (IsOfJudging
            (HasNodeDefect problem.now claim.now (here_of self.old) (node_of item.now))) }
    {
        match item.kind() {
            NodeKind::Split(conflict) => self.split(alloc, problem, &conflict, item.blocks(), line),
            NodeKind::Leaf => self.leaf(alloc, problem, claim, item.blocks(), line),
            NodeKind::Clash { i, j } => self.clash(problem, i, j, line),
        }
    }

    fn split(
        &mut self,
        alloc: Global,
        problem: &Problem,
        conflict: &Conflict,
        blocks: &[Block],
        line: u64,
    ) -> Result<(), FromFault>
        requires ready { IsReady problem.now self.old }
        requires going { self.old.is_over ≡ false }
        requires blocks { AreBlocksInRange problem.now.grid (length problem.now.agents) blocks.now }
        ensures ready { OnOk result (IsReady problem.now self.new) }
        ensures pending { OnOk result (AreAllAlike problem.now (pending_by self.new)
            (contexts_after (pending_by self.old) (SplitNode conflict.now blocks.now))) }
        ensures good { OnOk result (SplitShows problem.now (here_of self.old) conflict.now blocks.now) }
        ensures refused { (claim : Claim) → IfErr result (IsOfJudging
            (HasNodeDefect problem.now claim (here_of self.old) (SplitNode conflict.now blocks.now))) }
    {
        if !is_proper_split(problem, conflict) {
            return Err(FromFault::Refused(CheckFault::C6(line)));
        }
        let changes = self.changes(alloc, problem, blocks, line)?;
        let Ok(()) = self.branch.split(conflict, changes) else {
            return Err(FromFault::Memory);
        };
        Ok(())
    }

    // Judges the blocks of a split. Returns how they change the entries of the starts.
    fn changes(
        &mut self,
        alloc: Global,
        problem: &Problem,
        blocks: &[Block],
        line: u64,
    ) -> Result<Vec<StartChange>, FromFault>
        requires ready { IsReady problem.now self.old }
        requires blocks { AreBlocksInRange problem.now.grid (length problem.now.agents) blocks.now }
        ensures ready { OnOk result (IsReady problem.now self.new) }
        ensures edges { self.new.branch.edges ≡ self.old.branch.edges }
        ensures over { self.new.is_over ≡ self.old.is_over }
        ensures changes { IfOk result (λ changes.
            AreChangesBy problem.now (here_of self.old).entries blocks.now changes.items) }
        ensures proper { OnOk result (AreProperBlocks problem.now blocks.now) }
        ensures sound { OnOk result (AreBlocksSound problem.now (here_of self.old) blocks.now) }
        ensures refused { IfErr result (IsOfJudging (IsUnsoundLabel problem.now (here_of self.old) blocks.now)) }
    {
        if blocks.is_empty() {
            return Ok(Vec::new(alloc));
        }
        self.see_to_blocks(alloc, problem, blocks)?;
        let node = NodeProblem {
            problem,
            tables: &self.tables,
            start_distances: &self.distances,
            branch: &self.branch,
        };
        if let Err(unsound) = judge_blocks(&node, &mut self.marks, blocks, line) {
            return Err(FromFault::Refused(CheckFault::C7(unsound)));
        }
        let Ok(changes) = changes_by(alloc, problem, &self.branch, blocks) else {
            return Err(FromFault::Memory);
        };
        Ok(changes)
    }

    fn leaf(
        &mut self,
        alloc: Global,
        problem: &Problem,
        claim: &Claim,
        blocks: &[Block],
        line: u64,
    ) -> Result<(), FromFault>
        requires ready { IsReady problem.now self.old }
        requires going { self.old.is_over ≡ false }
        requires blocks { AreBlocksInRange problem.now.grid (length problem.now.agents) blocks.now }
        ensures ready { OnOk result (IsReady problem.now self.new) }
        ensures pending { OnOk result
            (pending_by self.new ≡ contexts_after (pending_by self.old) (LeafNode blocks.now)) }
        ensures good { OnOk result (IsGoodNode problem.now claim.now (here_of self.old) (LeafNode blocks.now)) }
        ensures refused { IfErr result (IsOfJudging
            (HasNodeDefect problem.now claim.now (here_of self.old) (LeafNode blocks.now))) }
    {
        self.see_to_blocks(alloc, problem, blocks)?;
        self.see_to_distances(alloc, problem)?;
        let node = NodeProblem {
            problem,
            tables: &self.tables,
            start_distances: &self.distances,
            branch: &self.branch,
        };
        if let Err(fault) = judge_leaf(&node, &mut self.marks, claim, blocks, line) {
            return Err(FromFault::Refused(fault));
        }
        self.end()
    }

    // Makes what the blocks are judged by: the tables of their agents, the index of the constraints along the path, and
    // marks for the cells. Without blocks none is needed.
    fn see_to_blocks(
        &mut self,
        alloc: Global,
        problem: &Problem,
        blocks: &[Block],
    ) -> Result<(), FromFault>
        requires ready { IsReady problem.now self.old }
        requires blocks { AreBlocksInRange problem.now.grid (length problem.now.agents) blocks.now }
        ensures ready { OnOk result (IsReady problem.now self.new) }
        ensures blocks { OnOk result (All (CanJudge self.new.tables self.new.branch) blocks.now) }
        ensures marks { OnOk result (All (λ block. CoverGrid problem.now.grid self.new.marks) blocks.now) }
        ensures edges { self.new.branch.edges ≡ self.old.branch.edges }
        ensures over { self.new.is_over ≡ self.old.is_over }
        ensures memory { IfErr result (λ fault. fault ≡ FromFault.Memory) }
    {
        if blocks.is_empty() {
            return Ok(());
        }
        let Ok(()) = make_tables(alloc, problem, &mut self.tables, blocks) else {
            return Err(FromFault::Memory);
        };
        let Ok(()) = self.branch.index_all() else {
            return Err(FromFault::Memory);
        };
        let grid = problem.grid();
        let Ok(()) = self.marks.make((grid.width() * grid.height()) as usize) else {
            return Err(FromFault::Memory);
        };
        Ok(())
    }

    // Makes the distances of the starts if they aren't made yet.
    fn see_to_distances(&mut self, alloc: Global, problem: &Problem) -> Result<(), FromFault>
        requires ready { IsReady problem.now self.old }
        ensures ready { OnOk result (IsReady problem.now self.new) }
        ensures distances { OnOk result (AreStartDistances problem.now self.new.distances.items) }
        ensures tables { self.new.tables ≡ self.old.tables }
        ensures branch { self.new.branch ≡ self.old.branch }
        ensures marks { self.new.marks ≡ self.old.marks }
        ensures over { self.new.is_over ≡ self.old.is_over }
        ensures memory { IfErr result (λ fault. fault ≡ FromFault.Memory) }
    {
        if !self.distances.is_empty() {
            return Ok(());
        }
        let Ok(distances) = start_distances(alloc, problem) else {
            return Err(FromFault::Memory);
        };
        self.distances = distances;
        Ok(())
    }

    fn clash(&mut self, problem: &Problem, i: u32, j: u32, line: u64) -> Result<(), FromFault>
        requires going { self.old.is_over ≡ false }
        ensures tables { self.new.tables ≡ self.old.tables }
        ensures distances { self.new.distances.items ≡ self.old.distances.items }
        ensures agents { self.new.branch.agents ≡ self.old.branch.agents }
        ensures pending { OnOk result (pending_by self.new ≡ contexts_after (pending_by self.old) (ClashNode i j)) }
        ensures good { OnOk result (ShareGoal problem.now i j) }
        ensures refused { (claim : Claim) → IfErr result (IsOfJudging
            (HasNodeDefect problem.now claim (here_of self.old) (ClashNode i j))) }
    {
        if !share_goal(problem, i, j) {
            return Err(FromFault::Refused(CheckFault::C9(line)));
        }
        self.end()
    }

    // Moves to the next node after a terminal node.
    fn end(&mut self) -> Result<(), FromFault>
        ensures tables { self.new.tables ≡ self.old.tables }
        ensures distances { self.new.distances.items ≡ self.old.distances.items }
        ensures agents { self.new.branch.agents ≡ self.old.branch.agents }
        ensures pending { OnOk result (pending_by self.new ≡ (place_of self.old.branch).pending) }
        ensures memory { IfErr result (λ fault. fault ≡ FromFault.Memory) }
    {
        let Ok(more) = self.branch.backtrack() else {
            return Err(FromFault::Memory);
        };
        self.is_over = !more;
        Ok(())
    }
}

fn is_proper_split(problem: &Problem, conflict: &Conflict) -> bool
    ensures { IsTrue result ↔ IsProperSplit problem.now conflict.now }
{
    let grid = problem.grid();
    match *conflict {
        Conflict::Vertex { i, j, cell, .. } => are_two_agents(problem, i, j) && grid.is_free(cell),
        Conflict::Swap { i, j, from, to, .. } => are_two_agents(problem, i, j)
            && grid.are_adjacent(from, to),
    }
}

fn are_two_agents(problem: &Problem, i: u32, j: u32) -> bool
    ensures { IsTrue result ↔ AreTwoAgents problem.now i j }
{
    let count = problem.agents().len();
    i != j && (i as usize) < count && (j as usize) < count
}

fn share_goal(problem: &Problem, i: u32, j: u32) -> bool
    ensures { IsTrue result ↔ ShareGoal problem.now i j }
{
    let agents = problem.agents();
    let (first, second) = (i as usize, j as usize);
    if i == j || first >= agents.len() || second >= agents.len() {
        return false;
    }
    agents[first].goal == agents[second].goal
}
