//! How the blocks of a node are judged, and how they change the entries of the starts. The judge of a tree calls it at
//! splits and at leaves.
ghost use Rattle.std.specs.Prelude.{◌≡◌, ◌<◌, ◌≤◌, All, AllPairs, length, IfOk, IfNone, IfSome, OnOk, OnErr};
ghost use Rattle.mapf_model.specs.Labels.{entries_of, AreSound};
ghost use Rattle.mapf_model.specs.Limits.{greatest_cost};
ghost use Rattle.mapf_model.specs.Printed.{IsBefore, IsBlockInRange};
ghost use Rattle.mapf_distance.specs.Tables.{AreMade, HasTable};
ghost use Rattle.mapf_checker.specs.AgentProblem.{CanJudge, HasGoalDistances, bars_on};
ghost use Rattle.mapf_checker.specs.Branch.{IsIndexed, place_of};
ghost use Rattle.mapf_checker.specs.Leaf.{IsGoodBlock, IsGoalOf, IsStartOf};
ghost use Rattle.mapf_checker.specs.Marks.{CoverGrid};
ghost use Rattle.mapf_checker.specs.NodeDefects.{HasUnsoundBlock, HasUnsoundEntry, IsUnsoundAt};
ghost use Rattle.mapf_checker.specs.Starts.{AreChangesBy, IsChangeBy};

use crate::branch::Branch;
use crate::judge::{AgentProblem, is_sound};
use crate::labels::entry_at;
use crate::marks::EntryMarks;
use crate::starts::StartChange;
use mapf_distance::LazyTables;
use mapf_model::{Block, Cell, Entry, OutOfMemory, Problem};
use std::alloc::Global;

/// Makes the distance tables of the blocks' agents that aren't made yet.
pub fn make_tables(
    alloc: Global,
    problem: &Problem,
    tables: &mut LazyTables,
    blocks: &[Block],
) -> Result<(), OutOfMemory>
    requires tables { AreMade problem.now tables.old }
    requires blocks { All (IsBlockInRange problem.now.grid (length problem.now.agents)) blocks.now }
    ensures tables { OnOk result (AreMade problem.now tables.new) }
    ensures made { OnOk result (All (λ block. HasTable tables.new block.agent) blocks.now) }
{
    for block in blocks {
        tables.make(alloc, problem, agent_of(block))?;
    }
    Ok(())
}

/// What the blocks of a node are judged by, beside the marks.
#[derive(Drop)]
pub struct NodeProblem<'a> {
    pub problem: &'a Problem,
    /// The distances to the goals of the blocks' agents.
    pub tables: &'a LazyTables,
    /// The distances of the starts, for a leaf.
    pub start_distances: &'a [Option<u32>],
    /// The path from the root to the node.
    pub branch: &'a Branch,
}

/// Checks that each entry of the blocks of the node in this line is sound. Returns the line of the first that isn't.
pub fn judge_blocks(
    node: &NodeProblem,
    marks: &mut EntryMarks,
    blocks: &[Block],
    line: u64,
) -> Result<(), u64>
    requires tables { AreMade node.now.problem.now node.now.tables.now }
    requires ready { All (CanJudge node.now.tables.now node.now.branch.now) blocks.now }
    requires marks { All (λ block. CoverGrid node.now.problem.now.grid marks.old) blocks.now }
    requires blocks { All (IsBlockInRange node.now.problem.now.grid (length node.now.problem.now.agents)) blocks.now }
    ensures ok { OnOk result (All (IsGoodBlock node.now.problem.now (place_of node.now.branch.now).here) blocks.now) }
    ensures err { OnErr result (HasUnsoundBlock node.now.problem.now (place_of node.now.branch.now).here blocks.now) }
{
    let mut line = line;
    for block in blocks {
        line = line.saturating_add(1);
        judge_block(node, marks, block, line)?;
        line = line.saturating_add(block.entries.len() as u64);
    }
    Ok(())
}

// Checks that each entry of the block that begins in this line is sound. Returns the line of the first that isn't.
fn judge_block(
    node: &NodeProblem,
    marks: &mut EntryMarks,
    block: &Block,
    line: u64,
) -> Result<(), u64>
    requires tables { AreMade node.now.problem.now node.now.tables.now }
    requires ready { CanJudge node.now.tables.now node.now.branch.now block.now }
    requires marks { CoverGrid node.now.problem.now.grid marks.old }
    requires block { IsBlockInRange node.now.problem.now.grid (length node.now.problem.now.agents) block.now }
    ensures ok { OnOk result (IsGoodBlock node.now.problem.now (place_of node.now.branch.now).here block.now) }
    ensures err { OnErr result (HasUnsoundEntry node.now.problem.now (place_of node.now.branch.now).here block.now) }
    ensures marks { CoverGrid node.now.problem.now.grid marks.new }
{
    let agent = agent_of(block);
    let goal = goal_of(node.problem, agent);
    let own = AgentProblem {
        grid: node.problem.grid(),
        distances: node.tables.get(agent),
        branch: node.branch,
        agent,
        goal,
    };
    match first_unsound(&own, marks, entries_in(block)) {
        Some(k) => Err(line.saturating_add(k as u64).saturating_add(1)),
        None => Ok(()),
    }
}

/// Returns the agent of a block.
pub fn agent_of(block: &Block) -> u32
    ensures { result ≡ block.now.agent }
{
    block.agent
}

/// Returns the entries of a block.
pub fn entries_in(block: &Block) -> &[Entry]
    ensures { result.now ≡ block.now.entries }
{
    &block.entries
}

fn goal_of(problem: &Problem, agent: u32) -> Cell
    requires { agent < length problem.now.agents }
    ensures { IsGoalOf problem.now agent result }
{
    problem.agents()[agent as usize].goal
}

// Returns the index of the first entry of a block that isn't sound.
fn first_unsound(own: &AgentProblem, marks: &mut EntryMarks, entries: &[Entry]) -> Option<usize>
    requires distances { HasGoalDistances own.now }
    requires indexed { IsIndexed own.now.branch.now }
    requires rising { AllPairs IsBefore entries.now }
    requires ticks { All (λ entry. entry.tick ≤ greatest_cost) entries.now }
    requires cells { All (λ entry. entry.cell < length marks.old.offsets) entries.now }
    ensures none { IfNone result (AreSound own.now.grid.now own.now.goal (bars_on own.now) (entries_of entries.now)) }
    ensures some { IfSome result (IsUnsoundAt own.now entries.now) }
    ensures size { length marks.new.offsets ≡ length marks.old.offsets }
{
    marks.begin(entries);
    for k in 0..entries.len() {
        let entry = &entries[k];
        marks.advance(entries, entry.tick + 1);
        if !is_sound(own, entries, marks, entry) {
            return Some(k);
        }
    }
    None
}

/// Returns how the blocks change the entries of the starts.
pub fn changes_by(
    alloc: Global,
    problem: &Problem,
    branch: &Branch,
    blocks: &[Block],
) -> Result<Vec<StartChange>, OutOfMemory>
    requires agents { branch.now.agents ≡ length problem.now.agents }
    requires blocks { All (IsBlockInRange problem.now.grid (length problem.now.agents)) blocks.now }
    ensures { IfOk result (λ changes.
        AreChangesBy problem.now (place_of branch.now).here.entries blocks.now changes.items) }
{
    let mut changes = Vec::with_capacity(alloc, blocks.len())?;
    for block in blocks {
        changes.push(change_by(problem, branch, block))?;
    }
    Ok(changes)
}

fn change_by(problem: &Problem, branch: &Branch, block: &Block) -> StartChange
    requires agents { branch.now.agents ≡ length problem.now.agents }
    requires block { IsBlockInRange problem.now.grid (length problem.now.agents) block.now }
    ensures { IsChangeBy problem.now (place_of branch.now).here.entries block.now result }
{
    let agent = agent_of(block);
    let start = start_of(problem, agent as usize);
    StartChange {
        agent,
        before: branch.start_entry(agent as usize),
        now: entry_at(entries_in(block), start, 0),
    }
}

/// Returns the start of an agent.
pub fn start_of(problem: &Problem, agent: usize) -> Cell
    requires { agent < length problem.now.agents }
    ensures { IsStartOf problem.now agent result }
{
    problem.agents()[agent].start
}
