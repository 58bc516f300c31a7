//! The judge of a leaf: do its labels show the claim? The judge of a tree calls it.
ghost use Rattle.std.specs.Prelude.{◌≡◌, ◌+◌, ◌<◌, ◌≤◌, ◌^◌, ◌↔◌, All, AllPairs, length, false};
ghost use Rattle.std.specs.Prelude.{IsTrue, IfSome, OnOk, IfErr};
ghost use Rattle.mapf_model.specs.declared.item.Claim.{Claim};
ghost use Rattle.mapf_model.specs.Printed.{AreBlocksInRange};
ghost use Rattle.mapf_model.specs.Tree.{ShowsFrom, Leaf, LeafNode};
ghost use Rattle.mapf_distance.specs.Tables.{AreMade, AreStartDistances};
ghost use Rattle.mapf_checker.specs.AgentProblem.{CanJudge};
ghost use Rattle.mapf_checker.specs.Branch.{place_of};
ghost use Rattle.mapf_checker.specs.Leaf.{IsStartTotal, IsEnough, IsStartLabel};
ghost use Rattle.mapf_checker.specs.Leaf.{IsPlaceOfAgent, TakesBlock, LeavesBlock, is_finite, ticks_in};
ghost use Rattle.mapf_checker.specs.Marks.{CoverGrid};
ghost use Rattle.mapf_checker.specs.NodeDefects.{HasNodeDefect};

use crate::blocks::{NodeProblem, agent_of, entries_in, judge_blocks, start_of};
use crate::fault::CheckFault;
use crate::labels::{entry_at, entry_or};
use crate::marks::EntryMarks;
use mapf_model::{Block, Claim, Label, laws};

/// Checks that the leaf shows the claim: each entry of its blocks is sound, and the labels of the starts add up to
/// enough. `line` is the line of the leaf.
pub fn judge_leaf(
    node: &NodeProblem,
    marks: &mut EntryMarks,
    claim: &Claim,
    blocks: &[Block],
    line: u64,
) -> Result<(), CheckFault>
    requires tables { AreMade node.now.problem.now node.now.tables.now }
    requires ready { All (CanJudge node.now.tables.now node.now.branch.now) blocks.now }
    requires marks { All (λ block. CoverGrid node.now.problem.now.grid marks.old) blocks.now }
    requires distances { AreStartDistances node.now.problem.now node.now.start_distances.now }
    requires agents { node.now.branch.now.agents ≡ length node.now.problem.now.agents }
    requires blocks { AreBlocksInRange node.now.problem.now.grid (length node.now.problem.now.agents) blocks.now }
    ensures ok { OnOk result
        (ShowsFrom node.now.problem.now claim.now (place_of node.now.branch.now).here (Leaf blocks.now)) }
    ensures err { IfErr result
        (HasNodeDefect node.now.problem.now claim.now (place_of node.now.branch.now).here (LeafNode blocks.now)) }
{
    laws::definitions_are_decided();
    if let Err(unsound) = judge_blocks(node, marks, blocks, line) {
        return Err(CheckFault::C7(unsound));
    }
    let total = start_total(node, blocks);
    if is_enough(claim, total) {
        Ok(())
    } else {
        Err(CheckFault::C8(line))
    }
}

// Returns the sum of the labels of the starts at tick 0, None if one is infinite.
fn start_total(node: &NodeProblem, blocks: &[Block]) -> Option<u64>
    requires distances { AreStartDistances node.now.problem.now node.now.start_distances.now }
    requires agents { node.now.branch.now.agents ≡ length node.now.problem.now.agents }
    requires blocks { AreBlocksInRange node.now.problem.now.grid (length node.now.problem.now.agents) blocks.now }
    ensures { IsStartTotal node.now.problem.now blocks.now (place_of node.now.branch.now).here.entries result }
{
    let count = node.problem.agents().len();
    let mut sum = 0;
    let mut is_finite = true;
    let mut place = 0;
    for i in 0..count {
        let (label, next) = start_label(node, blocks, place, i);
        sum += ticks_of(label);
        is_finite = is_finite & is_ticks(label);
        place = next;
    }
    if is_finite { Some(sum) } else { None }
}

// Returns the label of an agent's start, by its block at the leaf or, if it has none, by the nearest block above, and
// the index up to which the blocks of this agent and of smaller agents are. The blocks of smaller agents are before
// `place`.
fn start_label(node: &NodeProblem, blocks: &[Block], place: usize, agent: usize) -> (Label, usize)
    requires distances { AreStartDistances node.now.problem.now node.now.start_distances.now }
    requires agents { node.now.branch.now.agents ≡ length node.now.problem.now.agents }
    requires blocks { AreBlocksInRange node.now.problem.now.grid (length node.now.problem.now.agents) blocks.now }
    requires cut { IsPlaceOfAgent blocks.now place agent }
    requires inside { agent < length node.now.problem.now.agents }
    ensures label { IsStartLabel node.now.problem.now blocks.now
        (place_of node.now.branch.now).here.entries agent result.0 }
    ensures cut { IsPlaceOfAgent blocks.now result.1 (agent + 1) }
{
    if is_block_of(blocks, place, agent) {
        let start = start_of(node.problem, agent);
        let entry = entry_at(entries_in(&blocks[place]), start, 0);
        (entry_or(entry, node.start_distances, agent), place + 1)
    } else {
        let entry = node.branch.start_entry(agent);
        (entry_or(entry, node.start_distances, agent), place)
    }
}

// Returns whether the block at this index, before which are the blocks of smaller agents, is the agent's.
fn is_block_of(blocks: &[Block], place: usize, agent: usize) -> bool
    requires rising { AllPairs (λ a b. a.agent < b.agent) blocks.now }
    requires cut { IsPlaceOfAgent blocks.now place agent }
    ensures some { IsTrue result → TakesBlock blocks.now place agent }
    ensures none { result ≡ false → LeavesBlock blocks.now place agent }
{
    if place >= blocks.len() {
        return false;
    }
    agent_of(&blocks[place]) as usize == agent
}

// Returns the ticks of a label, 0 if it is infinite.
fn ticks_of(label: Label) -> u64
    ensures ticks { result ≡ ticks_in label }
    ensures bound { result ≤ 4294967295 }
{
    match label {
        Label::Ticks(n) => n as u64,
        Label::Never => 0,
    }
}

fn is_ticks(label: Label) -> bool
    ensures { result ≡ is_finite label }
{
    match label {
        Label::Ticks(_) => true,
        Label::Never => false,
    }
}

// Returns whether starts with labels of this sum show the claim.
fn is_enough(claim: &Claim, total: Option<u64>) -> bool
    ensures { IsTrue result ↔ IsEnough claim.now total }
{
    match (claim, total) {
        (_, None) => true,
        (Claim::Cost(least) | Claim::Bound(least), Some(total)) => *least <= total,
        (Claim::Impossible, Some(_)) => false,
    }
}
