//! A node of the constraint tree.
use crate::added::Added;
use crate::conflict_count::ConflictCount;
use crate::facts::{FactGroup, GroupFact, PairFact};
use mapf_model::{Conflict, OutOfMemory};
use std::alloc::Global;

/// A node of the constraint tree of a search. What is listed by agent is listed by its place among the tree's agents.
#[derive(Debug, Drop)]
pub struct Node {
    /// The number of its parent. The root has its own.
    pub parent: u32,
    /// What it adds to its parent's constraints. The root adds nothing.
    pub added: Option<Added>,
    pub split: Option<NodeSplit>,
    /// By agent, the number of the agent under its constraints. Some of them may be left out there, if its path obeys
    /// them all.
    pub singles: Vec<u32>,
    /// By agent, the number of its path.
    pub paths: Vec<u32>,
    pub conflicts: Vec<Conflict>,
    pub count: ConflictCount,
    pub pairs: Vec<PairFact>,
    pub groups: Vec<GroupFact>,
    /// The sum of what each agent costs alone, in ticks. A dead node has that of its other agents.
    pub base: u64,
    /// No valid plan under the node's constraints has a smaller sum, in ticks.
    pub bound: u64,
    /// What shows the bound beyond the base.
    pub shown: Vec<FactGroup>,
    pub state: NodeState,
    /// Numbers of paths without a conflict, by agent, whose sum of costs is the bound.
    pub plan: Option<Vec<u32>>,
}

/// How far a node was looked at.
#[derive(Clone, Copy, Debug, PartialEq, Eq)]
pub enum NodeState {
    /// Its pairs in conflict weren't looked at yet.
    Made,
    /// They were.
    Evaluated,
    /// Its groups of agents were looked at too.
    Visited,
    /// No plan is valid under its constraints.
    Dead,
}

/// How a node is split.
#[derive(Clone, Copy, Debug)]
pub enum SplitKind {
    Conflict(Conflict),
    /// An agent costs at most so many ticks, or more.
    Cost { agent: u32, ticks: u32 },
    /// The same, and if it does, the other agent costs at least so much, since the two have a bound.
    Costs(CostsSplit),
}

/// A split on the cost of one of two agents, of which a bound is known.
#[derive(Clone, Copy, Debug)]
pub struct CostsSplit {
    pub agent: u32,
    pub ticks: u32,
    pub other: u32,
    pub least: u32,
    pub pair: PairFact,
}

/// A split with its children.
#[derive(Clone, Copy, Debug)]
pub struct NodeSplit {
    pub kind: SplitKind,
    /// The number of the left child. The right one is the next node.
    pub left: u32,
}

impl Node {
    /// Returns a root with these agents under their constraints, and these paths.
    pub fn root(alloc: Global, singles: Vec<u32>, paths: Vec<u32>, base: u64) -> Node {
        Node {
            parent: 0,
            added: None,
            split: None,
            singles,
            paths,
            conflicts: Vec::new(alloc),
            count: ConflictCount::default(),
            pairs: Vec::new(alloc),
            groups: Vec::new(alloc),
            base,
            bound: base,
            shown: Vec::new(alloc),
            state: NodeState::Made,
            plan: None,
        }
    }

    /// Returns a child of this node, which has this number in the tree, before anything is planned again.
    pub fn child(&self, alloc: Global, number: u32, added: Added) -> Result<Node, OutOfMemory> {
        Ok(Node {
            parent: number,
            added: Some(added),
            split: None,
            singles: Vec::from_slice(alloc, &self.singles)?,
            paths: Vec::from_slice(alloc, &self.paths)?,
            conflicts: Vec::from_slice(alloc, &self.conflicts)?,
            count: self.count,
            pairs: Vec::from_slice(alloc, &self.pairs)?,
            groups: Vec::from_slice(alloc, &self.groups)?,
            base: self.base,
            bound: self.bound,
            shown: Vec::new(alloc),
            state: NodeState::Made,
            plan: None,
        })
    }

    /// Drops what only an open node needs.
    pub fn close(&mut self, alloc: Global) {
        self.paths = Vec::new(alloc);
        self.conflicts = Vec::new(alloc);
        self.plan = None;
    }

    /// Returns the bound of two agents that is known, None if there is none.
    pub fn pair_fact(&self, i: u32, j: u32) -> Option<PairFact> {
        self.pairs
            .iter()
            .find(|fact| fact.i == i && fact.j == j)
            .copied()
    }

    /// Notes a bound of two agents, unless one that is as great is known.
    pub fn note_pair(&mut self, fact: PairFact) -> Result<(), OutOfMemory> {
        match self
            .pairs
            .iter_mut()
            .find(|old| old.i == fact.i && old.j == fact.j)
        {
            Some(old) if old.bound >= fact.bound => Ok(()),
            Some(old) => {
                *old = fact;
                Ok(())
            }
            None => {
                self.pairs.push(fact)?;
                Ok(())
            }
        }
    }
}
