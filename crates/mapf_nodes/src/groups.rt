//! Groups of agents, each of which is searched by itself under what stands for its agents at a node.
use crate::search_tree::SearchTree;
use mapf_layers::ConstraintSet;
use mapf_model::OutOfMemory;
use std::alloc::Global;
use std::collections::HashMap;
use std::mem;

/// Agents, and what stands for each of them.
#[derive(Debug, PartialEq, Eq, Hash, Drop)]
pub struct GroupKey {
    /// In rising order.
    pub agents: Vec<u32>,
    /// By agent.
    pub given: Vec<ConstraintSet>,
}

/// A group of agents with its search, which can be gone on with.
#[derive(Drop)]
pub struct AgentGroup {
    /// In rising order.
    pub agents: Vec<u32>,
    /// Its tree. None while it is searched.
    pub tree: Option<SearchTree>,
    /// No plan of these agents has a smaller sum of costs, in ticks. `u64::MAX` if they have no plan.
    pub bound: u64,
    /// Numbers of paths without a conflict whose costs add up to the bound, by agent, once they are found.
    pub plan: Option<Vec<u32>>,
    /// How much work the search took.
    pub spent: u64,
}

/// Groups by their numbers.
#[derive(Drop)]
pub struct Groups {
    alloc: Global,
    numbers: HashMap<GroupKey, u32>,
    list: Vec<AgentGroup>,
}

impl Groups {
    /// Returns no groups yet.
    pub fn new(alloc: Global) -> Groups {
        Groups {
            alloc,
            numbers: HashMap::new(alloc),
            list: Vec::new(alloc),
        }
    }

    /// Returns the number of the group with this key, None if it wasn't begun.
    pub fn find(&self, key: &GroupKey) -> Option<u32> {
        self.numbers.get(key).copied()
    }

    /// Adds a group whose search begins with this tree, and returns its number.
    pub fn add(&mut self, key: GroupKey, tree: SearchTree) -> Result<u32, OutOfMemory> {
        let number = u32::try_from(self.list.len()).map_err(|_| OutOfMemory)?;
        self.list.push(AgentGroup {
            agents: Vec::from_slice(self.alloc, &key.agents)?,
            bound: tree.node(0).map_or(0, |root| root.bound),
            tree: Some(tree),
            plan: None,
            spent: 0,
        })?;
        self.numbers.insert(key, number)?;
        Ok(number)
    }

    /// Returns the group of a number.
    pub fn get(&self, number: u32) -> Option<&AgentGroup> {
        self.list.get(number as usize)
    }

    /// Returns the group of a number, to be changed.
    pub fn get_mut(&mut self, number: u32) -> Option<&mut AgentGroup> {
        self.list.get_mut(number as usize)
    }

    /// Takes the tree of a group that has more to find, None if it hasn't.
    pub fn take_tree(&mut self, number: u32) -> Option<SearchTree> {
        if !self.has_more(number) {
            return None;
        }
        let group = self.list.get_mut(number as usize)?;
        mem::replace(&mut group.tree, None)
    }

    /// Returns whether a group has more to find: it has neither a plan nor the bound that there is none.
    pub fn has_more(&self, number: u32) -> bool {
        match self.get(number) {
            Some(group) => group.plan.is_none() && group.bound != u64::MAX,
            None => false,
        }
    }

    /// Returns how many there are.
    pub fn len(&self) -> usize {
        self.list.len()
    }
}
