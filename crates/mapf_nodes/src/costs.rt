//! What the agents of a tree cost alone at a node, and what is known beyond that.
use crate::facts::{Fact, FactGroup, PairFact};
use crate::members::Members;
use crate::node::Node;
use crate::store::Store;

/// The costs of a tree's agents.
#[derive(Drop)]
pub struct Costs<'s, 'a> {
    pub store: &'s Store<'a>,
    pub members: &'s Members,
}

impl<'s, 'a> Costs<'s, 'a> {
    /// Returns what an agent costs alone at a node, in ticks.
    pub fn agent(&self, node: &Node, agent: u32) -> u64 {
        let place = self.members.place(agent).unwrap_or(usize::MAX);
        match node.singles.get(place) {
            Some(&number) => u64::from(self.store.singles.cost(number).unwrap_or(0)),
            None => 0,
        }
    }

    /// Returns the sum of what these agents cost alone at a node, in ticks.
    pub fn sum(&self, node: &Node, agents: &[u32]) -> u64 {
        let mut sum = 0u64;
        for &agent in agents {
            sum = sum.saturating_add(self.agent(node, agent));
        }
        sum
    }

    /// Returns the sum of what the agents of a bound cost alone at a node, in ticks.
    pub fn alone(&self, node: &Node, fact: &Fact) -> u64 {
        match fact {
            Fact::Pair(fact) => self.sum(node, &[fact.i, fact.j]),
            Fact::Group(fact) => match self.store.groups.get(fact.group) {
                Some(group) => self.sum(node, &group.agents),
                None => 0,
            },
        }
    }

    /// Returns how much more two agents cost at least together than alone at a node, in ticks.
    pub fn pair_excess(&self, node: &Node, fact: &PairFact) -> u64 {
        fact.bound.saturating_sub(self.sum(node, &[fact.i, fact.j]))
    }

    /// Returns what a group of bounds adds to what its agents cost alone at a node, in ticks.
    pub fn worth(&self, node: &Node, group: &FactGroup) -> u64 {
        let mut sum = 0u64;
        for used in &group.uses {
            let excess = used
                .fact
                .bound()
                .saturating_sub(self.alone(node, &used.fact));
            sum = sum.saturating_add(excess.saturating_mul(u64::from(used.weight)));
        }
        sum.div_ceil(u64::from(group.divisor.max(1)))
    }
}
