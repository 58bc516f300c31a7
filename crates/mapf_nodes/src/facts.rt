//! Lower bounds on the sums of costs of some agents of a node, and how they add up to its bound.
use mapf_model::OutOfMemory;
use std::alloc::Global;

/// A bound of two agents, which holds at a node and below it.
#[derive(Clone, Copy, Debug)]
pub struct PairFact {
    /// The two agents, that of the lesser number first.
    pub i: u32,
    pub j: u32,
    /// The number of the pair for which it was found.
    pub pair: u32,
    /// A lower bound of the sum of their costs, in ticks.
    pub bound: u64,
}

/// A bound of more agents, found by a search of their own.
#[derive(Clone, Copy, Debug)]
pub struct GroupFact {
    /// The number of the group.
    pub group: u32,
    /// A lower bound of the sum of their costs, in ticks.
    pub bound: u64,
}

/// A bound that is used.
#[derive(Clone, Copy, Debug)]
pub enum Fact {
    Pair(PairFact),
    Group(GroupFact),
}

impl Fact {
    /// Returns the lower bound of the sum of costs, in ticks.
    pub fn bound(&self) -> u64 {
        match self {
            Fact::Pair(fact) => fact.bound,
            Fact::Group(fact) => fact.bound,
        }
    }
}

/// A use of a bound, with its weight.
#[derive(Clone, Copy, Debug)]
pub struct WeightedFact {
    pub fact: Fact,
    pub weight: u32,
}

/// Bounds of agents that overlap: their weighted excesses are added up, divided, and rounded up.
#[derive(Debug, Drop)]
pub struct FactGroup {
    pub divisor: u32,
    pub uses: Vec<WeightedFact>,
}

impl FactGroup {
    /// Returns the same group once more.
    pub fn duplicate(&self, alloc: Global) -> Result<FactGroup, OutOfMemory> {
        Ok(FactGroup {
            divisor: self.divisor,
            uses: Vec::from_slice(alloc, &self.uses)?,
        })
    }
}
