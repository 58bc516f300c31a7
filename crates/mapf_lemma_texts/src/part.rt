//! The parts of a certificate of version 3: what stands between its header and its end. The reader of parts makes them
//! one after another, and a checker judges each of them before the next is read.
ghost use Rattle.mapf_lemma_texts.specs.PartValues.{OneValue, TwoValue, NeverValue, CasesValue};

use mapf_lemmas::{
    AgentConstraint, Amount, JointCell, JointEntry, LeafUses, PriceList, PricedEntry,
};
use mapf_model::{Cell, Tick};
use std::marker::Model;

/// A lemma of one agent by labels.
#[derive(Debug, Drop)]
pub struct OneLemma {
    pub agent: u32,
    /// The constraints of the agent.
    pub constraints: Vec<AgentConstraint>,
    pub list_number: Option<u64>,
    pub entries: Vec<PricedEntry>,
}

impl Model for OneLemma {
    ghost Value = { OneValue };

    ghost view = { λ lemma. record {
      agent = lemma.agent;
      constraints = lemma.constraints.items;
      list_number = lemma.list_number;
      entries = lemma.entries.items;
    } };
}

/// A lemma of two agents by labels of each and of both.
#[derive(Debug, Drop)]
pub struct TwoLemma {
    pub i: u32,
    pub j: u32,
    /// The constraints of both agents.
    pub constraints: Vec<AgentConstraint>,
    pub list_number: Option<u64>,
    /// The entries of agent `i`.
    pub first: Vec<PricedEntry>,
    /// The entries of agent `j`.
    pub second: Vec<PricedEntry>,
    /// The entries of both.
    pub joint: Vec<JointEntry>,
}

impl Model for TwoLemma {
    ghost Value = { TwoValue };

    ghost view = { λ lemma. record {
      i = lemma.i;
      j = lemma.j;
      constraints = lemma.constraints.items;
      list_number = lemma.list_number;
      first = lemma.first.items;
      second = lemma.second.items;
      joint = lemma.joint.items;
    } };
}

/// A lemma of two agents that can't both arrive without a conflict, by joint cells that they never leave.
#[derive(Debug, Drop)]
pub struct NeverLemma {
    pub i: u32,
    pub j: u32,
    pub cells: Vec<JointCell>,
}

impl Model for NeverLemma {
    ghost Value = { NeverValue };

    ghost view = { λ lemma. record { i = lemma.i; j = lemma.j; cells = lemma.cells.items } };
}

/// A lemma by cases, without its tree.
#[derive(Debug, Drop)]
pub struct CasesHead {
    /// Its agents, in rising order.
    pub agents: Vec<u32>,
    /// The constraints of these agents.
    pub constraints: Vec<AgentConstraint>,
    /// What its agents cost at least together, in ticks.
    pub bound: Amount,
}

impl Model for CasesHead {
    ghost Value = { CasesValue };

    ghost view = { λ lemma. record {
      agents = lemma.agents.items;
      constraints = lemma.constraints.items;
      bound = lemma.bound;
    } };
}

/// A part of a certificate of version 3. A tree is spelled by its nodes in pre-order: a split is followed by the nodes
/// of its left child, then by those of its right child.
#[derive(Debug, Drop)]
pub enum Part {
    /// How many price lists follow.
    Prices(u64),
    List(PriceList),
    /// How many lemmas follow.
    Lemmas(u64),
    One(OneLemma),
    Two(TwoLemma),
    Never(NeverLemma),
    /// A lemma by cases, whose tree follows.
    Cases(CasesHead),
    /// A split on a vertex conflict: agent `i` isn't in the cell at the tick, or agent `j` isn't.
    Vertex {
        i: u32,
        j: u32,
        cell: Cell,
        tick: Tick,
    },
    /// A split on a swapping conflict: agent `i` doesn't move from `from` to `to` at the tick, or agent `j` doesn't
    /// move from `to` to `from`.
    Swap {
        i: u32,
        j: u32,
        from: Cell,
        to: Cell,
        tick: Tick,
    },
    /// A split on the cost of agent `i`: at most so many ticks, or more.
    Cost {
        i: u32,
        ticks: u32,
    },
    /// A split on the cost of agent `i`, in which the lemma with this number bounds that of agent `j`.
    Costs {
        i: u32,
        ticks: u32,
        j: u32,
        least: u32,
        lemma: u64,
    },
    /// A leaf of a tree.
    Leaf(LeafUses),
    /// A terminal node of a tree, which names two agents with the same goal.
    Clash {
        i: u32,
        j: u32,
    },
}
