//! A line of a certificate of version 3 as a value. The reader of lines returns it, and the writer of lines takes it.
use mapf_lemmas::{AgentConstraint, Amount, JointCell, JointEntry, Price, PricedEntry, Use};
use mapf_model::{Cell, Claim, Tick};

/// A line of a certificate of version 3.
#[derive(Clone, Copy, Debug, PartialEq, Eq)]
pub enum LemmaLine {
    /// The first line, which names the version.
    Title,
    /// The number of agents.
    Agents(u32),
    /// What is claimed.
    Claim(Claim),
    /// How many price lists follow.
    Prices(u64),
    /// The first line of a price list: what one tick of cost is worth, and how many prices follow.
    List {
        unit: u32,
        prices: u64,
    },
    /// A price of a list.
    Price(Price),
    /// How many lemmas follow.
    Lemmas(u64),
    /// The first line of a lemma with labels of one agent: how many constraints and entries follow, and the number of
    /// its price list if it has one.
    One {
        agent: u32,
        constraints: u32,
        entries: u64,
        list_number: Option<u64>,
    },
    /// The first line of a lemma with labels of two agents: how many constraints, entries of the first, entries of the
    /// second and joint entries follow, and the number of its price list if it has one.
    Two {
        first: u32,
        second: u32,
        constraints: u32,
        first_entries: u64,
        second_entries: u64,
        joint_entries: u64,
        list_number: Option<u64>,
    },
    /// The first line of a lemma with joint cells that two agents never leave: how many follow.
    Never {
        first: u32,
        second: u32,
        cells: u64,
    },
    /// The first line of a lemma by cases: how many agents and constraints follow, and its bound.
    Cases {
        agents: u32,
        constraints: u32,
        bound: Amount,
    },
    /// An agent of a lemma by cases.
    Agent(u32),
    /// A constraint of a lemma.
    Constraint(AgentConstraint),
    /// A label of one agent.
    At(PricedEntry),
    /// A label of two agents.
    JointAt(JointEntry),
    /// The cells of two agents.
    Cells(JointCell),
    /// A split on a vertex conflict.
    Vertex {
        i: u32,
        j: u32,
        cell: Cell,
        tick: Tick,
    },
    /// A split on a swapping conflict.
    Swap {
        i: u32,
        j: u32,
        from: Cell,
        to: Cell,
        tick: Tick,
    },
    /// A split on the cost of agent `i`.
    Cost {
        i: u32,
        ticks: u32,
    },
    /// A split on the cost of agent `i`, in which the lemma with this number bounds that of agent `j`.
    Costs {
        i: u32,
        ticks: u32,
        j: u32,
        least: u32,
        lemma: u64,
    },
    /// A terminal node that names two agents with the same goal.
    Clash {
        i: u32,
        j: u32,
    },
    /// The first line of a leaf: how many uses outside groups and how many groups follow, and the number of its price
    /// list if it has one.
    Leaf {
        uses: u32,
        groups: u32,
        list_number: Option<u64>,
    },
    /// The use of the lemma with this number, outside groups.
    Use(u64),
    /// The first line of a group: its divisor, and how many uses follow.
    Group {
        uses: u32,
        divisor: u32,
    },
    /// A use in a group.
    WeightedUse(Use),
    /// The last line.
    End,
}
