//! How a proof by cases splits a set of plans into two.
use mapf_model::{Cell, Tick};

/// A split of the plans that satisfy the constraints of a node into those of two children.
#[derive(Clone, Copy, Debug, PartialEq, Eq)]
pub enum Split {
    /// Agent `i` isn't in the cell at the tick, or agent `j` isn't.
    Vertex {
        i: u32,
        j: u32,
        cell: Cell,
        tick: Tick,
    },
    /// Agent `i` doesn't move from `from` to `to` at the tick, or agent `j` doesn't move from `to` to `from`.
    Swap {
        i: u32,
        j: u32,
        from: Cell,
        to: Cell,
        tick: Tick,
    },
    /// The path of agent `i` costs at most so many ticks, and then no other agent is at the goal of agent `i` from that
    /// tick on; or it costs more.
    Cost {
        i: u32,
        ticks: u32,
    },
    /// The path of agent `i` costs at most `ticks`, and then as for `Cost`, and that of agent `j` at least `least`
    /// ticks; or the path of agent `i` costs more. The lemma with this number says that the two cost at least
    /// `ticks + least` together.
    Costs {
        i: u32,
        ticks: u32,
        j: u32,
        least: u32,
        lemma: u64,
    },
}
