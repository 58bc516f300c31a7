//! The conflicts of two agents, and the constraints of a split on one. The search and the checker both take the
//! constraints from here.
ghost use Rattle.std.specs.Prelude.{◌≡◌};
ghost use Rattle.mapf_model.specs.Conflicts.{tick_of};
ghost use Rattle.mapf_model.specs.Tree.{left_constraint, right_constraint};

use crate::bar::Bar;
use crate::cell::{Cell, Tick};
use crate::constraint::Constraint;

/// A conflict of two agents (Stern et al. 2019).
#[derive(Clone, Copy, Debug, PartialEq, Eq)]
pub enum Conflict {
    /// A vertex conflict: agents `i` and `j` are in the cell at the tick.
    Vertex {
        i: u32,
        j: u32,
        cell: Cell,
        tick: Tick,
    },
    /// A swapping conflict: between the tick and the next, agent `i` moves from `from` to `to`, and
    /// agent `j` from `to` to `from`.
    Swap {
        i: u32,
        j: u32,
        from: Cell,
        to: Cell,
        tick: Tick,
    },
}

impl Conflict {
    /// Returns the tick of a vertex conflict, or the tick at which the two moves of a swapping conflict begin.
    pub fn tick(&self) -> Tick
        ensures { result ≡ tick_of self.now }
    {
        match *self {
            Conflict::Vertex { tick, .. } => tick,
            Conflict::Swap { tick, .. } => tick,
        }
    }

    /// Returns the constraint of the left child of a split on the conflict: agent `i` may not take part in it.
    pub fn left(&self) -> Constraint
        ensures { result ≡ left_constraint self.now }
    {
        match *self {
            Conflict::Vertex { i, cell, tick, .. } => Constraint {
                agent: i,
                bar: Bar::Cell { cell, tick },
            },
            Conflict::Swap {
                i,
                from,
                to,
                tick,
                ..
            } => Constraint {
                agent: i,
                bar: Bar::Move { from, to, tick },
            },
        }
    }

    /// Returns the constraint of the right child: agent `j` may not take part in the conflict.
    pub fn right(&self) -> Constraint
        ensures { result ≡ right_constraint self.now }
    {
        match *self {
            Conflict::Vertex { j, cell, tick, .. } => Constraint {
                agent: j,
                bar: Bar::Cell { cell, tick },
            },
            Conflict::Swap {
                j,
                from,
                to,
                tick,
                ..
            } => Constraint {
                agent: j,
                bar: Bar::Move {
                    from: to,
                    to: from,
                    tick,
                },
            },
        }
    }
}
