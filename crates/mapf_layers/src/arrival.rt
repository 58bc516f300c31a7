//! What a constraint forbids at one tick, as an arrival, by which an agent's constraints are sorted and compared.
use mapf_lemmas::PathConstraint;
use mapf_model::{Cell, Tick};

/// An arrival that a constraint forbids: to be in the cell at the tick, whatever the step there; or, if `from` names a
/// cell, to get there from it.
#[derive(Clone, Copy, Debug, PartialEq, Eq, PartialOrd, Ord, Hash)]
pub struct Arrival {
    pub tick: Tick,
    pub cell: Cell,
    pub from: Option<Cell>,
}

impl Arrival {
    /// Returns what a vertex constraint forbids.
    pub(crate) fn at(cell: Cell, tick: Tick) -> Arrival {
        Arrival {
            tick,
            cell,
            from: None,
        }
    }

    /// Returns what an edge constraint forbids: to arrive one tick after the move begins.
    pub(crate) fn by_move(from: Cell, to: Cell, tick: Tick) -> Arrival {
        Arrival {
            tick: tick.saturating_add(1),
            cell: to,
            from: Some(from),
        }
    }

    /// Returns the constraint that forbids it.
    pub fn constraint(&self) -> PathConstraint {
        match self.from {
            None => PathConstraint::NotAt {
                cell: self.cell,
                tick: self.tick,
            },
            Some(from) => PathConstraint::NotMove {
                from,
                to: self.cell,
                tick: self.tick.saturating_sub(1),
            },
        }
    }

    /// Returns whether it is an arrival in `to` by a step from `from`.
    pub(crate) fn is_step(&self, from: Cell, to: Cell) -> bool {
        self.cell == to && (self.from.is_none() || self.from == Some(from))
    }
}

/// Returns those of the arrivals, which rise, that are at the tick.
pub(crate) fn arrivals_at(bars: &[Arrival], tick: Tick) -> &[Arrival] {
    let low = bars.partition_point(|bar| bar.tick < tick);
    let high = bars.partition_point(|bar| bar.tick <= tick);
    bars.get(low..high).unwrap_or(&[])
}
