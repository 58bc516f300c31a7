//! The order of the prices of a list, of the entries of a lemma, and of joint cells. The reader of parts compares each
//! with the one before it.
ghost use Rattle.std.specs.Prelude.{◌≡◌, ◌↔◌, IsTrue};
ghost use Rattle.mapf_lemma_texts.specs.Places.{IsBefore, price_place, entry_place, joint_place, cells_place};

use mapf_lemmas::{JointCell, JointEntry, JointState, Price, PricedEntry};

/// Where a price, an entry or a joint cell comes in its list: by its tick, then by its rank among those of this tick,
/// then by the numbers of its cells. What has no tick, rank or second cell has 0 there.
#[derive(Clone, Copy)]
pub struct Place {
    pub tick: u32,
    pub rank: u32,
    pub first: u32,
    pub second: u32,
}

impl Place {
    /// Returns whether this place comes before the other.
    pub fn is_before(&self, other: &Place) -> bool
        ensures { IsTrue result ↔ IsBefore self.now other.now }
    {
        if self.tick != other.tick {
            return self.tick < other.tick;
        }
        if self.rank != other.rank {
            return self.rank < other.rank;
        }
        if self.first != other.first {
            return self.first < other.first;
        }
        self.second < other.second
    }
}

/// Returns the place of a price.
pub fn price_place(price: &Price) -> Place
    ensures { result ≡ price_place price.now }
{
    match *price {
        Price::Cell { cell, tick, .. } => Place {
            tick,
            rank: 0,
            first: cell.0,
            second: 0,
        },
        Price::Edge { from, to, tick, .. } => Place {
            tick,
            rank: 1,
            first: from.0,
            second: to.0,
        },
    }
}

/// Returns the place of an entry of one agent.
pub fn entry_place(entry: &PricedEntry) -> Place
    ensures { result ≡ entry_place entry.now }
{
    Place {
        tick: entry.tick,
        rank: 0,
        first: entry.cell.0,
        second: 0,
    }
}

/// Returns the place of a joint entry.
pub fn joint_place(entry: &JointEntry) -> Place
    ensures { result ≡ joint_place entry.now }
{
    let (rank, first, second) = match entry.state {
        JointState::Both { first, second } => (0, first.0, second.0),
        JointState::SecondAlone { second } => (1, second.0, 0),
        JointState::FirstAlone { first } => (2, first.0, 0),
    };
    Place {
        tick: entry.tick,
        rank,
        first,
        second,
    }
}

/// Returns the place of a joint cell.
pub fn cells_place(cell: &JointCell) -> Place
    ensures { result ≡ cells_place cell.now }
{
    Place {
        tick: 0,
        rank: 0,
        first: cell.first.0,
        second: cell.second.0,
    }
}
