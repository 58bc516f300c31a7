//! The beginning of a line that comes byte by byte: as much of it as tells whether it is a request. The follower keeps
//! the line here, so a line of any length takes no memory.
ghost use Rattle.std.specs.Prelude.{◌≡◌, ◌≤◌, ◌++◌, ◌∷◌, [], length, take};
ghost use Rattle.mapf_player.specs.Following.{start_room};

use crate::request::LONGEST_REQUEST;
use std::marker::Model;

// How many bytes are kept: one more than the longest request has, so that a longer line is seen to be longer.
const START_ROOM: usize = LONGEST_REQUEST + 1;

/// The first bytes of a line.
#[derive(Debug, Drop)]
pub struct LineStart {
    bytes: [u8; START_ROOM],
    used: usize,
}

impl Model for LineStart {
    ghost use Rattle.std.specs.Prelude.{List, ℕ, ◌≤◌, take};

    ghost Value = { List ℕ };

    ghost view = { λ s. take s.used s.bytes };

    ghost invariant = { λ s. s.used ≤ 65 };
}

impl LineStart {
    /// Returns the start of a line of which no byte came yet.
    pub fn empty() -> LineStart
        ensures { result ≡ [] }
    {
        LineStart {
            bytes: [0; START_ROOM],
            used: 0,
        }
    }

    /// Adds the next byte of the line, unless as many are kept as there may be.
    pub fn push(&mut self, byte: u8)
        ensures { self.new ≡ take start_room (self.old ++ (byte ∷ [])) }
    {
        if self.used < START_ROOM {
            self.bytes[self.used] = byte;
            self.used += 1;
        }
    }

    /// Begins the next line.
    pub fn clear(&mut self)
        ensures { self.new ≡ [] }
    {
        self.used = 0;
    }

    /// Returns the bytes that are kept.
    pub fn as_slice(&self) -> &[u8]
        ensures { result.now ≡ self.now }
    {
        &self.bytes[..self.used]
    }
}
