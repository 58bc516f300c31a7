//! What is wrong with a leaf. Its judge says so.
ghost use Rattle.std.specs.Prelude.{◌≡◌, ◌≤◌, ◌<◌, ◌+◌, All, length, sum_by};
ghost use Rattle.mapf_model.specs.Limits.{most_agents};

use mapf_lemmas::{Group, LeafUses};

/// The place of a use in a leaf.
#[derive(Clone, Copy, Debug, PartialEq, Eq)]
pub enum UsePlace {
    /// Outside groups, at this index.
    Single { index: usize },
    /// In the group at this index, at that index.
    InGroup { group: usize, index: usize },
}

/// Why a leaf isn't accepted.
#[derive(Clone, Copy, Debug, PartialEq, Eq)]
pub enum LeafFault {
    /// The use at this place isn't allowed (rule 8). It is the first one, in the order of the lines.
    NotAllowed(UsePlace),
    /// The bound of the leaf is below the target (rule 9).
    TooWeak,
}

impl UsePlace {
    ghost use Rattle.mapf_cases.specs.Leaves.{AreLinesInRange, IsPlaceIn, lines_to};

    /// Returns how many lines after that of the leaf the use stands: each use outside groups, each group and each of
    /// its uses has a line.
    pub fn lines_to(self, uses: &LeafUses) -> u64
        requires range { AreLinesInRange uses.now }
        requires place { IsPlaceIn uses.now self }
        ensures { result ≡ lines_to uses.now self }
    {
        match self {
            UsePlace::Single { index } => index as u64 + 1,
            UsePlace::InGroup { group, index } => {
                let before = uses.singles.len() as u64 + lines_of(&uses.groups[..group]);
                before + index as u64 + 2
            }
        }
    }
}

// Returns how many lines the groups have.
fn lines_of(groups: &[Group]) -> u64
    requires few { length groups.now ≤ most_agents }
    requires uses { All (λ group. length group.uses ≤ 200000) groups.now }
    ensures lines { result ≡ sum_by (λ group. length group.uses + 1) groups.now }
    ensures small { result < 2000000000 }
{
    let mut lines = 0;
    for group in groups {
        lines += group.uses.len() as u64 + 1;
    }
    lines
}
