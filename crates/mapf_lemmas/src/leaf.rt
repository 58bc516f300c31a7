//! What a leaf of a proof by cases names: a list of prices, and lemmas.
ghost use Rattle.mapf_lemmas.specs.Groups.{Group, LeafUses};

use std::marker::Model;

/// The use of the lemma with this number in a group, with a weight.
#[derive(Clone, Copy, Debug, PartialEq, Eq)]
pub struct Use {
    pub lemma: u64,
    pub weight: u32,
}

/// Uses of lemmas. The weighted sum of what they add is divided.
#[derive(Debug, Drop)]
pub struct Group {
    pub divisor: u32,
    pub uses: Vec<Use>,
}

impl Model for Group {
    ghost Value = { Group };

    ghost view = { λ group. record { divisor = group.divisor; uses = group.uses.items } };
}

/// What a leaf names: the number of its list of prices, if it has one, lemmas of single agents, and groups.
#[derive(Debug, Drop)]
pub struct LeafUses {
    pub list_number: Option<u64>,
    pub singles: Vec<u64>,
    pub groups: Vec<Group>,
}

impl Model for LeafUses {
    ghost Value = { LeafUses };

    ghost view = { λ leaf. record {
      list_number = leaf.list_number;
      singles = leaf.singles.items;
      groups = leaf.groups.items;
    } };
}
