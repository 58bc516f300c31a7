//! The greatest numbers that a line of version 3 may have, beside those of `mapf_model::limits`.
ghost use Rattle.std.specs.Prelude.{◌≡◌};
ghost use Rattle.mapf_lemma_texts.specs.Ranges.{most_listed, most_constraints, most_uses, greatest_weight};
ghost use Rattle.mapf_lemma_texts.specs.Ranges.{greatest_price, greatest_label, last_cost_split};

/// The greatest number of price lists, lemmas, prices, entries or joint cells, and the greatest number of a lemma.
pub const MOST_LISTED: u64 = 9_999_999_999;

/// The greatest number of constraints of a lemma.
pub const MOST_CONSTRAINTS: u32 = 1000;

/// The greatest number of uses of a group.
pub const MOST_USES: u32 = 200_000;

/// The greatest unit of a price list, divisor of a group, or weight of a use.
pub const GREATEST_WEIGHT: u32 = 1000;

/// The greatest price, in units of its list.
pub const GREATEST_PRICE: u32 = 9_999_999;

/// The greatest label, in units of a price list.
pub const GREATEST_LABEL: u64 = 9_999_999_999;

/// The greatest cost that a path may be split at, and the last tick from which on a cell may be forbidden.
pub const LAST_COST_SPLIT: u32 = 9_999_998;

/// The constants equal the numbers of the definitions.
pub fn ranges_are_defined()
    ensures listed { MOST_LISTED ≡ most_listed }
    ensures constraints { MOST_CONSTRAINTS ≡ most_constraints }
    ensures uses { MOST_USES ≡ most_uses }
    ensures weight { GREATEST_WEIGHT ≡ greatest_weight }
    ensures price { GREATEST_PRICE ≡ greatest_price }
    ensures label { GREATEST_LABEL ≡ greatest_label }
    ensures cost_split { LAST_COST_SPLIT ≡ last_cost_split }
{}
