//! Prices under keys by which they are sorted, for the table of prices.
ghost use Rattle.std.specs.Prelude.{◌≡◌, ◌<◌, ◌≤◌, ◌^◌, length};
ghost use Rattle.std.specs.List.Sorted.{IsNonDecreasingBy, IsPermutation};
ghost use Rattle.mapf_single_labels.specs.KeyedPrices.{key_of, key_of_price};
ghost use Rattle.mapf_single_labels.specs.KeyedPrices.{AreKeysAbove, AreKeysBelow, AreKeysNotAbove, AreKeysNotBelow};

/// A price under a key of two numbers and one more.
#[derive(Clone, Copy, Debug, PartialEq, Eq)]
pub struct KeyedPrice {
    /// The key by which prices are sorted.
    pub key: u64,
    /// What else distinguishes prices.
    pub other: u32,
    pub amount: u32,
}

/// Returns the key of two numbers, of which the first comes first in the order of keys.
#[inline(always)]
pub fn key_of(first: u32, second: u32) -> u64
    ensures value { result ≡ key_of first second }
    ensures first { first < 2 ^ 32 }
    ensures second { second < 2 ^ 32 }
{
    ((first as u64) << 32) + second as u64
}

/// Returns the first index whose key isn't less than this one, the number of prices if there is none.
pub fn first_from(prices: &[KeyedPrice], key: u64) -> usize
    requires { IsNonDecreasingBy key_of_price prices.now }
    ensures within { result ≤ length prices.now }
    ensures below { AreKeysBelow prices.now result key }
    ensures others { AreKeysNotBelow prices.now result key }
{
    prices.partition_point(|price| price.key < key)
}

/// Returns the first index whose key is greater than this one, the number of prices if there is none.
pub fn first_after(prices: &[KeyedPrice], key: u64) -> usize
    requires { IsNonDecreasingBy key_of_price prices.now }
    ensures within { result ≤ length prices.now }
    ensures below { AreKeysNotAbove prices.now result key }
    ensures others { AreKeysAbove prices.now result key }
{
    prices.partition_point(|price| price.key <= key)
}

/// Returns prices in rising order of their keys, and those of one key by all else, so that each sort gives the same.
pub fn sorted(prices: Vec<KeyedPrice>) -> Vec<KeyedPrice>
    ensures same { IsPermutation prices.items result.items }
    ensures rising { IsNonDecreasingBy key_of_price result.items }
{
    let mut prices = prices;
    prices.sort_unstable_by_key(|price| (price.key, price.other, price.amount));
    prices
}
