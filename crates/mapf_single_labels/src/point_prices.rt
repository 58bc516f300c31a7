//! Prices that are found by their whole key, for the table of prices.
ghost use Rattle.std.specs.Prelude.{◌≡◌, ◌≤◌, [], sum_by, length};
ghost use Rattle.mapf_single_labels.specs.KeyedPrices.{amount_at, amount_of, key_of_price};
ghost use Rattle.mapf_single_labels.specs.KeyedPrices.{AreKeysBelow, AreKeysNotBelow};
ghost use Rattle.mapf_single_labels.specs.Ranges.{greatest_total};
ghost use Rattle.std.specs.List.Sorted.{IsNonDecreasingBy, IsPermutation};

use crate::keyed_price::{KeyedPrice, first_from, sorted};
use std::alloc::Global;
use std::marker::Model;

/// Prices in rising order of their keys.
#[derive(Debug, Drop)]
pub struct PointPrices {
    prices: Vec<KeyedPrice>,
}

impl Model for PointPrices {
    ghost use Rattle.std.specs.Prelude.{List};
    ghost use Rattle.std.specs.List.Sorted.{IsNonDecreasingBy};
    ghost use Rattle.mapf_single_labels.specs.declared.keyed_price.KeyedPrice.{KeyedPrice};

    ghost Value = { List KeyedPrice };

    ghost use Rattle.mapf_single_labels.specs.KeyedPrices.{key_of_price};

    ghost view = { λ own. own.prices.items };

    ghost invariant = { λ own. IsNonDecreasingBy key_of_price own.prices.items };
}

impl PointPrices {
    /// Returns these prices.
    pub fn of(prices: Vec<KeyedPrice>) -> PointPrices
        ensures { IsPermutation prices.items result }
    {
        PointPrices {
            prices: sorted(prices),
        }
    }

    /// Returns no prices, which take no memory.
    pub fn none(alloc: Global) -> PointPrices
        ensures { result ≡ [] }
    {
        PointPrices {
            prices: Vec::new(alloc),
        }
    }

    /// Returns the sum of the prices of this key and other number.
    pub fn sum(&self, key: u64, other: u32) -> u64
        requires { sum_by amount_of self.now ≤ greatest_total }
        ensures value { result ≡ sum_by (amount_at key other) self.now }
        ensures small { result ≤ greatest_total }
    {
        if self.prices.is_empty() {
            return 0;
        }
        let first = first_from(&self.prices, key);
        sum_from(&self.prices, first, key, other)
    }
}

// Returns the sum of the prices of this key and other number, of which none is before the index.
fn sum_from(prices: &[KeyedPrice], first: usize, key: u64, other: u32) -> u64
    requires sorted { IsNonDecreasingBy key_of_price prices.now }
    requires total { sum_by amount_of prices.now ≤ greatest_total }
    requires within { first ≤ length prices.now }
    requires below { AreKeysBelow prices.now first key }
    requires others { AreKeysNotBelow prices.now first key }
    ensures value { result ≡ sum_by (amount_at key other) prices.now }
    ensures small { result ≤ greatest_total }
{
    let mut sum = 0;
    let mut place = first;
    while place < prices.len() && prices[place].key == key {
        if prices[place].other == other {
            sum += prices[place].amount as u64;
        }
        place += 1;
    }
    sum
}
