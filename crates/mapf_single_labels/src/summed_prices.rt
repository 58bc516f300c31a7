//! Prices of which the sum over a range of keys is found, for the table of prices.
ghost use Rattle.std.specs.Prelude.{◌≡◌, ◌≤◌, [], sum_by, IfOk};
ghost use Rattle.mapf_single_labels.specs.KeyedPrices.{amount_between, amount_of, AreSumsBefore};
ghost use Rattle.mapf_single_labels.specs.Ranges.{greatest_total};
ghost use Rattle.std.specs.List.Sorted.{IsPermutation};

use crate::keyed_price::{KeyedPrice, first_after, sorted};
use mapf_model::OutOfMemory;
use std::alloc::Global;
use std::marker::Model;

/// Prices in rising order of their keys, with the sums of those before each.
#[derive(Debug, Drop)]
pub struct SummedPrices {
    prices: Vec<KeyedPrice>,
    // At each index, up to the number of prices, the sum of the prices before it.
    before: Vec<u64>,
}

impl Model for SummedPrices {
    ghost use Rattle.std.specs.Prelude.{List};
    ghost use Rattle.std.specs.List.Sorted.{IsNonDecreasingBy};
    ghost use Rattle.mapf_single_labels.specs.declared.keyed_price.KeyedPrice.{KeyedPrice};

    ghost Value = { List KeyedPrice };

    ghost use Rattle.mapf_single_labels.specs.KeyedPrices.{AreSumsBefore, key_of_price};

    ghost view = { λ own. own.prices.items };

    ghost invariant = { λ own.
        IsNonDecreasingBy key_of_price own.prices.items × AreSumsBefore own.prices.items own.before.items };
}

impl SummedPrices {
    /// Returns these prices.
    pub fn of(alloc: Global, prices: Vec<KeyedPrice>) -> Result<SummedPrices, OutOfMemory>
        requires { sum_by amount_of prices.items ≤ greatest_total }
        ensures { IfOk result (IsPermutation prices.items) }
    {
        let prices = sorted(prices);
        let before = sums_before(alloc, &prices)?;
        Ok(SummedPrices { prices, before })
    }

    /// Returns no prices, which take no memory.
    pub fn none(alloc: Global) -> SummedPrices
        ensures { result ≡ [] }
    {
        SummedPrices {
            prices: Vec::new(alloc),
            before: Vec::new(alloc),
        }
    }

    /// Returns the sum of the prices whose keys are greater than the first of these and not greater than the second.
    pub fn sum(&self, after: u64, to: u64) -> u64
        requires order { after ≤ to }
        requires total { sum_by amount_of self.now ≤ greatest_total }
        ensures value { result ≡ sum_by (amount_between after to) self.now }
        ensures small { result ≤ greatest_total }
    {
        if self.prices.is_empty() {
            return 0;
        }
        let first = first_after(&self.prices, after);
        let end = first_after(&self.prices, to);
        self.before[end] - self.before[first]
    }
}

// Returns for each index, up to the number of prices, the sum of the prices before it.
fn sums_before(alloc: Global, prices: &[KeyedPrice]) -> Result<Vec<u64>, OutOfMemory>
    requires { sum_by amount_of prices.now ≤ greatest_total }
    ensures { IfOk result (λ before. AreSumsBefore prices.now before.items) }
{
    let mut before = Vec::with_capacity(alloc, prices.len() + 1)?;
    let mut sum = 0;
    before.push(0)?;
    for price in prices {
        sum += price.amount as u64;
        before.push(sum)?;
    }
    Ok(before)
}
