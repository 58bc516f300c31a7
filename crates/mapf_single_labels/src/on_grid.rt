//! Whether the cells of prices and constraints are free, and adjacent if there are two. The judges of price lists and
//! of lemmas ask this of each line.
ghost use Rattle.std.specs.Prelude.{◌↔◌, IsTrue};
ghost use Rattle.mapf_lemmas.specs.Constraints.{IsConstraintOn};
ghost use Rattle.mapf_lemmas.specs.Prices.{IsPriceOn};

use mapf_lemmas::{PathConstraint, Price};
use mapf_model::Grid;

/// Returns whether the cells of the constraint are free, and adjacent if there are two.
pub fn is_constraint_on(grid: &Grid, constraint: &PathConstraint) -> bool
    ensures { IsTrue result ↔ IsConstraintOn grid.now constraint.now }
{
    match *constraint {
        PathConstraint::NotAt { cell, .. } | PathConstraint::Clear { cell, .. } => grid.is_free(
            cell,
        ),
        PathConstraint::NotMove { from, to, .. } => grid.are_adjacent(from, to),
        PathConstraint::Most { .. } | PathConstraint::Least { .. } => true,
    }
}

/// Returns whether the cell of the price is free, or its two cells are adjacent.
pub fn is_price_on(grid: &Grid, price: &Price) -> bool
    ensures { IsTrue result ↔ IsPriceOn grid.now price.now }
{
    match *price {
        Price::Cell { cell, .. } => grid.is_free(cell),
        Price::Edge { from, to, .. } => grid.are_adjacent(from, to),
    }
}
