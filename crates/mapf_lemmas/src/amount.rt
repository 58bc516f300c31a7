//! Amounts in units of a price list, which without a list are ticks: labels of states, and the bounds of lemmas.
ghost use Rattle.std.specs.Prelude.{◌≡◌, ◌↔◌, ◌<◌, ◌+◌, ◌-◌, ◌^◌, ◌≤◌, ◌==◌, if◌then◌else◌, IsTrue};
ghost use Rattle.mapf_model.specs.Labels.{IsAtMost, label_plus};
ghost use Rattle.mapf_lemmas.specs.Amounts.{amount_label, amount_units, units_in, SumFits};
ghost use Rattle.mapf_model.specs.declared.label.Label.{Label};
ghost use Rattle.mapf_model.specs.declared.label.Label.TheVariants.{Ticks, Never};

use std::marker::Model;

/// A number of units, or infinitely many.
#[derive(Clone, Copy, Debug, PartialEq, Eq)]
pub struct Amount {
    // `u64::MAX` stands for infinitely many.
    units: u64,
}

impl Model for Amount {
    ghost Value = { Label };

    ghost view = { λ amount. amount_label amount.units };

    ghost inverse = { λ label. record { units = amount_units label } };
}

impl Amount {
    /// Infinitely many.
    pub fn infinite() -> Amount
        ensures { result ≡ Never }
    {
        Amount { units: u64::MAX }
    }

    /// So many units.
    pub fn of(units: u64) -> Amount
        requires { units < 2 ^ 64 - 1 }
        ensures { result ≡ Ticks units }
    {
        Amount { units }
    }

    /// Returns the number of units, None if there are infinitely many.
    pub fn units(self) -> Option<u64>
        ensures { result ≡ units_in self }
    {
        if self.units == u64::MAX {
            None
        } else {
            Some(self.units)
        }
    }

    /// Returns whether this is at most the other amount.
    #[inline(always)]
    pub fn is_at_most(self, other: Amount) -> bool
        ensures { IsTrue result ↔ IsAtMost self other }
    {
        self.units <= other.units
    }

    /// Returns the sum.
    #[inline(always)]
    pub fn plus(self, other: Amount) -> Amount
        requires { SumFits self other }
        ensures { result ≡ label_plus self other }
    {
        Amount {
            units: self.units.saturating_add(other.units),
        }
    }
}
