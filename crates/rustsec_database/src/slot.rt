//! The place of an advisory among the stored ones.

ghost use Rattle.std.specs.Prelude.{◌≡◌};
ghost use Rattle.std.specs.Ordering.{nat_cmp};

use rustsec_values::{ExactClone, ExactEq, StatedOrder};
use std::marker::Model;

/// The place of an advisory among the stored ones, counted from zero.
#[derive(Clone, Copy, Debug, PartialEq, Eq, PartialOrd, Ord)]
pub struct Slot {
    place: usize,
}

impl Model for Slot {
    ghost use Rattle.std.specs.Prelude.{ℕ};

    ghost Value = { ℕ };

    ghost view = { λ s. s.place };

    ghost inverse = { λ n. record { place = n } };
}

impl Slot {
    /// Returns the slot of this place.
    pub(crate) fn new(place: usize) -> Slot
        ensures { result ≡ place }
    {
        Slot { place }
    }

    /// Returns the place, counted from zero.
    pub(crate) fn place(self) -> usize
        ensures { result ≡ self }
    {
        self.place
    }
}

impl ExactClone for Slot {
    ghost exact = { λ x y e. e };
}

impl ExactEq for Slot {
    ghost use Rattle.std.specs.Cmp.Rules.{comparing};
    ghost use Rattle.std.proofs.Common.{rules};

    ghost decides = { λ x y. Prim.search (comparing, rules) };
}

impl StatedOrder for Slot {
    ghost use Rattle.std.specs.Cmp.Rules.{comparing};
    ghost use Rattle.std.proofs.Common.{rules};

    ghost order = { nat_cmp };

    ghost agrees = { λ x y. Prim.search (comparing, rules) };
}
