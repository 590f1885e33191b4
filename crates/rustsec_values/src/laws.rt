//! The laws that tie what a type's traits do to what contracts see of its values.

ghost use Rattle.std.specs.Prelude.{◌≡◌, IfOk};
ghost use Rattle.std.specs.Bool.{Decides};
ghost use Rattle.std.specs.declared.cmp.Ordering.{Ordering};

use std::alloc::AllocError;

/// A type whose clone, if memory suffices, is the same value.
pub trait ExactClone: Clone {
    ghost exact: { (x y : Self) → Self.is_clone x y → y ≡ x };
}

/// Returns an equal value.
///
/// # Errors
///
/// Out of memory.
pub fn exact_copy<T: ExactClone>(value: &T) -> Result<T, AllocError>
    ensures { IfOk result (λ copy. copy ≡ value.now) }
{
    value.clone()
}

/// A type whose `==` holds exactly between the same values.
pub trait ExactEq: Eq {
    ghost decides: { (x y : Self) → Decides (Self.eq x y) (x ≡ y) };
}

/// A type whose order is the one that a definition states.
pub trait StatedOrder: Ord {
    ghost order: { Self → Self → Ordering };

    ghost agrees: { (x y : Self) → Self.cmp x y ≡ Self.order x y };
}
