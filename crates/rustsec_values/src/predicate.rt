//! Predicates on elements, and the call that keeps the elements for which one holds.

ghost use Rattle.std.specs.Prelude.{◌≡◌, Bool};
ghost use Rattle.std.specs.List.{filter};

use crate::items::Items;

/// A predicate on elements, whose answer for each one a contract knows.
pub trait Predicate<T> {
    ghost holds: { Self → T → Bool };

    /// Returns whether the predicate holds for an element.
    fn holds(&self, element: &T) -> bool
        ensures { result ≡ Self.holds self.now element.now };
}

impl<T: Drop> Items<T> {
    /// Keeps the elements for which a predicate holds, in their order. It takes no memory.
    pub fn retain<P: Predicate<T>>(&mut self, test: &P)
        ensures { self.new ≡ filter (P.holds test.now) self.old }
    {
        self.vector.retain(|element| test.holds(element));
    }
}
