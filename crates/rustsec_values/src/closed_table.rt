//! Closed tables: types of finitely many values, each with a name.

ghost use Rattle.std.specs.Prelude.{◌≡◌, ℕ, IfSome, List};
ghost use Rattle.rustsec_values.specs.ClosedTables.{from_name};

/// A type of finitely many values, each with a name.
pub trait ClosedEnum: Copy + 'static {
    ghost name_of: { Self → List ℕ };

    ghost values: { List Self };

    /// Returns all values, in their order.
    fn all() -> &'static [Self]
        ensures { result.now ≡ values };

    /// Returns the name.
    fn name(&self) -> &'static str
        ensures { result.now ≡ name_of self.now };
}

/// Returns the first value whose name is this text, if any.
pub fn from_name<T: ClosedEnum>(text: &str) -> Option<T>
    ensures value { result ≡ from_name T.name_of T.values text.now }
    ensures name { IfSome result (λ x. T.name_of x ≡ text.now) }
{
    for value in T::all() {
        if value.name() == text {
            return Some(*value);
        }
    }
    None
}
