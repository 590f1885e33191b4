//! Types whose values are read from texts.

ghost use Rattle.std.specs.Prelude.{◌≡◌, ℕ, IfErr, IfOk, List, None, Option, Some};
ghost use Rattle.rustsec_values.specs.Failure.{IsRefusal};

use crate::error::{ErrorKind, Result};
use std::alloc::Global;

/// A type whose values are read from texts. `reads` is the grammar: the value of a text, or none if the type does not
/// accept the text.
pub trait FromText: Drop + Sized {
    ghost reads: { List ℕ → Option Self };

    /// Parses a text.
    ///
    /// # Errors
    ///
    /// `Parse` if the type does not accept the text; else `OutOfMemory`.
    fn from_text(alloc: Global, text: &str) -> Result<Self>
        ensures ok { IfOk result (λ x. Self.reads text.now ≡ Some x) }
        ensures err { IfErr result (IsRefusal ErrorKind.Parse (Self.reads text.now ≡ None)) };
}
