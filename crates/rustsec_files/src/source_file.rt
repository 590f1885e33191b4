//! Files as pairs of path and text.

ghost use Rattle.std.specs.Prelude.{◌≡◌, IfErr, IfOk};
ghost use Rattle.rustsec_values.specs.Failure.{IsMemory};

use rustsec_values::{ExactClone, ExactEq, Result, Text};
use std::alloc::Global;

/// A file of a database: its path and its text.
#[derive(Clone, Debug, Drop, PartialEq, Eq)]
pub struct SourceFile {
    /// The path, whose segments name the collection, the package and the file.
    pub path: Text,
    /// The whole text.
    pub text: Text,
}

impl SourceFile {
    /// Returns an equal file.
    ///
    /// # Errors
    ///
    /// `OutOfMemory` alone.
    pub fn clone(&self, _alloc: Global) -> Result<SourceFile>
        ensures ok { IfOk result (λ f. f ≡ self.now) }
        ensures err { IfErr result IsMemory }
    {
        let copy = Clone::clone(self)?;
        Ok(copy)
    }
}

impl ExactClone for SourceFile {
    ghost use Rattle.std.proofs.Common.{rules};

    ghost exact = { λ x y e. Prim.search rules };
}

impl ExactEq for SourceFile {
    ghost use Rattle.std.proofs.Common.{rules};
    ghost use Rattle.std.specs.Cmp.Lexicographic.{bytes_decides};

    ghost decides = { λ x y. Prim.search (rules, bytes_decides) };
}
