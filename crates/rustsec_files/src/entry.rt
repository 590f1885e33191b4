//! Entries of folders.

ghost use Rattle.std.specs.Prelude.{◌≡◌, IfErr, IfOk};
ghost use Rattle.rustsec_values.specs.Failure.{IsMemory};

use rustsec_values::{ExactClone, ExactEq, Result, Text};
use std::alloc::Global;

/// An entry of a folder.
#[derive(Clone, Debug, Drop, PartialEq, Eq)]
pub struct FolderEntry {
    /// Its name in the folder, without a path.
    pub name: Text,
    /// Whether it is a folder itself.
    pub folder: bool,
}

impl FolderEntry {
    /// Returns an equal entry.
    ///
    /// # Errors
    ///
    /// `OutOfMemory` alone.
    pub fn clone(&self, _alloc: Global) -> Result<FolderEntry>
        ensures ok { IfOk result (λ e. e ≡ self.now) }
        ensures err { IfErr result IsMemory }
    {
        let copy = Clone::clone(self)?;
        Ok(copy)
    }
}

impl ExactClone for FolderEntry {
    ghost use Rattle.std.proofs.Common.{rules};

    ghost exact = { λ x y e. Prim.search rules };
}

impl ExactEq for FolderEntry {
    ghost use Rattle.std.proofs.Common.{rules};
    ghost use Rattle.std.specs.Cmp.{booleans_Decides};
    ghost use Rattle.std.specs.Cmp.Lexicographic.{bytes_decides};

    ghost decides = { λ x y. Prim.search (rules, bytes_decides, booleans_Decides) };
}
