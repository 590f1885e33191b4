//! Where folders are listed and files are read.

ghost use Rattle.std.specs.Prelude.{ℕ, ⊤, IfErr, IfOk, List, None, Some};
ghost use Rattle.rustsec_files.specs.Allowed.{Allowed, AllowSame};
ghost use Rattle.rustsec_files.specs.Names.{AreNames, names_of};
ghost use Rattle.rustsec_values.specs.Failure.{Failure, IsRefusal};

use crate::entry::FolderEntry;
use crate::names::names_of;
use rustsec_values::{ErrorKind, Items, Result, Text};
use std::alloc::Global;

/// Folders that are listed and files that are read, each by its path.
pub trait Folders {
    /// Which answers may be given about each path. No call changes that, though another of them may be
    /// given at each asking.
    ghost allowed: { Self → Allowed };

    /// Which errors may be the answer where the file at a path cannot be read: any, unless folders say more.
    ghost refuses: { Self → List ℕ → Failure → Type 0 } = { λ _ _ _. ⊤ };

    /// Which names a folder that was listed here may have had: any, unless folders say more.
    ghost listed: { List (List ℕ) → Type 0 } = { λ _. ⊤ };

    /// Which texts a file that was opened here may have had: any, unless folders say more.
    ghost opened: { List ℕ → Type 0 } = { λ _. ⊤ };

    /// Returns the entries of a folder, in any order.
    ///
    /// # Errors
    ///
    /// `Io` where the folder cannot be listed; else `OutOfMemory`, which does not mention the path.
    fn list(&mut self, alloc: Global, path: &str) -> Result<Items<FolderEntry>>
        ensures ok { IfOk result (λ entries. (allowed self.old).lists path.now (Some entries)) }
        ensures err { IfErr result (IsRefusal ErrorKind.Io ((allowed self.old).lists path.now None)) }
        ensures same { AllowSame (allowed self.old) (allowed self.new) }
        ensures listed { IfOk result (λ entries. listed (names_of entries)) };

    /// Returns the names of a folder's entries, in any order, where nobody asks which of them are folders.
    ///
    /// # Errors
    ///
    /// As `list`.
    fn names(&mut self, alloc: Global, path: &str) -> Result<Items<Text>>
        ensures ok { IfOk result (AreNames (allowed self.old) path.now) }
        ensures err { IfErr result (IsRefusal ErrorKind.Io ((allowed self.old).lists path.now None)) }
        ensures same { AllowSame (allowed self.old) (allowed self.new) }
        ensures listed { IfOk result listed }
    {
        let entries = self.list(alloc, path)?;
        let names = names_of(alloc, entries)?;
        Ok(Items::from(names))
    }

    /// Returns the text of a file.
    ///
    /// # Errors
    ///
    /// `Io` where the file cannot be read or is not UTF-8; else `OutOfMemory`, which does not mention the
    /// path.
    fn read(&mut self, alloc: Global, path: &str) -> Result<Text>
        ensures ok { IfOk result (λ text. (allowed self.old).reads path.now (Some text)) }
        ensures err { IfErr result (IsRefusal ErrorKind.Io ((allowed self.old).reads path.now None)) }
        ensures same { AllowSame (allowed self.old) (allowed self.new) }
        ensures refused { IfErr result (refuses self.old path.now) }
        ensures opened { IfOk result opened };
}
