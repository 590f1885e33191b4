//! Look-ups of a registry's versions of a package.

ghost use Rattle.std.specs.Prelude.{◌≢◌, Err, IfErr, IfOk, List, Ok, ℕ};
ghost use Rattle.rustsec_registry.specs.Lookups.{Answer};

use rustsec_lock::package::Name;
use rustsec_values::{ErrorKind, Items, Result, Text};
use std::alloc::Global;

/// A version that a registry lists.
#[derive(Debug, Drop)]
pub struct IndexVersion {
    /// The version, as it prints.
    pub version: Text,
    /// Whether it is yanked.
    pub yanked: bool,
}

/// A registry that answers look-ups of one name at a time.
pub trait Lookup {
    /// The answers that may be given for a name. No call changes this relation, though each look-up may give another
    /// of these answers.
    ghost answers: { Self → List ℕ → Answer → Type 0 };

    /// Returns the versions that are listed for a name, or `None` if the name is missing.
    ///
    /// # Errors
    ///
    /// The registry's error; `OutOfMemory` has no meaning for the name.
    fn krate(&self, alloc: Global, name: &Name) -> Result<Option<Items<IndexVersion>>>
        ensures ok { IfOk result (λ versions. answers self.now name.now (Ok versions)) }
        ensures err { IfErr result (λ e. e.kind ≢ ErrorKind.OutOfMemory → answers self.now name.now (Err e)) };
}
