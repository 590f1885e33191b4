//! Warnings about packages.

ghost use Rattle.std.specs.Prelude.{◌≡◌, ◌↔◌, IfErr, IfOk, IsTrue};
ghost use Rattle.rustsec_values.specs.Failure.{IsMemory};

use rustsec_advisory::{Affected, Metadata};
use rustsec_lock::package::Package;
use rustsec_texts::WarningKind;
use rustsec_values::{ExactClone, Result, exact_copy};
use rustsec_versions::Versions;
use std::alloc::{AllocError, Global};

/// A warning about a package, with its advisory, if any.
#[derive(Debug)]
pub struct Warning {
    /// The kind of the warning.
    pub kind: WarningKind,
    /// The package.
    pub package: Package,
    /// The advisory's metadata.
    pub advisory: Option<Metadata>,
    /// The affected platforms and functions, if the advisory lists them.
    pub affected: Option<Affected>,
    /// The requirements that determine the affected versions.
    pub versions: Option<Versions>,
}

/// Hand-written: a derived `Drop` is proved again, field by field, at every exit of every owner.
impl Drop for Warning {
    fn drop(self) {
        let Warning {
            kind: _,
            package: _,
            advisory: _,
            affected: _,
            versions: _,
        } = self;
    }
}

impl Warning {
    /// Returns a warning of a kind about a copy of a package.
    ///
    /// # Errors
    ///
    /// `OutOfMemory` alone.
    pub fn new(
        alloc: Global,
        kind: WarningKind,
        package: &Package,
        advisory: Option<Metadata>,
        affected: Option<Affected>,
        versions: Option<Versions>,
    ) -> Result<Warning>
        ensures ok { IfOk result (λ w. w ≡ record {
          kind = kind;
          «package» = «package».now;
          advisory = advisory;
          affected = affected;
          versions = versions;
        }) }
        ensures err { IfErr result IsMemory }
    {
        let package = package.clone(alloc)?;
        Ok(Warning {
            kind,
            package,
            advisory,
            affected,
            versions,
        })
    }

    /// Returns whether it is a notice.
    pub fn is_notice(&self) -> bool
        ensures { IsTrue result ↔ (self.now.kind ≡ WarningKind.Notice) }
    {
        self.kind == WarningKind::Notice
    }

    /// Returns whether it is about a package that nobody maintains.
    pub fn is_unmaintained(&self) -> bool
        ensures { IsTrue result ↔ (self.now.kind ≡ WarningKind.Unmaintained) }
    {
        self.kind == WarningKind::Unmaintained
    }

    /// Returns whether it is about a package that is not sound.
    pub fn is_unsound(&self) -> bool
        ensures { IsTrue result ↔ (self.now.kind ≡ WarningKind.Unsound) }
    {
        self.kind == WarningKind::Unsound
    }

    /// Returns whether it is about a version that was yanked from its registry.
    pub fn is_yanked(&self) -> bool
        ensures { IsTrue result ↔ (self.now.kind ≡ WarningKind.Yanked) }
    {
        self.kind == WarningKind::Yanked
    }

    /// Returns an equal warning.
    ///
    /// # Errors
    ///
    /// `OutOfMemory` alone.
    pub fn clone(&self, _alloc: Global) -> Result<Warning>
        ensures ok { IfOk result (λ w. w ≡ self.now) }
        ensures err { IfErr result IsMemory }
    {
        let copy = Clone::clone(self)?;
        Ok(copy)
    }
}

/// Returns a copy of a value that may be missing.
fn copy_of<T: ExactClone>(value: &Option<T>) -> std::result::Result<Option<T>, AllocError>
    ensures { IfOk result (λ copy. copy ≡ value.now) }
{
    Clone::clone(value)
}

impl Clone for Warning {
    ghost is_clone = { λ a b. b ≡ a };

    fn clone(&self) -> std::result::Result<Warning, AllocError> {
        let package = exact_copy(&self.package)?;
        let advisory = copy_of(&self.advisory)?;
        let affected = copy_of(&self.affected)?;
        let versions = copy_of(&self.versions)?;
        Ok(Warning {
            kind: self.kind,
            package,
            advisory,
            affected,
            versions,
        })
    }
}

impl ExactClone for Warning {
    ghost exact = { λ x y e. e };
}
