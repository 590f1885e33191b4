//! Warnings as references: nothing is copied.

ghost use Rattle.std.specs.Prelude.{◌≡◌, IfErr, IfOk, option_map};
ghost use Rattle.rustsec_values.specs.Failure.{IsMemory};
ghost use Rattle.rustsec_database.specs.Pairs.{as_vulnerability};
ghost use Rattle.rustsec_report.specs.Report.{as_warning};

use crate::warning::Warning;
use rustsec_advisory::{Affected, Metadata};
use rustsec_database::Pair;
use rustsec_lock::package::Package;
use rustsec_texts::WarningKind;
use rustsec_values::{ExactClone, Items, Result, exact_copy};
use rustsec_versions::Versions;
use std::alloc::Global;
use std::marker::Model;

/// A warning about a package, as references. Contracts see it as the warning.
#[derive(Drop)]
pub struct WarningRef<'a> {
    /// The kind of the warning.
    pub kind: WarningKind,
    /// The package.
    pub package: &'a Package,
    /// The advisory's metadata.
    pub advisory: Option<&'a Metadata>,
    /// The affected platforms and functions, if the advisory lists them.
    pub affected: Option<&'a Affected>,
    /// The requirements that determine the affected versions.
    pub versions: Option<&'a Versions>,
}

impl<'a> Model for WarningRef<'a> {
    ghost use Rattle.std.specs.Prelude.{option_map};
    ghost use Rattle.rustsec_report.specs.declared.warning.Warning as given;

    ghost Value = { given.Warning };

    ghost view = { λ w. record {
      kind = w.kind;
      «package» = w.«package».now;
      advisory = option_map (λ m. m.now) w.advisory;
      affected = option_map (λ a. a.now) w.affected;
      versions = option_map (λ v. v.now) w.versions;
    } };
}

/// The warnings of one kind, as references. Contracts see the kind and the list.
#[derive(Drop)]
pub struct WarningsOfKind<'a> {
    /// The kind.
    pub kind: WarningKind,
    /// The warnings.
    pub list: Items<WarningRef<'a>>,
}

impl<'a> Model for WarningsOfKind<'a> {
    ghost use Rattle.std.specs.Prelude.{List};
    ghost use Rattle.rustsec_texts.specs.declared.warning_kind.WarningKind as kinds;
    ghost use Rattle.rustsec_report.specs.declared.warning.Warning as given;

    ghost Value = { kinds.WarningKind × List given.Warning };

    ghost view = { λ w. (w.kind, w.list) };
}

/// Returns a copy of a value that may be missing.
fn copy_of<T: ExactClone>(value: Option<&T>) -> Result<Option<T>>
    ensures ok { IfOk result (λ copy. copy ≡ option_map (λ v. v.now) value.entry) }
    ensures err { IfErr result IsMemory }
{
    match value {
        Some(value) => Ok(Some(exact_copy(value)?)),
        None => Ok(None),
    }
}

impl<'a> WarningRef<'a> {
    /// Returns a warning as references.
    pub(crate) fn new(warning: &'a Warning) -> WarningRef<'a>
        ensures { result ≡ warning.now }
    {
        WarningRef {
            kind: warning.kind,
            package: &warning.package,
            advisory: warning.advisory.as_ref(),
            affected: warning.affected.as_ref(),
            versions: warning.versions.as_ref(),
        }
    }

    /// Returns a pair as a warning of a kind.
    pub(crate) fn of_pair(kind: WarningKind, pair: &Pair<'a>) -> WarningRef<'a>
        ensures { result ≡ as_warning kind (as_vulnerability pair.now) }
    {
        let advisory = pair.advisory;
        WarningRef {
            kind,
            package: pair.package,
            advisory: Some(&advisory.metadata),
            affected: advisory.affected.as_ref(),
            versions: Some(&advisory.versions),
        }
    }

    /// Returns the warning, with copies of the package and of the advisory.
    ///
    /// # Errors
    ///
    /// `OutOfMemory` alone.
    pub fn to_warning(&self, alloc: Global) -> Result<Warning>
        ensures ok { IfOk result (λ w. w ≡ self.now) }
        ensures err { IfErr result IsMemory }
    {
        let advisory = copy_of(self.advisory)?;
        let affected = copy_of(self.affected)?;
        let versions = copy_of(self.versions)?;
        Warning::new(alloc, self.kind, self.package, advisory, affected, versions)
    }
}
