//! The affected packages of an OSV document (OSV schema, `affected[]`).

ghost use Rattle.std.proofs.Common.{rules};
ghost use Rattle.std.specs.Prelude.{◌≡◌, IfErr, IfOk};
ghost use Rattle.rustsec_values.specs.Failure.{IsMemory};

use crate::ranges::OsvJsonRange;
use rustsec_lock::Cvss;
use rustsec_lock::platforms::{Arch, OS};
use rustsec_texts::{Category, FunctionPath, Informational};
use rustsec_values::{ExactClone, Items, Result, Text, exact_copy};
use std::alloc::{AllocError, Global};

/// A package (OSV schema, `affected[].package`).
#[derive(Clone, Debug)]
pub struct OsvPackage {
    /// The ecosystem of the package, such as `crates.io`.
    pub ecosystem: Text,
    /// Its name in the ecosystem.
    pub name: Text,
    /// Its package URL, if any.
    pub purl: Option<Text>,
}

/// Hand-written: a derived `Drop` is proved again, field by field, at every exit of every owner.
impl Drop for OsvPackage {
    fn drop(self) {
        let OsvPackage {
            ecosystem: _,
            name: _,
            purl: _,
        } = self;
    }
}

impl OsvPackage {
    /// Returns an equal package.
    ///
    /// # Errors
    ///
    /// `OutOfMemory` alone.
    pub fn clone(&self, _alloc: Global) -> Result<OsvPackage>
        ensures ok { IfOk result (λ x. x ≡ self.now) }
        ensures err { IfErr result IsMemory }
    {
        Ok(Clone::clone(self)?)
    }
}

impl ExactClone for OsvPackage {
    ghost exact = { λ x y e. Prim.search rules };
}

/// The platforms and functions that are affected.
#[derive(Clone, Debug)]
pub struct OsvEcosystemSpecificAffected {
    /// The architectures; an empty list means all.
    pub arch: Items<Arch>,
    /// The systems; an empty list means all.
    pub os: Items<OS>,
    /// The paths of the affected functions.
    pub functions: Items<FunctionPath>,
}

/// Hand-written: a derived `Drop` is proved again, field by field, at every exit of every owner.
impl Drop for OsvEcosystemSpecificAffected {
    fn drop(self) {
        let OsvEcosystemSpecificAffected {
            arch: _,
            os: _,
            functions: _,
        } = self;
    }
}

impl OsvEcosystemSpecificAffected {
    /// Returns an equal value.
    ///
    /// # Errors
    ///
    /// `OutOfMemory` alone.
    pub fn clone(&self, _alloc: Global) -> Result<OsvEcosystemSpecificAffected>
        ensures ok { IfOk result (λ x. x ≡ self.now) }
        ensures err { IfErr result IsMemory }
    {
        Ok(Clone::clone(self)?)
    }
}

impl ExactClone for OsvEcosystemSpecificAffected {
    ghost exact = { λ x y e. Prim.search rules };
}

/// What Rust's ecosystem adds about an affected package (OSV schema, `ecosystem_specific`).
#[derive(Debug)]
pub struct OsvEcosystemSpecific {
    /// The platforms and functions that are affected.
    pub affects: Option<OsvEcosystemSpecificAffected>,
    /// The affected functions, in an older form of documents.
    pub affected_functions: Option<Items<FunctionPath>>,
}

/// Hand-written: a derived `Drop` is proved again, field by field, at every exit of every owner.
impl Drop for OsvEcosystemSpecific {
    fn drop(self) {
        let OsvEcosystemSpecific {
            affects: _,
            affected_functions: _,
        } = self;
    }
}

impl OsvEcosystemSpecific {
    /// Returns an equal value.
    ///
    /// # Errors
    ///
    /// `OutOfMemory` alone.
    pub fn clone(&self, _alloc: Global) -> Result<OsvEcosystemSpecific>
        ensures ok { IfOk result (λ x. x ≡ self.now) }
        ensures err { IfErr result IsMemory }
    {
        Ok(Clone::clone(self)?)
    }
}

impl Clone for OsvEcosystemSpecific {
    ghost is_clone = { λ a b. b ≡ a };

    fn clone(&self) -> std::result::Result<OsvEcosystemSpecific, AllocError> {
        let affects = Clone::clone(&self.affects)?;
        let affected_functions = Clone::clone(&self.affected_functions)?;
        Ok(OsvEcosystemSpecific {
            affects,
            affected_functions,
        })
    }
}

impl ExactClone for OsvEcosystemSpecific {
    ghost exact = { λ x y e. e };
}

/// What the advisory database adds about an affected package (OSV schema, `database_specific`).
#[derive(Clone, Debug)]
pub struct OsvDatabaseSpecific {
    /// The categories of the advisory.
    pub categories: Items<Category>,
    /// The CVSS vector of the advisory, if any.
    pub cvss: Option<Cvss>,
    /// The concern, if the advisory is informational.
    pub informational: Option<Informational>,
}

/// Hand-written: a derived `Drop` is proved again, field by field, at every exit of every owner.
impl Drop for OsvDatabaseSpecific {
    fn drop(self) {
        let OsvDatabaseSpecific {
            categories: _,
            cvss: _,
            informational: _,
        } = self;
    }
}

impl OsvDatabaseSpecific {
    /// Returns an equal value.
    ///
    /// # Errors
    ///
    /// `OutOfMemory` alone.
    pub fn clone(&self, _alloc: Global) -> Result<OsvDatabaseSpecific>
        ensures ok { IfOk result (λ x. x ≡ self.now) }
        ensures err { IfErr result IsMemory }
    {
        Ok(Clone::clone(self)?)
    }
}

impl ExactClone for OsvDatabaseSpecific {
    ghost exact = { λ x y e. Prim.search rules };
}

/// A package and its affected versions (OSV schema, `affected[]`).
#[derive(Clone, Debug)]
pub struct OsvAffected {
    /// The package.
    pub package: OsvPackage,
    /// What the ecosystem adds.
    pub ecosystem_specific: Option<OsvEcosystemSpecific>,
    /// What the advisory database adds.
    pub database_specific: OsvDatabaseSpecific,
    /// The ranges of affected versions.
    pub ranges: Option<Items<OsvJsonRange>>,
    /// The affected versions that are listed one by one.
    pub versions: Option<Items<Text>>,
}

/// Hand-written: a derived `Drop` is proved again, field by field, at every exit of every owner.
impl Drop for OsvAffected {
    fn drop(self) {
        let OsvAffected {
            package: _,
            ecosystem_specific: _,
            database_specific: _,
            ranges: _,
            versions: _,
        } = self;
    }
}

impl OsvAffected {
    /// Returns an equal member.
    ///
    /// # Errors
    ///
    /// `OutOfMemory` alone.
    pub fn clone(&self, _alloc: Global) -> Result<OsvAffected>
        ensures ok { IfOk result (λ x. x ≡ self.now) }
        ensures err { IfErr result IsMemory }
    {
        Ok(exact_copy(self)?)
    }
}

impl ExactClone for OsvAffected {
    ghost exact = { λ x y e. Prim.search rules };
}
