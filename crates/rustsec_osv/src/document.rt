//! OSV documents (OSV schema, top level).

ghost use Rattle.std.proofs.Common.{rules};
ghost use Rattle.std.specs.Prelude.{◌≡◌, IfErr, IfOk, None, is_some};
ghost use Rattle.rustsec_values.specs.Failure.{IsMemory};

use crate::affected::OsvAffected;
use crate::reference::OsvReference;
use crate::severity::OsvSeverity;
use rustsec_texts::Id;
use rustsec_values::{ExactClone, Items, Result, Text};
use semver::Version;
use std::alloc::Global;
use std::marker::Model;

/// What the advisory database adds to a document.
#[derive(Clone, Debug)]
pub struct MainOsvDatabaseSpecific {
    /// The license of the advisory, by its SPDX identifier.
    pub license: Option<Text>,
}

/// Hand-written: a derived `Drop` is proved again, field by field, at every exit of every owner.
impl Drop for MainOsvDatabaseSpecific {
    fn drop(self) {
        let MainOsvDatabaseSpecific { license: _ } = self;
    }
}

impl MainOsvDatabaseSpecific {
    /// Returns an equal value.
    ///
    /// # Errors
    ///
    /// `OutOfMemory` alone.
    pub fn clone(&self, _alloc: Global) -> Result<MainOsvDatabaseSpecific>
        ensures ok { IfOk result (λ x. x ≡ self.now) }
        ensures err { IfErr result IsMemory }
    {
        Ok(Clone::clone(self)?)
    }

    /// Returns the value without a license.
    pub fn default() -> MainOsvDatabaseSpecific
        ensures { result.license ≡ None }
    {
        MainOsvDatabaseSpecific { license: None }
    }
}

impl ExactClone for MainOsvDatabaseSpecific {
    ghost exact = { λ x y e. Prim.search rules };
}

/// An OSV document.
#[derive(Clone, Debug)]
pub struct OsvAdvisory {
    /// The version of the schema, if the document gives one.
    pub schema_version: Option<Version>,
    /// The ID of the advisory.
    pub id: Id,
    /// When the document was last changed, as the caller gave it.
    pub modified: Text,
    /// When the advisory was published.
    pub published: Text,
    /// When the advisory was withdrawn, if it was.
    pub withdrawn: Option<Text>,
    /// Other IDs of the same vulnerability.
    pub aliases: Items<Id>,
    /// IDs of related vulnerabilities.
    pub related: Items<Id>,
    /// The title.
    pub summary: Text,
    /// The description.
    pub details: Text,
    /// The severity of the vulnerability.
    pub severity: Items<OsvSeverity>,
    /// The affected packages.
    pub affected: Items<OsvAffected>,
    /// References to more information.
    pub references: Items<OsvReference>,
    /// What the advisory database adds.
    pub database_specific: MainOsvDatabaseSpecific,
}

impl Model for OsvAdvisory {
    ghost use Rattle.std.specs.Prelude.{option_map};
    ghost use Rattle.semver.specs.Identifiers.{parts_of};
    ghost use Rattle.rustsec_osv.specs.Documents.{Document};

    ghost Value = { Document };

    ghost view = { λ d. record {
      schema_version = option_map parts_of d.schema_version;
      id = d.id;
      modified = d.modified;
      published = d.published;
      withdrawn = d.withdrawn;
      aliases = d.aliases;
      related = d.related;
      summary = d.summary;
      details = d.details;
      severity = d.severity;
      affected = d.affected;
      references = d.references;
      database_specific = d.database_specific;
    } };
}

/// Hand-written: a derived `Drop` is proved again, field by field, at every exit of every owner.
impl Drop for OsvAdvisory {
    fn drop(self) {
        let OsvAdvisory {
            schema_version: _,
            id: _,
            modified: _,
            published: _,
            withdrawn: _,
            aliases: _,
            related: _,
            summary: _,
            details: _,
            severity: _,
            affected: _,
            references: _,
            database_specific: _,
        } = self;
    }
}

impl OsvAdvisory {
    /// Returns an equal document.
    ///
    /// # Errors
    ///
    /// `OutOfMemory` alone.
    pub fn clone(&self, _alloc: Global) -> Result<OsvAdvisory>
        ensures ok { IfOk result (λ x. x ≡ self.now) }
        ensures err { IfErr result IsMemory }
    {
        Ok(Clone::clone(self)?)
    }

    /// Returns the ID of the advisory.
    pub fn id(&self) -> &Id
        ensures { result.now ≡ self.now.id }
    {
        &self.id
    }

    /// Returns when the advisory was published.
    pub fn published(&self) -> &str
        ensures { result.now ≡ self.now.published }
    {
        self.published.as_str()
    }

    /// Returns whether the advisory was withdrawn.
    pub fn withdrawn(&self) -> bool
        ensures { result ≡ is_some self.now.withdrawn }
    {
        self.withdrawn.is_some()
    }

    /// Returns the other IDs of the same vulnerability.
    pub fn aliases(&self) -> &[Id]
        ensures { result.now ≡ self.now.aliases }
    {
        self.aliases.as_slice()
    }
}

impl ExactClone for OsvAdvisory {
    ghost exact = { λ x y e. Prim.search rules };
}
