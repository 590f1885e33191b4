//! Queries for advisories.

ghost use Rattle.std.specs.Prelude.{◌≡◌, IfErr, IfOk, None, Some, option_map};
ghost use Rattle.semver.specs.Identifiers.{parts_of};
ghost use Rattle.rustsec_values.specs.Failure.{IsMemory};
ghost use Rattle.rustsec_database.specs.Query.{Asked, crate_scope, of_package, unset};
ghost use Rattle.rustsec_database.specs.Selects.{selects};

use crate::tests_of_fields::{
    as_informational, as_withdrawn, has_source, is_about, is_severe, of_year, on_arch, on_os,
};
use rustsec_advisory::Advisory;
use rustsec_lock::package::{Name, Package};
use rustsec_lock::platforms::{Arch, OS};
use rustsec_lock::{Severity, SourceId};
use rustsec_texts::Collection;
use rustsec_values::{ExactClone, Items, Result};
use semver::Version;
use std::alloc::{AllocError, Global};
use std::marker::Model;

/// A query for advisories. An advisory matches if it passes the test of each field that is set.
#[derive(Debug)]
pub struct Query {
    collection: Option<Collection>,
    package_name: Option<Name>,
    package_version: Option<Version>,
    package_source: Option<SourceId>,
    severity: Option<Severity>,
    target_arch: Items<Arch>,
    target_os: Items<OS>,
    year: Option<u32>,
    withdrawn: Option<bool>,
    informational: Option<bool>,
}

impl Model for Query {
    ghost use Rattle.std.specs.Prelude.{option_map};
    ghost use Rattle.semver.specs.Identifiers.{parts_of};
    ghost use Rattle.rustsec_database.specs.Query.{Asked};

    ghost Value = { Asked };

    ghost view = { λ q. record {
      collection = q.collection;
      package_name = q.package_name;
      package_version = option_map parts_of q.package_version;
      package_source = q.package_source;
      severity = q.severity;
      target_arch = q.target_arch;
      target_os = q.target_os;
      year = q.year;
      withdrawn = q.withdrawn;
      informational = q.informational;
    } };
}

/// Hand-written: a derived `Drop` is proved again, field by field, at every exit of every owner.
impl Drop for Query {
    fn drop(self) {
        let Query {
            collection: _,
            package_name: _,
            package_version: _,
            package_source: _,
            severity: _,
            target_arch: _,
            target_os: _,
            year: _,
            withdrawn: _,
            informational: _,
        } = self;
    }
}

impl Query {
    /// Returns the query with no field set, which every advisory matches. It takes no memory.
    pub fn new(alloc: Global) -> Query
        ensures { result ≡ unset }
    {
        Query {
            collection: None,
            package_name: None,
            package_version: None,
            package_source: None,
            severity: None,
            target_arch: Items::new(alloc),
            target_os: Items::new(alloc),
            year: None,
            withdrawn: None,
            informational: None,
        }
    }

    /// Returns the query for vulnerabilities of published packages: the collection of crates, no withdrawn and no
    /// informational advisory. It takes no memory.
    pub fn crate_scope(alloc: Global) -> Query
        ensures { result ≡ crate_scope }
    {
        Query::new(alloc)
            .collection(Collection::Crates)
            .withdrawn(false)
            .informational(false)
    }

    /// Returns `crate_scope()`.
    pub fn default(alloc: Global) -> Query
        ensures { result ≡ crate_scope }
    {
        Query::crate_scope(alloc)
    }

    /// Asks for a collection.
    pub fn collection(mut self, collection: Collection) -> Query
        ensures { result ≡ record self { collection = Some collection } }
    {
        self.collection = Some(collection);
        self
    }

    /// Asks for the name, the version and the source of a package, and copies them. If the package has no
    /// source, the source is unset.
    ///
    /// # Errors
    ///
    /// `OutOfMemory` alone.
    pub fn package(mut self, _alloc: Global, package: &Package) -> Result<Query>
        ensures ok { IfOk result (λ q. q ≡ of_package self «package».now) }
        ensures err { IfErr result IsMemory }
    {
        let name = Clone::clone(&package.name)?;
        let version = package.version.clone()?;
        let source = package.source.clone()?;
        self.package_name = Some(name);
        self.package_version = Some(version);
        self.package_source = source;
        Ok(self)
    }

    /// Asks for the name of a package.
    pub fn package_name(mut self, name: Name) -> Query
        ensures { result ≡ record self { package_name = Some name } }
    {
        self.package_name = Some(name);
        self
    }

    /// Asks for advisories that affect a version.
    pub fn package_version(mut self, version: Version) -> Query
        ensures { result ≡ record self { package_version = Some (parts_of version) } }
    {
        self.package_version = Some(version);
        self
    }

    /// Asks for packages of a source. An advisory without a source is one of the default registry.
    pub fn package_source(mut self, source: SourceId) -> Query
        ensures { result ≡ record self { package_source = Some source } }
    {
        self.package_source = Some(source);
        self
    }

    /// Asks for advisories at least this severe. One without a severity matches too.
    pub fn severity(mut self, severity: Severity) -> Query
        ensures { result ≡ record self { severity = Some severity } }
    {
        self.severity = Some(severity);
        self
    }

    /// Asks for advisories that affect some of these architectures.
    pub fn target_arch(mut self, arch: Vec<Arch>) -> Query
        ensures { result ≡ record self { target_arch = arch.items } }
    {
        self.target_arch = Items::from(arch);
        self
    }

    /// Asks for advisories that affect some of these systems.
    pub fn target_os(mut self, os: Vec<OS>) -> Query
        ensures { result ≡ record self { target_os = os.items } }
    {
        self.target_os = Items::from(os);
        self
    }

    /// Asks for advisories whose ID is of this year. An ID without a year matches too.
    pub fn year(mut self, year: u32) -> Query
        ensures { result ≡ record self { year = Some year } }
    {
        self.year = Some(year);
        self
    }

    /// Asks for withdrawn advisories alone, or for the others alone.
    pub fn withdrawn(mut self, setting: bool) -> Query
        ensures { result ≡ record self { withdrawn = Some setting } }
    {
        self.withdrawn = Some(setting);
        self
    }

    /// Asks for informational advisories alone, or for the others alone.
    pub fn informational(mut self, setting: bool) -> Query
        ensures { result ≡ record self { informational = Some setting } }
    {
        self.informational = Some(setting);
        self
    }

    /// Returns the collection of the query, if set.
    pub fn asked_collection(&self) -> Option<Collection>
        ensures { result ≡ self.now.collection }
    {
        self.collection
    }

    /// Returns the name of the query, if set.
    pub fn asked_name(&self) -> Option<&Name>
        ensures { option_map (λ n. n.now) result ≡ self.now.package_name }
    {
        self.package_name.as_ref()
    }

    /// Returns the version of the query, if set.
    pub fn asked_version(&self) -> Option<&Version>
        ensures { option_map (λ v. parts_of v.now) result ≡ self.now.package_version }
    {
        self.package_version.as_ref()
    }

    /// Returns the source of the query, if set.
    pub fn asked_source(&self) -> Option<&SourceId>
        ensures { option_map (λ s. s.now) result ≡ self.now.package_source }
    {
        self.package_source.as_ref()
    }

    /// Returns whether an advisory passes all tests, with these instead of the query's name, version and source.
    #[tactic(auto, unfolding(crate::specs::Selects::selects))]
    fn passes(
        &self,
        name: Option<&Name>,
        version: Option<&Version>,
        source: Option<&SourceId>,
        advisory: &Advisory,
    ) -> bool
        ensures { result ≡ selects (record self.now {
          package_name = option_map (λ n. n.now) name.entry;
          package_version = option_map (λ v. parts_of v.now) version.entry;
          package_source = option_map (λ s. s.now) source.entry;
        }) advisory.now }
    {
        is_about(self.collection, name, version, advisory)
            && has_source(source, advisory)
            && is_severe(self.severity, advisory)
            && on_arch(self.target_arch.as_slice(), advisory)
            && on_os(self.target_os.as_slice(), advisory)
            && of_year(self.year, advisory)
            && as_withdrawn(self.withdrawn, advisory)
            && as_informational(self.informational, advisory)
    }

    /// Returns whether an advisory matches: whether it passes the test of each field that is set. The version is
    /// tested by `is_vulnerable` of the advisory's versions.
    pub fn matches(&self, advisory: &Advisory) -> bool
        ensures { result ≡ selects self.now advisory.now }
    {
        let version = self.package_version.as_ref();
        let source = self.package_source.as_ref();
        self.passes(self.package_name.as_ref(), version, source, advisory)
    }

    /// Returns whether an advisory matches this query after `package` is called on it with a package. It takes no
    /// memory.
    pub fn matches_package(&self, package: &Package, advisory: &Advisory) -> bool
        ensures { result ≡ selects (of_package self.now «package».now) advisory.now }
    {
        let version = Some(&package.version);
        let source = package.source.as_ref();
        self.passes(Some(&package.name), version, source, advisory)
    }

    /// Returns an equal query.
    ///
    /// # Errors
    ///
    /// `OutOfMemory` alone.
    pub fn clone(&self, _alloc: Global) -> Result<Query>
        ensures ok { IfOk result (λ q. q ≡ self.now) }
        ensures err { IfErr result IsMemory }
    {
        let copy = Clone::clone(self)?;
        Ok(copy)
    }
}

impl Clone for Query {
    ghost is_clone = { λ a b. b ≡ a };

    fn clone(&self) -> std::result::Result<Query, AllocError> {
        let package_name = Clone::clone(&self.package_name)?;
        let package_version = Clone::clone(&self.package_version)?;
        let package_source = Clone::clone(&self.package_source)?;
        let target_arch = Clone::clone(&self.target_arch)?;
        let target_os = Clone::clone(&self.target_os)?;
        Ok(Query {
            collection: self.collection,
            package_name,
            package_version,
            package_source,
            severity: self.severity,
            target_arch,
            target_os,
            year: self.year,
            withdrawn: self.withdrawn,
            informational: self.informational,
        })
    }
}

impl ExactClone for Query {
    ghost exact = { λ x y e. e };
}
