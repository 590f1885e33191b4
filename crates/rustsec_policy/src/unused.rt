//! The tables of a policy file about what this library does not fetch: the database, packages of other sources, and a
//! registry's index.

ghost use Rattle.std.specs.Prelude.{◌≡◌, IfErr, IfOk, None, Some, option_map};
ghost use Rattle.toml.specs.Data.{as_str};
ghost use Rattle.toml.specs.View.{table_view};
ghost use Rattle.rustsec_toml.specs.Fields.{optional};
ghost use Rattle.rustsec_values.specs.Failure.{IsRefusal};
ghost use Rattle.rustsec_policy.specs.Notes.{database_asks, yanked_asks};
ghost use Rattle.rustsec_policy.specs.Policies.{database_in, index_of, no_database, no_packages, no_yanked, packages_in, yanked_in};

use crate::choices::PackageSource;
use crate::flags::flag_at;
use crate::keys::{DatabaseKeys, PackageKeys, YankedKeys, expect_keys};
use crate::refused::{Read, at_key};
use rustsec_toml::{Section, TablePlace};
use rustsec_values::{ErrorKind, Result, Text};
use std::alloc::Global;
use toml::Table;

/// What `[database]` says: from where the database comes. This library reads a database from a folder alone.
#[derive(Debug, Drop)]
pub struct DatabasePolicy {
    /// The folder of the database.
    pub path: Option<Text>,
    /// The address of the database.
    pub url: Option<Text>,
    /// Whether the database is fetched; `None` if the file does not say.
    pub fetch: Option<bool>,
    /// Whether an old database is accepted; `None` if the file does not say.
    pub stale: Option<bool>,
}

/// What `[packages]` says: which packages are looked at. This library looks at those of the default registry.
#[derive(Clone, Copy, Debug)]
pub struct PackagePolicy {
    /// The source of the packages; `None` if the file does not say.
    pub source: Option<PackageSource>,
}

/// What `[yanked]` says: whether a registry is asked which versions are yanked. This library asks an index in a folder
/// alone, and no registry.
#[derive(Debug, Drop)]
pub struct YankedPolicy {
    /// Whether yanked versions give warnings; `None` if the file does not say.
    pub enabled: Option<bool>,
    /// The folder of a registry's index; `None` if the file does not say. The Rust crate's policy has no such key.
    pub index: Option<Text>,
    /// Whether the registry's index is updated before; `None` if the file does not say.
    pub update_index: Option<bool>,
}

/// Reads the string at a key that may be missing.
fn optional_text(alloc: Global, section: Section<'_>, key: &str) -> Result<Option<Text>>
    ensures ok { IfOk result (λ t. optional as_str key.now (table_view section.entry.table.now) ≡ Some t) }
    ensures err { IfErr result (IsRefusal ErrorKind.Parse (optional as_str key.now (table_view section.entry.table.now) ≡ None)) }
{
    let text = section.optional_string_at(alloc, key)?;
    let text = Text::from_option(alloc, text)?;
    Ok(text)
}

impl DatabasePolicy {
    /// Returns the policy of a file without `[database]`.
    pub fn none() -> DatabasePolicy
        ensures { result ≡ no_database }
    {
        DatabasePolicy {
            path: None,
            url: None,
            fetch: None,
            stale: None,
        }
    }

    /// Returns whether the table asks for the network: as `fetch` says, or without it by an address.
    pub(crate) fn asks_for_network(&self) -> bool
        ensures { result ≡ database_asks self.now }
    {
        self.fetch.unwrap_or(self.url.is_some())
    }

    /// Reads the table `[database]`.
    pub(crate) fn of_table(alloc: Global, table: &Table) -> Read<'_, DatabasePolicy>
        ensures ok { IfOk result (λ d. database_in (table_view table.now) ≡ Some d) }
        ensures err { IfErr result (λ r. IsRefusal ErrorKind.Parse (database_in (table_view table.now) ≡ None) r.error) }
    {
        let section = Section {
            table,
            name: "[database]",
            place: TablePlace::unknown(),
        };
        expect_keys::<DatabaseKeys>(alloc, section)?;
        let path = at_key(section, "path", optional_text(alloc, section, "path"))?;
        let url = at_key(section, "url", optional_text(alloc, section, "url"))?;
        let fetch = flag_at(alloc, section, "fetch")?;
        let stale = flag_at(alloc, section, "stale")?;
        Ok(DatabasePolicy {
            path,
            url,
            fetch,
            stale,
        })
    }
}

impl PackagePolicy {
    /// Returns the policy of a file without `[packages]`.
    pub fn none() -> PackagePolicy
        ensures { result ≡ no_packages }
    {
        PackagePolicy { source: None }
    }

    /// Reads the table `[packages]`.
    pub(crate) fn of_table(alloc: Global, table: &Table) -> Read<'_, PackagePolicy>
        ensures ok { IfOk result (λ p. packages_in (table_view table.now) ≡ Some p) }
        ensures err { IfErr result (λ r. IsRefusal ErrorKind.Parse (packages_in (table_view table.now) ≡ None) r.error) }
    {
        let section = Section {
            table,
            name: "[packages]",
            place: TablePlace::unknown(),
        };
        expect_keys::<PackageKeys>(alloc, section)?;
        let source = at_key(section, "source", section.optional(alloc, "source"))?;
        Ok(PackagePolicy { source })
    }
}

impl YankedPolicy {
    /// Returns the policy of a file without `[yanked]`.
    pub fn none() -> YankedPolicy
        ensures { result ≡ no_yanked }
    {
        YankedPolicy {
            enabled: None,
            index: None,
            update_index: None,
        }
    }

    /// Returns the folder of the index that is asked: as `index` says, unless `enabled` is false.
    pub fn index(&self) -> Option<&str>
        ensures { option_map (λ t. t.now) result ≡ index_of self.now }
    {
        if self.enabled.unwrap_or(true) {
            return self.index.as_ref().map(|index| index.as_str());
        }
        None
    }

    /// Returns whether the table asks for the network: as `enabled` says, or without it as `update_index` says, unless
    /// an index in a folder is asked.
    pub(crate) fn asks_for_network(&self, has_index: bool) -> bool
        ensures { result ≡ yanked_asks has_index self.now }
    {
        !has_index && self.enabled.unwrap_or(self.update_index.unwrap_or(false))
    }

    /// Reads the table `[yanked]`.
    pub(crate) fn of_table(alloc: Global, table: &Table) -> Read<'_, YankedPolicy>
        ensures ok { IfOk result (λ y. yanked_in (table_view table.now) ≡ Some y) }
        ensures err { IfErr result (λ r. IsRefusal ErrorKind.Parse (yanked_in (table_view table.now) ≡ None) r.error) }
    {
        let section = Section {
            table,
            name: "[yanked]",
            place: TablePlace::unknown(),
        };
        expect_keys::<YankedKeys>(alloc, section)?;
        let enabled = flag_at(alloc, section, "enabled")?;
        let index = at_key(section, "index", optional_text(alloc, section, "index"))?;
        let update_index = flag_at(alloc, section, "update_index")?;
        Ok(YankedPolicy {
            enabled,
            index,
            update_index,
        })
    }
}
