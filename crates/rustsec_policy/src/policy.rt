//! The policy of a file.

ghost use Rattle.std.specs.Prelude.{◌≡◌, IfErr, IfOk, None, Some, codes};
ghost use Rattle.toml.specs.View.{table_view};
ghost use Rattle.rustsec_values.specs.Failure.{IsRefusal};
ghost use Rattle.rustsec_policy.specs.Policies.{advisories_in, database_in, no_advisories, no_database, no_output, no_packages, no_target, no_yanked, output_in, packages_in, policy_in, policy_of, section_at, target_in, yanked_in};

use crate::keys::{SectionKeys, expect_keys};
use crate::places::document_error;
use crate::refused::{Read, at_key};
use crate::sections::{AdvisoryPolicy, OutputPolicy, TargetPolicy};
use crate::unused::{DatabasePolicy, PackagePolicy, YankedPolicy};
use rustsec_toml::{Section, TablePlace, document};
use rustsec_values::{ErrorKind, Result};
use std::alloc::Global;
use toml::Table;

/// The policy of a file.
#[derive(Debug, Drop)]
pub struct Policy {
    /// Which advisories count.
    pub advisories: AdvisoryPolicy,
    /// What fails, and how findings are written.
    pub output: OutputPolicy,
    /// For which platforms.
    pub target: TargetPolicy,
    /// From where the database comes, which this library does not follow.
    pub database: DatabasePolicy,
    /// Which packages are looked at, which this library does not follow.
    pub packages: PackagePolicy,
    /// Whether a registry is asked which versions are yanked, which this library does not follow.
    pub yanked: YankedPolicy,
}

/// Reads the table `[advisories]`, if it is there.
fn advisories_at<'a>(alloc: Global, file: Section<'a>) -> Read<'a, AdvisoryPolicy>
    ensures ok { IfOk result (λ a. section_at no_advisories advisories_in (codes "advisories") (table_view file.entry.table.now) ≡ Some a) }
    ensures err { IfErr result (λ r. IsRefusal ErrorKind.Parse (section_at no_advisories advisories_in (codes "advisories") (table_view file.entry.table.now) ≡ None) r.error) }
{
    let Some(value) = file.get("advisories") else {
        return Ok(AdvisoryPolicy::none(alloc));
    };
    AdvisoryPolicy::of_table(
        alloc,
        at_key(
            file,
            "advisories",
            file.table_of(alloc, "advisories", value),
        )?,
    )
}

/// Reads the table `[output]`, if it is there.
fn output_at<'a>(alloc: Global, file: Section<'a>) -> Read<'a, OutputPolicy>
    ensures ok { IfOk result (λ o. section_at no_output output_in (codes "output") (table_view file.entry.table.now) ≡ Some o) }
    ensures err { IfErr result (λ r. IsRefusal ErrorKind.Parse (section_at no_output output_in (codes "output") (table_view file.entry.table.now) ≡ None) r.error) }
{
    let Some(value) = file.get("output") else {
        return Ok(OutputPolicy::none(alloc));
    };
    OutputPolicy::of_table(
        alloc,
        at_key(file, "output", file.table_of(alloc, "output", value))?,
    )
}

/// Reads the table `[target]`, if it is there.
fn target_at<'a>(alloc: Global, file: Section<'a>) -> Read<'a, TargetPolicy>
    ensures ok { IfOk result (λ t. section_at no_target target_in (codes "target") (table_view file.entry.table.now) ≡ Some t) }
    ensures err { IfErr result (λ r. IsRefusal ErrorKind.Parse (section_at no_target target_in (codes "target") (table_view file.entry.table.now) ≡ None) r.error) }
{
    let Some(value) = file.get("target") else {
        return Ok(TargetPolicy::none(alloc));
    };
    TargetPolicy::of_table(
        alloc,
        at_key(file, "target", file.table_of(alloc, "target", value))?,
    )
}

/// Reads the table `[database]`, if it is there.
fn database_at<'a>(alloc: Global, file: Section<'a>) -> Read<'a, DatabasePolicy>
    ensures ok { IfOk result (λ d. section_at no_database database_in (codes "database") (table_view file.entry.table.now) ≡ Some d) }
    ensures err { IfErr result (λ r. IsRefusal ErrorKind.Parse (section_at no_database database_in (codes "database") (table_view file.entry.table.now) ≡ None) r.error) }
{
    let Some(value) = file.get("database") else {
        return Ok(DatabasePolicy::none());
    };
    DatabasePolicy::of_table(
        alloc,
        at_key(file, "database", file.table_of(alloc, "database", value))?,
    )
}

/// Reads the table `[packages]`, if it is there.
fn packages_at<'a>(alloc: Global, file: Section<'a>) -> Read<'a, PackagePolicy>
    ensures ok { IfOk result (λ p. section_at no_packages packages_in (codes "packages") (table_view file.entry.table.now) ≡ Some p) }
    ensures err { IfErr result (λ r. IsRefusal ErrorKind.Parse (section_at no_packages packages_in (codes "packages") (table_view file.entry.table.now) ≡ None) r.error) }
{
    let Some(value) = file.get("packages") else {
        return Ok(PackagePolicy::none());
    };
    PackagePolicy::of_table(
        alloc,
        at_key(file, "packages", file.table_of(alloc, "packages", value))?,
    )
}

/// Reads the table `[yanked]`, if it is there.
fn yanked_at<'a>(alloc: Global, file: Section<'a>) -> Read<'a, YankedPolicy>
    ensures ok { IfOk result (λ y. section_at no_yanked yanked_in (codes "yanked") (table_view file.entry.table.now) ≡ Some y) }
    ensures err { IfErr result (λ r. IsRefusal ErrorKind.Parse (section_at no_yanked yanked_in (codes "yanked") (table_view file.entry.table.now) ≡ None) r.error) }
{
    let Some(value) = file.get("yanked") else {
        return Ok(YankedPolicy::none());
    };
    YankedPolicy::of_table(
        alloc,
        at_key(file, "yanked", file.table_of(alloc, "yanked", value))?,
    )
}

/// Reads the policy of a TOML table.
fn read_policy(alloc: Global, table: &Table) -> Read<'_, Policy>
    ensures ok { IfOk result (λ p. policy_in (table_view table.now) ≡ Some p) }
    ensures err { IfErr result (λ r. IsRefusal ErrorKind.Parse (policy_in (table_view table.now) ≡ None) r.error) }
{
    let file = Section {
        table,
        name: "the policy file",
        place: TablePlace::unknown(),
    };
    expect_keys::<SectionKeys>(alloc, file)?;
    let advisories = advisories_at(alloc, file)?;
    let output = output_at(alloc, file)?;
    let target = target_at(alloc, file)?;
    let database = database_at(alloc, file)?;
    let packages = packages_at(alloc, file)?;
    let yanked = yanked_at(alloc, file)?;
    Ok(Policy {
        advisories,
        output,
        target,
        database,
        packages,
        yanked,
    })
}

impl Policy {
    /// Reads the policy of a TOML table.
    ///
    /// # Errors
    ///
    /// `Parse` if a key is unknown, a value is of another kind, or a text is refused; else `OutOfMemory`. The message
    /// names the key, its table, what was found and what was expected.
    pub fn from_table(alloc: Global, table: &Table) -> Result<Policy>
        ensures ok { IfOk result (λ p. policy_in (table_view table.now) ≡ Some p) }
        ensures err { IfErr result (IsRefusal ErrorKind.Parse (policy_in (table_view table.now) ≡ None)) }
    {
        match read_policy(alloc, table) {
            Ok(policy) => Ok(policy),
            Err(refused) => Err(refused.error),
        }
    }

    /// Parses a policy file, which is a TOML document.
    ///
    /// # Errors
    ///
    /// `Parse` if the text is not a TOML document, or `from_table` refuses its table; else `OutOfMemory`. The message
    /// begins with the line and the column of the fault, or of the key, both from 1 on. A column counts characters.
    pub fn from_str(alloc: Global, text: &str) -> Result<Policy>
        ensures ok { IfOk result (λ p. policy_of text.now ≡ Some p) }
        ensures err { IfErr result (IsRefusal ErrorKind.Parse (policy_of text.now ≡ None)) }
    {
        let table = document(alloc, text, TablePlace::whole(text), "the policy file")?;
        match read_policy(alloc, &table) {
            Ok(policy) => Ok(policy),
            Err(refused) => Err(document_error(alloc, text, refused)),
        }
    }
}
