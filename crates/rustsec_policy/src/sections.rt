//! The tables of a policy file that decide what an audit finds and how it is written.

ghost use Rattle.std.specs.Prelude.{◌≡◌, ◌<◌, ◌∷◌, [], IfErr, IfOk, None, OnErr, Some, codes, length, option_map};
ghost use Rattle.toml.specs.View.{table_view};
ghost use Rattle.rustsec_texts.specs.Informational.{informational_of};
ghost use Rattle.rustsec_toml.specs.Fields.{defaulted, every, optional, text};
ghost use Rattle.rustsec_values.specs.Failure.{IsMemory, IsOfKind, IsRefusal};
ghost use Rattle.rustsec_policy.specs.Policies.{advisories_in, ids_on, ignored_of, no_advisories, no_output, no_target, output_in, target_in, words_of};
ghost use Rattle.rustsec_policy.specs.Choices.{severity_named};

use crate::choices::{Denied, OutputFormat};
use crate::flags::flag_at;
use crate::ignored::{Ignored, all_ignored, ids_on};
use crate::keys::{AdvisoryKeys, OutputKeys, TargetKeys, expect_keys};
use crate::nearest::with_nearest_name;
use crate::refused::{Read, Refused, at_element, at_key};
use crate::threshold::Threshold;
use rustsec_lock::Severity;
use rustsec_lock::platforms::{Arch, OS};
use rustsec_texts::{Date, Id, Informational};
use rustsec_toml::{Section, TablePlace};
use rustsec_values::{ClosedEnum, Error, ErrorKind, FromText, Items, Result, from_name};
use std::alloc::Global;
use toml::{Table, Value};

/// What `[advisories]` says: which advisories count.
#[derive(Debug, Drop)]
pub struct AdvisoryPolicy {
    /// The advisories that do not count.
    pub ignore: Items<Ignored>,
    /// The kinds of informational advisories that give warnings; `None` if the file does not say.
    pub informational_warnings: Option<Items<Informational>>,
    /// The least severity of an advisory that has one.
    pub severity_threshold: Option<Severity>,
}

/// What `[output]` says: what fails, and how findings are written.
#[derive(Debug, Drop)]
pub struct OutputPolicy {
    /// What fails beside vulnerabilities.
    pub deny: Items<Denied>,
    /// How findings are written; `None` if the file does not say.
    pub format: Option<OutputFormat>,
    /// Whether nothing is written if nothing is found; `None` if the file does not say.
    pub quiet: Option<bool>,
    /// Whether the paths to packages are written; `None` if the file does not say.
    pub show_tree: Option<bool>,
}

/// What `[target]` says: for which platforms. An empty list means any.
#[derive(Debug, Drop)]
pub struct TargetPolicy {
    /// The architectures.
    pub arch: Items<Arch>,
    /// The systems.
    pub os: Items<OS>,
}

/// Reads the entries at `ignore`.
fn ignore_at<'a>(alloc: Global, section: Section<'a>) -> Read<'a, Items<Ignored>>
    ensures ok { IfOk result (λ is. defaulted [] (every ignored_of) (codes "ignore") (table_view section.entry.table.now) ≡ Some is) }
    ensures err { IfErr result (λ r. IsRefusal ErrorKind.Parse (defaulted [] (every ignored_of) (codes "ignore") (table_view section.entry.table.now) ≡ None) r.error) }
{
    let Some(value) = section.get("ignore") else {
        return Ok(Items::new(alloc));
    };
    let array = section.array_of(alloc, "ignore", value, "an array of IDs and tables");
    match all_ignored(alloc, at_key(section, "ignore", array)?) {
        Ok(ignored) => Ok(ignored),
        Err(refused) => Err(Refused {
            error: section.with_key(alloc, "ignore", &refused.error),
            table: section.name,
            key: "ignore",
            entry: Ok(Some(refused.index)),
            inner: refused.key,
        }),
    }
}

/// Reads the kinds at `informational_warnings`, if the key is there.
fn warnings_at(alloc: Global, section: Section<'_>) -> Result<Option<Items<Informational>>>
    ensures ok { IfOk result (λ w. optional (every (text (λ t. Some (informational_of t)))) (codes "informational_warnings") (table_view section.entry.table.now) ≡ Some w) }
    ensures err { IfErr result (IsRefusal ErrorKind.Parse (optional (every (text (λ t. Some (informational_of t)))) (codes "informational_warnings") (table_view section.entry.table.now) ≡ None)) }
{
    if section.get("informational_warnings").is_none() {
        return Ok(None);
    }
    let kinds = section.list(alloc, "informational_warnings")?;
    Ok(Some(kinds))
}

/// Reads the severity at `severity_threshold`, if the key is there.
fn threshold_at(alloc: Global, section: Section<'_>) -> Result<Option<Severity>>
    ensures ok { IfOk result (λ s. optional (text severity_named) (codes "severity_threshold") (table_view section.entry.table.now) ≡ Some s) }
    ensures err { IfErr result (IsRefusal ErrorKind.Parse (optional (text severity_named) (codes "severity_threshold") (table_view section.entry.table.now) ≡ None)) }
{
    let threshold: Option<Threshold> = section.optional(alloc, "severity_threshold")?;
    match threshold {
        Some(threshold) => Ok(Some(threshold.severity)),
        None => Ok(None),
    }
}

impl AdvisoryPolicy {
    /// Returns the policy of a file without `[advisories]`.
    pub fn none(alloc: Global) -> AdvisoryPolicy
        ensures { result ≡ no_advisories }
    {
        AdvisoryPolicy {
            ignore: Items::new(alloc),
            informational_warnings: None,
            severity_threshold: None,
        }
    }

    /// Returns the IDs that are ignored on a day, in order. An entry with a last day counts up to that day.
    ///
    /// # Errors
    ///
    /// `BadParam` if an entry has a last day and no day is given, with a message that names it; else `OutOfMemory`, and
    /// only if there is an entry.
    pub fn ignored_ids(&self, alloc: Global, today: Option<&Date>) -> Result<Items<Id>>
        ensures ok { IfOk result (λ ids. ids_on (option_map (λ d. d.now) today.entry) self.now.ignore ≡ Some ids) }
        ensures err { IfErr result (IsRefusal ErrorKind.BadParam (ids_on (option_map (λ d. d.now) today.entry) self.now.ignore ≡ None)) }

        // A policy without entries takes no memory.
        ensures none { OnErr result (0 < length self.now.ignore) }
    {
        ids_on(alloc, today, self.ignore.as_slice())
    }

    /// Reads the table `[advisories]`.
    pub(crate) fn of_table(alloc: Global, table: &Table) -> Read<'_, AdvisoryPolicy>
        ensures ok { IfOk result (λ a. advisories_in (table_view table.now) ≡ Some a) }
        ensures err { IfErr result (λ r. IsRefusal ErrorKind.Parse (advisories_in (table_view table.now) ≡ None) r.error) }
    {
        let section = Section {
            table,
            name: "[advisories]",
            place: TablePlace::unknown(),
        };
        expect_keys::<AdvisoryKeys>(alloc, section)?;
        let ignore = ignore_at(alloc, section)?;
        let informational_warnings = at_element::<Informational, Option<Items<Informational>>>(
            alloc,
            section,
            "informational_warnings",
            warnings_at(alloc, section),
        )?;
        let severity_threshold = at_key(
            section,
            "severity_threshold",
            threshold_at(alloc, section),
        )?;
        Ok(AdvisoryPolicy {
            ignore,
            informational_warnings,
            severity_threshold,
        })
    }
}

impl OutputPolicy {
    /// Returns the policy of a file without `[output]`.
    pub fn none(alloc: Global) -> OutputPolicy
        ensures { result ≡ no_output }
    {
        OutputPolicy {
            deny: Items::new(alloc),
            format: None,
            quiet: None,
            show_tree: None,
        }
    }

    /// Reads the table `[output]`.
    pub(crate) fn of_table(alloc: Global, table: &Table) -> Read<'_, OutputPolicy>
        ensures ok { IfOk result (λ o. output_in (table_view table.now) ≡ Some o) }
        ensures err { IfErr result (λ r. IsRefusal ErrorKind.Parse (output_in (table_view table.now) ≡ None) r.error) }
    {
        let section = Section {
            table,
            name: "[output]",
            place: TablePlace::unknown(),
        };
        expect_keys::<OutputKeys>(alloc, section)?;
        let deny = at_element::<Denied, Items<Denied>>(
            alloc,
            section,
            "deny",
            section.list(alloc, "deny"),
        )?;
        let format = at_key(section, "format", section.optional(alloc, "format"))?;
        let quiet = flag_at(alloc, section, "quiet")?;
        let show_tree = flag_at(alloc, section, "show_tree")?;
        Ok(OutputPolicy {
            deny,
            format,
            quiet,
            show_tree,
        })
    }
}

/// Returns a list of one element.
fn alone<T: Drop>(alloc: Global, element: T) -> Result<Items<T>>
    ensures ok { IfOk result (λ xs. xs ≡ element ∷ []) }
    ensures err { IfErr result IsMemory }
{
    let mut items = Items::new(alloc);
    items.push(element)?;
    Ok(items)
}

/// Returns the first string of an array that is not a name, unless a value before it is not a string.
fn first_unknown<T: ClosedEnum>(value: Option<&Value>) -> Option<&str> {
    for value in value?.as_array()? {
        let word = value.as_str()?;
        let known: Option<T> = from_name(word);
        if known.is_none() {
            return Some(word);
        }
    }
    None
}

/// Adds the nearest name after the message of the error about an array's first string that is not a name.
fn with_nearest_in<T: ClosedEnum>(alloc: Global, error: Error, value: Option<&Value>) -> Error
    ensures kind { IsOfKind error.kind result }
    ensures memory { IsMemory error → IsMemory result }
{
    match first_unknown::<T>(value) {
        Some(word) => with_nearest_name::<T>(alloc, error, word),
        None => error,
    }
}

/// Makes the error for a value at a key that is neither a string nor an array. Any other value, and out of memory, keep
/// their error.
fn kinds_error(alloc: Global, section: Section<'_>, key: &str, error: Error) -> Error
    ensures kind { IsOfKind error.kind result }
    ensures memory { IsMemory error → IsMemory result }
{
    match section.get(key) {
        Some(value) if error.kind() == ErrorKind::Parse && value.as_array().is_none() => {
            section.unexpected_error(alloc, key, value, "a string or an array of strings")
        }
        _ => error,
    }
}

/// Reads one word, or a list of words, at a key.
fn words_at<T: FromText + ClosedEnum>(
    alloc: Global,
    section: Section<'_>,
    key: &str,
) -> Result<Items<T>>
    ensures ok { IfOk result (λ ws. defaulted [] (words_of T.reads) key.now (table_view section.entry.table.now) ≡ Some ws) }
    ensures err { IfErr result (IsRefusal ErrorKind.Parse (defaulted [] (words_of T.reads) key.now (table_view section.entry.table.now) ≡ None)) }
{
    match section.get(key).and_then(Value::as_str) {
        Some(word) => match section.parse_str(alloc, key, word) {
            Ok(value) => alone(alloc, value),
            Err(error) => Err(with_nearest_name::<T>(alloc, error, word)),
        },
        None => match section.list(alloc, key) {
            Ok(words) => Ok(words),
            Err(error) => {
                let error = with_nearest_in::<T>(alloc, error, section.get(key));
                Err(kinds_error(alloc, section, key, error))
            }
        },
    }
}

impl TargetPolicy {
    /// Returns the policy of a file without `[target]`.
    pub fn none(alloc: Global) -> TargetPolicy
        ensures { result ≡ no_target }
    {
        TargetPolicy {
            arch: Items::new(alloc),
            os: Items::new(alloc),
        }
    }

    /// Reads the table `[target]`.
    pub(crate) fn of_table(alloc: Global, table: &Table) -> Read<'_, TargetPolicy>
        ensures ok { IfOk result (λ t. target_in (table_view table.now) ≡ Some t) }
        ensures err { IfErr result (λ r. IsRefusal ErrorKind.Parse (target_in (table_view table.now) ≡ None) r.error) }
    {
        let section = Section {
            table,
            name: "[target]",
            place: TablePlace::unknown(),
        };
        expect_keys::<TargetKeys>(alloc, section)?;
        let arch = at_element::<Arch, Items<Arch>>(
            alloc,
            section,
            "arch",
            words_at(alloc, section, "arch"),
        )?;
        let os = at_element::<OS, Items<OS>>(alloc, section, "os", words_at(alloc, section, "os"))?;
        Ok(TargetPolicy { arch, os })
    }
}
