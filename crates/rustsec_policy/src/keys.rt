//! The keys that the tables of a policy file may have.

ghost use Rattle.std.specs.Prelude.{◌≡◌, ℕ, IfErr, List, OnOk, false, map, true};
ghost use Rattle.toml.specs.View.{table_view};
ghost use Rattle.rustsec_values.specs.Failure.{IsOfKind, IsRefusal};
ghost use Rattle.rustsec_policy.specs.Keys.{has_only, is_one_of};

use crate::nearest::with_nearest;
use crate::refused::{Read, Refused};
use rustsec_toml::Section;
use rustsec_values::{Error, ErrorKind, beginning_of};
use std::alloc::{AllocError, Global};

/// The keys that a table may have.
pub(crate) trait Keys {
    ghost known: { List (List ℕ) };

    /// Returns the keys, in the order of messages.
    fn all() -> &'static [&'static str]
        ensures { map (λ key. key.now) result.now ≡ known };
}

/// Returns whether a table may have a key.
fn is_known<K: Keys>(key: &str) -> bool
    ensures { result ≡ is_one_of K.known key.now }
{
    for known in K::all() {
        if key == *known {
            return true;
        }
    }
    false
}

/// Returns what is written before the word at an index of a list: nothing, a comma or `or`.
fn separator(index: usize, length: usize) -> &'static str {
    if index == 0 {
        ""
    } else if index.saturating_add(1) < length {
        ", "
    } else {
        " or "
    }
}

/// Returns a list of words for a message, as in "`a`, `b` or `c`".
fn in_words(alloc: Global, words: &[&str]) -> Result<String, AllocError> {
    let mut listed = String::new(alloc);
    for (index, word) in words.iter().enumerate() {
        listed.push_str(separator(index, words.len()))?;
        listed.push_str("`")?;
        listed.push_str(word)?;
        listed.push_str("`")?;
    }
    Ok(listed)
}

/// Returns the message for a key that a table may not have.
fn message(alloc: Global, name: &str, key: &str, words: &[&str]) -> Result<String, AllocError> {
    let (key, known) = (beginning_of(key, 60), in_words(alloc, words)?);
    format!(in alloc; "unknown key `{key}` in {name}, expected {known}")
}

/// Returns the error for a key that a table may not have.
fn unknown_key_error(alloc: Global, name: &str, key: &str, words: &[&str]) -> Error
    ensures { IsOfKind ErrorKind.Parse result }
{
    match message(alloc, name, key, words) {
        Ok(message) => {
            let error = Error::new(alloc, ErrorKind::Parse, &message);
            with_nearest(alloc, error, words, key)
        }
        Err(refused) => Error::from(refused),
    }
}

/// Checks that a table has known keys alone.
///
/// # Errors
///
/// `Parse` for the first other key; else `OutOfMemory`, for the message.
pub(crate) fn expect_keys<'a, K: Keys>(alloc: Global, section: Section<'a>) -> Read<'a, ()>
    ensures ok { OnOk result (has_only K.known (table_view section.entry.table.now) ≡ true) }
    ensures err { IfErr result (λ r. IsRefusal ErrorKind.Parse (has_only K.known (table_view section.entry.table.now) ≡ false) r.error) }
{
    for (key, _) in section.table {
        if !is_known::<K>(key.as_str()) {
            return Err(Refused {
                error: unknown_key_error(alloc, section.name, key.as_str(), K::all()),
                table: section.name,
                key: key.as_str(),
                entry: Ok(None),
                inner: None,
            });
        }
    }
    Ok(())
}

/// The keys of the whole file.
pub(crate) struct SectionKeys;

impl Keys for SectionKeys {
    ghost use Rattle.rustsec_policy.specs.Keys.{section_keys};

    ghost known = { section_keys };

    fn all() -> &'static [&'static str] {
        &[
            "advisories",
            "database",
            "output",
            "target",
            "packages",
            "yanked",
        ]
    }
}

/// The keys of `[advisories]`.
pub(crate) struct AdvisoryKeys;

impl Keys for AdvisoryKeys {
    ghost use Rattle.rustsec_policy.specs.Keys.{advisory_keys};

    ghost known = { advisory_keys };

    fn all() -> &'static [&'static str] {
        &["ignore", "informational_warnings", "severity_threshold"]
    }
}

/// The keys of an entry of `ignore`.
pub(crate) struct IgnoredKeys;

impl Keys for IgnoredKeys {
    ghost use Rattle.rustsec_policy.specs.Keys.{ignored_keys};

    ghost known = { ignored_keys };

    fn all() -> &'static [&'static str] {
        &["id", "reason", "until"]
    }
}

/// The keys of `[output]`.
pub(crate) struct OutputKeys;

impl Keys for OutputKeys {
    ghost use Rattle.rustsec_policy.specs.Keys.{output_keys};

    ghost known = { output_keys };

    fn all() -> &'static [&'static str] {
        &["deny", "format", "quiet", "show_tree"]
    }
}

/// The keys of `[target]`.
pub(crate) struct TargetKeys;

impl Keys for TargetKeys {
    ghost use Rattle.rustsec_policy.specs.Keys.{target_keys};

    ghost known = { target_keys };

    fn all() -> &'static [&'static str] {
        &["arch", "os"]
    }
}

/// The keys of `[database]`.
pub(crate) struct DatabaseKeys;

impl Keys for DatabaseKeys {
    ghost use Rattle.rustsec_policy.specs.Keys.{database_keys};

    ghost known = { database_keys };

    fn all() -> &'static [&'static str] {
        &["path", "url", "fetch", "stale"]
    }
}

/// The keys of `[packages]`.
pub(crate) struct PackageKeys;

impl Keys for PackageKeys {
    ghost use Rattle.rustsec_policy.specs.Keys.{package_keys};

    ghost known = { package_keys };

    fn all() -> &'static [&'static str] {
        &["source"]
    }
}

/// The keys of `[yanked]`.
pub(crate) struct YankedKeys;

impl Keys for YankedKeys {
    ghost use Rattle.rustsec_policy.specs.Keys.{yanked_keys};

    ghost known = { yanked_keys };

    fn all() -> &'static [&'static str] {
        &["enabled", "index", "update_index"]
    }
}
