//! The booleans of a policy file, which may be missing.

ghost use Rattle.std.specs.Prelude.{◌≡◌, IfErr, IfOk, None, Some};
ghost use Rattle.toml.specs.Data.{as_bool};
ghost use Rattle.toml.specs.View.{table_view};
ghost use Rattle.rustsec_toml.specs.Fields.{optional};
ghost use Rattle.rustsec_values.specs.Failure.{IsRefusal};

use crate::refused::{Read, at_key};
use rustsec_toml::Section;
use rustsec_values::{ErrorKind, Result};
use std::alloc::Global;

/// Reads the boolean at a key that may be missing.
fn optional_bool(alloc: Global, section: Section<'_>, key: &str) -> Result<Option<bool>>
    ensures ok { IfOk result (λ b. optional as_bool key.now (table_view section.entry.table.now) ≡ Some b) }
    ensures err { IfErr result (IsRefusal ErrorKind.Parse (optional as_bool key.now (table_view section.entry.table.now) ≡ None)) }
{
    let Some(value) = section.get(key) else {
        return Ok(None);
    };
    match value.as_bool() {
        Some(flag) => Ok(Some(flag)),
        None => Err(section.unexpected_error(alloc, key, value, "a boolean")),
    }
}

/// Reads the boolean at a key that may be missing, and says which key is refused.
pub(crate) fn flag_at<'a>(
    alloc: Global,
    section: Section<'a>,
    key: &'a str,
) -> Read<'a, Option<bool>>
    ensures ok { IfOk result (λ b. optional as_bool key.now (table_view section.entry.table.now) ≡ Some b) }
    ensures err { IfErr result (λ r. IsRefusal ErrorKind.Parse (optional as_bool key.now (table_view section.entry.table.now) ≡ None) r.error) }
{
    at_key(section, key, optional_bool(alloc, section, key))
}
