//! Appends lint errors to a list.

ghost use Rattle.std.specs.Prelude.{◌≡◌, ◌++◌, IfErr, OnOk};
ghost use Rattle.std.specs.Option.{option_copied};
ghost use Rattle.rustsec_advisory.specs.LintErrors.{bad_content, bad_value, unknown_key, when};
ghost use Rattle.rustsec_values.specs.Failure.{IsMemory};

use crate::linter::{Error, ErrorKind};
use rustsec_values::{Items, Result};
use std::alloc::Global;

/// A lint error for a value: its place, its text, and what is wrong with it.
#[derive(Clone, Copy)]
pub(crate) struct BadValue<'a> {
    pub(crate) section: &'a str,
    pub(crate) name: &'a str,
    pub(crate) value: &'a str,
    pub(crate) message: &'a str,
}

impl<'a> BadValue<'a> {
    /// Appends the lint error, if a test holds.
    pub(crate) fn add_if(self, alloc: Global, errors: &mut Items<Error>, test: bool) -> Result<()>
        ensures ok { OnOk result (errors.new ≡ errors.old ++ when test (bad_value self.entry.section.now self.entry.name.now self.entry.value.now self.entry.message.now)) }
        ensures err { IfErr result IsMemory }
    {
        if test {
            let kind = ErrorKind::value(alloc, self.name, self.value)?;
            let error = Error::new(alloc, kind, Some(self.section), Some(self.message))?;
            errors.push(error)?;
        }
        Ok(())
    }
}

/// Appends a lint error for a section's content, if a test holds.
pub(crate) fn add_content(
    alloc: Global,
    errors: &mut Items<Error>,
    test: bool,
    section: &str,
    message: &str,
) -> Result<()>
    ensures ok { OnOk result (errors.new ≡ errors.old ++ when test (bad_content section.now message.now)) }
    ensures err { IfErr result IsMemory }
{
    if test {
        let error = Error::new(alloc, ErrorKind::Malformed, Some(section), Some(message))?;
        errors.push(error)?;
    }
    Ok(())
}

/// Appends the lint error for a key without a meaning at its place, if a test holds.
pub(crate) fn add_key(
    alloc: Global,
    errors: &mut Items<Error>,
    test: bool,
    section: Option<&str>,
    key: &str,
) -> Result<()>
    ensures ok { OnOk result (errors.new ≡ errors.old ++ when test (unknown_key (option_copied section.entry) key.now)) }
    ensures err { IfErr result IsMemory }
{
    if test {
        let kind = ErrorKind::key(alloc, key)?;
        let error = Error::new(alloc, kind, section, None)?;
        errors.push(error)?;
    }
    Ok(())
}
