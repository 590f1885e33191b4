//! What is exported of a database, with notes on the advisories that have no document.

ghost use Rattle.std.specs.Prelude.{◌≡◌, ◌≢◌, ◌++◌, [], OnOk, false, string_bytes, true};
ghost use Rattle.rustsec_values.specs.declared.error.ErrorKind.TheVariants as kind;
ghost use Rattle.rustsec_osv_database.specs.Lines.{is_left_out};

use rustsec_advisory::Advisory;
use rustsec_values::{Error, ErrorKind};
use std::alloc::{AllocError, Global};

/// What is exported of a database.
#[derive(Clone, Copy, Debug)]
pub struct Choice {
    /// Whether withdrawn advisories are left out.
    pub skip_withdrawn: bool,
    /// Whether documents are written without the pairs of neighbouring events at one version.
    pub normalized: bool,
}

impl Choice {
    /// Returns whether an advisory is left out.
    pub fn is_left_out(self, advisory: &Advisory) -> bool
        ensures { result ≡ is_left_out self advisory.now }
    {
        self.skip_withdrawn && advisory.withdrawn()
    }
}

/// The text of some documents, and notes for a person on the advisories that have none. No contract mentions the notes.
#[derive(Debug, Drop)]
pub struct Exported {
    /// The text.
    pub text: String,
    /// Whether an advisory that is not left out has no document.
    pub missing: bool,
    /// The notes, a line each.
    pub notes: String,
}

impl Exported {
    /// Returns no text and no notes.
    pub(crate) fn new(alloc: Global) -> Exported
        ensures text { string_bytes result.text ≡ [] }
        ensures missing { result.missing ≡ false }
    {
        Exported {
            text: String::new(alloc),
            missing: false,
            notes: String::new(alloc),
        }
    }

    /// Appends the line of a document.
    pub(crate) fn push_line(&mut self, line: &str) -> Result<(), AllocError>
        ensures { OnOk result ((string_bytes self.new.text ≡ string_bytes self.old.text ++ line.now) × (self.new.missing ≡ self.old.missing)) }
    {
        self.text.push_str(line)
    }

    /// Takes note of an advisory that has no document for this reason. Out of memory is passed on as an error.
    pub(crate) fn push_missing(
        &mut self,
        alloc: Global,
        advisory: &Advisory,
        error: &Error,
    ) -> Result<(), AllocError>
        ensures { OnOk result ((string_bytes self.new.text ≡ string_bytes self.old.text) × (self.new.missing ≡ true)
            × (error.now.kind ≢ kind.OutOfMemory)) }
    {
        if error.kind() == ErrorKind::OutOfMemory {
            return Err(AllocError);
        }
        self.missing = true;
        let (id, message) = (advisory.metadata.id.as_str(), error.message());
        let note = format!(in alloc; "{id} has no document: {message}\n")?;
        self.notes.push_str(&note)
    }
}
