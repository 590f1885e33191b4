//! The linter of advisories: it finds lint errors in advisories that the reader accepts.

ghost use Rattle.std.specs.Prelude.{◌≡◌, ◌≢◌, ◌⊎◌, ℕ, List, IfErr, IfOk, MatchResult, None, OnErr, Some, false, true};
ghost use Rattle.std.specs.Fmt.{DisplaysOnOk};
ghost use Rattle.std.specs.Option.{option_copied};
ghost use Rattle.toml.specs.Data.{Members};
ghost use Rattle.rustsec_advisory.specs.Advisory.{IsAdvisory, IsAdvisoryWith};
ghost use Rattle.rustsec_advisory.specs.FileRefusals.{AreLintsAt, IsLintRefusal, IsNoText, IsOfFile, IsTextRefusal, NamesFile};
ghost use Rattle.rustsec_advisory.specs.KeyOrder.{DocumentRises};
ghost use Rattle.rustsec_advisory.specs.KnownKeys.{AreKeysKnown};
ghost use Rattle.rustsec_files.specs.Paths.{is_draft, is_markdown};
ghost use Rattle.rustsec_advisory.specs.LintErrors.{LintError, lint_error_text, kind_text, message_text, section_text};
ghost use Rattle.rustsec_advisory.specs.Lints.{Lints};
ghost use Rattle.rustsec_files.specs.Allowed.{AllowSame, read_from, real_files, real_folders};
ghost use Rattle.rustsec_advisory.specs.declared.advisory.Advisory as given;
ghost use Rattle.rustsec_advisory.specs.declared.linter.ErrorKind.TheVariants as lint_kind;
ghost use Rattle.rustsec_values.specs.Failure.{IsMemory, IsOfKind, IsRefusal};
ghost use Rattle.rustsec_values.specs.declared.error.ErrorKind.TheVariants as failure;

use crate::advisory::{self, Advisory};
use crate::lint_rules;
use rustsec_files::path::FilePath;
use rustsec_files::{Folders, RealFolders};
use rustsec_values::{ExactClone, ExactEq, Items, Result, Text, file_error, text_error};
use std::alloc::{AllocError, Global};
use std::fmt;
use std::marker::Model;
use std::rt::Files;

/// The kind of a lint error.
#[derive(Debug, PartialEq, Eq, Drop)]
pub enum ErrorKind {
    /// A section has content that it should not have.
    Malformed,
    /// A key without a meaning at its place.
    InvalidKey {
        /// The key.
        name: Text,
    },
    /// A value that its key does not accept.
    InvalidValue {
        /// The key.
        name: Text,
        /// The value as TOML prints it.
        value: Text,
    },
}

impl ErrorKind {
    /// Returns the kind for a key without a meaning at its place.
    ///
    /// # Errors
    ///
    /// `OutOfMemory` alone.
    pub fn key(alloc: Global, name: &str) -> Result<ErrorKind>
        ensures ok { IfOk result (λ k. k ≡ lint_kind.InvalidKey name.now) }
        ensures err { IfErr result IsMemory }
    {
        let name = Text::from_str(alloc, name)?;
        Ok(ErrorKind::InvalidKey { name })
    }

    /// Returns the kind for a value that its key does not accept.
    ///
    /// # Errors
    ///
    /// `OutOfMemory` alone.
    pub fn value(alloc: Global, name: &str, value: &str) -> Result<ErrorKind>
        ensures ok { IfOk result (λ k. k ≡ lint_kind.InvalidValue name.now value.now) }
        ensures err { IfErr result IsMemory }
    {
        let name = Text::from_str(alloc, name)?;
        let value = Text::from_str(alloc, value)?;
        Ok(ErrorKind::InvalidValue { name, value })
    }

    /// Returns an equal kind.
    ///
    /// # Errors
    ///
    /// `OutOfMemory` alone.
    pub fn clone(&self, _alloc: Global) -> Result<ErrorKind>
        ensures ok { IfOk result (λ k. k ≡ self.now) }
        ensures err { IfErr result IsMemory }

        // `Malformed` takes no memory.
        ensures none { OnErr result (self.now ≢ lint_kind.Malformed) }
    {
        let copy = Clone::clone(self)?;
        Ok(copy)
    }
}

impl Clone for ErrorKind {
    ghost is_clone = { λ a b. b ≡ a };

    // `Malformed` takes no memory.
    fn clone(&self) -> std::result::Result<ErrorKind, AllocError>
        ensures ok { IfOk result (λ k. k ≡ self.now) }
        ensures none { OnErr result (self.now ≢ lint_kind.Malformed) }
    {
        match self {
            ErrorKind::Malformed => Ok(ErrorKind::Malformed),
            ErrorKind::InvalidKey { name } => {
                let name = Clone::clone(name)?;
                Ok(ErrorKind::InvalidKey { name })
            }
            ErrorKind::InvalidValue { name, value } => {
                let name = Clone::clone(name)?;
                let value = Clone::clone(value)?;
                Ok(ErrorKind::InvalidValue { name, value })
            }
        }
    }
}

impl ExactClone for ErrorKind {
    ghost exact = { λ x y e. e };
}

impl ExactEq for ErrorKind {
    ghost use Rattle.rustsec_advisory.specs.EqualityLaws.{kind_decides};

    ghost decides = { kind_decides };
}

impl fmt::Display for ErrorKind {
    ghost output = { λ k. Some (kind_text k) };

    fn fmt<W: fmt::Write>(&self, f: &mut fmt::Formatter<W>) -> fmt::Result {
        match self {
            ErrorKind::Malformed => f.write_str("malformed content"),
            ErrorKind::InvalidKey { name } => write!(f, "invalid key `{name}`"),
            ErrorKind::InvalidValue { name, value } => {
                write!(f, "invalid value `{value}` for key `{name}`")
            }
        }
    }
}

/// A lint error: its kind, its section, and a message.
#[derive(Debug, PartialEq, Eq)]
pub struct Error {
    kind: ErrorKind,
    section: Option<Text>,
    message: Option<Text>,
}

/// Hand-written: a derived `Drop` is proved again, field by field, at every exit of every owner.
impl Drop for Error {
    fn drop(self) {
        let Error {
            kind: _,
            section: _,
            message: _,
        } = self;
    }
}

impl Model for Error {
    ghost use Rattle.rustsec_advisory.specs.LintErrors.{LintError};

    ghost Value = { LintError };

    ghost view = { λ e. record { kind = e.kind; section = e.section; message = e.message } };

    ghost inverse = { λ f. record { kind = f.kind; section = f.section; message = f.message } };
}

impl Error {
    /// Returns a lint error with copies of these texts.
    pub(crate) fn new(
        alloc: Global,
        kind: ErrorKind,
        section: Option<&str>,
        message: Option<&str>,
    ) -> Result<Error>
        ensures ok { IfOk result (λ e. e ≡ record { kind = kind; section = option_copied section.entry; message = option_copied message.entry }) }
        ensures err { IfErr result IsMemory }
    {
        let section = Text::from_option(alloc, section)?;
        let message = Text::from_option(alloc, message)?;
        Ok(Error {
            kind,
            section,
            message,
        })
    }

    /// Returns the kind.
    pub fn kind(&self) -> &ErrorKind
        ensures { result.now ≡ self.now.kind }
    {
        &self.kind
    }

    /// Returns the section of the lint error; none for the top of the document.
    pub fn section(&self) -> Option<&str>
        ensures { option_copied result ≡ self.now.section }
    {
        text_of(&self.section)
    }

    /// Returns the message, if the kind alone does not say what is wrong.
    pub fn message(&self) -> Option<&str>
        ensures { option_copied result ≡ self.now.message }
    {
        text_of(&self.message)
    }

    /// Returns an equal lint error.
    ///
    /// # Errors
    ///
    /// `OutOfMemory` alone.
    pub fn clone(&self, _alloc: Global) -> Result<Error>
        ensures ok { IfOk result (λ e. e ≡ self.now) }
        ensures err { IfErr result IsMemory }

        // `Malformed` without a section and without a message takes no memory.
        ensures none { OnErr result ((self.now.kind ≢ lint_kind.Malformed) ⊎ (self.now.section ≢ None) ⊎ (self.now.message ≢ None)) }
    {
        let copy = Clone::clone(self)?;
        Ok(copy)
    }
}

/// Returns a text that may be missing, as std's type.
fn text_of(text: &Option<Text>) -> Option<&str>
    ensures { option_copied result ≡ text.now }
{
    match text {
        Some(text) => Some(text.as_str()),
        None => None,
    }
}

/// Copies a text that may be missing. A missing one takes no memory.
fn copy_of(text: &Option<Text>) -> std::result::Result<Option<Text>, AllocError>
    ensures ok { IfOk result (λ t. t ≡ text.now) }
    ensures none { OnErr result (text.now ≢ None) }
{
    match text {
        Some(text) => {
            let copy = Clone::clone(text)?;
            Ok(Some(copy))
        }
        None => Ok(None),
    }
}

impl Clone for Error {
    ghost is_clone = { λ a b. b ≡ a };

    // `Malformed` without a section and without a message takes no memory.
    fn clone(&self) -> std::result::Result<Error, AllocError>
        ensures ok { IfOk result (λ e. e ≡ self.now) }
        ensures none { OnErr result ((self.now.kind ≢ lint_kind.Malformed) ⊎ (self.now.section ≢ None) ⊎ (self.now.message ≢ None)) }
    {
        let kind = Clone::clone(&self.kind)?;
        let section = copy_of(&self.section)?;
        let message = copy_of(&self.message)?;
        Ok(Error {
            kind,
            section,
            message,
        })
    }
}

impl ExactClone for Error {
    ghost exact = { λ x y e. e };
}

impl ExactEq for Error {
    ghost use Rattle.rustsec_advisory.specs.EqualityLaws.{lint_error_decides};

    ghost decides = { lint_error_decides };
}

/// Writes the section of a lint error.
fn write_section<W: fmt::Write>(f: &mut fmt::Formatter<W>, section: &Option<Text>) -> fmt::Result
    ensures { DisplaysOnOk W.write_str_gives f.old result (Some (section_text section.now)) f.new }
{
    match section {
        Some(section) => write!(f, " in [{section}]"),
        None => f.write_str(" in toplevel"),
    }
}

/// Writes a message, if any.
fn write_message<W: fmt::Write>(f: &mut fmt::Formatter<W>, message: &Option<Text>) -> fmt::Result
    ensures { DisplaysOnOk W.write_str_gives f.old result (Some (message_text message.now)) f.new }
{
    match message {
        Some(message) => write!(f, ": {message}"),
        None => Ok(()),
    }
}

impl fmt::Display for Error {
    ghost output = { λ e. Some (lint_error_text e) };

    fn fmt<W: fmt::Write>(&self, f: &mut fmt::Formatter<W>) -> fmt::Result {
        fmt::Display::fmt(&self.kind, f)?;
        write_section(f, &self.section)?;
        write_message(f, &self.message)
    }
}

/// An advisory and its lint errors.
#[derive(Debug)]
pub struct Linter {
    advisory: Advisory,
    errors: Items<Error>,
}

/// Hand-written: a derived `Drop` is proved again, field by field, at every exit of every owner.
impl Drop for Linter {
    fn drop(self) {
        let Linter {
            advisory: _,
            errors: _,
        } = self;
    }
}

impl Linter {
    /// Parses an advisory and finds its lint errors. `draft` is whether its file is a draft's, if that is known.
    ///
    /// # Errors
    ///
    /// `Parse` if the text is not an advisory; else `OutOfMemory`.
    pub fn lint_string(alloc: Global, text: &str, draft: Option<bool>) -> Result<Linter>
        ensures ok { IfOk result (λ l. Lints text.now draft l.advisory l.errors) }
        ensures only { IfOk result (λ l. (b : given.Advisory) (fs : List LintError)
            → Lints text.now draft b fs → (b ≡ l.advisory) × (fs ≡ l.errors)) }
        // A key is called unknown exactly if no reader asks for it.
        ensures keys { IfOk result (λ l. AreKeysKnown draft l.advisory) }
        // The bytes of the keys rise, at the top and in each section: this is the order of the lint errors.
        ensures ordered { IfOk result (λ l. (document : Members) → IsAdvisoryWith text.now document l.advisory → DocumentRises document) }
        ensures err { IfErr result (IsRefusal failure.Parse ((a : given.Advisory) → ¬ IsAdvisory text.now a)) }
    {
        let (advisory, document) = advisory::read(alloc, text)?;
        let errors = lint_rules::of_document(alloc, draft, &advisory, &document)?;
        Ok(Linter { advisory, errors })
    }

    /// Returns the text of a Markdown file at a path of any folders.
    ///
    /// # Errors
    ///
    /// `Parse` where the path is not a Markdown file's; then `Io` where the file cannot be read or is not
    /// UTF-8; else `OutOfMemory`.
    pub fn file_text_with<F: Folders>(alloc: Global, folders: &mut F, path: &str) -> Result<Text>
        ensures ok { IfOk result (λ text. (is_markdown path.now ≡ true) × (F.allowed folders.old).reads path.now (Some text)) }
        ensures err { IfErr result (IsNoText (F.allowed folders.old) path.now) }
        ensures same { AllowSame (F.allowed folders.old) (F.allowed folders.new) }
        ensures names { IfErr result (λ e. F.refuses folders.old path.now e ⊎ IsOfFile path.now e) }
        ensures opened { IfOk result F.opened }
    {
        if !FilePath::of(path).is_markdown() {
            let other = text_error(alloc, "not a Markdown file", path, "the extension `md`");
            return Err(file_error(alloc, path, &other));
        }
        folders.read(alloc, path)
    }

    /// Lints the text of the file at a path, as `lint_string`. It is a draft's where its path says so.
    fn of_file(alloc: Global, path: &str, text: &str) -> Result<Linter>
        ensures ok { IfOk result (λ l. Lints text.now (Some (is_draft path.now)) l.advisory l.errors) }
        ensures err { IfErr result (IsTextRefusal text.now) }
        ensures names { IfErr result (IsOfFile path.now) }
    {
        match Linter::lint_string(alloc, text, Some(FilePath::of(path).is_draft())) {
            Ok(linter) => Ok(linter),
            Err(e) => Err(file_error(alloc, path, &e)),
        }
    }

    /// Lints the file at a path of any folders, as `lint_string` does its text. It is a draft's where its path says so.
    ///
    /// # Errors
    ///
    /// As `file_text_with`; then as `lint_string`. The message of a refused text names the path, its cause says the rest.
    pub fn lint_file_with<F: Folders>(alloc: Global, folders: &mut F, path: &str) -> Result<Linter>
        ensures ok { IfOk result (λ l. AreLintsAt (F.allowed folders.old) path.now l.advisory l.errors) }
        ensures err { IfErr result (IsLintRefusal (F.allowed folders.old) path.now) }
        ensures same { AllowSame (F.allowed folders.old) (F.allowed folders.new) }
        ensures names { IfErr result (λ e. F.refuses folders.old path.now e ⊎ IsOfFile path.now e) }
        ensures opened { MatchResult result (λ l. AreLintsAt (read_from F.opened (F.allowed folders.old)) path.now l.advisory l.errors) (IsLintRefusal (read_from F.opened (F.allowed folders.old)) path.now) }
    {
        let text = Linter::file_text_with(alloc, folders, path)?;
        Linter::of_file(alloc, path, text.as_str())
    }

    /// Lints the file at a path of the disk, as `lint_file_with`.
    ///
    /// # Errors
    ///
    /// As `lint_file_with`. Every message but that of out of memory names the path.
    pub fn lint_file<R: Files>(rt: &R, alloc: Global, path: &str) -> Result<Linter>
        ensures ok { IfOk result (λ l. AreLintsAt real_folders path.now l.advisory l.errors) }
        ensures err { IfErr result (IsLintRefusal real_folders path.now) }
        ensures names { IfErr result (NamesFile path.now) }
        ensures opened { MatchResult result (λ l. AreLintsAt (real_files R.File.remaining) path.now l.advisory l.errors) (IsLintRefusal (real_files R.File.remaining) path.now) }
    {
        Linter::lint_file_with(alloc, &mut RealFolders::new(rt), path)
    }

    /// Returns the advisory.
    pub fn advisory(&self) -> &Advisory
        ensures { result.now ≡ self.now.advisory }
    {
        &self.advisory
    }

    /// Returns its lint errors, in the order of the document's keys.
    pub fn errors(&self) -> &[Error]
        ensures { result.now ≡ self.now.errors }
    {
        self.errors.as_slice()
    }
}
