//! The errors of all crates.

ghost use Rattle.std.specs.Prelude.{◌≡◌, ◌⊎◌, Some, None, IfErr, IfOk, option_map, string_bytes};
ghost use Rattle.std.specs.Option.{option_copied};
ghost use Rattle.rustsec_values.specs.Failure.{IsMemory, IsOfKind, kind_text, out_of_memory, text_with_cause};

use crate::{ExactClone, Text};
use std::alloc::{AllocError, Global};
use std::fmt;
use std::marker::Model;

/// The result of a call that may refuse or run out of memory.
pub type Result<T> = std::result::Result<T, Error>;

/// The kind of an error.
#[derive(Clone, Copy, Debug, PartialEq, Eq)]
pub enum ErrorKind {
    /// An argument that the call does not accept.
    BadParam = 1,
    /// A file or a folder that cannot be read.
    Io = 2,
    /// What the call looked for is missing.
    NotFound = 3,
    /// A lock on the file system that was not free in time.
    LockTimeout = 4,
    /// A text that does not follow its grammar.
    Parse = 5,
    /// A fault of a registry's index.
    Registry = 6,
    /// A file at the wrong place in a database.
    Repo = 7,
    /// A version that cannot be used.
    Version = 8,
    /// Memory that was refused.
    OutOfMemory = 9,
}

impl ErrorKind {
    /// Returns the text that `Display` prints.
    pub fn text(self) -> &'static str
        ensures { result.now ≡ kind_text self }
    {
        match self {
            ErrorKind::BadParam => "bad parameter",
            ErrorKind::Io => "I/O operation failed",
            ErrorKind::NotFound => "not found",
            ErrorKind::LockTimeout => "unable to acquire filesystem lock",
            ErrorKind::Parse => "parse error",
            ErrorKind::Registry => "registry",
            ErrorKind::Repo => "git operation failed",
            ErrorKind::Version => "bad version",
            ErrorKind::OutOfMemory => "out of memory",
        }
    }
}

impl fmt::Display for ErrorKind {
    ghost output = { λ k. Some (kind_text k) };

    fn fmt<W: fmt::Write>(&self, f: &mut fmt::Formatter<W>) -> fmt::Result {
        f.write_str(self.text())
    }
}

/// An error: its kind, a message and, if it has a cause, the text of the cause.
#[derive(Clone, Debug, Drop)]
pub struct Error {
    kind: ErrorKind,
    message: Option<Text>,
    cause: Option<Text>,
}

impl Model for Error {
    ghost use Rattle.rustsec_values.specs.Failure.{Failure, or_empty};

    ghost Value = { Failure };

    ghost view = { λ e. record { kind = e.kind; message = or_empty e.message; cause = e.cause } };
}

impl Error {
    /// Returns an error with a copy of this message, or `OutOfMemory` if the copy fails.
    pub fn new(alloc: Global, kind: ErrorKind, message: &str) -> Error
        ensures { (result ≡ record { kind = kind; message = message.now; cause = None })
            ⊎ (result ≡ out_of_memory) }
    {
        match Text::from_str(alloc, message) {
            Ok(message) => Error {
                kind,
                message: Some(message),
                cause: None,
            },
            Err(refused) => Error::from(refused),
        }
    }

    /// Returns an error as `new` does, with a copy of the text of a cause.
    pub fn with_source(alloc: Global, kind: ErrorKind, message: &str, cause: &str) -> Error
        ensures { (result ≡ record { kind = kind; message = message.now; cause = Some cause.now })
            ⊎ (result ≡ out_of_memory) }
    {
        match (Text::from_str(alloc, message), Text::from_str(alloc, cause)) {
            (Ok(message), Ok(cause)) => Error {
                kind,
                message: Some(message),
                cause: Some(cause),
            },
            _ => Error::from(AllocError),
        }
    }

    /// Returns an error with this message and this cause, if any; `OutOfMemory` if a copy fails.
    pub fn with_cause(alloc: Global, kind: ErrorKind, message: &str, cause: Option<&str>) -> Error
        ensures { (result ≡ record { kind = kind; message = message.now; cause = option_copied cause.entry })
            ⊎ (result ≡ out_of_memory) }
    {
        match cause {
            Some(cause) => Error::with_source(alloc, kind, message, cause),
            None => Error::new(alloc, kind, message),
        }
    }

    /// Returns a `BadParam` error with this message, or `OutOfMemory` if the copy fails.
    pub fn bad_param(alloc: Global, message: &str) -> Error
        ensures kind { IsOfKind ErrorKind.BadParam result }
        ensures whole { (result ≡ record { kind = ErrorKind.BadParam; message = message.now; cause = None })
            ⊎ (result ≡ out_of_memory) }
    {
        Error::new(alloc, ErrorKind::BadParam, message)
    }

    /// Returns the kind.
    pub fn kind(&self) -> ErrorKind
        ensures { result ≡ self.now.kind }
    {
        self.kind
    }

    /// Returns the message, for each kind as it was given. It is empty if memory was refused: that error is
    /// `OutOfMemory` and is made without a message.
    pub fn message(&self) -> &str
        ensures { result.now ≡ self.now.message }
    {
        match &self.message {
            Some(message) => message.as_str(),
            None => "",
        }
    }

    /// Returns the text of the cause, if any.
    pub fn cause(&self) -> Option<&str>
        ensures { option_map (λ t. t.now) result ≡ self.now.cause }
    {
        self.cause.as_ref().map(|cause| cause.as_str())
    }

    /// Returns the kind, the message if it is not empty, and the cause if any, with `: ` between them: what a person
    /// is told of the error. `Display` does not print the cause.
    ///
    /// # Errors
    ///
    /// `AllocError` if memory is refused.
    pub fn text_with_cause(&self, alloc: Global) -> std::result::Result<String, AllocError>
        ensures { IfOk result (λ s. string_bytes s ≡ text_with_cause self.now) }
    {
        let mut text = String::from_str(alloc, self.kind.text())?;
        if !self.message().is_empty() {
            text.push_str(": ")?;
            text.push_str(self.message())?;
        }
        if let Some(cause) = self.cause() {
            text.push_str(": ")?;
            text.push_str(cause)?;
        }
        Ok(text)
    }

    /// Returns an equal error.
    ///
    /// # Errors
    ///
    /// `OutOfMemory` alone.
    pub fn clone(&self, _alloc: Global) -> Result<Error>
        ensures ok { IfOk result (λ e. e ≡ self.now) }
        ensures err { IfErr result IsMemory }
    {
        let copy = Clone::clone(self)?;
        Ok(copy)
    }
}

impl ExactClone for Error {
    ghost use Rattle.std.proofs.Common.{rules};

    ghost exact = { λ x y e. Prim.search rules };
}

impl From<AllocError> for Error {
    ghost use Rattle.std.specs.Prelude.{◌≡◌};
    ghost use Rattle.rustsec_values.specs.Failure.{out_of_memory};

    ghost from_gives = { λ _ e. e ≡ out_of_memory };

    /// Returns the `OutOfMemory` error, which takes no memory.
    fn from(_: AllocError) -> Error {
        Error {
            kind: ErrorKind::OutOfMemory,
            message: None,
            cause: None,
        }
    }
}

impl fmt::Display for Error {
    ghost use Rattle.std.specs.Prelude.{Some};
    ghost use Rattle.rustsec_values.specs.Failure.{failure_text};

    ghost output = { λ e. Some (failure_text e) };

    /// Writes the kind, a colon, a space and the message, also if the message is empty. `text_with_cause` returns the
    /// cause too.
    fn fmt<W: fmt::Write>(&self, f: &mut fmt::Formatter<W>) -> fmt::Result {
        f.write_str(self.kind.text())?;
        f.write_str(": ")?;
        f.write_str(self.message())
    }
}

impl std::error::Error for Error {}
