//! Errors that say what was found, what was expected, and where.

ghost use Rattle.std.specs.Prelude.{◌≡◌, ◌⊎◌, IfOk, string_bytes};
ghost use Rattle.rustsec_values.specs.Failure.{IsMemory, IsOfKind, IsRefusal};
ghost use Rattle.rustsec_values.specs.Refusals.{ShowsReason, ShowsText, at_place, of_file, whole_message};

use crate::beginning_of;
use crate::error::{Error, ErrorKind};
use std::alloc::{AllocError, Global};

/// The number of bytes of a refused text that its message shows.
const SHOWN: usize = 60;

/// Returns the error for a refused text. Its message says what is wrong, shows the text's first 60 bytes, cut between
/// two characters, and says what was expected.
pub fn text_error(alloc: Global, wrong: &str, found: &str, expected: &str) -> Error
    ensures kind { IsOfKind ErrorKind.Parse result }
    ensures shows { IsRefusal ErrorKind.Parse (ShowsText wrong.now found.now expected.now result) result }
{
    let shown = beginning_of(found, SHOWN);
    match format!(in alloc; "{wrong} `{shown}`, expected {expected}") {
        Ok(message) => Error::new(alloc, ErrorKind::Parse, &message),
        Err(refused) => Error::from(refused),
    }
}

/// Returns the error for a refused text, as `text_error` does, with a parser's reason as its cause.
pub fn text_error_with_cause(
    alloc: Global,
    wrong: &str,
    found: &str,
    expected: &str,
    why: &str,
) -> Error
    ensures kind { IsOfKind ErrorKind.Parse result }
    ensures shows { IsRefusal ErrorKind.Parse (ShowsReason why.now wrong.now found.now expected.now result) result }
{
    let refusal = text_error(alloc, wrong, found, expected);
    if refusal.kind() == ErrorKind::OutOfMemory {
        return refusal;
    }
    Error::with_source(alloc, ErrorKind::Parse, refusal.message(), why)
}

/// Adds the place of an error before its message. Out of memory stays as it is.
pub fn with_place(alloc: Global, place: &str, error: &Error) -> Error
    ensures kind { IsOfKind error.now.kind result }
    ensures memory { IsMemory error.now → IsMemory result }
    ensures message { (result ≡ at_place place.now error.now) ⊎ IsMemory result }
{
    if error.kind() == ErrorKind::OutOfMemory {
        return Error::from(AllocError);
    }
    let message = error.message();
    match format!(in alloc; "{place}: {message}") {
        Ok(message) => Error::with_cause(alloc, error.kind(), &message, error.cause()),
        Err(refused) => Error::from(refused),
    }
}

/// Returns a message, followed by the cause if the error has one.
fn whole_message(alloc: Global, error: &Error) -> std::result::Result<String, AllocError>
    ensures { IfOk result (λ s. string_bytes s ≡ whole_message error.now) }
{
    let message = error.message();
    match error.cause() {
        Some(cause) => format!(in alloc; "{message}: {cause}"),
        None => String::from_str(alloc, message),
    }
}

/// Returns the error of a file from the error of its text: its message names the path, and its cause is the message
/// and the cause of the given error. Out of memory stays as it is.
pub fn file_error(alloc: Global, path: &str, error: &Error) -> Error
    ensures kind { IsOfKind error.now.kind result }
    ensures memory { IsMemory error.now → IsMemory result }
    ensures message { (result ≡ of_file path.now error.now) ⊎ IsMemory result }
{
    if error.kind() == ErrorKind::OutOfMemory {
        return Error::from(AllocError);
    }
    match (
        format!(in alloc; "error parsing {path}"),
        whole_message(alloc, error),
    ) {
        (Ok(message), Ok(cause)) => Error::with_source(alloc, error.kind(), &message, &cause),
        _ => Error::from(AllocError),
    }
}
