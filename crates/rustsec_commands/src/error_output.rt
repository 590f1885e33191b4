//! The outputs for refusals, each with a note that says why.

ghost use Rattle.std.specs.Prelude.{◌≡◌, ◌≢◌, IfOk};
ghost use Rattle.rustsec_commands.specs.Output.{refused, refused_as};
ghost use Rattle.rustsec_values.specs.declared.error.ErrorKind.TheVariants as failure;

use crate::output::Output;
use rustsec_values::{Error, ErrorKind, file_error, push_shown};
use std::alloc::{AllocError, Global};

pub(crate) mod misuse;
pub(crate) mod usage;

/// Returns the note that says why something is refused, with its cause, on one line.
pub fn why(alloc: Global, error: &Error) -> Result<String, AllocError> {
    let text = error.text_with_cause(alloc)?;
    let mut note = String::from_str(alloc, "rustsec_audit: ")?;
    push_shown(&mut note, &text)?;
    note.push_str("\n")?;
    Ok(note)
}

/// Makes the output for requirements that are not accepted.
pub(crate) fn refused_output(alloc: Global, error: &Error) -> Result<Output, AllocError>
    ensures { IfOk result (λ o. o ≡ refused) }
{
    let text = String::from_str(alloc, "refused: bad parameter\n")?;
    Ok(Output::new(text, 2).with_note(why(alloc, error).ok()))
}

/// Makes the output for an error. Out of memory is passed on as an error.
pub fn refusal_output(alloc: Global, error: &Error) -> Result<Output, AllocError>
    ensures { IfOk result (λ o. (error.now.kind ≢ failure.OutOfMemory) × (o ≡ refused_as error.now.kind)) }
{
    let kind = error.kind();
    if kind == ErrorKind::OutOfMemory {
        return Err(AllocError);
    }
    let text = format!(in alloc; "refused: {kind}\n")?;
    Ok(Output::new(text, 2).with_note(why(alloc, error).ok()))
}

/// Makes the output for an error of a file, as `refusal_output` does. The path is added to the note, unless the
/// kind is `Io`.
pub(crate) fn file_refusal_output(
    alloc: Global,
    path: &str,
    error: &Error,
) -> Result<Output, AllocError>
    ensures { IfOk result (λ o. (error.now.kind ≢ failure.OutOfMemory) × (o ≡ refused_as error.now.kind)) }
{
    let output = refusal_output(alloc, error)?;
    if error.kind() == ErrorKind::Io {
        return Ok(output);
    }
    let named = file_error(alloc, path, error);
    Ok(output.with_note(why(alloc, &named).ok()))
}
