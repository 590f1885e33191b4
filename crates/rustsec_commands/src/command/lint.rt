//! The command `lint`: the errors that a linter finds in an advisory's file.

ghost use Rattle.std.specs.Prelude.{◌≡◌, IfOk, flat_map, string_bytes};
ghost use Rattle.rustsec_files.specs.Allowed.{AllowSame};
ghost use Rattle.rustsec_commands.specs.command.Lint.{IsLintOutput, error_line, errors_output};

use crate::command::lint::notes::lint_note;
use crate::error_output::{file_refusal_output, refusal_output};
use crate::output::Output;
use rustsec_advisory::linter::{self, Linter};
use rustsec_files::Folders;
use rustsec_files::path::FilePath;
use std::alloc::{AllocError, Global};
use std::fmt::Write as _;

pub(crate) mod notes;
pub(crate) mod warnings;

/// Returns a line for each lint error.
fn error_lines(alloc: Global, errors: &[linter::Error]) -> Result<String, AllocError>
    ensures { IfOk result (λ t. string_bytes t ≡ flat_map error_line errors.now) }
{
    let mut text = String::new(alloc);
    for error in errors {
        writeln!(text, "{error}")?;
    }
    Ok(text)
}

/// Makes the output for the lint errors of an advisory.
fn errors_output(alloc: Global, linter: &Linter) -> Result<Output, AllocError>
    ensures { IfOk result (λ o. o ≡ errors_output linter.now.errors) }
{
    let errors = linter.errors();
    let text = error_lines(alloc, errors)?;
    let status = if errors.is_empty() { 0 } else { 1 };
    Ok(Output::new(text, status))
}

/// Makes the output for the lint errors of an advisory's text, with the note about them.
fn noted_output(alloc: Global, text: &str, linter: &Linter) -> Result<Output, AllocError>
    ensures { IfOk result (λ o. o ≡ errors_output linter.now.errors) }
{
    let output = errors_output(alloc, linter)?;
    Ok(output.with_note(lint_note(alloc, text, linter).ok()))
}

/// Makes the output of `lint` for the file at a path.
pub fn lint_output<F: Folders>(
    alloc: Global,
    folders: &mut F,
    path: &str,
) -> Result<Output, AllocError>
    ensures ok { IfOk result (IsLintOutput (F.allowed folders.old) path.now) }
    ensures same { AllowSame (F.allowed folders.old) (F.allowed folders.new) }
{
    let text = match Linter::file_text_with(alloc, folders, path) {
        Ok(text) => text,
        Err(error) => return refusal_output(alloc, &error),
    };
    match Linter::lint_string(alloc, text.as_str(), Some(FilePath::of(path).is_draft())) {
        Ok(linter) => noted_output(alloc, text.as_str(), &linter),
        Err(error) => file_refusal_output(alloc, path, &error),
    }
}
