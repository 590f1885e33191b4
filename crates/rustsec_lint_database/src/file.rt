//! The remarks on one file.

ghost use Rattle.std.specs.Prelude.{◌≡◌, ◌++◌, ◌≢◌, IfOk, OnOk, map};
ghost use Rattle.rustsec_files.specs.Allowed.{AllowSame};
ghost use Rattle.rustsec_advisory.specs.LintErrors.{LintError};
ghost use Rattle.rustsec_advisory.specs.declared.advisory.Advisory as given;
ghost use Rattle.rustsec_values.specs.declared.error.ErrorKind.TheVariants as failure;
ghost use Rattle.rustsec_lint_database.specs.Placement.{HasNone};
ghost use Rattle.rustsec_lint_database.specs.Files.{IsLintAt, IsLintOf, lint_remark, of_advisory, of_refusal, own_id, remarks_with};

use crate::messages::{Source, words_of};
use crate::placement::push_placement;
use crate::remark::{Remark, RemarkKind, push_remark};
use crate::upstream::push_upstream;
use rustsec_advisory::Advisory;
use rustsec_advisory::linter::{self, Linter};
use rustsec_files::Folders;
use rustsec_files::path::FilePath;
use rustsec_texts::Id;
use rustsec_values::{Error, ErrorKind, Items, Text, exact_copy};
use std::alloc::{AllocError, Global};

/// A file with its remarks.
#[derive(Debug, Drop)]
pub struct FileLint {
    /// Its path.
    pub path: Text,
    /// The ID of its advisory, unless it is refused or the ID is the placeholder.
    pub id: Option<Id>,
    /// The remarks on it.
    pub remarks: Items<Remark>,
}

/// Appends a remark for each lint error.
fn push_lints(
    alloc: Global,
    remarks: &mut Items<Remark>,
    errors: &[linter::Error],
) -> Result<(), AllocError>
    ensures { OnOk result (remarks.new ≡ remarks.old ++ map lint_remark errors.now) }
{
    for error in errors {
        let text = error.to_string(alloc)?;
        push_remark(remarks, RemarkKind::Lint, text)?;
    }
    Ok(())
}

/// Returns the remarks on the file of an advisory.
fn remarks_of(
    alloc: Global,
    file: &FilePath<'_>,
    linter: &Linter,
) -> Result<Items<Remark>, AllocError>
    ensures { IfOk result (λ rs. rs ≡ remarks_with file.now.path.now linter.now.advisory linter.now.errors) }
{
    let mut remarks = Items::new(alloc);
    let advisory = linter.advisory();
    push_lints(alloc, &mut remarks, linter.errors())?;
    push_placement(alloc, &mut remarks, file, advisory)?;
    push_upstream(alloc, &mut remarks, advisory)?;
    Ok(remarks)
}

/// Returns the ID of an advisory, unless it is the placeholder.
fn own_id(advisory: &Advisory) -> Result<Option<Id>, AllocError>
    ensures { IfOk result (λ o. o ≡ own_id advisory.now) }
{
    let id = &advisory.metadata.id;
    if id.is_placeholder() {
        return Ok(None);
    }
    let copy = exact_copy(id)?;
    Ok(Some(copy))
}

/// Returns the file of an advisory with its remarks.
fn of_advisory(alloc: Global, file: &FilePath<'_>, linter: &Linter) -> Result<FileLint, AllocError>
    ensures { IfOk result (λ f. f ≡ of_advisory file.now.path.now linter.now.advisory linter.now.errors) }
{
    let remarks = remarks_of(alloc, file, linter)?;
    let id = own_id(linter.advisory())?;
    let path = Text::from_str(alloc, file.path)?;
    Ok(FileLint { path, id, remarks })
}

/// Returns the remarks on a file that is refused. Out of memory is passed on as an error.
fn of_refusal(alloc: Global, path: &str, error: &Error) -> Result<FileLint, AllocError>
    ensures { IfOk result (λ f. (error.now.kind ≢ failure.OutOfMemory) × (f ≡ of_refusal path.now error.now.kind)) }
{
    let kind = error.kind();
    if kind == ErrorKind::OutOfMemory {
        return Err(AllocError);
    }
    let mut remarks = Items::new(alloc);
    let text = format!(in alloc; "refused: {kind}")?;
    push_remark(&mut remarks, RemarkKind::Refused, text)?;
    let path = Text::from_str(alloc, path)?;
    Ok(FileLint {
        path,
        id: None,
        remarks,
    })
}

/// Notes on a file for a person. No contract mentions them.
#[derive(Debug, Drop)]
pub struct FileNotes {
    /// Why the file was refused, if it was.
    pub refusal: Option<Error>,
    /// Words on the advisory, with their lines: the first lint errors, the other remarks, and the requirements that
    /// Cargo's matching reads differently.
    pub words: Items<Text>,
}

/// A file with its remarks, and the notes on it.
#[derive(Debug, Drop)]
pub struct Linted {
    /// The file with its remarks.
    pub lint: FileLint,
    /// The notes.
    pub notes: FileNotes,
    /// The text that `lint_file` read, if any.
    pub text: Option<Text>,
}

/// Returns the remarks on a file that is refused, and why.
fn refused(alloc: Global, path: &str, error: Error) -> Result<Linted, AllocError>
    ensures { IfOk result (λ r. (error.kind ≢ failure.OutOfMemory) × (r.lint ≡ of_refusal path.now error.kind)) }
{
    let lint = of_refusal(alloc, path, &error)?;
    let notes = FileNotes {
        refusal: Some(error),
        words: Items::new(alloc),
    };
    Ok(Linted {
        lint,
        notes,
        text: None,
    })
}

/// Returns the remarks on the file of an advisory with this text, and the notes on it.
fn accepted(
    alloc: Global,
    file: &FilePath<'_>,
    text: &str,
    linter: &Linter,
) -> Result<Linted, AllocError>
    ensures { IfOk result (λ r. r.lint ≡ of_advisory file.now.path.now linter.now.advisory linter.now.errors) }
{
    let lint = of_advisory(alloc, file, linter)?;
    let source = Source { file, text, linter };
    let notes = FileNotes {
        refusal: None,
        words: words_of(alloc, source, lint.remarks.as_slice())?,
    };
    Ok(Linted {
        lint,
        notes,
        text: None,
    })
}

/// Lints the text of a file: finds its lint errors or that it is not an advisory, whether its path fits the advisory,
/// and what the Rust crate refuses. A refusal is part of the answer; its error is there for a message.
///
/// # Errors
///
/// Out of memory.
#[tactic(auto, using(crate::proofs::Placed::has_none))]
pub fn lint_source(alloc: Global, path: &str, text: &str) -> Result<Linted, AllocError>
    ensures ok { IfOk result (λ r. IsLintOf path.now text.now r.lint) }

    // The place of the file has no remark exactly if loading a database accepts it.
    ensures placed { (a : given.Advisory) → HasNone path.now a }
{
    let file = FilePath::of(path);
    match Linter::lint_string(alloc, text, Some(file.is_draft())) {
        Ok(linter) => accepted(alloc, &file, text, &linter),
        Err(error) => refused(alloc, path, error),
    }
}

/// Reads the file at a path of any folders, and lints it as `lint_source` does. A file that cannot be read is part of
/// the answer too.
///
/// # Errors
///
/// Out of memory.
pub fn lint_file<F: Folders>(
    alloc: Global,
    folders: &mut F,
    path: &str,
) -> Result<Linted, AllocError>
    ensures ok { IfOk result (λ r. IsLintAt (F.allowed folders.old) path.now r.lint) }
    ensures same { AllowSame (F.allowed folders.old) (F.allowed folders.new) }
{
    match folders.read(alloc, path) {
        Ok(text) => {
            let mut linted = lint_source(alloc, path, text.as_str())?;
            linted.text = Some(text);
            Ok(linted)
        }
        Err(error) => refused(alloc, path, error),
    }
}
