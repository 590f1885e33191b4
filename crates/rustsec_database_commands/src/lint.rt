//! The command `lint-database`.

ghost use Rattle.std.specs.Prelude.{◌≡◌, ◌≢◌, IfErr, IfOk, List, None, Some, map, string_bytes};
ghost use Rattle.rustsec_files.specs.Allowed.{AllowSame};
ghost use Rattle.rustsec_files.specs.Listed.{Paths};
ghost use Rattle.rustsec_lint_database.specs.Entries.{AreEntries};
ghost use Rattle.rustsec_lint_database.specs.declared.database.Entry as linted;
ghost use Rattle.rustsec_values.specs.Failure.{IsRefusal};
ghost use Rattle.rustsec_values.specs.declared.error.ErrorKind.TheVariants as failure;
ghost use Rattle.rustsec_commands.specs.Output.{refused_as};
ghost use Rattle.rustsec_database_commands.specs.Lint.{IsLintOutput, IsLintedBy, counts_in, entries_output, entries_text};
ghost use Rattle.rustsec_database_commands.specs.Steps.{asked_view};

use crate::form::{Form, form_named};
use crate::misuse;
use crate::notes::Notes;
use crate::options::{LintInput, asked_of};
use rustsec_commands::error_output::refusal_output;
use rustsec_commands::output::{Output, usage_output};
use rustsec_files::Folders;
use rustsec_lint_database::{Counts, Entry, counts_of, lint_database};
use rustsec_lint_output::{lint_line, lint_text};
use rustsec_values::{ErrorKind, Result};
use std::alloc::{AllocError, Global};
use std::io::Write;

/// Returns how many files, faults and notes there are.
fn counts_in(upstream: bool, entries: &[Entry]) -> std::result::Result<Counts, AllocError>
    ensures { IfOk result (λ c. c ≡ counts_in upstream entries.now) }
{
    let counts = counts_of(upstream, entries)?;
    Ok(counts)
}

/// Returns the text about the files of a database with these numbers, in a form.
fn text_of(
    alloc: Global,
    form: Form,
    upstream: bool,
    counts: Counts,
    entries: &[Entry],
) -> std::result::Result<String, AllocError>
    requires { counts ≡ counts_in upstream entries.now }
    ensures { IfOk result (λ t. string_bytes t ≡ entries_text form upstream entries.now) }
{
    match form {
        Form::Text => lint_text(alloc, counts, entries),
        Form::Json => lint_line(alloc, upstream, counts, entries),
    }
}

/// Makes the output for the files of a database, in a form.
fn entries_output(
    alloc: Global,
    form: Form,
    upstream: bool,
    entries: &[Entry],
) -> std::result::Result<Output, AllocError>
    ensures { IfOk result (λ o. o ≡ entries_output form upstream entries.now) }
{
    let counts = counts_in(upstream, entries)?;
    let text = text_of(alloc, form, upstream, counts, entries)?;
    let status = if counts.faults == 0 { 0 } else { 1 };
    Ok(Output::new(text, status))
}

/// What is asked about a database: its root, the form of the output, whether what the Rust crate refuses is a fault, and
/// whether progress is shown.
#[derive(Clone, Copy)]
struct Task<'a> {
    root: &'a str,
    form: Form,
    upstream: bool,
    progress: bool,
}

/// Lints the files under a root, and makes the output for them.
fn root_output<F: Folders, N: Write>(
    alloc: Global,
    folders: &mut F,
    task: Task<'_>,
    notes: &mut N,
) -> Result<Output>
    ensures ok { IfOk result (λ o. (entries : List linted.Entry) × (AreEntries (F.allowed folders.old) task.entry.root.now entries
        × (o ≡ entries_output task.entry.form task.entry.upstream entries))) }
    ensures err { IfErr result (IsRefusal ErrorKind.Io (Paths (F.allowed folders.old) task.entry.root.now None)) }
    ensures same { AllowSame (F.allowed folders.old) (F.allowed folders.new) }
{
    let mut watcher = Notes {
        alloc,
        progress: task.progress,
        notes,
    };
    let entries = lint_database(alloc, folders, task.root, &mut watcher)?;
    let output = entries_output(alloc, task.form, task.upstream, entries.as_slice())?;
    Ok(output)
}

/// Lints the files under a root as the words after it ask.
fn asked_output<F: Folders, N: Write>(
    alloc: Global,
    folders: &mut F,
    root: &str,
    asked: LintInput<'_>,
    notes: &mut N,
) -> Result<Output>
    ensures ok { IfOk result (IsLintedBy (F.allowed folders.old) root.now (Some (asked_view asked.entry))) }
    ensures err { IfErr result (λ e. e.kind ≢ failure.OutOfMemory
        → IsLintedBy (F.allowed folders.old) root.now (Some (asked_view asked.entry)) (refused_as e.kind)) }
    ensures same { AllowSame (F.allowed folders.old) (F.allowed folders.new) }
{
    let form = match form_named(alloc, asked.format) {
        Ok(form) => form,
        Err(error) => return Err(error),
    };
    let task = Task {
        root,
        form,
        upstream: asked.upstream,
        progress: asked.progress,
    };
    root_output(alloc, folders, task, notes)
}

/// Makes the output of `lint-database` for a root and the words after it. Notes on each file are written to `notes` when
/// it is linted.
pub fn lint<F: Folders, N: Write>(
    alloc: Global,
    folders: &mut F,
    root: &str,
    words: &[&str],
    notes: &mut N,
) -> std::result::Result<Output, AllocError>
    ensures ok { IfOk result (IsLintOutput (F.allowed folders.old) root.now (map (λ w. w.now) words.now)) }
    ensures same { AllowSame (F.allowed folders.old) (F.allowed folders.new) }
{
    let Some(asked) = asked_of(words) else {
        return usage_output(alloc, misuse::of_options(alloc, words).ok());
    };
    match asked_output(alloc, folders, root, asked, notes) {
        Ok(output) => Ok(output),
        Err(error) => refusal_output(alloc, &error),
    }
}
