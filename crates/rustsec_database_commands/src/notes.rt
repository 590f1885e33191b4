//! Notes on the files of a database, for a person.

use rustsec_commands::error_output::why;
use rustsec_lint_database::{Step, Watcher};
use rustsec_values::{Error, ErrorKind, file_error, push_shown};
use std::alloc::{AllocError, Global};
use std::io::Write;

/// After how many files a line shows how far the files are linted.
const EACH: usize = 1000;

/// Appends why the file at a path is refused. The path is added, unless the kind is `Io`.
fn add_refusal(
    alloc: Global,
    note: &mut String,
    path: &str,
    error: &Error,
) -> Result<(), AllocError> {
    if error.kind() == ErrorKind::Io {
        return note.push_str(&why(alloc, error)?);
    }
    let named = file_error(alloc, path, error);
    note.push_str(&why(alloc, &named)?)
}

/// Appends a line about the file at a path.
fn add_line(note: &mut String, path: &str, words: &str) -> Result<(), AllocError> {
    note.push_str("rustsec_audit: ")?;
    push_shown(note, path)?;
    note.push_str(": ")?;
    push_shown(note, words)?;
    note.push_str("\n")
}

/// Appends the line that shows how far the files are linted.
fn add_progress(alloc: Global, note: &mut String, step: &Step<'_>) -> Result<(), AllocError> {
    let done = step.done;
    let all = step.all;
    let line = format!(in alloc; "rustsec_audit: {done} of {all} files\n")?;
    note.push_str(&line)
}

/// Returns the notes on a file.
fn notes_on(alloc: Global, step: &Step<'_>, progress: bool) -> Result<String, AllocError> {
    let mut note = String::new(alloc);
    if let Some(error) = &step.notes.refusal {
        add_refusal(alloc, &mut note, step.path, error)?;
    }
    for words in step.notes.words.as_slice() {
        add_line(&mut note, step.path, words.as_str())?;
    }
    if progress && step.done % EACH == 0 {
        add_progress(alloc, &mut note, step)?;
    }
    Ok(note)
}

/// Writes the notes on each file. A note is lost if it cannot be written or memory for it is refused.
#[derive(Drop)]
pub struct Notes<'n, N> {
    /// Where memory comes from.
    pub alloc: Global,
    /// Whether a line shows how far the files are linted.
    pub progress: bool,
    /// Where notes are written.
    pub notes: &'n mut N,
}

impl<'n, N: Write> Watcher for Notes<'n, N> {
    fn linted(&mut self, step: Step<'_>) {
        if let Ok(note) = notes_on(self.alloc, &step, self.progress) {
            let _ = self.notes.write_all(note.as_bytes());
        }
    }
}
