//! The output of a command: a text, a status and a note. Also the outputs for a malformed line and for words that name no command.

ghost use Rattle.rustsec_commands.specs.declared.fault.Fault.TheVariants as fault;
ghost use Rattle.std.specs.Prelude.{◌≡◌, ◌<◌, ◌^◌, ◌-◌, IfErr, IfOk, OnOk, string_bytes};
ghost use Rattle.std.specs.Io.KnownBytes.{Appends};
ghost use Rattle.rustsec_commands.specs.Output.{malformed, usage};

use crate::fault::Fault;
use crate::input::Malformed;
use rustsec_values::{push_shown, text_error};
use std::alloc::{AllocError, Global};
use std::io::Write;
use std::marker::Model;
use std::str;

/// A text, the status that goes with it, and a note for a person. No contract mentions the note.
#[derive(Drop)]
pub struct Output {
    text: String,
    status: u8,
    note: Option<String>,
}

impl Model for Output {
    ghost use Rattle.std.specs.Prelude.{string_bytes};
    ghost use Rattle.rustsec_commands.specs.Output.{Output};

    ghost Value = { Output };

    ghost view = { λ o. record { text = string_bytes o.text; status = o.status } };
}

impl Output {
    /// Returns the output of a text and a status, without a note.
    pub fn new(text: String, status: u8) -> Output
        ensures { result ≡ record { text = string_bytes text; status = status } }
    {
        Output {
            text,
            status,
            note: None,
        }
    }

    /// Returns the output with another note, or without a note if `note` is `None`.
    pub fn with_note(self, note: Option<String>) -> Output
        ensures { result ≡ self }
    {
        Output {
            text: self.text,
            status: self.status,
            note,
        }
    }

    /// Writes the note, if any. A note that cannot be written is lost.
    pub fn write_note<N: Write>(&self, notes: &mut N) {
        if let Some(note) = &self.note {
            let _ = notes.write_all(note.as_bytes());
        }
    }

    /// Returns the status.
    pub fn status(&self) -> u8
        ensures { result ≡ self.now.status }
    {
        self.status
    }

    /// Writes the whole text and nothing else, and returns the status. The only error is `Write`.
    pub fn write<W: Write>(&self, output: &mut W) -> Result<u8, Fault>
        ensures status { IfOk result (λ s. s ≡ self.now.status) }
        ensures text { OnOk result (Appends (W.contents output.old) (W.contents output.new) self.now.text) }
        ensures err { IfErr result (λ e. e ≡ fault.Write) }
    {
        match output.write_all(self.text.as_bytes()) {
            Ok(()) => Ok(self.status),
            Err(_) => Err(Fault::Write),
        }
    }

    /// Writes the whole text, and then the note. Returns the status. The only error is `Write`.
    pub fn write_with_note<W: Write, N: Write>(
        &self,
        output: &mut W,
        notes: &mut N,
    ) -> Result<u8, Fault>
        ensures status { IfOk result (λ s. s ≡ self.now.status) }
        ensures text { OnOk result (Appends (W.contents output.old) (W.contents output.new) self.now.text) }
        ensures err { IfErr result (λ e. e ≡ fault.Write) }
    {
        let status = self.write(output)?;
        self.write_note(notes);
        Ok(status)
    }
}

/// The forms that a line may have.
const LINES: &str = "`patched REQ`, `unaffected REQ`, for `affected` also `version V`, or nothing";

/// Returns the note about a malformed line.
fn line_note(alloc: Global, found: Malformed<'_>) -> Result<String, AllocError> {
    let number = found.place.saturating_add(1);
    let mut note = format!(in alloc; "rustsec_audit: line {number}: ")?;
    let text = str::from_utf8(found.line).unwrap_or("bytes that are not UTF-8");
    push_shown(
        &mut note,
        text_error(alloc, "malformed", text, LINES).message(),
    )?;
    note.push('\n')?;
    Ok(note)
}

/// Makes the output for an input with a malformed line. Its place is counted from 0, and printed from 1.
pub(crate) fn malformed_output(alloc: Global, found: Malformed<'_>) -> Result<Output, AllocError>
    requires { found.place < 2 ^ 64 - 1 }
    ensures { IfOk result (λ o. o ≡ malformed found.entry.place) }
{
    let number = found.place + 1;
    let text = format!(in alloc; "line {number}: malformed\n")?;
    Ok(Output::new(text, 2).with_note(line_note(alloc, found).ok()))
}

/// Makes the output for words that do not name a command, with this note.
pub fn usage_output(alloc: Global, note: Option<String>) -> Result<Output, AllocError>
    ensures { IfOk result (λ o. o ≡ usage) }
{
    let text = String::from_str(alloc, "usage: rustsec_audit COMMAND\n")?;
    Ok(Output::new(text, 2).with_note(note))
}
