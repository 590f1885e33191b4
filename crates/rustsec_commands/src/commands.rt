//! Carries out the command that the words name.

ghost use Rattle.rustsec_commands.specs.declared.fault.Fault.TheVariants as fault;
ghost use Rattle.std.specs.Prelude.{◌≡◌, ◌≢◌, IfErr, IfOk, false, map};
ghost use Rattle.std.specs.Io.KnownBytes.{Appends, Keeps};
ghost use Rattle.rustsec_files.specs.Allowed.{AllowSame, AnswersOnce, real_folders};
ghost use Rattle.rustsec_commands.specs.Commands.{Carries, CarriesOut, HaveOneOutput, IsOutputOf, command_view, reads_input, words_read_input};

use crate::args::{Command, command_of};
use crate::command::{affected, audit, lint, osv, ranges, report};
use crate::error_output::misuse;
use crate::fault::Fault;
use crate::output::{Output, usage_output};
use rustsec_files::{Folders, RealFolders};
use std::alloc::Global;
use std::io::{self, Read, Write};
use std::rt::Files;

/// Makes the output of a command.
fn command_output<F: Folders, R: Read>(
    alloc: Global,
    folders: &mut F,
    command: Command<'_>,
    input: &mut R,
) -> Result<Output, Fault>
    ensures ok { IfOk result (IsOutputOf (F.allowed folders.old) (command_view command.entry) (R.remaining input.old)) }
    ensures unread { reads_input (command_view command.entry) ≡ false → R.remaining input.new ≡ R.remaining input.old }
    ensures same { AllowSame (F.allowed folders.old) (F.allowed folders.new) }
{
    match command {
        Command::Affected => affected::reader_output(alloc, input),
        Command::Ranges => ranges::reader_output(alloc, input),
        Command::Lint(path) => Ok(lint::lint_output(alloc, folders, path)?),
        Command::Osv(path, modified) => Ok(osv::osv_output(alloc, folders, path, modified)?),
        Command::Report(root, lock) => Ok(report::report(alloc, folders, root, lock)?),
        Command::Audit(root, lock, options) => {
            Ok(audit::audit(alloc, folders, root, lock, options)?)
        }
        Command::Unknown(words) => Ok(usage_output(alloc, misuse::of_words(alloc, words).ok())?),
    }
}

/// Makes the output of a command, writes its text, and returns the output.
fn carry_out<F: Folders, R: Read, W: Write>(
    alloc: Global,
    folders: &mut F,
    command: Command<'_>,
    input: &mut R,
    output: &mut W,
) -> Result<Output, Fault>
    ensures ok { IfOk result (IsOutputOf (F.allowed folders.old) (command_view command.entry) (R.remaining input.old)) }
    ensures text { IfOk result (λ o. Appends (W.contents output.old) (W.contents output.new) o.text) }
    ensures unread { reads_input (command_view command.entry) ≡ false → R.remaining input.new ≡ R.remaining input.old }
    ensures kept { IfErr result (λ e. e ≢ fault.Write → Keeps (W.contents output.old) (W.contents output.new)) }
    ensures same { AllowSame (F.allowed folders.old) (F.allowed folders.new) }
{
    let made = command_output(alloc, folders, command, input)?;
    made.write(output)?;
    Ok(made)
}

/// Carries out the command that the words name, and returns its status:
///
/// - `affected`: as `answer`;
/// - `ranges`: as `answer_ranges`;
/// - `lint` and a path: writes a line for each lint error of the advisory in that file; status 1 if it has
///   a lint error, else 0. A refusal of the file gives `refused: KIND`, status 2. The input is not read;
/// - `osv`, a path and a time: writes the tree of the document of the advisory in that file, as changed at
///   that time, on one line; status 0. A refusal of the file or of the export is answered as under `lint`.
///   The input is not read;
/// - `report`, a root and the path of a lockfile: writes the tree of the report on the lockfile by the
///   database under the root, on one line; status 1 if vulnerabilities were found, else 0. A refusal of the
///   database or of the lockfile is answered as under `lint`. The input is not read;
/// - `audit`, a root, the path of a lockfile and options: writes the same report as `write_audit` does.
///   The options are `--deny-warnings`, and `--ignore` with the ID after it, in any order and repeated;
///   other words give the usage line, status 2. An ID that is refused is answered before the database is
///   opened. The input is not read;
/// - any other words: writes the usage line, status 2.
///
/// All files are read through `folders`. After the output a note for a person is written to `notes`: why
/// something is refused, what helps against what `audit` found, how the program is used, or what failed.
/// The note's wording is unspecified. The note is lost if it cannot be written or memory for it is refused.
///
/// # Errors
///
/// `Memory` or `Read`, with nothing written; or `Write`, after which it is unspecified how much was
/// written.
pub fn run_over<F: Folders, R: Read, W: Write, N: Write>(
    folders: &mut F,
    alloc: Global,
    words: &[&str],
    input: &mut R,
    output: &mut W,
    notes: &mut N,
) -> Result<u8, Fault>
    ensures carries { IfOk result (λ s. Carries (F.allowed folders.old) (map (λ w. w.now) words.now) (R.remaining input.old) s
        (W.contents output.old) (W.contents output.new)) }
    ensures unread { words_read_input (map (λ w. w.now) words.now) ≡ false → R.remaining input.new ≡ R.remaining input.old }
    ensures kept { IfErr result (λ e. e ≢ fault.Write → Keeps (W.contents output.old) (W.contents output.new)) }

    // If each path has one answer, there is no other output and no other status.
    ensures once { AnswersOnce (F.allowed folders.old) → HaveOneOutput (F.allowed folders.old) (map (λ w. w.now) words.now) (R.remaining input.old) }
    ensures same { AllowSame (F.allowed folders.old) (F.allowed folders.new) }
{
    match carry_out(alloc, folders, command_of(words), input, output) {
        Ok(made) => {
            made.write_note(notes);
            Ok(made.status())
        }
        Err(fault) => {
            fault.write_note(notes);
            Err(fault)
        }
    }
}

/// Carries out the command that the words name as `run_over` does, over the folders of the disk.
///
/// # Errors
///
/// As `run_over`.
pub fn run_with_notes<T: Files + AllocGlobal, R: Read, W: Write, N: Write>(
    rt: &T,
    words: &[&str],
    input: &mut R,
    output: &mut W,
    notes: &mut N,
) -> Result<u8, Fault>
    ensures carries { CarriesOut real_folders (map (λ w. w.now) words.now) result (R.remaining input.old) (R.remaining input.new)
        (W.contents output.old) (W.contents output.new) }
{
    let mut folders = RealFolders::new(rt);
    run_over(&mut folders, rt.alloc(), words, input, output, notes)
}

/// Carries out the command that the words name as `run_with_notes` does, without the note.
///
/// # Errors
///
/// As `run_over`.
pub fn run<T: Files + AllocGlobal, R: Read, W: Write>(
    rt: &T,
    words: &[&str],
    input: &mut R,
    output: &mut W,
) -> Result<u8, Fault>
    ensures carries { CarriesOut real_folders (map (λ w. w.now) words.now) result (R.remaining input.old) (R.remaining input.new)
        (W.contents output.old) (W.contents output.new) }
{
    run_with_notes(rt, words, input, output, &mut io::sink())
}
