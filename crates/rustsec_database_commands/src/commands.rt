//! Carries out the command that the words name.

ghost use Rattle.rustsec_commands.specs.declared.fault.Fault.TheVariants as fault;
ghost use Rattle.std.specs.Prelude.{◌≡◌, ◌≢◌, IfErr, IfOk, false, map};
ghost use Rattle.std.specs.Io.KnownBytes.{Keeps};
ghost use Rattle.rustsec_files.specs.Allowed.{AllowSame, AnswersOnce, real_folders};
ghost use Rattle.rustsec_database_commands.specs.Commands.{Carries, HaveOneOutput, IsBrokenOff, IsOwnOutput, command_view, words_read_input};
ghost use Rattle.rustsec_database_commands.specs.Words.{command_of};

use crate::command::{Command, command_of};
use crate::lint::lint;
use crate::misuse;
use crate::osv_database::osv_database;
use crate::osv_query::query_osv;
use crate::stats::stats;
use rustsec_commands::output::{Output, usage_output};
use rustsec_commands::{Fault, unlisted_note};
use rustsec_files::{Folders, RealFolders};
use rustsec_program::finish;
use std::alloc::{AllocError, Global};
use std::io::{Read, Write};
use std::rt::Files;

/// Warns if the folder `rust` of a command's database cannot be listed. The warning is lost if it cannot be written or
/// memory for it is refused.
fn warn_unlisted<F: Folders, N: Write>(
    alloc: Global,
    folders: &mut F,
    command: Command<'_>,
    notes: &mut N,
)
    ensures same { AllowSame (F.allowed folders.old) (F.allowed folders.new) }
{
    let Some(root) = command.root() else {
        return;
    };
    if let Ok(note) = unlisted_note(alloc, folders, root) {
        let _ = notes.write_all(note.as_bytes());
    }
}

/// Makes the output of a command of this crate.
fn command_output<F: Folders, N: Write>(
    alloc: Global,
    folders: &mut F,
    command: Command<'_>,
    notes: &mut N,
) -> Result<Output, AllocError>
    ensures ok { IfOk result (IsOwnOutput (F.allowed folders.old) (command_view command.entry)) }
    ensures same { AllowSame (F.allowed folders.old) (F.allowed folders.new) }
{
    match command {
        Command::LintDatabase(root, options) => lint(alloc, folders, root, options, notes),
        Command::Stats(root, options) => stats(alloc, folders, root, options),
        Command::OsvDatabase(root, modified, options) => {
            osv_database(alloc, folders, root, modified, options)
        }
        Command::QueryOsv(question) => query_osv(alloc, folders, question),
        Command::Short => usage_output(alloc, misuse::of_short(alloc).ok()),
    }
}

/// Makes the output of a command of this crate, and warns of a folder `rust` that cannot be listed unless the command is
/// refused.
fn noted_output<F: Folders, N: Write>(
    alloc: Global,
    folders: &mut F,
    command: Command<'_>,
    notes: &mut N,
) -> Result<Output, AllocError>
    ensures ok { IfOk result (IsOwnOutput (F.allowed folders.old) (command_view command.entry)) }
    ensures same { AllowSame (F.allowed folders.old) (F.allowed folders.new) }
{
    let made = command_output(alloc, folders, command, notes)?;
    if made.status() < 2 {
        warn_unlisted(alloc, folders, command, notes);
    }
    Ok(made)
}

/// Carries out the command that the words name, and returns its status:
///
/// - `lint-database`, a root and options: lints all files of the database under the root, and writes what is wrong: a
///   line for each remark on a file and each ID that occurs twice, and a line of numbers; or the same as one line of
///   JSON. Status 1 if there is a fault, else 0. A folder that cannot be listed gives `refused: I/O operation failed`,
///   status 2, and a form that is unknown `refused: parse error`. The input is not read;
/// - `stats`, a root and maybe `--format` with `text` or `json`: writes how many advisories the database under the root
///   has, by collection, year, kind, category, severity and withdrawal. Status 0. A form that is unknown gives
///   `refused: parse error`, status 2, and so does the refusal of the database, by its kind. The input is not read;
/// - `osv-database`, a root, the time of the last change and options: writes the OSV document of each advisory of the
///   database under the root, a line of JSON each. Status 1 if an advisory has no document, else 0. The refusal of the
///   database is answered as under `stats`. The input is not read;
/// - `query-osv`, a root, a name and a version: writes a line of JSON, an object whose list `vulns` has the OSV documents
///   of the advisories that affect the version. Status 0. A text that is not a name or a version gives
///   `refused: parse error`, an advisory without a document `refused: bad parameter`, and the refusal of the database its
///   kind, each with status 2. The input is not read;
/// - one of these with too few words, or with a word that is not an option: the usage line, status 2;
/// - any other words: as `rustsec_program::run_over`.
///
/// All files are read through `folders`. Notes for a person are written to `notes`: by `lint-database` after each file,
/// why it is refused, the lines of its remarks and which of its requirements Cargo's matching reads differently, and with
/// `--progress` after each 1,000 files; by these four commands, that the folder `rust` cannot be listed. Their wording is
/// unspecified. A note is lost if it cannot be written or memory for it is refused.
///
/// # Errors
///
/// `Memory` or `Read`, with nothing written, except that `check-many` has written the lines of the first lockfiles before
/// `Memory`; or `Write`, after which it is unspecified how much was written.
#[tactic(auto, using(crate::proofs::Once::one_output))]
pub fn run_over<F: Folders, R: Read, W: Write, N: Write>(
    folders: &mut F,
    alloc: Global,
    words: &[&str],
    input: &mut R,
    output: &mut W,
    notes: &mut N,
) -> Result<u8, Fault>
    ensures carries { IfOk result (λ s. Carries (F.allowed folders.old) (map (λ w. w.now) words.now) (R.remaining input.old) s
        (W.contents output.old) (W.contents output.new)) }

    // If each path has one answer, there is one output.
    ensures once { AnswersOnce (F.allowed folders.old) → HaveOneOutput (F.allowed folders.old) (map (λ w. w.now) words.now) (R.remaining input.old) }
    ensures unread { words_read_input (map (λ w. w.now) words.now) ≡ false → R.remaining input.new ≡ R.remaining input.old }

    // A command that breaks off has written nothing, except `check-many`.
    ensures kept { IfErr result (λ e. e ≢ fault.Write → IsBrokenOff (F.allowed folders.old) (map (λ w. w.now) words.now) (command_of (map (λ w. w.now) words.now))
        (R.remaining input.old) (W.contents output.old) (W.contents output.new)) }
    ensures unread_kept { IfErr result (λ e. e ≡ fault.Read → Keeps (W.contents output.old) (W.contents output.new)) }
    ensures same { AllowSame (F.allowed folders.old) (F.allowed folders.new) }
{
    let command = match command_of(words) {
        Some(command) => command,
        None => return rustsec_program::run_over(folders, alloc, words, input, output, notes),
    };
    let made = noted_output(alloc, folders, command, notes);
    finish(made, output, notes)
}

/// Carries out the command that the words name as `run_over` does, over the folders of the disk.
///
/// # Errors
///
/// As `run_over`.
pub fn run_with_notes<T: Files + AllocGlobal, R: Read, W: Write, N: Write>(
    rt: &T,
    words: &[&str],
    input: &mut R,
    output: &mut W,
    notes: &mut N,
) -> Result<u8, Fault>
    ensures carries { IfOk result (λ s. Carries real_folders (map (λ w. w.now) words.now) (R.remaining input.old) s
        (W.contents output.old) (W.contents output.new)) }
    ensures unread { words_read_input (map (λ w. w.now) words.now) ≡ false → R.remaining input.new ≡ R.remaining input.old }
    ensures kept { IfErr result (λ e. e ≢ fault.Write → IsBrokenOff real_folders (map (λ w. w.now) words.now) (command_of (map (λ w. w.now) words.now))
        (R.remaining input.old) (W.contents output.old) (W.contents output.new)) }
    ensures unread_kept { IfErr result (λ e. e ≡ fault.Read → Keeps (W.contents output.old) (W.contents output.new)) }
{
    let mut folders = RealFolders::new(rt);
    run_over(&mut folders, rt.alloc(), words, input, output, notes)
}
