//! Carries out the command that the words name.

ghost use Rattle.rustsec_commands.specs.declared.fault.Fault.TheVariants as fault;
ghost use Rattle.std.specs.Prelude.{◌≡◌, ◌≢◌, Err, IfErr, IfOk, IsOkAnd, None, false, map};
ghost use Rattle.std.specs.Io.KnownBytes.{Appends, Keeps};
ghost use Rattle.rustsec_files.specs.Allowed.{AllowSame, AnswersOnce, real_folders};
ghost use Rattle.rustsec_program.specs.Commands.{Carries, HaveOneOutput, IsOwnOutput, command_view, reads_input, words_read_input};
ghost use Rattle.rustsec_program.specs.Words.{command_of};
ghost use Rattle.rustsec_program.specs.Writing.{IsBrokenOff};

use crate::check::check;
use crate::command::{Command, command_of};
use crate::explain::explain;
use crate::many::{ManyInput, check_many};
use crate::misuse;
use rustsec_commands::output::{Output, usage_output};
use rustsec_commands::{Fault, read_all};
use rustsec_files::{Folders, RealFolders};
use std::alloc::{AllocError, Global};
use std::io::{Read, Write};
use std::rt::Files;

/// Makes the output of a command that does not read the input.
fn command_output<F: Folders>(
    alloc: Global,
    folders: &mut F,
    command: Command<'_>,
) -> Result<Output, AllocError>
    requires { reads_input (command_view command) ≡ false }
    ensures ok { IfOk result (IsOwnOutput (F.allowed folders.old) (command_view command.entry) None) }
    ensures same { AllowSame (F.allowed folders.old) (F.allowed folders.new) }
{
    match command {
        Command::Check(paths, options) => check(alloc, folders, paths, options),
        Command::CheckMany(_, _) => unreachable!(),
        Command::Explain(paths, text, options) => explain(alloc, folders, paths, text, options),
        Command::Short => usage_output(alloc, misuse::of_short(alloc).ok()),
    }
}

/// Writes a note if the result of a command is a fault, and returns the result as it is.
fn noted<N: Write>(done: Result<u8, Fault>, notes: &mut N) -> Result<u8, Fault>
    ensures { result ≡ done }
{
    if let Err(fault) = done {
        fault.write_note(notes);
    }
    done
}

/// Writes an output that was made, then its note, and returns its status. A note says so if memory for it was refused, or
/// if it cannot be written.
///
/// # Errors
///
/// `Memory` if memory for the output was refused, with nothing written. `Write` if a write fails, after which it is
/// unspecified how much was written.
pub fn finish<W: Write, N: Write>(
    made: Result<Output, AllocError>,
    output: &mut W,
    notes: &mut N,
) -> Result<u8, Fault>
    ensures ok { IfOk result (λ s. IsOkAnd made (λ o. (s ≡ o.status) × Appends (W.contents output.old) (W.contents output.new) o.text)) }
    ensures memory { IfErr made (λ _. result ≡ Err fault.Memory) }
    ensures write { IfOk made (λ _. IfErr result (λ e. e ≡ fault.Write)) }
    ensures err { IfErr result (λ e. e ≢ fault.Write → Keeps (W.contents output.old) (W.contents output.new)) }
{
    match made {
        Ok(made) => noted(made.write_with_note(output, notes), notes),
        Err(_) => noted(Err(Fault::Memory), notes),
    }
}

/// Carries out the command that the words name, and returns its status:
///
/// - `check`, a root, the path of a lockfile and options: writes what is found. Status 1 if a finding is denied and not
///   old, else 0. A refusal gives `refused: KIND`, status 2: the first one of the options' values, the policy, the
///   database, the lockfile, the older one and the index, in this order. The lockfile is read before the database. The
///   input is not read;
/// - `check-many`, a root and options: for each path of the input a line of JSON: the check of the lockfile there, or why
///   it is refused, which stops nothing. The status is the worst one. If an option, the policy, the database or the
///   list of paths is refused there are no lines, but `refused: KIND`, status 2. A list without a path is refused unless
///   `--allow-empty` is given;
/// - `explain`, a root, the path of a lockfile, an ID or a name, and options: reads the options' values, the policy, the
///   database and the lockfile, in this order, and writes for each pair of a package and an advisory of that ID or name
///   why it is not a finding, or that it is affected; as lines, or as a list of JSON on one line. Status 0. A refusal is
///   answered as under `check`. The input is not read;
/// - one of these with too few words, or with a word that is not an option: the usage line, status 2;
/// - any other words: as `rustsec_commands::run_over`.
///
/// All files are read through `folders`. Notes for a person are written to `notes`: after the output, and by `check-many`
/// after each lockfile that is refused, and after each one with `--progress`. Their wording is unspecified. A note is lost
/// if it cannot be written or memory for it is refused.
///
/// # Errors
///
/// `Memory` or `Read`, with nothing written, except that `check-many` has written the lines of the first lockfiles before
/// `Memory`; or `Write`, after which it is unspecified how much was written.
#[tactic(auto, using(crate::proofs::Once::one_output))]
pub fn run_over<F: Folders, R: Read, W: Write, N: Write>(
    folders: &mut F,
    alloc: Global,
    words: &[&str],
    input: &mut R,
    output: &mut W,
    notes: &mut N,
) -> Result<u8, Fault>
    ensures carries { IfOk result (λ s. Carries (F.allowed folders.old) (map (λ w. w.now) words.now) (R.remaining input.old) s
        (W.contents output.old) (W.contents output.new)) }

    // If each path has one answer, there is one output.
    ensures once { AnswersOnce (F.allowed folders.old) → HaveOneOutput (F.allowed folders.old) (map (λ w. w.now) words.now) (R.remaining input.old) }
    ensures unread { words_read_input (map (λ w. w.now) words.now) ≡ false → R.remaining input.new ≡ R.remaining input.old }

    // A command that breaks off has written nothing, except `check-many`.
    ensures kept { IfErr result (λ e. e ≢ fault.Write → IsBrokenOff (F.allowed folders.old) (command_of (map (λ w. w.now) words.now)) (R.remaining input.old)
        (W.contents output.old) (W.contents output.new)) }
    ensures unread_kept { IfErr result (λ e. e ≡ fault.Read → Keeps (W.contents output.old) (W.contents output.new)) }
    ensures same { AllowSame (F.allowed folders.old) (F.allowed folders.new) }
{
    let command = match command_of(words) {
        Some(command) => command,
        None => {
            return rustsec_commands::run_over(folders, alloc, words, input, output, notes);
        }
    };
    let list = match command.list() {
        Some(list) => list,
        None => return finish(command_output(alloc, folders, command), output, notes),
    };
    match read_all(alloc, input) {
        Ok(bytes) => {
            let asked = ManyInput {
                root: list.root,
                options: list.options,
                input: bytes.as_slice(),
            };
            noted(check_many(alloc, folders, asked, output, notes), notes)
        }
        Err(fault) => noted(Err(fault), notes),
    }
}

/// Carries out the command that the words name as `run_over` does, over the folders of the disk.
///
/// # Errors
///
/// As `run_over`.
pub fn run_with_notes<T: Files + AllocGlobal, R: Read, W: Write, N: Write>(
    rt: &T,
    words: &[&str],
    input: &mut R,
    output: &mut W,
    notes: &mut N,
) -> Result<u8, Fault>
    ensures carries { IfOk result (λ s. Carries real_folders (map (λ w. w.now) words.now) (R.remaining input.old) s
        (W.contents output.old) (W.contents output.new)) }
    ensures unread { words_read_input (map (λ w. w.now) words.now) ≡ false → R.remaining input.new ≡ R.remaining input.old }
    ensures kept { IfErr result (λ e. e ≢ fault.Write → IsBrokenOff real_folders (command_of (map (λ w. w.now) words.now)) (R.remaining input.old)
        (W.contents output.old) (W.contents output.new)) }
    ensures unread_kept { IfErr result (λ e. e ≡ fault.Read → Keeps (W.contents output.old) (W.contents output.new)) }
{
    let mut folders = RealFolders::new(rt);
    run_over(&mut folders, rt.alloc(), words, input, output, notes)
}
