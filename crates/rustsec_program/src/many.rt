//! The command `check-many`.

ghost use Rattle.rustsec_commands.specs.declared.fault.Fault.TheVariants as fault;
ghost use Rattle.std.specs.Prelude.{◌≡◌, ◌≢◌, ◌++◌, ◌<◌, ◌∷◌, [], IfErr, IfOk, OnOk, false, filter, map, max, true};
ghost use Rattle.std.specs.Io.KnownBytes.{Appends, Keeps};
ghost use Rattle.std.specs.Str.{is_utf8};
ghost use Rattle.rustsec_commands.specs.Output.{refused_as, usage};
ghost use Rattle.rustsec_files.specs.Allowed.{AllowSame};
ghost use Rattle.rustsec_values.specs.Failure.{IsOfKind, IsRefusal};
ghost use Rattle.rustsec_program.specs.Check.{AreAnswers, IsManyOutput, IsManyRefusal, is_path, names_none, paths_of, separator};
ghost use Rattle.rustsec_program.specs.Checked.{IsAnswer, line, refusal_output};
ghost use Rattle.rustsec_program.specs.Writing.{BreaksOff, IsPrepared, Writes, WritesFirst};
ghost use Rattle.rustsec_values.specs.declared.error.ErrorKind.TheVariants as failure;

use crate::checked::{Ground, lockfile_output};
use crate::forms::Form;
use crate::keys::Flag;
use crate::misuse;
use crate::options::{Options, options_of};
use crate::plan::Plan;
use rustsec_check_output::refused_line;
use rustsec_commands::Fault;
use rustsec_commands::error_output::{refusal_output, why};
use rustsec_commands::output::{Output, usage_output};
use rustsec_database::Database;
use rustsec_files::Folders;
use rustsec_values::{Error, ErrorKind, Result, push_shown};
use std::alloc::{AllocError, Global};
use std::io::Write;
use std::marker::Model;
use std::str;

/// Returns the character that ends a path.
fn separator(options: &Options<'_>) -> char
    ensures value { result ≡ separator options.now }
    ensures small { result < 128 }
{
    if options.has(Flag::Null) { '\0' } else { '\n' }
}

/// Appends a path, unless it is empty.
#[tactic(auto, using(rustsec_files::proofs::ListFailures::filter_kept, rustsec_files::proofs::ListFailures::filter_left))]
fn push_path<'a>(paths: &mut Vec<&'a str>, path: &'a str) -> std::result::Result<(), AllocError>
    ensures { OnOk result (map (λ p. p.now) paths.new.items ≡ map (λ p. p.now) paths.old.items ++ filter is_path (path.now ∷ [])) }
{
    if !path.is_empty() {
        paths.push(path)?;
    }
    Ok(())
}

/// Returns the paths of an input, in order.
fn paths_of<'a>(
    alloc: Global,
    end: char,
    input: &'a str,
) -> std::result::Result<Vec<&'a str>, AllocError>
    requires { end < 128 }
    ensures { IfOk result (λ v. map (λ p. p.now) v.items ≡ paths_of end input.now) }
{
    let mut paths = Vec::new(alloc);
    for path in input.split(end) {
        push_path(&mut paths, path)?;
    }
    Ok(paths)
}

/// Returns the error for an input that is not UTF-8.
fn not_utf8_error(alloc: Global) -> Error
    ensures { IsOfKind ErrorKind.Parse result }
{
    let message = "the list of lockfiles is not UTF-8";
    Error::new(alloc, ErrorKind::Parse, message)
}

/// Returns the text of an input.
fn text_of(alloc: Global, input: &[u8]) -> Result<&str>
    ensures ok { IfOk result (λ t. (t.now ≡ input.now) × (is_utf8 input.now ≡ true)) }
    ensures err { IfErr result (IsRefusal ErrorKind.Parse (is_utf8 input.now ≡ false)) }
{
    match str::from_utf8(input) {
        Ok(text) => Ok(text),
        Err(_) => Err(not_utf8_error(alloc)),
    }
}

/// Returns the error for an input that names no lockfile.
fn no_lockfile_error(alloc: Global) -> Error
    ensures { IsOfKind ErrorKind.NotFound result }
{
    let message = "the input names no lockfile";
    Error::new(alloc, ErrorKind::NotFound, message)
}

/// Returns the paths of a text. A text that names no lockfile is refused, unless that is allowed.
fn listed<'a>(alloc: Global, options: &Options<'_>, text: &'a str) -> Result<Vec<&'a str>>
    ensures ok { IfOk result (λ v. (map (λ p. p.now) v.items ≡ paths_of (separator options.now) text.now)
        × (names_none options.now text.now ≡ false)) }
    ensures err { IfErr result (IsRefusal ErrorKind.NotFound (names_none options.now text.now ≡ true)) }
{
    let paths = paths_of(alloc, separator(options), text)?;
    if !options.has(Flag::AllowEmpty) && paths.is_empty() {
        return Err(no_lockfile_error(alloc));
    }
    Ok(paths)
}

/// Makes the line for a lockfile that was refused, with a note that says why. Out of memory is passed on as an error.
fn refused_output(
    alloc: Global,
    path: &str,
    error: &Error,
) -> std::result::Result<Output, AllocError>
    ensures { IfOk result (λ o. (error.now.kind ≢ failure.OutOfMemory) × (o ≡ refusal_output (line path.now) error.now)) }
{
    if error.kind() == ErrorKind::OutOfMemory {
        return Err(AllocError);
    }
    match refused_line(alloc, path, error.kind()) {
        Ok(text) => Ok(Output::new(text, 2).with_note(why(alloc, error).ok())),
        Err(_) => Err(AllocError),
    }
}

/// Makes the line for the lockfile at a path.
fn answer_output<'x, F: Folders>(
    alloc: Global,
    folders: &mut F,
    ground: &'x Ground<'x>,
    path: &str,
) -> std::result::Result<Output, AllocError>
    ensures ok { IfOk result (IsAnswer (F.allowed folders.old) (line path.now) ground.now path.now) }
    ensures same { AllowSame (F.allowed folders.old) (F.allowed folders.new) }
{
    match lockfile_output(alloc, folders, Form::Line(path), ground, path) {
        Ok(output) => Ok(output),
        Err(error) => refused_output(alloc, path, &error),
    }
}

/// The worst status so far, and for how many paths.
#[derive(Drop)]
struct Done {
    status: u8,
    count: usize,
}

/// Writes a line, and counts it.
fn write_line<W: Write>(
    line: &Output,
    done: &mut Done,
    output: &mut W,
) -> std::result::Result<(), Fault>
    ensures ok { OnOk result (Appends (W.contents output.old) (W.contents output.new) line.now.text
        × (done.new.status ≡ max done.old.status line.now.status)) }
    ensures err { IfErr result (λ e. e ≡ fault.Write) }
{
    line.write(output)?;
    if line.status() > done.status {
        done.status = line.status();
    }
    done.count = done.count.saturating_add(1);
    Ok(())
}

/// Returns the line that shows how far the lockfiles are done, and which one is done.
fn progress_line(
    alloc: Global,
    done: usize,
    all: usize,
    path: &str,
) -> std::result::Result<String, AllocError> {
    let mut line = format!(in alloc; "rustsec_audit: {done} of {all}: ")?;
    push_shown(&mut line, path)?;
    line.push_str("\n")?;
    Ok(line)
}

/// Writes the line that shows how far the lockfiles are done. A line that cannot be written is lost.
fn write_progress<N: Write>(alloc: Global, notes: &mut N, done: usize, all: usize, path: &str) {
    if let Ok(line) = progress_line(alloc, done, all, path) {
        let _ = notes.write_all(line.as_bytes());
    }
}

/// The paths of lockfiles, and what their checks have in common.
#[derive(Drop)]
struct Job<'x> {
    ground: &'x Ground<'x>,
    paths: &'x [&'x str],
}

/// Writes the lines for the lockfiles at some paths, each as soon as it is made. After each, its note and its progress
/// are written.
fn write_lines<'x, F: Folders, W: Write, N: Write>(
    alloc: Global,
    folders: &mut F,
    job: &Job<'x>,
    output: &mut W,
    notes: &mut N,
) -> std::result::Result<u8, Fault>
    ensures ok { IfOk result (λ s. Writes (AreAnswers (F.allowed folders.old) job.now.ground.now (map (λ p. p.now) job.now.paths.now))
        s (W.contents output.old) (W.contents output.new)) }
    ensures err { IfErr result (λ e. e ≢ fault.Write
        → WritesFirst (F.allowed folders.old) job.now.ground.now (map (λ p. p.now) job.now.paths.now) (W.contents output.old) (W.contents output.new)) }
    ensures read { IfErr result (λ e. e ≢ fault.Read) }
    ensures same { AllowSame (F.allowed folders.old) (F.allowed folders.new) }
{
    let ground = job.ground;
    let paths = job.paths;
    let plan = ground.plan();
    let mut done = Done {
        status: 0,
        count: 0,
    };
    for path in paths {
        let line = answer_output(alloc, folders, ground, path)?;
        write_line(&line, &mut done, output)?;
        line.write_note(notes);
        if plan.shows_progress {
            write_progress(alloc, notes, done.count, paths.len(), path);
        }
    }
    Ok(done.status)
}

/// What is known before the first line: the plan, the database, and the paths of the lockfiles.
struct Prepared<'a> {
    plan: Plan<'a>,
    database: Database,
    paths: Vec<&'a str>,
}

/// Hand-written: a derived `Drop` is proved again, field by field, at every exit of every owner.
impl<'a> Drop for Prepared<'a> {
    fn drop(self) {
        let Prepared {
            plan: _,
            database: _,
            paths: _,
        } = self;
    }
}

impl<'a> Model for Prepared<'a> {
    ghost use Rattle.std.specs.Prelude.{map};
    ghost use Rattle.rustsec_program.specs.Writing.{PreparedValue};

    ghost Value = { PreparedValue };

    ghost view = { λ p. record { ground = record { plan = p.plan; advisories = p.database }; paths = map (λ t. t.now) p.paths.items } };
}

/// The words of `check-many`, and the bytes of its input.
#[derive(Clone, Copy)]
pub struct ManyInput<'a> {
    /// The root of the database.
    pub root: &'a str,
    /// The options.
    pub options: &'a [&'a str],
    /// The bytes of the input.
    pub input: &'a [u8],
}

impl<'a> Prepared<'a> {
    /// Reads the list of paths, the policy and the database, in this order.
    fn read<F: Folders>(
        alloc: Global,
        folders: &mut F,
        options: &Options<'a>,
        asked: ManyInput<'a>,
    ) -> Result<Prepared<'a>>
        ensures ok { IfOk result (IsPrepared (F.allowed folders.old) asked.entry.root.now options.now asked.entry.input.now) }
        ensures err { IfErr result (IsManyRefusal (F.allowed folders.old) asked.entry.root.now options.now asked.entry.input.now) }
        ensures same { AllowSame (F.allowed folders.old) (F.allowed folders.new) }
    {
        let text = text_of(alloc, asked.input)?;
        let paths = listed(alloc, options, text)?;
        let plan = Plan::read(alloc, folders, options)?;
        let database = Database::open_with(alloc, folders, asked.root)?;
        Ok(Prepared {
            plan,
            database,
            paths,
        })
    }

    /// Writes the lines for all lockfiles.
    fn write_all<F: Folders, W: Write, N: Write>(
        &self,
        alloc: Global,
        folders: &mut F,
        output: &mut W,
        notes: &mut N,
    ) -> std::result::Result<u8, Fault>
        ensures ok { IfOk result (λ s. Writes (AreAnswers (F.allowed folders.old) self.now.ground self.now.paths) s (W.contents output.old) (W.contents output.new)) }
        ensures err { IfErr result (λ e. e ≢ fault.Write
            → WritesFirst (F.allowed folders.old) self.now.ground self.now.paths (W.contents output.old) (W.contents output.new)) }
        ensures read { IfErr result (λ e. e ≢ fault.Read) }
        ensures same { AllowSame (F.allowed folders.old) (F.allowed folders.new) }
    {
        let ground = Ground::new(&self.plan, &self.database);
        let job = Job {
            ground: &ground,
            paths: self.paths.as_slice(),
        };
        write_lines(alloc, folders, &job, output, notes)
    }
}

/// Writes the output for an error. Out of memory is passed on.
fn write_refusal<W: Write, N: Write>(
    alloc: Global,
    error: &Error,
    output: &mut W,
    notes: &mut N,
) -> std::result::Result<u8, Fault>
    ensures ok { IfOk result (λ s. (error.now.kind ≢ failure.OutOfMemory)
        × Writes (λ o. o ≡ refused_as error.now.kind) s (W.contents output.old) (W.contents output.new)) }
    ensures err { IfErr result (λ e. e ≢ fault.Write → Keeps (W.contents output.old) (W.contents output.new)) }
    ensures read { IfErr result (λ e. e ≢ fault.Read) }
{
    let made = refusal_output(alloc, error)?;
    made.write_with_note(output, notes)
}

/// Writes the usage line, with a note on the options that cannot be parsed.
fn write_usage<W: Write, N: Write>(
    alloc: Global,
    options: &[&str],
    output: &mut W,
    notes: &mut N,
) -> std::result::Result<u8, Fault>
    ensures ok { IfOk result (λ s. Writes (λ o. o ≡ usage) s (W.contents output.old) (W.contents output.new)) }
    ensures err { IfErr result (λ e. e ≢ fault.Write → Keeps (W.contents output.old) (W.contents output.new)) }
    ensures read { IfErr result (λ e. e ≢ fault.Read) }
{
    let made = usage_output(alloc, misuse::of_options(alloc, options).ok())?;
    made.write_with_note(output, notes)
}

/// Writes the output of `check-many`. Each line is written as soon as it is made, then its note and its progress are
/// written to `notes`.
///
/// # Errors
///
/// `Memory`, after which the lines of the first lockfiles are written, or nothing; or `Write`, after which it is
/// unspecified how much was written.
pub fn check_many<F: Folders, W: Write, N: Write>(
    alloc: Global,
    folders: &mut F,
    asked: ManyInput<'_>,
    output: &mut W,
    notes: &mut N,
) -> std::result::Result<u8, Fault>
    ensures ok { IfOk result (λ s. Writes (IsManyOutput (F.allowed folders.old) asked.entry.root.now (map (λ w. w.now) asked.entry.options.now) asked.entry.input.now)
        s (W.contents output.old) (W.contents output.new)) }
    ensures err { IfErr result (λ e. e ≢ fault.Write → BreaksOff (F.allowed folders.old) asked.entry.root.now (map (λ w. w.now) asked.entry.options.now)
        asked.entry.input.now (W.contents output.old) (W.contents output.new)) }
    ensures read { IfErr result (λ e. e ≢ fault.Read) }
    ensures same { AllowSame (F.allowed folders.old) (F.allowed folders.new) }
{
    let Some(options) = options_of(alloc, asked.options)? else {
        return write_usage(alloc, asked.options, output, notes);
    };
    match Prepared::read(alloc, folders, &options, asked) {
        Ok(prepared) => prepared.write_all(alloc, folders, output, notes),
        Err(error) => write_refusal(alloc, &error, output, notes),
    }
}
