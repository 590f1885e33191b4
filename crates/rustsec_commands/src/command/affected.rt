//! The command `affected`: which versions the requirements leave affected.

ghost use Rattle.rustsec_commands.specs.declared.fault.Fault.TheVariants as fault;
ghost use Rattle.std.specs.Prelude.{◌≡◌, ◌≢◌, ◌++◌, IfErr, IfOk, IfSome, OnOk, flat_map, map, string_bytes};
ghost use Rattle.std.specs.Io.KnownBytes.{Appends, Keeps};
ghost use Rattle.semver.specs.Identifiers.{parts_of};
ghost use Rattle.rustsec_commands.specs.Output.{affected_output, verdict, verdicts};
ghost use Rattle.rustsec_commands.specs.input.Views.{version_view};

use crate::error_output::refused_output;
use crate::fault::Fault;
use crate::input::read::read_all;
use crate::input::version::InputVersion;
use crate::input::{self, Input, InputKind};
use crate::output::{Output, malformed_output};
use rustsec_values::ErrorKind;
use rustsec_versions::Versions;
use semver::Version;
use std::alloc::{AllocError, Global};
use std::fmt::Write as _;
use std::io::{Read, Write};

/// Appends the line for a version, which says whether it is affected.
fn push_verdict(text: &mut String, lists: &Versions, version: &Version) -> Result<(), AllocError>
    ensures { OnOk result (string_bytes text.new ≡ string_bytes text.old ++ verdict lists.now (parts_of version.now)) }
{
    if lists.is_vulnerable(version) {
        writeln!(text, "{version} affected")?;
    } else {
        writeln!(text, "{version} not affected")?;
    }
    Ok(())
}

/// Returns a line for each version.
fn verdict_lines(
    alloc: Global,
    lists: &Versions,
    versions: &[InputVersion],
) -> Result<String, AllocError>
    ensures { IfOk result (λ t. string_bytes t ≡ flat_map (verdict lists.now) (map version_view versions.now)) }
{
    let mut text = String::new(alloc);
    for version in versions {
        match version {
            InputVersion::Numbers(major, minor, patch) => {
                push_verdict(&mut text, lists, &Version::new(*major, *minor, *patch))?;
            }
            InputVersion::Whole(version) => push_verdict(&mut text, lists, version)?,
        }
    }
    Ok(text)
}

/// Makes the output of `affected` for an input without a malformed line.
fn parsed_output(alloc: Global, parsed: Input) -> Result<Output, AllocError>
    ensures { IfOk result (λ o. o ≡ verdicts parsed) }
{
    let Input {
        patched,
        unaffected,
        versions,
    } = parsed;
    match Versions::new(alloc, patched, unaffected) {
        Ok(lists) => Ok(Output::new(verdict_lines(alloc, &lists, &versions)?, 0)),
        Err(e) if e.kind() == ErrorKind::OutOfMemory => Err(AllocError),
        Err(e) => refused_output(alloc, &e),
    }
}

/// Makes the output of `affected` for an input.
pub fn affected_output(alloc: Global, input: &[u8]) -> Result<Output, AllocError>
    ensures { IfOk result (λ o. o ≡ affected_output input.now) }
{
    match input::parse(alloc, InputKind::Verdicts, input)? {
        Ok(parsed) => parsed_output(alloc, parsed),
        Err(found) => malformed_output(alloc, found),
    }
}

/// Makes the output of `affected` for all that a reader has left.
pub(crate) fn reader_output<R: Read>(alloc: Global, input: &mut R) -> Result<Output, Fault>
    ensures ok { IfOk result (λ o. IfSome (R.remaining input.old) (λ bytes. o ≡ affected_output bytes)) }
    ensures err { IfErr result (λ e. e ≢ fault.Write) }
{
    let bytes = read_all(alloc, input)?;
    Ok(affected_output(alloc, &bytes)?)
}

/// Carries out `affected`: reads all there is, and writes a line for each version that the input names. The
/// whole text is made before the first write. Returns the status: 0, or 2 if a line is malformed or the
/// requirements are not accepted.
///
/// # Errors
///
/// `Memory` or `Read`, with nothing written; or `Write`, after which it is unspecified how much was
/// written.
pub fn answer<R: Read, W: Write>(alloc: Global, input: &mut R, output: &mut W) -> Result<u8, Fault>
    ensures status { IfOk result (λ s. IfSome (R.remaining input.old) (λ bytes. s ≡ (affected_output bytes).status)) }
    ensures text { OnOk result (IfSome (R.remaining input.old) (λ bytes.
        Appends (W.contents output.old) (W.contents output.new) (affected_output bytes).text)) }
    ensures kept { IfErr result (λ e. e ≢ fault.Write → Keeps (W.contents output.old) (W.contents output.new)) }
{
    reader_output(alloc, input)?.write(output)
}
