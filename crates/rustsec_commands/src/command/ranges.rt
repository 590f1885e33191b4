//! The command `ranges`: the ranges that the requirements leave.

ghost use Rattle.rustsec_commands.specs.declared.fault.Fault.TheVariants as fault;
ghost use Rattle.std.specs.Prelude.{◌≡◌, ◌≢◌, ◌++◌, IfErr, IfOk, IfSome, OnOk, flat_map, option_map, string_bytes};
ghost use Rattle.std.specs.Io.KnownBytes.{Keeps};
ghost use Rattle.semver.specs.Identifiers.{parts_of};
ghost use Rattle.rustsec_commands.specs.Output as spec;
ghost use Rattle.rustsec_commands.specs.Output.{AreRangeLines, IsOnlyRangesOutput, IsRangesOutput, range_line, side_text};
ghost use Rattle.rustsec_commands.specs.command.Answer.{AnswersRanges};

use crate::error_output::refused_output;
use crate::fault::Fault;
use crate::input::read::read_all;
use crate::input::{self, Input, InputKind};
use crate::output::{Output, malformed_output};
use rustsec_values::ErrorKind;
use rustsec_versions::{OsvRange, Versions, ranges_for_advisory};
use semver::Version;
use std::alloc::{AllocError, Global};
use std::fmt::Write as _;
use std::io::{Read, Write};

/// Appends a side of a range, or a dash if it is missing.
fn push_side(text: &mut String, side: &Option<Version>) -> Result<(), AllocError>
    ensures { OnOk result (string_bytes text.new ≡ string_bytes text.old ++ side_text (option_map parts_of side.now)) }
{
    match side {
        Some(version) => write!(text, "{version}"),
        None => text.push_str("-"),
    }
}

/// Returns a line for each range.
fn range_lines(alloc: Global, ranges: &[OsvRange]) -> Result<String, AllocError>
    ensures { IfOk result (λ t. string_bytes t ≡ flat_map range_line ranges.now) }
{
    let mut text = String::new(alloc);
    for range in ranges {
        push_side(&mut text, &range.introduced)?;
        text.push_str(" ")?;
        push_side(&mut text, &range.fixed)?;
        text.push_str("\n")?;
    }
    Ok(text)
}

/// Makes the output of `ranges` for an input without a malformed line.
fn parsed_output(alloc: Global, parsed: Input) -> Result<Output, AllocError>
    ensures { IfOk result (AreRangeLines parsed.lists) }
{
    let Input {
        patched,
        unaffected,
        versions: _,
    } = parsed;
    let lists = match Versions::new(alloc, patched, unaffected) {
        Ok(lists) => lists,
        Err(e) if e.kind() == ErrorKind::OutOfMemory => return Err(AllocError),
        Err(e) => return refused_output(alloc, &e),
    };
    let Ok(ranges) = ranges_for_advisory(alloc, &lists) else {
        return Err(AllocError);
    };
    Ok(Output::new(range_lines(alloc, &ranges)?, 0))
}

/// Makes the output of `ranges` for an input.
pub fn ranges_output(alloc: Global, input: &[u8]) -> Result<Output, AllocError>
    ensures output { IfOk result (IsRangesOutput input.now) }
    ensures only { IfOk result (λ o. (p : spec.Output) → IsRangesOutput input.now p → p ≡ o) }
{
    match input::parse(alloc, InputKind::Ranges, input)? {
        Ok(parsed) => parsed_output(alloc, parsed),
        Err(found) => malformed_output(alloc, found),
    }
}

/// Makes the output of `ranges` for all that a reader has left.
pub(crate) fn reader_output<R: Read>(alloc: Global, input: &mut R) -> Result<Output, Fault>
    ensures ok { IfOk result (λ o. IfSome (R.remaining input.old) (λ bytes. IsOnlyRangesOutput bytes o)) }
    ensures err { IfErr result (λ e. e ≢ fault.Write) }
{
    let bytes = read_all(alloc, input)?;
    Ok(ranges_output(alloc, &bytes)?)
}

/// Carries out `ranges`: reads all there is, and writes a line for each range that the requirements leave.
/// The whole text is made before the first write. Returns the status: 0, or 2 if a line is malformed or the
/// requirements are not accepted. A line that names a version is malformed here.
///
/// # Errors
///
/// `Memory` or `Read`, with nothing written; or `Write`, after which it is unspecified how much was
/// written.
pub fn answer_ranges<R: Read, W: Write>(
    alloc: Global,
    input: &mut R,
    output: &mut W,
) -> Result<u8, Fault>
    ensures answers { IfOk result (λ s. IfSome (R.remaining input.old) (λ bytes.
        AnswersRanges bytes s (W.contents output.old) (W.contents output.new))) }
    ensures kept { IfErr result (λ e. e ≢ fault.Write → Keeps (W.contents output.old) (W.contents output.new)) }
{
    reader_output(alloc, input)?.write(output)
}
