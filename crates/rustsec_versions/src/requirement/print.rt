//! Prints requirements, and shows requirements and bounds in messages.

ghost use Rattle.std.specs.Prelude.{◌≡◌, ◌++◌, IfErr, IfOk, OnOk, string_bytes};
ghost use Rattle.semver.specs.Identifiers.{comparator_view, marked, pre_text};
ghost use Rattle.rustsec_values.specs.Failure.{IsMemory, IsOfKind};
ghost use Rattle.rustsec_versions.specs.requirement.RequirementText.{comparator_text, dotted, op_text, requirement_text, star};
ghost use Rattle.rustsec_versions.specs.Views.{comparators_of};

use crate::bound::Bound;
use rustsec_values::{Error, Result, beginning_of, with_place};
use semver::{Comparator, Op, Prerelease, Version, VersionReq};
use std::alloc::{AllocError, Global};

/// Returns the text of an operator.
fn op_text(op: Op) -> &'static str
    ensures { result.now ≡ op_text op }
{
    match op {
        Op::Exact => "=",
        Op::Greater => ">",
        Op::GreaterEq => ">=",
        Op::Less => "<",
        Op::LessEq => "<=",
        Op::Tilde => "~",
        Op::Caret => "^",
        Op::Wildcard => "",
    }
}

/// Returns what ends a comparator after its last number: `.*` for a wildcard.
fn star(op: Op) -> &'static str
    ensures { result.now ≡ star op }
{
    match op {
        Op::Wildcard => ".*",
        _ => "",
    }
}

/// Appends a dot and a number, if the number is present.
fn push_dotted(text: &mut String, number: Option<u64>) -> std::result::Result<(), AllocError>
    ensures { OnOk result (string_bytes text.new ≡ string_bytes text.old ++ dotted number) }
{
    if let Some(number) = number {
        write!(text, ".{number}")?;
    }
    Ok(())
}

/// Appends a dash and a pre-release, unless it is empty.
fn push_pre(text: &mut String, pre: &Prerelease) -> std::result::Result<(), AllocError>
    ensures { OnOk result (string_bytes text.new ≡ string_bytes text.old ++ marked 45 (pre_text pre.now)) }
{
    if !pre.is_empty() {
        write!(text, "-{pre}")?;
    }
    Ok(())
}

/// Appends the text of a comparator.
fn push_comparator(text: &mut String, c: &Comparator) -> std::result::Result<(), AllocError>
    ensures { OnOk result (string_bytes text.new ≡ string_bytes text.old ++ comparator_text (comparator_view c.now)) }
{
    let major = c.major;
    text.push_str(op_text(c.op))?;
    write!(text, "{major}")?;
    push_dotted(text, c.minor)?;
    push_dotted(text, c.patch)?;
    push_pre(text, &c.pre)?;
    text.push_str(star(c.op))?;
    Ok(())
}

/// Returns the text of a requirement: its comparators joined by `, `, each with its operator and its numbers as they
/// were
/// given, and `*` if there are no comparators. `>= 1.2.3` gives `>=1.2.3`, and `1.2` gives `^1.2`.
///
/// # Errors
///
/// `OutOfMemory` alone.
pub fn requirement_text(alloc: Global, req: &VersionReq) -> Result<String>
    ensures ok { IfOk result (λ s. string_bytes s ≡ requirement_text (comparators_of req.now)) }
    ensures err { IfErr result IsMemory }
{
    let mut text = String::new(alloc);
    let Some((first, others)) = req.comparators.as_slice().split_first() else {
        text.push_str("*")?;
        return Ok(text);
    };
    push_comparator(&mut text, first)?;
    for c in others {
        text.push_str(", ")?;
        push_comparator(&mut text, c)?;
    }
    Ok(text)
}

/// The number of bytes of a requirement's text that a message shows.
const SHOWN: usize = 60;

/// Returns the text of a requirement for a message: its first 60 bytes, between backquotes.
pub(crate) fn quoted(alloc: Global, req: &VersionReq) -> Result<String>
    ensures { IfErr result IsMemory }
{
    let text = requirement_text(alloc, req)?;
    let shown = beginning_of(text.as_str(), SHOWN);
    let quoted = format!(in alloc; "`{shown}`")?;
    Ok(quoted)
}

/// Returns a comparator with this operator and version for a message: its first 60 bytes, between backquotes.
fn quoted_comparator(
    alloc: Global,
    sign: &str,
    version: &Version,
) -> std::result::Result<String, AllocError> {
    let text = format!(in alloc; "{sign}{version}")?;
    let shown = beginning_of(text.as_str(), SHOWN);
    format!(in alloc; "`{shown}`")
}

/// Returns a bound for a message, as a comparator with this operator.
pub(crate) fn quoted_bound(
    alloc: Global,
    sign: &str,
    bound: &Bound,
) -> std::result::Result<String, AllocError> {
    match bound {
        Bound::Unbounded => String::from_str(alloc, "`*`"),
        Bound::Exclusive(version) => quoted_comparator(alloc, sign, version),
        Bound::Inclusive(version) => {
            let sign = format!(in alloc; "{sign}=")?;
            quoted_comparator(alloc, sign.as_str(), version)
        }
    }
}

/// Returns the place that an error about a requirement names.
fn place_of(alloc: Global, req: &VersionReq) -> Result<String>
    ensures { IfErr result IsMemory }
{
    let quoted = quoted(alloc, req)?;
    let place = format!(in alloc; "the requirement {quoted}")?;
    Ok(place)
}

/// Adds the text of the requirement to the message of an error about it. Out of memory stays as it is.
pub(crate) fn with_requirement(alloc: Global, req: &VersionReq, error: &Error) -> Error
    ensures kind { IsOfKind error.now.kind result }
    ensures memory { IsMemory error.now → IsMemory result }
{
    match place_of(alloc, req) {
        Ok(place) => with_place(alloc, place.as_str(), error),
        Err(refused) => refused,
    }
}
