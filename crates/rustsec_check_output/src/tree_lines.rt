//! Writes the JSON trees of checks, each on one line.

ghost use Rattle.std.specs.Prelude.{◌≡◌, ◌++◌, [], IfErr, IfOk, OnOk, string_bytes};
ghost use Rattle.rustsec_values.specs.Failure.{IsMemory};
ghost use Rattle.rustsec_check_output.specs.CheckJson.{many_json, refused_json};
ghost use Rattle.rustsec_check_output.specs.CheckTree.{check_tree, many_tree, refused_tree};
ghost use Rattle.rustsec_json.specs.Lines.{tree_line};

use crate::check_json::push_check;
use crate::part::{First, Key, push_first, push_key};
use crate::quoted::push_quoted;
use crate::written::Written;
use rustsec_values::{ErrorKind, Result};
use std::alloc::{AllocError, Global};

/// Returns an empty line with room for a check. A finding takes some 900 bytes, and a line that grows is copied each time.
fn empty_line(alloc: Global, written: &Written<'_, '_>) -> std::result::Result<String, AllocError>
    ensures { IfOk result (λ t. string_bytes t ≡ []) }
{
    let check = written.check;
    let findings = check.findings.len();
    String::with_capacity(alloc, findings.saturating_add(1).saturating_mul(1024))
}

/// Returns the JSON tree of a check on one line, with a line feed at its end.
///
/// # Errors
///
/// `OutOfMemory` alone.
pub fn check_line(alloc: Global, written: &Written<'_, '_>) -> Result<String>
    ensures ok { IfOk result (λ t. string_bytes t ≡ tree_line (check_tree written.now)) }
    ensures err { IfErr result IsMemory }
{
    let mut line = empty_line(alloc, written)?;
    push_check(alloc, &mut line, written)?;
    line.push_str("\n")?;
    Ok(line)
}

/// Appends the line for a lockfile of many that was checked.
#[tactic(auto, unfolding(crate::specs::CheckJson::many_json))]
fn push_many(
    alloc: Global,
    line: &mut String,
    path: &str,
    written: &Written<'_, '_>,
) -> std::result::Result<(), AllocError>
    ensures { OnOk result (string_bytes line.new ≡ string_bytes line.old ++ many_json path.now written.now) }
{
    push_first(line, First::Check)?;
    push_check(alloc, line, written)?;
    push_key(line, Key::Lockfile)?;
    push_quoted(alloc, line, path)?;
    line.push_str("}\n")?;
    Ok(())
}

/// Returns the line for a lockfile of many that was checked: an object with the tree of the check at `check` and the
/// path of the lockfile at `lockfile`, and a line feed.
///
/// # Errors
///
/// `OutOfMemory` alone.
pub fn many_line(alloc: Global, path: &str, written: &Written<'_, '_>) -> Result<String>
    ensures ok { IfOk result (λ t. string_bytes t ≡ tree_line (many_tree path.now (check_tree written.now))) }
    ensures err { IfErr result IsMemory }
{
    let mut line = empty_line(alloc, written)?;
    push_many(alloc, &mut line, path, written)?;
    Ok(line)
}

/// Appends the line for a lockfile of many that was refused.
#[tactic(auto, unfolding(crate::specs::CheckJson::refused_json))]
fn push_refused(
    alloc: Global,
    line: &mut String,
    path: &str,
    kind: ErrorKind,
) -> std::result::Result<(), AllocError>
    ensures { OnOk result (string_bytes line.new ≡ string_bytes line.old ++ refused_json path.now kind) }
{
    push_first(line, First::Lockfile)?;
    push_quoted(alloc, line, path)?;
    push_key(line, Key::Refused)?;
    push_quoted(alloc, line, kind.text())?;
    line.push_str("}\n")?;
    Ok(())
}

/// Returns the line for a lockfile of many that was refused: an object with the path of the lockfile at `lockfile` and
/// the text of the error's kind at `refused`, and a line feed.
///
/// # Errors
///
/// `OutOfMemory` alone.
pub fn refused_line(alloc: Global, path: &str, kind: ErrorKind) -> Result<String>
    ensures ok { IfOk result (λ t. string_bytes t ≡ tree_line (refused_tree path.now kind)) }
    ensures err { IfErr result IsMemory }
{
    let mut line = String::new(alloc);
    push_refused(alloc, &mut line, path, kind)?;
    Ok(line)
}
