//! Writes the JSON tree of what is wrong in a database on one line.

ghost use Rattle.std.specs.Prelude.{◌≡◌, IfOk, string_bytes};
ghost use Rattle.rustsec_json.specs.Lines.{tree_line};
ghost use Rattle.rustsec_lint_output.specs.LintTree.{lint_tree};

use crate::tree::lint_tree;
use rustsec_json::tree_line;
use rustsec_lint_database::{Counts, Entry};
use std::alloc::{AllocError, Global};

/// Returns the JSON object of `lint_tree` on one line, with a line feed at its end.
///
/// # Errors
///
/// Out of memory.
pub fn lint_line(
    alloc: Global,
    upstream: bool,
    counts: Counts,
    entries: &[Entry],
) -> Result<String, AllocError>
    ensures { IfOk result (λ t. string_bytes t ≡ tree_line (lint_tree upstream counts entries.now)) }
{
    let tree = lint_tree(alloc, upstream, counts, entries)?;
    let line = tree_line(alloc, &tree)?;
    Ok(line)
}
