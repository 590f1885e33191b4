//! Trees on one line.

ghost use Rattle.std.specs.Prelude.{◌≡◌, IfOk, false, string_bytes};
ghost use Rattle.serde_json.specs.View.{view};
ghost use Rattle.serde_json.specs.Written.{has_float};
ghost use Rattle.rustsec_json.specs.Lines.{tree_line};

use serde_json::Value;
use std::alloc::{AllocError, Global};

/// Returns the text of a tree on one line, with a line feed at its end.
///
/// # Errors
///
/// Out of memory.
pub fn tree_line(alloc: Global, tree: &Value) -> Result<String, AllocError>
    ensures { IfOk result (λ t. has_float (view tree.now) ≡ false → string_bytes t ≡ tree_line (view tree.now)) }
{
    let mut text = tree.to_string(alloc)?;
    text.push_str("\n")?;
    Ok(text)
}
