//! Writes strings as JSON (RFC 8259, section 7).

ghost use Rattle.std.specs.Prelude.{◌≡◌, ◌++◌, OnOk, string_bytes};
ghost use Rattle.std.specs.List.{list_any};
ghost use Rattle.rustsec_check_output.specs.CheckJson.{is_escaped, quoted};

use serde_json::Value;
use std::alloc::{AllocError, Global};

/// Returns whether a byte has an escape in a string: whether it is a control character, a quotation mark or a backslash.
fn is_escaped(byte: u8) -> bool
    ensures { result ≡ is_escaped byte }
{
    byte < b' ' || byte == b'"' || byte == b'\\'
}

/// Returns whether some byte has an escape in a string.
fn has_escaped(bytes: &[u8]) -> bool
    ensures { result ≡ list_any is_escaped bytes.now }
{
    bytes.iter().any(|byte| is_escaped(*byte))
}

/// Appends a text between quotation marks, with its escapes.
#[tactic(auto, unfolding(crate::specs::CheckJson::quoted))]
fn push_escaped(alloc: Global, json: &mut String, text: &str) -> Result<(), AllocError>
    ensures { OnOk result (string_bytes json.new ≡ string_bytes json.old ++ quoted text.now) }
{
    let tree = Value::try_from_str(alloc, text)?;
    let escaped = tree.to_string(alloc)?;
    json.push_str(&escaped)?;
    Ok(())
}

/// Appends a text as a string.
pub(crate) fn push_quoted(alloc: Global, json: &mut String, text: &str) -> Result<(), AllocError>
    ensures { OnOk result (string_bytes json.new ≡ string_bytes json.old ++ quoted text.now) }
{
    if has_escaped(text.as_bytes()) {
        return push_escaped(alloc, json, text);
    }
    json.push_str("\"")?;
    json.push_str(text)?;
    json.push_str("\"")?;
    Ok(())
}
