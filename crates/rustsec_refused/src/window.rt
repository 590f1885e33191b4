//! Writes the two lines between which a call is made, and the text of an error.

use rustsec_values::{Error, ErrorKind, Result};
use std::alloc::Global;

/// Writes the line before the call. It is a literal, so that it takes no memory.
pub fn opens(rt: &HostRuntime) {
    let _ = println!(rt; "call");
}

/// Writes the line after the call.
pub fn closes(rt: &HostRuntime) {
    let _ = println!(rt; "done");
}

/// Returns the text of an error; just the text for out of memory.
pub fn refusal(alloc: Global, error: &Error) -> Result<String> {
    if error.kind() == ErrorKind::OutOfMemory {
        return Ok(String::from_str(alloc, "out of memory")?);
    }
    Ok(format!(in alloc; "refused: {error:?}")?)
}
