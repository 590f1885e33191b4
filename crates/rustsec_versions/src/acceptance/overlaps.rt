//! The error for requirements that overlap and may not.

ghost use Rattle.std.specs.Prelude.{IfErr};
ghost use Rattle.rustsec_values.specs.Failure.{IsMemory, IsOfKind};

use crate::acceptance::tagged::TaggedInterval;
use crate::requirement::print::quoted;
use rustsec_values::{Error, ErrorKind, Result};
use std::alloc::Global;

/// Returns the message for two requirements that clash.
fn message_of(alloc: Global, first: &TaggedInterval, second: &TaggedInterval) -> Result<String>
    ensures { IfErr result IsMemory }
{
    let first = quoted(alloc, first.requirement)?;
    let second = quoted(alloc, second.requirement)?;
    let message = format!(in alloc; "the requirements {first} and {second} overlap")?;
    Ok(message)
}

/// Returns the error for two requirements that clash; its message names both.
pub(crate) fn overlap_error(alloc: Global, first: &TaggedInterval, second: &TaggedInterval) -> Error
    ensures { IsOfKind ErrorKind.BadParam result }
{
    match message_of(alloc, first, second) {
        Ok(message) => Error::bad_param(alloc, message.as_str()),
        Err(refused) => refused,
    }
}
