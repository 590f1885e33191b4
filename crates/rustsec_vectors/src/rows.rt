//! The fields of rows, and what values of each type do.

pub(crate) use rustsec_fixtures::{exact_field, field, is_copied, is_kept, prints};
use rustsec_values::{Error, ErrorKind, FromText};
use std::alloc::Global;
use std::cmp::Ordering;
use std::test::Fail;

/// Returns whether the values of two texts compare so, and are equal only if the order says so.
pub(crate) fn compare<T: FromText + Ord>(
    alloc: Global,
    low: &str,
    high: &str,
    order: Ordering,
) -> Result<bool, Fail> {
    let low = T::from_text(alloc, low)?;
    let high = T::from_text(alloc, high)?;
    Ok(low.cmp(&high) == order && (low == high) == order.is_eq())
}

/// Returns whether this is a refusal of a text with this message, with a cause or without one.
fn says(error: &Error, message: &str, caused: bool) -> bool {
    error.kind() == ErrorKind::Parse
        && error.message() == message
        && error.cause().is_some() == caused
}

/// Returns whether an answer is a refusal with this message.
pub(crate) fn refuses<T: Drop>(answer: Result<T, Error>, message: &str, caused: bool) -> bool {
    match answer {
        Ok(_) => false,
        Err(e) => says(&e, message, caused),
    }
}
