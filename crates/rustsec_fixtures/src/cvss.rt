//! CVSS vectors: their scores, and how they print.

use crate::rows::prints;
use rustsec_lock::{Base, Cvss, Severity};
use std::alloc::Global;
use std::test::Fail;

/// Returns the base metrics of a vector of version 3.
pub fn base_of(vector: &Cvss) -> Option<Base> {
    match vector {
        Cvss::CvssV30(base) => Some(*base),
        Cvss::CvssV31(base) => Some(*base),
        Cvss::CvssV40(_) => None,
    }
}

/// Returns the score in tenths and the rating of a vector's text, each if any.
pub fn score(alloc: Global, text: &str) -> Result<(Option<u8>, Option<Severity>), Fail> {
    let vector = Cvss::from_str(alloc, text)?;
    let tenths = match base_of(&vector) {
        Some(base) => Some(base.score_tenths()),
        None => None,
    };
    Ok((tenths, vector.severity()))
}

/// Returns whether a text's vector prints as another text.
pub fn is_printed(alloc: Global, text: &str, printed: &str) -> Result<bool, Fail> {
    let vector = Cvss::from_str(alloc, text)?;
    prints(alloc, &vector, printed)
}
