//! Lines of a text, for messages.

use rustsec_values::beginning_of;
use std::alloc::{AllocError, Global};
use std::fmt::Write as _;

/// The number of bytes of a line that a message shows.
const SHOWN: usize = 60;

/// Returns the beginning of a line of a text, with its control characters escaped. Lines count from 1 on.
pub fn shown_line(alloc: Global, text: &str, line: usize) -> Result<String, AllocError> {
    let line = text.split('\n').nth(line.saturating_sub(1)).unwrap_or("");
    let mut shown = String::new(alloc);
    for c in beginning_of(line.trim_end_matches('\r'), SHOWN).chars() {
        if c.is_control() {
            let escaped = c.escape_unicode();
            write!(shown, "{escaped}")?;
        } else {
            shown.push(c)?;
        }
    }
    Ok(shown)
}
