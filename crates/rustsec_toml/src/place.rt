//! Lines and columns.

ghost use Rattle.std.specs.Prelude.{◌≡◌, ◌≤◌, ◌<◌, ◌+◌, ◌-◌, ◌^◌, ◌++◌, ◌∷◌, ◌⊎◌, [], ℕ, IfOk, List, length, string_bytes};
ghost use Rattle.rustsec_values.specs.Beginnings.{IsBeginning};
ghost use Rattle.rustsec_toml.specs.Places.{IsEnd, IsPlaceOf, beginning, from_line, goes_on, place_past, place_words};

use rustsec_values::beginning_of;
use std::alloc::{AllocError, Global};

/// A place in a text. Both numbers are from 1 on, and a column counts characters.
#[derive(Clone, Copy, Debug, PartialEq, Eq)]
pub struct Place {
    /// The line.
    pub line: usize,
    /// The column.
    pub column: usize,
}

/// Returns whether a byte goes on with a character that another byte begins.
fn goes_on(byte: u8) -> bool
    ensures { result ≡ goes_on byte }
{
    matches!(byte, 0x80..=0xBF)
}

/// Returns the place after one more byte.
fn after_byte(place: Place, byte: u8) -> Place
    requires line { place.line < 2 ^ 63 }
    requires column { place.column < 2 ^ 63 }
    ensures value { (before : List ℕ) → place ≡ place_past before → result ≡ place_past (before ++ byte ∷ []) }
    ensures line { result.line ≤ place.line + 1 }
    ensures column { result.column ≤ place.column + 1 }
{
    if byte == b'\n' {
        Place {
            line: place.line + 1,
            column: 1,
        }
    } else if goes_on(byte) {
        place
    } else {
        Place {
            line: place.line,
            column: place.column + 1,
        }
    }
}

/// Returns the place after some bytes that begin at a place.
pub(crate) fn place_after(place: Place, bytes: &[u8]) -> Place
    requires line { place.line + length bytes.now ≤ 2 ^ 63 }
    requires column { place.column + length bytes.now ≤ 2 ^ 63 }
    ensures value { (before : List ℕ) → place ≡ place_past before → result ≡ place_past (before ++ bytes.now) }
    ensures line { result.line ≤ place.line + length bytes.now }
    ensures column { result.column ≤ place.column + length bytes.now }
{
    let mut after = place;
    for byte in bytes {
        after = after_byte(after, *byte);
    }
    after
}

impl Place {
    /// Returns the place of an offset in a text: the line and the column of the character there, each from 1 on. An offset
    /// within a character is that of the character's first byte, and one past the end that of the end.
    pub fn of_offset(text: &str, offset: usize) -> Place
        ensures { (before : List ℕ) × (IsBeginning offset text.now before × (result ≡ place_past before)) }
    {
        let start = Place { line: 1, column: 1 };
        place_after(start, beginning_of(text, offset).as_bytes())
    }

    /// Returns the place at which the end of a text begins; the beginning of the text if the end is not shorter.
    pub fn of_end(text: &str, end: &str) -> Place
        ensures inside { (before : List ℕ) → text.now ≡ before ++ end.now → result ≡ place_past before }
        ensures whole { length text.now ≤ length end.now → result ≡ beginning }
        ensures within { IsPlaceOf text.now result }
    {
        Place::of_offset(text, text.len().saturating_sub(end.len()))
    }

    /// Returns the same place of a file in which the text begins at this line, from 1 on. The line is at most the largest
    /// `usize`.
    pub fn from_line(self, line: usize) -> Place
        ensures { result ≡ from_line line self }
    {
        let before = line.saturating_sub(1);
        Place {
            line: self.line.saturating_add(before),
            column: self.column,
        }
    }

    /// Returns the place in words: `line LINE, column COLUMN`, in decimal.
    ///
    /// # Errors
    ///
    /// `AllocError` alone.
    pub fn in_words(self, alloc: Global) -> Result<String, AllocError>
        ensures { IfOk result (λ words. string_bytes words ≡ place_words self) }
    {
        let Place { line, column } = self;
        format!(in alloc; "line {line}, column {column}")
    }
}
