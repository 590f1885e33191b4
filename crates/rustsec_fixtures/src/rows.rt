//! Rows of tables, and values that print as a text and are copied. A row is a line, and has bars between its fields.

use rustsec_values::FromText;
use std::alloc::Global;
use std::fmt::Display;
use std::test::Fail;

/// Returns a field of a row, from 0 on, without the blanks around it. It is empty if the row has fewer fields.
pub fn field(row: &str, place: usize) -> &str {
    row.split('|').nth(place).unwrap_or("").trim()
}

/// Returns a field of a row with ` | ` between the fields, and all its blanks. It is empty if the row has fewer fields.
pub fn exact_field(row: &str, place: usize) -> &str {
    row.split(" | ").nth(place).unwrap_or("")
}

/// Returns whether a value prints as a text.
pub fn prints<T: Display>(alloc: Global, value: &T, text: &str) -> Result<bool, Fail> {
    let printed = value.to_string(alloc)?;
    Ok(printed.as_str() == text)
}

/// Returns whether a copy of a value is equal to it.
pub fn is_copied<T: Clone + PartialEq + Drop>(value: &T) -> Result<bool, Fail> {
    let copy = value.clone()?;
    Ok(copy == *value)
}

/// Returns whether a text is read as a value, and the value and an equal copy of it print as the text.
pub fn is_kept<T: FromText + Clone + Display + PartialEq>(
    alloc: Global,
    text: &str,
) -> Result<bool, Fail> {
    let value = T::from_text(alloc, text)?;
    let copy = value.clone()?;
    Ok(copy == value && prints(alloc, &value, text)? && prints(alloc, &copy, text)?)
}
