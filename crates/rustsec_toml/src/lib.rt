//! Parses TOML documents, and reads the values at the keys of their tables. Each error says where the fault is: its line
//! and column, the key and its table; the error for another kind of value also says what was found and what was expected.
//! Lines and columns of a text, the tokens of a document, and where the packages of a lockfile begin in its text.
#![tactic(auto)]

mod documents;
mod headers;
mod lines;
mod place;
mod section;
mod statements;
#[cfg(test)]
mod tests;

pub use crate::documents::{TablePlace, document};
pub use crate::headers::{package_places, skip_mark};
pub use crate::place::Place;
pub use crate::section::Section;
pub use crate::statements::key_at;
