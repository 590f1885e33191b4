//! JSON trees (RFC 8259): trees of values, and values of trees.
#![tactic(auto)]

mod fields;
mod line;
mod make;
mod object;
mod read;
mod refusal;
mod texts;

pub use crate::fields::{fields_of, list_at, member, optional_at, required_at};
pub use crate::line::tree_line;
pub use crate::make::ToTree;
pub use crate::object::{put_at, put_if};
pub use crate::read::FromTree;
pub use crate::refusal::{parse_error, unexpected_error, with_index, with_key};
