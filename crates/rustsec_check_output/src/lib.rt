//! What is written of a check: its JSON tree on one line, and its text for people.
#![tactic(auto)]

mod advisory_json;
mod block;
mod blocks;
mod check_json;
mod dated;
mod finding_json;
mod ignored_json;
mod lines;
mod list_json;
mod package_json;
mod part;
mod quoted;
pub mod rank;
pub mod rating;
mod selection;
mod text;
mod tree_lines;
mod update_json;
mod written;
mod yanked_block;
mod yanked_json;

pub use crate::dated::Dated;
pub use crate::text::check_text;
pub use crate::tree_lines::{check_line, many_line, refused_line};
pub use crate::written::Written;
