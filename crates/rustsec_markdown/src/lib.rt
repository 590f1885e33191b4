//! What is written of a check for a comment on a pull request: GitHub Flavored Markdown, in which no text of a file
//! starts a link, a mention or a line.
#![tactic(auto)]

mod cells;
mod escaped;
mod fitting;
mod lines;
mod row;
mod text;

pub use crate::escaped::markdown_escaped;
pub use crate::text::markdown_text;
