//! What the command `lint-database` writes: what is wrong in a database as JSON, and as lines for people.
#![tactic(auto)]

mod line;
mod text;
mod tree;

pub use crate::line::lint_line;
pub use crate::text::lint_text;
pub use crate::tree::lint_tree;
