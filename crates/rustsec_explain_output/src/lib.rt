//! What the command `explain` writes: the pairs of an explanation as JSON, and as lines for people.
#![tactic(auto)]

mod entry_tree;
mod reason_text;
mod rules;
mod text;
mod tree;

pub use crate::rules::Rules;
pub use crate::text::explain_text;
pub use crate::tree::{explain_tree, pair_tree, reason_name};
