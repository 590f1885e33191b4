//! Why a pair of a package and an advisory is not a finding: every test that it fails.
#![tactic(auto)]

mod explanation;
mod held;
mod pairs;
mod reason;
mod tests_of_pairs;
mod wording;

pub use crate::explanation::{Explained, explain, explain_id};
pub use crate::pairs::reasons;
pub use crate::reason::Reason;
