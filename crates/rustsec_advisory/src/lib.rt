//! Advisories of the RustSec database: their files, and the linter for them.
#![tactic(auto)]

mod advisory;
mod affected;
mod front_matter;
mod lint_places;
mod lint_rows;
mod lint_rules;
mod lint_values;
pub mod linter;
pub mod metadata;
mod requirements;

pub use crate::advisory::{Advisory, first_line};
pub use crate::affected::Affected;
pub use crate::lint_places::{lint_error_line, placed_errors};
pub use crate::linter::Linter;
pub use crate::metadata::Metadata;
