//! Which versions an advisory affects: intervals of versions, and lists of requirements.
#![tactic(auto)]

mod acceptance;
mod bound;
mod difference;
mod interval;
mod order;
mod ranges;
mod requirement;
mod search;
mod versions;

pub use crate::bound::Bound;
pub use crate::difference::{Difference, find_difference};
pub use crate::interval::UnaffectedRange;
pub use crate::order::next_version::successor;
pub use crate::ranges::OsvRange;
pub use crate::requirement::print::requirement_text;
pub use crate::requirement::requirements::Requirements;
pub use crate::requirement::semver_texts::{is_out_of_memory, read_requirement, read_version};
pub use crate::search::steps::Steps;
pub use crate::versions::Versions;
pub use crate::versions::advisory_ranges::ranges_for_advisory;
pub use rustsec_values::{Error, ErrorKind, FromText, Result, file_error, text_error, with_place};
