//! The advisory database: loads advisories from files, and answers queries about them. The vulnerabilities of packages.
#![tactic(auto)]

mod database;
mod entries;
mod functions;
mod index;
mod keeping;
mod kept;
mod locked;
mod matches;
mod name_index;
mod open;
mod pair;
pub mod placement;
mod posting;
mod query;
mod slot;
mod span;
mod tests_of_fields;
mod vulnerability;
mod vulnerability_ref;

pub use crate::database::{Database, Iter};
pub use crate::entries::Entries;
pub use crate::index::Index;
pub use crate::kept::KeptDatabase;
pub use crate::locked::{Bearing, Locked};
pub use crate::matches::{Matches, MatchesPackage};
pub use crate::pair::{Pair, vulnerabilities_of};
pub use crate::query::Query;
pub use crate::slot::Slot;
pub use crate::vulnerability::Vulnerability;
pub use crate::vulnerability_ref::VulnerabilityRef;
pub use rustsec_files::SourceFile;
