//! Policies of audits: which advisories are ignored and why, which findings fail, and for which platforms (the file
//! `audit.toml` of cargo-audit).
#![tactic(auto)]

mod choices;
mod entries;
mod flags;
mod ignored;
mod keys;
mod nearest;
mod notes;
mod places;
mod policy;
mod refused;
mod sections;
mod threshold;
mod unused;

pub use crate::choices::{Denied, OutputFormat, PackageSource};
pub use crate::entries::entry_with;
pub use crate::ignored::Ignored;
pub use crate::nearest::nearest_word;
pub use crate::notes::denies_yanked;
pub use crate::policy::Policy;
pub use crate::sections::{AdvisoryPolicy, OutputPolicy, TargetPolicy};
pub use crate::threshold::read_severity;
pub use crate::unused::{DatabasePolicy, PackagePolicy, YankedPolicy};
