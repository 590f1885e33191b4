//! Lockfiles, the names and sources of their packages, platforms, and ratings of CVSS vectors.
#![tactic(auto)]

mod cvss;
mod lockfile;
mod metrics;
mod names;
mod packages;
pub mod platforms;
mod score;
mod severity;
mod source;
mod source_order;

/// Packages and their names.
pub mod package {
    pub use crate::names::Name;
    pub use crate::packages::Package;
}

pub use crate::cvss::Cvss;
pub use crate::lockfile::Lockfile;
pub use crate::metrics::{
    AttackComplexity, AttackVector, Availability, Base, Confidentiality, Integrity,
    PrivilegesRequired, Scope, UserInteraction,
};
pub use crate::severity::Severity;
pub use crate::source::{SourceId, SourceKind};
