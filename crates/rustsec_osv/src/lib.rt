//! OSV documents of advisories: the export, their JSON trees, and the reader of such trees.
#![tactic(auto)]

mod affected;
mod codec;
mod document;
mod export;
mod ranges;
mod reference;
mod severity;
mod timeline;

pub use crate::affected::{
    OsvAffected, OsvDatabaseSpecific, OsvEcosystemSpecific, OsvEcosystemSpecificAffected,
    OsvPackage,
};
pub use crate::document::{MainOsvDatabaseSpecific, OsvAdvisory};
pub use crate::export::members::noon;
pub use crate::ranges::OsvJsonRange;
pub use crate::reference::{OsvReference, OsvReferenceKind};
pub use crate::severity::OsvSeverity;
pub use crate::timeline::OsvTimelineEvent;
