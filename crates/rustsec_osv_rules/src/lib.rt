//! OSV's evaluation of documents, documents without two events at one version, and the rules of the OSV schema 1.7.0.
#![tactic(auto)]

mod evaluation;
mod schema;

pub use crate::evaluation::affected::{PackageVersion, is_affected};
pub use crate::evaluation::event::Event;
pub use crate::evaluation::export::document_of;
pub use crate::evaluation::order::has_ordered_events;
pub use crate::evaluation::pairs::normalized;
pub use crate::evaluation::range::says_affected;
pub use crate::schema::export::exported_value;
pub use crate::schema::osv_schema::is_osv_schema;
