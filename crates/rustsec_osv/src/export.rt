//! The export of advisories as OSV documents, and what other programs extract from a document.

mod document;
mod events;
mod imports;
pub(crate) mod members;
mod references;
