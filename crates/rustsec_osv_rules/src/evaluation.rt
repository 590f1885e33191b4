//! OSV's evaluation of documents (OSV schema, "Evaluation"), and documents without two events at one version.

pub(crate) mod affected;
pub(crate) mod event;
pub(crate) mod export;
pub(crate) mod order;
pub(crate) mod pairs;
pub(crate) mod range;
