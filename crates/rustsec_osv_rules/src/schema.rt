//! The rules of the OSV schema 1.7.0, and the call that decides whether a JSON document keeps them.

pub(crate) mod affected;
pub(crate) mod export;
pub(crate) mod forms;
pub(crate) mod keys;
pub(crate) mod metrics;
pub(crate) mod names;
pub(crate) mod osv_schema;
pub(crate) mod rule;
pub(crate) mod time;
pub(crate) mod vectors;
