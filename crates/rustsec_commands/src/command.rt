//! The commands, each with the output that it makes.

pub(crate) mod affected;
pub(crate) mod audit;
pub(crate) mod lint;
pub(crate) mod osv;
pub(crate) mod ranges;
pub(crate) mod report;
