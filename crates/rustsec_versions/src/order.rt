//! The order of versions: the least one above another.

pub(crate) mod next_version;
