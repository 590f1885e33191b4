//! Which lists of requirements are accepted: no two clash, and overlapping patched ones are merged.

pub(crate) mod merge;
pub(crate) mod overlaps;
pub(crate) mod tagged;
