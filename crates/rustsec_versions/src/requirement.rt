//! Requirements: what their comparators state, their lists, and their texts.

pub(crate) mod comparator;
pub(crate) mod print;
pub(crate) mod requirements;
pub(crate) mod semver_texts;
