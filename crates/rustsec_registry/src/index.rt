//! The versions that a registry's index lists, read from the files that Cargo leaves in a folder.

pub(crate) mod entry;
pub(crate) mod file;
pub(crate) mod folder;
pub(crate) mod form;
pub(crate) mod path;
pub(crate) mod place;
pub(crate) mod yanked;
