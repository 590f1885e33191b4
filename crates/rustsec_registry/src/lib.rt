//! Which packages of a registry are yanked, with one look-up for each name; the versions that a registry's index lists, read
//! from the files that Cargo leaves in a folder; and signatures of commits.
#![tactic(auto)]

mod cache_entry;
mod cached_index;
mod distinct;
pub mod index;
mod lookup;
mod signature;
mod yanked_status;

pub use crate::cached_index::CachedIndex;
pub use crate::index::file::versions_in;
pub use crate::index::folder::IndexFolder;
pub use crate::index::form::IndexForm;
pub use crate::index::path::index_path;
pub use crate::index::yanked::{YankedPackages, yanked_in};
pub use crate::lookup::{IndexVersion, Lookup};
pub use crate::signature::Signature;
