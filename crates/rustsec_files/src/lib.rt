//! Files and folders of a database: what their paths say, their texts, what is in a folder, and the source files under a
//! root, over any folders.
#![tactic(auto)]

mod entry;
mod folders;
mod listing;
mod names;
pub mod path;
pub mod reading;
mod real;
mod source_file;
mod split;

pub use crate::entry::FolderEntry;
pub use crate::folders::Folders;
pub use crate::listing::{source_files, source_paths};
pub use crate::real::RealFolders;
pub use crate::source_file::SourceFile;
pub use crate::split::{entry_names, listed_names, opened_names};
