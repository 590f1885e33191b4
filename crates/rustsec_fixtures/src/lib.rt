//! Fixtures of tests: parsed versions and requirements, advisory files, CVSS vectors, roots of databases, folders and
//! files in memory, readers and writers that fail, and the fields of rows.
#![tactic(auto)]

mod advisory_texts;
mod cvss;
mod fakes;
mod folders_in_memory;
mod open_bytes;
mod roots;
mod rows;
mod values;

pub use crate::advisory_texts::{
    INVALID, INVALID_ERRORS, SHORT, SHORT_DOCUMENT, VALID, acceptance, acceptance_with, changed,
};
pub use crate::cvss::{base_of, is_printed, score};
pub use crate::fakes::{ByteReader, ByteWriter, TextWriter};
pub use crate::folders_in_memory::{Failing, Holds, MemoryFolders, Paths};
pub use crate::open_bytes::{OpenBytes, copied, metadata_of, unsupported};
pub use crate::roots::{ADVISORIES, FOUR_PACKAGES, UNMAINTAINED, VULNERABLE, WITHDRAWN, make_root};
pub use crate::rows::{exact_field, field, is_copied, is_kept, prints};
pub use crate::values::{interval, kind_of, lists, requirements, some_affects, version};
