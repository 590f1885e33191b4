//! What is wrong in a whole database: each file's lint errors, refusal and place, and the IDs that occur twice.
#![tactic(auto)]

mod counts;
mod database;
mod file;
mod hints;
mod lines;
mod messages;
mod placement;
mod readings;
mod remark;
mod upstream;

pub use crate::counts::{Counts, counts_of};
pub use crate::database::{Entry, Step, Watcher, lint_database};
pub use crate::file::{FileLint, FileNotes, Linted, lint_file, lint_source};
pub use crate::hints::lint_help;
pub use crate::readings::{reading_notes, readings_of};
pub use crate::remark::{Remark, RemarkKind};
pub use crate::upstream::{upstream_notes, upstream_remarks};
