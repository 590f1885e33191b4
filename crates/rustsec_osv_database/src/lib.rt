//! A database as OSV documents: all of them, a line each; or those that affect a version of a package, as an answer to a
//! query of OSV.
#![tactic(auto)]

mod answer;
mod exported;
mod lines;

pub use crate::answer::answer_of;
pub use crate::exported::{Choice, Exported};
pub use crate::lines::export;
