//! The commands of the program `rustsec_audit`: those about whole databases here, and the others of `rustsec_program`.
#![tactic(auto)]

mod command;
mod commands;
mod form;
mod lint;
mod misuse;
mod notes;
mod options;
mod osv_database;
mod osv_query;
mod stats;
mod usage;

pub use crate::commands::{run_over, run_with_notes};
