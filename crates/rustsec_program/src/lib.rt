//! The commands of the program `rustsec_audit`: `check`, `check-many` and `explain` here, and the others of
//! `rustsec_commands`.
#![tactic(auto)]

mod check;
mod checked;
mod command;
mod commands;
mod explain;
mod forms;
mod keys;
mod locked;
mod many;
mod misuse;
mod notes;
mod options;
mod plan;
mod readings;
mod request;
mod shapes;
mod usage;
mod wanted;

pub use crate::commands::{finish, run_over, run_with_notes};
