//! The commands of the program `rustsec_audit`, over any reader and writer.
#![tactic(auto)]

mod args;
mod command;
mod commands;
pub mod error_output;
mod fault;
mod input;
pub mod output;

pub use crate::command::affected::answer;
pub use crate::command::audit::text::write_audit;
pub use crate::command::ranges::answer_ranges;
pub use crate::command::report::inputs::{Inputs, read_inputs};
pub use crate::command::report::overview::{Paths, unlisted_note};
pub use crate::commands::{run, run_over, run_with_notes};
pub use crate::fault::Fault;
pub use crate::input::read::read_all;
