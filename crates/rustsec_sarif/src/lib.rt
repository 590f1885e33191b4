//! What is written of a check as a log of SARIF 2.1.0 (OASIS).
#![tactic(auto)]

mod firsts;
mod log;
mod messages;
mod object;
mod results;
mod rules;
mod said;
mod uri;

pub use crate::log::{sarif_text, sarif_tree};
