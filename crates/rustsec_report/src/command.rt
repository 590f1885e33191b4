//! Commands that a caller may start.

use rustsec_values::{Items, Text};

/// A command: a program and its arguments, in order.
#[derive(Debug, Drop)]
pub struct FixCommand {
    /// The program, as a path or as a name that the system looks up.
    pub program: Text,
    /// The arguments.
    pub words: Items<Text>,
}
