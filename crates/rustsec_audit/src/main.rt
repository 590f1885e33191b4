//! The program `rustsec_audit`: `rustsec_database_commands` over its arguments, its input, its output and its error output.
#![tactic(auto)]

use rustsec_commands::Fault;
use rustsec_database_commands::run_with_notes;
use std::alloc::Global;
use std::env::VarError;
use std::io::{ErrorKind, IsTerminal};
use std::process::ExitCode;
use std::{env, io};

/// Returns the arguments after the program's name; no argument at all if one is not UTF-8.
fn words(rt: &HostRuntime) -> Result<Vec<String>, Fault> {
    let mut words = Vec::new(rt.alloc());
    match env::args(rt) {
        Ok(args) => {
            for word in args.skip(1) {
                words.push(word).map_err(|_| Fault::Memory)?;
            }
        }
        Err(e) if e.kind() == ErrorKind::OutOfMemory => return Err(Fault::Memory),
        Err(_) => {}
    }
    Ok(words)
}

/// Returns the arguments as `&str`.
fn texts(alloc: Global, words: &[String]) -> Result<Vec<&str>, Fault> {
    let mut texts = Vec::new(alloc);
    for word in words {
        texts.push(word.as_str()).map_err(|_| Fault::Memory)?;
    }
    Ok(texts)
}

/// Returns whether a text for people has colors where no word says so: whether the output is a terminal, and the variable
/// `NO_COLOR` is missing or empty (no-color.org).
fn wants_colors(rt: &HostRuntime) -> bool {
    match env::var(rt, "NO_COLOR") {
        Ok(value) => value.is_empty() && rt.stdout().is_terminal(),
        Err(VarError::NotPresent) => rt.stdout().is_terminal(),
        Err(_) => false,
    }
}

/// Asks for colors, if the words are those of `check`: before its options, so that an option `--color` of the words, which
/// comes later, counts.
fn add_colors(texts: &mut Vec<&str>) -> Result<(), Fault> {
    if texts.len() < 3 || texts[0] != "check" {
        return Ok(());
    }
    texts.insert(3, "always").map_err(|_| Fault::Memory)?;
    texts.insert(3, "--color").map_err(|_| Fault::Memory)
}

/// Carries out the command that the arguments name.
fn carry_out(rt: &HostRuntime) -> Result<u8, Fault> {
    let words = words(rt)?;
    let mut texts = texts(rt.alloc(), &words)?;
    if wants_colors(rt) {
        add_colors(&mut texts)?;
    }
    run_with_notes(
        rt,
        &texts,
        &mut rt.stdin(),
        &mut io::writer(rt),
        &mut rt.stderr(),
    )
}

fn main(rt: HostRuntime) -> ExitCode {
    match carry_out(&rt) {
        Ok(status) => ExitCode::from(status),
        Err(_) => {
            // The status shows the fault even if the error output cannot be written.
            let _ = eprintln!(rt; "failed");
            ExitCode::from(3)
        }
    }
}
