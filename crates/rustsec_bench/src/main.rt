//! The program `rustsec_bench`: makes a call of the library, most of them many times over the text of a file, so
//! that the call can be timed from outside.
//!
//!     rustsec_bench document|lockfile|dependencies|parts|advisory|lint N FILE
//!     rustsec_bench copy|from_rustsec|to_value|from_value N FILE
//!     rustsec_bench read FILE
//!     rustsec_bench load|query|look_up|vulnerabilities|report N ROOT NAME|LOCKFILE
//!     rustsec_bench readings ROOT LIST
//!
//! `document` only parses the text as a TOML document, `dependencies` reads a lockfile with the graph of its packages,
//! and `parts` splits an advisory and parses its front matter. The calls over a database take its root, and the name of
//! a package for `query` and `look_up`, else the path of a lockfile. `look_up` looks the name up in a hash map of the
//! names of all packages. These calls write nothing. The status is 0, 2 for other arguments, and 1 if the file cannot be
//! read or a call fails.
//!
//! `copy` and `from_rustsec` copy an advisory, and `from_rustsec` exports the copy; `to_value` builds the tree of
//! its document and prints the tree; `from_value` reads a JSON tree as a document. If one of these fails, the kind of
//! its error is written.
//!
//! `readings` opens the database under a root, and then reads the lockfile at each path of a list, a file with a path in
//! each line, with the graph of its packages. It writes nothing.
//!
//! `read` gives each input in a file to the reader that the input names, and writes a line for each.
#![tactic(auto)]

mod databases;
mod osv;
mod readers;

use rustsec_advisory::{Advisory, Linter};
use rustsec_graph::Graph;
use rustsec_lock::Lockfile;
use rustsec_texts::Parts;
use rustsec_toml::TablePlace;
use rustsec_values::{Error, ErrorKind, Result};
use std::alloc::Global;
use std::process::ExitCode;
use std::{env, fs};

/// The call that is made.
#[derive(Clone, Copy)]
enum Call {
    Document,
    Lockfile,
    Dependencies,
    Parts,
    Advisory,
    Lint,
}

/// Returns the call with a name.
fn call_of(word: &str) -> Option<Call> {
    match word {
        "document" => Some(Call::Document),
        "lockfile" => Some(Call::Lockfile),
        "dependencies" => Some(Call::Dependencies),
        "parts" => Some(Call::Parts),
        "advisory" => Some(Call::Advisory),
        "lint" => Some(Call::Lint),
        _ => None,
    }
}

/// Parses a TOML document.
fn document(alloc: Global, text: &str) -> Result<()> {
    match toml::table_from_str(alloc, text) {
        Ok(_) => Ok(()),
        Err(_) => Err(Error::new(alloc, ErrorKind::Parse, "no document")),
    }
}

/// Reads a lockfile with the graph of its packages.
fn dependencies(alloc: Global, text: &str) -> Result<()> {
    let table = rustsec_toml::document(alloc, text, TablePlace::whole(text), "the lockfile")?;
    let lockfile = Lockfile::from_table(alloc, &table)?;
    Graph::from_table(alloc, &table, &lockfile)?;
    Ok(())
}

/// Makes a call once.
fn once(alloc: Global, call: Call, text: &str) -> Result<()> {
    match call {
        Call::Document => document(alloc, text)?,
        Call::Lockfile => {
            Lockfile::from_str(alloc, text)?;
        }
        Call::Dependencies => dependencies(alloc, text)?,
        Call::Parts => document(alloc, Parts::parse(alloc, text)?.front_matter)?,
        Call::Advisory => {
            Advisory::from_str(alloc, text)?;
        }
        Call::Lint => {
            Linter::lint_string(alloc, text, Some(false))?;
        }
    }
    Ok(())
}

/// Makes a call many times.
fn repeat(alloc: Global, call: Call, times: u32, text: &str) -> Result<()> {
    for _ in 0..times {
        once(alloc, call, text)?;
    }
    Ok(())
}

/// Returns the arguments after the program's name, if they are UTF-8.
fn words(rt: &HostRuntime) -> Option<Vec<String>> {
    let mut words = Vec::new(rt.alloc());
    for word in env::args(rt).ok()?.skip(1) {
        words.push(word).ok()?;
    }
    Some(words)
}

/// Returns the call, how often it is made, and the file.
fn asked(words: &[String]) -> Option<(Call, u32, &str)> {
    match words {
        [call, times, path] => {
            let call = call_of(call)?;
            let times = times.parse().ok()?;
            Some((call, times, path.as_str()))
        }
        _ => None,
    }
}

/// Returns the call over a database, how often it is made, its root, and the package name or lockfile.
fn asked_of_database(words: &[String]) -> Option<(databases::Call, u32, &str, &str)> {
    match words {
        [call, times, root, of] => {
            let call = databases::call_of(call)?;
            let times = times.parse().ok()?;
            Some((call, times, root.as_str(), of.as_str()))
        }
        _ => None,
    }
}

/// Returns the root and the list of the call `readings`.
fn asked_of_list(words: &[String]) -> Option<(&str, &str)> {
    match words {
        [call, root, list] if call.as_str() == "readings" => Some((root.as_str(), list.as_str())),
        _ => None,
    }
}

/// Returns the exit status for the answer of a call.
fn status(answer: Result<()>) -> ExitCode {
    match answer {
        Ok(()) => ExitCode::from(0),
        Err(_) => ExitCode::from(1),
    }
}

fn main(rt: HostRuntime) -> ExitCode {
    let Some(words) = words(&rt) else {
        return ExitCode::from(2);
    };
    if let Some(path) = readers::asked(&words) {
        return readers::read_file(&rt, path);
    }
    if let Some((root, list)) = asked_of_list(&words) {
        return status(databases::read_list(&rt, root, list));
    }
    if let Some((call, times, root, of)) = asked_of_database(&words) {
        return status(databases::repeat(&rt, call, times, root, of));
    }
    let Some((call, times, path)) = asked(&words) else {
        return osv::run(&rt, &words);
    };
    let Ok(text) = fs::read_to_string(&rt, path) else {
        return ExitCode::from(1);
    };
    status(repeat(rt.alloc(), call, times, &text))
}
