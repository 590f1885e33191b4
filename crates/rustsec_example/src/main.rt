//! The program `rustsec_example`: a policy check over the library, as a crate of your own would make it. It opens a
//! database of two advisories in memory, reads `Cargo.lock` in the folder that it runs in, and prints a line for each
//! vulnerability. Its status is 1 if the policy forbids one of them, 2 if something is refused, and else 0.
#![tactic(auto)]

mod advisories;

use crate::advisories::ADVISORIES;
use rustsec::database::Database;
use rustsec::{Items, Lockfile, Result, Severity, SourceFile, Text, Vulnerability};
use std::alloc::Global;
use std::fmt::Write as _;
use std::process::ExitCode;

/// What a check answers: its lines, and whether the policy forbids one of them.
#[derive(Drop)]
struct Answer {
    text: String,
    is_forbidden: bool,
}

/// Returns the file of an advisory.
fn source_file(alloc: Global, path: &str, text: &str) -> Result<SourceFile> {
    let path = Text::from_str(alloc, path)?;
    let text = Text::from_str(alloc, text)?;
    Ok(SourceFile { path, text })
}

/// Opens the database of the advisories in memory.
fn open(alloc: Global) -> Result<Database> {
    let mut files = Items::new(alloc);
    for (path, text) in ADVISORIES {
        files.push(source_file(alloc, path, text)?)?;
    }
    Database::load(alloc, files.as_slice())
}

/// Decides the policy: a vulnerability that is rated high or critical, or has no rating, is forbidden.
fn is_forbidden(vulnerability: &Vulnerability) -> bool {
    match &vulnerability.advisory.cvss {
        Some(cvss) => !matches!(
            cvss.severity(),
            Some(Severity::None | Severity::Low | Severity::Medium)
        ),
        None => true,
    }
}

/// Appends the line of a vulnerability.
fn add_line(answer: &mut Answer, vulnerability: &Vulnerability) -> Result<()> {
    let is_forbidden = is_forbidden(vulnerability);
    let word = if is_forbidden {
        "forbidden"
    } else {
        "tolerated"
    };
    let name = &vulnerability.package.name;
    let version = &vulnerability.package.version;
    let id = &vulnerability.advisory.id;
    writeln!(answer.text, "{word} {name} {version} {id}")?;
    answer.is_forbidden = answer.is_forbidden || is_forbidden;
    Ok(())
}

/// Checks a lockfile against the database.
fn check(alloc: Global, database: &Database, lockfile: &Lockfile) -> Result<Answer> {
    let mut answer = Answer {
        text: String::new(alloc),
        is_forbidden: false,
    };
    let found = database.vulnerabilities(alloc, lockfile)?;
    for vulnerability in &found {
        add_line(&mut answer, vulnerability)?;
    }
    Ok(answer)
}

/// Carries out the check of the lockfile in the folder.
fn carry_out(rt: &HostRuntime) -> Result<Answer> {
    let alloc = rt.alloc();
    let lockfile = Lockfile::load(rt, alloc, "Cargo.lock")?;
    let database = open(alloc)?;
    check(alloc, &database, &lockfile)
}

fn main(rt: HostRuntime) -> ExitCode {
    let (text, status) = match carry_out(&rt) {
        Ok(answer) => (answer.text, if answer.is_forbidden { 1 } else { 0 }),
        Err(error) => {
            // A message that cannot be written changes nothing: the status tells.
            let _ = match error.cause() {
                Some(cause) => eprintln!(rt; "{error}: {cause}"),
                None => eprintln!(rt; "{error}"),
            };
            return ExitCode::from(2);
        }
    };
    match print!(rt; "{text}") {
        Ok(()) => ExitCode::from(status),
        Err(_) => ExitCode::from(2),
    }
}
