//! The program `rustsec_refused`: makes one call of the library between two lines of its output, `call` and
//! `done`, so that each request for memory of the call can be refused from outside. It then writes the
//! answer of the call, the state after the call if the call changes something, and the answer of the same
//! call made again.
//!
//!     rustsec_refused versions PATCHED UNAFFECTED     files with a requirement a line
//!     rustsec_refused parts|advisory|from_rustsec TEXT
//!     rustsec_refused load_text STORED NEW            files at their places in a database
//!     rustsec_refused load FILE..
//!     rustsec_refused report LOCK FILE..
//!     rustsec_refused find_yanked LOCK
//!     rustsec_refused answer INPUT
//!
//! Its status is 0, 2 for other arguments, and 1 if a file is missing or an earlier call fails.
#![tactic(auto)]

mod answers;
mod databases;
mod files;
mod lookups;
mod stored;
mod window;

use rustsec_values::Result;
use std::alloc::Global;
use std::env;
use std::process::ExitCode;

/// Makes the call that the arguments name, and writes its answer; none for other arguments.
fn carry_out(rt: &HostRuntime, words: &[&str]) -> Result<Option<()>> {
    match words {
        ["load_text", stored, new] => stored::write_load_text(rt, stored, new)?,
        ["find_yanked", lock] => lookups::write_find_yanked(rt, lock)?,
        _ => {
            let Some(answer) = answers::answer_of(rt, words)? else {
                return Ok(None);
            };
            let _ = println!(rt; "answer {answer}");
            if let Some(again) = answers::answer_of(rt, words)? {
                let _ = println!(rt; "again {again}");
            }
        }
    }
    Ok(Some(()))
}

/// Returns the arguments after the program's name, if they are UTF-8.
fn words(rt: &HostRuntime) -> Option<Vec<String>> {
    let mut words = Vec::new(rt.alloc());
    for word in env::args(rt).ok()?.skip(1) {
        words.push(word).ok()?;
    }
    Some(words)
}

/// Returns the arguments as `&str`.
fn texts(alloc: Global, words: &[String]) -> Option<Vec<&str>> {
    let mut texts = Vec::new(alloc);
    for word in words {
        texts.push(word.as_str()).ok()?;
    }
    Some(texts)
}

fn main(rt: HostRuntime) -> ExitCode {
    let Some(words) = words(&rt) else {
        return ExitCode::from(2);
    };
    let Some(texts) = texts(rt.alloc(), &words) else {
        return ExitCode::from(1);
    };
    match carry_out(&rt, &texts) {
        Ok(Some(())) => ExitCode::from(0),
        Ok(None) => ExitCode::from(2),
        Err(_) => ExitCode::from(1),
    }
}
