//! Runs worked examples of commands, which are files of cases. README.md beside this crate has their form.
#![tactic(auto)]

mod case;
mod compare;
mod escape;
mod folders;
mod library;
mod memory;
mod run;
mod section;
mod words;

use crate::library::Library;
use std::env;
use std::process::ExitCode;

/// Returns the folder of the cases: the first argument, or the folder that the program runs in.
fn folder(rt: &HostRuntime) -> anyhow::Result<String> {
    for word in env::args(rt)?.skip(1) {
        return Ok(word);
    }
    Ok(String::from_str(rt.alloc(), ".")?)
}

/// Runs the cases of a folder, and returns whether all is well.
fn carry_out(rt: &HostRuntime) -> anyhow::Result<bool> {
    let folder = folder(rt)?;
    let mut library = Library::new(rt, &folder);
    library.run_all()?;
    library.conclude()
}

fn main(rt: HostRuntime) -> ExitCode {
    match carry_out(&rt) {
        Ok(true) => ExitCode::from(0),
        Ok(false) => ExitCode::from(1),
        Err(why) => {
            // The status tells the fault even if it cannot be written.
            let _ = println!(rt; "the cases cannot be run: {why}");
            ExitCode::from(1)
        }
    }
}
