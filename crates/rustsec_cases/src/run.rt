//! Runs the command of a case.

use crate::case::Case;
use crate::memory::MemoryFiles;
use anyhow::{Result, bail};
use rustsec_commands::{Fault, run};
use rustsec_database_commands::{run_over, run_with_notes};
use rustsec_files::RealFolders;
use std::alloc::Global;
use std::fs;
use std::rt::Files;

/// What a command wrote, and its status.
#[derive(Drop)]
pub struct Found {
    pub output: Vec<u8>,
    pub notes: Vec<u8>,
    pub status: u8,
}

/// Returns the words of a case as `&str`.
fn texts(alloc: Global, words: &[String]) -> Result<Vec<&str>> {
    let mut texts = Vec::new(alloc);
    for word in words {
        texts.push(word.as_str())?;
    }
    Ok(texts)
}

/// Returns the status of a run that did not break off.
fn status_of(answer: std::result::Result<u8, Fault>) -> Result<u8> {
    match answer {
        Ok(status) => Ok(status),
        Err(Fault::Memory) => bail!("the command broke off: out of memory"),
        Err(Fault::Read) => bail!("the command broke off: the input cannot be read"),
        Err(Fault::Write) => bail!("the command broke off: the output cannot be written"),
    }
}

/// Runs a case over its files in memory.
pub fn run_in_memory(alloc: Global, case: &Case) -> Result<Found> {
    let files = MemoryFiles::new(alloc, case.files.as_slice());
    let mut folders = RealFolders::new(&files);
    let words = texts(alloc, case.words.as_slice())?;
    let mut input = case.input.as_slice();
    let mut output = Vec::new(alloc);
    let mut notes = Vec::new(alloc);
    let answer = run_over(
        &mut folders,
        alloc,
        &words,
        &mut input,
        &mut output,
        &mut notes,
    );
    let status = status_of(answer)?;
    Ok(Found {
        output,
        notes,
        status,
    })
}

/// The commands of `rustsec_commands`.
const COMMANDS: &[&str] = &["affected", "ranges", "lint", "report", "osv", "audit"];

/// Refuses an answer of `run` that is another one than what was found.
fn expect_same<R: Files + AllocGlobal>(
    rt: &R,
    case: &Case,
    words: &[&str],
    found: &Found,
) -> Result<()> {
    let mut input = case.input.as_slice();
    let mut output = Vec::new(rt.alloc());
    let status = status_of(run(rt, words, &mut input, &mut output))?;
    if status != found.status || output.as_slice() != found.output.as_slice() {
        bail!("`rustsec_commands::run` writes something else over the disk");
    }
    Ok(())
}

/// Runs a case over the files of the disk, and through `run` too if that has the command.
fn run_on_disk<R: Files + AllocGlobal>(rt: &R, case: &Case) -> Result<Found> {
    let words = texts(rt.alloc(), case.words.as_slice())?;
    let found = run_words(rt, case, &words)?;
    if let Some(command) = words.first() {
        if COMMANDS.contains(command) {
            expect_same(rt, case, &words, &found)?;
        }
    }
    Ok(found)
}

/// Runs words over the files of the disk.
fn run_words<R: Files + AllocGlobal>(rt: &R, case: &Case, words: &[&str]) -> Result<Found> {
    let mut input = case.input.as_slice();
    let mut output = Vec::new(rt.alloc());
    let mut notes = Vec::new(rt.alloc());
    let answer = run_with_notes(rt, words, &mut input, &mut output, &mut notes);
    let status = status_of(answer)?;
    Ok(Found {
        output,
        notes,
        status,
    })
}

/// Returns the first name of a path.
fn first_name(path: &str) -> &str {
    match path.split_once("/") {
        Some((name, _)) => name,
        None => path,
    }
}

/// Writes a file with its folders, or makes a folder.
fn write_file<R: Files + AllocGlobal>(rt: &R, path: &str, contents: Option<&[u8]>) -> Result<()> {
    let Some(bytes) = contents else {
        fs::create_dir_all(rt, path)?;
        return Ok(());
    };
    if let Some((folder, _)) = path.rsplit_once("/") {
        fs::create_dir_all(rt, folder)?;
    }
    fs::write(rt, path, bytes)?;
    Ok(())
}

/// Writes the files of a case.
fn write_files<R: Files + AllocGlobal>(rt: &R, case: &Case) -> Result<()> {
    for file in &case.files {
        let contents = file.contents.as_ref().map(|bytes| bytes.as_slice());
        write_file(rt, &file.path, contents)?;
    }
    Ok(())
}

/// Removes the files of a case.
fn remove_files<R: Files + AllocGlobal>(rt: &R, case: &Case) {
    for file in &case.files {
        let name = first_name(&file.path);
        if name == file.path.as_str() && file.contents.is_some() {
            let _ = fs::remove_file(rt, name);
        } else {
            let _ = fs::remove_dir_all(rt, name);
        }
    }
}

/// Refuses a case whose paths begin with a name that is on the disk.
fn expect_absent<R: Files>(rt: &R, case: &Case) -> Result<()> {
    for file in &case.files {
        if fs::symlink_metadata(rt, first_name(&file.path)).is_ok() {
            bail!("its files are on the disk already");
        }
    }
    Ok(())
}

/// Runs a case over its files, written to the disk and removed after it.
pub fn run_over_real_files<R: Files + AllocGlobal>(rt: &R, case: &Case) -> Result<Found> {
    expect_absent(rt, case)?;
    let found = match write_files(rt, case) {
        Ok(()) => run_on_disk(rt, case),
        Err(why) => Err(why),
    };
    remove_files(rt, case);
    found
}
