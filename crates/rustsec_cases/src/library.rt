//! All cases of a folder.

use crate::case::{Case, Place, read_case};
use crate::compare::difference;
use crate::folders::{names_in, text_at};
use crate::run::{Found, run_in_memory, run_over_real_files};
use anyhow::{Result, bail};
use rustsec_values::Text;
use std::alloc::{AllocError, Global};
use std::rt::Files;

/// How many cases there are, how many differ, and how much is wrong beside them.
#[derive(Clone, Copy)]
struct Counts {
    cases: u64,
    differ: u64,
    faults: u64,
}

/// The cases of a folder, and what was found of those that were run.
#[derive(Drop)]
pub struct Library<'a, R> {
    rt: &'a R,
    folder: &'a str,
    names: Vec<Text>,
    counts: Counts,
}

/// Returns how a case differs from what a run wrote.
fn compared(alloc: Global, case: &Case, run: Result<Found>) -> Result<Option<String>> {
    let found = run?;
    difference(alloc, case, &found)
}

impl<'a, R: Files + AllocGlobal + Print> Library<'a, R> {
    /// Returns the cases of a folder before any is run.
    pub fn new(rt: &'a R, folder: &'a str) -> Library<'a, R> {
        Library {
            rt,
            folder,
            names: Vec::new(rt.alloc()),
            counts: Counts {
                cases: 0,
                differ: 0,
                faults: 0,
            },
        }
    }

    /// Returns how a case differs over its files in memory, and over real files if it asks for them.
    fn difference(&self, case: &Case) -> Result<Option<String>> {
        let alloc = self.rt.alloc();
        if let Some(why) = compared(alloc, case, run_in_memory(alloc, case))? {
            return Ok(Some(why));
        }
        if !case.is_real {
            return Ok(None);
        }
        compared(alloc, case, run_over_real_files(self.rt, case))
    }

    /// Reads the case of a file, and returns how it differs.
    fn run(&self, folder: &str, file: &str) -> Result<Option<String>> {
        let at = self.folder;
        let path = format!(in self.rt.alloc(); "{at}/{folder}/{file}")?;
        let text = text_at(self.rt, &path)?;
        let place = Place {
            rt: self.rt,
            folder: self.folder,
        };
        let case = read_case(&place, text.as_str())?;
        self.difference(&case)
    }

    /// Keeps the name of a case, which no case before it has.
    fn add_name(&mut self, file: &Text) -> Result<()> {
        if !file.as_str().ends_with(".case") {
            bail!("its name does not end in .case");
        }
        if self.names.contains(file) {
            bail!("another case has this name");
        }
        let name = file.clone()?;
        self.names.push(name).map_err(AllocError::from)?;
        Ok(())
    }

    /// Runs the case of a file, and prints how it differs or why it is not a case.
    fn run_file(&mut self, folder: &str, file: &Text) -> Result<()> {
        let named = self.add_name(file);
        let answer = match named {
            Ok(()) => self.run(folder, file.as_str()),
            Err(why) => Err(why),
        };
        match answer {
            Ok(None) => self.counts.cases = self.counts.cases.saturating_add(1),
            Ok(Some(why)) => {
                self.counts.cases = self.counts.cases.saturating_add(1);
                self.counts.differ = self.counts.differ.saturating_add(1);
                println!(self.rt; "{folder}/{file}: {why}")?;
            }
            Err(why) => {
                self.counts.faults = self.counts.faults.saturating_add(1);
                println!(self.rt; "{folder}/{file}: {why}")?;
            }
        }
        Ok(())
    }

    /// Runs the cases of a folder.
    fn run_folder(&mut self, folder: &str) -> Result<()> {
        let at = self.folder;
        let path = format!(in self.rt.alloc(); "{at}/{folder}")?;
        let files = names_in(self.rt, &path)?;
        if files.is_empty() {
            self.counts.faults = self.counts.faults.saturating_add(1);
            println!(self.rt; "{folder}: it has no case")?;
        }
        for file in &files {
            self.run_file(folder, file)?;
        }
        Ok(())
    }

    /// Runs the cases of all folders but that of shared contents.
    pub fn run_all(&mut self) -> Result<()> {
        for folder in names_in(self.rt, self.folder)? {
            if folder.as_str() != "shared" {
                self.run_folder(folder.as_str())?;
            }
        }
        Ok(())
    }

    /// Prints the counts, and returns whether all is well.
    pub fn conclude(&self) -> Result<bool> {
        let Counts {
            cases,
            differ,
            faults,
        } = self.counts;
        if cases == 0 {
            println!(self.rt; "there is no case")?;
        }
        println!(self.rt; "{cases} cases, {differ} differ")?;
        Ok(cases > 0 && differ == 0 && faults == 0)
    }
}
