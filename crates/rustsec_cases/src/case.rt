//! A case, read from its text.

use crate::folders::{bytes_at, text_at};
use crate::memory::File;
use crate::section::{Section, sections_of};
use crate::words::words_of;
use anyhow::{Result, bail};
use std::alloc::{AllocError, Global};
use std::rt::Files;

/// What is expected of the output or of the notes: the whole, or lines that are in it, in this order.
#[derive(Drop)]
pub struct Expected {
    pub bytes: Vec<u8>,
    pub is_part: bool,
}

/// A case.
#[derive(Drop)]
pub struct Case {
    pub words: Vec<String>,
    pub files: Vec<File>,
    pub input: Vec<u8>,
    pub output: Option<Expected>,
    pub notes: Option<Expected>,
    pub status: Option<u8>,
    /// Whether it is run over files on the disk too.
    pub is_real: bool,
}

/// Where cases and shared contents are read.
#[derive(Clone, Copy)]
pub struct Place<'a, R> {
    pub rt: &'a R,
    /// The folder of the cases.
    pub folder: &'a str,
}

/// Returns a copy of a text.
fn owned(alloc: Global, text: &str) -> Result<String> {
    Ok(String::from_str(alloc, text)?)
}

/// Refuses contents of a section that has none.
fn expect_no_lines(contents: &[u8]) -> Result<()> {
    if !contents.is_empty() {
        bail!("a section has lines that it can't have");
    }
    Ok(())
}

impl Case {
    /// Returns a case of words alone.
    fn new(alloc: Global, words: Vec<String>) -> Case {
        Case {
            words,
            files: Vec::new(alloc),
            input: Vec::new(alloc),
            output: None,
            notes: None,
            status: None,
            is_real: false,
        }
    }

    /// Adds a file, or a folder if there are no contents.
    fn add(&mut self, alloc: Global, path: &str, contents: Option<Vec<u8>>) -> Result<()> {
        let path = owned(alloc, path)?;
        self.files
            .push(File { path, contents })
            .map_err(AllocError::from)?;
        Ok(())
    }

    /// Adds the file of a section `file`.
    fn add_file<R: Files + AllocGlobal>(
        &mut self,
        place: &Place<'_, R>,
        path: &str,
        contents: Vec<u8>,
    ) -> Result<()> {
        let alloc = place.rt.alloc();
        let Some((path, name)) = path.split_once(" = ") else {
            return self.add(alloc, path, Some(contents));
        };
        expect_no_lines(&contents)?;
        let folder = place.folder;
        let shared = format!(in alloc; "{folder}/shared/{name}")?;
        let contents = bytes_at(place.rt, &shared)?;
        self.add(alloc, path, Some(contents))
    }

    /// Adds a section `file` or `folder`. Returns whether it is one.
    fn add_path<R: Files + AllocGlobal>(
        &mut self,
        place: &Place<'_, R>,
        section: Section<'_>,
    ) -> Result<bool> {
        let Section { head, contents, .. } = section;
        if let Some(path) = head.strip_prefix("file ") {
            self.add_file(place, path, contents)?;
            return Ok(true);
        }
        let Some(path) = head.strip_prefix("folder ") else {
            return Ok(false);
        };
        expect_no_lines(&contents)?;
        self.add(place.rt.alloc(), path, None)?;
        Ok(true)
    }

    /// Adds the files of a section `files`.
    fn add_files<R: Files + AllocGlobal>(
        &mut self,
        place: &Place<'_, R>,
        name: &str,
    ) -> Result<()> {
        let alloc = place.rt.alloc();
        let folder = place.folder;
        let path = format!(in alloc; "{folder}/shared/{name}.files")?;
        let text = text_at(place.rt, &path)?;
        for section in sections_of(alloc, text.as_str())? {
            if !self.add_path(place, section)? {
                bail!("{name}.files has another section than `file` and `folder`");
            }
        }
        Ok(())
    }

    /// Sets what is expected of the output.
    fn expect_output(&mut self, bytes: Vec<u8>, is_part: bool) -> Result<()> {
        if self.output.is_some() || is_part && bytes.is_empty() {
            bail!("two sections `output`, or one in part without lines");
        }
        self.output = Some(Expected { bytes, is_part });
        Ok(())
    }

    /// Sets what is expected of the notes.
    fn expect_notes(&mut self, bytes: Vec<u8>, is_part: bool) -> Result<()> {
        if self.notes.is_some() || is_part && bytes.is_empty() {
            bail!("two sections `notes`, or one in part without lines");
        }
        self.notes = Some(Expected { bytes, is_part });
        Ok(())
    }

    /// Sets the status.
    fn expect_status(&mut self, head: &str) -> Result<()> {
        let Some(number) = head.strip_prefix("status ") else {
            bail!("an unknown section `{head}`");
        };
        match number.parse::<u8>() {
            Ok(status) if self.status.is_none() => self.status = Some(status),
            _ => bail!("two sections `status`, or one without a number"),
        }
        Ok(())
    }

    /// Adds a section that is not a path.
    fn add_other(&mut self, section: Section<'_>) -> Result<()> {
        let Section { head, contents, .. } = section;
        match head {
            "input" => self.input = contents,
            "output" => self.expect_output(contents, false)?,
            "output in part" => self.expect_output(contents, true)?,
            "notes" => self.expect_notes(contents, false)?,
            "notes in part" => self.expect_notes(contents, true)?,
            _ => self.add_mark(head, &contents)?,
        }
        Ok(())
    }

    /// Adds a section that has no lines.
    fn add_mark(&mut self, head: &str, contents: &[u8]) -> Result<()> {
        if head == "real files" {
            self.is_real = true;
        } else {
            self.expect_status(head)?;
        }
        expect_no_lines(contents)
    }

    /// Adds a section.
    fn add_section<R: Files + AllocGlobal>(
        &mut self,
        place: &Place<'_, R>,
        section: Section<'_>,
    ) -> Result<()> {
        if let Some(name) = section.head.strip_prefix("files ") {
            expect_no_lines(&section.contents)?;
            return self.add_files(place, name);
        }
        if section.head.starts_with("file ") || section.head.starts_with("folder ") {
            self.add_path(place, section)?;
            return Ok(());
        }
        self.add_other(section)
    }
}

/// Returns the line of words of a case and the text after it.
fn parts_of(text: &str) -> Result<(&str, &str)> {
    let Some((sentence, rest)) = text.split_once("\n\n$") else {
        bail!("it has no sentence, blank line and line of words, which begins with `$`");
    };
    if sentence.is_empty() || rest.contains("\r") {
        bail!("it begins with a blank line, or has a carriage return");
    }
    match rest.split_once("\n") {
        Some(parts) => Ok(parts),
        None => bail!("it has no sections"),
    }
}

/// Reads a case.
pub fn read_case<R: Files + AllocGlobal>(place: &Place<'_, R>, text: &str) -> Result<Case> {
    let alloc = place.rt.alloc();
    let (words, rest) = parts_of(text)?;
    let mut case = Case::new(alloc, words_of(alloc, words)?);
    for section in sections_of(alloc, rest)? {
        case.add_section(place, section)?;
    }
    if case.output.is_none() || case.status.is_none() {
        bail!("it has no output or no status");
    }
    Ok(case)
}
