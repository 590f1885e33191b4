//! The sections of a case.

use crate::escape;
use anyhow::{Result, bail};
use std::alloc::{AllocError, Global};

/// A section: what its head says, without the word `escaped`, and its contents.
#[derive(Drop)]
pub struct Section<'a> {
    pub head: &'a str,
    is_escaped: bool,
    pub contents: Vec<u8>,
}

/// Returns what a line `-- HEAD --` says, or `None` for another line.
fn head_of(line: &str) -> Option<&str> {
    let line = line.strip_suffix("\n").unwrap_or(line);
    line.strip_prefix("-- ")?.strip_suffix(" --")
}

impl<'a> Section<'a> {
    /// Returns a section without lines.
    fn new(alloc: Global, head: &'a str) -> Section<'a> {
        let contents = Vec::new(alloc);
        match head.strip_prefix("escaped ") {
            Some(head) => Section {
                head,
                is_escaped: true,
                contents,
            },
            None => Section {
                head,
                is_escaped: false,
                contents,
            },
        }
    }

    /// Appends a line with its line feed.
    fn add_line(&mut self, line: &str) -> Result<()> {
        if !self.is_escaped {
            self.contents.extend_from_slice(line.as_bytes())?;
            return Ok(());
        }
        let mut state = escape::State::Plain;
        for byte in line.as_bytes() {
            state = escape::read(&mut self.contents, state, *byte)?;
        }
        match state {
            escape::State::Plain => Ok(()),
            _ => bail!("an escape is not complete"),
        }
    }
}

/// Adds a line to the sections before it.
fn add_line<'a>(alloc: Global, sections: &mut Vec<Section<'a>>, line: &'a str) -> Result<()> {
    if let Some(head) = head_of(line) {
        sections
            .push(Section::new(alloc, head))
            .map_err(AllocError::from)?;
        return Ok(());
    }
    match sections.last_mut() {
        Some(section) => section.add_line(line),
        None => bail!("a line before the first section"),
    }
}

/// Returns the sections of a text.
pub fn sections_of(alloc: Global, text: &str) -> Result<Vec<Section<'_>>> {
    if !text.is_empty() && !text.ends_with("\n") {
        bail!("its last line has no line feed");
    }
    let mut sections = Vec::new(alloc);
    for line in text.split_inclusive("\n") {
        add_line(alloc, &mut sections, line)?;
    }
    Ok(sections)
}
