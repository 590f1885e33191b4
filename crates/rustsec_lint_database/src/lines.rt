//! The lines of an advisory's keys, for notes. No contract mentions them.

use crate::remark::Remark;
use rustsec_advisory::first_line;
use rustsec_texts::Parts;
use rustsec_toml::TablePlace;
use rustsec_values::{Items, Text};
use std::alloc::{AllocError, Global};

/// A section of an advisory.
#[derive(Clone, Copy)]
pub(crate) enum Section {
    /// The section `advisory`, whose header may be left out.
    Advisory,
    /// The section `versions`.
    Versions,
}

/// A key of an advisory's text.
#[derive(Clone, Copy)]
pub(crate) struct KeyIn<'a> {
    /// The text.
    pub text: &'a str,
    /// The key's section.
    pub section: Section,
    /// The key.
    pub key: &'a str,
}

/// Returns the keys that lead to a section of a front matter.
fn keys_to(section: Section, front: &str) -> &'static [&'static str] {
    match section {
        Section::Versions => &["versions"],
        Section::Advisory if front.starts_with("[advisory]") => &["advisory"],
        Section::Advisory => &[],
    }
}

impl<'a> KeyIn<'a> {
    /// Returns a key of the section `advisory`.
    pub fn advisory(text: &'a str, key: &'a str) -> KeyIn<'a> {
        let section = Section::Advisory;
        KeyIn { text, section, key }
    }

    /// Returns a key of the section `versions`.
    pub fn versions(text: &'a str, key: &'a str) -> KeyIn<'a> {
        let section = Section::Versions;
        KeyIn { text, section, key }
    }

    /// Returns the line of the text in which the key is, from 1 on, or that of its section if the key is not there; none
    /// if the text has no front matter.
    pub fn line(self, alloc: Global) -> Result<Option<usize>, AllocError> {
        let Ok(parts) = Parts::parse(alloc, self.text) else {
            return Ok(None);
        };
        let front = TablePlace {
            text: parts.front_matter,
            path: keys_to(self.section, parts.front_matter),
            index: None,
            element: None,
            line: first_line(self.text),
        };
        front.line_of(alloc, self.key)
    }
}

/// Returns words after the line that they are about, if it is known.
pub(crate) fn after_line(
    alloc: Global,
    line: Option<usize>,
    words: &str,
) -> Result<Text, AllocError> {
    let placed = match line {
        Some(line) => format!(in alloc; "line {line}: {words}")?,
        None => String::from_str(alloc, words)?,
    };
    Ok(Text::from(placed))
}

/// Appends the words of remarks, after the line of the key that they are about.
pub(crate) fn push_remarks(
    alloc: Global,
    notes: &mut Items<Text>,
    key: KeyIn<'_>,
    remarks: &[Remark],
) -> Result<(), AllocError> {
    if remarks.is_empty() {
        return Ok(());
    }
    let line = key.line(alloc)?;
    for remark in remarks {
        notes.push(after_line(alloc, line, remark.text.as_str())?)?;
    }
    Ok(())
}
