//! The folder of the cases on the disk.

use anyhow::{Result, bail};
use rustsec_files::{Folders, RealFolders};
use rustsec_values::Text;
use std::alloc::AllocError;
use std::fs;
use std::rt::Files;

/// Returns the text of a file.
pub fn text_at<R: Files + AllocGlobal>(rt: &R, path: &str) -> Result<Text> {
    match RealFolders::new(rt).read(rt.alloc(), path) {
        Ok(text) => Ok(text),
        Err(error) => {
            let why = error.text_with_cause(rt.alloc())?;
            bail!("{why}")
        }
    }
}

/// Returns the bytes of a file.
pub fn bytes_at<R: Files + AllocGlobal>(rt: &R, path: &str) -> Result<Vec<u8>> {
    Ok(fs::read(rt, path)?)
}

/// Returns the names in a folder, in the order of their bytes.
pub fn names_in<R: Files + AllocGlobal>(rt: &R, path: &str) -> Result<Vec<Text>> {
    let names = match RealFolders::new(rt).names(rt.alloc(), path) {
        Ok(names) => names,
        Err(error) => {
            let why = error.text_with_cause(rt.alloc())?;
            bail!("{why}")
        }
    };
    let mut names = Vec::from(names);
    if names.sort().is_err() {
        return Err(AllocError.into());
    }
    Ok(names)
}
