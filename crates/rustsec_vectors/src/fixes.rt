//! Commands that update vulnerable packages.

use crate::rows::field;
use rustsec_advisory::Advisory;
use rustsec_database::Vulnerability;
use rustsec_fixtures::{VALID, changed};
use rustsec_lock::Lockfile;
use rustsec_report::{FixCommand, Fixer};
use rustsec_values::Text;
use std::alloc::Global;
use std::test::Fail;

/// A lockfile of two packages of a name and a vulnerable version, the second without a source, and two others.
const LOCK: &str = r#"
[[package]]
name = "base"
version = "1.0.0"
source = "registry+https://github.com/rust-lang/crates.io-index"

[[package]]
name = "base"
version = "2.0.0"

[[package]]
name = "base"
version = "3.0.0"

[[package]]
name = "other"
version = "1.0.0"
"#;

/// A lockfile of a vulnerable package in two revisions of a git repository. Cargo writes the commit after a `#`.
const GIT_LOCK: &str = r#"
[[package]]
name = "base"
version = "1.0.0"
source = "git+https://example.com/base?rev=0123456#0123456789abcdef0123456789abcdef01234567"

[[package]]
name = "base"
version = "2.0.0"
source = "git+https://example.com/base#89abcdef0123456789abcdef0123456789abcdef"
"#;

/// Examples with the path of a manifest, if any, the path of Cargo, if any, and the command that updates `base`, which is
/// patched from version 3 on. A word of the last one has two `#`. It has the form of the Rust crate's word; Cargo's grammar
/// of package ID specifications has one.
const COMMANDS: &str = "
fix_words | | | cargo update --dry-run registry+https://github.com/rust-lang/crates.io-index#base@1.0.0 base@2.0.0
fix_words_of_paths | a/Cargo.toml | /opt/cargo | /opt/cargo update --manifest-path a/Cargo.toml registry+https://github.com/rust-lang/crates.io-index#base@1.0.0 base@2.0.0
fix_words_of_git_sources | | | cargo update git+https://example.com/base?rev=0123456#0123456789abcdef0123456789abcdef01234567#base@1.0.0 git+https://example.com/base#89abcdef0123456789abcdef0123456789abcdef#base@2.0.0
";

fn lockfile(alloc: Global, row: &str) -> Result<Lockfile, Fail> {
    let is_git = field(row, 0) == "fix_words_of_git_sources";
    let text = if is_git { GIT_LOCK } else { LOCK };
    Ok(Lockfile::from_str(alloc, text)?)
}

fn vulnerability(alloc: Global, lockfile: &Lockfile) -> Result<Vulnerability, Fail> {
    let text = changed(alloc, VALID, ">= 1.2.3", ">= 3")?;
    let advisory = Advisory::from_str(alloc, &text)?;
    let package = lockfile.packages.get(0).ok_or("no package")?;
    Ok(Vulnerability::new(alloc, &advisory, package)?)
}

fn owned(alloc: Global, text: &str) -> Result<Option<String>, Fail> {
    if text.is_empty() {
        return Ok(None);
    }
    Ok(Some(String::from_str(alloc, text)?))
}

fn fixer(alloc: Global, row: &str) -> Result<Fixer, Fail> {
    let manifest_path = owned(alloc, field(row, 1))?;
    let path_to_cargo = owned(alloc, field(row, 2))?;
    let lockfile = lockfile(alloc, row)?;
    Ok(Fixer::new(lockfile, manifest_path, path_to_cargo))
}

/// Returns the command of a row. That of `fix_words` is a dry run.
fn command(alloc: Global, row: &str) -> Result<FixCommand, Fail> {
    let lockfile = lockfile(alloc, row)?;
    let vulnerability = vulnerability(alloc, &lockfile)?;
    let fixer = fixer(alloc, row)?;
    let is_dry_run = field(row, 0) == "fix_words";
    Ok(fixer.get_fix_command(alloc, &vulnerability, is_dry_run)?)
}

fn are(texts: &[Text], words: &str) -> bool {
    for (text, word) in texts.iter().zip(words.split(' ')) {
        if text.as_str() != word {
            return false;
        }
    }
    texts.len() == words.split(' ').count()
}

fn is_wanted(alloc: Global, row: &str) -> Result<bool, Fail> {
    let command = command(alloc, row)?;
    let (program, words) = field(row, 3).split_once(' ').ok_or("no words")?;
    Ok(command.program.as_str() == program && are(command.words.as_slice(), words))
}

#[test]
fn fix_words(rt: HostRuntime) -> Result<(), Fail> {
    for row in COMMANDS.trim().lines() {
        assert!(rt; is_wanted(rt.alloc(), row)?, "{row}");
    }
    Ok(())
}
