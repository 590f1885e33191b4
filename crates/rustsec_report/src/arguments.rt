//! Builds the arguments of the command, group by group.

ghost use Rattle.std.specs.Prelude.{◌≡◌, ◌++◌, ◌∷◌, [], IfErr, IfOk, OnOk, Some};
ghost use Rattle.rustsec_values.specs.Failure.{IsMemory};
ghost use Rattle.rustsec_report.specs.Words.{dry_run_words, manifest_words, package_word, package_words};

use rustsec_lock::package::{Name, Package};
use rustsec_values::{Items, Result, Text};
use rustsec_versions::Versions;
use std::alloc::Global;

/// Appends an argument.
pub(crate) fn add_word(alloc: Global, words: &mut Items<Text>, word: &str) -> Result<()>
    ensures ok { OnOk result (words.new ≡ words.old ++ word.now ∷ []) }
    ensures err { IfErr result IsMemory }
{
    let word = Text::from_str(alloc, word)?;
    words.push(word)?;
    Ok(())
}

/// Appends the arguments that name a manifest.
fn add_path(alloc: Global, words: &mut Items<Text>, path: &str) -> Result<()>
    ensures ok { OnOk result (words.new ≡ words.old ++ manifest_words (Some path.now)) }
    ensures err { IfErr result IsMemory }
{
    add_word(alloc, words, "--manifest-path")?;
    add_word(alloc, words, path)?;
    Ok(())
}

/// Appends the arguments that name the manifest, if it is given.
pub(crate) fn add_manifest(
    alloc: Global,
    words: &mut Items<Text>,
    manifest: &Option<Text>,
) -> Result<()>
    ensures ok { OnOk result (words.new ≡ words.old ++ manifest_words manifest.now) }
    ensures err { IfErr result IsMemory }
{
    match manifest {
        Some(path) => add_path(alloc, words, path.as_str()),
        None => Ok(()),
    }
}

/// Appends `--dry-run` if requested.
pub(crate) fn add_dry_run(alloc: Global, words: &mut Items<Text>, dry_run: bool) -> Result<()>
    ensures ok { OnOk result (words.new ≡ words.old ++ dry_run_words dry_run) }
    ensures err { IfErr result IsMemory }
{
    if dry_run {
        add_word(alloc, words, "--dry-run")?;
    }
    Ok(())
}

/// Returns the argument that names a package.
fn package_word(alloc: Global, package: &Package) -> Result<Text>
    ensures ok { IfOk result (λ t. t ≡ package_word «package».now) }
    ensures err { IfErr result IsMemory }
{
    let name = &package.name;
    let version = &package.version;
    let word = match &package.source {
        Some(source) => format!(in alloc; "{source}#{name}@{version}")?,
        None => format!(in alloc; "{name}@{version}")?,
    };
    Ok(Text::from(word))
}

/// Appends the arguments for the packages with this name and a vulnerable version.
pub(crate) fn add_packages(
    alloc: Global,
    words: &mut Items<Text>,
    packages: &[Package],
    name: &Name,
    versions: &Versions,
) -> Result<()>
    ensures ok { OnOk result (words.new ≡ words.old ++ package_words name.now versions.now packages.now) }
    ensures err { IfErr result IsMemory }
{
    for package in packages {
        if package.name == *name && versions.is_vulnerable(&package.version) {
            let word = package_word(alloc, package)?;
            words.push(word)?;
        }
    }
    Ok(())
}
