//! Builds the command that updates the vulnerable packages of a lockfile.

ghost use Rattle.std.specs.Prelude.{◌≡◌, IfErr, IfOk, option_map, string_bytes};
ghost use Rattle.rustsec_values.specs.Failure.{IsMemory};
ghost use Rattle.rustsec_report.specs.Words.{fix_words, program_of};

use crate::arguments::{add_dry_run, add_manifest, add_packages, add_word};
use crate::command::FixCommand;
use rustsec_database::Vulnerability;
use rustsec_lock::Lockfile;
use rustsec_values::{Items, Result, Text};
use std::alloc::Global;
use std::marker::Model;

/// Builds commands that update the vulnerable packages of a lockfile.
#[derive(Debug, Drop)]
pub struct Fixer {
    lockfile: Lockfile,
    manifest_path: Option<Text>,
    path_to_cargo: Option<Text>,
}

impl Model for Fixer {
    ghost use Rattle.rustsec_report.specs.Words.{Workspace};

    ghost Value = { Workspace };

    ghost view = { λ f. record { packages = f.lockfile.packages; manifest_path = f.manifest_path; path_to_cargo = f.path_to_cargo } };
}

/// Converts a string that may be missing.
fn text_of(string: Option<String>) -> Option<Text>
    ensures { result ≡ option_map string_bytes string }
{
    match string {
        Some(string) => Some(Text::from(string)),
        None => None,
    }
}

impl Fixer {
    /// Returns a fixer of a lockfile. Without a manifest, the command updates the whole workspace of the folder in
    /// which it is started; without a path to Cargo, the system looks up `cargo`.
    pub fn new(
        lockfile: Lockfile,
        manifest_path: Option<String>,
        path_to_cargo: Option<String>,
    ) -> Fixer
        ensures packages { result.packages ≡ lockfile.packages }
        ensures manifest_path { result.manifest_path ≡ option_map string_bytes manifest_path }
        ensures path_to_cargo { result.path_to_cargo ≡ option_map string_bytes path_to_cargo }
    {
        Fixer {
            lockfile,
            manifest_path: text_of(manifest_path),
            path_to_cargo: text_of(path_to_cargo),
        }
    }

    /// Returns the command that makes Cargo update each package of the lockfile that has the vulnerable package's
    /// name and a vulnerable version. Each is named by `SOURCE#NAME@VERSION`, or by `NAME@VERSION` if it has no
    /// source (Cargo's package ID specifications). With `dry_run` Cargo writes nothing.
    ///
    /// If the command succeeds, the vulnerability may still be present: perhaps there is no version that
    /// Cargo can choose.
    ///
    /// # Errors
    ///
    /// `OutOfMemory` alone.
    pub fn get_fix_command(
        &self,
        alloc: Global,
        vulnerability: &Vulnerability,
        dry_run: bool,
    ) -> Result<FixCommand>
        ensures program { IfOk result (λ c. c.program ≡ program_of self.now.path_to_cargo) }
        ensures words { IfOk result (λ c. c.words
            ≡ fix_words self.now dry_run vulnerability.now.«package».name vulnerability.now.versions) }
        ensures err { IfErr result IsMemory }
    {
        let program = match &self.path_to_cargo {
            Some(path) => path.as_str(),
            None => "cargo",
        };
        let program = Text::from_str(alloc, program)?;
        let mut words = Items::new(alloc);
        add_word(alloc, &mut words, "update")?;
        add_manifest(alloc, &mut words, &self.manifest_path)?;
        add_dry_run(alloc, &mut words, dry_run)?;
        add_packages(
            alloc,
            &mut words,
            self.lockfile.packages.as_slice(),
            &vulnerability.package.name,
            &vulnerability.versions,
        )?;
        Ok(FixCommand { program, words })
    }
}
