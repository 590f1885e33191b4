//! The command `osv-database`.

ghost use Rattle.std.specs.Prelude.{◌≡◌, Bool, IfErr, IfOk, List, ℕ, map, string_bytes};
ghost use Rattle.rustsec_files.specs.Allowed.{AllowSame};
ghost use Rattle.rustsec_advisory.specs.declared.advisory.Advisory.{Advisory};
ghost use Rattle.rustsec_database.specs.Opened.{AreOpened, IsOpenRefusal};
ghost use Rattle.rustsec_osv_database.specs.Lines.{AreParts};
ghost use Rattle.std.specs.List.{list_all, list_any};
ghost use Rattle.rustsec_commands.specs.Output.{usage};
ghost use Rattle.rustsec_database_commands.specs.Osv.{IsDatabaseOutput, choice_for, choice_of, is_normalized, is_osv_option, is_skip, status_for};

use crate::misuse;
use rustsec_commands::error_output::refusal_output;
use rustsec_commands::output::{Output, usage_output};
use rustsec_database::Database;
use rustsec_files::Folders;
use rustsec_osv_database::{Choice, Exported, export};
use rustsec_values::Result;
use std::alloc::{AllocError, Global};

/// Returns whether a word asks to leave out withdrawn advisories.
fn is_skip(word: &str) -> bool
    ensures { result ≡ is_skip word.now }
{
    word == "--skip-withdrawn"
}

/// Returns whether a word asks for documents without pairs of neighbouring events at one version.
fn is_normalized(word: &str) -> bool
    ensures { result ≡ is_normalized word.now }
{
    word == "--normalized"
}

/// Returns whether a word is an option.
fn is_option(word: &str) -> bool
    ensures { result ≡ is_osv_option word.now }
{
    is_skip(word) || is_normalized(word)
}

/// Returns whether each word is an option.
fn are_options(words: &[&str]) -> bool
    ensures { result ≡ list_all (λ w. is_osv_option w.now) words.now }
{
    words.iter().all(|word| is_option(word))
}

/// Returns whether a word asks to leave out withdrawn advisories.
fn any_skips(words: &[&str]) -> bool
    ensures { result ≡ list_any (λ w. is_skip w.now) words.now }
{
    words.iter().any(|word| is_skip(word))
}

/// Returns whether a word asks for documents without pairs of neighbouring events at one version.
fn any_normalizes(words: &[&str]) -> bool
    ensures { result ≡ list_any (λ w. is_normalized w.now) words.now }
{
    words.iter().any(|word| is_normalized(word))
}

/// Returns what the words choose, if each of them is an option.
#[tactic(auto, using(crate::proofs::OsvWords::no_choice, crate::proofs::OsvWords::a_choice))]
fn choice_of(words: &[&str]) -> Option<Choice>
    ensures { result ≡ choice_of (map (λ w. w.now) words.now) }
{
    if !are_options(words) {
        return None;
    }
    Some(Choice {
        skip_withdrawn: any_skips(words),
        normalized: any_normalizes(words),
    })
}

/// Returns the same, if the text for the time of the last change has not the form of an option.
fn choice_for(modified: &str, words: &[&str]) -> Option<Choice>
    ensures { result ≡ choice_for modified.now (map (λ w. w.now) words.now) }
{
    if modified.starts_with("--") {
        return None;
    }
    choice_of(words)
}

/// Returns the output on words that are not options, or on an option where the time is expected.
fn misused_output(
    alloc: Global,
    modified: &str,
    words: &[&str],
) -> std::result::Result<Output, AllocError>
    ensures { IfOk result (λ o. o ≡ usage) }
{
    if modified.starts_with("--") {
        return usage_output(alloc, misuse::of_no_time(alloc, modified).ok());
    }
    let names = &["--skip-withdrawn", "--normalized"];
    usage_output(alloc, misuse::of_unknown(alloc, words, names).ok())
}

/// Exports all advisories of a database.
fn exported_of(
    alloc: Global,
    database: &Database,
    modified: &str,
    choice: Choice,
) -> std::result::Result<Exported, AllocError>
    ensures { IfOk result (λ e. AreParts choice modified.now database.now (string_bytes e.text) e.missing) }
{
    export(alloc, database.iter().as_slice(), modified, choice)
}

/// Makes the output of what is exported, with its notes.
fn exported_output(exported: Exported) -> Output
    ensures { result ≡ record { text = string_bytes exported.text; status = status_for exported.missing } }
{
    let status = if exported.missing { 1 } else { 0 };
    Output::new(exported.text, status).with_note(Some(exported.notes))
}

/// Opens the database under a root, and makes the output for its documents.
fn root_output<F: Folders>(
    alloc: Global,
    folders: &mut F,
    root: &str,
    modified: &str,
    choice: Choice,
) -> Result<Output>
    ensures ok { IfOk result (λ o. (advisories : List Advisory) × ((text : List ℕ) × ((missing : Bool)
        × (AreOpened (F.allowed folders.old) root.now advisories
        × (AreParts choice modified.now advisories text missing
        × (o ≡ record { text = text; status = status_for missing })))))) }
    ensures err { IfErr result (IsOpenRefusal (F.allowed folders.old) root.now) }
    ensures same { AllowSame (F.allowed folders.old) (F.allowed folders.new) }
{
    let database = Database::open_with(alloc, folders, root)?;
    let exported = exported_of(alloc, &database, modified, choice)?;
    Ok(exported_output(exported))
}

/// Makes the output of `osv-database` for a root, the time of the last change and the words after it.
pub fn osv_database<F: Folders>(
    alloc: Global,
    folders: &mut F,
    root: &str,
    modified: &str,
    words: &[&str],
) -> std::result::Result<Output, AllocError>
    ensures ok { IfOk result (IsDatabaseOutput (F.allowed folders.old) root.now modified.now (map (λ w. w.now) words.now)) }
    ensures same { AllowSame (F.allowed folders.old) (F.allowed folders.new) }
{
    let Some(choice) = choice_for(modified, words) else {
        return misused_output(alloc, modified, words);
    };
    match root_output(alloc, folders, root, modified, choice) {
        Ok(output) => Ok(output),
        Err(error) => refusal_output(alloc, &error),
    }
}
