//! The notes on a policy: what it asks for that this library does not do, and which of its keys have no effect here.

ghost use Rattle.std.specs.Prelude.{◌≡◌, ◌++◌, ◌<◌, IfErr, IfOk, OnOk, length, option_map, string_bytes};
ghost use Rattle.std.specs.List.{list_any};
ghost use Rattle.rustsec_values.specs.Failure.{IsMemory};
ghost use Rattle.rustsec_policy.specs.Notes.{given, idle_keys, idle_note, is_yanked, name_if, network_note, notes_of, package_note, yanked_note};

use crate::choices::{Denied, PackageSource};
use crate::policy::Policy;
use rustsec_values::{Items, Result, Text};
use std::alloc::{AllocError, Global};

/// Returns the note on the tables that ask for the network.
fn network_note(database_asks: bool, yanked_asks: bool) -> Option<&'static str>
    ensures { option_map (λ note. note.now) result ≡ network_note database_asks yanked_asks }
{
    match (database_asks, yanked_asks) {
        (false, false) => None,
        (true, false) => Some(
            "[database] asks for the network, which is not used: the database is read from its folder as it is",
        ),
        (false, true) => Some(
            "[yanked] asks for the network, which is not used: no registry is asked which versions are yanked",
        ),
        (true, true) => Some(
            "[database] and [yanked] ask for the network, which is not used: the database is read from its folder as it is, and no registry is asked which versions are yanked",
        ),
    }
}

/// Returns the note on the packages that are looked at.
fn package_note(source: Option<PackageSource>) -> Option<&'static str>
    ensures { option_map (λ note. note.now) result ≡ package_note source }
{
    match source {
        Some(PackageSource::All) => Some(
            "`source = \"all\"` in [packages] is not followed: only packages of the default registry are checked",
        ),
        Some(PackageSource::Local) => Some(
            "`source = \"local\"` in [packages] is not followed: only packages of the default registry are checked",
        ),
        Some(PackageSource::Public) | None => None,
    }
}

/// Returns whether a word denies yanked versions alone.
fn is_yanked(word: Denied) -> bool
    ensures { result ≡ is_yanked word }
{
    match word {
        Denied::Yanked => true,
        Denied::Warnings | Denied::Unmaintained | Denied::Unsound => false,
    }
}

/// Returns whether one of some words is the one that denies yanked versions alone.
pub fn denies_yanked(words: &[Denied]) -> bool
    ensures { result ≡ list_any is_yanked words.now }
{
    words.iter().any(|word| is_yanked(*word))
}

/// Returns the note on the denied word that fits no finding without an index.
fn yanked_note(is_denied: bool) -> Option<&'static str>
    ensures { option_map (λ note. note.now) result ≡ yanked_note is_denied }
{
    if is_denied {
        Some(
            "`yanked` at `deny` in [output] denies nothing without an index: no package is looked up",
        )
    } else {
        None
    }
}

/// Appends a copy of a text, if any.
fn add(
    alloc: Global,
    texts: &mut Items<Text>,
    text: Option<&str>,
) -> std::result::Result<(), AllocError>
    ensures ok { OnOk result (texts.new ≡ texts.old ++ given (option_map (λ text. text.now) text.entry)) }
    ensures none { IfErr result (λ e. 0 < length (given (option_map (λ text. text.now) text.entry))) }
{
    if let Some(text) = text {
        let text = Text::from_str(alloc, text)?;
        texts.push(text)?;
    }
    Ok(())
}

/// Returns a key's name, if a file gives the key.
fn name_if(is_given: bool, name: &str) -> Option<&str>
    ensures { option_map (λ name. name.now) result ≡ name_if is_given name.now }
{
    if is_given { Some(name) } else { None }
}

/// Returns the names of the keys that a policy gives and that have no effect.
fn idle_keys(
    alloc: Global,
    policy: &Policy,
    has_index: bool,
) -> std::result::Result<Items<Text>, AllocError>
    ensures ok { IfOk result (λ names. names ≡ idle_keys has_index policy.now) }
    ensures none { IfErr result (λ e. 0 < length (idle_keys has_index policy.now)) }
{
    let (output, database) = (&policy.output, &policy.database);
    let update_index = has_index && policy.yanked.update_index.is_some();
    let update_index = name_if(update_index, "`update_index` in [yanked]");
    let quiet = name_if(output.quiet.is_some(), "`quiet` in [output]");
    let show_tree = name_if(output.show_tree.is_some(), "`show_tree` in [output]");
    let path = name_if(database.path.is_some(), "`path` in [database]");
    let stale = name_if(database.stale.is_some(), "`stale` in [database]");
    let mut names = Items::new(alloc);
    add(alloc, &mut names, quiet)?;
    add(alloc, &mut names, show_tree)?;
    add(alloc, &mut names, path)?;
    add(alloc, &mut names, stale)?;
    add(alloc, &mut names, update_index)?;
    Ok(names)
}

/// Returns the note on keys without effect.
fn idle_note(alloc: Global, names: &[Text]) -> std::result::Result<Option<String>, AllocError>
    ensures ok { IfOk result (λ note. option_map (λ note. string_bytes note) note ≡ idle_note names.now) }
    ensures none { IfErr result (λ e. 0 < length names.now) }
{
    if names.is_empty() {
        return Ok(None);
    }
    let listed = names.join(alloc, ", ")?;
    let note = format!(in alloc; "keys without effect here: {listed}")?;
    Ok(Some(note))
}

/// Appends the note on the keys that a policy gives and that have no effect, if any.
fn add_idle_note(
    alloc: Global,
    notes: &mut Items<Text>,
    policy: &Policy,
    has_index: bool,
) -> std::result::Result<(), AllocError>
    ensures ok { OnOk result (notes.new ≡ notes.old ++ given (idle_note (idle_keys has_index policy.now))) }
    ensures none { IfErr result (λ e. 0 < length (given (idle_note (idle_keys has_index policy.now)))) }
{
    let names = idle_keys(alloc, policy, has_index)?;
    let note = idle_note(alloc, names.as_slice())?;
    if let Some(note) = note {
        notes.push(Text::from(note))?;
    }
    Ok(())
}

impl Policy {
    /// Returns notes for people on what the policy asks for that this library does not do: the network, which
    /// `[database]` and `[yanked]` may ask for, packages of other sources than the default registry, and findings for
    /// yanked versions. A last note names the keys that the file gives and that have no effect here. With `has_index`
    /// an index in a folder is asked which versions are yanked.
    ///
    /// # Errors
    ///
    /// `OutOfMemory` alone, and only if there is a note.
    pub fn notes(&self, alloc: Global, has_index: bool) -> Result<Items<Text>>
        ensures ok { IfOk result (λ notes. notes ≡ notes_of has_index self.now) }
        ensures err { IfErr result IsMemory }

        // A policy without a note takes no memory, so any error means that there is a note.
        ensures none { IfErr result (λ e. 0 < length (notes_of has_index self.now)) }
    {
        let network = network_note(
            self.database.asks_for_network(),
            self.yanked.asks_for_network(has_index),
        );
        let yanked = yanked_note(!has_index && denies_yanked(self.output.deny.as_slice()));
        let mut notes = Items::new(alloc);
        add(alloc, &mut notes, network)?;
        add(alloc, &mut notes, package_note(self.packages.source))?;
        add(alloc, &mut notes, yanked)?;
        add_idle_note(alloc, &mut notes, self, has_index)?;
        Ok(notes)
    }
}
