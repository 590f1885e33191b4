//! The options of the command `audit`.

ghost use Rattle.std.specs.Prelude.{◌≡◌, IfErr, IfOk, None, Some, map};
ghost use Rattle.rustsec_values.specs.Reading.{read_all};
ghost use Rattle.rustsec_values.specs.Failure.{IsRefusal};
ghost use Rattle.rustsec_texts.specs.Ids.{id_of};
ghost use Rattle.rustsec_commands.specs.args.Options.{options_of};

use rustsec_texts::Id;
use rustsec_values::{ErrorKind, Items};
use std::alloc::{AllocError, Global};
use std::marker::Model;

/// The options that the words after the two paths of `audit` name.
#[derive(Drop)]
pub struct Options<'a> {
    /// The texts of the IDs that are ignored.
    ignored: Vec<&'a str>,
    /// Whether a warning is as bad as a vulnerability.
    deny_warnings: bool,
}

impl<'a> Model for Options<'a> {
    ghost use Rattle.std.specs.Prelude.{map};
    ghost use Rattle.rustsec_commands.specs.args.Options.{Options};

    ghost Value = { Options };

    ghost view = { λ o. record { ignored = map (λ t. t.now) o.ignored.items; deny_warnings = o.deny_warnings } };
}

/// Parses IDs, in order. A text that is not an ID gives the error `Parse`.
fn ids_of(alloc: Global, texts: &[&str]) -> rustsec_values::Result<Items<Id>>
    ensures ok { IfOk result (λ ids. read_all id_of (map (λ t. t.now) texts.now) ≡ Some ids) }
    ensures err { IfErr result (IsRefusal ErrorKind.Parse (read_all id_of (map (λ t. t.now) texts.now) ≡ None)) }
{
    let mut ids = Items::new(alloc);
    for text in texts {
        match Id::from_str(alloc, text) {
            Ok(id) => ids.push(id)?,
            Err(e) => return Err(e),
        }
    }
    Ok(ids)
}

impl<'a> Options<'a> {
    /// Parses the IDs that are ignored. A text that is not an ID gives the error `Parse`.
    pub fn ignored_ids(&self, alloc: Global) -> rustsec_values::Result<Items<Id>>
        ensures ok { IfOk result (λ ids. read_all id_of self.now.ignored ≡ Some ids) }
        ensures err { IfErr result (IsRefusal ErrorKind.Parse (read_all id_of self.now.ignored ≡ None)) }
    {
        ids_of(alloc, self.ignored.as_slice())
    }

    /// Returns whether a warning is as bad as a vulnerability.
    pub fn denies_warnings(&self) -> bool
        ensures { result ≡ self.now.deny_warnings }
    {
        self.deny_warnings
    }
}

/// Parses words as options. Another word than an option, or a last `--ignore` without its ID, gives `None`.
pub fn options_of<'a>(alloc: Global, words: &[&'a str]) -> Result<Option<Options<'a>>, AllocError>
    ensures { IfOk result (λ o. o ≡ options_of (map (λ w. w.now) words.now)) }
{
    let mut ignored = Vec::new(alloc);
    let mut deny_warnings = false;
    let mut awaits_id = false;
    for word in words {
        if awaits_id {
            ignored.push(*word)?;
            awaits_id = false;
        } else if *word == "--ignore" {
            awaits_id = true;
        } else if *word == "--deny-warnings" {
            deny_warnings = true;
        } else {
            return Ok(None);
        }
    }
    if awaits_id {
        return Ok(None);
    }
    Ok(Some(Options {
        ignored,
        deny_warnings,
    }))
}
