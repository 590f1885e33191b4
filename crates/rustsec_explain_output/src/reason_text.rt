//! Writes the words of a reason, with what ignores an ignored advisory.

ghost use Rattle.std.specs.Prelude.{◌≡◌, ◌++◌, IfErr, IfOk, OnOk, string_bytes};
ghost use Rattle.std.specs.Option.{option_copied};
ghost use Rattle.rustsec_values.specs.Failure.{IsMemory};
ghost use Rattle.rustsec_explain_output.specs.ReasonWords.{by_policy, entry_words, ignored_by, note_words, reason_words, until_words};
ghost use Rattle.rustsec_explain_output.specs.Rules.{entry_of};

use crate::rules::{Rules, entry_of};
use rustsec_explain::{Explained, Reason};
use rustsec_policy::Ignored;
use rustsec_values::Result;
use std::alloc::{AllocError, Global};

/// Appends the last day of an entry, if present.
fn push_until(words: &mut String, entry: &Ignored) -> std::result::Result<(), AllocError>
    ensures { OnOk result (string_bytes words.new ≡ string_bytes words.old ++ until_words entry.now.until) }
{
    if let Some(until) = &entry.until {
        words.push_str(" until ")?;
        words.push_str(until.as_str())?;
    }
    Ok(())
}

/// Appends the reason of an entry, if present.
fn push_note(words: &mut String, entry: &Ignored) -> std::result::Result<(), AllocError>
    ensures { OnOk result (string_bytes words.new ≡ string_bytes words.old ++ note_words entry.now.reason) }
{
    if let Some(note) = &entry.reason {
        words.push_str(": ")?;
        words.push_str(note.as_str())?;
    }
    Ok(())
}

/// Appends that an entry of the policy ignores an advisory, with its last day and its reason.
fn push_by_policy(words: &mut String, entry: &Ignored) -> std::result::Result<(), AllocError>
    ensures { OnOk result (string_bytes words.new ≡ string_bytes words.old ++ by_policy entry.now) }
{
    words.push_str(" by the policy")?;
    push_until(words, entry)?;
    push_note(words, entry)?;
    Ok(())
}

/// Appends what ignores an advisory: an entry of the policy, or without one the command line.
fn push_ignored_by(
    words: &mut String,
    entry: Option<&Ignored>,
) -> std::result::Result<(), AllocError>
    ensures { OnOk result (string_bytes words.new ≡ string_bytes words.old ++ ignored_by (option_copied entry.entry)) }
{
    match entry {
        Some(entry) => push_by_policy(words, entry),
        None => words.push_str(" by the command line"),
    }
}

/// Appends what ignores the advisory of a pair, if that is the reason.
fn push_entry(
    words: &mut String,
    rules: &Rules<'_>,
    pair: &Explained<'_>,
    reason: &Reason,
) -> std::result::Result<(), AllocError>
    ensures { OnOk result (string_bytes words.new ≡ string_bytes words.old ++ entry_words (entry_of rules.now pair.now) reason.now) }
{
    match reason {
        Reason::Ignored => push_ignored_by(words, entry_of(rules, pair)),
        _ => Ok(()),
    }
}

/// Returns the words of a reason of a pair.
pub(crate) fn reason_words(
    alloc: Global,
    rules: &Rules<'_>,
    pair: &Explained<'_>,
    reason: &Reason,
) -> Result<String>
    ensures ok { IfOk result (λ t. string_bytes t ≡ reason_words rules.now pair.now reason.now) }
    ensures err { IfErr result IsMemory }
{
    let mut words = reason.text(alloc, rules.settings, pair.advisory, pair.package)?;
    push_entry(&mut words, rules, pair, reason)?;
    Ok(words)
}
