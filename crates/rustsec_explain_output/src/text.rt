//! Writes an explanation as text: a line for each pair.

ghost use Rattle.std.specs.Prelude.{◌≡◌, ◌++◌, IfErr, IfOk, OnOk, flat_map, string_bytes};
ghost use Rattle.rustsec_values.specs.Failure.{IsMemory};
ghost use Rattle.rustsec_explain_output.specs.ExplainText.{explain_text, further_words, pair_line, pair_words, told_by};
ghost use Rattle.rustsec_explain_output.specs.ReasonWords.{reason_words};

use crate::reason_text::reason_words;
use crate::rules::Rules;
use rustsec_explain::{Explained, Reason};
use rustsec_values::{Result, push_shown};
use std::alloc::Global;
use std::fmt::Write as _;

/// Appends the words of a reason of a pair.
fn push_reason(
    alloc: Global,
    words: &mut String,
    rules: &Rules<'_>,
    pair: &Explained<'_>,
    reason: &Reason,
) -> Result<()>
    ensures ok { OnOk result (string_bytes words.new ≡ string_bytes words.old ++ reason_words rules.now pair.now reason.now) }
    ensures err { IfErr result IsMemory }
{
    let text = reason_words(alloc, rules, pair, reason)?;
    words.push_str(&text)?;
    Ok(())
}

/// Appends the words of some reasons of a pair, each after a semicolon.
fn push_further(
    alloc: Global,
    words: &mut String,
    rules: &Rules<'_>,
    pair: &Explained<'_>,
    reasons: &[Reason],
) -> Result<()>
    ensures ok { OnOk result (string_bytes words.new ≡ string_bytes words.old ++ further_words rules.now pair.now reasons.now) }
    ensures err { IfErr result IsMemory }
{
    for reason in reasons {
        words.push_str("; ")?;
        push_reason(alloc, words, rules, pair, reason)?;
    }
    Ok(())
}

/// Appends the words of the reasons of a pair, joined by semicolons, or the word `affected` if it has none.
fn push_told(
    alloc: Global,
    words: &mut String,
    rules: &Rules<'_>,
    pair: &Explained<'_>,
) -> Result<()>
    ensures ok { OnOk result (string_bytes words.new ≡ string_bytes words.old ++ told_by rules.now pair.now pair.now.reasons) }
    ensures err { IfErr result IsMemory }
{
    let Some((first, others)) = pair.reasons.as_slice().split_first() else {
        words.push_str("affected")?;
        return Ok(());
    };
    push_reason(alloc, words, rules, pair, first)?;
    push_further(alloc, words, rules, pair, others)
}

/// Returns the words of a pair, not escaped.
fn pair_words(alloc: Global, rules: &Rules<'_>, pair: &Explained<'_>) -> Result<String>
    ensures ok { IfOk result (λ t. string_bytes t ≡ pair_words rules.now pair.now) }
    ensures err { IfErr result IsMemory }
{
    let package = pair.package;
    let advisory = pair.advisory;
    let name = package.name.as_str();
    let version = &package.version;
    let id = advisory.metadata.id.as_str();
    let mut words = format!(in alloc; "{name} {version} {id}: ")?;
    push_told(alloc, &mut words, rules, pair)?;
    Ok(words)
}

/// Appends the line of a pair.
fn push_line(
    alloc: Global,
    text: &mut String,
    rules: &Rules<'_>,
    pair: &Explained<'_>,
) -> Result<()>
    ensures ok { OnOk result (string_bytes text.new ≡ string_bytes text.old ++ pair_line rules.now pair.now) }
    ensures err { IfErr result IsMemory }
{
    let words = pair_words(alloc, rules, pair)?;
    push_shown(text, &words)?;
    text.push_str("\n")?;
    Ok(())
}

/// Returns the lines of the pairs.
fn lines(alloc: Global, rules: &Rules<'_>, pairs: &[Explained<'_>]) -> Result<String>
    ensures ok { IfOk result (λ t. string_bytes t ≡ flat_map (pair_line rules.now) pairs.now) }
    ensures err { IfErr result IsMemory }
{
    let mut text = String::new(alloc);
    for pair in pairs {
        push_line(alloc, &mut text, rules, pair)?;
    }
    Ok(text)
}

/// Returns the text of an explanation: a line for each pair, in order. A line has the name and the version of the
/// package, the ID of the advisory, a colon, and the words of the reasons, joined by semicolons, or the word
/// `affected` if the pair has no reason, as
/// "quillpack 2.3.1 RUSTSEC-2022-9003: patched `>=2.3.1` holds 2.3.1; the ID `RUSTSEC-2022-9003` is ignored by the
/// policy until 2027-01-31: not called". An ignored advisory that no entry of the policy has is ignored by the command
/// line. Control characters and invisible ones are written as their Unicode escapes, so that no name makes a further
/// line. Without a pair, one line says that there is none. The settings are those of the explanation.
///
/// # Errors
///
/// `OutOfMemory` alone.
pub fn explain_text(alloc: Global, rules: &Rules<'_>, pairs: &[Explained<'_>]) -> Result<String>
    ensures ok { IfOk result (λ t. string_bytes t ≡ explain_text rules.now pairs.now) }
    ensures err { IfErr result IsMemory }
{
    if pairs.is_empty() {
        let none = "no pair of a package and an advisory with this name or ID\n";
        return Ok(String::from_str(alloc, none)?);
    }
    lines(alloc, rules, pairs)
}
