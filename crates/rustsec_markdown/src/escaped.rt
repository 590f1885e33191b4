//! Escapes texts of files, so that they are read as text and start nothing.

ghost use Rattle.std.specs.Prelude.{◌≡◌, ◌++◌, IfErr, IfOk, IsTrue, OnOk, string_bytes};
ghost use Rattle.std.specs.Char.Escape.{escape_unicode};
ghost use Rattle.std.specs.List.{flat_map, list_all};
ghost use Rattle.std.specs.Str.{chars};
ghost use Rattle.semver.specs.Identifiers.{parts_of};
ghost use Rattle.rustsec_values.specs.Failure.{IsMemory};
ghost use Rattle.rustsec_values.specs.Shown.{is_hidden};
ghost use Rattle.rustsec_markdown.specs.Escaped.{escaped, escaped_char, escaped_version, is_harmless, is_linking, is_plain, joiner, parted, reference, referred};

use rustsec_values::{Result, is_hidden};
use semver::Version;
use std::alloc::{AllocError, Global};
use std::fmt::Write as _;

/// Returns whether a character is written as itself.
fn is_plain(c: char) -> bool
    ensures { result ≡ is_plain c }
{
    c.is_ascii_alphanumeric() || c == ' ' || c >= '\u{80}'
}

/// Returns whether a mention, a reference to an issue, an emoji or an autolink needs the character.
fn is_linking(c: char) -> bool
    ensures { result ≡ is_linking c }
{
    matches!(c, '#' | '.' | ':' | '@')
}

/// Appends a numeric character reference.
fn push_reference(text: &mut String, c: char) -> std::result::Result<(), AllocError>
    ensures { OnOk result (string_bytes text.new ≡ string_bytes text.old ++ reference c) }
{
    let code = u32::from(c);
    write!(text, "&#{code};")?;
    Ok(())
}

/// Appends a character as itself or as a reference.
#[tactic(auto, unfolding(crate::specs::Escaped::referred))]
fn push_referred(text: &mut String, c: char) -> std::result::Result<(), AllocError>
    ensures { OnOk result (string_bytes text.new ≡ string_bytes text.old ++ referred c) }
{
    if is_plain(c) {
        text.push(c)?;
    } else {
        push_reference(text, c)?;
    }
    Ok(())
}

/// Appends a reference between two word joiners.
fn push_joined(text: &mut String, c: char) -> std::result::Result<(), AllocError>
    ensures { OnOk result (string_bytes text.new ≡ string_bytes text.old ++ (joiner ++ (reference c ++ joiner))) }
{
    text.push_str("&#8288;")?;
    push_reference(text, c)?;
    text.push_str("&#8288;")?;
    Ok(())
}

/// Appends a character as itself or as a reference, between two word joiners if it could link.
#[tactic(auto, unfolding(crate::specs::Escaped::parted))]
fn push_parted(text: &mut String, c: char) -> std::result::Result<(), AllocError>
    ensures { OnOk result (string_bytes text.new ≡ string_bytes text.old ++ parted c) }
{
    if is_linking(c) {
        push_joined(text, c)?;
    } else {
        push_referred(text, c)?;
    }
    Ok(())
}

/// Appends the Unicode escape of a character.
fn push_unicode(text: &mut String, c: char) -> std::result::Result<(), AllocError>
    ensures { OnOk result (string_bytes text.new ≡ string_bytes text.old ++ flat_map parted (escape_unicode c)) }
{
    for part in c.escape_unicode() {
        push_parted(text, part)?;
    }
    Ok(())
}

/// Appends a character of a text of a file.
#[tactic(auto, unfolding(crate::specs::Escaped::escaped_char))]
fn push_char(text: &mut String, c: char) -> std::result::Result<(), AllocError>
    ensures { OnOk result (string_bytes text.new ≡ string_bytes text.old ++ escaped_char c) }
{
    if is_hidden(c) {
        push_unicode(text, c)?;
    } else {
        push_parted(text, c)?;
    }
    Ok(())
}

/// Appends a text of a file.
pub(crate) fn push_escaped(text: &mut String, content: &str) -> std::result::Result<(), AllocError>
    ensures { OnOk result (string_bytes text.new ≡ string_bytes text.old ++ escaped content.now) }
{
    for c in content.chars() {
        push_char(text, c)?;
    }
    Ok(())
}

/// Appends the characters of a version.
fn push_referred_text(text: &mut String, content: &str) -> std::result::Result<(), AllocError>
    ensures { OnOk result (string_bytes text.new ≡ string_bytes text.old ++ flat_map referred (chars content.now)) }
{
    for c in content.chars() {
        push_referred(text, c)?;
    }
    Ok(())
}

/// Appends a version.
#[tactic(auto, unfolding(crate::specs::Escaped::escaped_version))]
pub(crate) fn push_version(
    alloc: Global,
    text: &mut String,
    version: &Version,
) -> std::result::Result<(), AllocError>
    ensures { OnOk result (string_bytes text.new ≡ string_bytes text.old ++ escaped_version (parts_of version.now)) }
{
    let content = format!(in alloc; "{version}")?;
    push_referred_text(text, content.as_str())
}

/// Returns a text of a file as it is written in GitHub Flavored Markdown: letters, digits and spaces as themselves, all
/// other ASCII characters as numeric character references, and hidden characters by their Unicode escapes. No byte of
/// the result starts markup, a cell of a table, or a line. What an autolink needs is between word joiners.
///
/// # Errors
///
/// `OutOfMemory` alone.
pub fn markdown_escaped(alloc: Global, text: &str) -> Result<String>
    ensures ok { IfOk result (λ t. string_bytes t ≡ escaped text.now) }
    ensures harmless { IfOk result (λ t. IsTrue (list_all is_harmless (string_bytes t))) }
    ensures err { IfErr result IsMemory }
{
    let mut written = String::new(alloc);
    push_escaped(&mut written, text)?;
    Ok(written)
}
