//! Writes texts of files as text of HTML (HTML Living Standard, sections 13.1.2.4 and 13.1.4).

ghost use Rattle.std.specs.Prelude.{◌≡◌, ◌++◌, ◌<◌, OnErr, OnOk, length, string_bytes};
ghost use Rattle.std.specs.Str.{encode_utf8_all};
ghost use Rattle.rustsec_values.specs.Shown.{is_hidden};
ghost use Rattle.rustsec_page.specs.Escaped.{escaped, is_veiled, referred, written_char};

use rustsec_values::{is_hidden, push_escape};
use std::alloc::AllocError;

/// Returns whether a character is hidden, and no white space of lines.
fn is_veiled(c: char) -> bool
    ensures { result ≡ is_veiled c }
{
    is_hidden(c) && !(c == '\t' || c == '\n' || c == '\r')
}

/// Appends the reference of a character that means something in markup, or the character.
fn push_referred(text: &mut String, c: char) -> Result<(), AllocError>
    ensures { OnOk result (string_bytes text.new ≡ string_bytes text.old ++ encode_utf8_all (referred c)) }
{
    match c {
        '&' => text.push_str("&amp;")?,
        '<' => text.push_str("&lt;")?,
        '>' => text.push_str("&gt;")?,
        '"' => text.push_str("&quot;")?,
        '\'' => text.push_str("&#39;")?,
        _ => text.push(c)?,
    }
    Ok(())
}

/// Appends a character as it is written.
#[tactic(auto, unfolding(crate::specs::Escaped::written_char))]
fn push_char(text: &mut String, c: char) -> Result<(), AllocError>
    ensures { OnOk result (string_bytes text.new ≡ string_bytes text.old ++ encode_utf8_all (written_char c)) }
{
    if is_veiled(c) {
        push_escape(text, c)?;
    } else {
        push_referred(text, c)?;
    }
    Ok(())
}

/// Appends a text as it is written.
pub(crate) fn push_escaped(text: &mut String, content: &str) -> Result<(), AllocError>
    ensures ok { OnOk result (string_bytes text.new ≡ string_bytes text.old ++ escaped content.now) }

    // The empty text takes no memory.
    ensures none { OnErr result (0 < length content.now) }
{
    for c in content.chars() {
        push_char(text, c)?;
    }
    Ok(())
}
