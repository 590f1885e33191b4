//! Escapes texts of files, so that a terminal may show them and none of them adds a line.

ghost use Rattle.std.specs.Prelude.{◌≡◌, ◌++◌, ◌<◌, OnErr, OnOk, length, string_bytes};
ghost use Rattle.std.specs.Char.Escape.{escape_unicode};
ghost use Rattle.std.specs.Str.{encode_utf8_all};
ghost use Rattle.rustsec_values.specs.Shown.{is_hidden, shown, shown_char};

use std::alloc::AllocError;

/// Returns whether a character is a control character, or an invisible one that turns the direction of
/// others, joins them or ends their line.
pub fn is_hidden(c: char) -> bool
    ensures { result ≡ is_hidden c }
{
    c.is_control()
        || matches!(
            c,
            '\u{AD}'
                | '\u{61C}'
                | '\u{180E}'
                | '\u{200B}'..='\u{200F}'
                | '\u{2028}'..='\u{202E}'
                | '\u{2060}'..='\u{206F}'
                | '\u{FEFF}'
                | '\u{FFF9}'..='\u{FFFB}'
                | '\u{E0000}'..='\u{E007F}'
        )
}

/// Appends the Unicode escape of a character.
///
/// # Errors
///
/// Out of memory.
pub fn push_escape(text: &mut String, c: char) -> Result<(), AllocError>
    ensures { OnOk result (string_bytes text.new ≡ string_bytes text.old ++ encode_utf8_all (escape_unicode c)) }
{
    for part in c.escape_unicode() {
        text.push(part)?;
    }
    Ok(())
}

/// Appends a character as it is shown.
#[tactic(auto, unfolding(crate::specs::Shown::shown_char))]
fn push_char(text: &mut String, c: char) -> Result<(), AllocError>
    ensures { OnOk result (string_bytes text.new ≡ string_bytes text.old ++ encode_utf8_all (shown_char c)) }
{
    if is_hidden(c) {
        push_escape(text, c)?;
    } else {
        text.push(c)?;
    }
    Ok(())
}

/// Appends a text on one line. Each hidden character is replaced by its Unicode escape.
///
/// # Errors
///
/// Out of memory, and only if the text is not empty.
pub fn push_shown(note: &mut String, text: &str) -> Result<(), AllocError>
    ensures ok { OnOk result (string_bytes note.new ≡ string_bytes note.old ++ shown text.now) }

    // The empty text takes no memory.
    ensures none { OnErr result (0 < length text.now) }
{
    for c in text.chars() {
        push_char(note, c)?;
    }
    Ok(())
}
