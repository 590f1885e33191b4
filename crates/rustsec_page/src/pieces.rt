//! Appends the pieces of the page: its markup, and texts.

ghost use Rattle.std.specs.Prelude.{◌≡◌, ◌++◌, ◌<◌, [], ◌∷◌, OnErr, OnOk, length, string_bytes};
ghost use Rattle.semver.specs.Identifiers.{parts_of, parts_text};
ghost use Rattle.rustsec_page.specs.Pieces.{bytes_of, card, content, drawing, frame, item, number, section, style, text_of};

use crate::card::Card;
use crate::drawing::Drawing;
use crate::escape::push_escaped;
use crate::frame::Frame;
use crate::item::Item;
use crate::section::Section;
use crate::style::Style;
use semver::Version;
use std::alloc::{AllocError, Global};

/// Appends a part of the style sheet.
#[tactic(auto, unfolding(crate::specs::Pieces::bytes_of))]
pub(crate) fn push_style(text: &mut String, part: Style) -> Result<(), AllocError>
    ensures { OnOk result (string_bytes text.new ≡ string_bytes text.old ++ text_of (style part ∷ [])) }
{
    text.push_str(part.text())?;
    Ok(())
}

/// Appends a part of the page around findings.
#[tactic(auto, unfolding(crate::specs::Pieces::bytes_of))]
pub(crate) fn push_frame(text: &mut String, part: Frame) -> Result<(), AllocError>
    ensures { OnOk result (string_bytes text.new ≡ string_bytes text.old ++ text_of (frame part ∷ [])) }
{
    text.push_str(part.text())?;
    Ok(())
}

/// Appends a part of the page around a list.
#[tactic(auto, unfolding(crate::specs::Pieces::bytes_of))]
pub(crate) fn push_section(text: &mut String, part: Section) -> Result<(), AllocError>
    ensures { OnOk result (string_bytes text.new ≡ string_bytes text.old ++ text_of (section part ∷ [])) }
{
    text.push_str(part.text())?;
    Ok(())
}

/// Appends a part of a finding.
#[tactic(auto, unfolding(crate::specs::Pieces::bytes_of))]
pub(crate) fn push_card(text: &mut String, part: Card) -> Result<(), AllocError>
    ensures { OnOk result (string_bytes text.new ≡ string_bytes text.old ++ text_of (card part ∷ [])) }
{
    text.push_str(part.text())?;
    Ok(())
}

/// Appends a part of a list or of a path.
#[tactic(auto, unfolding(crate::specs::Pieces::bytes_of))]
pub(crate) fn push_item(text: &mut String, part: Item) -> Result<(), AllocError>
    ensures { OnOk result (string_bytes text.new ≡ string_bytes text.old ++ text_of (item part ∷ [])) }
{
    text.push_str(part.text())?;
    Ok(())
}

/// Appends a part of a line of versions.
#[tactic(auto, unfolding(crate::specs::Pieces::bytes_of))]
pub(crate) fn push_drawing(text: &mut String, part: Drawing) -> Result<(), AllocError>
    ensures { OnOk result (string_bytes text.new ≡ string_bytes text.old ++ text_of (drawing part ∷ [])) }
{
    text.push_str(part.text())?;
    Ok(())
}

/// Appends a text, escaped for HTML.
///
/// # Errors
///
/// Out of memory, and only if the text is not empty.
#[tactic(auto, unfolding(crate::specs::Pieces::bytes_of))]
pub fn push_content(text: &mut String, words: &str) -> Result<(), AllocError>
    ensures ok { OnOk result (string_bytes text.new ≡ string_bytes text.old ++ text_of (content words.now ∷ [])) }

    // The empty text takes no memory.
    ensures none { OnErr result (0 < length words.now) }
{
    push_escaped(text, words)?;
    Ok(())
}

/// Appends a number.
pub(crate) fn push_number(alloc: Global, text: &mut String, n: u128) -> Result<(), AllocError>
    ensures { OnOk result (string_bytes text.new ≡ string_bytes text.old ++ text_of (number n ∷ [])) }
{
    let digits = n.to_string(alloc)?;
    push_content(text, &digits)
}

/// Appends a version.
pub(crate) fn push_version(
    alloc: Global,
    text: &mut String,
    version: &Version,
) -> Result<(), AllocError>
    ensures { OnOk result (string_bytes text.new ≡ string_bytes text.old ++ text_of (content (parts_text (parts_of version.now)) ∷ [])) }
{
    let words = version.to_string(alloc)?;
    push_content(text, &words)
}
