//! Writes the words that rows and lines are made of.

ghost use Rattle.std.specs.Prelude.{◌≡◌, ◌++◌, OnOk, string_bytes};
ghost use Rattle.semver.specs.Identifiers.{parts_of};
ghost use Rattle.rustsec_check_output.specs.CheckText.{old_words};
ghost use Rattle.rustsec_markdown.specs.MarkdownText.{code_words, denied_words, labelled, package_words, rating_words, version_words};

use crate::escaped::{push_escaped, push_version};
use rustsec_lock::Severity;
use rustsec_lock::package::Package;
use semver::Version;
use std::alloc::{AllocError, Global};
use std::fmt::Write as _;

/// Appends a text of a file, in an element `code`.
#[tactic(auto, unfolding(crate::specs::MarkdownText::code_words))]
pub(crate) fn push_code(text: &mut String, content: &str) -> Result<(), AllocError>
    ensures { OnOk result (string_bytes text.new ≡ string_bytes text.old ++ code_words content.now) }
{
    text.push_str("<code>")?;
    push_escaped(text, content)?;
    text.push_str("</code>")?;
    Ok(())
}

/// Appends a version, in an element `code`.
#[tactic(auto, unfolding(crate::specs::MarkdownText::version_words))]
pub(crate) fn push_code_version(
    alloc: Global,
    text: &mut String,
    version: &Version,
) -> Result<(), AllocError>
    ensures { OnOk result (string_bytes text.new ≡ string_bytes text.old ++ version_words (parts_of version.now)) }
{
    text.push_str("<code>")?;
    push_version(alloc, text, version)?;
    text.push_str("</code>")?;
    Ok(())
}

/// Appends the name and the version of a package.
#[tactic(auto, unfolding(crate::specs::MarkdownText::package_words))]
pub(crate) fn push_package(
    alloc: Global,
    text: &mut String,
    package: &Package,
) -> Result<(), AllocError>
    ensures { OnOk result (string_bytes text.new ≡ string_bytes text.old ++ package_words «package».now) }
{
    text.push_str("<code>")?;
    push_escaped(text, package.name.as_str())?;
    text.push_str(" ")?;
    push_version(alloc, text, &package.version)?;
    text.push_str("</code>")?;
    Ok(())
}

/// Appends a rating and its score, if present.
pub(crate) fn push_rating(
    text: &mut String,
    severity: Option<Severity>,
    tenths: Option<u8>,
) -> Result<(), AllocError>
    ensures { OnOk result (string_bytes text.new ≡ string_bytes text.old ++ rating_words severity tenths) }
{
    let Some(severity) = severity else {
        return Ok(());
    };
    let Some(tenths) = tenths else {
        return Ok(());
    };
    let (whole, tenth) = (tenths / 10, tenths % 10);
    write!(text, ", {severity} {whole}.{tenth}")?;
    Ok(())
}

/// Appends that something is denied, if it is.
pub(crate) fn push_denied(text: &mut String, is_denied: bool) -> Result<(), AllocError>
    ensures { OnOk result (string_bytes text.new ≡ string_bytes text.old ++ denied_words is_denied) }
{
    if is_denied {
        text.push_str(", denied")?;
    }
    Ok(())
}

/// Appends that something is old, if it is.
pub(crate) fn push_old(text: &mut String, is_old: bool) -> Result<(), AllocError>
    ensures { OnOk result (string_bytes text.new ≡ string_bytes text.old ++ old_words is_old) }
{
    if is_old {
        text.push_str(", old")?;
    }
    Ok(())
}

/// Appends a label and a text of a file, and ends the line.
pub(crate) fn push_labelled(text: &mut String, label: &str, content: &str) -> Result<(), AllocError>
    ensures { OnOk result (string_bytes text.new ≡ string_bytes text.old ++ labelled label.now content.now) }
{
    text.push_str(label)?;
    push_code(text, content)?;
    text.push_str("\n")?;
    Ok(())
}
