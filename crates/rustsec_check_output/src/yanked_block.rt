//! Writes the lines of yanked packages for people.

ghost use Rattle.std.specs.Prelude.{◌≡◌, ◌++◌, OnOk, length, option_map, string_bytes};
ghost use Rattle.std.specs.List.{flat_map};
ghost use Rattle.rustsec_check_output.specs.CheckText.{yanked_block, yanked_blocks, yanked_title, yanked_words};

use crate::block::{BOLD, PLAIN, push_denied, push_mark, push_old, push_package, push_path};
use rustsec_check::Yanked;
use rustsec_lock::package::Package;
use rustsec_texts::WarningKind;
use std::alloc::AllocError;
use std::fmt::Write as _;

/// Appends the line with a yanked package, whether it is denied and whether it is old.
#[tactic(auto, unfolding(crate::specs::CheckText::yanked_title))]
fn push_title(text: &mut String, colored: bool, yanked: &Yanked<'_>) -> Result<(), AllocError>
    ensures { OnOk result (string_bytes text.new ≡ string_bytes text.old ++ yanked_title colored yanked.now) }
{
    push_mark(text, colored, BOLD)?;
    text.push_str("yanked")?;
    push_mark(text, colored, PLAIN)?;
    text.push_str(" ")?;
    push_package(text, yanked.package)?;
    push_denied(text, Some(WarningKind::Yanked), yanked.is_denied)?;
    push_old(text, yanked.is_old)?;
    text.push_str("\n")?;
    Ok(())
}

/// Appends the lines of a yanked package.
fn push_block(
    text: &mut String,
    colored: bool,
    packages: &[Package],
    yanked: &Yanked<'_>,
) -> Result<(), AllocError>
    ensures { OnOk result (string_bytes text.new ≡ string_bytes text.old ++ yanked_block colored packages.now yanked.now) }
{
    push_title(text, colored, yanked)?;
    push_path(text, packages, &yanked.path)
}

/// Appends the lines of yanked packages.
fn push_all(
    text: &mut String,
    colored: bool,
    packages: &[Package],
    yanked: &[Yanked<'_>],
) -> Result<(), AllocError>
    ensures { OnOk result (string_bytes text.new ≡ string_bytes text.old ++ flat_map (yanked_block colored packages.now) yanked.now) }
{
    for package in yanked {
        push_block(text, colored, packages, package)?;
    }
    Ok(())
}

/// Appends the lines of yanked packages, if an index was asked.
pub(crate) fn push_yanked(
    text: &mut String,
    colored: bool,
    packages: &[Package],
    yanked: Option<&[Yanked<'_>]>,
) -> Result<(), AllocError>
    ensures { OnOk result (string_bytes text.new
        ≡ string_bytes text.old ++ yanked_blocks colored packages.now (option_map (λ y. y.now) yanked.entry)) }
{
    match yanked {
        Some(yanked) => push_all(text, colored, packages, yanked),
        None => Ok(()),
    }
}

/// Appends how many packages are yanked, if an index was asked.
pub(crate) fn push_yanked_count(
    text: &mut String,
    yanked: Option<&[Yanked<'_>]>,
) -> Result<(), AllocError>
    ensures { OnOk result (string_bytes text.new ≡ string_bytes text.old ++ yanked_words (option_map (λ y. y.now) yanked.entry)) }
{
    if let Some(yanked) = yanked {
        let count = yanked.len();
        write!(text, "{count} yanked, ")?;
    }
    Ok(())
}
