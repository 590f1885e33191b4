//! Writes the lines of a finding for people.

ghost use Rattle.std.specs.Prelude.{◌≡◌, ◌++◌, OnOk, Some, map, option_map, string_bytes};
ghost use Rattle.std.specs.List.{flat_map};
ghost use Rattle.semver.specs.Identifiers.{parts_of};
ghost use Rattle.rustsec_check_output.specs.CheckText.{arrow, block, command_words, denied_words, id_words, incompatible_words, locked_words, mark, moved_line, moving_words, old_words, package_words, path_line, place_words, places_line, rating_words, status_line, steps, title_line, update_line};

use crate::rating::{kind_text, severity_of, tenths_of};
use rustsec_check::{Finding, Update};
use rustsec_lock::Severity;
use rustsec_lock::package::Package;
use rustsec_texts::{Id, WarningKind};
use rustsec_values::push_shown;
use semver::Version;
use std::alloc::AllocError;
use std::fmt::Write as _;

/// Makes the characters after it bold.
pub(crate) const BOLD: &str = "\u{1b}[1m";

/// Makes the characters after it red.
const RED: &str = "\u{1b}[31m";

/// Ends the look of the characters before it.
pub(crate) const PLAIN: &str = "\u{1b}[0m";

/// Appends a code that sets the look of the characters after it, if colour is wanted.
pub(crate) fn push_mark(text: &mut String, colored: bool, code: &str) -> Result<(), AllocError>
    ensures { OnOk result (string_bytes text.new ≡ string_bytes text.old ++ mark colored code.now) }
{
    if colored {
        text.push_str(code)?;
    }
    Ok(())
}

/// Appends the name and the version of a package.
pub(crate) fn push_package(text: &mut String, package: &Package) -> Result<(), AllocError>
    ensures { OnOk result (string_bytes text.new ≡ string_bytes text.old ++ package_words «package».now) }
{
    push_shown(text, package.name.as_str())?;
    let version = &package.version;
    write!(text, " {version}")?;
    Ok(())
}

/// Appends the line with the ID of the advisory, the package and the title.
#[tactic(auto, unfolding(crate::specs::CheckText::title_line))]
fn push_title(text: &mut String, colored: bool, finding: &Finding<'_>) -> Result<(), AllocError>
    ensures { OnOk result (string_bytes text.new ≡ string_bytes text.old ++ title_line colored finding.now) }
{
    push_mark(text, colored, BOLD)?;
    push_shown(text, finding.advisory.metadata.id.as_str())?;
    push_mark(text, colored, PLAIN)?;
    text.push_str(" ")?;
    push_package(text, finding.package)?;
    text.push_str(": ")?;
    push_shown(text, finding.advisory.metadata.title.as_str())?;
    text.push_str("\n")?;
    Ok(())
}

/// Appends a rating and its score, if present.
fn push_rating(
    text: &mut String,
    colored: bool,
    severity: Option<Severity>,
    tenths: Option<u8>,
) -> Result<(), AllocError>
    ensures { OnOk result (string_bytes text.new ≡ string_bytes text.old ++ rating_words colored severity tenths) }
{
    let Some(severity) = severity else {
        return Ok(());
    };
    let Some(tenths) = tenths else {
        return Ok(());
    };
    let (whole, tenth) = (tenths / 10, tenths % 10);
    text.push_str(", ")?;
    push_mark(text, colored, RED)?;
    write!(text, "{severity} {whole}.{tenth}")?;
    push_mark(text, colored, PLAIN)
}

/// Appends that a warning is denied, if it is.
pub(crate) fn push_denied(
    text: &mut String,
    kind: Option<WarningKind>,
    is_denied: bool,
) -> Result<(), AllocError>
    ensures { OnOk result (string_bytes text.new ≡ string_bytes text.old ++ denied_words kind is_denied) }
{
    if kind.is_some() && is_denied {
        text.push_str(", denied")?;
    }
    Ok(())
}

/// Appends that a finding is old, if it is.
pub(crate) fn push_old(text: &mut String, is_old: bool) -> Result<(), AllocError>
    ensures { OnOk result (string_bytes text.new ≡ string_bytes text.old ++ old_words is_old) }
{
    if is_old {
        text.push_str(", old")?;
    }
    Ok(())
}

/// Appends the line with what a finding is, its rating, and whether it is denied and old.
#[tactic(auto, unfolding(crate::specs::CheckText::status_line))]
fn push_status(text: &mut String, colored: bool, finding: &Finding<'_>) -> Result<(), AllocError>
    ensures { OnOk result (string_bytes text.new ≡ string_bytes text.old ++ status_line colored finding.now) }
{
    let metadata = &finding.advisory.metadata;
    text.push_str("  ")?;
    text.push_str(kind_text(finding.kind))?;
    push_rating(text, colored, severity_of(metadata), tenths_of(metadata))?;
    push_denied(text, finding.kind, finding.is_denied)?;
    push_old(text, finding.is_old)?;
    text.push_str("\n")?;
    Ok(())
}

/// Appends the package at a place, or a question mark if there is none.
fn push_place(text: &mut String, packages: &[Package], place: usize) -> Result<(), AllocError>
    ensures { OnOk result (string_bytes text.new ≡ string_bytes text.old ++ place_words packages.now place) }
{
    match packages.get(place) {
        Some(package) => push_package(text, package),
        None => {
            text.push_str("?")?;
            Ok(())
        }
    }
}

/// Appends an arrow and the package at a place.
fn push_step(text: &mut String, packages: &[Package], place: usize) -> Result<(), AllocError>
    ensures { OnOk result (string_bytes text.new ≡ string_bytes text.old ++ (arrow ++ place_words packages.now place)) }
{
    text.push_str(" → ")?;
    push_place(text, packages, place)
}

/// Appends the packages at some places, each after an arrow.
fn push_steps(text: &mut String, packages: &[Package], path: &[usize]) -> Result<(), AllocError>
    ensures { OnOk result (string_bytes text.new ≡ string_bytes text.old ++ steps packages.now path.now) }
{
    for place in path {
        push_step(text, packages, *place)?;
    }
    Ok(())
}

/// Appends the line with the packages of a path.
fn push_places(text: &mut String, packages: &[Package], path: &[usize]) -> Result<(), AllocError>
    ensures { OnOk result (string_bytes text.new ≡ string_bytes text.old ++ places_line packages.now path.now) }
{
    match path {
        [] => text.push_str("  no path from a root\n")?,
        [place, path @ ..] => {
            text.push_str("  ")?;
            push_place(text, packages, *place)?;
            push_steps(text, packages, path)?;
            text.push_str("\n")?;
        }
    }
    Ok(())
}

/// Appends the line with the packages of a path that may be missing.
pub(crate) fn push_path(
    text: &mut String,
    packages: &[Package],
    path: &Option<Vec<usize>>,
) -> Result<(), AllocError>
    ensures { OnOk result (string_bytes text.new ≡ string_bytes text.old ++ path_line packages.now (option_map (λ p. p.items) path.now)) }
{
    match path {
        Some(path) => push_places(text, packages, path.as_slice()),
        None => {
            text.push_str("  no path from a root\n")?;
            Ok(())
        }
    }
}

/// Appends the name and the version of a package, as Cargo takes them.
#[tactic(auto, unfolding(crate::specs::CheckText::locked_words))]
fn push_locked(text: &mut String, package: &Package) -> Result<(), AllocError>
    ensures { OnOk result (string_bytes text.new ≡ string_bytes text.old ++ locked_words «package».now) }
{
    let locked = &package.version;
    push_shown(text, package.name.as_str())?;
    write!(text, "@{locked}")?;
    Ok(())
}

/// Appends the command that updates a package.
#[tactic(auto, unfolding(crate::specs::CheckText::command_words))]
fn push_command(text: &mut String, package: &Package) -> Result<(), AllocError>
    ensures { OnOk result (string_bytes text.new ≡ string_bytes text.old ++ command_words «package».now) }
{
    text.push_str(" (compatible): cargo update ")?;
    push_locked(text, package)?;
    text.push_str("\n")?;
    Ok(())
}

/// Appends with which requirement a version is not compatible.
#[tactic(auto, unfolding(crate::specs::CheckText::incompatible_words))]
fn push_incompatible(text: &mut String, package: &Package) -> Result<(), AllocError>
    ensures { OnOk result (string_bytes text.new ≡ string_bytes text.old ++ incompatible_words «package».now) }
{
    let locked = &package.version;
    writeln!(text, " (incompatible with ^{locked})")?;
    Ok(())
}

/// Appends the line with a version to update a package to.
fn push_version(
    text: &mut String,
    package: &Package,
    version: &Version,
    is_compatible: bool,
) -> Result<(), AllocError>
    ensures { OnOk result (string_bytes text.new ≡ string_bytes text.old ++ update_line «package».now (Some (parts_of version.now)) is_compatible) }
{
    write!(text, "  update to {version}")?;
    if is_compatible {
        push_command(text, package)?;
        return Ok(());
    }
    push_incompatible(text, package)?;
    Ok(())
}

/// Appends the line with the version to update a package to, or that there is none.
fn push_update(
    text: &mut String,
    package: &Package,
    version: &Option<Version>,
    is_compatible: bool,
) -> Result<(), AllocError>
    ensures { OnOk result (string_bytes text.new ≡ string_bytes text.old ++ update_line «package».now (option_map parts_of version.now) is_compatible) }
{
    match version {
        Some(version) => push_version(text, package, version, is_compatible),
        None => {
            text.push_str("  no fixed version\n")?;
            Ok(())
        }
    }
}

/// Appends an ID after a space.
#[tactic(auto, unfolding(crate::specs::CheckText::id_words))]
fn push_id(text: &mut String, id: &Id) -> Result<(), AllocError>
    ensures { OnOk result (string_bytes text.new ≡ string_bytes text.old ++ id_words id.now) }
{
    text.push_str(" ")?;
    push_shown(text, id.as_str())
}

/// Appends IDs, each after a space.
fn push_ids(text: &mut String, ids: &[&Id]) -> Result<(), AllocError>
    ensures { OnOk result (string_bytes text.new ≡ string_bytes text.old ++ flat_map id_words (map (λ i. i.now) ids.now)) }
{
    for id in ids {
        push_id(text, id)?;
    }
    Ok(())
}

/// Appends the line with the ignored advisories that the version to update to depends on.
#[tactic(auto, unfolding(crate::specs::CheckText::moving_words))]
fn push_moving(text: &mut String, ids: &[&Id]) -> Result<(), AllocError>
    ensures { OnOk result (string_bytes text.new ≡ string_bytes text.old ++ moving_words (map (λ i. i.now) ids.now)) }
{
    text.push_str("  ignoring does not help, these count for the update too:")?;
    push_ids(text, ids)?;
    text.push_str("\n")?;
    Ok(())
}

/// Appends the line with the ignored advisories that the version to update to depends on, if any.
fn push_moved(text: &mut String, ids: &[&Id]) -> Result<(), AllocError>
    ensures { OnOk result (string_bytes text.new ≡ string_bytes text.old ++ moved_line (map (λ i. i.now) ids.now)) }
{
    if ids.is_empty() {
        return Ok(());
    }
    push_moving(text, ids)?;
    Ok(())
}

/// Appends the lines with how a finding about a package can be mended.
fn push_help(text: &mut String, package: &Package, update: &Update<'_>) -> Result<(), AllocError>
    ensures { OnOk result (string_bytes text.new ≡ string_bytes text.old
        ++ (update_line «package».now update.now.least_free update.now.is_compatible ++ moved_line update.now.moved_by)) }
{
    push_update(text, package, &update.least_free, update.is_compatible)?;
    push_moved(text, update.moved_by.as_slice())?;
    Ok(())
}

/// Appends the lines of a finding.
#[tactic(auto, unfolding(crate::specs::CheckText::block))]
pub(crate) fn push_block(
    text: &mut String,
    colored: bool,
    packages: &[Package],
    finding: &Finding<'_>,
) -> Result<(), AllocError>
    ensures { OnOk result (string_bytes text.new ≡ string_bytes text.old ++ block colored packages.now finding.now) }
{
    push_title(text, colored, finding)?;
    push_status(text, colored, finding)?;
    push_path(text, packages, &finding.path)?;
    push_help(text, finding.package, &finding.update)?;
    Ok(())
}
