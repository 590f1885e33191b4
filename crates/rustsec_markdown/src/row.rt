//! Writes the rows of the table of findings.

ghost use Rattle.std.specs.Prelude.{◌≡◌, ◌++◌, IfOk, OnOk, map, option_map, string_bytes};
ghost use Rattle.semver.specs.Identifiers.{parts_of};
ghost use Rattle.rustsec_check_output.specs.CheckText.{arrow};
ghost use Rattle.rustsec_markdown.specs.MarkdownText.{path_words, place_words, places_words, row, said_cells, status_words, steps, subject_cells, update_words};

use crate::cells::{
    push_code, push_code_version, push_denied, push_old, push_package, push_rating,
};
use rustsec_check::Finding;
use rustsec_check_output::rating::{kind_text, severity_of, tenths_of};
use rustsec_lock::package::Package;
use rustsec_values::Text;
use semver::Version;
use std::alloc::{AllocError, Global};

/// Appends what a finding is, its rating, and whether it is denied and old.
#[tactic(auto, unfolding(crate::specs::MarkdownText::status_words))]
fn push_status(text: &mut String, finding: &Finding<'_>) -> Result<(), AllocError>
    ensures { OnOk result (string_bytes text.new ≡ string_bytes text.old ++ status_words finding.now) }
{
    let metadata = &finding.advisory.metadata;
    text.push_str(kind_text(finding.kind))?;
    push_rating(text, severity_of(metadata), tenths_of(metadata))?;
    push_denied(text, finding.is_denied)?;
    push_old(text, finding.is_old)?;
    Ok(())
}

/// Appends the package at a place, or a question mark if there is none.
fn push_place(
    alloc: Global,
    text: &mut String,
    packages: &[Package],
    place: usize,
) -> Result<(), AllocError>
    ensures { OnOk result (string_bytes text.new ≡ string_bytes text.old ++ place_words packages.now place) }
{
    match packages.get(place) {
        Some(package) => push_package(alloc, text, package),
        None => {
            text.push_str("?")?;
            Ok(())
        }
    }
}

/// Appends an arrow and the package at a place.
fn push_step(
    alloc: Global,
    text: &mut String,
    packages: &[Package],
    place: usize,
) -> Result<(), AllocError>
    ensures { OnOk result (string_bytes text.new ≡ string_bytes text.old ++ (arrow ++ place_words packages.now place)) }
{
    text.push_str(" → ")?;
    push_place(alloc, text, packages, place)
}

/// Appends the packages at some places, each after an arrow.
fn push_steps(
    alloc: Global,
    text: &mut String,
    packages: &[Package],
    path: &[usize],
) -> Result<(), AllocError>
    ensures { OnOk result (string_bytes text.new ≡ string_bytes text.old ++ steps packages.now path.now) }
{
    for place in path {
        push_step(alloc, text, packages, *place)?;
    }
    Ok(())
}

/// Appends the packages of a path, with arrows between them.
fn push_places(
    alloc: Global,
    text: &mut String,
    packages: &[Package],
    path: &[usize],
) -> Result<(), AllocError>
    ensures { OnOk result (string_bytes text.new ≡ string_bytes text.old ++ places_words packages.now path.now) }
{
    match path {
        [] => text.push_str("no path from a root")?,
        [place, path @ ..] => {
            push_place(alloc, text, packages, *place)?;
            push_steps(alloc, text, packages, path)?;
        }
    }
    Ok(())
}

/// Appends the packages of a path that may be missing.
fn push_path(
    alloc: Global,
    text: &mut String,
    packages: &[Package],
    path: &Option<Vec<usize>>,
) -> Result<(), AllocError>
    ensures { OnOk result (string_bytes text.new ≡ string_bytes text.old ++ path_words packages.now (option_map (λ p. p.items) path.now)) }
{
    match path {
        Some(path) => push_places(alloc, text, packages, path.as_slice()),
        None => {
            text.push_str("no path from a root")?;
            Ok(())
        }
    }
}

/// Appends the version to update a package to, or that there is none.
fn push_update(
    alloc: Global,
    text: &mut String,
    version: &Option<Version>,
    is_compatible: bool,
) -> Result<(), AllocError>
    ensures { OnOk result (string_bytes text.new ≡ string_bytes text.old ++ update_words (option_map parts_of version.now) is_compatible) }
{
    let Some(version) = version else {
        text.push_str("no fixed version")?;
        return Ok(());
    };
    push_code_version(alloc, text, version)?;
    text.push_str(if is_compatible {
        " (compatible)"
    } else {
        " (incompatible)"
    })?;
    Ok(())
}

/// Appends the cells with the package, the advisory and its title.
#[tactic(auto, unfolding(crate::specs::MarkdownText::subject_cells))]
fn push_subject(alloc: Global, text: &mut String, finding: &Finding<'_>) -> Result<(), AllocError>
    ensures { OnOk result (string_bytes text.new ≡ string_bytes text.old ++ subject_cells finding.now) }
{
    text.push_str("| ")?;
    push_package(alloc, text, finding.package)?;
    text.push_str(" | ")?;
    push_code(text, finding.advisory.metadata.id.as_str())?;
    text.push_str(" | ")?;
    push_code(text, finding.advisory.metadata.title.as_str())?;
    Ok(())
}

/// Appends the cells with the status, the path and the update.
#[tactic(auto, unfolding(crate::specs::MarkdownText::said_cells))]
fn push_said(
    alloc: Global,
    text: &mut String,
    packages: &[Package],
    finding: &Finding<'_>,
) -> Result<(), AllocError>
    ensures { OnOk result (string_bytes text.new ≡ string_bytes text.old ++ said_cells packages.now finding.now) }
{
    let update = &finding.update;
    text.push_str(" | ")?;
    push_status(text, finding)?;
    text.push_str(" | ")?;
    push_path(alloc, text, packages, &finding.path)?;
    text.push_str(" | ")?;
    push_update(alloc, text, &update.least_free, update.is_compatible)?;
    text.push_str(" |\n")?;
    Ok(())
}

/// Returns the row of a finding.
#[tactic(auto, unfolding(crate::specs::MarkdownText::row))]
fn row(alloc: Global, packages: &[Package], finding: &Finding<'_>) -> Result<Text, AllocError>
    ensures { IfOk result (λ t. t ≡ row packages.now finding.now) }
{
    let mut text = String::new(alloc);
    push_subject(alloc, &mut text, finding)?;
    push_said(alloc, &mut text, packages, finding)?;
    Ok(Text::from(text))
}

/// Returns the rows of findings, in order.
pub(crate) fn rows(
    alloc: Global,
    packages: &[Package],
    findings: &[Finding<'_>],
) -> Result<Vec<Text>, AllocError>
    ensures { IfOk result (λ v. v.items ≡ map (row packages.now) findings.now) }
{
    let mut rows = Vec::new(alloc);
    for finding in findings {
        rows.push(row(alloc, packages, finding)?)?;
    }
    Ok(rows)
}
