//! Writes how a finding can be mended.

ghost use Rattle.std.specs.Prelude.{◌≡◌, ◌++◌, OnOk, map, option_map, string_bytes};
ghost use Rattle.std.specs.List.{flat_map};
ghost use Rattle.semver.specs.Identifiers.{parts_of};
ghost use Rattle.rustsec_page.specs.Findings.{command, how, incompatible, mended, moved, moved_id, moving, update};
ghost use Rattle.rustsec_page.specs.Pieces.{text_of};

use crate::card::Card;
use crate::pieces::{push_card, push_content, push_version};
use rustsec_check::{Finding, Update};
use rustsec_lock::package::Package;
use rustsec_texts::Id;
use std::alloc::{AllocError, Global};

/// Appends the command that updates a package.
#[tactic(auto, unfolding(crate::specs::Findings::command))]
fn push_command(alloc: Global, text: &mut String, package: &Package) -> Result<(), AllocError>
    ensures { OnOk result (string_bytes text.new ≡ string_bytes text.old ++ text_of (command «package».now)) }
{
    push_card(text, Card::CommandStart)?;
    push_content(text, package.name.as_str())?;
    push_card(text, Card::CommandAt)?;
    push_version(alloc, text, &package.version)?;
    push_card(text, Card::CommandEnd)
}

/// Appends with which requirement a version is not compatible.
#[tactic(auto, unfolding(crate::specs::Findings::incompatible))]
fn push_incompatible(alloc: Global, text: &mut String, package: &Package) -> Result<(), AllocError>
    ensures { OnOk result (string_bytes text.new ≡ string_bytes text.old ++ text_of (incompatible «package».now)) }
{
    push_card(text, Card::Incompatible)?;
    push_version(alloc, text, &package.version)?;
    push_card(text, Card::IncompatibleEnd)
}

/// Appends the command that updates a package, if it is enough, else what keeps Cargo from the version.
fn push_how(
    alloc: Global,
    text: &mut String,
    package: &Package,
    is_compatible: bool,
) -> Result<(), AllocError>
    ensures { OnOk result (string_bytes text.new ≡ string_bytes text.old ++ text_of (how «package».now is_compatible)) }
{
    if is_compatible {
        push_command(alloc, text, package)
    } else {
        push_incompatible(alloc, text, package)
    }
}

/// Appends the version to update a package to, if any.
fn push_update(
    alloc: Global,
    text: &mut String,
    package: &Package,
    by: &Update<'_>,
) -> Result<(), AllocError>
    ensures { OnOk result (string_bytes text.new ≡ string_bytes text.old
        ++ text_of (update «package».now by.now.least_free by.now.is_compatible)) }
{
    match &by.least_free {
        Some(version) => {
            push_card(text, Card::UpdateStart)?;
            push_version(alloc, text, version)?;
            push_how(alloc, text, package, by.is_compatible)
        }
        None => push_card(text, Card::NoUpdate),
    }
}

/// Appends an ID, after a space.
#[tactic(auto, unfolding(crate::specs::Findings::moved_id))]
fn push_moved_id(text: &mut String, id: &Id) -> Result<(), AllocError>
    ensures { OnOk result (string_bytes text.new ≡ string_bytes text.old ++ text_of (moved_id id.now)) }
{
    push_card(text, Card::MovedId)?;
    push_content(text, id.as_str())
}

/// Appends IDs, each after a space.
fn push_moved_ids(text: &mut String, ids: &[&Id]) -> Result<(), AllocError>
    ensures { OnOk result (string_bytes text.new ≡ string_bytes text.old
        ++ text_of (flat_map moved_id (map (λ i. i.now) ids.now))) }
{
    for id in ids {
        push_moved_id(text, id)?;
    }
    Ok(())
}

/// Appends the ignored advisories that the version to update to depends on.
#[tactic(auto, unfolding(crate::specs::Findings::moving))]
fn push_moving(text: &mut String, ids: &[&Id]) -> Result<(), AllocError>
    ensures { OnOk result (string_bytes text.new ≡ string_bytes text.old ++ text_of (moving (map (λ i. i.now) ids.now))) }
{
    push_card(text, Card::MovedStart)?;
    push_moved_ids(text, ids)?;
    push_card(text, Card::MovedEnd)
}

/// Appends the ignored advisories that the version to update to depends on, if any.
fn push_moved(text: &mut String, ids: &[&Id]) -> Result<(), AllocError>
    ensures { OnOk result (string_bytes text.new ≡ string_bytes text.old ++ text_of (moved (map (λ i. i.now) ids.now))) }
{
    if !ids.is_empty() {
        push_moving(text, ids)?;
    }
    Ok(())
}

/// Appends how a finding can be mended.
#[tactic(auto, unfolding(crate::specs::Findings::mended))]
pub(crate) fn push_mended(
    alloc: Global,
    text: &mut String,
    finding: &Finding<'_>,
) -> Result<(), AllocError>
    ensures { OnOk result (string_bytes text.new ≡ string_bytes text.old ++ text_of (mended finding.now)) }
{
    push_update(alloc, text, finding.package, &finding.update)?;
    push_moved(text, finding.update.moved_by.as_slice())
}
