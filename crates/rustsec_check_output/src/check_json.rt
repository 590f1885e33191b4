//! Writes checks as JSON.

ghost use Rattle.std.specs.Prelude.{◌≡◌, ◌++◌, OnOk, string_bytes};
ghost use Rattle.std.specs.Fmt.{decimal};
ghost use Rattle.rustsec_check_output.specs.CheckJson.{listed_json, unneeded_json, check_json, database_json, found_json, lockfile_json, looked_at_json, optional_json, quoted};

use crate::dated::Dated;
use crate::finding_json::push_findings;
use crate::ignored_json::push_all_ignored;
use crate::list_json::{push_id_refs, push_texts};
use crate::part::{First, Key, push_first, push_key};
use crate::quoted::push_quoted;
use crate::written::Written;
use crate::yanked_json::push_all_yanked;
use std::alloc::{AllocError, Global};
use std::fmt::Write as _;

/// Appends a number.
fn push_number(json: &mut String, number: usize) -> Result<(), AllocError>
    ensures { OnOk result (string_bytes json.new ≡ string_bytes json.old ++ decimal number) }
{
    write!(json, "{number}")?;
    Ok(())
}

/// Appends the latest date of an advisory, null without an advisory.
fn push_last_date(alloc: Global, json: &mut String, database: &Dated<'_>) -> Result<(), AllocError>
    ensures { OnOk result (string_bytes json.new ≡ string_bytes json.old ++ optional_json quoted database.now.last_date) }
{
    match database.last_date() {
        Some(date) => push_quoted(alloc, json, date.as_str()),
        None => {
            json.push_str("null")?;
            Ok(())
        }
    }
}

/// Appends how many advisories a database has, and their latest date.
#[tactic(auto, unfolding(crate::specs::CheckJson::database_json))]
fn push_database(alloc: Global, json: &mut String, database: &Dated<'_>) -> Result<(), AllocError>
    ensures { OnOk result (string_bytes json.new ≡ string_bytes json.old ++ database_json database.now) }
{
    push_first(json, First::AdvisoryCount)?;
    push_number(json, database.count())?;
    push_key(json, Key::LastDate)?;
    push_last_date(alloc, json, database)?;
    json.push_str("}")?;
    Ok(())
}

/// Appends how many packages a lockfile has.
#[tactic(auto, unfolding(crate::specs::CheckJson::lockfile_json))]
fn push_lockfile(json: &mut String, packages: usize) -> Result<(), AllocError>
    ensures { OnOk result (string_bytes json.new ≡ string_bytes json.old ++ lockfile_json packages) }
{
    push_first(json, First::DependencyCount)?;
    push_number(json, packages)?;
    json.push_str("}")?;
    Ok(())
}

/// Appends the findings and the ignored pairs of a check.
#[tactic(auto, unfolding(crate::specs::CheckJson::listed_json))]
fn push_listed(
    alloc: Global,
    json: &mut String,
    written: &Written<'_, '_>,
) -> Result<(), AllocError>
    ensures { OnOk result (string_bytes json.new ≡ string_bytes json.old ++ listed_json written.now) }
{
    let check = written.check;
    let packages = written.lockfile.packages.as_slice();
    push_key(json, Key::Findings)?;
    push_findings(alloc, json, packages, check.findings.as_slice())?;
    push_key(json, Key::Ignored)?;
    push_all_ignored(alloc, json, written.entries, check.ignored.as_slice())?;
    Ok(())
}

/// Appends the beginning of a check, up to the ignored pairs.
#[tactic(auto, unfolding(crate::specs::CheckJson::found_json))]
fn push_found(alloc: Global, json: &mut String, written: &Written<'_, '_>) -> Result<(), AllocError>
    ensures { OnOk result (string_bytes json.new ≡ string_bytes json.old ++ found_json written.now) }
{
    let check = written.check;
    push_first(json, First::BelowThreshold)?;
    push_number(json, check.below_threshold)?;
    push_key(json, Key::Database)?;
    push_database(alloc, json, written.database)?;
    push_listed(alloc, json, written)
}

/// Appends the IDs that ignore nothing, and the yanked packages.
#[tactic(auto, unfolding(crate::specs::CheckJson::unneeded_json))]
fn push_unneeded(
    alloc: Global,
    json: &mut String,
    written: &Written<'_, '_>,
) -> Result<(), AllocError>
    ensures { OnOk result (string_bytes json.new ≡ string_bytes json.old ++ unneeded_json written.now) }
{
    let check = written.check;
    let packages = written.lockfile.packages.as_slice();
    push_key(json, Key::UnknownIgnores)?;
    push_id_refs(alloc, json, check.unknown.as_slice())?;
    push_key(json, Key::UnusedIgnores)?;
    push_id_refs(alloc, json, check.unused.as_slice())?;
    push_key(json, Key::Yanked)?;
    push_all_yanked(alloc, json, packages, written.yanked)?;
    json.push_str("}")?;
    Ok(())
}

/// Appends the rest of a check.
#[tactic(auto, unfolding(crate::specs::CheckJson::looked_at_json))]
fn push_looked_at(
    alloc: Global,
    json: &mut String,
    written: &Written<'_, '_>,
) -> Result<(), AllocError>
    ensures { OnOk result (string_bytes json.new ≡ string_bytes json.old ++ looked_at_json written.now) }
{
    let packages = written.lockfile.packages.as_slice();
    push_key(json, Key::Lockfile)?;
    push_lockfile(json, packages.len())?;
    push_key(json, Key::Notes)?;
    push_texts(alloc, json, written.notes)?;
    push_unneeded(alloc, json, written)
}

/// Appends a check.
#[tactic(auto, unfolding(crate::specs::CheckJson::check_json))]
pub(crate) fn push_check(
    alloc: Global,
    json: &mut String,
    written: &Written<'_, '_>,
) -> Result<(), AllocError>
    ensures { OnOk result (string_bytes json.new ≡ string_bytes json.old ++ check_json written.now) }
{
    push_found(alloc, json, written)?;
    push_looked_at(alloc, json, written)
}
