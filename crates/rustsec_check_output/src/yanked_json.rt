//! Writes yanked packages as JSON.

ghost use Rattle.std.specs.Prelude.{◌≡◌, ◌++◌, OnOk, option_map, string_bytes};
ghost use Rattle.rustsec_check_output.specs.CheckJson.{yanked_there_json, list_json, optional_json, yanked_json};

use crate::finding_json::push_path;
use crate::list_json::{Push, push_list};
use crate::package_json::{push_places, push_sourced};
use crate::part::{First, Key, push_first, push_key};
use crate::update_json::push_boolean;
use rustsec_check::Yanked;
use rustsec_lock::package::Package;
use std::alloc::{AllocError, Global};

/// Appends which package is yanked, and the path to it.
#[tactic(auto, unfolding(crate::specs::CheckJson::yanked_there_json))]
fn push_yanked_there(
    alloc: Global,
    json: &mut String,
    packages: &[Package],
    yanked: &Yanked<'_>,
) -> Result<(), AllocError>
    ensures { OnOk result (string_bytes json.new ≡ string_bytes json.old ++ yanked_there_json packages.now yanked.now) }
{
    push_key(json, Key::Old)?;
    push_boolean(json, yanked.is_old)?;
    push_key(json, Key::Package)?;
    push_sourced(alloc, json, yanked.package)?;
    push_key(json, Key::Path)?;
    push_path(alloc, json, packages, &yanked.path)?;
    json.push_str("}")?;
    Ok(())
}

/// Appends a yanked package.
#[tactic(auto, unfolding(crate::specs::CheckJson::yanked_json))]
fn push_yanked(
    alloc: Global,
    json: &mut String,
    packages: &[Package],
    yanked: &Yanked<'_>,
) -> Result<(), AllocError>
    ensures { OnOk result (string_bytes json.new ≡ string_bytes json.old ++ yanked_json packages.now yanked.now) }
{
    push_first(json, First::Denied)?;
    push_boolean(json, yanked.is_denied)?;
    push_key(json, Key::Dependents)?;
    push_places(alloc, json, packages, yanked.dependents.as_slice())?;
    push_yanked_there(alloc, json, packages, yanked)
}

/// Writes yanked packages of a lockfile.
#[derive(Drop)]
struct InPackages<'a> {
    packages: &'a [Package],
}

impl<'a, 'b> Push<Yanked<'b>> for InPackages<'a> {
    ghost use Rattle.rustsec_check_output.specs.CheckJson.{yanked_json};

    ghost written = { λ way yanked. yanked_json way.packages.now yanked };

    fn push(
        &self,
        alloc: Global,
        json: &mut String,
        yanked: &Yanked<'b>,
    ) -> Result<(), AllocError> {
        push_yanked(alloc, json, self.packages, yanked)
    }
}

/// Appends a list of yanked packages, null if no index was asked.
pub(crate) fn push_all_yanked(
    alloc: Global,
    json: &mut String,
    packages: &[Package],
    yanked: Option<&[Yanked<'_>]>,
) -> Result<(), AllocError>
    ensures { OnOk result (string_bytes json.new ≡ string_bytes json.old
        ++ optional_json (list_json (yanked_json packages.now)) (option_map (λ y. y.now) yanked.entry)) }
{
    match yanked {
        Some(yanked) => push_list(alloc, json, &InPackages { packages }, yanked),
        None => {
            json.push_str("null")?;
            Ok(())
        }
    }
}
