//! Whether the file of an advisory is where the advisory belongs.

ghost use Rattle.std.specs.Prelude.{◌≡◌, ◌&&◌, ◌++◌, IfOk, OnOk, string_bytes};
ghost use Rattle.rustsec_files.specs.Paths.{is_markdown};
ghost use Rattle.rustsec_database.specs.Placement.{is_named};
ghost use Rattle.rustsec_lint_database.specs.Placement.{collection_remarks, folder_remarks, name_remarks, placement_remarks};

use crate::remark::{Remark, RemarkKind, push_remark};
use rustsec_advisory::Advisory;
use rustsec_database::placement;
use rustsec_files::path::FilePath;
use rustsec_texts::Collection;
use rustsec_values::Items;
use std::alloc::{AllocError, Global};

/// Returns a name between two texts.
fn between(alloc: Global, before: &str, name: &str, after: &str) -> Result<String, AllocError>
    ensures { IfOk result (λ t. string_bytes t ≡ before.now ++ (name.now ++ after.now)) }
{
    let mut text = String::from_str(alloc, before)?;
    text.push_str(name)?;
    text.push_str(after)?;
    Ok(text)
}

/// Returns whether the file is a Markdown file that is named after an ID, or is a draft's.
fn is_named_after(file: &FilePath<'_>, id: &str) -> bool
    ensures { result ≡ (is_markdown file.now.path.now && is_named file.now.path.now id.now) }
{
    file.is_markdown() && placement::is_named(file, id)
}

/// Appends the remark on the file's name.
pub(crate) fn push_name(
    alloc: Global,
    remarks: &mut Items<Remark>,
    file: &FilePath<'_>,
    advisory: &Advisory,
) -> Result<(), AllocError>
    ensures { OnOk result (remarks.new ≡ remarks.old ++ name_remarks file.now.path.now advisory.now) }
{
    let id = advisory.metadata.id.as_str();
    if is_named_after(file, id) {
        return Ok(());
    }
    let text = between(alloc, "another file name, expected `", id, ".md`")?;
    push_remark(remarks, RemarkKind::Misplaced, text)
}

/// Appends the remark on the folder's name.
pub(crate) fn push_folder(
    alloc: Global,
    remarks: &mut Items<Remark>,
    file: &FilePath<'_>,
    advisory: &Advisory,
) -> Result<(), AllocError>
    ensures { OnOk result (remarks.new ≡ remarks.old ++ folder_remarks file.now.path.now advisory.now) }
{
    let package = advisory.metadata.package.as_str();
    if placement::is_in_folder(file, package) {
        return Ok(());
    }
    let text = between(
        alloc,
        "another folder, expected `",
        package,
        "`, the package",
    )?;
    push_remark(remarks, RemarkKind::Misplaced, text)
}

/// Appends the remark on the collection, for the one that the advisory names and the one that the folder is in.
pub(crate) fn push_collection(
    alloc: Global,
    remarks: &mut Items<Remark>,
    named: Option<Collection>,
    at: Option<Collection>,
) -> Result<(), AllocError>
    ensures { OnOk result (remarks.new ≡ remarks.old ++ collection_remarks named at) }
{
    let Some(collection) = at else {
        let text = "the folder is in no collection, expected `crates` or `rust`";
        return push_remark(
            remarks,
            RemarkKind::Misplaced,
            String::from_str(alloc, text)?,
        );
    };
    if placement::agrees(named, collection) {
        return Ok(());
    }
    let name = collection.as_str();
    let text = between(
        alloc,
        "another `collection` in [advisory], expected `",
        name,
        "`",
    )?;
    push_remark(remarks, RemarkKind::Misplaced, text)
}

/// Appends the remarks on the place of an advisory's file: of its name, its folder and its collection.
pub(crate) fn push_placement(
    alloc: Global,
    remarks: &mut Items<Remark>,
    file: &FilePath<'_>,
    advisory: &Advisory,
) -> Result<(), AllocError>
    ensures { OnOk result (remarks.new ≡ remarks.old ++ placement_remarks file.now.path.now advisory.now) }
{
    push_name(alloc, remarks, file, advisory)?;
    push_folder(alloc, remarks, file, advisory)?;
    let named = advisory.metadata.collection;
    push_collection(alloc, remarks, named, placement::collection_at(file))
}
