//! Where the files of an index are, and which of them are missing.

ghost use Rattle.std.specs.Prelude.{◌≡◌, IfErr, IfOk, MatchBool, None, option_map};
ghost use Rattle.rustsec_files.specs.Allowed.{AllowSame};
ghost use Rattle.rustsec_files.specs.Names.{AreNames, under};
ghost use Rattle.rustsec_values.specs.Failure.{IsMemory, IsRefusal};
ghost use Rattle.rustsec_registry.specs.index.IndexFolder.{IsListed, IsMissing, IsPlace, Shows, has, place_of};

use crate::index::form::IndexForm;
use rustsec_files::Folders;
use rustsec_values::{ErrorKind, Items, Result, Text};
use std::alloc::{AllocError, Global};

/// The folder with the files of an index, and their form.
#[derive(Debug, Drop)]
pub(crate) struct Place {
    pub(crate) root: Text,
    pub(crate) form: IndexForm,
}

/// Returns the path of a name in a folder.
fn under(alloc: Global, folder: &str, name: &str) -> std::result::Result<Text, AllocError>
    ensures { IfOk result (λ path. path ≡ under folder.now name.now) }
{
    Ok(Text::from(format!(in alloc; "{folder}/{name}")?))
}

/// Returns where the files are, by the names in the folder of an index.
fn place_of(alloc: Global, root: &str, names: &[Text]) -> std::result::Result<Place, AllocError>
    ensures { IfOk result (λ place. place ≡ place_of root.now names.now) }
{
    let cache = Text::from_str(alloc, ".cache")?;
    if names.contains(&cache) {
        let root = under(alloc, root, ".cache")?;
        return Ok(Place {
            root,
            form: IndexForm::Cache,
        });
    }
    let root = Text::from_str(alloc, root)?;
    Ok(Place {
        root,
        form: IndexForm::Checkout,
    })
}

/// Finds where the files of the index in a folder are.
pub(crate) fn find_place<F: Folders>(alloc: Global, folders: &mut F, root: &str) -> Result<Place>
    ensures ok { IfOk result (IsPlace (F.allowed folders.old) root.now) }
    ensures err { IfErr result (IsRefusal ErrorKind.Io ((F.allowed folders.old).lists root.now None)) }
    ensures same { AllowSame (F.allowed folders.old) (F.allowed folders.new) }
{
    let names = folders.names(alloc, root)?;
    let place = place_of(alloc, root, names.as_slice())?;
    Ok(place)
}

/// Returns whether a folder lists a name, or `None` if it cannot be listed.
fn shows<F: Folders>(
    alloc: Global,
    folders: &mut F,
    folder: &str,
    name: &Text,
) -> Result<Option<bool>>
    ensures ok { IfOk result (Shows (F.allowed folders.old) folder.now name.now) }
    ensures err { IfErr result IsMemory }
    ensures same { AllowSame (F.allowed folders.old) (F.allowed folders.new) }
{
    match folders.names(alloc, folder) {
        Ok(names) => Ok(Some(names.as_slice().contains(name))),
        Err(e) if e.kind() == ErrorKind::Io => Ok(None),
        Err(e) => Err(e),
    }
}

/// Returns whether a folder on the way to a file does not list the next name. A folder that cannot be listed does not
/// show that.
pub(crate) fn is_missing<F: Folders>(
    alloc: Global,
    folders: &mut F,
    root: &str,
    path: &[Text],
) -> Result<bool>
    ensures ok { IfOk result (λ missing. MatchBool missing (IsMissing (F.allowed folders.old) root.now path.now)
        (IsListed (F.allowed folders.old) root.now path.now)) }
    ensures err { IfErr result IsMemory }
    ensures same { AllowSame (F.allowed folders.old) (F.allowed folders.new) }
{
    let mut folder = Text::from_str(alloc, root)?;
    for name in path {
        match shows(alloc, folders, folder.as_str(), name)? {
            Some(true) => {}
            Some(false) => return Ok(true),
            None => return Ok(false),
        }
        folder = under(alloc, folder.as_str(), name.as_str())?;
    }
    Ok(false)
}
