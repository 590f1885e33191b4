//! The source files under a root, over any folders.

ghost use Rattle.std.specs.Prelude.{◌≡◌, ◌⊎◌, IfErr, IfOk, MatchResult, None, Some, map};
ghost use Rattle.rustsec_files.specs.Allowed.{AllowSame};
ghost use Rattle.rustsec_files.specs.Listed.{AreFolders, FailsAtFile, FailsAtFolder, FailsBelow, IsCollection, IsCollectionIfThere, IsFile, IsFolder, Listed, Pairwise, Paths, crates_of, rust_of};
ghost use Rattle.rustsec_files.specs.Names.{under};
ghost use Rattle.rustsec_files.specs.Seen.{listed_from};
ghost use Rattle.rustsec_values.specs.Failure.{IsRefusal};

use crate::folders::Folders;
use crate::names::{folders_in, joined, names_in};
use crate::source_file::SourceFile;
use rustsec_values::{ErrorKind, Items, Result, Text};
use std::alloc::{AllocError, Global};

/// Returns the paths of names in a folder, in the order of the names.
fn paths_under(
    alloc: Global,
    folder: &str,
    names: &[Text],
) -> std::result::Result<Vec<Text>, AllocError>
    ensures { IfOk result (λ v. v.items ≡ map (under folder.now) names.now) }
{
    let mut paths = Vec::new(alloc);
    for name in names {
        let path = joined(alloc, folder, name.as_str())?;
        paths.push(Text::from(path))?;
    }
    Ok(paths)
}

/// Returns the paths of the files of a package's folder.
fn paths_in<F: Folders>(alloc: Global, folders: &mut F, folder: &str) -> Result<Vec<Text>>
    ensures ok { IfOk result (λ v. IsFolder (listed_from F.listed (F.allowed folders.old)) folder.now v.items) }
    ensures err { IfErr result (IsRefusal ErrorKind.Io ((listed_from F.listed (F.allowed folders.old)).lists folder.now None)) }
    ensures same { AllowSame (F.allowed folders.old) (F.allowed folders.new) }
{
    let names = names_in(alloc, folders, folder)?;
    let paths = paths_under(alloc, folder, &names)?;
    Ok(paths)
}

/// Returns the paths of the files of the folder of a name in a collection.
fn paths_of_package<F: Folders>(
    alloc: Global,
    folders: &mut F,
    collection: &str,
    name: &str,
) -> Result<Vec<Text>>
    ensures ok { IfOk result (λ v. IsFolder (listed_from F.listed (F.allowed folders.old)) (under collection.now name.now) v.items) }
    ensures err { IfErr result (IsRefusal ErrorKind.Io ((listed_from F.listed (F.allowed folders.old)).lists (under collection.now name.now) None)) }
    ensures same { AllowSame (F.allowed folders.old) (F.allowed folders.new) }
{
    let path = joined(alloc, collection, name)?;
    paths_in(alloc, folders, &path)
}

/// Returns the paths of the files of the folders of names in a collection, in the order of the names.
fn paths_of_packages<F: Folders>(
    alloc: Global,
    folders: &mut F,
    collection: &str,
    names: &[Text],
) -> Result<Vec<Text>>
    ensures ok { IfOk result (λ v. AreFolders (listed_from F.listed (F.allowed folders.old)) collection.now names.now v.items) }
    ensures err { IfErr result (IsRefusal ErrorKind.Io (FailsAtFolder (listed_from F.listed (F.allowed folders.old)) collection.now names.now)) }
    ensures same { AllowSame (F.allowed folders.old) (F.allowed folders.new) }
{
    let mut paths = Vec::new(alloc);
    for name in names {
        let mut part = paths_of_package(alloc, folders, collection, name.as_str())?;
        paths.append(&mut part)?;
    }
    Ok(paths)
}

/// Returns the paths of the files of a collection.
fn paths_of_collection<F: Folders>(
    alloc: Global,
    folders: &mut F,
    collection: &str,
) -> Result<Vec<Text>>
    ensures ok { IfOk result (λ v. IsCollection (listed_from F.listed (F.allowed folders.old)) collection.now v.items) }
    ensures err { IfErr result (IsRefusal ErrorKind.Io ((listed_from F.listed (F.allowed folders.old)).lists collection.now None
        ⊎ FailsBelow (listed_from F.listed (F.allowed folders.old)) collection.now)) }
    ensures same { AllowSame (F.allowed folders.old) (F.allowed folders.new) }
{
    let names = folders_in(alloc, folders, collection)?;
    paths_of_packages(alloc, folders, collection, &names)
}

/// Returns the paths of the files of a collection, or none where it cannot be listed.
fn paths_if_there<F: Folders>(alloc: Global, folders: &mut F, collection: &str) -> Result<Vec<Text>>
    ensures ok { IfOk result (λ v. IsCollectionIfThere (listed_from F.listed (F.allowed folders.old)) collection.now v.items) }
    ensures err { IfErr result (IsRefusal ErrorKind.Io (FailsBelow (listed_from F.listed (F.allowed folders.old)) collection.now)) }
    ensures same { AllowSame (F.allowed folders.old) (F.allowed folders.new) }
{
    match folders_in(alloc, folders, collection) {
        Ok(names) => paths_of_packages(alloc, folders, collection, &names),
        Err(e) => {
            if e.kind() == ErrorKind::Io {
                Ok(Vec::new(alloc))
            } else {
                Err(e)
            }
        }
    }
}

/// Returns the paths of the files of the collection `crates` of a root.
fn paths_of_crates<F: Folders>(alloc: Global, folders: &mut F, root: &str) -> Result<Vec<Text>>
    ensures ok { IfOk result (λ v. IsCollection (listed_from F.listed (F.allowed folders.old)) (crates_of root.now) v.items) }
    ensures err { IfErr result (IsRefusal ErrorKind.Io ((listed_from F.listed (F.allowed folders.old)).lists (crates_of root.now) None
        ⊎ FailsBelow (listed_from F.listed (F.allowed folders.old)) (crates_of root.now))) }
    ensures same { AllowSame (F.allowed folders.old) (F.allowed folders.new) }
{
    let path = joined(alloc, root, "crates")?;
    paths_of_collection(alloc, folders, &path)
}

/// Returns the paths of the files of the collection `rust` of a root, or none where it cannot be listed.
fn paths_of_rust<F: Folders>(alloc: Global, folders: &mut F, root: &str) -> Result<Vec<Text>>
    ensures ok { IfOk result (λ v. IsCollectionIfThere (listed_from F.listed (F.allowed folders.old)) (rust_of root.now) v.items) }
    ensures err { IfErr result (IsRefusal ErrorKind.Io (FailsBelow (listed_from F.listed (F.allowed folders.old)) (rust_of root.now))) }
    ensures same { AllowSame (F.allowed folders.old) (F.allowed folders.new) }
{
    let path = joined(alloc, root, "rust")?;
    paths_if_there(alloc, folders, &path)
}

/// Returns the paths of the source files under a root: those of the collection `crates`, then those of
/// `rust`; in each its folders in the order of their names, and in each folder its files in the order of
/// theirs. A path is the root, the collection, the folder and the file's name, joined by `/`.
///
/// Names that begin with a dot are passed over, of folders and of files, and so is what is in a collection
/// and is not a folder. There are no files of `rust` where it cannot be listed. A name that an answer has
/// twice is there twice.
///
/// # Errors
///
/// `Io` where `crates` or a package's folder cannot be listed; else `OutOfMemory`.
pub fn source_paths<F: Folders>(alloc: Global, folders: &mut F, root: &str) -> Result<Items<Text>>
    ensures ok { IfOk result (λ paths. Paths (F.allowed folders.old) root.now (Some paths)) }
    ensures err { IfErr result (IsRefusal ErrorKind.Io (Paths (F.allowed folders.old) root.now None)) }
    ensures same { AllowSame (F.allowed folders.old) (F.allowed folders.new) }
    ensures listed { MatchResult result
        (λ paths. Paths (listed_from F.listed (F.allowed folders.old)) root.now (Some paths))
        (IsRefusal ErrorKind.Io (Paths (listed_from F.listed (F.allowed folders.old)) root.now None)) }
{
    let mut paths = paths_of_crates(alloc, folders, root)?;
    let mut rust = paths_of_rust(alloc, folders, root)?;
    paths.append(&mut rust)?;
    Ok(Items::from(paths))
}

/// Returns the file at a path.
fn file_at<F: Folders>(alloc: Global, folders: &mut F, path: Text) -> Result<SourceFile>
    ensures ok { IfOk result (IsFile (F.allowed folders.old) path) }
    ensures err { IfErr result (IsRefusal ErrorKind.Io ((F.allowed folders.old).reads path None)) }
    ensures same { AllowSame (F.allowed folders.old) (F.allowed folders.new) }
{
    let text = folders.read(alloc, path.as_str())?;
    Ok(SourceFile { path, text })
}

/// Returns the files at some paths, in their order.
fn files_at<F: Folders>(
    alloc: Global,
    folders: &mut F,
    paths: Items<Text>,
) -> Result<Items<SourceFile>>
    ensures ok { IfOk result (λ files. Pairwise (IsFile (F.allowed folders.old)) paths files) }
    ensures err { IfErr result (IsRefusal ErrorKind.Io (FailsAtFile (F.allowed folders.old) paths)) }
    ensures same { AllowSame (F.allowed folders.old) (F.allowed folders.new) }
{
    let mut files = Items::new(alloc);
    for path in Vec::from(paths) {
        let file = file_at(alloc, folders, path)?;
        files.push(file)?;
    }
    Ok(files)
}

/// Returns the source files under a root, in the order of `source_paths`. All texts are held at once when
/// this returns.
///
/// # Errors
///
/// `Io` where `crates` or a package's folder cannot be listed, or an entry of such a folder cannot be
/// read as a file; else `OutOfMemory`.
pub fn source_files<F: Folders>(
    alloc: Global,
    folders: &mut F,
    root: &str,
) -> Result<Items<SourceFile>>
    ensures ok { IfOk result (λ files. Listed (F.allowed folders.old) root.now (Some files)) }
    ensures err { IfErr result (IsRefusal ErrorKind.Io (Listed (F.allowed folders.old) root.now None)) }
    ensures same { AllowSame (F.allowed folders.old) (F.allowed folders.new) }
{
    let paths = source_paths(alloc, folders, root)?;
    files_at(alloc, folders, paths)
}
