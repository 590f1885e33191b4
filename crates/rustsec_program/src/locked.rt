//! Reads the lockfile of a check with the graph of its packages, the older lockfile of its baseline, and which packages are
//! yanked.

ghost use Rattle.std.specs.Prelude.{◌≡◌, ◌⊎◌, IfErr, IfOk, List, None, Option, Some, option_map};
ghost use Rattle.toml.specs.Data.{Members};
ghost use Rattle.toml.specs.Parse.{parse_document};
ghost use Rattle.rustsec_files.specs.Allowed.{AllowSame};
ghost use Rattle.rustsec_graph.specs.Graph.{graph_of};
ghost use Rattle.rustsec_lock.specs.Lockfile.{IsLockfileRefusal, lockfile_of, packages_of};
ghost use Rattle.rustsec_lock.specs.Package.{PackageValue};
ghost use Rattle.rustsec_values.specs.Failure.{IsRefusal};
ghost use Rattle.rustsec_program.specs.Locked.{AreLoadedAt, IsBaselineAt, IsBaselineRefusal, IsIndexRefusal, IsLoadRefusal, IsLockedAt, IsLockedText, IsYankedAt};
ghost use Rattle.rustsec_program.specs.Places.{places_view};

use rustsec_files::Folders;
use rustsec_graph::Graph;
use rustsec_lock::Lockfile;
use rustsec_lock::package::Package;
use rustsec_registry::{YankedPackages, yanked_in};
use rustsec_toml::{TablePlace, document};
use rustsec_values::{ErrorKind, Result, Text, file_error};
use std::alloc::Global;
use std::marker::Model;

/// A lockfile with its text and the graph of its packages.
pub struct Locked {
    /// The text.
    pub text: Text,
    /// The lockfile.
    pub lockfile: Lockfile,
    /// The graph of its packages.
    pub graph: Graph,
}

/// Hand-written: a derived `Drop` is proved again, field by field, at every exit of every owner.
impl Drop for Locked {
    fn drop(self) {
        let Locked {
            text: _,
            lockfile: _,
            graph: _,
        } = self;
    }
}

impl Model for Locked {
    ghost use Rattle.rustsec_program.specs.Locked.{LockedValue};

    ghost Value = { LockedValue };

    ghost view = { λ l. record { text = l.text; packages = l.lockfile.packages; graph = l.graph } };
}

impl Locked {
    /// Returns the packages of the lockfile.
    fn packages(&self) -> &[Package]
        ensures { result.now ≡ self.now.packages }
    {
        self.lockfile.packages.as_slice()
    }
}

/// Reads the lockfile of a text, and makes the graph of its packages.
fn packages_of_text(alloc: Global, text: &str) -> Result<(Lockfile, Graph)>
    ensures ok { IfOk result (λ r. (table : Members) × ((parse_document text.now ≡ Some table)
        × ((packages_of table ≡ Some r.0.packages) × (r.1 ≡ graph_of table r.0.packages)))) }
    ensures err { IfErr result (IsRefusal ErrorKind.Parse (lockfile_of text.now ≡ None)) }
{
    let table = document(alloc, text, TablePlace::whole(text), "the lockfile")?;
    let lockfile = Lockfile::from_document(alloc, &table, text)?;
    let graph = Graph::from_table(alloc, &table, &lockfile)?;
    Ok((lockfile, graph))
}

/// Reads the lockfile of a file's text. `path` is for the message alone.
fn locked_of_file(alloc: Global, path: &str, text: Text) -> Result<Locked>
    ensures ok { IfOk result (IsLockedText text) }
    ensures err { IfErr result (IsRefusal ErrorKind.Parse (lockfile_of text ≡ None)) }
{
    match packages_of_text(alloc, text.as_str()) {
        Ok((lockfile, graph)) => Ok(Locked {
            text,
            lockfile,
            graph,
        }),
        Err(e) => Err(file_error(alloc, path, &e)),
    }
}

/// Reads the lockfile at a path, with the graph of its packages.
///
/// # Errors
///
/// `Io` if the file cannot be read; `Parse` if its text is not a lockfile; else `OutOfMemory`.
pub fn locked_at<F: Folders>(alloc: Global, folders: &mut F, path: &str) -> Result<Locked>
    ensures ok { IfOk result (IsLockedAt (F.allowed folders.old) path.now) }
    ensures err { IfErr result (IsLockfileRefusal (F.allowed folders.old) path.now) }
    ensures same { AllowSame (F.allowed folders.old) (F.allowed folders.new) }
{
    let text = folders.read(alloc, path)?;
    locked_of_file(alloc, path, text)
}

/// Reads the older lockfile, if one is named.
fn baseline_at<F: Folders>(
    alloc: Global,
    folders: &mut F,
    path: Option<&str>,
) -> Result<Option<Lockfile>>
    ensures ok { IfOk result (λ o. IsBaselineAt (F.allowed folders.old) (option_map (λ t. t.now) path.entry) (option_map (λ l. l.packages) o)) }
    ensures err { IfErr result (IsBaselineRefusal (F.allowed folders.old) (option_map (λ t. t.now) path.entry)) }
    ensures same { AllowSame (F.allowed folders.old) (F.allowed folders.new) }
{
    let Some(path) = path else {
        return Ok(None);
    };
    let lockfile = Lockfile::load_with(alloc, folders, path)?;
    Ok(Some(lockfile))
}

/// Returns which packages are yanked, if an index is asked.
fn yanked_at<F: Folders>(
    alloc: Global,
    folders: &mut F,
    index: Option<&str>,
    packages: &[Package],
) -> Result<Option<YankedPackages>>
    ensures ok { IfOk result (IsYankedAt (F.allowed folders.old) (option_map (λ t. t.now) index.entry) packages.now) }
    ensures err { IfErr result (IsIndexRefusal (F.allowed folders.old) (option_map (λ t. t.now) index.entry) packages.now) }
    ensures same { AllowSame (F.allowed folders.old) (F.allowed folders.new) }
{
    let Some(index) = index else {
        return Ok(None);
    };
    let yanked = yanked_in(alloc, folders, index, packages)?;
    Ok(Some(yanked))
}

/// The files that a check looks at beside the policy and the database.
#[derive(Clone, Copy)]
pub struct Places<'a> {
    /// The path of the lockfile.
    pub lock: &'a str,
    /// The path of the older lockfile, if one is named.
    pub baseline: Option<&'a str>,
    /// The folder of a registry's index, if one is asked.
    pub index: Option<&'a str>,
}

/// What these files say.
pub struct Loaded {
    /// The lockfile.
    pub locked: Locked,
    /// The older one, if any.
    pub baseline: Option<Lockfile>,
    /// Which packages are yanked, if an index was asked.
    pub yanked: Option<YankedPackages>,
}

/// Hand-written: a derived `Drop` is proved again, field by field, at every exit of every owner.
impl Drop for Loaded {
    fn drop(self) {
        let Loaded {
            locked: _,
            baseline: _,
            yanked: _,
        } = self;
    }
}

impl Model for Loaded {
    ghost use Rattle.std.specs.Prelude.{option_map};
    ghost use Rattle.rustsec_program.specs.Locked.{LoadedValue};

    ghost Value = { LoadedValue };

    ghost view = { λ l. record { locked = l.locked; baseline = option_map (λ b. b.packages) l.baseline; yanked = l.yanked } };
}

/// Reads the older lockfile, if one is named, and then which packages are yanked, if an index is asked. Returns them with
/// a lockfile that was read before.
///
/// # Errors
///
/// `Io` if a file cannot be read; `Parse` if the older text is not a lockfile, or a file of the index is damaged; else
/// `OutOfMemory`.
pub fn with_others<F: Folders>(
    alloc: Global,
    folders: &mut F,
    places: Places<'_>,
    locked: Locked,
) -> Result<Loaded>
    ensures locked { IfOk result (λ l. l.locked ≡ locked) }
    ensures baseline { IfOk result (λ l. IsBaselineAt (F.allowed folders.old) (places_view places.entry).baseline l.baseline) }
    ensures yanked { IfOk result (λ l. IsYankedAt (F.allowed folders.old) (places_view places.entry).index locked.packages l.yanked) }
    ensures err { IfErr result (λ e. IsBaselineRefusal (F.allowed folders.old) (places_view places.entry).baseline e
        ⊎ ((b : Option (List PackageValue)) × (IsBaselineAt (F.allowed folders.old) (places_view places.entry).baseline b
        × IsIndexRefusal (F.allowed folders.old) (places_view places.entry).index locked.packages e))) }
    ensures same { AllowSame (F.allowed folders.old) (F.allowed folders.new) }
{
    let baseline = baseline_at(alloc, folders, places.baseline)?;
    let yanked = yanked_at(alloc, folders, places.index, locked.packages())?;
    Ok(Loaded {
        locked,
        baseline,
        yanked,
    })
}

/// Reads the lockfile, then the older one, if one is named, and then which packages are yanked, if an index is asked.
///
/// # Errors
///
/// `Io` if a file cannot be read; `Parse` if a text is not a lockfile, or a file of the index is damaged; else
/// `OutOfMemory`.
pub fn load<F: Folders>(alloc: Global, folders: &mut F, places: Places<'_>) -> Result<Loaded>
    ensures ok { IfOk result (AreLoadedAt (F.allowed folders.old) (places_view places.entry)) }
    ensures err { IfErr result (IsLoadRefusal (F.allowed folders.old) (places_view places.entry)) }
    ensures same { AllowSame (F.allowed folders.old) (F.allowed folders.new) }
{
    let locked = locked_at(alloc, folders, places.lock)?;
    with_others(alloc, folders, places, locked)
}
