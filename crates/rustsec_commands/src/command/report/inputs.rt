//! Reads what `report` and `audit` look at, and generates their report.

ghost use Rattle.std.specs.Prelude.{◌≡◌, IfErr, IfOk, List};
ghost use Rattle.rustsec_files.specs.Allowed.{AllowSame};
ghost use Rattle.rustsec_lock.specs.Package.{PackageValue};
ghost use Rattle.rustsec_database.specs.Kept.{AreOpenedFor, touches_any};
ghost use Rattle.rustsec_database.specs.Opened.{IsOpenRefusal};
ghost use Rattle.rustsec_report.specs.Report.{report_of};
ghost use Rattle.rustsec_commands.specs.command.Reports.{AreReadFrom, IsReportRefusal};

use crate::command::report::overview::{LookedAt, Paths, overview};
use rustsec_database::{Database, KeptDatabase, Locked};
use rustsec_files::Folders;
use rustsec_lock::Lockfile;
use rustsec_lock::package::Package;
use rustsec_report::{ReportRef, Settings};
use rustsec_texts::Id;
use std::alloc::{AllocError, Global};
use std::marker::Model;

/// A lockfile, and the advisories of a database that affect one of its packages. Contracts see these advisories and the
/// packages.
pub struct Inputs {
    database: Database,
    lockfile: Lockfile,
}

impl Model for Inputs {
    ghost use Rattle.rustsec_commands.specs.command.Reports.{InputsValue};

    ghost Value = { InputsValue };

    ghost view = { λ i. record { advisories = i.database; packages = i.lockfile.packages } };
}

/// Hand-written: a derived `Drop` is proved again, field by field, at every exit of every owner.
impl Drop for Inputs {
    fn drop(self) {
        let Inputs {
            database: _,
            lockfile: _,
        } = self;
    }
}

/// Returns the packages of a lockfile that was read, or none if it was refused.
fn packages_read(read: &rustsec_values::Result<Lockfile>) -> &[Package]
    ensures { IfOk read.now (λ l. result.now ≡ l.packages) }
{
    match read {
        Ok(lockfile) => lockfile.packages.as_slice(),
        Err(_) => &[],
    }
}

/// Opens the database under a root, and keeps of its advisories those that affect a package of a lockfile that was read.
fn kept_for<F: Folders>(
    alloc: Global,
    folders: &mut F,
    root: &str,
    read: &rustsec_values::Result<Lockfile>,
) -> rustsec_values::Result<KeptDatabase>
    ensures ok { IfOk result (λ k. (packages : List PackageValue) × (AreOpenedFor (F.allowed folders.old) root.now (touches_any packages) k
        × IfOk read.now (λ l. packages ≡ l.packages))) }
    ensures err { IfErr result (IsOpenRefusal (F.allowed folders.old) root.now) }
    ensures same { AllowSame (F.allowed folders.old) (F.allowed folders.new) }
{
    let locked = Locked::new(alloc, packages_read(read))?;
    KeptDatabase::open_with(alloc, folders, root, &locked)
}

/// Reads the lockfile at a path, and opens the database under a root, both through `folders`. The lockfile is read first,
/// so that of the advisories only those are kept that affect one of its packages. A refusal of the database is the answer
/// also if the lockfile was refused. Returns also a note on what was looked at, in lines for the error output, or `None` if
/// there was no memory for it. `ignored` are the IDs that the settings of the report ignore. No contract mentions the note.
///
/// # Errors
///
/// As `Database::open_with` of the root; then as `Lockfile::load_with` of the lockfile's path; else `OutOfMemory`.
pub fn read_inputs<F: Folders>(
    alloc: Global,
    folders: &mut F,
    paths: Paths<'_>,
    ignored: &[Id],
) -> rustsec_values::Result<(Inputs, Option<String>)>
    ensures ok { IfOk result (λ r. AreReadFrom (F.allowed folders.old) paths.entry.root.now paths.entry.lock.now r.0) }
    ensures err { IfErr result (IsReportRefusal (F.allowed folders.old) paths.entry.root.now paths.entry.lock.now) }
    ensures same { AllowSame (F.allowed folders.old) (F.allowed folders.new) }
{
    let read = Lockfile::load_with(alloc, folders, paths.lock);
    let kept = kept_for(alloc, folders, paths.root, &read)?;
    let lockfile = read?;
    let looked_at = LookedAt {
        paths,
        kept: &kept,
        lockfile: &lockfile,
        ignored,
    };
    let note = overview(alloc, folders, looked_at).ok();
    let database = kept.into_database();
    Ok((Inputs { database, lockfile }, note))
}

impl Inputs {
    /// Generates the report of the lockfile by these advisories, as references into the inputs.
    ///
    /// # Errors
    ///
    /// Out of memory.
    pub fn report<'a>(
        &'a self,
        alloc: Global,
        settings: &'a Settings,
    ) -> Result<ReportRef<'a>, AllocError>
        ensures { IfOk result (λ r. r ≡ report_of self.now.advisories self.now.packages settings.now) }
    {
        match ReportRef::generate(alloc, &self.database, &self.lockfile, settings) {
            Ok(report) => Ok(report),
            Err(_) => Err(AllocError),
        }
    }
}
