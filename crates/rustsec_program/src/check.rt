//! The command `check`. Of the database it keeps the advisories that bear on the lockfile's packages alone.

ghost use Rattle.std.specs.Prelude.{◌≡◌, ◌⊎◌, [], IfErr, IfOk, List, map};
ghost use Rattle.rustsec_advisory.specs.declared.advisory.Advisory.{Advisory};
ghost use Rattle.rustsec_database.specs.Kept.{AreOpenedFor, bears_on_any};
ghost use Rattle.rustsec_database.specs.Opened.{AreOpened, IsOpenRefusal};
ghost use Rattle.rustsec_files.specs.Allowed.{AllowSame};
ghost use Rattle.rustsec_lock.specs.Package.{PackageValue};
ghost use Rattle.rustsec_program.specs.Check.{IsCheckOutput, IsCheckRefusal, IsCheckResult};
ghost use Rattle.rustsec_program.specs.Checked.{IsCheckedRefusal, IsLockfileOutput, form_of};

use crate::checked::{kept_output, places_of};
use crate::forms::form_of;
use crate::locked::{Locked, locked_at, with_others};
use crate::misuse;
use crate::options::{Options, options_of};
use crate::plan::Plan;
use rustsec_commands::Paths;
use rustsec_commands::error_output::refusal_output;
use rustsec_commands::output::{Output, usage_output};
use rustsec_database::{Bearing, KeptDatabase};
use rustsec_files::Folders;
use rustsec_lock::package::Package;
use rustsec_values::Result;
use std::alloc::{AllocError, Global};

/// Returns the packages of a lockfile that was read, or none if it was refused.
fn packages_read(read: &Result<Locked>) -> &[Package]
    ensures ok { IfOk read.now (λ l. result.now ≡ l.packages) }
    ensures err { IfErr read.now (λ e. result.now ≡ []) }
{
    match read {
        Ok(locked) => locked.lockfile.packages.as_slice(),
        Err(_) => &[],
    }
}

/// Opens the database under a root, and keeps of its advisories those that bear on a package of a lockfile that was read.
fn kept_for<F: Folders>(
    alloc: Global,
    folders: &mut F,
    root: &str,
    read: &Result<Locked>,
) -> Result<KeptDatabase>
    ensures ok { IfOk result (λ k. (packages : List PackageValue) × (AreOpenedFor (F.allowed folders.old) root.now (bears_on_any packages) k
        × IfOk read.now (λ l. packages ≡ l.packages))) }
    ensures err { IfErr result (IsOpenRefusal (F.allowed folders.old) root.now) }
    ensures same { AllowSame (F.allowed folders.old) (F.allowed folders.new) }
{
    let bearing = Bearing::new(alloc, packages_read(read))?;
    KeptDatabase::open_with(alloc, folders, root, &bearing)
}

/// Reads the lockfile, opens the database and checks the lockfile by a plan. A refusal of the database is the answer also
/// if the lockfile was refused.
fn planned_output<'x, F: Folders>(
    alloc: Global,
    folders: &mut F,
    paths: Paths<'_>,
    plan: &'x Plan<'x>,
) -> Result<Output>
    ensures ok { IfOk result (λ o. (advisories : List Advisory) × (AreOpened (F.allowed folders.old) paths.entry.root.now advisories
        × IsLockfileOutput (F.allowed folders.old) (form_of plan.now paths.entry.lock.now) (record { plan = plan.now; advisories = advisories }) paths.entry.lock.now o)) }
    ensures err { IfErr result (λ e. IsOpenRefusal (F.allowed folders.old) paths.entry.root.now e
        ⊎ ((advisories : List Advisory) × (AreOpened (F.allowed folders.old) paths.entry.root.now advisories
        × IsCheckedRefusal (F.allowed folders.old) (record { plan = plan.now; advisories = advisories }) paths.entry.lock.now e))) }
    ensures same { AllowSame (F.allowed folders.old) (F.allowed folders.new) }
{
    let read = locked_at(alloc, folders, paths.lock);
    let kept = kept_for(alloc, folders, paths.root, &read)?;
    let locked = read?;
    let loaded = with_others(alloc, folders, places_of(plan, paths.lock), locked)?;
    kept_output(alloc, form_of(plan, paths.lock), plan, &kept, &loaded)
}

/// Reads the options' values and the policy, in this order, and checks the lockfile by the plan.
fn options_output<F: Folders>(
    alloc: Global,
    folders: &mut F,
    paths: Paths<'_>,
    options: &Options<'_>,
) -> Result<Output>
    ensures ok { IfOk result (IsCheckResult (F.allowed folders.old) paths.entry.root.now paths.entry.lock.now options.now) }
    ensures err { IfErr result (IsCheckRefusal (F.allowed folders.old) paths.entry.root.now paths.entry.lock.now options.now) }
    ensures same { AllowSame (F.allowed folders.old) (F.allowed folders.new) }
{
    let plan = Plan::read(alloc, folders, options)?;
    planned_output(alloc, folders, paths, &plan)
}

/// Makes the output of `check` for a root, the path of a lockfile, and the words after them.
pub fn check<F: Folders>(
    alloc: Global,
    folders: &mut F,
    paths: Paths<'_>,
    words: &[&str],
) -> std::result::Result<Output, AllocError>
    ensures ok { IfOk result (IsCheckOutput (F.allowed folders.old) paths.entry.root.now paths.entry.lock.now (map (λ w. w.now) words.now)) }
    ensures same { AllowSame (F.allowed folders.old) (F.allowed folders.new) }
{
    let Some(options) = options_of(alloc, words)? else {
        return usage_output(alloc, misuse::of_options(alloc, words).ok());
    };
    match options_output(alloc, folders, paths, &options) {
        Ok(output) => Ok(output),
        Err(error) => refusal_output(alloc, &error),
    }
}
