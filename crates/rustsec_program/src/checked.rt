//! Checks a lockfile, and writes what is found.

ghost use Rattle.std.specs.Prelude.{◌≡◌, Bool, IfErr, IfOk, List, option_map, string_bytes, true};
ghost use Rattle.std.specs.Option.{option_copied};
ghost use Rattle.rustsec_files.specs.Allowed.{AllowSame};
ghost use Rattle.rustsec_values.specs.Failure.{IsMemory, IsOfKind, IsRefusal};
ghost use Rattle.rustsec_advisory.specs.declared.advisory.Advisory as given;
ghost use Rattle.rustsec_check.specs.Checks.{IsCheckOf};
ghost use Rattle.rustsec_check.specs.Subjects.{subject_view};
ghost use Rattle.rustsec_check.specs.Values.{SubjectValue};
ghost use Rattle.rustsec_database.specs.Kept.{IsKept, PassesBearing, bears_on_any};
ghost use Rattle.rustsec_program.specs.Checked.{AreYankedIf, FoundValue, IsCheckedOutput, IsCheckedRefusal, IsFound, IsLockfileOutput, IsOutputFor, IsWrittenText, basis_of, is_empty, places_of, some_yanked_fail, status_of, subject_of};
ghost use Rattle.rustsec_program.specs.Places.{places_view};
ghost use Rattle.rustsec_program.specs.Forms.{form_view};

use crate::forms::Form;
use crate::locked::{Loaded, Places, load};
use crate::notes::notes_of;
use crate::plan::Plan;
use crate::readings::readings_note;
use crate::wanted::Wanted;
use rustsec_check::{Check, Subject, Yanked, check, yanked_fail, yanked_packages};
use rustsec_check_output::{Dated, Written, check_line, check_text, many_line};
use rustsec_commands::output::Output;
use rustsec_database::{Database, KeptDatabase};
use rustsec_files::Folders;
use rustsec_markdown::markdown_text;
use rustsec_page::page_text;
use rustsec_registry::YankedPackages;
use rustsec_sarif::sarif_text;
use rustsec_texts::Id;
use rustsec_toml::package_places;
use rustsec_values::{Error, ErrorKind, Result};
use std::alloc::Global;
use std::marker::Model;

/// What the outputs for lockfiles have in common.
#[derive(Drop)]
pub struct Basis<'a> {
    /// The plan.
    pub plan: &'a Plan<'a>,
    /// How many advisories the database has, and their latest date.
    pub database: &'a Dated<'a>,
}

impl<'a> Model for Basis<'a> {
    ghost use Rattle.rustsec_program.specs.Checked.{BasisValue};

    ghost Value = { BasisValue };

    ghost view = { λ b. record { plan = b.plan.now; database = b.database.now } };
}

/// What the checks of lockfiles by all advisories have in common.
#[derive(Drop)]
pub struct Ground<'a> {
    plan: &'a Plan<'a>,
    database: &'a Database,
    dated: Dated<'a>,
}

impl<'a> Model for Ground<'a> {
    ghost use Rattle.std.specs.Prelude.{◌≡◌};
    ghost use Rattle.rustsec_check_output.specs.CheckTree.{dated_of};
    ghost use Rattle.rustsec_program.specs.Checked.{Ground};

    ghost Value = { Ground };

    ghost view = { λ g. record { plan = g.plan.now; advisories = g.database.now } };

    ghost invariant = { λ g. g.dated ≡ dated_of g.database.now };
}

impl<'a> Ground<'a> {
    /// Returns what the checks by a plan and a database have in common. The latest date of the advisories is found once.
    pub fn new(plan: &'a Plan<'a>, database: &'a Database) -> Ground<'a>
        ensures { result ≡ record { plan = plan.now; advisories = database.now } }
    {
        Ground {
            plan,
            database,
            dated: Dated::new(database),
        }
    }

    /// Returns the plan.
    pub fn plan(&self) -> &'a Plan<'a>
        ensures { result.now ≡ self.now.plan }
    {
        self.plan
    }

    /// Returns the database.
    pub fn database(&self) -> &'a Database
        ensures { result.now ≡ self.now.advisories }
    {
        self.database
    }

    /// Returns what the outputs have in common.
    fn basis(&self) -> Basis<'_>
        ensures { result ≡ basis_of self.now }
    {
        Basis {
            plan: self.plan,
            database: &self.dated,
        }
    }
}

/// Returns whether the database or the lockfile is empty, and that is refused.
fn is_empty(basis: &Basis<'_>, loaded: &Loaded) -> bool
    ensures { result ≡ is_empty basis.now loaded.now }
{
    let plan = basis.plan;
    !plan.allow_empty && (basis.database.count() == 0 || loaded.locked.lockfile.packages.is_empty())
}

/// Returns the text of a check of the lockfile with the text `lock`.
fn written_text(
    alloc: Global,
    form: Form<'_>,
    lock: &str,
    written: &Written<'_, '_>,
) -> Result<String>
    ensures ok { IfOk result (λ t. IsWrittenText (form_view form.entry) lock.now written.now (string_bytes t)) }
    ensures err { IfErr result IsMemory }
{
    match form {
        Form::Text(colored) => check_text(alloc, written, colored),
        Form::Json => check_line(alloc, written),
        Form::Sarif(path) => sarif_text(alloc, path, &package_places(alloc, lock)?, written),
        Form::Html => page_text(alloc, written),
        Form::Markdown => markdown_text(alloc, written),
        Form::Line(path) => many_line(alloc, path, written),
    }
}

/// What is found in a lockfile.
#[derive(Drop)]
struct Found<'a> {
    check: Check<'a>,
    yanked: Option<Vec<Yanked<'a>>>,
}

impl<'a> Model for Found<'a> {
    ghost use Rattle.std.specs.Prelude.{option_map};
    ghost use Rattle.rustsec_program.specs.Checked.{FoundValue};

    ghost Value = { FoundValue };

    ghost view = { λ f. record { check = f.check; yanked = option_map (λ v. v.items) f.yanked } };
}

impl<'a> Found<'a> {
    /// Returns the yanked packages, if an index was asked.
    fn yanked(&self) -> Option<&[Yanked<'a>]>
        ensures { option_map (λ y. y.now) result ≡ self.now.yanked }
    {
        match &self.yanked {
            Some(yanked) => Some(yanked.as_slice()),
            None => None,
        }
    }

    /// Returns what is found by all advisories under a root. This was found by those in `kept`, which has each advisory that
    /// bears on a package of the lockfile. `ids` are the ignored IDs.
    fn with_all_ids(self, alloc: Global, kept: &KeptDatabase, ids: &'a [Id]) -> Result<Found<'a>>
        ensures yanked { IfOk result (λ f. f.yanked ≡ self.entry.yanked) }
        ensures check { IfOk result (λ f. (all : List given.Advisory) (s : SubjectValue) (test : given.Advisory → Bool) → PassesBearing test s.packages
            → IsKept test all kept.now → s.advisories ≡ kept.now.advisories → s.settings.ignore ≡ ids.now → IsCheckOf s self.entry.check → IsCheckOf (record s { advisories = all }) f.check) }
        ensures err { IfErr result IsMemory }
    {
        let Found { check, yanked } = self;
        let check = check.with_all_ids(alloc, kept, ids)?;
        Ok(Found { check, yanked })
    }
}

/// Returns whether a yanked package, if an index was asked, is denied and not old.
fn some_yanked_fail(yanked: Option<&[Yanked<'_>]>) -> bool
    ensures { result ≡ some_yanked_fail (option_map (λ y. y.now) yanked.entry) }
{
    match yanked {
        Some(yanked) => yanked_fail(yanked),
        None => false,
    }
}

/// Returns the status for what is found: 1 if a finding or a yanked package is denied and not old, else 0.
fn status_of(found: &Found<'_>) -> u8
    ensures { result ≡ status_of found.now }
{
    if found.check.fails() || some_yanked_fail(found.yanked()) {
        1
    } else {
        0
    }
}

/// Returns an output with the note about the requirements of the findings that Cargo's matching reads differently. The
/// checks of a list of lockfiles have no such note.
fn with_readings(alloc: Global, form: Form<'_>, found: &Found<'_>, output: Output) -> Output
    ensures { result ≡ output }
{
    match form {
        Form::Line(_) => output,
        _ => output.with_note(readings_note(alloc, found.check.findings.as_slice()).ok()),
    }
}

/// Makes the output for what is found.
fn check_output<'x, 'c>(
    alloc: Global,
    form: Form<'_>,
    basis: &Basis<'_>,
    loaded: &'x Loaded,
    found: &'c Found<'x>,
) -> Result<Output>
    ensures ok { IfOk result (IsOutputFor (form_view form.entry) basis.now loaded.now found.now) }
    ensures err { IfErr result IsMemory }
{
    let plan = basis.plan;
    let notes = notes_of(alloc, &plan.wanted, basis.database.count(), loaded)?;
    let written = Written {
        database: basis.database,
        lockfile: &loaded.locked.lockfile,
        check: &found.check,
        entries: plan.policy.advisories.ignore.as_slice(),
        notes: notes.as_slice(),
        yanked: found.yanked(),
    };
    let lock = loaded.locked.text.as_str();
    let text = written_text(alloc, form, lock, &written)?;
    let output = Output::new(text, status_of(found));
    Ok(with_readings(alloc, form, found, output))
}

/// Returns what a check looks at.
fn subject_of<'x>(plan: &'x Plan<'x>, database: &'x Database, loaded: &'x Loaded) -> Subject<'x>
    ensures { subject_view result ≡ subject_of (record { plan = plan.now; advisories = database.now }) loaded.now }
{
    Subject {
        database,
        lockfile: &loaded.locked.lockfile,
        graph: &loaded.locked.graph,
        settings: &plan.wanted.settings,
        denied: plan.wanted.denied.as_slice(),
        baseline: loaded.baseline.as_ref(),
    }
}

/// Returns the yanked packages of a subject, if an index was asked.
fn yanked_of<'x>(
    alloc: Global,
    subject: Subject<'x>,
    yanked: Option<&YankedPackages>,
) -> Result<Option<Vec<Yanked<'x>>>>
    ensures ok { IfOk result (λ found. AreYankedIf (subject_view subject.entry) (option_copied yanked.entry) (option_map (λ v. v.items) found)) }
    ensures err { IfErr result IsMemory }
{
    let Some(yanked) = yanked else {
        return Ok(None);
    };
    let found = yanked_packages(alloc, subject, yanked.packages.as_slice())?;
    Ok(Some(found))
}

/// Returns what is found in a lockfile.
fn found_in<'x>(
    alloc: Global,
    plan: &'x Plan<'x>,
    database: &'x Database,
    loaded: &'x Loaded,
) -> Result<Found<'x>>
    ensures ok { IfOk result (IsFound (record { plan = plan.now; advisories = database.now }) loaded.now) }
    ensures err { IfErr result IsMemory }
{
    let subject = subject_of(plan, database, loaded);
    let check = check(alloc, subject)?;
    let yanked = yanked_of(alloc, subject, loaded.yanked.as_ref())?;
    Ok(Found { check, yanked })
}

/// Checks lockfiles that are not empty, and makes the output.
fn found_output<'x>(
    alloc: Global,
    form: Form<'_>,
    ground: &'x Ground<'x>,
    loaded: &'x Loaded,
) -> Result<Output>
    ensures ok { IfOk result (λ o. (f : FoundValue) × (IsFound ground.now loaded.now f
        × IsOutputFor (form_view form.entry) (basis_of ground.now) loaded.now f o)) }
    ensures err { IfErr result IsMemory }
{
    let found = found_in(alloc, ground.plan, ground.database, loaded)?;
    check_output(alloc, form, &ground.basis(), loaded, &found)
}

/// Returns the error for an empty database or lockfile, by the number of advisories.
fn empty_error(alloc: Global, advisories: usize) -> Error
    ensures { IsOfKind ErrorKind.NotFound result }
{
    let message = if advisories == 0 {
        "there is no advisory in the database (`--allow-empty` takes one)"
    } else {
        "there is no package in the lockfile (`--allow-empty` takes one)"
    };
    Error::new(alloc, ErrorKind::NotFound, message)
}

/// Checks lockfiles that were loaded, and makes the output.
fn checked_output<'x>(
    alloc: Global,
    form: Form<'_>,
    ground: &'x Ground<'x>,
    loaded: &'x Loaded,
) -> Result<Output>
    ensures ok { IfOk result (IsCheckedOutput (form_view form.entry) ground.now loaded.now) }
    ensures err { IfErr result (IsRefusal ErrorKind.NotFound (is_empty (basis_of ground.now) loaded.now ≡ true)) }
{
    if is_empty(&ground.basis(), loaded) {
        return Err(empty_error(alloc, ground.dated.count()));
    }
    found_output(alloc, form, ground, loaded)
}

/// Returns the folder of the index that is asked, if any.
fn index_of(wanted: &Wanted) -> Option<&str>
    ensures { option_map (λ t. t.now) result ≡ wanted.now.index }
{
    match &wanted.index {
        Some(index) => Some(index.as_str()),
        None => None,
    }
}

/// Returns the files that are looked at for the lockfile at a path.
pub fn places_of<'x>(plan: &'x Plan<'x>, path: &'x str) -> Places<'x>
    ensures { places_view result ≡ places_of plan.now path.now }
{
    Places {
        lock: path,
        baseline: plan.baseline,
        index: index_of(&plan.wanted),
    }
}

/// Reads the lockfile at a path, the older one and the index, checks the lockfile, and makes the output.
///
/// # Errors
///
/// As `load`; then `NotFound` if the database or the lockfile is empty and that is refused; else `OutOfMemory`.
pub fn lockfile_output<'x, F: Folders>(
    alloc: Global,
    folders: &mut F,
    form: Form<'_>,
    ground: &'x Ground<'x>,
    path: &str,
) -> Result<Output>
    ensures ok { IfOk result (IsLockfileOutput (F.allowed folders.old) (form_view form.entry) ground.now path.now) }
    ensures err { IfErr result (IsCheckedRefusal (F.allowed folders.old) ground.now path.now) }
    ensures same { AllowSame (F.allowed folders.old) (F.allowed folders.new) }
{
    let loaded = load(alloc, folders, places_of(ground.plan(), path))?;
    checked_output(alloc, form, ground, &loaded)
}

/// Returns what is found in a lockfile by all advisories. `kept` has those that bear on its packages.
fn found_by_kept<'x>(
    alloc: Global,
    plan: &'x Plan<'x>,
    kept: &'x KeptDatabase,
    loaded: &'x Loaded,
) -> Result<Found<'x>>
    ensures ok { IfOk result (λ f. (all : List given.Advisory) → IsKept (bears_on_any loaded.now.locked.packages) all kept.now
        → IsFound (record { plan = plan.now; advisories = all }) loaded.now f) }
    ensures err { IfErr result IsMemory }
{
    let found = found_in(alloc, plan, kept.database(), loaded)?;
    found.with_all_ids(alloc, kept, plan.wanted.settings.ignore.as_slice())
}

/// Checks lockfiles that were loaded, and makes the output. `kept` has the advisories that bear on the lockfile's packages. The
/// output is that of a check by all advisories.
///
/// # Errors
///
/// `NotFound` if the database or the lockfile is empty and that is refused; else `OutOfMemory`.
pub fn kept_output<'x>(
    alloc: Global,
    form: Form<'_>,
    plan: &'x Plan<'x>,
    kept: &'x KeptDatabase,
    loaded: &'x Loaded,
) -> Result<Output>
    ensures ok { IfOk result (λ o. (all : List given.Advisory) → IsKept (bears_on_any loaded.now.locked.packages) all kept.now
        → IsCheckedOutput (form_view form.entry) (record { plan = plan.now; advisories = all }) loaded.now o) }
    ensures err { IfErr result (λ e. (all : List given.Advisory) → IsKept (bears_on_any loaded.now.locked.packages) all kept.now
        → IsRefusal ErrorKind.NotFound (is_empty (basis_of (record { plan = plan.now; advisories = all })) loaded.now ≡ true) e) }
{
    let dated = Dated::of_kept(kept);
    let basis = Basis {
        plan: &*plan,
        database: &dated,
    };
    if is_empty(&basis, loaded) {
        return Err(empty_error(alloc, basis.database.count()));
    }
    let found = found_by_kept(alloc, plan, kept, loaded)?;
    check_output(alloc, form, &basis, loaded, &found)
}
