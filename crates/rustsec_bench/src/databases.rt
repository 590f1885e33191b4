//! Calls over a database, which is read and loaded before the calls are made.

use crate::dependencies;
use rustsec_database::{Database, Query, SourceFile};
use rustsec_files::{Folders, RealFolders, source_files};
use rustsec_lock::Lockfile;
use rustsec_lock::package::Name;
use rustsec_report::{Report, Settings};
use rustsec_texts::Informational;
use rustsec_values::{Error, ErrorKind, Items, Result, exact_copy};
use std::alloc::{AllocError, Global};
use std::collections::HashMap;

/// The call that is made.
#[derive(Clone, Copy)]
pub(crate) enum Call {
    Load,
    LookUp,
    Query,
    Vulnerabilities,
    Report,
}

/// Returns the call with a name.
pub(crate) fn call_of(word: &str) -> Option<Call> {
    match word {
        "load" => Some(Call::Load),
        "look_up" => Some(Call::LookUp),
        "query" => Some(Call::Query),
        "vulnerabilities" => Some(Call::Vulnerabilities),
        "report" => Some(Call::Report),
        _ => None,
    }
}

/// Loads the same files many times.
fn load(alloc: Global, times: u32, files: &[SourceFile]) -> Result<()> {
    for _ in 0..times {
        Database::load(alloc, files)?;
    }
    Ok(())
}

/// Queries the advisories of a package many times.
fn query(alloc: Global, times: u32, database: &Database, name: &str) -> Result<()> {
    let query = Query::crate_scope(alloc).package_name(Name::from_str(alloc, name)?);
    for _ in 0..times {
        database.query(alloc, &query)?;
    }
    Ok(())
}

/// Returns a hash map of the names of all packages, each with the place of the last advisory about it.
fn places_of(
    alloc: Global,
    database: &Database,
) -> std::result::Result<HashMap<Name, usize>, AllocError> {
    let mut places = HashMap::new(alloc);
    for (place, advisory) in database.iter().enumerate() {
        places.insert(exact_copy(&advisory.metadata.package)?, place)?;
    }
    Ok(places)
}

/// Looks a name up many times in a hash map of the names of all packages, to compare `query` with.
fn look_up(alloc: Global, times: u32, database: &Database, name: &str) -> Result<()> {
    let places = places_of(alloc, database)?;
    let name = Name::from_str(alloc, name)?;
    for _ in 0..times {
        if places.get(&name).is_none() {
            return Err(Error::new(alloc, ErrorKind::NotFound, "no such package"));
        }
    }
    Ok(())
}

/// Queries the vulnerabilities of a lockfile many times.
fn vulnerabilities(
    alloc: Global,
    times: u32,
    database: &Database,
    lockfile: &Lockfile,
) -> Result<()> {
    for _ in 0..times {
        database.vulnerabilities(alloc, lockfile)?;
    }
    Ok(())
}

/// Returns the settings of the command `report`.
fn settings(alloc: Global) -> std::result::Result<Settings, AllocError> {
    let kinds = vec![in alloc;
        Informational::Notice,
        Informational::Unmaintained,
        Informational::Unsound,
    ]?;
    let mut settings = Settings::new(alloc);
    settings.informational_warnings = Items::from(kinds);
    Ok(settings)
}

/// Generates the report of a lockfile many times.
fn report(alloc: Global, times: u32, database: &Database, lockfile: &Lockfile) -> Result<()> {
    let settings = settings(alloc)?;
    for _ in 0..times {
        Report::generate(alloc, database, lockfile, &settings)?;
    }
    Ok(())
}

/// Opens the database under a root, and then reads the lockfile at each path of a list with the graph of its packages. The
/// list is a file with a path in each line.
pub(crate) fn read_list(rt: &HostRuntime, root: &str, list: &str) -> Result<()> {
    let alloc = rt.alloc();
    let mut folders = RealFolders::new(rt);
    let paths = folders.read(alloc, list)?;
    let database = Database::open_with(alloc, &mut folders, root)?;
    for path in paths.as_str().lines() {
        let text = folders.read(alloc, path)?;
        dependencies(alloc, text.as_str())?;
    }
    drop(database);
    Ok(())
}

/// Makes a call many times over the database under a root, with a package name or the lockfile at a path.
pub(crate) fn repeat(rt: &HostRuntime, call: Call, times: u32, root: &str, of: &str) -> Result<()> {
    let alloc = rt.alloc();
    let files = source_files(alloc, &mut RealFolders::new(rt), root)?;
    if let Call::Load = call {
        return load(alloc, times, files.as_slice());
    }
    let database = Database::load(alloc, files.as_slice())?;
    match call {
        Call::Load => Ok(()),
        Call::LookUp => look_up(alloc, times, &database, of),
        Call::Query => query(alloc, times, &database, of),
        Call::Vulnerabilities => {
            vulnerabilities(alloc, times, &database, &Lockfile::load(rt, alloc, of)?)
        }
        Call::Report => report(alloc, times, &database, &Lockfile::load(rt, alloc, of)?),
    }
}
