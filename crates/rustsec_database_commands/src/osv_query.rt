//! The command `query-osv`.

ghost use Rattle.std.specs.Prelude.{IfOk};
ghost use Rattle.semver.specs.Identifiers.{parts_of};
ghost use Rattle.rustsec_files.specs.Allowed.{AllowSame};
ghost use Rattle.rustsec_database_commands.specs.Osv.{IsAnswered, IsQueryOutput};

use rustsec_commands::error_output::refusal_output;
use rustsec_commands::output::Output;
use rustsec_database::Database;
use rustsec_files::Folders;
use rustsec_lock::package::Name;
use rustsec_osv_database::answer_of;
use rustsec_versions::read_version;
use semver::Version;
use std::alloc::{AllocError, Global};

/// A question about a database: its root, and the texts of a name and a version.
#[derive(Clone, Copy)]
pub struct QueryInput<'a> {
    /// The root of the database.
    pub root: &'a str,
    /// The name of a package.
    pub name: &'a str,
    /// A version of it.
    pub version: &'a str,
}

/// Opens the database under a root, and makes the output for a version of a package.
fn root_output<F: Folders>(
    alloc: Global,
    folders: &mut F,
    root: &str,
    name: Name,
    version: Version,
) -> std::result::Result<Output, AllocError>
    ensures ok { IfOk result (IsAnswered (F.allowed folders.old) root.now name (parts_of version)) }
    ensures same { AllowSame (F.allowed folders.old) (F.allowed folders.new) }
{
    let database = match Database::open_with(alloc, folders, root) {
        Ok(database) => database,
        Err(error) => return refusal_output(alloc, &error),
    };
    match answer_of(alloc, &database, name, version) {
        Ok(text) => Ok(Output::new(text, 0)),
        Err(error) => refusal_output(alloc, &error),
    }
}

/// Makes the output of `query-osv`.
pub fn query_osv<F: Folders>(
    alloc: Global,
    folders: &mut F,
    question: QueryInput<'_>,
) -> std::result::Result<Output, AllocError>
    ensures ok { IfOk result (IsQueryOutput (F.allowed folders.old) question.entry.root.now question.entry.name.now question.entry.version.now) }
    ensures same { AllowSame (F.allowed folders.old) (F.allowed folders.new) }
{
    let name = match Name::from_str(alloc, question.name) {
        Ok(name) => name,
        Err(error) => return refusal_output(alloc, &error),
    };
    let version = match read_version(alloc, question.version, question.version) {
        Ok(version) => version,
        Err(error) => return refusal_output(alloc, &error),
    };
    root_output(alloc, folders, question.root, name, version)
}
