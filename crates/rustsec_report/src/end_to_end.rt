//! Reports from texts alone: advisory files and a lockfile in, a report out.

ghost use Rattle.std.specs.Prelude.{◌++◌, ◌∷◌, [], IfErr, IfOk};
ghost use Rattle.toml.specs.View.{table_view};
ghost use Rattle.rustsec_lock.specs.Lockfile.{lockfile_of, packages_of};
ghost use Rattle.rustsec_files.specs.declared.source_file.SourceFile.{SourceFile};
ghost use Rattle.rustsec_report.specs.EndToEnd.{IsReportOf, IsReportOfText, IsReportRefusal};
ghost use Rattle.rustsec_report.specs.ReportLaws.{AddsItsOwn};
ghost use Rattle.rustsec_report.specs.declared.report.Report as given;

use crate::report::Report;
use crate::settings::Settings;
use rustsec_database::Database;
use rustsec_files::SourceFile;
use rustsec_lock::Lockfile;
use rustsec_values::Result;
use std::alloc::Global;
use toml::Table;

impl Report {
    /// Generates the report of a lockfile's table by the advisories of some files: as `Database::load`,
    /// `Lockfile::from_table` and `generate` do, one after another.
    ///
    /// # Errors
    ///
    /// The refusal of the first file at fault; `Parse` where the table holds no packages; else
    /// `OutOfMemory`.
    pub fn of_files(
        alloc: Global,
        files: &[SourceFile],
        lockfile: &Table,
        settings: &Settings,
    ) -> Result<Report>
        ensures ok { IfOk result (IsReportOf files.now (table_view lockfile.now) settings.now) }
        ensures err { IfErr result (IsReportRefusal files.now (packages_of (table_view lockfile.now))) }
    {
        let database = Database::load(alloc, files)?;
        let lockfile = Lockfile::from_table(alloc, lockfile)?;
        Report::generate(alloc, &database, &lockfile, settings)
    }

    /// Generates the report of a lockfile's text by the advisories of some files: as `of_files` of the
    /// table of the text.
    ///
    /// # Errors
    ///
    /// The refusal of the first file at fault; `Parse` where the text is not a TOML document or its table
    /// holds no packages; else `OutOfMemory`.
    pub fn of_texts(
        alloc: Global,
        files: &[SourceFile],
        lockfile: &str,
        settings: &Settings,
    ) -> Result<Report>
        ensures ok { IfOk result (IsReportOfText files.now lockfile.now settings.now) }

        // One more file adds the pairs of its advisory and no other.
        ensures further { IfOk result (λ r. (file : SourceFile) (more : given.Report)
            → IsReportOfText (files.now ++ file ∷ []) lockfile.now settings.now more → AddsItsOwn files.now file lockfile.now settings.now r more) }
        ensures err { IfErr result (IsReportRefusal files.now (lockfile_of lockfile.now)) }
    {
        let advisories = Database::load(alloc, files)?;
        let lockfile = Lockfile::from_str(alloc, lockfile)?;
        Report::generate(alloc, &advisories, &lockfile, settings)
    }
}
