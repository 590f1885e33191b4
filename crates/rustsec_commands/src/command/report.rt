//! The command `report`, over a database and a lockfile.

ghost use Rattle.std.specs.Prelude.{◌≡◌, [], IfOk, string_bytes};
ghost use Rattle.rustsec_files.specs.Allowed.{AllowSame};
ghost use Rattle.rustsec_report.specs.Trees.{report_tree};
ghost use Rattle.rustsec_commands.specs.command.Reports.{IsReportOutput, report_output, settings_with};
ghost use Rattle.rustsec_json.specs.Lines.{tree_line};

use crate::command::report::inputs::read_inputs;
use crate::command::report::overview::Paths;
use crate::error_output::refusal_output;
use crate::output::Output;
use rustsec_files::Folders;
use rustsec_report::{ReportRef, Settings};
use rustsec_texts::{Id, Informational};
use rustsec_values::Items;
use std::alloc::{AllocError, Global};

pub(crate) mod inputs;
pub(crate) mod overview;

/// Returns the text of a report's tree on one line.
fn report_line(alloc: Global, report: &ReportRef<'_>) -> Result<String, AllocError>
    ensures { IfOk result (λ t. string_bytes t ≡ tree_line (report_tree report.now)) }
{
    let Ok(mut line) = report.to_json(alloc) else {
        return Err(AllocError);
    };
    line.push_str("\n")?;
    Ok(line)
}

/// Makes the output of `report` for a report.
fn report_output(alloc: Global, report: &ReportRef<'_>) -> Result<Output, AllocError>
    ensures { IfOk result (λ o. o ≡ report_output report.now) }
{
    let text = report_line(alloc, report)?;
    let status = if report.found { 1 } else { 0 };
    Ok(Output::new(text, status))
}

/// Returns the settings of the commands' reports: these IDs are ignored, and there are warnings of three
/// kinds.
pub fn settings_with(alloc: Global, ignored: Items<Id>) -> Result<Settings, AllocError>
    ensures { IfOk result (λ s. s ≡ settings_with ignored) }
{
    let kinds = vec![in alloc;
        Informational::Notice,
        Informational::Unmaintained,
        Informational::Unsound,
    ]?;
    let mut settings = Settings::new(alloc);
    settings.ignore = ignored;
    settings.informational_warnings = Items::from(kinds);
    Ok(settings)
}

/// Makes the output of `report` for a report, with the note on what it looked at.
fn noted_output(
    alloc: Global,
    report: &ReportRef<'_>,
    overview: Option<String>,
) -> Result<Output, AllocError>
    ensures { IfOk result (λ o. o ≡ report_output report.now) }
{
    let output = report_output(alloc, report)?;
    Ok(output.with_note(overview))
}

/// Makes the output of `report` for a root and the path of a lockfile.
pub fn report<F: Folders>(
    alloc: Global,
    folders: &mut F,
    root: &str,
    lock: &str,
) -> Result<Output, AllocError>
    ensures ok { IfOk result (IsReportOutput (F.allowed folders.old) root.now lock.now) }
    ensures same { AllowSame (F.allowed folders.old) (F.allowed folders.new) }
{
    let settings = settings_with(alloc, Items::new(alloc))?;
    let paths = Paths { root, lock };
    match read_inputs(alloc, folders, paths, settings.ignore.as_slice()) {
        Ok((inputs, overview)) => {
            let report = inputs.report(alloc, &settings)?;
            noted_output(alloc, &report, overview)
        }
        Err(error) => refusal_output(alloc, &error),
    }
}
