//! The command `audit`, over a database and a lockfile.

ghost use Rattle.std.specs.Prelude.{◌≡◌, IfOk, map};
ghost use Rattle.rustsec_files.specs.Allowed.{AllowSame};
ghost use Rattle.rustsec_commands.specs.command.Audit.{audit_output};
ghost use Rattle.rustsec_commands.specs.command.Reports.{IsAuditOutput, IsOutputOver, settings_with};

use crate::args::options;
use crate::command::audit::advice::advice;
use crate::command::audit::text::audit_output;
use crate::command::report::inputs::read_inputs;
use crate::command::report::overview::Paths;
use crate::command::report::settings_with;
use crate::error_output::{misuse, refusal_output};
use crate::output::{Output, usage_output};
use rustsec_files::Folders;
use rustsec_report::ReportRef;
use rustsec_texts::Id;
use rustsec_values::Items;
use std::alloc::{AllocError, Global};

pub(crate) mod advice;
pub(crate) mod text;

/// Returns what helps against what a report found, and after it what the report looked at.
fn advice_and_note(
    alloc: Global,
    report: &ReportRef<'_>,
    overview: Option<String>,
) -> rustsec_values::Result<String> {
    let mut note = advice(alloc, report)?;
    if let Some(overview) = overview {
        note.push_str(&overview)?;
    }
    Ok(note)
}

/// Makes the output of `audit` for a report, with a note that says what helps and what was looked at.
fn advised_output(
    alloc: Global,
    deny_warnings: bool,
    report: &ReportRef<'_>,
    overview: Option<String>,
) -> Result<Output, AllocError>
    ensures { IfOk result (λ o. o ≡ audit_output deny_warnings report.now) }
{
    let output = audit_output(alloc, deny_warnings, report)?;
    Ok(output.with_note(advice_and_note(alloc, report, overview).ok()))
}

/// The parsed options of `audit`: the IDs that are ignored, and whether a warning is as bad as a
/// vulnerability.
#[derive(Drop)]
struct Wanted {
    ignored: Items<Id>,
    deny_warnings: bool,
}

/// Makes the output of `audit` for a root, the path of a lockfile and parsed options.
fn options_output<F: Folders>(
    alloc: Global,
    folders: &mut F,
    root: &str,
    lock: &str,
    wanted: Wanted,
) -> Result<Output, AllocError>
    ensures ok { IfOk result (IsOutputOver (audit_output wanted.deny_warnings) (F.allowed folders.old) root.now lock.now (settings_with wanted.ignored)) }
    ensures same { AllowSame (F.allowed folders.old) (F.allowed folders.new) }
{
    let Wanted {
        ignored,
        deny_warnings,
    } = wanted;
    let settings = settings_with(alloc, ignored)?;
    let paths = Paths { root, lock };
    match read_inputs(alloc, folders, paths, settings.ignore.as_slice()) {
        Ok((inputs, overview)) => {
            let report = inputs.report(alloc, &settings)?;
            advised_output(alloc, deny_warnings, &report, overview)
        }
        Err(error) => refusal_output(alloc, &error),
    }
}

/// Makes the output of `audit` for a root, the path of a lockfile, and the words after them.
pub fn audit<F: Folders>(
    alloc: Global,
    folders: &mut F,
    root: &str,
    lock: &str,
    words: &[&str],
) -> Result<Output, AllocError>
    ensures ok { IfOk result (IsAuditOutput (F.allowed folders.old) root.now lock.now (map (λ w. w.now) words.now)) }
    ensures same { AllowSame (F.allowed folders.old) (F.allowed folders.new) }
{
    let Some(options) = options::options_of(alloc, words)? else {
        return usage_output(alloc, misuse::of_options(alloc, words).ok());
    };
    match options.ignored_ids(alloc) {
        Ok(ignored) => {
            let wanted = Wanted {
                ignored,
                deny_warnings: options.denies_warnings(),
            };
            options_output(alloc, folders, root, lock, wanted)
        }
        Err(error) => refusal_output(alloc, &error),
    }
}
