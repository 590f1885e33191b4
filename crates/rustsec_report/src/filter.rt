//! Filters a report by binary format.

ghost use Rattle.std.specs.Prelude.{◌≡◌, length, map};
ghost use Rattle.std.specs.List.{filter, list_any};
ghost use Rattle.rustsec_report.specs.Filter.{applicable, apple, filtered, is_one_of, no_system, runs, windows};
ghost use Rattle.rustsec_report.specs.Report.{info_of};

use crate::binary_format::BinaryFormat;
use crate::info::VulnerabilityInfo;
use crate::report::Report;
use crate::warning::Warning;
use rustsec_advisory::Affected;
use rustsec_database::Vulnerability;
use rustsec_lock::platforms::OS;
use rustsec_texts::WarningKind;
use rustsec_values::{Items, Predicate, SortedMap};

/// Returns whether a system is Windows.
fn is_windows(os: OS) -> bool
    ensures { result ≡ is_one_of windows os }
{
    [OS::Windows].contains(&os)
}

/// Returns whether a system is one of Apple's.
fn is_apple(os: OS) -> bool
    ensures { result ≡ is_one_of apple os }
{
    [OS::iOS, OS::MacOS, OS::TvOS, OS::VisionOS, OS::WatchOS].contains(&os)
}

/// Returns whether a value of `OS` is not an operating system: `unknown` or `none`.
fn is_no_system(os: OS) -> bool
    ensures { result ≡ is_one_of no_system os }
{
    [OS::Unknown, OS::None].contains(&os)
}

/// Returns whether a system may run programs of a format.
fn runs(format: BinaryFormat, os: OS) -> bool
    ensures { result ≡ runs format os }
{
    match format {
        BinaryFormat::Elf32 | BinaryFormat::Elf64 => !is_windows(os) && !is_apple(os),
        BinaryFormat::Macho => is_apple(os),
        BinaryFormat::PE => is_windows(os),
        BinaryFormat::Wasm => is_no_system(os),
        BinaryFormat::Unknown => true,
    }
}

/// Returns whether some of these systems may run programs of a format.
fn some_runs(format: BinaryFormat, systems: &[OS]) -> bool
    ensures { result ≡ list_any (runs format) systems.now }
{
    systems.iter().any(|os| runs(format, *os))
}

/// Returns whether an advisory with this table `affected` applies to programs of a format.
fn is_applicable(format: BinaryFormat, affected: &Option<Affected>) -> bool
    ensures { result ≡ applicable format affected.now }
{
    match affected {
        Some(affected) => affected.os.is_empty() || some_runs(format, affected.os.as_slice()),
        None => true,
    }
}

/// The predicate of what applies to programs of a format.
#[derive(Drop)]
struct Applicable {
    format: BinaryFormat,
}

impl Predicate<Vulnerability> for Applicable {
    ghost use Rattle.rustsec_report.specs.Filter.{applicable};

    ghost holds = { λ test v. applicable test.format v.affected };

    fn holds(&self, element: &Vulnerability) -> bool {
        is_applicable(self.format, &element.affected)
    }
}

impl Predicate<Warning> for Applicable {
    ghost use Rattle.rustsec_report.specs.Filter.{applicable};

    ghost holds = { λ test w. applicable test.format w.affected };

    fn holds(&self, element: &Warning) -> bool {
        is_applicable(self.format, &element.affected)
    }
}

/// Keeps the vulnerabilities that apply to programs of a format, and updates their number.
fn filter_vulnerabilities(info: &mut VulnerabilityInfo, test: &Applicable)
    ensures { info.new ≡ info_of (filter (λ v. applicable test.now.format v.affected) info.old.list) }
{
    info.list.retain(test);
    info.count = info.list.len();
    info.found = !info.list.is_empty();
}

/// Keeps the warnings that apply to programs of a format, and each kind, even if its list becomes empty.
fn filter_warnings(warnings: &mut SortedMap<WarningKind, Items<Warning>>, test: &Applicable)
    ensures { warnings.new ≡ map (λ e. (e.0, filter (λ w. applicable test.now.format w.affected) e.1)) warnings.old }
{
    warnings.retain(|_, list| {
        list.retain(test);
        true
    });
}

/// Removes from a report what does not apply to programs of a format: an advisory applies if it lists no system, or one
/// that runs such programs. The number of vulnerabilities, and whether there are any, are updated. A kind of warnings
/// stays, even if its list becomes empty. This takes no memory.
///
/// The number of vulnerabilities must be that of the list.
pub fn filter_report_by_binary_type(binary_type: &BinaryFormat, report: &mut Report)
    requires { report.old.vulnerabilities.count ≡ length report.old.vulnerabilities.list }
    ensures value { report.new ≡ filtered binary_type.now report.old }

    // The condition holds again, and a second call changes nothing.
    ensures count { report.new.vulnerabilities.count ≡ length report.new.vulnerabilities.list }
    ensures again { filtered binary_type.now report.new ≡ report.new }
{
    let test = Applicable {
        format: *binary_type,
    };
    filter_vulnerabilities(&mut report.vulnerabilities, &test);
    filter_warnings(&mut report.warnings, &test);
}
