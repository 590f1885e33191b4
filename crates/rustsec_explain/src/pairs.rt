//! Every reason why a pair is not a finding.

ghost use Rattle.std.specs.Prelude.{◌≡◌, ◌≢◌, ◌↔◌, ◌++◌, ◌∷◌, [], IfErr, IfOk, OnOk, true};
ghost use Rattle.rustsec_values.specs.Failure.{IsMemory};
ghost use Rattle.rustsec_report.specs.Report.{report_of};
ghost use Rattle.rustsec_explain.specs.Reported.{ListsNothing};
ghost use Rattle.rustsec_explain.specs.Reasons.{applying, is_finding, limit_rows, reasons_of, standing_rows, subject_rows, version_rows};

use crate::held::add_held;
use crate::reason::{Reason, add_if};
use crate::tests_of_pairs::{
    has_name, has_source, in_crates, is_elsewhere, is_ignored, is_severe, is_unwanted,
    is_without_warnings, on_arch, on_os,
};
use rustsec_advisory::Advisory;
use rustsec_lock::package::Package;
use rustsec_report::Settings;
use rustsec_values::{Items, Result};
use std::alloc::{AllocError, Global};

/// Appends the reasons about where the package comes from, and what the advisory is about.
fn add_subject(
    reasons: &mut Items<Reason>,
    settings: &Settings,
    advisory: &Advisory,
    package: &Package,
) -> std::result::Result<(), AllocError>
    ensures { OnOk result (reasons.new ≡ reasons.old ++ applying (subject_rows settings.now advisory.now «package».now)) }
{
    add_if(reasons, package.source.is_none(), Reason::WithoutSource)?;
    add_if(reasons, is_elsewhere(package), Reason::NotAudited)?;
    add_if(reasons, !in_crates(advisory), Reason::OtherCollection)?;
    add_if(reasons, !has_name(package, advisory), Reason::OtherPackage)?;
    Ok(())
}

/// Appends the requirements that hold the version.
fn add_versions(
    alloc: Global,
    reasons: &mut Items<Reason>,
    advisory: &Advisory,
    package: &Package,
) -> Result<()>
    ensures ok { OnOk result (reasons.new ≡ reasons.old ++ applying (version_rows advisory.now «package».now)) }
    ensures err { IfErr result IsMemory }
{
    let patched = advisory.versions.patched();
    let unaffected = advisory.versions.unaffected();
    add_held(alloc, reasons, &package.version, patched, true)?;
    add_held(alloc, reasons, &package.version, unaffected, false)?;
    Ok(())
}

/// Appends the reasons about the source of the advisory, its severity and its platforms.
fn add_limits(
    alloc: Global,
    reasons: &mut Items<Reason>,
    settings: &Settings,
    advisory: &Advisory,
    package: &Package,
) -> Result<()>
    ensures ok { OnOk result (reasons.new ≡ reasons.old ++ applying (limit_rows settings.now advisory.now «package».now)) }
    ensures err { IfErr result IsMemory }
{
    let has_source = has_source(alloc, package, advisory)?;
    let is_severe = is_severe(alloc, settings, advisory);
    let on_arch = on_arch(alloc, settings, advisory)?;
    let on_os = on_os(alloc, settings, advisory)?;
    add_if(reasons, !has_source, Reason::OtherSource)?;
    add_if(reasons, !is_severe, Reason::BelowThreshold)?;
    add_if(reasons, !on_arch, Reason::OtherArchitecture)?;
    add_if(reasons, !on_os, Reason::OtherSystem)?;
    Ok(())
}

/// Appends the reasons that the advisory does not count.
fn add_standing(
    reasons: &mut Items<Reason>,
    settings: &Settings,
    advisory: &Advisory,
) -> std::result::Result<(), AllocError>
    ensures { OnOk result (reasons.new ≡ reasons.old ++ applying (standing_rows settings.now advisory.now)) }
{
    let is_unwanted = is_unwanted(settings, advisory);
    add_if(reasons, advisory.withdrawn(), Reason::Withdrawn)?;
    add_if(reasons, is_unwanted, Reason::KindNotWanted)?;
    add_if(
        reasons,
        is_without_warnings(advisory),
        Reason::KindWithoutWarnings,
    )?;
    add_if(reasons, is_ignored(settings, advisory), Reason::Ignored)?;
    Ok(())
}

/// Returns every reason why a pair of a package and an advisory is not a finding: why a report with these settings
/// lists it neither as a vulnerability nor as a warning. A finding has no reason. They are in the order of the
/// variants of `Reason`, and there is one for each requirement whose interval holds the version.
///
/// # Errors
///
/// `OutOfMemory` alone.
pub fn reasons(
    alloc: Global,
    settings: &Settings,
    advisory: &Advisory,
    package: &Package,
) -> Result<Items<Reason>>
    ensures ok { IfOk result (λ rs. rs ≡ reasons_of settings.now advisory.now «package».now) }

    // A pair is a finding exactly if it has no reason. With a reason, the report of these two alone lists nothing.
    ensures complete { IfOk result (λ rs. (rs ≡ []) ↔ (is_finding settings.now advisory.now «package».now ≡ true)) }
    ensures reported { IfOk result (λ rs. (rs ≢ []) ↔ ListsNothing (report_of (advisory.now ∷ []) («package».now ∷ []) settings.now)) }
    ensures err { IfErr result IsMemory }
{
    let mut reasons = Items::new(alloc);
    add_subject(&mut reasons, settings, advisory, package)?;
    add_versions(alloc, &mut reasons, advisory, package)?;
    add_limits(alloc, &mut reasons, settings, advisory, package)?;
    add_standing(&mut reasons, settings, advisory)?;
    Ok(reasons)
}
