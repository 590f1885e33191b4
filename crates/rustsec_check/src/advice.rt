//! How the findings about one package can be mended.

ghost use Rattle.std.specs.Prelude.{◌≡◌, IfErr, IfOk, option_map};
ghost use Rattle.semver.specs.Identifiers.{parts_of};
ghost use Rattle.rustsec_values.specs.Failure.{IsMemory};
ghost use Rattle.rustsec_versions.specs.order.Precedence.{IsVersion};
ghost use Rattle.rustsec_check.specs.Updates.{IsAdvice, IsUpdateBy, affects, counting, is_same_with};

use crate::counted::Counted;
use crate::update::Update;
use rustsec_advisory::Advisory;
use rustsec_database::Database;
use rustsec_lock::package::Package;
use rustsec_texts::Id;
use rustsec_values::Result;
use semver::Version;
use std::alloc::Global;
use std::marker::Model;

/// What the findings about one package share: the advisories that count, and how it can be mended by these alone.
#[derive(Drop)]
pub(crate) struct Advice<'a> {
    counted: Counted<'a>,
    update: Update<'a>,
}

impl<'a> Model for Advice<'a> {
    ghost use Rattle.rustsec_check.specs.Updates.{AdviceValue};

    ghost Value = { AdviceValue };

    ghost view = { λ v. record { counted = v.counted; update = v.update } };
}

/// Returns whether an advisory leaves a version affected; `false` without a version.
fn affects(version: &Option<Version>, advisory: &Advisory) -> bool
    ensures { result ≡ affects (option_map parts_of version.now) advisory.now }
{
    match version {
        Some(version) => advisory.versions.is_vulnerable(version),
        None => false,
    }
}

/// Returns what the findings about a package share.
pub(crate) fn advice_about<'a>(
    alloc: Global,
    database: &'a Database,
    ids: &'a [Id],
    package: &Package,
) -> Result<Advice<'a>>
    ensures counted { IfOk result (λ v. v.counted ≡ record { ids = ids.now; others = counting database.now «package».now }) }
    ensures ok { IsVersion «package».now.version → IfOk result (IsAdvice «package».now) }
    ensures err { IfErr result IsMemory }
{
    let counted = Counted::about(alloc, database, ids, package)?;
    let update = counted.update(alloc, &[], &package.version)?;
    Ok(Advice { counted, update })
}

/// Returns whether it is known that the package can be mended in the same way if an advisory counts too: the advisory
/// leaves the answer free, and either no ignored one moves the answer, or one in force has the same requirements.
fn is_same_with(advice: &Advice<'_>, advisory: &Advisory) -> bool
    ensures { result ≡ is_same_with advice.now advisory.now }
{
    !affects(&advice.update.least_free, advisory)
        && (advice.update.moved_by.is_empty() || advice.counted.holds(advisory))
}

/// Returns how the finding of an advisory about a package can be mended.
pub(crate) fn update_of<'a>(
    alloc: Global,
    advice: &Advice<'a>,
    package: &Package,
    advisory: &'a Advisory,
) -> Result<Update<'a>>
    requires { IsVersion «package».now.version → IsAdvice «package».now advice.now }
    ensures ok { IsVersion «package».now.version → IfOk result (IsUpdateBy advice.now.counted.ids advice.now.counted.others «package».now advisory.now) }
    ensures err { IfErr result IsMemory }
{
    if is_same_with(advice, advisory) {
        return Ok(advice.update.copy(alloc)?);
    }
    advice.counted.update(alloc, &[advisory], &package.version)
}
