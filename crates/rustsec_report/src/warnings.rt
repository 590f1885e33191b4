//! The warnings of informational advisories.

ghost use Rattle.std.specs.Prelude.{◌≡◌, ◌++◌, ◌∷◌, [], IfErr, IfOk, OnOk, map};
ghost use Rattle.rustsec_values.specs.Failure.{IsMemory};
ghost use Rattle.rustsec_database.specs.Pairs.{as_vulnerability};
ghost use Rattle.rustsec_report.specs.Report.{gives, present, warnings_by_kind, warnings_of_kind};
ghost use Rattle.rustsec_report.specs.Kinds.{with_kinds};

use crate::settings::Settings;
use crate::warning::Warning;
use crate::warning_ref::{WarningRef, WarningsOfKind};
use rustsec_database::Pair;
use rustsec_texts::WarningKind;
use rustsec_values::{ClosedEnum, Items, Result, SortedMap};
use std::alloc::{AllocError, Global};

/// Warnings by their kinds. A kind without warnings may be missing.
pub type WarningInfo = SortedMap<WarningKind, Items<Warning>>;

/// Returns whether a pair gives a warning of a kind that settings ask for.
fn gives(settings: &Settings, kind: WarningKind, pair: &Pair<'_>) -> bool
    ensures { result ≡ gives settings.now kind (as_vulnerability pair.now) }
{
    settings.wanted_kind(&pair.advisory.metadata.informational) == Some(kind)
}

/// Returns the warnings of a kind that settings ask for, in order.
fn warnings_of_kind<'a>(
    alloc: Global,
    pairs: &[Pair<'a>],
    settings: &Settings,
    kind: WarningKind,
) -> std::result::Result<Items<WarningRef<'a>>, AllocError>
    ensures { IfOk result (λ ws. ws ≡ warnings_of_kind settings.now (map as_vulnerability pairs.now) kind) }
{
    let mut warnings = Items::new(alloc);
    for pair in pairs {
        if gives(settings, kind, pair) {
            warnings.push(WarningRef::of_pair(kind, pair))?;
        }
    }
    Ok(warnings)
}

/// Appends the warnings of a kind, unless there are none.
fn push_kind<'a>(
    warnings: &mut Items<WarningsOfKind<'a>>,
    of_kind: WarningsOfKind<'a>,
) -> std::result::Result<(), AllocError>
    ensures { OnOk result (warnings.new ≡ warnings.old ++ present (of_kind.entry ∷ [])) }
{
    if !of_kind.list.is_empty() {
        warnings.push(of_kind)?;
    }
    Ok(())
}

/// Returns the warnings that settings ask for, kind by kind, from the pairs that count.
pub(crate) fn warnings_by_kind<'a>(
    alloc: Global,
    pairs: &[Pair<'a>],
    settings: &Settings,
) -> std::result::Result<Items<WarningsOfKind<'a>>, AllocError>
    ensures { IfOk result (λ ws. ws ≡ warnings_by_kind settings.now (map as_vulnerability pairs.now)) }
{
    let mut warnings = Items::new(alloc);
    for kind in WarningKind::all() {
        let list = warnings_of_kind(alloc, pairs, settings, *kind)?;
        push_kind(&mut warnings, WarningsOfKind { kind: *kind, list })?;
    }
    Ok(warnings)
}

/// Returns copies of warnings, in order.
fn copies_of(alloc: Global, warnings: &[WarningRef<'_>]) -> Result<Items<Warning>>
    ensures ok { IfOk result (λ ws. ws ≡ warnings.now) }
    ensures err { IfErr result IsMemory }
{
    let mut copies = Items::new(alloc);
    for warning in warnings {
        copies.push(warning.to_warning(alloc)?)?;
    }
    Ok(copies)
}

/// Returns copies of warnings by their kinds. Of two lists of one kind the later one is kept.
pub(crate) fn copies_by_kind(alloc: Global, warnings: &[WarningsOfKind<'_>]) -> Result<WarningInfo>
    ensures ok { IfOk result (λ ws. ws ≡ with_kinds [] warnings.now) }
    ensures err { IfErr result IsMemory }
{
    let mut copies = SortedMap::new(alloc);
    for of_kind in warnings {
        let list = copies_of(alloc, of_kind.list.as_slice())?;
        copies.insert(of_kind.kind, list)?;
    }
    Ok(copies)
}
