//! Reasons.

ghost use Rattle.std.specs.Prelude.{◌≡◌, ◌++◌, ◌∷◌, [], OnOk};
ghost use Rattle.rustsec_explain.specs.Reasons.{applying};

use rustsec_values::{ExactClone, ExactEq, Items};
use std::alloc::AllocError;

/// A reason why a pair of a package and an advisory is not a finding. Several can apply to a pair.
#[derive(Clone, Copy, PartialEq, Eq, Debug)]
pub enum Reason {
    /// The package has no source, so that it is not audited.
    WithoutSource,
    /// The package's source is not the default registry, so that it is not audited.
    NotAudited,
    /// The advisory is not in the collection of crates.
    OtherCollection,
    /// The advisory is about a package with another name.
    OtherPackage,
    /// The interval of a patched requirement holds the version; the requirement by its place in the list, from 0 on.
    HeldByPatched(usize),
    /// The interval of an unaffected requirement holds the version; likewise.
    HeldByUnaffected(usize),
    /// The advisory is about another source than the package's. One that names no source is about the default
    /// registry's index in git.
    OtherSource,
    /// The advisory's severity is below the least one.
    BelowThreshold,
    /// The advisory lists architectures, and none of them is asked for.
    OtherArchitecture,
    /// The advisory lists systems, and none of them is asked for.
    OtherSystem,
    /// The advisory was withdrawn.
    Withdrawn,
    /// The advisory is informational, and its kind is not asked for.
    KindNotWanted,
    /// The advisory is informational, and its kind gives no warnings.
    KindWithoutWarnings,
    /// The advisory is ignored.
    Ignored,
}

impl ExactClone for Reason {
    ghost exact = { λ x y e. e };
}

impl ExactEq for Reason {
    ghost use Rattle.std.proofs.Common.{rules};
    ghost use Rattle.std.specs.Cmp.Rules.{comparing};

    ghost decides = { λ x y. Prim.search (comparing, rules) };
}

/// Appends a reason if it applies.
pub(crate) fn add_if(
    reasons: &mut Items<Reason>,
    applies: bool,
    reason: Reason,
) -> Result<(), AllocError>
    ensures { OnOk result (reasons.new ≡ reasons.old ++ applying ((reason, applies) ∷ [])) }
{
    if applies {
        reasons.push(reason)?;
    }
    Ok(())
}
