//! The packages of a lockfile that are yanked from their registry.

ghost use Rattle.std.specs.Prelude.{◌≡◌, IfErr, IfOk};
ghost use Rattle.rustsec_values.specs.Failure.{IsMemory};
ghost use Rattle.rustsec_check.specs.Subjects.{subject_view};
ghost use Rattle.rustsec_check.specs.Yanked.{AreYanked, IsYanked, placed_of, yanked_fails};

use crate::findings::{has_package, is_denied, is_old};
use crate::subject::{Subject, Viewed};
use rustsec_lock::package::Package;
use rustsec_texts::WarningKind;
use rustsec_values::Result;
use std::alloc::{AllocError, Global};
use std::marker::Model;

/// A package that is yanked from its registry.
#[derive(Drop)]
pub struct Yanked<'a> {
    /// The package.
    pub package: &'a Package,
    /// The place of the package in the lockfile, from 0 on.
    pub place: usize,
    /// Whether it is denied: whether all warnings are, or those of yanked packages.
    pub is_denied: bool,
    /// Whether the baseline has a package with the same name, version and source.
    pub is_old: bool,
    /// The first of the shortest paths from a root to the package, or `None` if no root reaches it.
    pub path: Option<Vec<usize>>,
    /// The packages that depend on the package themselves, in order.
    pub dependents: Vec<usize>,
}

impl<'a> Model for Yanked<'a> {
    ghost use Rattle.std.specs.Prelude.{option_map};
    ghost use Rattle.rustsec_check.specs.Values.{YankedValue};

    ghost Value = { YankedValue };

    ghost view = { λ y. record {
      «package» = y.«package».now;
      place = y.place;
      is_denied = y.is_denied;
      is_old = y.is_old;
      path = option_map (λ v. v.items) y.path;
      dependents = y.dependents.items;
    } };
}

/// Returns what is known about the package at a place, which is yanked.
fn yanked_at<'a>(
    alloc: Global,
    subject: &Viewed<'a>,
    place: usize,
    package: &'a Package,
) -> Result<Yanked<'a>>
    ensures at { IfOk result (λ y. placed_of y ≡ (place, «package».now)) }
    ensures ok { IfOk result (IsYanked subject.now) }
    ensures err { IfErr result IsMemory }
{
    let path = subject.graph.path_to(alloc, place)?;
    let dependents = subject.graph.dependents(alloc, place)?;
    Ok(Yanked {
        package,
        place,
        is_denied: is_denied(subject.denied, Some(WarningKind::Yanked)),
        is_old: is_old(subject.baseline, package),
        path,
        dependents,
    })
}

/// Returns those of a subject's packages that are yanked, in order.
fn all_yanked<'a>(
    alloc: Global,
    subject: &Viewed<'a>,
    yanked: &[Package],
) -> Result<Vec<Yanked<'a>>>
    ensures ok { IfOk result (λ v. AreYanked subject.now yanked.now v.items) }
    ensures err { IfErr result IsMemory }
{
    let packages = subject.lockfile.packages.as_slice();
    let mut all = Vec::new(alloc);
    for (place, package) in packages.iter().enumerate() {
        if has_package(yanked, package) {
            let found = yanked_at(alloc, subject, place, package)?;
            all.push(found).map_err(|_| AllocError)?;
        }
    }
    Ok(all)
}

/// Returns what is known about those packages of a lockfile that are yanked, in the lockfile's order. `yanked` are the
/// packages that a registry's index says to be yanked.
///
/// # Errors
///
/// `OutOfMemory` alone.
pub fn yanked_packages<'a>(
    alloc: Global,
    subject: Subject<'a>,
    yanked: &[Package],
) -> Result<Vec<Yanked<'a>>>
    ensures ok { IfOk result (λ v. AreYanked (subject_view subject.entry) yanked.now v.items) }
    ensures err { IfErr result IsMemory }
{
    let subject = Viewed::new(subject);
    all_yanked(alloc, &subject, yanked)
}

/// Returns whether some of these packages is denied and not old.
pub fn yanked_fail(packages: &[Yanked<'_>]) -> bool
    ensures { result ≡ yanked_fails packages.now }
{
    packages
        .iter()
        .any(|package| package.is_denied && !package.is_old)
}
