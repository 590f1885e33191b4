//! Which advisories affect a package of a lockfile, and which bear on one.

ghost use Rattle.std.specs.Prelude.{◌≡◌, IfErr, IfOk};
ghost use Rattle.std.specs.List.{list_any};
ghost use Rattle.rustsec_values.specs.Failure.{IsMemory};
ghost use Rattle.rustsec_database.specs.Kept.{bears_on_any, touches_any};
ghost use Rattle.rustsec_database.specs.Places.{IsIndexByName, affects_at, bears_at, is_named, places_from};

use crate::index::Index;
use crate::slot::Slot;
use crate::span::{Span, span_of};
use rustsec_advisory::Advisory;
use rustsec_lock::package::{Name, Package};
use rustsec_values::{Predicate, Result};
use rustsec_versions::Versions;
use std::alloc::Global;
use std::marker::Model;

/// The packages of a lockfile, with an index by their names. Contracts see it as the list of the packages. As a predicate it
/// holds for the advisories that are about one of them and affect its version.
#[derive(Drop)]
pub struct Locked<'a> {
    packages: &'a [Package],
    index: Index,
}

impl<'a> Model for Locked<'a> {
    ghost use Rattle.std.specs.Prelude.{List};
    ghost use Rattle.rustsec_lock.specs.Package.{PackageValue};
    ghost use Rattle.rustsec_database.specs.Places.{IsIndexByName};

    ghost Value = { List PackageValue };

    ghost view = { λ l. l.packages.now };

    ghost invariant = { λ l. IsIndexByName l.packages.now l.index };
}

/// Returns the index of some packages by their names.
fn index_of(alloc: Global, packages: &[Package]) -> Result<Index>
    ensures ok { IfOk result (IsIndexByName packages.now) }
    ensures err { IfErr result IsMemory }
{
    let mut index = Index::new(alloc);
    for (place, package) in packages.iter().enumerate() {
        let _fresh = index.insert(alloc, &package.name, Slot::new(place))?;
    }
    Ok(index)
}

/// Returns whether there is a package in a slot and its version is affected.
fn affects_at(versions: &Versions, packages: &[Package], slot: Slot) -> bool
    ensures { result ≡ affects_at versions.now packages.now slot }
{
    match packages.get(slot.place()) {
        Some(package) => versions.is_vulnerable(&package.version),
        None => false,
    }
}

/// Returns whether the version of some package in these slots is affected.
fn affects_some(versions: &Versions, packages: &[Package], slots: &[Slot]) -> bool
    ensures { result ≡ list_any (affects_at versions.now packages.now) slots.now }
{
    slots
        .iter()
        .any(|slot| affects_at(versions, packages, *slot))
}

impl<'a> Locked<'a> {
    /// Returns the packages with their index.
    ///
    /// # Errors
    ///
    /// `OutOfMemory` alone.
    pub fn new(alloc: Global, packages: &'a [Package]) -> Result<Locked<'a>>
        ensures ok { IfOk result (λ l. l ≡ packages.now) }
        ensures err { IfErr result IsMemory }
    {
        let index = index_of(alloc, packages)?;
        Ok(Locked { packages, index })
    }

    /// Returns the slots of the packages of a name.
    fn slots(&self, name: &Name) -> &[Slot]
        ensures { result.now ≡ places_from (is_named name.now) 0 self.now }
    {
        match self.index.get(name) {
            Some(slots) => slots,
            None => &[],
        }
    }

    /// Returns the packages.
    fn packages(&self) -> &[Package]
        ensures { result.now ≡ self.now }
    {
        self.packages
    }
}

impl<'a> Predicate<Advisory> for Locked<'a> {
    ghost use Rattle.rustsec_database.specs.Kept.{touches_any};

    ghost holds = { λ packages a. touches_any packages a };

    fn holds(&self, advisory: &Advisory) -> bool {
        let slots = self.slots(&advisory.metadata.package);
        affects_some(&advisory.versions, self.packages, slots)
    }
}

/// Returns whether there is a package in a slot and its version is below where a span ends.
fn bears_at(span: &Span, packages: &[Package], slot: Slot) -> bool
    ensures { result ≡ bears_at span.now.fixed packages.now slot }
{
    match packages.get(slot.place()) {
        Some(package) => span.is_until(&package.version),
        None => false,
    }
}

/// Returns whether the version of some package in these slots is below where a span ends.
fn bears_on_some(span: &Span, packages: &[Package], slots: &[Slot]) -> bool
    ensures { result ≡ list_any (bears_at span.now.fixed packages.now) slots.now }
{
    slots.iter().any(|slot| bears_at(span, packages, *slot))
}

/// The packages of a lockfile, with an index by their names. Contracts see it as the list of the packages. As a predicate it
/// holds for the advisories that bear on one of them: those about it, unless the first patched requirement that is `>=` of a
/// release alone has a release that is not above the locked version. Such an advisory affects neither that version nor a
/// later one.
#[derive(Drop)]
pub struct Bearing<'a> {
    locked: Locked<'a>,
}

impl<'a> Model for Bearing<'a> {
    ghost use Rattle.std.specs.Prelude.{List};
    ghost use Rattle.rustsec_lock.specs.Package.{PackageValue};

    ghost Value = { List PackageValue };

    ghost view = { λ b. b.locked };
}

impl<'a> Bearing<'a> {
    /// Returns the packages with their index.
    ///
    /// # Errors
    ///
    /// `OutOfMemory` alone.
    pub fn new(alloc: Global, packages: &'a [Package]) -> Result<Bearing<'a>>
        ensures ok { IfOk result (λ b. b ≡ packages.now) }
        ensures err { IfErr result IsMemory }
    {
        let locked = Locked::new(alloc, packages)?;
        Ok(Bearing { locked })
    }
}

impl<'a> Predicate<Advisory> for Bearing<'a> {
    ghost use Rattle.rustsec_database.specs.Kept.{bears_on_any};

    ghost holds = { λ packages a. bears_on_any packages a };

    fn holds(&self, advisory: &Advisory) -> bool {
        let named = self.locked.slots(&advisory.metadata.package);
        let span = span_of(&advisory.versions);
        bears_on_some(&span, self.locked.packages(), named)
    }
}
