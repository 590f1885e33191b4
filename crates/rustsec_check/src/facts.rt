//! What the findings about one package share.

ghost use Rattle.std.specs.Prelude.{◌≡◌, IfErr, IfOk, option_map};
ghost use Rattle.rustsec_values.specs.Failure.{IsMemory};
ghost use Rattle.rustsec_check.specs.Facts.{AreAbout, AreFacts, AreLast, IsPlaced};

use crate::advice::{Advice, advice_about};
use crate::findings::is_old;
use crate::found::Found;
use crate::subject::Viewed;
use rustsec_lock::package::Package;
use rustsec_values::Result;
use std::alloc::{AllocError, Global};
use std::marker::Model;

/// What the findings about one package share.
#[derive(Drop)]
pub(crate) struct Facts<'a> {
    pub(crate) package: &'a Package,
    pub(crate) place: usize,
    pub(crate) is_old: bool,
    path: Option<Vec<usize>>,
    dependents: Vec<usize>,
    pub(crate) advice: Advice<'a>,
}

impl<'a> Model for Facts<'a> {
    ghost use Rattle.std.specs.Prelude.{option_map};
    ghost use Rattle.rustsec_check.specs.Facts.{FactsValue};

    ghost Value = { FactsValue };

    ghost view = { λ f. record {
      «package» = f.«package».now;
      place = f.place;
      is_old = f.is_old;
      path = option_map (λ v. v.items) f.path;
      dependents = f.dependents.items;
      advice = f.advice;
    } };
}

impl<'a> Facts<'a> {
    /// Returns the facts about the package of a pair.
    fn new(alloc: Global, subject: &Viewed<'a>, found: &Found<'a>) -> Result<Facts<'a>>
        requires { IsPlaced subject.now.packages found.now }
        ensures about { IfOk result (λ f. AreAbout f found.now) }
        ensures ok { IfOk result (AreFacts subject.now) }
        ensures err { IfErr result IsMemory }
    {
        let package = found.package;
        let ids = subject.settings.ignore.as_slice();
        let path = subject.graph.path_to(alloc, found.place)?;
        let dependents = subject.graph.dependents(alloc, found.place)?;
        let advice = advice_about(alloc, subject.database, ids, package)?;
        Ok(Facts {
            package,
            place: found.place,
            is_old: is_old(subject.baseline, package),
            path,
            dependents,
            advice,
        })
    }

    /// Returns the path to the package.
    pub(crate) fn path(&self, alloc: Global) -> std::result::Result<Option<Vec<usize>>, AllocError>
        ensures { IfOk result (λ path. option_map (λ v. v.items) path ≡ self.now.path) }
    {
        match &self.path {
            Some(path) => Ok(Some(path.as_slice().to_vec(alloc)?)),
            None => Ok(None),
        }
    }

    /// Returns the dependents of the package.
    pub(crate) fn dependents(&self, alloc: Global) -> std::result::Result<Vec<usize>, AllocError>
        ensures { IfOk result (λ v. v.items ≡ self.now.dependents) }
    {
        self.dependents.as_slice().to_vec(alloc)
    }
}

/// Returns the facts about the package of a pair: those about the last pair's package, if it is the same.
pub(crate) fn facts_about<'a>(
    alloc: Global,
    subject: &Viewed<'a>,
    last: Option<Facts<'a>>,
    found: &Found<'a>,
) -> Result<Facts<'a>>
    requires placed { IsPlaced subject.now.packages found.now }
    requires last { AreLast subject.now last }
    ensures about { IfOk result (λ f. AreAbout f found.now) }
    ensures ok { IfOk result (AreFacts subject.now) }
    ensures err { IfErr result IsMemory }
{
    match last {
        Some(facts) if facts.place == found.place => Ok(facts),
        _ => Facts::new(alloc, subject, found),
    }
}
