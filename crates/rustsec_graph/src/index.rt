//! The packages of a lockfile by the first words of their names.

ghost use Rattle.std.specs.Prelude.{◌≡◌, ◌++◌, ◌∷◌, [], if◌then◌else◌, IfOk, List, OnOk, length, map, ℕ};
ghost use Rattle.std.specs.List.{filter};
ghost use Rattle.std.specs.Str.{bytes_eq};
ghost use Rattle.rustsec_graph.specs.Candidates.{candidate_of};
ghost use Rattle.rustsec_graph.specs.Entries.{fits_at, fitting};
ghost use Rattle.rustsec_graph.specs.Words.{AreWords, first_word, places_under};

use crate::candidates::{Candidate, candidate_of};
use rustsec_lock::package::Package;
use std::alloc::{AllocError, Global};
use std::collections::HashMap;
use std::marker::Model;

/// The packages of a lockfile for its entries, and the places of the packages by the first words of their names. An
/// entry begins with the name of the package that it names, so it has the same first word.
#[derive(Drop)]
pub(crate) struct Index<'a> {
    candidates: Vec<Candidate<'a>>,
    words: HashMap<&'a str, Vec<usize>>,
}

impl<'a> Model for Index<'a> {
    ghost use Rattle.std.specs.Prelude.{List};
    ghost use Rattle.rustsec_graph.specs.Candidates.{Candidate};
    ghost use Rattle.rustsec_graph.specs.Words.{FindsAll};

    ghost Value = { List Candidate };

    ghost view = { λ i. i.candidates.items };

    ghost invariant = { λ i. FindsAll i.candidates.items i.words };
}

/// Returns the text before its first space, if any.
fn first_word(text: &str) -> &str
    ensures { result.now ≡ first_word text.now }
{
    match text.split_once(' ') {
        Some((word, _)) => word,
        None => text,
    }
}

/// Appends a place to those under a word.
fn push_place<'a>(
    words: &mut HashMap<&'a str, Vec<usize>>,
    word: &'a str,
    place: usize,
) -> Result<(), AllocError>
    ensures { OnOk result ((q : List ℕ) → places_under words.new q ≡ places_under words.old q ++ (if bytes_eq q word.now then place ∷ [] else [])) }
{
    let places = words.entry(word).map_err(|_| AllocError)?.or_default();
    places.push(place)?;
    Ok(())
}

/// Returns the places of packages by the first words of their names.
fn words_of<'a>(
    alloc: Global,
    packages: &'a [Package],
) -> Result<HashMap<&'a str, Vec<usize>>, AllocError>
    ensures { IfOk result (AreWords packages.now) }
{
    let mut words = HashMap::new(alloc);
    for (place, package) in packages.iter().enumerate() {
        push_place(&mut words, first_word(package.name.as_str()), place)?;
    }
    Ok(words)
}

/// Returns the places under a word, in order.
fn places_under<'w>(words: &'w HashMap<&'w str, Vec<usize>>, word: &'w str) -> &'w [usize]
    ensures { result.now ≡ places_under words.now word.now }
{
    match words.get(&word) {
        Some(places) => places.as_slice(),
        None => &[],
    }
}

/// Returns the packages for entries. The texts of those with the first word of another one are listed.
fn candidates_of<'a>(
    alloc: Global,
    old: bool,
    packages: &'a [Package],
    words: &HashMap<&'a str, Vec<usize>>,
) -> Result<Vec<Candidate<'a>>, AllocError>
    ensures { IfOk result (λ v. v.items ≡ map (candidate_of old) packages.now) }
{
    let mut candidates = Vec::new(alloc);
    for package in packages {
        let listed = places_under(&*words, first_word(package.name.as_str())).len() > 1;
        let candidate = candidate_of(alloc, old, package, listed)?;
        candidates.push(candidate).map_err(|_| AllocError)?;
    }
    Ok(candidates)
}

impl<'a> Index<'a> {
    /// Returns the index of a lockfile's packages, by whether the lockfile is old.
    pub(crate) fn new(
        alloc: Global,
        old: bool,
        packages: &'a [Package],
    ) -> Result<Index<'a>, AllocError>
        ensures { IfOk result (λ i. i ≡ map (candidate_of old) packages.now) }
    {
        let words = words_of(alloc, packages)?;
        let candidates = candidates_of(alloc, old, packages, &words)?;
        Ok(Index { candidates, words })
    }

    /// Returns the packages for entries.
    pub(crate) fn candidates(&self) -> &[Candidate<'a>]
        ensures { result.now ≡ self.now }
    {
        self.candidates.as_slice()
    }

    /// Returns places, in order, among which are all that an entry fits.
    pub(crate) fn near<'i>(&'i self, entry: &'i str) -> &'i [usize]
        ensures { fitting self.now entry.now ≡ filter (fits_at self.now entry.now) result.now }
    {
        places_under(&self.words, first_word(entry))
    }
}
