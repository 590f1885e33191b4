//! A breadth-first search from the roots, which finds the first of the shortest paths to each package.

ghost use Rattle.std.specs.Prelude.{◌≡◌, ◌≢◌, ◌+◌, ◌<◌, [], IfOk, List, None, OnErr, OnOk, Some, length, option_map, replicate, slice_index_or, ℕ};
ghost use Rattle.std.specs.List.{All};
ghost use Rattle.std.specs.List.Sorted.{IsNonDecreasing, IsPermutation};
ghost use Rattle.rustsec_graph.specs.Graph.{IsClosed};
ghost use Rattle.rustsec_graph.specs.Paths.{successors};
ghost use Rattle.rustsec_graph.specs.Search.{IsSearchTo, IsWhole, Rise, before_of, path_at, path_to, place_of, seat_of, visit, visits};

use rustsec_values::Items;
use std::alloc::{AllocError, Global};
use std::marker::Model;

/// What the search found. A seat is a number in the order in which places were found, from 0 on.
#[derive(Debug, Drop)]
pub(crate) struct Search {
    /// The place at each seat.
    order: Vec<usize>,
    /// The seat before each seat on its path, or `None` for a root.
    before: Vec<Option<usize>>,
    /// The seat of each place, or `None` if no root reaches it.
    seats: Vec<Option<usize>>,
}

impl Model for Search {
    ghost use Rattle.rustsec_graph.specs.Search.{SearchValue};

    ghost Value = { SearchValue };

    ghost view = { λ s. record { order = s.order.items; before = s.before.items; seats = s.seats.items } };
}

/// Returns the successors of a place.
pub(crate) fn successors_of(edges: &[Items<usize>], place: usize) -> &[usize]
    ensures { result.now ≡ successors edges.now place }
{
    match edges.get(place) {
        Some(successors) => successors.as_slice(),
        None => &[],
    }
}

/// Returns the number at a place, or 0 past the end.
fn number_at(numbers: &[usize], place: usize) -> usize
    ensures { result ≡ slice_index_or numbers.now place 0 }
{
    match numbers.get(place) {
        Some(number) => *number,
        None => 0,
    }
}

/// Returns the seat at a place, or none past the end.
fn seat_at(seats: &[Option<usize>], place: usize) -> Option<usize>
    ensures { result ≡ slice_index_or seats.now place None }
{
    match seats.get(place) {
        Some(seat) => *seat,
        None => None,
    }
}

impl Search {
    /// Returns a search over this number of places that found none of them yet.
    fn new(alloc: Global, count: usize) -> Result<Search, AllocError>
        ensures { IfOk result (λ s. s ≡ record { order = []; before = []; seats = replicate count None }) }
    {
        let seats = vec![in alloc; None; count]?;
        Ok(Search {
            order: Vec::new(alloc),
            before: Vec::new(alloc),
            seats,
        })
    }

    /// Returns how many places were found.
    fn len(&self) -> usize
        ensures { result ≡ length self.now.order }
    {
        self.order.len()
    }

    /// Returns the place at a seat.
    fn place_of(&self, seat: usize) -> usize
        ensures { result ≡ place_of self.now seat }
    {
        number_at(self.order.as_slice(), seat)
    }

    /// Returns the seat before a seat.
    fn before_of(&self, seat: usize) -> Option<usize>
        ensures { result ≡ before_of self.now seat }
    {
        seat_at(self.before.as_slice(), seat)
    }

    /// Returns the seat of a place.
    fn seat_of(&self, place: usize) -> Option<usize>
        ensures { result ≡ seat_of self.now place }
    {
        seat_at(self.seats.as_slice(), place)
    }

    /// Gives a place the next seat, after a seat or as a root. A place that has a seat keeps it.
    fn visit(&mut self, before: Option<usize>, place: usize) -> Result<(), AllocError>
        requires { place < length self.old.seats }
        ensures { OnOk result (self.new ≡ visit before self.old place) }
    {
        if self.seat_of(place).is_some() {
            return Ok(());
        }
        let seat = self.order.len();
        self.order.push(place)?;
        self.before.push(before)?;
        self.seats[place] = Some(seat);
        Ok(())
    }

    /// Visits places, one after another.
    fn visit_all(&mut self, before: Option<usize>, places: &[usize]) -> Result<(), AllocError>
        requires { All (λ place. place < length self.old.seats) places.now }
        ensures { OnOk result (self.new ≡ visits before self.old places.now) }
    {
        for place in places {
            self.visit(before, *place)?;
        }
        Ok(())
    }
}

/// Returns the successors of a place, in order.
fn sorted_successors(
    alloc: Global,
    edges: &[Items<usize>],
    place: usize,
) -> Result<Vec<usize>, AllocError>
    ensures same { IfOk result (λ v. IsPermutation (successors edges.now place) v.items) }
    ensures sorted { IfOk result (λ v. IsNonDecreasing v.items) }
{
    let mut sorted = successors_of(edges, place).to_vec(alloc)?;
    sorted.sort()?;
    Ok(sorted)
}

/// Visits the places to which edges lead from the place at a seat.
fn visit_successors(
    alloc: Global,
    edges: &[Items<usize>],
    search: &mut Search,
    seat: usize,
) -> Result<(), AllocError>
    requires closed { (place : ℕ) → All (λ target. target < length edges.now) (successors edges.now place) }
    requires wide { length search.old.seats ≡ length edges.now }
    requires inside { seat < length search.old.order }
    ensures { OnOk result ((roots : List ℕ) → IsSearchTo edges.now roots seat search.old → IsSearchTo edges.now roots (seat + 1) search.new) }
{
    let places = sorted_successors(alloc, edges, search.place_of(seat))?;
    search.visit_all(Some(seat), places.as_slice())?;
    Ok(())
}

/// Searches the paths from the roots.
pub(crate) fn search_from(
    alloc: Global,
    edges: &[Items<usize>],
    roots: &[usize],
) -> Result<Search, AllocError>
    requires closed { IsClosed edges.now roots.now }
    requires rise { Rise roots.now }
    ensures { IfOk result (IsWhole edges.now roots.now) }
{
    let mut search = Search::new(alloc, edges.len())?;
    search.visit_all(None, roots)?;
    let mut seat = 0;
    'seats: while seat < search.len() {
        visit_successors(alloc, edges, &mut search, seat)?;
        seat += 1;
    }
    Ok(search)
}

/// Returns the path to the place at a seat.
fn path_at(alloc: Global, search: &Search, seat: usize) -> Result<Vec<usize>, AllocError>
    requires { (a b : ℕ) → before_of search.now a ≡ Some b → b < a }
    ensures { IfOk result (λ v. v.items ≡ path_at search.now seat) }
{
    let mut path = Vec::new(alloc);
    let mut next = Some(seat);
    'seats: while let Some(seat) = next {
        path.push(search.place_of(seat))?;
        next = search.before_of(seat);
    }
    path.reverse();
    Ok(path)
}

/// Returns the path to a place, if the place was found.
pub(crate) fn path_to(
    alloc: Global,
    search: &Search,
    place: usize,
) -> Result<Option<Vec<usize>>, AllocError>
    requires { (a b : ℕ) → before_of search.now a ≡ Some b → b < a }
    ensures ok { IfOk result (λ path. option_map (λ v. v.items) path ≡ path_to search.now place) }

    // A place that was not found takes no memory.
    ensures none { OnErr result (path_to search.now place ≢ None) }
{
    match search.seat_of(place) {
        Some(seat) => Ok(Some(path_at(alloc, search, seat)?)),
        None => Ok(None),
    }
}
