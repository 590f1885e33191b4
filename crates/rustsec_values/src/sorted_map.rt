//! A map that contracts see as the list of its entries, in the order of the keys.

ghost use Rattle.std.specs.Prelude.{◌≡◌, ◌==◌, ◌&&◌, ◌<◌, ◌^◌, [], List, IfOk, OnOk, OnErr, length};
ghost use Rattle.std.specs.BTreeMap.{insert_entry, is_at};
ghost use Rattle.std.specs.Cmp.{and_equiv, and_per, on_equiv, on_per};
ghost use Rattle.std.specs.Cmp.Lexicographic.{lists_equiv, lists_per, pointwise, pointwise_decides};
ghost use Rattle.std.specs.List.Sorted.{IsStrictlySortedBy};
ghost use Rattle.std.specs.BTreeMap.{IsOrdered};
ghost use Rattle.std.specs.Map.{keys_of, lookup};
ghost use Rattle.std.specs.Map.Calls.{CalledAtPair, CallableOnEachPair, RetainsPairs, TakesPair};
ghost use Rattle.std.specs.Map.Iter.{ShowsInOrder, deref_pair};
ghost use Rattle.std.specs.Option.{option_copied};
ghost use Rattle.rustsec_values.specs.Equality.{pair_decides};

use crate::laws::{ExactClone, ExactEq};
use std::alloc::{AllocError, Global};
use std::collections::{BTreeMap, btree_map};
use std::fmt;
use std::marker::Model;

/// A map from keys to values, which every contract sees as the list of its entries in the order of
/// the keys, each key once.
#[derive(Drop)]
pub struct SortedMap<K: Ord, V> {
    pub(crate) map: BTreeMap<K, V>,
}

impl<K: Ord, V> Model for SortedMap<K, V> {
    ghost Value = { List (K × V) };

    ghost view = { λ m. m.map.entries };
}

impl<K: Ord, V> SortedMap<K, V> {
    /// Returns the empty map, which takes no memory.
    pub fn new(alloc: Global) -> SortedMap<K, V>
        ensures { result ≡ [] }
    {
        SortedMap {
            map: BTreeMap::new(alloc),
        }
    }

    /// Returns the map as std's type.
    pub fn as_map(&self) -> &BTreeMap<K, V>
        ensures { result.now.entries ≡ self.now }
    {
        &self.map
    }

    /// Returns the number of entries, whose keys rise.
    pub fn len(&self) -> usize
        ensures len { result ≡ length self.now }
        ensures ordered { IsStrictlySortedBy K.cmp (keys_of self.now) }
    {
        self.map.len()
    }

    /// Returns whether the map is empty.
    pub fn is_empty(&self) -> bool
        ensures { result ≡ (length self.now == 0) }
    {
        self.map.len() == 0
    }

    /// Returns the value at a key, if any.
    pub fn get(&self, key: &K) -> Option<&V>
        ensures { option_copied result ≡ lookup (is_at (K.cmp key.now)) self.now }
    {
        self.map.get(key)
    }

    /// Returns an iterator over the entries, in the order of the keys.
    pub fn iter(&self) -> btree_map::Iter<'_, K, V>
        ensures rest { result ≡ self.now }
        ensures runs { ShowsInOrder (deref_pair {K = K} {X = V}) }
        ensures ordered { IsStrictlySortedBy K.cmp (keys_of self.now) }
        ensures fits { length self.now < 2 ^ 63 }
    {
        self.map.iter()
    }
}

impl<'a, K: Ord, V> IntoIterator for &'a SortedMap<K, V> {
    type Item = (&'a K, &'a V);

    type IntoIter = btree_map::Iter<'a, K, V>;

    ghost into_iter_gives = { λ m it. (it ≡ m.now) × (length m.now < 2 ^ 63) × ShowsInOrder (deref_pair {K = K} {X = V})
        × IsStrictlySortedBy K.cmp (keys_of m.now) };

    /// Returns an iterator over the entries, in the order of the keys.
    fn into_iter(self) -> btree_map::Iter<'a, K, V> {
        self.iter()
    }
}

impl<K: Ord + Drop, V: Drop> SortedMap<K, V> {
    /// Keeps the entries for which a function answers true. It may change the value of each entry. This takes no memory.
    pub fn retain<F: FnMut(&K, &mut V) -> bool>(&mut self, keeps: F)
        requires { CallableOnEachPair (CalledAtPair F.FnMut) (TakesPair F.FnMut) keeps self.old }
        ensures { RetainsPairs (CalledAtPair F.FnMut) keeps self.old self.new }
    {
        self.map.retain(keeps);
    }

    /// Sets the value at a key.
    ///
    /// # Errors
    ///
    /// Out of memory, which drops the entry and leaves the map as it was.
    pub fn insert(&mut self, key: K, value: V) -> Result<(), AllocError>
        ensures ok { OnOk result (self.new ≡ insert_entry K.cmp self.old key value) }
        ensures err { OnErr result (self.new ≡ self.old) }

        // A key that is there takes no memory.
        ensures none { OnErr result (lookup (is_at (K.cmp key)) self.old ≡ None) }
    {
        self.map.insert(key, value)?;
        Ok(())
    }
}

impl<K: Ord, V> From<BTreeMap<K, V>> for SortedMap<K, V> {
    ghost use Rattle.std.specs.Prelude.{◌≡◌};

    ghost from_gives = { λ map sorted. sorted ≡ map.entries };

    /// Converts a map of std, whose memory it takes over.
    fn from(map: BTreeMap<K, V>) -> SortedMap<K, V> {
        SortedMap { map }
    }
}

impl<K: Ord, V> From<SortedMap<K, V>> for BTreeMap<K, V> {
    ghost use Rattle.std.specs.Prelude.{◌≡◌};

    ghost from_gives = { λ sorted map. map.entries ≡ sorted };

    /// Returns the map that holds the entries, without a copy.
    fn from(sorted: SortedMap<K, V>) -> BTreeMap<K, V> {
        let SortedMap { map } = sorted;
        map
    }
}

impl<K: Ord + ExactClone, V: ExactClone> Clone for SortedMap<K, V> {
    ghost is_clone = { λ a b. b ≡ a };

    fn clone(&self) -> Result<SortedMap<K, V>, AllocError> {
        let map = self.map.clone()?;
        Ok(SortedMap { map })
    }
}

impl<K: Ord + ExactClone, V: ExactClone> ExactClone for SortedMap<K, V> {
    ghost exact = { λ x y e. e };
}

impl<K: Ord, V: PartialEq> PartialEq for SortedMap<K, V> {
    ghost eq = { pointwise (λ p q. K.eq p.0 q.0 && V.eq p.1 q.1) };

    ghost laws = { lists_per (and_per (on_per (λ p. p.0) K.PartialEq.laws) (on_per (λ p. p.1) V.laws)) };

    fn eq(&self, other: &SortedMap<K, V>) -> bool {
        self.map == other.map
    }
}

impl<K: Ord, V: Eq> Eq for SortedMap<K, V> {
    ghost laws = { lists_equiv (and_equiv (on_equiv (λ p. p.0) K.Eq.laws) (on_equiv (λ p. p.1) V.Eq.laws)) };
}

impl<K: Ord + ExactEq, V: ExactEq> ExactEq for SortedMap<K, V> {
    ghost decides = { pointwise_decides (pair_decides K.eq V.eq K.decides V.decides) };
}

impl<K: Ord + fmt::Debug, V: fmt::Debug> fmt::Debug for SortedMap<K, V> {
    fn fmt<W: fmt::Write>(&self, f: &mut fmt::Formatter<W>) -> fmt::Result {
        f.debug_map().entries(self.iter()).finish()
    }
}
