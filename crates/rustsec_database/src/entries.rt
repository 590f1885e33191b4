//! The stored advisories, with a table that finds them by ID.

ghost use Rattle.std.specs.Prelude.{◌≡◌, ◌++◌, ◌∷◌, ◌⊎◌, ◌<◌, ◌^◌, [], false, ℕ, IfErr, IfOk, IfSome, IsSome, List, MatchResult, None, Option, OnErr, OnOk, Some, length, slice_get, true};
ghost use Rattle.std.specs.HashMap as hash;
ghost use Rattle.std.specs.Iterator.Adapters.{IterYieldsInOrder};
ghost use Rattle.std.specs.List.{find};
ghost use Rattle.std.specs.Option.{option_copied};
ghost use Rattle.std.specs.Slice.Iter.{iter_rest};
ghost use Rattle.rustsec_files.specs.ReadFailures.{IsReadFailure};
ghost use Rattle.rustsec_files.specs.Allowed.{AllowSame, read_from, real_files, real_folders};
ghost use Rattle.rustsec_values.specs.Failure.{IsMemory, IsOfKind};
ghost use Rattle.rustsec_texts.specs.IdOrder.{id_eq};
ghost use Rattle.rustsec_database.specs.Loaded.{IsAdded, IsAtFault, IsFault, IsOnlyWithId, has_id, is_known};
ghost use Rattle.rustsec_database.specs.Opened.{IsAddedAt, IsFaultAt};

use crate::placement::load_placed;
use crate::slot::Slot;
use rustsec_advisory::Advisory;
use rustsec_files::{Folders, RealFolders};
use rustsec_texts::Id;
use rustsec_values::{Error, ErrorKind, Result, exact_copy, file_error};
use std::alloc::{AllocError, Global};
use std::collections::HashMap;
use std::collections::hash_map::Entry;
use std::marker::Model;
use std::rt::Files;
use std::{slice, vec};

/// The stored advisories, in the order in which they were loaded. No two have the same ID.
#[derive(Debug, Drop)]
pub struct Entries {
    advisories: Vec<Advisory>,
    slots: HashMap<Id, Slot>,
}

impl Model for Entries {
    ghost use Rattle.std.specs.Prelude.{List};
    ghost use Rattle.rustsec_advisory.specs.declared.advisory.Advisory as given;
    ghost use Rattle.rustsec_database.specs.Loaded.{HaveOwnIds};
    ghost use Rattle.rustsec_database.specs.Places.{IsTableOf};

    ghost Value = { List given.Advisory };

    ghost view = { λ e. e.advisories.items };

    ghost invariant = { λ e. IsTableOf e.advisories.items e.slots × HaveOwnIds e.advisories.items };
}

/// Makes the error for a file whose ID is that of a stored advisory.
pub(crate) fn duplicate_error(alloc: Global, id: &Id) -> Error
    ensures { IsOfKind ErrorKind.Parse result }
{
    match format!(in alloc; "the ID `{id}` is in an earlier file, expected a new one") {
        Ok(message) => Error::new(alloc, ErrorKind::Parse, &message),
        Err(refused) => Error::from(refused),
    }
}

/// Maps an ID to a slot, unless the ID has one. Returns whether it had none. One search finds the ID or its place.
fn put_new(
    slots: &mut HashMap<Id, Slot>,
    id: Id,
    slot: Slot,
) -> std::result::Result<bool, AllocError>
    ensures fresh { IfOk result (λ fresh. fresh ≡ true → (hash.get id_eq slots.old id ≡ None) × hash.Updates id_eq slots.old slots.new id (Some slot)) }
    ensures known { IfOk result (λ fresh. fresh ≡ false → IsSome (hash.get id_eq slots.old id) × (slots.new.entries ≡ slots.old.entries)) }
    ensures kept { OnErr result (slots.new.entries ≡ slots.old.entries) }
{
    match slots.entry(id)? {
        Entry::Occupied(_) => Ok(false),
        Entry::Vacant(place) => {
            place.insert(slot);
            Ok(true)
        }
    }
}

impl Entries {
    /// Returns an empty list. It takes no memory.
    pub fn new(alloc: Global) -> Entries
        ensures { result ≡ [] }
    {
        Entries {
            advisories: Vec::new(alloc),
            slots: HashMap::new(alloc),
        }
    }

    /// Appends an advisory and returns its slot.
    ///
    /// # Errors
    ///
    /// `OutOfMemory`, whether the ID is known or not; `Parse` only if it is that of a stored advisory. On an error nothing
    /// is changed.
    pub(crate) fn store(&mut self, alloc: Global, advisory: Advisory) -> Result<Slot>
        ensures ok { OnOk result ((is_known self.old advisory ≡ false) × (self.new ≡ self.old ++ advisory ∷ [])) }
        ensures slot { IfOk result (λ slot. slot ≡ length self.old) }
        ensures kept { OnErr result (self.new ≡ self.old) }
        ensures err { IfErr result (λ e. ((is_known self.old advisory ≡ true) × IsOfKind ErrorKind.Parse e) ⊎ IsMemory e) }
    {
        let id = exact_copy(&advisory.metadata.id)?;
        let slot = Slot::new(self.advisories.as_slice().len());
        self.advisories.reserve(1)?;
        if !put_new(&mut self.slots, id, slot)? {
            return Err(duplicate_error(alloc, &advisory.metadata.id));
        }
        // There is room, so this is not refused.
        self.advisories.push(advisory).map_err(|_| AllocError)?;
        Ok(slot)
    }

    /// Stores the advisory of a file and returns its slot, or returns `None` if its ID is the placeholder.
    /// On an error nothing is changed.
    fn add(&mut self, alloc: Global, path: &str, text: &str) -> Result<Option<Slot>>
        ensures ok { IfOk result (λ slot. IsAdded self.old path.now text.now slot self.new) }
        ensures kept { OnErr result (self.new ≡ self.old) }
        ensures err { IfErr result (λ e. IsAtFault self.old path.now text.now e.kind ⊎ IsMemory e) }
    {
        let advisory = load_placed(alloc, path, text)?;
        if advisory.metadata.id.is_placeholder() {
            return Ok(None);
        }
        let slot = self.store(alloc, advisory)?;
        Ok(Some(slot))
    }

    /// Loads the advisory of a file with this path and this text, and stores it unless its ID is the
    /// placeholder. Returns the slot of the advisory, or `None` for a placeholder. The stored advisory has
    /// the collection of its folder.
    ///
    /// # Errors
    ///
    /// The first of these checks that fails gives the error:
    /// - `Parse` if the text is not an advisory;
    /// - `Repo` if the extension of the path is not `md`, the file is neither named `ID.md` nor a draft,
    ///   the folder is not named after the package, or its parent is neither `crates` nor `rust`;
    /// - `Parse` if the text names another collection than the parent, or the ID is that of a stored
    ///   advisory.
    ///
    /// The message then names the path, and the cause says why. Otherwise the error is `OutOfMemory`. On
    /// any error nothing is changed.
    pub fn load_text(&mut self, alloc: Global, path: &str, text: &str) -> Result<Option<Slot>>
        ensures ok { IfOk result (λ slot. IsAdded self.old path.now text.now slot self.new) }
        ensures kept { OnErr result (self.new ≡ self.old) }
        ensures err { IfErr result (IsFault self.old path.now text.now) }
    {
        match self.add(alloc, path, text) {
            Ok(slot) => Ok(slot),
            Err(e) => Err(file_error(alloc, path, &e)),
        }
    }

    /// Loads one more file, with this path and this text, and returns the entries.
    ///
    /// # Errors
    ///
    /// As `load_text`.
    pub(crate) fn with_file(mut self, alloc: Global, path: &str, text: &str) -> Result<Entries>
        ensures ok { IfOk result (λ more. (place : Option ℕ) × IsAdded self path.now text.now place more) }
        ensures err { IfErr result (IsFault self path.now text.now) }
    {
        self.load_text(alloc, path, text)?;
        Ok(self)
    }

    /// Stores one more advisory, whose ID no other one has, and returns the entries.
    pub(crate) fn with_advisory(mut self, alloc: Global, advisory: Advisory) -> Result<Entries>
        requires { is_known self advisory ≡ false }
        ensures ok { IfOk result (λ more. more ≡ self ++ advisory ∷ []) }
        ensures err { IfErr result IsMemory }
    {
        self.store(alloc, advisory)?;
        Ok(self)
    }

    /// Reads the file at a path through `folders`, and loads its advisory as `load_text` does.
    ///
    /// # Errors
    ///
    /// `Io` if the file cannot be read or is not UTF-8; then as `load_text`.
    pub fn load_file_with<F: Folders>(
        &mut self,
        alloc: Global,
        folders: &mut F,
        path: &str,
    ) -> Result<Option<Slot>>
        ensures ok { IfOk result (λ slot. IsAddedAt (F.allowed folders.old) path.now self.old slot self.new) }
        ensures kept { OnErr result (self.new ≡ self.old) }
        ensures err { IfErr result (IsFaultAt (F.allowed folders.old) path.now self.old) }
        ensures same { AllowSame (F.allowed folders.old) (F.allowed folders.new) }
        ensures names { IfErr result (λ e. F.refuses folders.old path.now e ⊎ ((text : List ℕ) × IsFault self.old path.now text e)) }
        ensures opened { MatchResult result
            (λ slot. IsAddedAt (read_from F.opened (F.allowed folders.old)) path.now self.old slot self.new)
            (IsFaultAt (read_from F.opened (F.allowed folders.old)) path.now self.old) }
    {
        let text = folders.read(alloc, path)?;
        self.load_text(alloc, path, text.as_str())
    }

    /// Reads the file at a path of the disk, and loads its advisory as `load_file_with` does.
    ///
    /// # Errors
    ///
    /// As `load_file_with`. Every message but that of out of memory names the path.
    pub fn load_file<R: Files>(&mut self, rt: &R, alloc: Global, path: &str) -> Result<Option<Slot>>
        ensures ok { IfOk result (λ slot. IsAddedAt real_folders path.now self.old slot self.new) }
        ensures kept { OnErr result (self.new ≡ self.old) }
        ensures err { IfErr result (IsFaultAt real_folders path.now self.old) }
        ensures names { IfErr result (λ e. IsReadFailure path.now e ⊎ ((text : List ℕ) × IsFault self.old path.now text e)) }
        ensures opened { MatchResult result
            (λ slot. IsAddedAt (real_files R.File.remaining) path.now self.old slot self.new)
            (IsFaultAt (real_files R.File.remaining) path.now self.old) }
    {
        self.load_file_with(alloc, &mut RealFolders::new(rt), path)
    }

    /// Returns the stored advisory with an ID, or `None` if no stored advisory has it.
    pub fn find_by_id(&self, id: &Id) -> Option<&Advisory>
        ensures found { option_copied result ≡ find (has_id id.now) self.now }
        ensures only { IfSome result (λ a. IsOnlyWithId id.now self.now a.now) }
    {
        match self.slots.get(id) {
            Some(slot) => self.get(*slot),
            None => None,
        }
    }

    /// Returns the advisory in a slot, or `None` if the slot is out of range.
    pub fn get(&self, slot: Slot) -> Option<&Advisory>
        ensures { option_copied result ≡ slice_get self.now slot }
    {
        self.advisories.get(slot.place())
    }

    /// Returns the stored advisories as a slice.
    pub(crate) fn as_slice(&self) -> &[Advisory]
        ensures { result.now ≡ self.now }
    {
        self.advisories.as_slice()
    }

    /// Returns an iterator over the stored advisories, in the order in which they were loaded.
    pub fn iter(&self) -> slice::Iter<'_, Advisory>
        ensures rest { iter_rest result ≡ self.now }
        ensures bound { length (iter_rest result) < 2 ^ 64 }
        ensures runs { IterYieldsInOrder Advisory }
    {
        self.advisories.as_slice().iter()
    }
}

impl IntoIterator for Entries {
    type Item = Advisory;

    type IntoIter = vec::IntoIter<Advisory>;

    ghost use Rattle.std.specs.Prelude.{◌≡◌, ◌^◌, ◌<◌, ℕ};
    ghost use Rattle.std.specs.Global.{Global};
    ghost use Rattle.std.specs.Iterator.Runs.{EveryRun, ItemsAre};
    ghost use Rattle.rustsec_advisory.specs.declared.advisory.Advisory as given;
    ghost use Rattle.std.specs.Vec.Iter.{into_iter_items, into_iter_len, into_iter_steps};

    ghost into_iter_gives = { λ e it. (into_iter_items it ≡ e) × (into_iter_len it < 2 ^ 64)
        × EveryRun (into_iter_steps {X = given.Advisory} {Z = Global}) (λ p. ItemsAre p (into_iter_items p.from)) };

    /// Returns an iterator over the stored advisories by value, in the order in which they were loaded.
    fn into_iter(self) -> vec::IntoIter<Advisory> {
        let Entries {
            advisories,
            slots: _,
        } = self;
        advisories.into_iter()
    }
}
