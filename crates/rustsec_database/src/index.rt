//! An index: the slots of each name.

ghost use Rattle.std.specs.Prelude.{◌≡◌, ◌∷◌, [], if◌then◌else◌, ℕ, IfErr, IfOk, IfSome, List, OnErr, OnOk, false, nat_eq, not};
ghost use Rattle.std.specs.Cmp.Lexicographic.{pointwise};
ghost use Rattle.std.specs.List.{list_any};
ghost use Rattle.std.specs.Option.{option_copied};
ghost use Rattle.rustsec_values.specs.Failure.{IsMemory};
ghost use Rattle.rustsec_database.specs.Slots.{Rises, slots_at, where_any, with_slot};

use crate::slot::Slot;
use rustsec_lock::package::Name;
use rustsec_values::{Result, exact_copy};
use std::alloc::{AllocError, Global};
use std::collections::HashMap;
use std::marker::Model;

/// A map from names to slots. Contracts see it as the list of the names with their slots.
#[derive(Debug, Drop)]
pub struct Index {
    slots: HashMap<Name, Vec<Slot>>,
}

impl Model for Index {
    ghost use Rattle.std.specs.Prelude.{ℕ, List};
    ghost use Rattle.rustsec_database.specs.Indexes.{AllRise, shown};

    ghost Value = { List (List ℕ × List ℕ) };

    ghost view = { λ i. shown i.slots.entries };

    ghost invariant = { λ i. AllRise i.slots };
}

/// Inserts a slot into a rising list without duplicates. Returns whether the slot was new. One that is there takes no
/// memory.
fn add(slots: &mut Vec<Slot>, slot: Slot) -> std::result::Result<bool, AllocError>
    requires { Rises slots.old.items }
    ensures ok { OnOk result (slots.new.items ≡ with_slot slot slots.old.items) }
    ensures fresh { IfOk result (λ fresh. fresh ≡ not (list_any (nat_eq slot) slots.old.items)) }
    ensures err { OnErr result (slots.new.items ≡ slots.old.items) }
    ensures none { OnErr result (list_any (nat_eq slot) slots.old.items ≡ false) }
{
    match slots.as_slice().binary_search(&slot) {
        Ok(_) => Ok(false),
        Err(place) => {
            slots.insert(place, slot)?;
            Ok(true)
        }
    }
}

impl Index {
    /// Returns an empty index. It takes no memory.
    pub fn new(alloc: Global) -> Index
        ensures { result ≡ [] }
    {
        Index {
            slots: HashMap::new(alloc),
        }
    }

    /// Inserts the first slot of a name that has none.
    fn insert_first(
        &mut self,
        alloc: Global,
        key: &Name,
        slot: Slot,
    ) -> std::result::Result<(), AllocError>
        ensures ok { OnOk result ((name : List ℕ) → slots_at name self.new
            ≡ (if pointwise nat_eq key.now name then slot ∷ [] else slots_at name self.old)) }
        ensures err { OnErr result (self.new ≡ self.old) }
    {
        let slots = vec![in alloc; slot]?;
        let key = exact_copy(key)?;
        self.slots.insert(key, slots)?;
        Ok(())
    }

    /// Inserts a slot under a name. Returns whether the name did not have the slot before.
    ///
    /// # Errors
    ///
    /// `OutOfMemory` alone, which leaves the index as it was.
    pub fn insert(&mut self, alloc: Global, key: &Name, slot: Slot) -> Result<bool>
        ensures fresh { IfOk result (λ fresh. fresh ≡ not (list_any (nat_eq slot) (slots_at key.now self.old))) }
        ensures slots { OnOk result ((name : List ℕ) → slots_at name self.new
            ≡ (if pointwise nat_eq key.now name then with_slot slot (slots_at key.now self.old) else slots_at name self.old)) }
        ensures kept { OnErr result (self.new ≡ self.old) }
        ensures err { IfErr result IsMemory }

        // A slot that the name has takes no memory.
        ensures none { OnErr result (list_any (nat_eq slot) (slots_at key.now self.old) ≡ false) }
    {
        match self.slots.get_mut(key) {
            Some(slots) => {
                let fresh = add(slots, slot)?;
                Ok(fresh)
            }
            None => {
                self.insert_first(alloc, key, slot)?;
                Ok(true)
            }
        }
    }

    /// Returns the slots of a name, rising and without duplicates, or `None` if the name has no slot.
    pub fn get(&self, key: &Name) -> Option<&[Slot]>
        ensures slots { option_copied result ≡ where_any (slots_at key.now self.now) }
        ensures rising { IfSome result (λ slots. Rises slots.now) }
    {
        match self.slots.get(key) {
            Some(slots) => Some(slots.as_slice()),
            None => None,
        }
    }
}
