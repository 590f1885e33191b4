//! The options after the paths of `check`, `check-many` and `explain`.

ghost use Rattle.std.specs.Prelude.{◌≡◌, ◌++◌, ◌∷◌, [], IfOk, OnOk, map, option_map};
ghost use Rattle.std.specs.List.{list_any};
ghost use Rattle.std.specs.Str.{bytes_eq};
ghost use Rattle.rustsec_program.specs.CheckOptions.{flag_name, has, key_name, last_value, options_of, sets, value_for, values_of};
ghost use Rattle.rustsec_program.specs.Steps.{given, item_view, step};

use crate::keys::{Flag, Key};
use rustsec_values::{ClosedEnum, from_name};
use std::alloc::{AllocError, Global};
use std::marker::Model;

/// An option: a flag, or a key with its value.
#[derive(Clone, Copy, Debug)]
pub enum Item<'a> {
    /// A flag.
    Set(Flag),
    /// A key, and the word after it.
    Valued(Key, &'a str),
}

/// The options that words name, in order.
#[derive(Drop)]
pub struct Options<'a> {
    /// The options.
    items: Vec<Item<'a>>,
}

impl<'a> Model for Options<'a> {
    ghost use Rattle.std.specs.Prelude.{List, map};
    ghost use Rattle.rustsec_program.specs.CheckOptions.{CheckOption};
    ghost use Rattle.rustsec_program.specs.Steps.{item_view};

    ghost Value = { List CheckOption };

    ghost view = { λ o. map item_view o.items.items };
}

/// Returns whether a word is the name of a key.
fn is_key(key: Key, other: Key) -> bool
    ensures { result ≡ bytes_eq (key_name key) (key_name other) }
{
    key.name() == other.name()
}

/// Returns whether a flag has the same name as another.
fn is_flag(flag: Flag, other: Flag) -> bool
    ensures { result ≡ bytes_eq (flag_name flag) (flag_name other) }
{
    flag.name() == other.name()
}

/// Returns the value that an option gives a key, if it does.
fn value_for<'a>(key: Key, item: Item<'a>) -> Option<&'a str>
    ensures { option_map (λ t. t.now) result ≡ value_for key (item_view item.entry) }
{
    match item {
        Item::Valued(other, value) if is_key(other, key) => Some(value),
        _ => None,
    }
}

/// Returns whether an option sets a flag.
fn sets(flag: Flag, item: Item<'_>) -> bool
    ensures { result ≡ sets flag (item_view item.entry) }
{
    match item {
        Item::Set(other) => is_flag(other, flag),
        Item::Valued(_, _) => false,
    }
}

/// Returns whether a flag is among some options.
fn any_sets(flag: Flag, items: &[Item<'_>]) -> bool
    ensures { result ≡ list_any (λ i. sets flag (item_view i)) items.now }
{
    items.iter().any(|item| sets(flag, *item))
}

/// Appends the value that an option gives a key, if it does.
fn add_value<'a>(values: &mut Vec<&'a str>, key: Key, item: Item<'a>) -> Result<(), AllocError>
    ensures { OnOk result (map (λ t. t.now) values.new.items ≡ map (λ t. t.now) values.old.items ++ values_of key (item_view item.entry ∷ [])) }
{
    if let Some(value) = value_for(key, item) {
        values.push(value)?;
    }
    Ok(())
}

impl<'a> Options<'a> {
    /// Returns the values of a key, in order.
    pub fn values(&self, alloc: Global, key: Key) -> Result<Vec<&'a str>, AllocError>
        ensures { IfOk result (λ v. map (λ t. t.now) v.items ≡ values_of key self.now) }
    {
        let mut values = Vec::new(alloc);
        for item in &self.items {
            add_value(&mut values, key, *item)?;
        }
        Ok(values)
    }

    /// Returns the value of a key that counts once: the last one.
    pub fn last(&self, alloc: Global, key: Key) -> Result<Option<&'a str>, AllocError>
        ensures { IfOk result (λ o. option_map (λ t. t.now) o ≡ last_value key self.now) }
    {
        let values = self.values(alloc, key)?;
        let place = values.len().saturating_sub(1);
        match values.get(place) {
            Some(value) => Ok(Some(*value)),
            None => Ok(None),
        }
    }

    /// Returns whether a flag is among the options.
    pub fn has(&self, flag: Flag) -> bool
        ensures { result ≡ has flag self.now }
    {
        any_sets(flag, self.items.as_slice())
    }
}

/// Returns the option that a word ends, if it ends one, and the key that still awaits its value. A word that is not an
/// option gives `None`.
fn step<'a>(awaits: Option<Key>, word: &'a str) -> Option<(Option<Item<'a>>, Option<Key>)>
    ensures { option_map (λ s. (option_map item_view s.0, s.1)) result ≡ step awaits word.now }
{
    if let Some(key) = awaits {
        return Some((Some(Item::Valued(key, word)), None));
    }
    if let Some(flag) = from_name::<Flag>(word) {
        return Some((Some(Item::Set(flag)), None));
    }
    match from_name::<Key>(word) {
        Some(key) => Some((None, Some(key))),
        None => None,
    }
}

/// Appends an option, if any.
fn add<'a>(items: &mut Vec<Item<'a>>, item: Option<Item<'a>>) -> Result<(), AllocError>
    ensures { OnOk result (map item_view items.new.items ≡ map item_view items.old.items ++ given (option_map item_view item.entry)) }
{
    if let Some(item) = item {
        items.push(item)?;
    }
    Ok(())
}

/// Parses words as options. A word that is not an option, or a key without its value at the end, gives `None`.
pub fn options_of<'a>(alloc: Global, words: &[&'a str]) -> Result<Option<Options<'a>>, AllocError>
    ensures { IfOk result (λ o. o ≡ options_of (map (λ w. w.now) words.now)) }
{
    let mut items = Vec::new(alloc);
    let mut awaits = None;
    for word in words {
        let Some((item, key)) = step(awaits, *word) else {
            return Ok(None);
        };
        add(&mut items, item)?;
        awaits = key;
    }
    match awaits {
        Some(_) => Ok(None),
        None => Ok(Some(Options { items })),
    }
}
