//! A table of a document, and typed access to the values at its keys.

ghost use Rattle.std.specs.Prelude.{◌≡◌, ◌≢◌, [], IfErr, IfOk, None, OnErr, Some, false, option_map};
ghost use Rattle.toml.specs.Data.{as_array, as_bool, as_str, as_table, get_member};
ghost use Rattle.toml.specs.View.{array_view, table_view, view};
ghost use Rattle.rustsec_toml.specs.Fields.{defaulted, every, list_of, optional, required, text};
ghost use Rattle.rustsec_values.specs.Reading.{read_all};
ghost use Rattle.rustsec_values.specs.Failure.{IsMemory, IsOfKind, IsRefusal};

use crate::documents::TablePlace;
use rustsec_values::{Error, ErrorKind, FromText, Items, Result, text_error, with_place};
use std::alloc::{AllocError, Global};
use std::fmt;
use std::fmt::Formatter;
use toml::value::Array;
use toml::{Table, Value};

/// A table of a document, its name in errors, such as `[advisory]`, and where it is.
#[derive(Clone, Copy)]
pub struct Section<'a> {
    /// The table.
    pub table: &'a Table,
    /// The name of the table in errors.
    pub name: &'a str,
    /// Where the table is, for messages.
    pub place: TablePlace<'a>,
}

/// Returns the value at a key of a table, if any.
fn member<'a>(table: &'a Table, key: &str) -> Option<&'a Value>
    ensures { option_map (λ v. view v.now) result ≡ get_member key.now (table_view table.now) }
{
    table.get(key)
}

/// Returns a `Parse` error with this message, or `OutOfMemory` if the message could not be built.
fn parse_error(alloc: Global, message: std::result::Result<String, AllocError>) -> Error
    ensures { IsOfKind ErrorKind.Parse result }
{
    match message {
        Ok(message) => Error::new(alloc, ErrorKind::Parse, &message),
        Err(refused) => Error::from(refused),
    }
}

/// Returns a value as a message shows it: a string without quotes, another value as TOML prints it.
fn printed(alloc: Global, value: &Value) -> std::result::Result<String, AllocError> {
    if let Some(text) = value.as_str() {
        return String::from_str(alloc, text);
    }
    let mut f = Formatter::new(String::new(alloc));
    match fmt::Display::fmt(value, &mut f) {
        Ok(()) => Ok(f.into_inner()),
        Err(_) => Err(AllocError),
    }
}

/// Parses the strings of an array, in order.
fn texts<T: FromText>(
    alloc: Global,
    section: Section<'_>,
    key: &str,
    array: &Array,
) -> Result<Items<T>>
    ensures ok { IfOk result (λ xs. read_all (text T.reads) (list_of (array_view array.now)) ≡ Some xs) }
    ensures err { IfErr result (IsRefusal ErrorKind.Parse (read_all (text T.reads) (list_of (array_view array.now)) ≡ None)) }
{
    let mut read = Vec::with_capacity(alloc, array.len())?;
    for value in array {
        match section
            .at_element(read.len())
            .parse_value(alloc, key, value)
        {
            Ok(item) => read.push(item).map_err(|_| AllocError)?,
            Err(e) => return Err(e),
        }
    }
    Ok(Items::from(read))
}

impl<'a> Section<'a> {
    /// Returns the same section, for messages about an element of the array at a key.
    pub fn at_element(self, index: usize) -> Section<'a>
        ensures table { result.table.now ≡ self.entry.table.now }
        ensures name { result.name.now ≡ self.entry.name.now }
        ensures text { result.place.text.now ≡ self.entry.place.text.now }
        ensures path { result.place.path.now ≡ self.entry.place.path.now }
        ensures index { result.place.index ≡ self.entry.place.index }
        ensures element { result.place.element ≡ Some index }
        ensures line { result.place.line ≡ self.entry.place.line }
    {
        Section {
            table: self.table,
            name: self.name,
            place: self.place.at_element(index),
        }
    }

    /// Returns the value at a key, if any.
    pub fn get(self, key: &str) -> Option<&'a Value>
        ensures { option_map (λ v. view v.now) result ≡ get_member key.now (table_view self.entry.table.now) }
    {
        member(self.table, key)
    }

    /// Returns the error for a table without a required key.
    pub fn missing_error(self, alloc: Global, key: &str) -> Error
        ensures { IsOfKind ErrorKind.Parse result }
    {
        let name = self.name;
        let error = parse_error(alloc, format!(in alloc; "key `{key}` is missing in {name}"));
        self.place.with_place(alloc, key, error)
    }

    /// Returns the error for a value that is not of the expected kind. Its message names the key, the table and the
    /// value.
    pub fn unexpected_error(self, alloc: Global, key: &str, found: &Value, expected: &str) -> Error
        ensures { IsOfKind ErrorKind.Parse result }
    {
        let (name, kind) = (self.name, found.type_str());
        match (
            format!(in alloc; "key `{key}` in {name}: found {kind}"),
            printed(alloc, found),
        ) {
            (Ok(wrong), Ok(value)) => {
                let error = text_error(alloc, &wrong, &value, expected);
                self.place.with_place(alloc, key, error)
            }
            _ => Error::from(AllocError),
        }
    }

    /// Adds the key and the table before the message of an error about the value at the key.
    pub fn with_key(self, alloc: Global, key: &str, error: &Error) -> Error
        ensures kind { IsOfKind error.now.kind result }
        ensures memory { IsMemory error.now → IsMemory result }
    {
        let name = self.name;
        match format!(in alloc; "key `{key}` in {name}") {
            Ok(place) => {
                let error = with_place(alloc, &place, error);
                self.place.with_place(alloc, key, error)
            }
            Err(refused) => Error::from(refused),
        }
    }

    /// Returns the table that a value at a key must be.
    ///
    /// # Errors
    ///
    /// `Parse` if the value is not a table; else `OutOfMemory`, for the message.
    pub fn table_of(self, alloc: Global, key: &str, value: &'a Value) -> Result<&'a Table>
        ensures ok { IfOk result (λ t. as_table (view value.now) ≡ Some (table_view t.now)) }
        ensures err { IfErr result (IsRefusal ErrorKind.Parse (as_table (view value.now) ≡ None)) }
        ensures none { IfErr result (λ e. as_table (view value.now) ≡ None) }
    {
        match value.as_table() {
            Some(table) => Ok(table),
            None => Err(self.unexpected_error(alloc, key, value, "a table")),
        }
    }

    /// Returns the array that a value at a key must be.
    ///
    /// # Errors
    ///
    /// `Parse` if the value is not an array; else `OutOfMemory`, for the message. `expected` is for the
    /// message alone.
    pub fn array_of(
        self,
        alloc: Global,
        key: &str,
        value: &'a Value,
        expected: &str,
    ) -> Result<&'a Array>
        ensures ok { IfOk result (λ a. as_array (view value.now) ≡ Some (array_view a.now)) }
        ensures err { IfErr result (IsRefusal ErrorKind.Parse (as_array (view value.now) ≡ None)) }
        ensures none { IfErr result (λ e. as_array (view value.now) ≡ None) }
    {
        match value.as_array() {
            Some(array) => Ok(array),
            None => Err(self.unexpected_error(alloc, key, value, expected)),
        }
    }

    /// Returns the string that a value at a key must be.
    ///
    /// # Errors
    ///
    /// `Parse` if the value is not a string; else `OutOfMemory`, for the message.
    pub fn string_of(self, alloc: Global, key: &str, value: &'a Value) -> Result<&'a str>
        ensures ok { IfOk result (λ s. as_str (view value.now) ≡ Some s.now) }
        ensures err { IfErr result (IsRefusal ErrorKind.Parse (as_str (view value.now) ≡ None)) }
        ensures none { IfErr result (λ e. as_str (view value.now) ≡ None) }
    {
        match value.as_str() {
            Some(text) => Ok(text),
            None => Err(self.unexpected_error(alloc, key, value, "a string")),
        }
    }

    /// Parses a text that was found at a key.
    ///
    /// # Errors
    ///
    /// `Parse` if the type does not accept the text; else `OutOfMemory`.
    pub fn parse_str<T: FromText>(self, alloc: Global, key: &str, text: &str) -> Result<T>
        ensures ok { IfOk result (λ x. T.reads text.now ≡ Some x) }
        ensures err { IfErr result (IsRefusal ErrorKind.Parse (T.reads text.now ≡ None)) }
    {
        match T::from_text(alloc, text) {
            Ok(value) => Ok(value),
            Err(e) => Err(self.with_key(alloc, key, &e)),
        }
    }

    /// Parses a value at a key, which must be a string.
    ///
    /// # Errors
    ///
    /// `Parse` if the value is not a string, or the type does not accept it; else `OutOfMemory`.
    pub fn parse_value<T: FromText>(self, alloc: Global, key: &str, value: &Value) -> Result<T>
        ensures ok { IfOk result (λ x. text T.reads (view value.now) ≡ Some x) }
        ensures err { IfErr result (IsRefusal ErrorKind.Parse (text T.reads (view value.now) ≡ None)) }
    {
        match value.as_str() {
            Some(text) => self.parse_str(alloc, key, text),
            None => Err(self.unexpected_error(alloc, key, value, "a string")),
        }
    }

    /// Returns the table at a required key.
    ///
    /// # Errors
    ///
    /// `Parse` if the key is missing, or its value is not a table; else `OutOfMemory`, for the message.
    pub fn table_at(self, alloc: Global, key: &str) -> Result<&'a Table>
        ensures ok { IfOk result (λ t. required as_table key.now (table_view self.entry.table.now) ≡ Some (table_view t.now)) }
        ensures err { IfErr result (IsRefusal ErrorKind.Parse (required as_table key.now (table_view self.entry.table.now) ≡ None)) }
        ensures none { IfErr result (λ e. required as_table key.now (table_view self.entry.table.now) ≡ None) }
    {
        match self.get(key) {
            Some(value) => self.table_of(alloc, key, value),
            None => Err(self.missing_error(alloc, key)),
        }
    }

    /// Returns the string at a required key.
    ///
    /// # Errors
    ///
    /// `Parse` if the key is missing, or its value is not a string; else `OutOfMemory`, for the message.
    pub fn string_at(self, alloc: Global, key: &str) -> Result<&'a str>
        ensures ok { IfOk result (λ s. required as_str key.now (table_view self.entry.table.now) ≡ Some s.now) }
        ensures err { IfErr result (IsRefusal ErrorKind.Parse (required as_str key.now (table_view self.entry.table.now) ≡ None)) }
        ensures none { IfErr result (λ e. required as_str key.now (table_view self.entry.table.now) ≡ None) }
    {
        match self.get(key) {
            Some(value) => self.string_of(alloc, key, value),
            None => Err(self.missing_error(alloc, key)),
        }
    }

    /// Returns the string at a key that may be missing.
    ///
    /// # Errors
    ///
    /// `Parse` if its value is not a string; else `OutOfMemory`, for the message.
    pub fn optional_string_at(self, alloc: Global, key: &str) -> Result<Option<&'a str>>
        ensures ok { IfOk result (λ s. optional as_str key.now (table_view self.entry.table.now) ≡ Some (option_map (λ t. t.now) s)) }
        ensures err { IfErr result (IsRefusal ErrorKind.Parse (optional as_str key.now (table_view self.entry.table.now) ≡ None)) }
        ensures none { IfErr result (λ e. optional as_str key.now (table_view self.entry.table.now) ≡ None) }
    {
        let Some(value) = self.get(key) else {
            return Ok(None);
        };
        let text = self.string_of(alloc, key, value)?;
        Ok(Some(text))
    }

    /// Returns the string at a key, empty if the key is missing.
    ///
    /// # Errors
    ///
    /// `Parse` if its value is not a string; else `OutOfMemory`, for the message.
    pub fn string_or_empty(self, alloc: Global, key: &str) -> Result<&'a str>
        ensures ok { IfOk result (λ s. defaulted [] as_str key.now (table_view self.entry.table.now) ≡ Some s.now) }
        ensures err { IfErr result (IsRefusal ErrorKind.Parse (defaulted [] as_str key.now (table_view self.entry.table.now) ≡ None)) }
        ensures none { IfErr result (λ e. defaulted [] as_str key.now (table_view self.entry.table.now) ≡ None) }
    {
        match self.get(key) {
            Some(value) => self.string_of(alloc, key, value),
            None => Ok(""),
        }
    }

    /// Returns the boolean at a key, false if the key is missing.
    ///
    /// # Errors
    ///
    /// `Parse` if its value is not a boolean; else `OutOfMemory`, for the message.
    pub fn bool_or_false(self, alloc: Global, key: &str) -> Result<bool>
        ensures ok { IfOk result (λ b. defaulted false as_bool key.now (table_view self.entry.table.now) ≡ Some b) }
        ensures err { IfErr result (IsRefusal ErrorKind.Parse (defaulted false as_bool key.now (table_view self.entry.table.now) ≡ None)) }
        ensures none { IfErr result (λ e. defaulted false as_bool key.now (table_view self.entry.table.now) ≡ None) }
    {
        let Some(value) = self.get(key) else {
            return Ok(false);
        };
        match value.as_bool() {
            Some(flag) => Ok(flag),
            None => Err(self.unexpected_error(alloc, key, value, "a boolean")),
        }
    }

    /// Parses the string at a required key.
    ///
    /// # Errors
    ///
    /// `Parse` if the key is missing, its value is not a string, or the type does not accept it; else
    /// `OutOfMemory`.
    pub fn required<T: FromText>(self, alloc: Global, key: &str) -> Result<T>
        ensures ok { IfOk result (λ x. required (text T.reads) key.now (table_view self.entry.table.now) ≡ Some x) }
        ensures err { IfErr result (IsRefusal ErrorKind.Parse (required (text T.reads) key.now (table_view self.entry.table.now) ≡ None)) }
    {
        match self.get(key) {
            Some(value) => self.parse_value(alloc, key, value),
            None => Err(self.missing_error(alloc, key)),
        }
    }

    /// Parses the string at a key that may be missing.
    ///
    /// # Errors
    ///
    /// `Parse` if its value is not a string, or the type does not accept it; else `OutOfMemory`.
    pub fn optional<T: FromText>(self, alloc: Global, key: &str) -> Result<Option<T>>
        ensures ok { IfOk result (λ x. optional (text T.reads) key.now (table_view self.entry.table.now) ≡ Some x) }
        ensures err { IfErr result (IsRefusal ErrorKind.Parse (optional (text T.reads) key.now (table_view self.entry.table.now) ≡ None)) }
        ensures none { OnErr result (get_member key.now (table_view self.entry.table.now) ≢ None) }
    {
        let Some(value) = self.get(key) else {
            return Ok(None);
        };
        let read = self.parse_value(alloc, key, value)?;
        Ok(Some(read))
    }

    /// Parses the string at a key, or returns the default if the key is missing.
    ///
    /// # Errors
    ///
    /// `Parse` if its value is not a string, or the type does not accept it; else `OutOfMemory`.
    pub fn or_default<T: FromText>(self, alloc: Global, key: &str, default: T) -> Result<T>
        ensures ok { IfOk result (λ x. defaulted default (text T.reads) key.now (table_view self.entry.table.now) ≡ Some x) }
        ensures err { IfErr result (IsRefusal ErrorKind.Parse (defaulted default (text T.reads) key.now (table_view self.entry.table.now) ≡ None)) }
        ensures none { OnErr result (get_member key.now (table_view self.entry.table.now) ≢ None) }
    {
        match self.get(key) {
            Some(value) => self.parse_value(alloc, key, value),
            None => Ok(default),
        }
    }

    /// Parses the strings of the array at a key, in order; an empty list if the key is missing.
    ///
    /// # Errors
    ///
    /// `Parse` if its value is not an array of strings, or the type does not accept one; else `OutOfMemory`.
    pub fn list<T: FromText>(self, alloc: Global, key: &str) -> Result<Items<T>>
        ensures ok { IfOk result (λ xs. defaulted [] (every (text T.reads)) key.now (table_view self.entry.table.now) ≡ Some xs) }
        ensures err { IfErr result (IsRefusal ErrorKind.Parse (defaulted [] (every (text T.reads)) key.now (table_view self.entry.table.now) ≡ None)) }
        ensures none { OnErr result (get_member key.now (table_view self.entry.table.now) ≢ None) }
    {
        let Some(value) = self.get(key) else {
            return Ok(Items::new(alloc));
        };
        match value.as_array() {
            Some(array) => texts(alloc, self, key, array),
            None => Err(self.unexpected_error(alloc, key, value, "an array of strings")),
        }
    }
}
