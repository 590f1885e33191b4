//! The places in a policy file at which it is refused: lines and columns, from 1 on. A column counts characters.

ghost use Rattle.rustsec_values.specs.Failure.{IsMemory, IsOfKind};

use crate::refused::Refused;
use rustsec_toml::TablePlace;
use rustsec_values::{Error, with_place};
use std::alloc::{AllocError, Global};

/// Returns the name of a table without its brackets, or `None` for the table of the whole document.
fn bare_name(table: &str) -> Option<&str> {
    table.strip_prefix('[')?.strip_suffix(']')
}

/// Returns the place of a key of a table in words.
fn words_at(alloc: Global, table: TablePlace<'_>, key: &str) -> Result<String, AllocError> {
    table.place_of_key(alloc, key)?.in_words(alloc)
}

/// Returns the place of what is refused in words: of a key, of an element of the array there, or of a key of that element.
/// It is the place of the table around it if that one is not found.
fn words_of(alloc: Global, text: &str, refused: &Refused<'_>) -> Result<String, AllocError> {
    let file = TablePlace::whole(text);
    let Some(name) = bare_name(refused.table) else {
        return words_at(alloc, file, refused.key);
    };
    let (table, entries) = ([name], [name, refused.key]);
    if let Some(inner) = refused.inner {
        let mut entry = file.at(&entries);
        entry.index = refused.entry?;
        return words_at(alloc, entry, inner);
    }
    let mut section = file.at(&table);
    section.element = refused.entry?;
    words_at(alloc, section, refused.key)
}

/// Returns the error of a refused document, with the place of the refused key before its message.
pub(crate) fn document_error(alloc: Global, text: &str, refused: Refused<'_>) -> Error
    ensures kind { IsOfKind refused.entry.error.kind result }
    ensures memory { IsMemory refused.entry.error → IsMemory result }
{
    match words_of(alloc, text, &refused) {
        Ok(words) => with_place(alloc, &words, &refused.error),
        Err(refused) => Error::from(refused),
    }
}
