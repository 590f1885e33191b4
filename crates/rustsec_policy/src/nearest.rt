//! The known word that is nearest to an unknown one, for messages.

ghost use Rattle.std.specs.Prelude.{◌≡◌, ◌<◌, IfOk, OnErr, length, map, option_map};
ghost use Rattle.rustsec_values.specs.Failure.{IsMemory, IsOfKind};
ghost use Rattle.rustsec_policy.specs.Nearest.{first_at, nearest};

use rustsec_values::{ClosedEnum, Error, ErrorKind, beginning_of};
use std::alloc::{AllocError, Global};
use strsim::osa_distance;

/// Returns the first word at a distance from a text.
fn first_at<'a>(
    alloc: Global,
    words: &[&'a str],
    text: &str,
    steps: usize,
) -> Result<Option<&'a str>, AllocError>
    ensures ok { IfOk result (λ word. option_map (λ w. w.now) word ≡ first_at steps text.now (map (λ w. w.now) words.now)) }
    ensures none { OnErr result (0 < length words.now) }
{
    for word in words {
        if osa_distance(alloc, text, word)? == steps {
            return Ok(Some(word));
        }
    }
    Ok(None)
}

/// Returns the word of a list that is nearest to another text: the first at distance one, else the first at distance
/// two, or `None` if no word is as near. The distance is the number of edits of one character, where an exchange of
/// two neighbours counts as one edit.
///
/// # Errors
///
/// Out of memory.
pub fn nearest_word<'a>(
    alloc: Global,
    words: &[&'a str],
    text: &str,
) -> Result<Option<&'a str>, AllocError>
    ensures ok { IfOk result (λ word. option_map (λ w. w.now) word ≡ nearest text.now (map (λ w. w.now) words.now)) }

    // An empty list takes no memory.
    ensures none { OnErr result (0 < length words.now) }
{
    match first_at(alloc, words, text, 1)? {
        Some(word) => Ok(Some(word)),
        None => first_at(alloc, words, text, 2),
    }
}

/// Returns an error whose message also asks whether a word is meant. Out of memory stays as it is.
pub(crate) fn with_question(alloc: Global, error: &Error, word: &str) -> Error
    ensures kind { IsOfKind error.now.kind result }
    ensures memory { IsMemory error.now → IsMemory result }
{
    if error.kind() == ErrorKind::OutOfMemory {
        return Error::from(AllocError);
    }
    let message = error.message();
    match format!(in alloc; "{message}; did you mean `{word}`?") {
        Ok(message) => Error::new(alloc, error.kind(), &message),
        Err(refused) => Error::from(refused),
    }
}

/// Adds the nearest of some words after the message of an error about an unknown word, if one is near.
pub(crate) fn with_nearest(alloc: Global, error: Error, words: &[&str], unknown: &str) -> Error
    ensures kind { IsOfKind error.kind result }
    ensures memory { IsMemory error → IsMemory result }
{
    match nearest_word(alloc, words, beginning_of(unknown, 60)) {
        Ok(Some(word)) => with_question(alloc, &error, word),
        Ok(None) => error,
        Err(refused) => Error::from(refused),
    }
}

/// Returns the names of all values of a type, in order.
fn names<T: ClosedEnum>(alloc: Global) -> Result<Vec<&'static str>, AllocError> {
    let mut names = Vec::new(alloc);
    for value in T::all() {
        names.push(value.name())?;
    }
    Ok(names)
}

/// Adds the nearest name of a type after the message of an error about an unknown name, if one is near.
pub(crate) fn with_nearest_name<T: ClosedEnum>(alloc: Global, error: Error, unknown: &str) -> Error
    ensures kind { IsOfKind error.kind result }
    ensures memory { IsMemory error → IsMemory result }
{
    match names::<T>(alloc) {
        Ok(names) => with_nearest(alloc, error, names.as_slice(), unknown),
        Err(refused) => Error::from(refused),
    }
}
