//! The call `Entries::load_text`, and what it leaves.

use crate::files::{advisory, text_of};
use crate::window::{closes, opens, refusal};
use rustsec_database::{Entries, Slot};
use rustsec_texts::Id;
use rustsec_values::Result;
use std::alloc::Global;

/// Returns the IDs of the stored advisories, in order, and the result of the look-up of an ID.
fn state(alloc: Global, entries: &Entries, id: &Id) -> Result<String> {
    let mut text = String::new(alloc);
    for advisory in entries.iter() {
        write!(text, "{} ", advisory.id())?;
    }
    match entries.find_by_id(id) {
        Some(advisory) => write!(text, "found {}", advisory.id())?,
        None => text.push_str("found none")?,
    }
    Ok(text)
}

/// Writes the state of entries.
fn write_state(rt: &HostRuntime, word: &str, entries: &Entries, id: &Id) -> Result<()> {
    let text = state(rt.alloc(), entries, id)?;
    let _ = println!(rt; "{word} {text}");
    Ok(())
}

/// Writes an answer.
fn write_answer(rt: &HostRuntime, word: &str, answer: &Result<Option<Slot>>) -> Result<()> {
    let text = match answer {
        Ok(slot) => format!(in rt.alloc(); "{slot:?}")?,
        Err(e) => refusal(rt.alloc(), e)?,
    };
    let _ = println!(rt; "{word} {text}");
    Ok(())
}

/// Stores the advisory of a file with this ID, and then once more.
fn store_twice(
    rt: &HostRuntime,
    entries: &mut Entries,
    id: &Id,
    path: &str,
    text: &str,
) -> Result<()> {
    write_state(rt, "before", entries, id)?;
    opens(rt);
    let answer = entries.load_text(rt.alloc(), path, text);
    closes(rt);
    write_answer(rt, "answer", &answer)?;
    write_state(rt, "left", entries, id)?;
    let again = entries.load_text(rt.alloc(), path, text);
    write_answer(rt, "again", &again)?;
    write_state(rt, "stored", entries, id)
}

/// Returns entries with the advisory of one file.
fn one_stored(rt: &HostRuntime, path: &str) -> Result<Entries> {
    let text = text_of(rt, path)?;
    let mut entries = Entries::new(rt.alloc());
    let _slot = entries.load_text(rt.alloc(), path, &text)?;
    Ok(entries)
}

/// Stores the advisory of a file after another, and then once more.
pub fn write_load_text(rt: &HostRuntime, stored: &str, new: &str) -> Result<()> {
    let advisory = advisory(rt, new)?;
    let text = text_of(rt, new)?;
    let mut entries = one_stored(rt, stored)?;
    store_twice(rt, &mut entries, advisory.id(), new, &text)
}
