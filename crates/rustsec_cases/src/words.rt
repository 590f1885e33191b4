//! The line of a case that has the words of the command.

use crate::escape;
use anyhow::{Result, bail};
use std::alloc::{AllocError, Global};
use std::mem;

/// What the next byte belongs to.
#[derive(Clone, Copy)]
enum State {
    /// A blank, after which a word begins.
    Blank,
    /// The beginning of a word.
    Start,
    /// A word without quotes.
    Plain,
    /// A word between quotes, with escapes.
    Quoted(escape::State),
}

/// The words that were read, the one that is being read, and where the reading is.
#[derive(Drop)]
struct Reader {
    words: Vec<String>,
    word: Vec<u8>,
    state: State,
}

/// Returns the text of bytes.
fn text_of(bytes: Vec<u8>) -> Result<String> {
    match String::from_utf8(bytes) {
        Ok(text) => Ok(text),
        Err(_) => bail!("a word is not UTF-8"),
    }
}

impl Reader {
    /// Ends the word, and goes on in a state.
    fn end(&mut self, alloc: Global, state: State) -> Result<()> {
        let word = text_of(mem::replace(&mut self.word, Vec::new(alloc)))?;
        self.words.push(word).map_err(AllocError::from)?;
        self.state = state;
        Ok(())
    }

    /// Reads a byte.
    fn read(&mut self, alloc: Global, byte: u8) -> Result<()> {
        match (self.state, byte) {
            (State::Blank, b' ') => self.state = State::Start,
            (State::Start, b'"') => self.state = State::Quoted(escape::State::Plain),
            (State::Blank, _) | (State::Start, b' ') => {
                bail!("the words are not separated by one blank")
            }
            (State::Plain, b' ') => self.end(alloc, State::Start)?,
            (State::Start | State::Plain, _) => {
                self.word.push(byte)?;
                self.state = State::Plain;
            }
            (State::Quoted(escape::State::Plain), b'"') => self.end(alloc, State::Blank)?,
            (State::Quoted(state), _) => {
                self.state = State::Quoted(escape::read(&mut self.word, state, byte)?);
            }
        }
        Ok(())
    }
}

/// Returns the words of a line after `$`: each begins after one blank.
pub fn words_of(alloc: Global, line: &str) -> Result<Vec<String>> {
    let mut reader = Reader {
        words: Vec::new(alloc),
        word: Vec::new(alloc),
        state: State::Blank,
    };
    for byte in line.as_bytes() {
        reader.read(alloc, *byte)?;
    }
    match reader.state {
        State::Blank => Ok(reader.words),
        State::Plain => {
            reader.end(alloc, State::Blank)?;
            Ok(reader.words)
        }
        _ => bail!("a word is missing or has no closing quote"),
    }
}
