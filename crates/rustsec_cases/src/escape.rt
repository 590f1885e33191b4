//! The escapes in the contents of a section.

use anyhow::{Result, bail};

/// What the next byte belongs to.
#[derive(Clone, Copy)]
pub enum State {
    Plain,
    /// The byte after a backslash.
    Escape,
    /// The first digit of a byte by its number.
    High,
    /// The second digit, after the first one.
    Low(u8),
}

/// Returns the value of a hexadecimal digit.
fn digit(byte: u8) -> Result<u8> {
    match byte {
        b'0'..=b'9' => Ok(byte.wrapping_sub(b'0')),
        b'a'..=b'f' => Ok(byte.wrapping_sub(b'a').wrapping_add(10)),
        _ => bail!("`\\x` has another byte than two digits from 0 to 9 and a to f"),
    }
}

/// Reads the byte after a backslash, and returns the state after it.
fn after_backslash(bytes: &mut Vec<u8>, byte: u8) -> Result<State> {
    match byte {
        b'\n' => return Ok(State::Plain),
        b'x' => return Ok(State::High),
        b'\\' => bytes.push(b'\\')?,
        b'r' => bytes.push(b'\r')?,
        b't' => bytes.push(b'\t')?,
        _ => bail!("an unknown escape"),
    }
    Ok(State::Plain)
}

/// Reads a byte of escaped contents, and returns the state after it.
pub fn read(bytes: &mut Vec<u8>, state: State, byte: u8) -> Result<State> {
    match state {
        State::Plain if byte == b'\\' => Ok(State::Escape),
        State::Plain => {
            bytes.push(byte)?;
            Ok(State::Plain)
        }
        State::Escape => after_backslash(bytes, byte),
        State::High => Ok(State::Low(digit(byte)?)),
        State::Low(high) => {
            let low = digit(byte)?;
            bytes.push(high.wrapping_mul(16).wrapping_add(low))?;
            Ok(State::Plain)
        }
    }
}
