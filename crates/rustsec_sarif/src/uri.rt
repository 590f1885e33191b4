//! Writes paths and addresses as references (RFC 3986).

ghost use Rattle.std.specs.Prelude.{◌≡◌, ◌<◌, ◌++◌, ◌∷◌, [], IfOk, OnOk, string_bytes, true};
ghost use Rattle.std.specs.Fmt.{digit_glyph};
ghost use Rattle.rustsec_sarif.specs.SarifWords.{address_uri, is_address_byte, is_one_of, is_path_byte, path_uri, uri_byte};

use std::alloc::{AllocError, Global};

/// Returns whether a byte of ASCII is a letter, a digit or one of these.
fn is_one_of(others: &[u8], byte: u8) -> bool
    ensures value { result ≡ is_one_of others.now byte }
    ensures ascii { result ≡ true → byte < 128 }
{
    byte.is_ascii() && (byte.is_ascii_alphanumeric() || others.contains(&byte))
}

/// Returns whether the path of a reference holds a byte as it is.
fn is_path_byte(byte: u8) -> bool
    ensures value { result ≡ is_path_byte byte }
    ensures ascii { result ≡ true → byte < 128 }
{
    is_one_of(b"-._~/", byte)
}

/// Returns whether an address holds a byte as it is.
fn is_address_byte(byte: u8) -> bool
    ensures value { result ≡ is_address_byte byte }
    ensures ascii { result ≡ true → byte < 128 }
{
    is_one_of(b"-._~:/?#[]@!$&'()*+,;=%", byte)
}

/// Returns the hexadecimal digit of a value, in upper case.
fn hexadecimal(value: u8) -> u8
    requires { value < 16 }
    ensures value { result ≡ digit_glyph true value }
    ensures ascii { result < 128 }
{
    if value < 10 {
        b'0' + value
    } else {
        b'A' + (value - 10)
    }
}

/// Appends a character of ASCII.
fn push_ascii(text: &mut String, byte: u8) -> Result<(), AllocError>
    requires { byte < 128 }
    ensures { OnOk result (string_bytes text.new ≡ string_bytes text.old ++ byte ∷ []) }
{
    text.push(char::from(byte))
}

/// Appends a byte: as it is, or as a percent sign and two hexadecimal digits.
#[tactic(auto, unfolding(crate::specs::SarifWords::uri_byte))]
fn push_byte(text: &mut String, is_kept: bool, byte: u8) -> Result<(), AllocError>
    requires { is_kept ≡ true → byte < 128 }
    ensures { OnOk result (string_bytes text.new ≡ string_bytes text.old ++ uri_byte is_kept byte) }
{
    if is_kept {
        return push_ascii(text, byte);
    }
    text.push_str("%")?;
    push_ascii(text, hexadecimal(byte / 16))?;
    push_ascii(text, hexadecimal(byte % 16))
}

/// Returns a path as a reference.
pub(crate) fn path_uri(alloc: Global, path: &str) -> Result<String, AllocError>
    ensures { IfOk result (λ t. string_bytes t ≡ path_uri path.now) }
{
    let mut text = String::new(alloc);
    for byte in path.as_bytes() {
        push_byte(&mut text, is_path_byte(*byte), *byte)?;
    }
    Ok(text)
}

/// Returns an address as RFC 3986 has it.
pub(crate) fn address_uri(alloc: Global, address: &str) -> Result<String, AllocError>
    ensures { IfOk result (λ t. string_bytes t ≡ address_uri address.now) }
{
    let mut text = String::new(alloc);
    for byte in address.as_bytes() {
        push_byte(&mut text, is_address_byte(*byte), *byte)?;
    }
    Ok(text)
}
