//! Numbers inside texts, and texts with three parts.

ghost use Rattle.std.specs.Prelude.{◌≡◌, ◌<◌, ◌^◌, IfSome, option_map};
ghost use Rattle.std.specs.Char.{is_ascii_digit};
ghost use Rattle.std.specs.List.{list_all};
ghost use Rattle.rustsec_texts.specs.Numbers.{digits_of, number_of, three_parts};

/// Parses a number of 32 bits: an optional plus, then digits.
pub(crate) fn number(text: &str) -> Option<u32>
    ensures { result ≡ number_of text.now }
{
    text.parse().ok()
}

/// Returns whether each byte is a digit.
fn are_digits(bytes: &[u8]) -> bool
    ensures { result ≡ list_all is_ascii_digit bytes.now }
{
    bytes.iter().all(|b| b.is_ascii_digit())
}

/// Parses a number that is written with exactly `count` digits.
pub(crate) fn digits(text: &str, count: usize) -> Option<u32>
    ensures value { result ≡ digits_of count text.now }
    ensures bound { IfSome result (λ n. n < 10 ^ count) }
{
    if text.len() != count || !are_digits(text.as_bytes()) {
        return None;
    }
    number(text)
}

/// Returns the parts of a text between its dashes, if there are three.
pub(crate) fn three_parts(text: &str) -> Option<(&str, &str, &str)>
    ensures { option_map (λ p. (p.0.now, p.1.now, p.2.now)) result ≡ three_parts text.now }
{
    let (first, rest) = text.split_once('-')?;
    let (second, third) = rest.split_once('-')?;
    if third.contains('-') {
        return None;
    }
    Some((first, second, third))
}
