//! Times of RFC 3339, section 5.6, in UTC.

ghost use Rattle.std.specs.Prelude.{◌≡◌, ◌+◌, ◌<◌, ◌≤◌, ◌&&◌, drop, length};
ghost use Rattle.std.specs.Char.{is_ascii_digit};
ghost use Rattle.std.specs.Cmp.Lexicographic.{pointwise};
ghost use Rattle.std.specs.List.{list_all};
ghost use Rattle.std.specs.Str.{bytes_eq};
ghost use Rattle.rustsec_osv_rules.specs.schema.TimeScan.{fits, has_leap_second, has_moment, has_real_day, has_usual_time, is_fraction, is_time, is_zone, two_digits, year_of};
ghost use Rattle.rustsec_texts.specs.Dates.{days_in_month, is_leap_year, is_real_day};

/// The shape of a time before its zone; 0 is any digit.
const SHAPE: &str = "0000-00-00T00:00:00";

/// Returns whether bytes are those of a text.
fn is_same(bytes: &[u8], text: &str) -> bool
    ensures { result ≡ bytes_eq bytes.now text.now }
{
    bytes == text.as_bytes()
}

/// Returns whether a byte is what a shape has there, in which 0 means any digit.
fn fits(shape: u8, b: u8) -> bool
    ensures { result ≡ fits shape b }
{
    if shape == b'0' {
        b.is_ascii_digit()
    } else {
        b == shape
    }
}

/// Returns whether each byte of a text is what a shape of the same length has there.
fn has_shape(shape: &[u8], text: &[u8]) -> bool
    requires { length shape.now ≡ length text.now }
    ensures { result ≡ pointwise fits shape.now text.now }
{
    for i in 0..shape.len() {
        if !fits(shape[i], text[i]) {
            return false;
        }
    }
    true
}

/// Returns whether each byte is a digit.
fn are_digits(bytes: &[u8]) -> bool
    ensures { result ≡ list_all is_ascii_digit bytes.now }
{
    bytes.iter().all(|b| b.is_ascii_digit())
}

/// Returns the number of the two digits at an index.
fn two_digits(text: &[u8], i: usize) -> u32
    requires { i + 1 < length text.now }
    ensures value { result ≡ two_digits text.now i }
    ensures bound { result ≤ 4000 }
{
    10 * u32::from(text[i].saturating_sub(b'0')) + u32::from(text[i + 1].saturating_sub(b'0'))
}

/// Returns the year at the beginning of a text.
fn year_of(text: &[u8]) -> u32
    requires { 3 < length text.now }
    ensures { result ≡ year_of text.now }
{
    100 * two_digits(text, 0) + two_digits(text, 2)
}

/// Returns whether a year is a leap year.
fn is_leap_year(year: u32) -> bool
    ensures { result ≡ is_leap_year year }
{
    year % 4 == 0 && (year % 100 != 0 || year % 400 == 0)
}

/// Returns the number of days of a month.
fn days_in_month(year: u32, month: u32) -> u32
    ensures { result ≡ days_in_month year month }
{
    if month == 2 {
        if is_leap_year(year) { 29 } else { 28 }
    } else if month == 4 || month == 6 || month == 9 || month == 11 {
        30
    } else {
        31
    }
}

/// Returns whether the day of a time exists in the Gregorian calendar.
fn has_real_day(text: &[u8]) -> bool
    requires { 18 < length text.now }
    ensures { result ≡ has_real_day text.now }
{
    let (month, day) = (two_digits(text, 5), two_digits(text, 8));
    (1 <= month && month <= 12) && (1 <= day && day <= days_in_month(year_of(text), month))
}

/// Returns whether a time has an hour, a minute and a second of a day.
fn has_usual_time(text: &[u8]) -> bool
    requires { 18 < length text.now }
    ensures { result ≡ has_usual_time text.now }
{
    two_digits(text, 11) <= 23 && two_digits(text, 14) <= 59 && two_digits(text, 17) <= 59
}

/// Returns whether a time is a leap second at the end of a month.
fn has_leap_second(text: &[u8]) -> bool
    requires { 18 < length text.now }
    ensures { result ≡ has_leap_second text.now }
{
    is_same(&text[11..19], "23:59:60")
        && two_digits(text, 8) == days_in_month(year_of(text), two_digits(text, 5))
}

/// Returns whether a text is a point, digits and Z.
fn is_fraction(rest: &[u8]) -> bool
    ensures { result ≡ is_fraction rest.now }
{
    let n = rest.len();
    n > 2 && rest[0] == b'.' && rest[n - 1] == b'Z' && are_digits(&rest[1..n - 1])
}

/// Returns whether a text is Z, after a fraction of a second, if any.
fn is_zone(rest: &[u8]) -> bool
    ensures { result ≡ is_zone rest.now }
{
    is_same(rest, "Z") || is_fraction(rest)
}

/// Returns whether a text has a day and a time of it.
fn has_moment(text: &[u8]) -> bool
    requires { 18 < length text.now }
    ensures { result ≡ has_moment text.now }
{
    has_real_day(text) && (has_usual_time(text) || has_leap_second(text))
}

/// Returns whether a text has a day, a time of it and the zone.
fn has_time_parts(text: &[u8]) -> bool
    requires { 18 < length text.now }
    ensures { result ≡ (has_moment text.now && is_zone (drop 19 text.now)) }
{
    has_moment(text) && is_zone(&text[19..])
}

/// Returns whether a text is a time in UTC.
pub(crate) fn is_time(text: &str) -> bool
    ensures { result ≡ is_time text.now }
{
    let text = text.as_bytes();
    if text.len() < 19 {
        return false;
    }
    has_shape(SHAPE.as_bytes(), &text[..19]) && has_time_parts(text)
}
