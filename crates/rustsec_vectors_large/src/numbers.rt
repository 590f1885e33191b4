//! The sizes of large inputs, and texts that are made from numbers.

use std::alloc::Global;
use std::test::Fail;

/// How many requirements a list has.
pub(crate) const REQUIREMENTS: u32 = 300;

/// How many packages a lockfile has, advisories a database, and functions an advisory.
pub(crate) const COUNT: u32 = 10000;

pub(crate) const MANY: usize = COUNT as usize;

/// How many bytes a long description has, and a long text.
pub(crate) const MEGABYTE: usize = 1 << 20;

pub(crate) const LONG: usize = 65536;

/// Returns a template with a number at each `$`, the next one at each `$+`, and the one before it at each `$-`.
pub(crate) fn filled(alloc: Global, template: &str, number: u32) -> Result<String, Fail> {
    let own = format!(in alloc; "{number}")?;
    let next = format!(in alloc; "{}", number.saturating_add(1))?;
    let before = format!(in alloc; "{}", number.saturating_sub(1))?;
    let text = template.replace(alloc, "$+", &next)?;
    let text = text.replace(alloc, "$-", &before)?;
    Ok(text.replace(alloc, "$", &own)?)
}

/// Some numbers: the first one, how much greater the next one is each time, and how many there are.
pub(crate) type Numbers = (u32, u32, u32);

/// Returns a template for each of some numbers, in order.
pub(crate) fn numbered_by(alloc: Global, numbers: Numbers, template: &str) -> Result<String, Fail> {
    let (mut number, step, count) = numbers;
    let mut text = String::new(alloc);
    for _ in 0..count {
        text.push_str(&filled(alloc, template, number)?)?;
        number = number.saturating_add(step);
    }
    Ok(text)
}

/// Returns a template for each number from 1 to a count, in order.
pub(crate) fn numbered(alloc: Global, count: u32, template: &str) -> Result<String, Fail> {
    numbered_by(alloc, (1, 1, count), template)
}

/// Returns a text and a filler after it, as often as a long text has bytes.
pub(crate) fn long(alloc: Global, front: &str, filler: &str) -> Result<String, Fail> {
    let end = filler.repeat(alloc, LONG)?;
    Ok(format!(in alloc; "{front}{end}")?)
}

/// Returns how often a text contains another one.
pub(crate) fn occurrences(text: &str, part: &str) -> usize {
    text.matches(part).count()
}
