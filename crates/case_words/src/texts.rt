//! What is printed: bytes, and lists of numbers and values, in the form in which cases give them.

use bits::{R, Refusal};
use std::alloc::Global;
use std::fmt::Display;

/// The fewest items in a row that are printed by a rule.
const FEWEST: usize = 4;

/// The fewest equal bytes in a row that are printed by a rule.
const FEWEST_BYTES: usize = 16;

/// How many items at the front are equal.
fn equal_ones<T: PartialEq>(items: &[T]) -> usize {
    let Some(first) = items.first() else {
        return 0;
    };
    let mut count: usize = 0;
    for item in items {
        if item != first {
            break;
        }
        count = count.saturating_add(1);
    }
    count
}

/// Bytes as they are printed.
pub fn hexed(alloc: Global, bytes: &[u8]) -> R<String> {
    let mut text = String::new(alloc);
    let mut at: usize = 0;
    let mut after_rule = false;
    for _ in 0..bytes.len() {
        let rest = bytes.get(at..).unwrap_or(&[]);
        let Some(first) = rest.first() else {
            break;
        };
        let count = equal_ones(rest);
        let is_rule = count >= FEWEST_BYTES;
        if !text.is_empty() && (is_rule || after_rule) {
            text.push('.')?;
        }
        let digits = hex::encode(alloc, &[*first])?;
        text.push_str(digits.as_str())?;
        if is_rule {
            let times = format!(in alloc; "*{count}")?;
            text.push_str(times.as_str())?;
        }
        at = at.saturating_add(if is_rule { count } else { 1 });
        after_rule = is_rule;
    }
    if bytes.is_empty() {
        text.push('-')?;
    }
    Ok(text)
}

/// What a call has written after the byte 7 that was there: the bytes, or its refusal.
pub fn written(alloc: Global, out: &[u8], done: R<()>) -> R<String> {
    match (done, out.split_first()) {
        (Ok(()), Some((7, rest))) => hexed(alloc, rest),
        (Err(refusal), Some((7, []))) => Err(refusal),
        _ => Ok(String::from_str(alloc, "not what was there")?),
    }
}

/// A buffer in which the byte 7 stands.
pub fn begun(alloc: Global) -> R<Vec<u8>> {
    let mut out = Vec::new(alloc);
    out.push(7)?;
    Ok(out)
}

/// How many items at the front are numbers, each one more than the one before; and what comes after the last.
fn rising_ones(items: &[String]) -> (usize, i64) {
    let mut count: usize = 0;
    let mut next = None;
    let mut end = 0;
    for item in items {
        let Ok(number) = item.as_str().parse::<i64>() else {
            break;
        };
        if next.is_some_and(|wanted| wanted != number) {
            break;
        }
        let Some(after) = number.checked_add(1) else {
            break;
        };
        next = Some(after);
        end = after;
        count = count.saturating_add(1);
    }
    (count, end)
}

/// The items, each after a space; four or more equal ones, and numbers that rise by one, by a rule.
pub fn listed(alloc: Global, items: &[String]) -> R<String> {
    let mut text = String::new(alloc);
    let mut at: usize = 0;
    for _ in 0..items.len() {
        let rest = items.get(at..).unwrap_or(&[]);
        let Some(first) = rest.first() else {
            break;
        };
        let first = first.as_str();
        let same = equal_ones(rest);
        let (rising, end) = rising_ones(rest);
        let (item, count) = if same >= FEWEST {
            (format!(in alloc; " {same}*{first}")?, same)
        } else if rising >= FEWEST {
            (format!(in alloc; " {first}..{end}")?, rising)
        } else {
            (format!(in alloc; " {first}")?, 1)
        };
        text.push_str(item.as_str())?;
        at = at.saturating_add(count);
    }
    Ok(text)
}

/// Numbers as they are printed.
pub fn shown_numbers<T: Display>(alloc: Global, numbers: &[T]) -> R<String> {
    let mut items = Vec::new(alloc);
    for number in numbers {
        items.push(format!(in alloc; "{number}")?)?;
    }
    listed(alloc, items.as_slice())
}

/// Whether a byte string is printed as text.
fn is_plain_text(bytes: &[u8]) -> bool {
    !bytes.is_empty()
        && bytes.iter().all(|byte| byte.is_ascii_alphanumeric()
            || matches!(*byte, b'-' | b'_' | b':' | b'/'))
}

/// A byte string: `'` and its text where that is plain, and otherwise `x` and hexadecimal digits.
pub fn shown_bytes(alloc: Global, bytes: &[u8]) -> R<String> {
    if is_plain_text(bytes) {
        if let Ok(text) = std::str::from_utf8(bytes) {
            return Ok(format!(in alloc; "'{text}")?);
        }
    }
    let digits = if bytes.is_empty() {
        String::new(alloc)
    } else {
        hexed(alloc, bytes)?
    };
    Ok(format!(in alloc; "x{digits}")?)
}

/// Bytes that may be missing.
pub fn hexed_option(alloc: Global, bytes: &Option<Vec<u8>>) -> R<String> {
    match bytes {
        Some(bytes) => hexed(alloc, bytes.as_slice()),
        None => Ok(String::from_str(alloc, "none")?),
    }
}

/// `yes` or `no`.
pub fn yes_or_no(alloc: Global, holds: bool) -> R<String> {
    Ok(String::from_str(alloc, if holds { "yes" } else { "no" })?)
}

/// The first text, where the second is the same.
pub fn agreed(alloc: Global, text: String, other: String) -> R<String> {
    if text.as_str() == other.as_str() {
        return Ok(text);
    }
    Ok(format!(in alloc; "{text} but {other}")?)
}

/// The text of one call, where the other call gives the same: two texts or two refusals.
pub fn both(alloc: Global, one: R<String>, other: R<String>) -> R<String> {
    match (one, other) {
        (Ok(one), Ok(other)) => agreed(alloc, one, other),
        (Err(one), Err(other)) => {
            let text = format!(in alloc; "{one}")?;
            let again = format!(in alloc; "{other}")?;
            if text.as_str() == again.as_str() {
                return Err(one);
            }
            agreed(alloc, text, again)
        }
        (Ok(one), Err(_other)) => Ok(format!(in alloc; "{one} but one is refused")?),
        (Err(_one), Ok(other)) => Ok(format!(in alloc; "{other} but one is refused")?),
    }
}

/// Texts with a space between them; `none` if there are none.
pub fn joined(alloc: Global, texts: &[String]) -> R<String> {
    joined_by(alloc, texts, " ", "none")
}

/// Texts with a mark between them; another text if there are none.
pub fn joined_by(alloc: Global, texts: &[String], mark: &str, nothing: &str) -> R<String> {
    let mut all = String::new(alloc);
    for text in texts {
        if !all.is_empty() {
            all.push_str(mark)?;
        }
        all.push_str(text.as_str())?;
    }
    if all.is_empty() {
        all.push_str(nothing)?;
    }
    Ok(all)
}

/// The outcome of a line: its text, or its refusal.
pub fn or_refused(alloc: Global, outcome: R<String>) -> R<String> {
    match outcome {
        Ok(text) => Ok(text),
        Err(refusal) => Ok(format!(in alloc; "refused {refusal}")?),
    }
}
