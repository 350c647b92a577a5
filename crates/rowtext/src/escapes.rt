//! The content of strings with escapes.

ghost use Rattle.std.specs.Prelude.{◌≡◌, ℕ, List, ◌<◌, ◌≤◌, ◌∷◌, [], length, take, drop, get_or, IfSome, OnOk, IsTrue, MatchOption};
ghost use Rattle.json.specs.Print.{escape_byte};
ghost use Rattle.rowtext.specs.inner.Escapes.{byte_of_letter, value_of_digit, unescape, IsPrintedText};

use crate::plain_front::plain_front;
use crate::strings::{digit, escape_letter};
use std::alloc::AllocError;

/// Where the quote stands behind the content of a string, where that is a text as it is printed.
pub fn printed_end(text: &str) -> Option<usize>
    ensures { IfSome result (λ end. (end < length text.now) × ((get_or text.now end 0 ≡ 34) × ((s : List ℕ) × IsPrintedText (take end text.now) s))) }
{
    let bytes = text.as_bytes();
    let mut at = 0;
    'bytes: loop {
        at += plain_front(&bytes[at..]);
        if at < bytes.len() && bytes[at] == b'"' {
            return Some(at);
        }
        at += escape_front(&bytes[at..])?;
    }
}

/// Replaces what a buffer holds by the bytes for which the content of a string stands.
pub fn unescape(content: &[u8], buffer: &mut Vec<u8>) -> Result<(), AllocError>
    ensures { OnOk result (buffer.new.items ≡ unescape content.now) }
{
    buffer.clear();
    let mut rest = content;
    'rest: loop {
        let count = plain_front(rest);
        buffer.extend_from_slice(&rest[..count])?;
        rest = &rest[count..];
        let Some((byte, used)) = byte_front(rest) else {
            return Ok(());
        };
        buffer.push(byte)?;
        rest = &rest[used..];
    }
}

/// The byte of a letter behind a backslash.
fn byte_of_letter(letter: u8) -> u8
    ensures { result ≡ byte_of_letter letter }
{
    match letter {
        b'b' => 8,
        b'f' => 12,
        b'n' => b'\n',
        b'r' => b'\r',
        b't' => b'\t',
        _ => letter,
    }
}

/// The value of a digit in lower case.
fn value_of_digit(digit: u8) -> u8
    ensures value { result ≡ value_of_digit digit }
    ensures small { result < 16 }
{
    if digit <= b'9' {
        digit.saturating_sub(b'0') % 16
    } else {
        digit.saturating_sub(b'a' - 10) % 16
    }
}

/// The byte for which the front of the content of a string stands, and how many bytes that has; none where nothing is
/// left of it.
fn byte_front(content: &[u8]) -> Option<(u8, usize)>
    ensures { MatchOption result (unescape content.now ≡ [])
        (λ p. (unescape content.now ≡ p.0 ∷ unescape (drop p.1 content.now)) × ((0 < p.1) × (p.1 ≤ length content.now))) }
{
    if content.is_empty() {
        return None;
    }
    if content[0] != b'\\' {
        return Some((content[0], 1));
    }
    if content.len() < 2 {
        return None;
    }
    if content[1] != b'u' {
        return Some((byte_of_letter(content[1]), 2));
    }
    if content.len() < 6 {
        return None;
    }
    Some((
        value_of_digit(content[4]) * 16 + value_of_digit(content[5]),
        6,
    ))
}

/// Whether this is the escape of a byte as it is printed.
fn is_escape_of(byte: u8, shown: &[u8]) -> bool
    ensures { IsTrue result → (byte < 128) × (shown.now ≡ escape_byte byte) }
{
    let letter = escape_letter(byte);
    if letter > 0 {
        return shown == [b'\\', letter].as_slice();
    }
    if byte < 32 {
        return shown == [b'\\', b'u', b'0', b'0', digit(byte / 16), digit(byte % 16)].as_slice();
    }
    false
}

/// How many bytes the escape at the front has, where it is one as it is printed.
fn escape_front(bytes: &[u8]) -> Option<usize>
    ensures { IfSome result (λ n. (0 < n) × ((n ≤ length bytes.now) × ((x : ℕ) × ((x < 128) × (take n bytes.now ≡ escape_byte x))))) }
{
    let (byte, used) = byte_front(bytes)?;
    if is_escape_of(byte, &bytes[..used]) {
        Some(used)
    } else {
        None
    }
}
