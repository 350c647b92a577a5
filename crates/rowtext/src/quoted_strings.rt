//! Strings in quotes, with escapes in any form, which the lexer of JSON text reads.

ghost use Rattle.std.specs.Prelude.{◌≡◌, ◌≢◌, ◌<◌, ◌≤◌, drop, get_or, length, take, Some, None, IfOk, IfSome, MatchOption};
ghost use Rattle.json.specs.Lex.{in_string, lex};
ghost use Rattle.rowtext.specs.inner.Escapes.{string_in, IsStringBefore};

use crate::integers::split_first;
use json::{Reader, Scratch, Token};
use std::alloc::AllocError;

/// Where a string goes on after the byte there, which is no quote: after two bytes where it is a backslash.
#[inline(always)]
#[tactic(auto, using(crate::proofs::Lexing::escape_passed, crate::proofs::Lexing::byte_passed))]
fn after_byte(bytes: &[u8], at: usize) -> usize
    requires there { at < length bytes.now }
    requires inside { get_or bytes.now at 0 ≢ 34 }
    ensures later { at < result }
    ensures same { lex in_string (drop at bytes.now) ≡ lex in_string (drop result bytes.now) }
{
    if bytes[at] == b'\\' { at + 2 } else { at + 1 }
}

/// How many bytes the string at the front has with its quotes, if one stands there.
pub fn string_front(bytes: &[u8]) -> Option<usize>
    ensures { IfSome result (λ n. (n ≤ length bytes.now) × IsStringBefore (take n bytes.now) (drop n bytes.now)) }
{
    let (first, _content) = split_first(bytes)?;
    if first != b'"' {
        return None;
    }
    let mut at = 1;
    while at < bytes.len() {
        if bytes[at] == b'"' {
            return Some(at + 1);
        }
        at = after_byte(bytes, at);
    }
    None
}

/// The string that stands at the front of a text in quotes, if one does.
pub fn string_in<'a>(text: &'a str, scratch: &'a mut Scratch) -> Result<Option<&'a str>, AllocError>
    ensures { IfOk result (λ found. MatchOption found (string_in text.now ≡ None) (λ s. string_in text.now ≡ Some s.now)) }
{
    let mut tokens = Reader::new(text, scratch)?;
    match tokens.next() {
        Some(Token::String(string)) => Ok(Some(string)),
        _ => Ok(None),
    }
}
