//! What is left of a line that is read.

ghost use Rattle.std.specs.Prelude.{◌≡◌, ◌≤◌, ◌⊎◌, ℕ, List, ◌∷◌, [], false, true, length, IfOk, IfSome, IsTrue, decimal};
ghost use Rattle.std.specs.Fmt.{signed_decimal};
ghost use Rattle.json.specs.Lex.{operator, class, operator_lexeme, begins_colon};
ghost use Rattle.json.specs.Print.{escape, quoted};
ghost use Rattle.json.specs.Word.{is_space, ends_word};
ghost use Rattle.rowtext.specs.inner.Escapes.{IsPrintedText, IsStringBefore};

use crate::escapes::printed_end;
use crate::integers::{natural_front, split_first};
use crate::pieces::{Piece, quoted_piece, text_piece};
use crate::plain_front::plain_front;
use crate::quoted_strings::{string_front, string_in};
use json::Scratch;
use std::alloc::AllocError;

/// A line, and how many of its bytes were read.
#[derive(Clone, Copy)]
pub struct Cursor<'t> {
    text: &'t str,
    at: usize,
    ghost within: { at ≤ length text.now },
}

/// Whether a byte is a blank between tokens.
#[inline(always)]
fn is_blank(byte: u8) -> bool
    ensures { result ≡ is_space byte }
{
    byte == b' ' || byte == b'\t' || byte == b'\n' || byte == b'\r'
}

/// Whether a byte ends a value.
#[inline(always)]
fn is_end(byte: u8) -> bool
    ensures { IsTrue result → (byte ≡ 44) ⊎ ((byte ≡ 125) ⊎ (byte ≡ 93)) }
{
    byte == b',' || byte == b'}' || byte == b']'
}

impl<'t> Cursor<'t> {
    ghost use Rattle.rowtext.specs.inner.Lines.{rest_of, lexemes_of, Takes, TakesText, EndsValue};
    ghost use Rattle.rowtext.specs.inner.Pieces.{IsTextRead, IsTextLexed};

    /// A line of which nothing was read.
    pub fn new(text: &'t str) -> Cursor<'t>
        ensures { rest_of result ≡ text.now }
    {
        Cursor { text, at: 0 }
    }

    /// What is left of it.
    #[inline(always)]
    fn rest(&self) -> &'t [u8]
        ensures { result.now ≡ rest_of self.now }
    {
        &self.text.as_bytes()[self.at..]
    }

    /// Whether nothing is left.
    pub fn is_over(&self) -> bool
        ensures { IsTrue result → rest_of self.now ≡ [] }
    {
        self.rest().is_empty()
    }

    /// Passes over these bytes, where they stand there.
    #[inline(always)]
    pub fn skip(&mut self, bytes: &[u8]) -> bool
        ensures taken { IsTrue result → Takes self.old self.new bytes.now }
        ensures unchanged { result ≡ false → rest_of self.new ≡ rest_of self.old }
    {
        if self.rest().starts_with(bytes) {
            self.at += bytes.len();
            true
        } else {
            false
        }
    }

    /// Passes over this byte, where it stands there.
    #[inline(always)]
    pub fn skip_byte(&mut self, byte: u8) -> bool
        ensures taken { IsTrue result → Takes self.old self.new (byte ∷ []) }
        ensures unchanged { result ≡ false → rest_of self.new ≡ rest_of self.old }
    {
        match self.rest().first() {
            Some(first) if *first == byte => {
                self.at += 1;
                true
            }
            _ => false,
        }
    }

    /// Passes over blanks.
    #[inline(always)]
    pub fn skip_blanks(&mut self)
        ensures { lexemes_of self.new ≡ lexemes_of self.old }
    {
        let bytes = self.text.as_bytes();
        let mut at = self.at;
        'blanks: while at < bytes.len() && is_blank(bytes[at]) {
            at += 1;
        }
        self.at = at;
    }

    /// Passes over these bytes, and the blanks after them, where they stand there.
    #[inline(always)]
    pub fn skip_text(&mut self, bytes: &[u8]) -> bool
        ensures taken { IsTrue result → TakesText self.old self.new bytes.now }
        ensures unchanged { result ≡ false → rest_of self.new ≡ rest_of self.old }
    {
        if self.skip(bytes) {
            self.skip_blanks();
            true
        } else {
            false
        }
    }

    /// Passes over a bracket, a comma or a colon, and the blanks after it.
    #[inline(always)]
    pub fn skip_mark(&mut self, mark: u8) -> bool
        requires { class mark ≡ operator }
        ensures taken { IsTrue result → lexemes_of self.old ≡ operator_lexeme mark ∷ lexemes_of self.new }
        ensures unchanged { result ≡ false → rest_of self.new ≡ rest_of self.old }
    {
        if self.skip_byte(mark) {
            self.skip_blanks();
            true
        } else {
            false
        }
    }

    /// Whether a comma or a closing bracket stands there.
    #[inline(always)]
    fn is_ended(&self) -> bool
        ensures { IsTrue result → (ends_word (rest_of self.now) ≡ true) × (begins_colon (lexemes_of self.now) ≡ false) }
    {
        match split_first(self.rest()) {
            Some((first, _later)) => is_end(first),
            None => false,
        }
    }

    /// Whether a blank stands there.
    #[inline(always)]
    fn is_spaced(&self) -> bool
        ensures { IsTrue result → ends_word (rest_of self.now) ≡ true }
    {
        match self.rest().first() {
            Some(first) => is_blank(*first),
            None => false,
        }
    }

    /// Passes over blanks after a value. Whether a comma or a closing bracket then stands there.
    #[inline(always)]
    pub fn end_value(&mut self) -> bool
        ensures { IsTrue result → EndsValue self.old self.new }
    {
        if self.is_spaced() {
            self.skip_blanks();
        }
        self.is_ended()
    }

    /// The number whose digits stand there.
    #[inline(always)]
    pub fn natural(&mut self) -> Option<u64>
        ensures { IfSome result (λ n. Takes self.old self.new (decimal n)) }
    {
        let (number, count) = natural_front(self.rest())?;
        self.at += count;
        Some(number)
    }

    /// The integer whose text stands there.
    #[inline(always)]
    pub fn integer(&mut self) -> Option<i64>
        ensures { IfSome result (λ z. Takes self.old self.new (signed_decimal z)) }
    {
        if self.skip_byte(b'-') {
            let number = self.natural()?;
            if number == 0 {
                return None;
            }
            i64::try_from(-i128::from(number)).ok()
        } else {
            i64::try_from(self.natural()?).ok()
        }
    }

    /// Whether a string stands there.
    #[inline(always)]
    pub fn is_string(&self) -> bool {
        self.rest().first() == Some(&b'"')
    }

    /// The string up to a quote, with no escape in it.
    #[inline(always)]
    fn content(&mut self) -> Option<&'t str>
        ensures { IfSome result (λ s. Takes self.old self.new s.now × (escape s.now ≡ s.now)) }
    {
        let count = plain_front(self.rest());
        let end = self.at + count;
        let content = self.text.get(self.at..end)?;
        self.at = end;
        Some(content)
    }

    /// The string that stands there in quotes, with no escape in it.
    #[inline(always)]
    pub fn string(&mut self) -> Option<&'t str>
        ensures { IfSome result (λ s. Takes self.old self.new (quoted s.now)) }
    {
        if !self.skip_byte(b'"') {
            return None;
        }
        let content = self.content()?;
        if self.skip_byte(b'"') {
            Some(content)
        } else {
            None
        }
    }

    /// The text whose string stands there, as it is printed.
    #[inline(always)]
    pub fn text(&mut self) -> Option<Piece<'t>>
        ensures { IfSome result (λ p. IsTextRead self.old self.new p) }
    {
        let start = *self;
        if let Some(plain) = self.string() {
            return Some(text_piece(plain));
        }
        *self = start;
        let content = self.escaped()?;
        Some(Piece::Escaped(content))
    }

    /// The content of the string that stands there in quotes, with escapes as they are printed.
    #[cold]
    #[inline(never)]
    fn escaped(&mut self) -> Option<&'t str>
        ensures { IfSome result (λ raw. (s : List ℕ) × (IsPrintedText raw.now s × Takes self.old self.new (quoted s))) }
    {
        if !self.skip_byte(b'"') {
            return None;
        }
        let rest = self.text.get(self.at..)?;
        let end = printed_end(rest)?;
        let content = rest.get(..end)?;
        self.text = rest.get(end..)?;
        self.at = 0;
        if self.skip_byte(b'"') {
            Some(content)
        } else {
            None
        }
    }

    /// The string that stands there, in its quotes, with escapes in any form.
    #[cold]
    #[inline(never)]
    pub fn quoted(&mut self) -> Option<&'t str>
        ensures { IfSome result (λ q. Takes self.old self.new q.now × IsStringBefore q.now (rest_of self.new)) }
    {
        let count = string_front(self.rest())?;
        let end = self.at + count;
        let quoted = self.text.get(self.at..end)?;
        self.at = end;
        Some(quoted)
    }

    /// The text whose string stands there, with escapes in any form. None where the string is none; the line is then
    /// read no further.
    #[inline(always)]
    pub fn text_in_any_form(
        &mut self,
        scratch: &mut Scratch,
    ) -> Result<Option<Piece<'t>>, AllocError>
        ensures { IfOk result (λ found. IfSome found (λ p. IsTextLexed self.old self.new p)) }
    {
        let start = *self;
        if let Some(plain) = self.string() {
            return Ok(Some(text_piece(plain)));
        }
        *self = start;
        self.lexed_text(scratch)
    }

    /// The text whose string stands there, by the lexer of JSON text.
    #[cold]
    #[inline(never)]
    fn lexed_text(&mut self, scratch: &mut Scratch) -> Result<Option<Piece<'t>>, AllocError>
        ensures { IfOk result (λ found. IfSome found (λ p. IsTextLexed self.old self.new p)) }
    {
        let Some(quoted) = self.quoted() else {
            return Ok(None);
        };
        match string_in(quoted, scratch)? {
            Some(text) => Ok(Some(quoted_piece(quoted, text))),
            None => Ok(None),
        }
    }
}
