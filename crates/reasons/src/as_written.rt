//! Numbers as they are written.
//!
//! A JSON reader makes `1e3` and `1000.0` one number. To show what is written, each number that is no integer of 64 bits is
//! made a text that begins with a mark, before the text is read.

use bits::R;
use serde_json::Value as Json;
use std::alloc::Global;

/// What such a text begins with.
const MARK: &str = "\u{0}as written: ";

/// The mark as JSON, after the quotation mark that begins the text.
const MARK_AS_JSON: &str = "\"\\u0000as written: ";

/// What no text may have that is rewritten, since a text of its own could then be taken for a number.
const MARK_IN_TEXT: &str = "as written: ";

/// What is read of a text: how much of it is rewritten so far.
#[derive(Drop)]
struct Rewriting {
    alloc: Global,
    text: String,
    /// The number that is read, if one is.
    number: String,
    is_in_string: bool,
    is_after_backslash: bool,
}

impl Rewriting {
    /// Takes the next character.
    fn put(&mut self, character: char) -> R<()> {
        if self.is_in_string {
            return self.put_in_string(character);
        }
        if is_of_number(character, self.number.is_empty()) {
            return Ok(self.number.push(character)?);
        }
        self.end_number()?;
        self.is_in_string = character == '"';
        Ok(self.text.push(character)?)
    }

    /// Takes the next character of a string.
    fn put_in_string(&mut self, character: char) -> R<()> {
        self.is_in_string = self.is_after_backslash || character != '"';
        self.is_after_backslash = !self.is_after_backslash && character == '\\';
        Ok(self.text.push(character)?)
    }

    /// Ends the number that is read, if one is.
    fn end_number(&mut self) -> R<()> {
        if self.number.is_empty() {
            return Ok(());
        }
        if is_integer(self.alloc, self.number.as_str()) {
            self.text.push_str(self.number.as_str())?;
        } else {
            self.text.push_str(MARK_AS_JSON)?;
            self.text.push_str(self.number.as_str())?;
            self.text.push('"')?;
        }
        self.number.clear();
        Ok(())
    }
}

/// Whether a character, outside of strings, is one of a number.
fn is_of_number(character: char, is_first: bool) -> bool {
    let is_later = matches!(character, '+' | '.' | 'e' | 'E');
    character.is_ascii_digit() || character == '-' || (is_later && !is_first)
}

/// Whether a text is an integer of 64 bits.
fn is_integer(alloc: Global, number: &str) -> bool {
    match Json::from_str(alloc, number) {
        Ok(json) => json.as_i64().is_some() || json.as_u64().is_some(),
        Err(_) => false,
    }
}

/// A JSON text in which numbers that are no integers of 64 bits are texts with the mark.
pub fn with_marks(alloc: Global, text: &str) -> R<String> {
    if text.contains(MARK_IN_TEXT) {
        return Ok(String::from_str(alloc, text)?);
    }
    let mut rewriting = Rewriting {
        alloc,
        text: String::with_capacity(alloc, text.len())?,
        number: String::new(alloc),
        is_in_string: false,
        is_after_backslash: false,
    };
    for character in text.chars() {
        rewriting.put(character)?;
    }
    rewriting.end_number()?;
    Ok(rewriting.text)
}

/// The number that a text with the mark is.
pub fn marked(text: &str) -> Option<&str> {
    text.strip_prefix(MARK)
}
