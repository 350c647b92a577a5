//! Texts that have a name: what a line defines, and later lines use as `${name}`.

use bits::{R, Refusal};
use case_words::{range, repeated};
use std::alloc::Global;

/// A text, and its name.
#[derive(Drop)]
struct Named {
    name: String,
    text: String,
}

/// The names that were defined so far.
#[derive(Drop)]
pub struct Names {
    known: Vec<Named>,
}

/// Where in hexadecimal digits a byte begins.
fn digit_of(byte: i64) -> usize {
    usize::try_from(byte)
        .unwrap_or(usize::MAX)
        .saturating_mul(2)
}

/// The digits of some bytes, `0..4`, of a text that is hexadecimal digits.
fn digits_of<'a>(text: &'a str, bytes: &str) -> R<&'a str> {
    let Some((low, high)) = range(bytes) else {
        return Err(Refusal::Script);
    };
    match text.get(digit_of(low)..digit_of(high)) {
        Some(digits) => Ok(digits),
        None => Err(Refusal::Script),
    }
}

impl Names {
    /// No names.
    pub fn new(alloc: Global) -> Names {
        Names {
            known: Vec::new(alloc),
        }
    }

    /// The text of a name that was defined.
    fn text_of(&self, name: &str) -> R<&str> {
        for named in &self.known {
            if named.name.as_str() == name {
                return Ok(named.text.as_str());
            }
        }
        Err(Refusal::Script)
    }

    /// The text that a use of a name stands for: `name`, or bytes of it, as `name@0..4`.
    fn used(&self, word: &str) -> R<&str> {
        match word.split_once('@') {
            Some((name, bytes)) => digits_of(self.text_of(name)?, bytes),
            None => self.text_of(word),
        }
    }

    /// Appends the text that a use of a name stands for; `3*name` is that three times.
    fn put(&self, word: &str, text: &mut String) -> R<()> {
        let (times, word) = repeated(word);
        let used = self.used(word)?;
        for _ in 0..times {
            text.push_str(used)?;
        }
        Ok(())
    }

    /// Appends a piece that begins with a use of a name, up to the next use.
    fn put_piece(&self, piece: &str, text: &mut String) -> R<()> {
        let Some((word, rest)) = piece.split_once('}') else {
            return Err(Refusal::Script);
        };
        self.put(word, text)?;
        text.push_str(rest)?;
        Ok(())
    }

    /// A line with the texts in the place of the names that it uses.
    pub fn expanded(&self, alloc: Global, line: &str) -> R<String> {
        let mut text = String::new(alloc);
        for (place, piece) in line.split("${").enumerate() {
            if place == 0 {
                text.push_str(piece)?;
            } else {
                self.put_piece(piece, &mut text)?;
            }
        }
        Ok(text)
    }

    /// Gives a text a name.
    fn define(&mut self, alloc: Global, name: &str, text: String) -> R<()> {
        let name = String::from_str(alloc, name)?;
        self.known.push(Named { name, text })?;
        Ok(())
    }

    /// Whether a line is a definition: `text NAME TEXT`; or `words NAME RANGE TEXT`, the text once for each number of the
    /// range, with the number in the place of each `#`, and a space between them; `list` is the same with commas.
    pub fn take(&mut self, alloc: Global, line: &str) -> R<bool> {
        let Some((operation, rest)) = line.split_once(' ') else {
            return Ok(false);
        };
        let separator = match operation {
            "text" => "",
            "words" => " ",
            "list" => ",",
            _ => return Ok(false),
        };
        let Some((name, rest)) = rest.split_once(' ') else {
            return Err(Refusal::Script);
        };
        let text = if separator.is_empty() {
            String::from_str(alloc, rest)?
        } else {
            counted(alloc, rest, separator)?
        };
        self.define(alloc, name, text)?;
        Ok(true)
    }
}

/// The text after a range once for each of its numbers, with the number in the place of each `#`.
fn counted(alloc: Global, rest: &str, separator: &str) -> R<String> {
    let Some((ends, form)) = rest.split_once(' ') else {
        return Err(Refusal::Script);
    };
    let Some((low, high)) = range(ends) else {
        return Err(Refusal::Script);
    };
    let mut text = String::new(alloc);
    for number in low..high {
        if !text.is_empty() {
            text.push_str(separator)?;
        }
        let digits = format!(in alloc; "{number}")?;
        let made = form.replace(alloc, "#", digits.as_str())?;
        text.push_str(made.as_str())?;
    }
    Ok(text)
}
