//! What is wrong with a text that is no JSON.

use crate::as_written::with_marks;
use bits::{R, Refusal};
use serde_json::{Error, Value as Json};
use std::alloc::Global;

/// How deep the members of a row nest at most, and all else of a JSON text one level more.
const DEEPEST: u64 = 127;

/// What a text is, as JSON.
#[derive(Drop)]
pub enum Text {
    /// It is JSON; and the same with numbers that are no integers as marked texts.
    Json { plain: Json, marked: Json },
    /// It is none: why, in words.
    None(String),
}

/// What a text of one line is.
pub fn of_one_line(alloc: Global, text: &str) -> R<Text> {
    match Json::from_str(alloc, text) {
        Ok(plain) => with_marked(alloc, text, plain),
        Err(error) => {
            let column = error.column();
            let place = format!(in alloc; "at column {column}")?;
            Ok(Text::None(why(alloc, text, "line", place.as_str())?))
        }
    }
}

/// What a text of some lines is.
pub fn of_lines(alloc: Global, text: &str) -> R<Text> {
    match Json::from_str(alloc, text) {
        Ok(plain) => with_marked(alloc, text, plain),
        Err(error) => {
            let place = place_in(alloc, &error)?;
            Ok(Text::None(why(alloc, text, "text", place.as_str())?))
        }
    }
}

/// Where a text is no JSON.
fn place_in(alloc: Global, error: &Error) -> R<String> {
    let (line, column) = (error.line(), error.column());
    Ok(format!(in alloc; "at line {line} column {column}")?)
}

/// A text that is JSON, and the same with numbers that are no integers as marked texts.
fn with_marked(alloc: Global, text: &str, plain: Json) -> R<Text> {
    let text = with_marks(alloc, text)?;
    let marked = match Json::from_str(alloc, text.as_str()) {
        Ok(marked) => marked,
        // The marks leave JSON, so that only memory can be lacking.
        Err(_) => return Err(Refusal::Memory),
    };
    Ok(Text::Json { plain, marked })
}

/// Why a text is no JSON; this is what it is called, and where it is none.
fn why(alloc: Global, text: &str, name: &str, place: &str) -> R<String> {
    if text.starts_with('\u{feff}') {
        let words = "it begins with a byte order mark: take it away";
        return Ok(String::from_str(alloc, words)?);
    }
    if text.trim().is_empty() {
        return Ok(format!(in alloc; "an empty {name}")?);
    }
    if depth_of(text) > DEEPEST {
        return Ok(String::from_str(alloc, "too deep: more than 126 levels")?);
    }
    Ok(format!(in alloc; "no JSON, {place}")?)
}

/// How deep arrays and objects nest in a text.
fn depth_of(text: &str) -> u64 {
    let (mut depth, mut deepest) = (0u64, 0u64);
    let (mut is_in_string, mut is_after_backslash) = (false, false);
    for byte in text.bytes() {
        if is_in_string {
            is_in_string = is_after_backslash || byte != b'"';
            is_after_backslash = !is_after_backslash && byte == b'\\';
        } else {
            match byte {
                b'"' => is_in_string = true,
                b'[' | b'{' => depth = depth.saturating_add(1),
                b']' | b'}' => depth = depth.saturating_sub(1),
                _ => {}
            }
            deepest = deepest.max(depth);
        }
    }
    deepest
}
