//! What is wrong at a place of a JSON value.

use crate::as_written::marked;
use bits::R;
use serde_json::Value as Json;
use std::alloc::Global;

/// How many characters of a value are shown.
const SHOWN: usize = 40;

/// What is wrong at a place of a JSON value.
#[derive(Debug, Drop)]
pub struct Misfit {
    /// The names of members and the numbers of items on the way to it, as `a.list[3].b`.
    pub path: String,
    pub what: String,
}

impl Misfit {
    /// Where this was expected, and that was found.
    pub fn expected(alloc: Global, wanted: &str, json: &Json) -> R<Misfit> {
        let found = shown(alloc, json)?;
        Ok(Misfit {
            path: String::new(alloc),
            what: format!(in alloc; "expected {wanted}, found {found}")?,
        })
    }

    /// What is wrong, in these words.
    pub fn because(alloc: Global, what: &str) -> R<Misfit> {
        Ok(Misfit {
            path: String::new(alloc),
            what: String::from_str(alloc, what)?,
        })
    }

    /// What is wrong in the object around the value, whose member of this name the value is.
    pub fn in_member(self, alloc: Global, name: &str) -> R<Misfit> {
        let Misfit { path, what } = self;
        let path = if path.is_empty() {
            String::from_str(alloc, name)?
        } else if path.as_bytes().first() == Some(&b'[') {
            format!(in alloc; "{name}{path}")?
        } else {
            format!(in alloc; "{name}.{path}")?
        };
        Ok(Misfit { path, what })
    }

    /// What is wrong in the array around the value, whose item of this number, counted from 0, the value is.
    pub fn in_item(self, alloc: Global, number: usize) -> R<Misfit> {
        let Misfit { path, what } = self;
        let path = if path.is_empty() || path.as_bytes().first() == Some(&b'[') {
            format!(in alloc; "[{number}]{path}")?
        } else {
            format!(in alloc; "[{number}].{path}")?
        };
        Ok(Misfit { path, what })
    }

    /// The place, if there is one, and what is wrong there.
    pub fn into_text(self, alloc: Global) -> R<String> {
        let Misfit { path, what } = self;
        if path.is_empty() {
            return Ok(what);
        }
        Ok(format!(in alloc; "{path}: {what}")?)
    }
}

/// A JSON value, in a few characters. Numbers are shown as they are written.
pub fn shown(alloc: Global, json: &Json) -> R<String> {
    match json {
        Json::Array(_) => Ok(String::from_str(alloc, "an array")?),
        Json::Object(_) => Ok(String::from_str(alloc, "an object")?),
        Json::String(text) => match marked(text.as_str()) {
            Some(number) => shortened(alloc, String::from_str(alloc, number)?),
            None => shortened(alloc, json.to_string(alloc)?),
        },
        _ => shortened(alloc, json.to_string(alloc)?),
    }
}

/// The beginning of a text, where it is long.
fn shortened(alloc: Global, text: String) -> R<String> {
    if text.chars().count() <= SHOWN {
        return Ok(text);
    }
    let mut short: String = text.chars().take(SHOWN).collect(alloc)?;
    short.push_str("..")?;
    Ok(short)
}
