//! Outcomes that later lines are compared with.

use bits::R;
use std::alloc::Global;

/// An outcome under its name.
#[derive(Drop)]
struct Named {
    name: String,
    text: String,
}

/// Outcomes under their names; the last of a name counts.
#[derive(Drop)]
pub struct Kept {
    named: Vec<Named>,
}

/// What is done with the outcome of a line.
#[derive(Clone, Copy)]
pub enum Way<'a> {
    /// The outcome is told.
    Told,
    /// The outcome is told, and kept under this name.
    Keep(&'a str),
    /// The outcome is told unless it is the one that is kept under this name.
    Is(&'a str),
}

/// What is done with the outcome of a line, and the line without the words that say so.
pub fn way_of(line: &str) -> (Way<'_>, &str) {
    match line.split_once(' ') {
        Some(("keep", rest)) => match rest.split_once(' ') {
            Some((name, rest)) => (Way::Keep(name), rest),
            None => (Way::Told, line),
        },
        Some(("is", rest)) => match rest.split_once(' ') {
            Some((name, rest)) => (Way::Is(name), rest),
            None => (Way::Told, line),
        },
        _ => (Way::Told, line),
    }
}

impl Kept {
    pub fn new(alloc: Global) -> Kept {
        Kept {
            named: Vec::new(alloc),
        }
    }

    /// Keeps an outcome.
    fn keep(&mut self, alloc: Global, name: &str, text: &str) -> R<()> {
        let name = String::from_str(alloc, name)?;
        let text = String::from_str(alloc, text)?;
        self.named.push(Named { name, text })?;
        Ok(())
    }

    /// Whether this is the outcome of this name.
    fn is(&self, name: &str, text: &str) -> bool {
        let mut is = false;
        for named in &self.named {
            if named.name.as_str() == name {
                is = named.text.as_str() == text;
            }
        }
        is
    }

    /// What is told of an outcome.
    pub fn told(&mut self, alloc: Global, way: Way<'_>, text: String) -> R<String> {
        match way {
            Way::Told => Ok(text),
            Way::Keep(name) => {
                self.keep(alloc, name, text.as_str())?;
                Ok(text)
            }
            Way::Is(name) if self.is(name, text.as_str()) => Ok(String::from_str(alloc, "yes")?),
            Way::Is(_) => Ok(text),
        }
    }
}
