//! What the system refused, by its words.

use bits::R;
use std::alloc::Global;
use std::fmt::{self, Display, Formatter};
use std::io;

/// What stands after the system's words.
const NUMBER: &str = " (os error ";

/// What the system refused: a path, and why.
#[derive(Debug, Drop)]
pub struct SystemFault {
    /// What it was about.
    path: String,
    /// The system's words.
    words: String,
    /// What to do, where that is known.
    advice: Option<&'static str>,
}

impl SystemFault {
    /// Whether it is about this path.
    pub fn is_about(&self, path: &str) -> bool {
        self.path.as_str() == path
    }

    /// Whether it is about a path in this folder.
    pub fn is_within(&self, folder: &str) -> bool {
        match self.path.as_str().strip_prefix(folder) {
            Some(rest) => rest.starts_with('/'),
            None => false,
        }
    }

    /// The same with what to do.
    pub fn with_advice(self, advice: &'static str) -> SystemFault {
        SystemFault {
            path: self.path,
            words: self.words,
            advice: Some(advice),
        }
    }
}

impl Display for SystemFault {
    fn fmt<W: fmt::Write>(&self, f: &mut Formatter<W>) -> fmt::Result {
        let (path, words) = (&self.path, &self.words);
        match self.advice {
            Some(advice) => write!(f, "{path}: {words} ({advice})"),
            None => write!(f, "{path}: {words}"),
        }
    }
}

/// What the system refused at a path.
pub fn system_fault(alloc: Global, path: &str, error: io::Error) -> R<SystemFault> {
    Ok(SystemFault {
        path: String::from_str(alloc, path)?,
        words: words_of(alloc, error)?,
        advice: None,
    })
}

/// The system's words for an error, without its number.
fn words_of(alloc: Global, error: io::Error) -> R<String> {
    let text = format!(in alloc; "{error}")?;
    match text.split_once(NUMBER) {
        Some((words, _)) => Ok(String::from_str(alloc, words)?),
        None => Ok(text),
    }
}
