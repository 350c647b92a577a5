//! Lines of text for a person.

use reports::OneLine;
use std::alloc::AllocError;
use std::fmt::{self, Display, Write as _};

/// The path of a file in a table's folder, as it is shown: after that of the folder, unless this is empty.
#[derive(Clone, Copy)]
pub(crate) struct Placed<'a> {
    pub(crate) folder: &'a str,
    pub(crate) path: &'a str,
}

impl Display for Placed<'_> {
    fn fmt<W: fmt::Write>(&self, f: &mut fmt::Formatter<W>) -> fmt::Result {
        let Placed { folder, path } = *self;
        if folder.is_empty() {
            f.write_str(path)
        } else {
            write!(f, "{folder}/{path}")
        }
    }
}

/// Writes a line, in which control characters are escaped.
pub(crate) fn line<D: Display + Drop>(text: &mut Vec<u8>, said: D) -> Result<(), AllocError> {
    let mut one_line = OneLine(&mut *text);
    if write!(one_line, "{said}").is_err() {
        return Err(AllocError);
    }
    text.push(b'\n')?;
    Ok(())
}

/// Writes as many spaces as a word has fewer bytes than `width`, and then the word.
pub(crate) fn push_right(text: &mut Vec<u8>, word: &str, width: usize) -> Result<(), AllocError> {
    for _ in word.len()..width {
        text.push(b' ')?;
    }
    text.extend_from_slice(word.as_bytes())
}
