//! Calls of the program.

use crate::file_place::FilePlace;
use crate::screen::Screen;
use bits::{R, Refusal};
use program::Terminals;
use std::alloc::Global;
use std::cell::RefCell;

/// The file that has what the last call wrote to standard output.
const LAST_OUT: &str = "last.out";

/// The file that has what the last call wrote to standard error.
const LAST_ERR: &str = "last.err";

/// The words of a line after its first, parted by single spaces.
fn words_of(alloc: Global, line: &str) -> R<Vec<String>> {
    let mut words = Vec::new(alloc);
    for word in line.split(' ').skip(1) {
        words.push(String::from_str(alloc, word)?)?;
    }
    Ok(words)
}

/// Appends bytes as text, with each control character but a line feed as `\u{..}`.
fn push_shown(alloc: Global, bytes: &[u8], text: &mut String) -> R<()> {
    let Ok(shown) = std::str::from_utf8(bytes) else {
        return Err(Refusal::Utf8);
    };
    for symbol in shown.chars() {
        if symbol >= ' ' || symbol == '\n' {
            text.push(symbol)?;
        } else {
            let code = u32::from(symbol);
            let escaped = format!(in alloc; "\\u{{{code:x}}}")?;
            text.push_str(escaped.as_str())?;
        }
    }
    Ok(())
}

/// A call, and what it says: what it prints, where that is asked for, then its lines on standard error, after `! `, then its
/// status unless it is 0. Both outputs are kept in files.
pub fn told<P: FilePlace>(
    place: &mut P,
    alloc: Global,
    terminals: Terminals,
    line: &str,
    prints: bool,
) -> R<String> {
    let words = words_of(alloc, line)?;
    let written = RefCell::new(Vec::new(alloc));
    let mut out = Vec::new(alloc);
    let screen = Screen { written: &written };
    let status = place.status(words.as_slice(), &mut out, screen, terminals)?;
    let err = written.into_inner();
    place.write(LAST_OUT, out.as_slice())?;
    place.write(LAST_ERR, err.as_slice())?;
    let mut text = format!(in alloc; "$ {line}\n")?;
    if prints {
        push_shown(alloc, out.as_slice(), &mut text)?;
    }
    // Of a wrong call the status is enough: its text is that of the parser of the command line.
    if status < 2 && !err.as_slice().is_empty() {
        text.push_str("! ")?;
        push_shown(alloc, err.as_slice(), &mut text)?;
        // A progress that was taken away has no end of a line.
        if !text.ends_with('\n') {
            text.push_str("\n")?;
        }
    }
    if status > 0 {
        let last = format!(in alloc; "status {status}\n")?;
        text.push_str(last.as_str())?;
    }
    Ok(text)
}
