//! How far a long call is, as a line on a terminal that is written over itself.

ghost use Rattle.std.specs.Prelude.{◌≡◌, false};

use std::alloc::{AllocError, Global};
use std::io::Write;

/// How many rows there are from one line to the next.
const ROWS_BETWEEN: u64 = 100_000;

/// Takes the line off the terminal: back to its begin, and erased from there.
const ERASED: &[u8] = b"\r\x1b[K";

/// Which of the program's outputs are terminals.
#[derive(Clone, Copy)]
pub struct Terminals {
    pub out: bool,
    pub err: bool,
}

impl Terminals {
    /// Whether standard error is a terminal, and standard output, where the results go, is not.
    pub fn shows_beside_output(self) -> bool
        ensures { self.err ≡ false → result ≡ false }
    {
        if self.out { false } else { self.err }
    }
}

/// The rows that a call has dealt with so far.
#[derive(Drop)]
pub struct Progress {
    alloc: Global,
    /// What is done with rows, as `decoded`.
    verb: &'static str,
    /// How many rows there are in all, where that is known.
    all: Option<u64>,
    rows: u64,
    /// Where it is not shown, nothing is ever written.
    is_shown: bool,
}

/// A number with a comma before each three digits.
pub fn with_commas(alloc: Global, number: u64) -> Result<String, AllocError> {
    let digits = format!(in alloc; "{number}")?;
    let mut text = String::new(alloc);
    for (place, digit) in digits.as_str().chars().enumerate() {
        if place > 0 && digits.len().saturating_sub(place) % 3 == 0 {
            text.push(',')?;
        }
        text.push(digit)?;
    }
    Ok(text)
}

/// How many of a hundred parts these rows are of all, rounded down.
fn percent_of(rows: u64, all: u64) -> Option<u64> {
    rows.saturating_mul(100).checked_div(all)
}

impl Progress {
    /// The progress of a call that has dealt with no rows yet.
    pub fn new(alloc: Global, verb: &'static str, all: Option<u64>, is_shown: bool) -> Progress
        ensures { result.is_shown ≡ is_shown }
    {
        Progress {
            alloc,
            verb,
            all,
            rows: 0,
            is_shown,
        }
    }

    /// The line, which begins at the begin of the terminal's. The rows are rounded down to a multiple of
    /// [`ROWS_BETWEEN`].
    fn line(&self) -> Result<String, AllocError> {
        let rows = self.rows - self.rows % ROWS_BETWEEN;
        let (verb, number) = (self.verb, with_commas(self.alloc, rows)?);
        match self.all.and_then(|all| percent_of(rows, all)) {
            Some(percent) => format!(in self.alloc; "\r{verb} {number} rows, {percent}%"),
            None => format!(in self.alloc; "\r{verb} {number} rows"),
        }
    }

    /// Counts one more row, as [`count_rows`](Progress::count_rows).
    // One test for each row where nothing is shown.
    #[inline(always)]
    pub fn count_row<E: Write>(&mut self, err: &mut E)
        ensures quiet { self.old.is_shown ≡ false → E.contents err.new ≡ E.contents err.old }
        ensures same { self.new.is_shown ≡ self.old.is_shown }
    {
        self.count_rows(1, err);
    }

    /// Counts more rows, and shows after each [`ROWS_BETWEEN`] how many there are. Where that cannot be written,
    /// or there is no memory for it, nothing is shown.
    #[inline(always)]
    pub fn count_rows<E: Write>(&mut self, count: u64, err: &mut E)
        ensures quiet { self.old.is_shown ≡ false → E.contents err.new ≡ E.contents err.old }
        ensures same { self.new.is_shown ≡ self.old.is_shown }
    {
        if self.is_shown {
            self.count_shown(count, err);
        }
    }

    /// Counts rows where that is shown.
    #[cold]
    #[inline(never)]
    fn count_shown<E: Write>(&mut self, count: u64, err: &mut E)
        ensures same { self.new.is_shown ≡ self.old.is_shown }
    {
        let shown = self.rows / ROWS_BETWEEN;
        self.rows = self.rows.saturating_add(count);
        if self.rows / ROWS_BETWEEN == shown {
            return;
        }
        if let Ok(line) = self.line() {
            let _ = err.write_all(line.as_bytes());
        }
    }

    /// Takes the line off the terminal, where there is one.
    pub fn clear<E: Write>(&self, err: &mut E)
        ensures quiet { self.now.is_shown ≡ false → E.contents err.new ≡ E.contents err.old }
    {
        if self.is_shown && self.rows >= ROWS_BETWEEN {
            let _ = err.write_all(ERASED);
        }
    }
}
