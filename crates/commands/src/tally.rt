//! What a disk read and wrote so far, as a line on a screen that is written over itself.

ghost use Rattle.std.specs.Prelude.{◌≡◌, false};

use footer::read_footer;
use reports::with_commas;
use std::alloc::{AllocError, Global};
use std::io::Write;

/// How many bytes there are from one line to the next.
const BYTES_BETWEEN: u64 = 1_048_576;

/// How many calls of the disk there are from one line to the next.
const CALLS_BETWEEN: u64 = 64;

/// Takes the line off the screen: back to its begin, and erased from there.
const ERASED: &[u8] = b"\r\x1b[K";

/// How the path of a part file ends.
const PART_ENDING: &str = ".parquet";

/// What a call of a disk did.
#[derive(Clone, Copy)]
pub enum Work<'a> {
    /// The call read this many bytes.
    Read(usize),
    /// The call made a file.
    Made,
    /// The call wrote these bytes to the file at a path.
    Wrote { path: &'a str, bytes: &'a [u8] },
}

/// What was read and written so far.
#[derive(Drop)]
pub struct Tally<S: Write + Drop> {
    alloc: Global,
    screen: S,
    /// Where it is not shown, nothing is ever written.
    is_shown: bool,
    calls: u64,
    read: u64,
    files: u64,
    rows: u64,
    written: u64,
    /// Whether a line is on the screen.
    is_on: bool,
}

impl<S: Write + Drop> Tally<S> {
    /// A tally of nothing so far.
    pub fn new(alloc: Global, screen: S, is_shown: bool) -> Tally<S>
        ensures { result.is_shown ≡ is_shown }
    {
        Tally {
            alloc,
            screen,
            is_shown,
            calls: 0,
            read: 0,
            files: 0,
            rows: 0,
            written: 0,
            is_on: false,
        }
    }

    /// The line, which begins at the begin of the screen's.
    fn line(&self) -> Result<String, AllocError> {
        let alloc = self.alloc;
        let read = with_commas(alloc, self.read)?;
        let files = with_commas(alloc, self.files)?;
        let rows = with_commas(alloc, self.rows)?;
        let written = with_commas(alloc, self.written)?;
        format!(in alloc;
            "\rread {read} bytes, written {files} files, {rows} rows, {written} bytes"
        )
    }

    /// How many lines are due by now.
    fn lines_due(&self) -> u64 {
        (self.read / BYTES_BETWEEN)
            .saturating_add(self.written / BYTES_BETWEEN)
            .saturating_add(self.calls / CALLS_BETWEEN)
    }

    /// Counts what a call did, and shows a line after some mebibytes and calls. Where that cannot be written, or there is
    /// no memory for it, nothing is shown.
    pub fn count(&mut self, work: Work<'_>)
        ensures quiet { self.old.is_shown ≡ false → S.contents self.new.screen ≡ S.contents self.old.screen }
        ensures same { self.new.is_shown ≡ self.old.is_shown }
    {
        if self.is_shown {
            self.count_shown(work);
        }
    }

    /// Counts where that is shown.
    fn count_shown(&mut self, work: Work<'_>)
        ensures same { self.new.is_shown ≡ self.old.is_shown }
    {
        let due = self.lines_due();
        self.add(work);
        if self.lines_due() == due {
            return;
        }
        if let Ok(line) = self.line() {
            let _ = self.screen.write_all(line.as_bytes());
            self.is_on = true;
        }
    }

    /// Counts, and shows nothing.
    fn add(&mut self, work: Work<'_>)
        ensures same { self.new.is_shown ≡ self.old.is_shown }
    {
        self.calls = self.calls.saturating_add(1);
        match work {
            Work::Read(bytes) => self.read = self.read.saturating_add(bytes as u64),
            Work::Made => self.files = self.files.saturating_add(1),
            Work::Wrote { path, bytes } => {
                self.rows = self.rows.saturating_add(rows_in(self.alloc, path, bytes));
                self.written = self.written.saturating_add(bytes.len() as u64);
            }
        }
    }

    /// Takes the line off the screen, where there is one.
    pub fn clear(&mut self)
        ensures quiet { self.old.is_shown ≡ false → S.contents self.new.screen ≡ S.contents self.old.screen }
    {
        if self.is_shown && self.is_on {
            let _ = self.screen.write_all(ERASED);
            self.is_on = false;
        }
    }
}

/// How many rows a part file has, as its footer says; none where the file is no part file, or there is no memory to read its
/// footer. A part file is written whole by one call.
fn rows_in(alloc: Global, path: &str, bytes: &[u8]) -> u64 {
    if !path.ends_with(PART_ENDING) {
        return 0;
    }
    match read_footer(alloc, bytes) {
        Ok(record) => u64::try_from(record.num_rows.unwrap_or(0)).unwrap_or(0),
        Err(_) => 0,
    }
}
