//! What is kept of lines while they are read. They may come from a pipe, so that none can be read again.

use bits::{R, Refusal};
use places::Reason;
use reasons::{LimitFault, NOT_UTF8, TextFault, fault_at, large_value, line_fault};
use schema::Schema;
use std::alloc::Global;

/// A shorter line has no value with too many bytes.
const SHORT_LINE: usize = 16_777_216;

/// What is wrong in a line that is too long.
const LONG_LINE: &str = "a line of more than 1073741824 bytes";

/// What is kept of rows that were gathered.
#[derive(Drop)]
pub struct RowNotes<'a> {
    /// The schema of the table that they were read for.
    pub schema: &'a Schema,
    pub lines: LineNotes,
    /// Which row has a key that can name no folder, if one has.
    pub key: Option<Reason>,
}

/// What is kept of lines: their number, and what is wrong in the one that is refused. Where there is no memory to keep something,
/// that is not kept.
#[derive(Drop)]
pub struct LineNotes {
    alloc: Global,
    /// How many lines were read.
    lines: u64,
    /// How many bytes these have.
    bytes: usize,
    /// What is wrong in the line that is refused.
    fault: Option<TextFault>,
    /// The first value that has too many bytes.
    large: Option<LimitFault>,
}

impl LineNotes {
    /// Notes of no lines.
    pub fn new(alloc: Global) -> LineNotes {
        LineNotes {
            alloc,
            lines: 0,
            bytes: 0,
            fault: None,
            large: None,
        }
    }

    /// Counts a line.
    #[inline(always)]
    pub fn count(&mut self, line: &str) {
        self.lines = self.lines.saturating_add(1);
        self.bytes = self.bytes.saturating_add(line.len());
    }

    /// Keeps what there is to say of the last line, once it was read: why it is no row, or which value has too many bytes.
    #[inline(always)]
    pub fn keep(&mut self, schema: &Schema, line: &str, texts: bool, read: &R<()>) {
        match read {
            Ok(()) if line.len() <= SHORT_LINE => {}
            Ok(()) => self.look_at(schema, line, texts),
            Err(refusal) => self.refuse(schema, line, texts, refusal),
        }
    }

    /// Keeps which value of the row of the last line has too many bytes, where one has.
    fn look_at(&mut self, schema: &Schema, line: &str, texts: bool) {
        if self.large.is_some() {
            return;
        }
        if let Ok(
            Some(
                LimitFault::Value {
                    file,
                    column,
                    bytes,
                    ..
                },
            ),
        ) = large_value(self.alloc, schema, "", line, texts)
        {
            self.large = Some(LimitFault::Value {
                file,
                line: self.lines,
                column,
                bytes,
            });
        }
    }

    /// Keeps why the last line is no row.
    fn refuse(&mut self, schema: &Schema, line: &str, texts: bool, refusal: &Refusal) {
        if *refusal != Refusal::Memory {
            self.fault = line_fault(self.alloc, schema, "", self.lines, line, texts).ok();
        }
    }

    /// Keeps that the next line is no text.
    pub fn refuse_bytes(&mut self) {
        self.refuse_next(NOT_UTF8);
    }

    /// Keeps that the next line is too long.
    pub fn refuse_length(&mut self) {
        self.refuse_next(LONG_LINE);
    }

    /// Keeps what is wrong in the next line.
    fn refuse_next(&mut self, what: &str) {
        self.fault = fault_at(self.alloc, "", self.lines.saturating_add(1), what).ok();
    }

    /// How many bytes the lines have that were read.
    pub fn bytes(&self) -> usize {
        self.bytes
    }

    /// What is wrong in the line that was refused. The file's name is put before it later.
    pub fn fault(self) -> Option<Reason> {
        self.fault.map(|fault| Reason::Text(fault))
    }

    /// Which value has too many bytes, if one has. The file's name is put before it later.
    pub fn large(self) -> Option<Reason> {
        self.large.map(|fault| Reason::Large(fault))
    }
}
