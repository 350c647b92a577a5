//! What sinks are shown of rows, of columns and of files, and sources that promise that their values fit.

ghost use Rattle.std.specs.Prelude.{◌≡◌, None};
ghost use Rattle.schema.specs.declared.value.Kind.TheVariants.{Int64};

use crate::schemas::{
    EntryRow, FieldRow, INT64, OPTIONAL, REPEATED, REQUIRED, entries_of, schema_of,
};
use assemble::{Cursor, Discard, EntrySource, RowSink, assemble, count_rows, next_row_to};
use bits::{Fault, R, Refusal};
use footer::{FileReader, WriteOptions, write_file};
use schema::{Column, EntryRef, Kind, LeafType, ValueRef};
use std::alloc::{AllocError, Global};
use std::test::*;

/// required int64 id; optional group xs { repeated group list { optional int64 element } }
const LISTS: &[FieldRow] = &[
    ("root", REQUIRED, None, Some(2)),
    ("id", REQUIRED, Some(INT64), None),
    ("xs", OPTIONAL, None, Some(1)),
    ("list", REPEATED, None, Some(1)),
    ("element", OPTIONAL, Some(INT64), None),
];

/// Three rows: a list of 7 and a null, an empty list, and no list.
const COLUMNS: [&[EntryRow]; 2] = [
    &[(0, 0, Some(1)), (0, 0, Some(2)), (0, 0, Some(3))],
    &[(0, 3, Some(7)), (1, 2, None), (0, 1, None), (0, 0, None)],
];

/// The columns of the three rows.
fn columns(alloc: Global) -> R<Vec<Column>> {
    let mut columns = Vec::new(alloc);
    for rows in COLUMNS {
        let entries = entries_of(alloc, rows)?;
        columns.push(Column { entries })?;
    }
    Ok(columns)
}

fn cursors<'a>(alloc: Global, columns: &'a [Column]) -> R<Vec<Cursor<'a>>> {
    let mut cursors = Vec::new(alloc);
    for column in columns {
        cursors.push(Cursor::new(column.entries.as_slice()))?;
    }
    Ok(cursors)
}

/// Writes what it is shown: digits, `-` for a null, `(` and `)` around groups, `[` and `]` around lists.
#[derive(Drop)]
struct Text {
    bytes: Vec<u8>,
}

impl Text {
    /// Ends the text of a row; a stop stands for no row.
    fn end(&mut self, is_shown: bool) -> R<()> {
        if !is_shown {
            self.bytes.push(b'.')?;
        }
        self.bytes.push(b' ')?;
        Ok(())
    }
}

impl RowSink for Text {
    ghost shows = { λ _ _. Unit {0} };

    ghost base = { λ _. tt };

    ghost goes_back = { λ _ _. ⊥ };

    fn begin_row(&mut self) {}

    fn drop_row(&mut self) {}

    fn value(&mut self, value: ValueRef<'_>) -> Result<(), AllocError> {
        let byte = match value {
            ValueRef::Null => b'-',
            ValueRef::Int(n) => u8::try_from(n).unwrap_or(0).saturating_add(b'0'),
            _ => b'?',
        };
        self.bytes.push(byte)?;
        Ok(())
    }

    fn begin_group(&mut self) -> Result<(), AllocError> {
        self.bytes.push(b'(')?;
        Ok(())
    }

    fn end_group(&mut self) -> Result<(), AllocError> {
        self.bytes.push(b')')?;
        Ok(())
    }

    fn begin_list(&mut self) -> Result<(), AllocError> {
        self.bytes.push(b'[')?;
        Ok(())
    }

    fn end_list(&mut self) -> Result<(), AllocError> {
        self.bytes.push(b']')?;
        Ok(())
    }
}

/// The texts of the three rows, each ended by a space, and of what comes after the last one.
const SHOWN: &[u8] = b"1([(7)(-)]) 2([]) 3- . ";

/// Whether the rows of columns are shown to a sink in their order, and nothing after the last one.
fn are_shown(alloc: Global) -> R<bool> {
    let schema = schema_of(alloc, LISTS)?;
    let columns = columns(alloc)?;
    let mut sources = cursors(alloc, columns.as_slice())?;
    let mut text = Text {
        bytes: Vec::new(alloc),
    };
    for _ in 0..4 {
        let is_shown = next_row_to(&schema, sources.as_mut_slice(), &mut text)?;
        text.end(is_shown)?;
    }
    Ok(text.bytes.as_slice() == SHOWN)
}

#[test]
fn a_sink_is_shown_rows_in_order(rt: HostRuntime) -> Result<(), Fail> {
    assert!(rt; are_shown(rt.alloc())?);
    Ok(())
}

/// A file of the rows, two in a group.
fn file(alloc: Global) -> R<Vec<u8>> {
    let schema = schema_of(alloc, LISTS)?;
    let rows = assemble(alloc, &schema, columns(alloc)?.as_slice())?;
    let options = WriteOptions {
        group_rows: 2,
        ..WriteOptions::standard()
    };
    write_file(alloc, &schema, &options, rows.as_slice())
}

/// Whether the rows of a file are shown to a sink in their order, and nothing after the last one, also to other sinks.
fn are_shown_of_a_file(alloc: Global) -> R<bool> {
    let bytes = file(alloc)?;
    let file = FileReader::new(alloc, bytes.as_slice())?;
    let mut rows = file.rows(alloc);
    let mut text = Text {
        bytes: Vec::new(alloc),
    };
    for _ in 0..4 {
        let is_shown = rows.next_to(&mut text)?;
        text.end(is_shown)?;
    }
    let is_over = !rows.next_to(&mut Discard)? && rows.next()?.is_none();
    Ok(is_over && text.bytes.as_slice() == SHOWN)
}

#[test]
fn a_sink_is_shown_the_rows_of_a_file(rt: HostRuntime) -> Result<(), Fail> {
    assert!(rt; are_shown_of_a_file(rt.alloc())?);
    Ok(())
}

/// Whether three rows are counted, and then none; and whether fewer columns are refused.
fn are_counted(alloc: Global) -> R<bool> {
    let schema = schema_of(alloc, LISTS)?;
    let columns = columns(alloc)?;
    let mut sources = cursors(alloc, columns.as_slice())?;
    let all = count_rows(&schema, sources.as_mut_slice())?;
    let left = count_rows(&schema, sources.as_mut_slice())?;
    let mut fewer = cursors(alloc, columns.as_slice().get(..1).unwrap_or(&[]))?;
    let refused = count_rows(&schema, fewer.as_mut_slice());
    Ok(all == 3 && left == 0 && matches!(refused, Err(Refusal::Levels)))
}

#[test]
fn rows_are_counted_or_refused(rt: HostRuntime) -> Result<(), Fail> {
    assert!(rt; are_counted(rt.alloc())?);
    Ok(())
}

/// Gives the number 7 without end, which fits INT64.
#[derive(Drop)]
struct Sevens;

impl EntrySource for Sevens {
    ghost stands = { λ _ _. ⊥ };

    ghost refused = { λ _. None };

    // This source is never refused.
    ghost cause = { λ _ _. ⊥ };

    ghost checked = { λ _ t. t.kind ≡ Int64 };

    fn has_checked(&self, leaf_type: &LeafType) -> bool {
        leaf_type.kind == Kind::Int64
    }

    fn peek(&mut self) -> R<Option<(u32, u32)>> {
        Ok(Some((0, 0)))
    }

    fn next(&mut self) -> Result<Option<EntryRef<'_>>, Fault> {
        Ok(Some(EntryRef {
            repetition: 0,
            definition: 0,
            value: Some(ValueRef::Int(7)),
        }))
    }

    fn one_list(&self) {}
}

/// required int64 id
const ONE_NUMBER: &[FieldRow] = &[
    ("root", REQUIRED, None, Some(1)),
    ("id", REQUIRED, Some(INT64), None),
];

/// Whether the numbers of a source that promises that they fit are shown, to each of two sinks in turn.
fn are_sevens(alloc: Global) -> R<bool> {
    let schema = schema_of(alloc, ONE_NUMBER)?;
    let mut sources = Vec::new(alloc);
    sources.push(Sevens)?;
    let mut text = Text {
        bytes: Vec::new(alloc),
    };
    for _ in 0..3 {
        let is_shown = next_row_to(&schema, sources.as_mut_slice(), &mut text)?;
        if !is_shown || !next_row_to(&schema, sources.as_mut_slice(), &mut Discard)? {
            return Ok(false);
        }
    }
    Ok(text.bytes.as_slice() == b"777".as_slice())
}

#[test]
fn a_source_may_promise_that_its_values_fit(rt: HostRuntime) -> Result<(), Fail> {
    assert!(rt; are_sevens(rt.alloc())?);
    Ok(())
}
