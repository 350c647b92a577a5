//! Rows off the fronts of columns.

ghost use Rattle.std.specs.Prelude.{◌≡◌, ◌<◌, List, length, map, IfOk, OnOk, IfErr};
ghost use Rattle.bits.specs.Refusals.{OnFault, LimitJustWhere};
ghost use Rattle.schema.specs.Values.{ValueTrees};
ghost use Rattle.schema.specs.Views.{rows_view, columns_view};
ghost use Rattle.assemble.specs.Sources.{CausesStay};
ghost use Rattle.assemble.specs.Columns.{Tells};
ghost use Rattle.assemble.specs.Sinks.{Visits, tokens_each};
ghost use Rattle.assemble.specs.Standing.{AllSame, HaveCause, IsRefusedFor};
ghost use Rattle.assemble.specs.RowsOf.{AreRowsOf, StandForRows, HasFault, IsNextRow, NextRowTo, NextRow, IsTooLong, IsRefusedAs};
ghost use Rattle.assemble.specs.inner.Steps.{Ended, Filled};

use crate::cursor::Cursor;
use crate::place::Place;
use crate::reading::{has_item, read_fields};
use crate::row_builder::RowBuilder;
use crate::sink::{Discard, RowSink};
use crate::source::EntrySource;
use bits::{Fault, R, Refusal};
use schema::{Column, Row, Schema};
use std::alloc::Global;

/// The most entries that a column may have.
pub const MOST_ENTRIES: usize = 16_777_216;

/// Shows a sink the values of the next row. Returns false at the end of all columns.
///
/// Refused as [`next_row`]. After a refusal the sink may have been shown a part of the row.
#[inline]
pub fn next_row_to<S: EntrySource, K: RowSink>(
    schema: &Schema,
    sources: &mut [S],
    sink: &mut K,
) -> R<bool>
    ensures row { NextRowTo S.stands S.refused S.cause K.shows schema.now sources.old sources.new sink.old sink.new result }
    ensures causes_stay { CausesStay (HaveCause S.cause) sources.old sources.new }
    ensures base_stays { K.base sink.new ≡ K.base sink.old }
{
    let leaves = schema.leaves();
    if sources.len() != leaves.len() || sources.is_empty() {
        return Err(Refusal::Levels);
    }
    if !has_item(0, sources)? {
        check_ended(sources)?;
        return Ok(false);
    }
    let start = Place {
        repetition: 0,
        definition: 0,
        own: 0,
    };
    read_fields(schema.fields(), start, sources, sink)?;
    Ok(true)
}

/// Shows a sink the values of the next row, where the sources are known to stand for one at least: nothing
/// is asked of them before the row is read.
///
/// It fails only when out of memory where they do. Where they do not, the fault says only that something
/// else is wrong. After it the sink may have been shown a part of the row.
// Each row comes through here: what is returned fits a register.
#[inline(always)]
pub fn next_known_row_to<S: EntrySource, K: RowSink>(
    schema: &Schema,
    sources: &mut [S],
    sink: &mut K,
) -> Result<(), Fault>
    ensures row { OnOk result (Visits (K.shows sink.old) (K.shows sink.new) tokens_each (IsNextRow S.stands schema.now sources.old sources.new)) }
    ensures known { IfErr result (λ f. (rows : List ValueTrees) → StandForRows S.stands sources.old schema.now rows → 0 < length rows → f ≡ Fault.Memory) }
    ensures causes_stay { CausesStay (HaveCause S.cause) sources.old sources.new }
    ensures base_stays { K.base sink.new ≡ K.base sink.old }
{
    if sources.len() != schema.leaves().len() {
        return Err(Fault::Levels);
    }
    let start = Place {
        repetition: 0,
        definition: 0,
        own: 0,
    };
    match read_fields(schema.fields(), start, sources, sink) {
        Ok(_) => Ok(()),
        Err(refusal) => Err(fault_for(&refusal)),
    }
}

/// Memory for Memory, and Levels for each other refusal.
#[cold]
fn fault_for(refusal: &Refusal) -> Fault
    ensures { refusal.now ≡ Refusal.Memory → result ≡ Fault.Memory }
{
    match refusal {
        Refusal::Memory => Fault::Memory,
        _ => Fault::Levels,
    }
}

/// The next row, or none at the end of all columns. The bytes of each value are copied once.
///
/// Refused with a source's own refusal; Levels where no rows have the levels of what the sources stand
/// for; Value where an entry lacks its value, has one below the greatest definition level, or one that
/// does not fit the leaf. After a refusal, Memory too, the sources may stand within a row.
pub fn next_row<S: EntrySource>(alloc: Global, schema: &Schema, sources: &mut [S]) -> R<Option<Row>>
    ensures row { NextRow S.stands S.refused S.cause schema.now sources.old sources.new result }
    ensures causes_stay { CausesStay (HaveCause S.cause) sources.old sources.new }
{
    let mut builder = RowBuilder::new(alloc, schema.fields().len())?;
    if next_row_to(schema, sources, &mut builder)? {
        Ok(Some(builder.into_row()))
    } else {
        Ok(None)
    }
}

/// The number of rows whose columns the sources stand for, in one pass that makes no rows: whether
/// [`assemble_from`] would make them.
///
/// Refused as [`next_row`].
pub fn count_rows<S: EntrySource>(schema: &Schema, sources: &mut [S]) -> R<u64>
    ensures stands { IfOk result (λ count. (rows : List ValueTrees) × ((length rows ≡ count) × StandForRows S.stands sources.old schema.now rows)) }
    ensures only { OnFault result ((rows : List ValueTrees) → StandForRows S.stands sources.old schema.now rows → ⊥) }
    ensures which { IfErr result (IsRefusedFor S.stands S.refused S.cause sources.old sources.new (HasFault schema.now)) }
    ensures causes_stay { CausesStay (HaveCause S.cause) sources.old sources.new }
{
    for count in 0..u64::MAX {
        if !next_row_to(schema, sources, &mut Discard)? {
            return Ok(count);
        }
    }
    // Never reached: no machine counts as far.
    Err(Refusal::Memory)
}

/// All rows whose columns the sources stand for, in one pass.
///
/// Refused as [`next_row`], and not for the number of rows or entries: a source bounds that.
pub fn assemble_from<S: EntrySource>(
    alloc: Global,
    schema: &Schema,
    sources: &mut [S],
) -> R<Vec<Row>>
    ensures stands { IfOk result (λ rows. StandForRows S.stands sources.old schema.now (rows_view rows.items)) }
    ensures only { OnFault result ((rows : List ValueTrees) → StandForRows S.stands sources.old schema.now rows → ⊥) }
    ensures which { IfErr result (IsRefusedFor S.stands S.refused S.cause sources.old sources.new (HasFault schema.now)) }
    ensures causes_stay { CausesStay (HaveCause S.cause) sources.old sources.new }
{
    let mut rows = Vec::new(alloc);
    'more: for _ in 0..u64::MAX {
        match next_row(alloc, schema, sources)? {
            None => return Ok(rows),
            Some(row) => rows.push(row)?,
        }
    }
    // Never reached: no vector has as many rows.
    Err(Refusal::Memory)
}

/// The rows with these columns, one for each leaf of the schema, in their order.
///
/// Refused Limit for a column of more than 16,777,216 entries; otherwise Levels and Value as
/// [`next_row`]. Takes one pass over the entries; the bytes of each value are copied once.
pub fn assemble(alloc: Global, schema: &Schema, columns: &[Column]) -> R<Vec<Row>>
    ensures stands { IfOk result (λ rows. AreRowsOf schema.now (columns_view columns.now) (rows_view rows.items)) }
    ensures limit { LimitJustWhere (IsTooLong (columns_view columns.now)) result }
    ensures only { OnFault result ((rows : List ValueTrees) → AreRowsOf schema.now (columns_view columns.now) rows → ⊥) }
    ensures which { IfErr result (IsRefusedAs schema.now (columns_view columns.now)) }
{
    let mut cursors = Vec::with_capacity(alloc, columns.len())?;
    for column in columns {
        if column.entries.len() > MOST_ENTRIES {
            return Err(Refusal::Limit);
        }
        cursors.push(Cursor::new(column.entries.as_slice()))?;
    }
    assemble_from(alloc, schema, cursors.as_mut_slice())
}

/// Refused Levels where one of the sources has an entry left.
fn check_ended<S: EntrySource>(sources: &mut [S]) -> R<()>
    ensures ended { OnOk result (Ended S.stands (length sources.old) sources.old) }
    ensures refused { IfErr result (IsRefusedFor S.stands S.refused S.cause sources.old sources.new (λ cs. Tells (Filled cs) ⊥)) }
    ensures kept { OnOk result (map S.refused sources.new ≡ map S.refused sources.old) }
    ensures causes_stay { CausesStay (HaveCause S.cause) sources.old sources.new }
    ensures same { AllSame S.stands sources.old sources.new }
{
    let count = sources.len();
    for i in 0..count {
        if sources[i].peek()?.is_some() {
            return Err(Refusal::Levels);
        }
    }
    Ok(())
}
