//! The columns of a part file, each in the bytes of its chunk.

ghost use Rattle.std.specs.Prelude.{◌≡◌, ◌+◌, ◌≤◌, pos, List, Some, length, take, drop, MatchOption, IfOk, IfSome};
ghost use Rattle.bits.specs.Refusals.{RefusedMemoryOnly};
ghost use Rattle.schema.specs.Stripe.{Entry};
ghost use Rattle.schema.specs.Views.{leaf_view, leaf_order, column_view};
ghost use Rattle.metadata.specs.Views.{chunk_meta_view, column_meta_view};
ghost use Rattle.statistics.specs.Bounds.{Bounds, statistics_of};
ghost use Rattle.upkeep.specs.inner.Columns.{AreColumns, IsColumn, IsColumnIn, IsTextOf, IsTextFrom, IsFilled};

use crate::bounds::hold;
use bits::{R, Refusal};
use metadata::{ChunkMeta, ColumnMeta};
use row_group::{read_chunk, start_of};
use schema::{Column, Leaf};
use statistics::Stats;
use std::alloc::Global;

/// What is wrong with the columns of a file.
#[derive(Clone, Copy, Debug, PartialEq, Eq)]
pub(crate) enum ColumnFault {
    /// There are not as many chunks as leaves, or not as many statistics.
    Count,
    /// The pages of the column with this index do not fill its chunk.
    Size(usize),
    /// The statistics of the column with this index are not true.
    Statistics(usize),
}

/// The first fault of the columns of a file, by the bytes before its footer. Holds one column at a time.
pub(crate) fn fault_of_columns(
    alloc: Global,
    front: &[u8],
    leaves: &[Leaf],
    chunks: &[ChunkMeta],
    stats: &[Stats],
) -> R<Option<ColumnFault>>
    ensures found { IfOk result (λ found. MatchOption found (AreColumns front.now leaves.now chunks.now stats.now) (λ _. Unit {0})) }
    ensures which { RefusedMemoryOnly result }
{
    if chunks.len() != leaves.len() || stats.len() != leaves.len() {
        return Ok(Some(ColumnFault::Count));
    }
    for i in 0..leaves.len() {
        let fault = fault_of_column(alloc, front, &leaves[i], &chunks[i], &stats[i], i)?;
        if fault.is_some() {
            return Ok(fault);
        }
    }
    Ok(None)
}

/// The fault of the column with this index.
fn fault_of_column(
    alloc: Global,
    front: &[u8],
    leaf: &Leaf,
    chunk: &ChunkMeta,
    stats: &Stats,
    index: usize,
) -> R<Option<ColumnFault>>
    ensures found { IfOk result (λ found. MatchOption found
        ((es : List Entry) × IsColumn front.now (leaf_view leaf.now) (chunk_meta_view chunk.now).meta_data (statistics_of stats.now) es) (λ _. Unit {0})) }
    ensures which { RefusedMemoryOnly result }
{
    match text_of(front, &chunk.meta_data) {
        Some(text) => fault_of_text(alloc, text, leaf, &chunk.meta_data, stats, index),
        None => Ok(Some(ColumnFault::Size(index))),
    }
}

/// The fault of the column with this index, whose pages are to fill these bytes.
fn fault_of_text(
    alloc: Global,
    text: &[u8],
    leaf: &Leaf,
    meta: &ColumnMeta,
    stats: &Stats,
    index: usize,
) -> R<Option<ColumnFault>>
    ensures found { IfOk result (λ found. MatchOption found
        ((es : List Entry) × IsColumnIn text.now (leaf_view leaf.now) (column_meta_view meta.now) (statistics_of stats.now) es) (λ _. Unit {0})) }
    ensures which { RefusedMemoryOnly result }
{
    match column_of(alloc, text, leaf, meta)? {
        Some(column) => Ok(judged(leaf, stats, &column, index)),
        None => Ok(Some(ColumnFault::Size(index))),
    }
}

/// The fault of a column that was read.
fn judged(leaf: &Leaf, stats: &Stats, column: &Column, index: usize) -> Option<ColumnFault>
    ensures { MatchOption result (Bounds (leaf_order leaf.now) (statistics_of stats.now) (column_view column.now)) (λ _. Unit {0}) }
{
    if hold(leaf, stats, column) {
        None
    } else {
        Some(ColumnFault::Statistics(index))
    }
}

/// The bytes of a chunk, as its record says where they are; None where they are not there.
fn text_of<'a>(front: &'a [u8], meta: &ColumnMeta) -> Option<&'a [u8]>
    ensures { IfSome result (λ text. IsTextOf front.now (column_meta_view meta.now) text.now) }
{
    let Ok(start) = start_of(meta) else {
        return None;
    };
    text_from(front, meta, start)
}

/// The bytes of a chunk that starts at `start`, as its record says how many they are; None where they are not there.
fn text_from<'a>(front: &'a [u8], meta: &ColumnMeta, start: usize) -> Option<&'a [u8]>
    ensures { IfSome result (λ text. IsTextFrom front.now (column_meta_view meta.now) start text.now) }
{
    match size_of(meta) {
        Some(size) => range_of(front, start, size),
        None => None,
    }
}

/// `size` bytes from `start` on; None where fewer are there.
fn range_of(front: &[u8], start: usize, size: usize) -> Option<&[u8]>
    ensures { IfSome result (λ range. (start + size ≤ length front.now) × (range.now ≡ take size (drop start front.now))) }
{
    if start > front.len() {
        return None;
    }
    let (_, behind) = front.split_at(start);
    if size > behind.len() {
        return None;
    }
    Some(behind.split_at(size).0)
}

/// How many bytes the pages of a chunk fill, by its record.
fn size_of(meta: &ColumnMeta) -> Option<usize>
    ensures { IfSome result (λ n. (column_meta_view meta.now).total_compressed_size ≡ Some (pos n)) }
{
    match meta.total_compressed_size {
        Some(size) if size >= 0 => Some(size as usize),
        _ => None,
    }
}

/// The column whose pages fill these bytes; None where none does.
fn column_of(alloc: Global, text: &[u8], leaf: &Leaf, meta: &ColumnMeta) -> R<Option<Column>>
    ensures found { IfOk result (λ found. IfSome found (λ column. IsFilled (column_meta_view meta.now) (leaf_view leaf.now) text.now (column_view column))) }
    ensures which { RefusedMemoryOnly result }
{
    match read_chunk(alloc, text, meta, leaf) {
        Ok(read) => Ok(filling(read, text.len())),
        Err(Refusal::Memory) => Err(Refusal::Memory),
        Err(_) => Ok(None),
    }
}

/// The column, if it took so many bytes.
fn filling(read: (Column, usize), count: usize) -> Option<Column>
    ensures { IfSome result (λ column. (read.1 ≡ count) × (column ≡ read.0)) }
{
    let (column, used) = read;
    if used == count { Some(column) } else { None }
}
