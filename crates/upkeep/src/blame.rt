//! Which column of a part file is at fault: the first that a query cannot read, or else the first that the file's own footer
//! describes falsely.

use bits::{R, Refusal};
use footer::read_footer;
use metadata::{ChunkMeta, ColumnMeta};
use row_group::{check_chunk, start_of};
use schema::Leaf;
use std::alloc::Global;

/// The index of the first leaf whose chunk is refused, in a file whose columns are the first of these; None where none is
/// by itself. It fails only when out of memory.
pub(crate) fn blamed(alloc: Global, leaves: &[Leaf], bytes: &[u8]) -> R<Option<usize>> {
    let meta = match read_footer(alloc, bytes) {
        Ok(meta) => meta,
        Err(refusal) => return unless_memory(refusal),
    };
    match meta.row_groups.first() {
        Some(own) => blamed_chunk(alloc, leaves, bytes, own.columns.as_slice()),
        None => Ok(None),
    }
}

/// No leaf to blame for a refusal; Memory is passed on.
fn unless_memory(refusal: Refusal) -> R<Option<usize>> {
    match refusal {
        Refusal::Memory => Err(Refusal::Memory),
        _ => Ok(None),
    }
}

/// The index of the first chunk that is refused; None where none is by itself.
fn blamed_chunk(
    alloc: Global,
    leaves: &[Leaf],
    bytes: &[u8],
    chunks: &[ChunkMeta],
) -> R<Option<usize>> {
    for (i, chunk) in chunks.iter().enumerate() {
        if i < leaves.len() && is_refused(alloc, &leaves[i], bytes, chunk)? {
            return Ok(Some(i));
        }
    }
    Ok(None)
}

/// Whether a chunk is refused. It fails only when out of memory.
fn is_refused(alloc: Global, leaf: &Leaf, bytes: &[u8], chunk: &ChunkMeta) -> R<bool> {
    let Ok(start) = start_of(&chunk.meta_data) else {
        return Ok(true);
    };
    if start > bytes.len() {
        return Ok(true);
    }
    match check_chunk(alloc, bytes.split_at(start).1, &chunk.meta_data, leaf) {
        Ok(_) => Ok(false),
        Err(Refusal::Memory) => Err(Refusal::Memory),
        Err(_) => Ok(true),
    }
}

/// The index of the first of these leaves whose chunk a query cannot read, by the bytes of its part file and the records of the
/// root, and the refusal of the query; None where it reads each chunk. It fails only when out of memory.
pub(crate) fn refused_leaf(
    alloc: Global,
    leaves: &[Leaf],
    chunks: &[ChunkMeta],
    bytes: &[u8],
) -> R<Option<(usize, Refusal)>> {
    for (i, chunk) in chunks.iter().enumerate() {
        if i < leaves.len()
            && let Some(refusal) = refusal_of_chunk(alloc, &leaves[i], bytes, &chunk.meta_data)?
        {
            return Ok(Some((i, refusal)));
        }
    }
    Ok(None)
}

/// The refusal of a query that reads a chunk of this record in a part file of these bytes; None where it reads the chunk. It
/// fails only when out of memory.
fn refusal_of_chunk(
    alloc: Global,
    leaf: &Leaf,
    bytes: &[u8],
    meta: &ColumnMeta,
) -> R<Option<Refusal>> {
    let Some(text) = range_of(bytes, meta) else {
        return Ok(Some(Refusal::Page));
    };
    match check_chunk(alloc, text, meta, leaf) {
        Ok(_) => Ok(None),
        Err(Refusal::Memory) => Err(Refusal::Memory),
        Err(refusal) => Ok(Some(refusal)),
    }
}

/// The bytes that a query reads of a chunk; None where its record has no offset or no size that can be.
fn range_of<'a>(bytes: &'a [u8], meta: &ColumnMeta) -> Option<&'a [u8]> {
    let Ok(start) = start_of(meta) else {
        return None;
    };
    match meta.total_compressed_size {
        Some(size) if size >= 0 => Some(clipped(bytes, start, size as usize)),
        _ => None,
    }
}

/// So many of the bytes from `start` on, or those that are there.
fn clipped(bytes: &[u8], start: usize, size: usize) -> &[u8] {
    if start > bytes.len() {
        return &[];
    }
    let (_, rest) = bytes.split_at(start);
    if size > rest.len() {
        return rest;
    }
    rest.split_at(size).0
}
