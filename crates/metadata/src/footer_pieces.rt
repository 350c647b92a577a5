//! Footers that are written group by group, and groups chunk by chunk, so that no record of a group is needed, and what
//! was kept of a chunk's record as bytes is written as it is.

ghost use Rattle.std.specs.Prelude.{◌≡◌, ℕ, List, [], length, map, IfOk, OnOk};
ghost use Rattle.bits.specs.Refusals.{RefusedOnly, RefusedMemoryOnly};
ghost use Rattle.thrift_compact.specs.Length.{AppendsStruct};
ghost use Rattle.thrift_compact.specs.View.{field_view, field_views};
ghost use Rattle.metadata.specs.Begun.{BeginsFooter, BeginsGroup, BeginsChunk, AppendsChunkRest, chunk_start, chunk_rest, group_rest, fields_before, fields_after};
ghost use Rattle.metadata.specs.Kept.{EachKeepsWritten};
ghost use Rattle.metadata.specs.Records.{ChunkMeta as ChunkMetaShown, GroupMeta as GroupMetaShown, FileMeta as FileMetaShown};
ghost use Rattle.metadata.specs.ToTree.{group_meta_fields, file_meta_fields};
ghost use Rattle.metadata.specs.Views.{chunk_meta_view, file_meta_view};

use crate::chunk_meta::ChunkMeta;
use crate::file_meta::FileMeta;
use crate::ids::{chunk, file, group};
use crate::put::{put, put_given};
use bits::{R, Refusal};
use std::alloc::Global;
use thrift_compact::{
    ElementType, Field, put_end, put_list_start, put_next_fields, put_rest,
    structs_are_written_in_pieces, structs_with_bytes_have_the_shape,
};

impl FileMeta {
    /// Begins a footer of this many groups at the end of `out`. [`begin_group`] and [`end_group`] write each
    /// of them then, and [`FileMeta::end`] the rest. What is written is what [`FileMeta::write`] writes of the
    /// record with these groups. The groups of this record are not looked at.
    ///
    /// Refused Thrift only where the logicalType of an element nests deeper than 29, or no bytes have
    /// it. After a refusal `out` may have more bytes.
    pub fn begin(&self, alloc: Global, groups: usize, out: &mut Vec<u8>) -> R<()>
        ensures stands { OnOk result ((gs : List GroupMetaShown) → length gs ≡ groups
            → BeginsFooter (record (file_meta_view self.now) { row_groups = gs }) [] out.old.items out.new.items) }
        ensures which { RefusedOnly (λ e. (e ≡ Refusal.Thrift) × (EachKeepsWritten (file_meta_view self.now) → ⊥)) result }
    {
        structs_are_written_in_pieces();
        structs_with_bytes_have_the_shape();
        let fields = fields_before(alloc, self)?;
        let last = put_next_fields(0, fields.as_slice(), out)?;
        put_list_start(last, file::ROW_GROUPS, ElementType::Struct, groups, out)
    }

    /// Ends a footer that was begun with this record, and all of whose groups were written, at the end of
    /// `out`. It fails only when out of memory; then `out` may have more bytes.
    pub fn end(&self, alloc: Global, out: &mut Vec<u8>) -> R<()>
        ensures stands { let seen = file_meta_view self.now in OnOk result ((gs : List GroupMetaShown) (old : List ℕ)
            → BeginsFooter (record seen { row_groups = gs }) gs old out.old.items → AppendsStruct (file_meta_fields (record seen { row_groups = gs })) old out.new.items) }
        ensures which { RefusedMemoryOnly result }
    {
        structs_are_written_in_pieces();
        let fields = fields_after(alloc, self)?;
        let _last = put_next_fields(file::ROW_GROUPS, fields.as_slice(), out)?;
        put_end(out)
    }
}

impl ChunkMeta {
    /// Writes the record at the end of `out` but for the path of its file: the rest of its struct. Behind a path
    /// ([`begin_chunk`]) that is the record with that path ([`footers_are_written_in_pieces`](crate::footers_are_written_in_pieces)).
    /// It fails only when out of memory; then `out` may have more bytes.
    pub fn put_rest(&self, alloc: Global, out: &mut Vec<u8>) -> R<()>
        ensures stands { OnOk result (AppendsChunkRest (chunk_meta_view self.now) out.old.items out.new.items) }
        ensures which { RefusedMemoryOnly result }
    {
        let fields = fields_behind_path(alloc, self)?;
        put_rest(chunk::FILE_PATH, fields.as_slice(), out)
    }
}

/// Begins the record of a chunk at the end of `out`, with the path of its file: [`ChunkMeta::put_rest`] has to
/// follow. It fails only when out of memory; then `out` may have more bytes.
pub fn begin_chunk(alloc: Global, path: &[u8], out: &mut Vec<u8>) -> R<()>
    ensures stands { OnOk result (BeginsChunk path.now out.old.items out.new.items) }
    ensures which { RefusedMemoryOnly result }
{
    structs_are_written_in_pieces();
    let fields = path_field(alloc, path)?;
    let _last = put_next_fields(0, fields.as_slice(), out)?;
    Ok(())
}

/// Begins the record of a group of this many chunks at the end of `out`: the records of the chunks have to follow, and
/// [`end_group`]. What is written is the next group of a footer that is begun there. It fails only when out of memory;
/// then `out` may have more bytes.
pub fn begin_group(chunks: usize, out: &mut Vec<u8>) -> R<()>
    ensures stands { OnOk result (BeginsGroup chunks [] out.old.items out.new.items) }
    ensures which { RefusedMemoryOnly result }
{
    structs_are_written_in_pieces();
    put_list_start(0, group::COLUMNS, ElementType::Struct, chunks, out)
}

/// Ends the record of a group, all of whose chunks are written, with this size and number of rows. It fails only when
/// out of memory; then `out` may have more bytes.
pub fn end_group(
    alloc: Global,
    total_byte_size: Option<i64>,
    num_rows: i64,
    out: &mut Vec<u8>,
) -> R<()>
    ensures stands { OnOk result ((cs : List ChunkMetaShown) (old : List ℕ) → BeginsGroup (length cs) cs old out.old.items
        → AppendsStruct (group_meta_fields (record { columns = cs; total_byte_size = total_byte_size; num_rows = num_rows })) old out.new.items) }
    ensures which { RefusedMemoryOnly result }
{
    structs_are_written_in_pieces();
    let fields = fields_behind_chunks(alloc, total_byte_size, num_rows)?;
    let _last = put_next_fields(group::COLUMNS, fields.as_slice(), out)?;
    put_end(out)
}

/// The path of a chunk's file, as the first field of its record.
fn path_field(alloc: Global, path: &[u8]) -> R<Vec<Field>>
    ensures stands { IfOk result (λ fields. map field_view fields.items ≡ chunk_start path.now) }
    ensures which { RefusedMemoryOnly result }
{
    let path = Vec::from_slice(alloc, path)?;
    let mut fields = Vec::with_capacity(alloc, 1)?;
    put_given(alloc, &mut fields, chunk::FILE_PATH, &Some(path))?;
    Ok(fields)
}

/// The fields of a chunk's record behind its path.
fn fields_behind_path(alloc: Global, meta: &ChunkMeta) -> R<Vec<Field>>
    ensures stands { IfOk result (λ fields. field_views fields.items ≡ chunk_rest (chunk_meta_view meta.now)) }
    ensures which { RefusedMemoryOnly result }
{
    let mut fields = Vec::with_capacity(alloc, 2)?;
    put_given(alloc, &mut fields, chunk::FILE_OFFSET, &meta.file_offset)?;
    put(alloc, &mut fields, chunk::META_DATA, &meta.meta_data)?;
    Ok(fields)
}

/// The fields of a group's record behind its chunks.
fn fields_behind_chunks(alloc: Global, total_byte_size: Option<i64>, num_rows: i64) -> R<Vec<Field>>
    ensures stands { IfOk result (λ fields. map field_view fields.items ≡ group_rest total_byte_size num_rows) }
    ensures which { RefusedMemoryOnly result }
{
    let mut fields = Vec::with_capacity(alloc, 2)?;
    put_given(alloc, &mut fields, group::TOTAL_BYTE_SIZE, &total_byte_size)?;
    put(alloc, &mut fields, group::NUM_ROWS, &num_rows)?;
    Ok(fields)
}

/// The fields before the groups.
fn fields_before(alloc: Global, meta: &FileMeta) -> R<Vec<Field>>
    ensures stands { IfOk result (λ fields. map field_view fields.items ≡ fields_before (file_meta_view meta.now)) }
    ensures which { RefusedMemoryOnly result }
{
    let mut fields = Vec::with_capacity(alloc, 3)?;
    put_given(alloc, &mut fields, file::VERSION, &meta.version)?;
    put(alloc, &mut fields, file::SCHEMA, &meta.schema)?;
    put_given(alloc, &mut fields, file::NUM_ROWS, &meta.num_rows)?;
    Ok(fields)
}

/// The fields after the groups.
fn fields_after(alloc: Global, meta: &FileMeta) -> R<Vec<Field>>
    ensures stands { IfOk result (λ fields. map field_view fields.items ≡ fields_after (file_meta_view meta.now)) }
    ensures which { RefusedMemoryOnly result }
{
    let mut fields = Vec::with_capacity(alloc, 3)?;
    put_given(
        alloc,
        &mut fields,
        file::KEY_VALUE_METADATA,
        &meta.key_value_metadata,
    )?;
    put_given(alloc, &mut fields, file::CREATED_BY, &meta.created_by)?;
    put_given(alloc, &mut fields, file::COLUMN_ORDERS, &meta.column_orders)?;
    Ok(fields)
}
