//! The chunks of some of a group's leaves.

ghost use Rattle.std.specs.Prelude.{◌≡◌, ◌≢◌, pos, List, length, IfOk, OnOk, Err};
ghost use Rattle.bits.specs.Refusals.{OnFault, RefusedOnly};
ghost use Rattle.schema.specs.Stripe.{Entry, leaves_of};
ghost use Rattle.metadata.specs.Views.{group_meta_view};
ghost use Rattle.row_group.specs.Limits.{IsChunkOver, BeginsWith, IsOfChunks};
ghost use Rattle.row_group.specs.Wanted.{HasWanted};
ghost use Rattle.row_group.specs.inner.WantedChunks.{AreReadersAt, AreSoundAt, HoldNothingAt};

use crate::chunk_reader::ChunkReader;
use crate::group_chunks::{check_column, reader_of};
use bits::{R, Refusal};
use metadata::GroupMeta;
use schema::Schema;
use std::alloc::Global;

/// A reader for the chunk of each leaf at one of these places, in the order of the leaves. No page is
/// read, and nothing is asked of the other chunks.
///
/// Refused Schema where there are not as many chunks as leaves; otherwise as
/// [`reader_of`](crate::group_chunks::reader_of).
pub fn wanted_readers<'a>(
    alloc: Global,
    front: &'a [u8],
    meta: &GroupMeta,
    schema: &'a Schema,
    wanted: &[usize],
) -> R<Vec<ChunkReader<'a>>>
    ensures as_many { OnOk result (length (group_meta_view meta.now).columns ≡ length (leaves_of schema.now)) }
    ensures stands { IfOk result (λ rs. AreReadersAt front.now wanted.now schema.now (group_meta_view meta.now) rs.items) }
    ensures only { OnFault result (HoldNothingAt front.now wanted.now schema.now (group_meta_view meta.now)) }
    ensures limit { result ≡ Err Refusal.Limit → HasWanted wanted.now schema.now (group_meta_view meta.now) (BeginsWith front.now IsChunkOver) }
    ensures codec { result ≡ Err Refusal.Codec → HasWanted wanted.now schema.now (group_meta_view meta.now) (λ m leaf. m.codec ≢ pos 0) }
    ensures which { RefusedOnly IsOfChunks result }
{
    let leaves = schema.leaves();
    if meta.columns.len() != leaves.len() {
        return Err(Refusal::Schema);
    }
    let mut readers = Vec::new(alloc);
    for (place, leaf) in leaves.iter().enumerate() {
        if !wanted.contains(&place) {
            continue;
        }
        let chunk = &meta.columns[place].meta_data;
        let reader = reader_of(alloc, front, chunk, leaf)?;
        readers.push(reader)?;
    }
    Ok(readers)
}

/// Reads the chunk of each leaf at one of these places, and keeps nothing of it. Refused as
/// [`wanted_readers`], and as [`check_chunk`](crate::check_chunk) is.
pub fn check_wanted(
    alloc: Global,
    front: &[u8],
    meta: &GroupMeta,
    schema: &Schema,
    wanted: &[usize],
) -> R<()>
    ensures stands { OnOk result ((columns : List (List Entry)) × AreSoundAt front.now wanted.now schema.now (group_meta_view meta.now) columns) }
    ensures only { OnFault result (HoldNothingAt front.now wanted.now schema.now (group_meta_view meta.now)) }
    ensures limit { result ≡ Err Refusal.Limit → HasWanted wanted.now schema.now (group_meta_view meta.now) (BeginsWith front.now IsChunkOver) }
    ensures codec { result ≡ Err Refusal.Codec → HasWanted wanted.now schema.now (group_meta_view meta.now) (λ m leaf. m.codec ≢ pos 0) }
    ensures which { RefusedOnly IsOfChunks result }
{
    let leaves = schema.leaves();
    if meta.columns.len() != leaves.len() {
        return Err(Refusal::Schema);
    }
    for (place, leaf) in leaves.iter().enumerate() {
        if !wanted.contains(&place) {
            continue;
        }
        let chunk = &meta.columns[place].meta_data;
        check_column(alloc, front, chunk, leaf)?;
    }
    Ok(())
}
