//! The record of a group in a root.

ghost use Rattle.std.specs.Prelude.{◌≡◌, suc, ◌<◌, ◌≤◌, ◌^◌, ◌<ℤ◌, ◌↔◌, ℕ, pos, List, Some, map, take, length, option_map, IsTrue, IfOk, OnOk, IfErr};
ghost use Rattle.bits.specs.declared.refusal.Refusal.TheVariants.{Memory};
ghost use Rattle.schema.specs.Shape.{Fields};
ghost use Rattle.schema.specs.Law.{IsSchema};
ghost use Rattle.schema.specs.Stripe.{leaves_of};
ghost use Rattle.schema.specs.Keys.{key_columns_view};
ghost use Rattle.schema.specs.Views.{leaf_view};
ghost use Rattle.metadata.specs.Records.{ChunkMeta as ChunkMetaShown};
ghost use Rattle.metadata.specs.Views.{chunk_meta_view, group_meta_view};
ghost use Rattle.row_group.specs.Greatest.{most_rows};
ghost use Rattle.statistics.specs.Bounds.{Statistics as StatisticsShown, statistics_of};
ghost use Rattle.manifest.specs.Groups.{Group as GroupShown, group_view};
ghost use Rattle.manifest.specs.KeptChunks.{unplaced};
ghost use Rattle.manifest.specs.Records.{AreChunkRecords, IsGroupRecord, placed};
ghost use Rattle.manifest.specs.inner.Reading.{HasFronts, IsChunksFault, IsGroupFault, IsRowsFault, FirstPath};

use crate::chunk_reading::statistics_in;
use crate::chunk_records::ChunkRecords;
use crate::fronts::Fronts;
use crate::group::Group;
use crate::part_paths::key_and_low_number;
use bits::{R, Refusal};
use metadata::{ChunkMeta, GroupMeta};
use row_group::MOST_ROWS_OF_GROUP;
use schema::{KeyColumn, Leaf, fronts_have_the_first_leaves};
use statistics::{GroupStats, Stats};
use std::alloc::Global;

/// What the record of a group in a root says, of a table with these keys, whose files have these leaves or those of the
/// first fields. The group keeps the records of its chunks without the path of its file.
///
/// Refused Schema where its chunks are not those of the leaves; Codec for a compressed chunk; Limit for more rows or
/// entries than are read; Key for a path that names no key; Page for all else.
pub(crate) fn group_in(
    alloc: Global,
    keys: &[KeyColumn],
    leaves: &[Leaf],
    fronts: &Fronts,
    meta: GroupMeta,
) -> R<Group>
    ensures stands { (stored : Fields) → IsSchema stored → map leaf_view leaves.now ≡ leaves_of stored → HasFronts fronts.now stored
        → IfOk result (λ g. IsGroupRecord (key_columns_view keys.now) stored (group_meta_view meta) (group_view g)) }
    ensures small { IfOk result (λ g. suc g.number < 2 ^ 64) }
    ensures only { (stored : Fields) → IsSchema stored → map leaf_view leaves.now ≡ leaves_of stored → HasFronts fronts.now stored
        → IfErr result (λ e. (e ≡ Memory → ⊥) → (g : GroupShown) → suc g.number < 2 ^ 64 → IsGroupRecord (key_columns_view keys.now) stored (group_meta_view meta) g → ⊥) }
    ensures which { IfErr result (IsGroupFault (group_meta_view meta)) }
{
    fronts_have_the_first_leaves();
    let rows = rows_of(&meta)?;
    let columns = meta.columns.as_slice();
    let Some(width) = fronts.width_of(columns.len()) else {
        return Err(Refusal::Schema);
    };
    let Some(path) = path_in(columns) else {
        return Err(Refusal::Page);
    };
    let (key, number) = key_and_low_number(alloc, keys, path)?;
    let known = known_at(alloc, leaves, path, columns)?;
    let chunks = ChunkRecords::of(alloc, columns)?;
    let stats = GroupStats {
        rows,
        leaves: known,
    };
    Ok(Group {
        number,
        key,
        width,
        chunks,
        stats,
    })
}

/// A number of rows: at least one, and no more than are read.
pub(crate) fn rows_of(meta: &GroupMeta) -> R<u64>
    ensures stands { IfOk result (λ n. (meta.now.num_rows ≡ pos n) × (1 ≤ n)) }
    ensures within_limits { OnOk result (most_rows <ℤ meta.now.num_rows → ⊥) }
    ensures only { IfErr result (λ e. (n : ℕ) → meta.now.num_rows ≡ pos n → 1 ≤ n → (most_rows <ℤ meta.now.num_rows → ⊥) → ⊥) }
    ensures which { IfErr result (IsRowsFault meta.now.num_rows) }
{
    if meta.num_rows > MOST_ROWS_OF_GROUP {
        return Err(Refusal::Limit);
    }
    if meta.num_rows < 1 {
        return Err(Refusal::Page);
    }
    Ok(meta.num_rows as u64)
}

/// The path of the file that the first chunk names.
fn path_in(chunks: &[ChunkMeta]) -> Option<&[u8]>
    ensures { FirstPath (map chunk_meta_view chunks.now) (option_map (λ p. p.now) result) }
{
    match chunks.first() {
        Some(chunk) => match &chunk.file_path {
            Some(path) => Some(path.as_slice()),
            None => None,
        },
        None => None,
    }
}

/// What the records of the chunks of a file at this path say of their columns, of which these are the first leaves.
fn known_at(alloc: Global, leaves: &[Leaf], path: &[u8], chunks: &[ChunkMeta]) -> R<Vec<Stats>>
    ensures placed { let cs = map chunk_meta_view chunks.now in OnOk result (cs ≡ map (placed path.now) (map unplaced cs)) }
    ensures stands { let cs = map chunk_meta_view chunks.now in
        IfOk result (λ known. AreChunkRecords (take (length chunks.now) (map leaf_view leaves.now)) (map unplaced cs) (map statistics_of known.items)) }
    ensures only { IfErr result (λ e. (e ≡ Memory → ⊥) → (own : List ChunkMetaShown) (known : List StatisticsShown)
        → map chunk_meta_view chunks.now ≡ map (placed path.now) own → AreChunkRecords (take (length chunks.now) (map leaf_view leaves.now)) own known → ⊥) }
    ensures which { IfErr result (IsChunksFault (map chunk_meta_view chunks.now)) }
{
    if chunks.len() > leaves.len() {
        return Err(Refusal::Schema);
    }
    let mut known = Vec::with_capacity(alloc, chunks.len())?;
    for (i, chunk) in chunks.iter().enumerate() {
        if !is_at(chunk, path) {
            return Err(Refusal::Page);
        }
        let stats = statistics_in(alloc, chunk, &leaves[i])?;
        known.push(stats)?;
    }
    Ok(known)
}

/// Whether a chunk lies in the file at this path.
fn is_at(chunk: &ChunkMeta, path: &[u8]) -> bool
    ensures { IsTrue result ↔ ((chunk_meta_view chunk.now).file_path ≡ Some path.now) }
{
    match &chunk.file_path {
        Some(file_path) => file_path.as_slice() == path,
        None => false,
    }
}
