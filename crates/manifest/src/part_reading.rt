//! The group of a part file that was just written.

ghost use Rattle.std.specs.Prelude.{◌≡◌, ◌<◌, ◌^◌, ◌↔◌, ℕ, suc, List, [], ◌∷◌, map, length, IsTrue, IfOk, IfErr, MatchOption};
ghost use Rattle.std.specs.List.{AllByRecursion};
ghost use Rattle.std.specs.Rc.{rc_str_bytes};
ghost use Rattle.bits.specs.declared.refusal.Refusal.TheVariants.{Memory, Limit};
ghost use Rattle.schema.specs.Views.{leaf_view};
ghost use Rattle.metadata.specs.Records.{GroupMeta as GroupMetaShown};
ghost use Rattle.metadata.specs.Views.{chunk_meta_view, group_meta_view, file_meta_view};
ghost use Rattle.statistics.specs.Bounds.{Statistics as StatisticsShown, statistics_of};
ghost use Rattle.manifest.specs.Records.{AreChunkRecords};
ghost use Rattle.manifest.specs.Laws.{AreNamesShort};

use crate::chunk_reading::{MOST_BYTES_OF_NAME, statistics_in};
use crate::chunk_records::ChunkRecords;
use crate::group::Group;
use crate::group_reading::rows_of;
use crate::laws::written_parts_hold_groups;
use bits::{R, Refusal};
use metadata::{ChunkMeta, FileMeta, GroupMeta};
use schema::{Key, Leaf, Schema, whole_rows_are_padded};
use statistics::{GroupStats, Stats};
use std::alloc::Global;
use std::rc::RcStr;

impl Group {
    ghost use Rattle.schema.specs.Values.{ValueTrees};
    ghost use Rattle.schema.specs.Shape.{count};
    ghost use Rattle.schema.specs.Keys.{KeyColumn, AreRowsOf};
    ghost use Rattle.schema.specs.Views.{key_view};
    ghost use Rattle.footer.specs.declared.options.WriteOptions.{WriteOptions};
    ghost use Rattle.footer.specs.Writing.{IsTooMuch};
    ghost use Rattle.partition.specs.Folders.{CanPartition};
    ghost use Rattle.manifest.specs.Handles.{group_view};
    ghost use Rattle.manifest.specs.Records.{IsGroup};
    ghost use Rattle.manifest.specs.Parts.{HoldsGroup, PartMeans};
    ghost use Rattle.manifest.specs.Written.{HaveRecord, IsPartOf};

    /// The group of a part file with this record in its footer: of this key and number, with the records of its chunks,
    /// in a table whose files have these fields. It is the caller's duty that a number stands behind this one in 64 bits.
    ///
    /// Where [`footer::FileWriter`] made the file of rows of one group it is refused only for memory, and Limit only where
    /// the rows are too much for a file: a name has 2^32 bytes and more. Another record is refused Page for another number
    /// of groups, and as the records of a root are. Time and room are linear in the record.
    pub fn of_record(
        alloc: Global,
        stored: &Schema,
        key: &Key,
        number: u64,
        record: &FileMeta,
    ) -> R<Group>
        requires { suc number < 2 ^ 64 }
        ensures number { IfOk result (λ g. g.number ≡ number) }
        ensures key { IfOk result (λ g. key_view g.key ≡ key_view key.now) }
        ensures width { IfOk result (λ g. g.width ≡ count stored.now) }
        ensures is { IfOk result (λ g. (keys : List KeyColumn) → CanPartition keys (key_view key.now) → IsGroup keys stored.now (group_view g)) }
        ensures holds { IfOk result (λ g. (bytes : List ℕ) → HaveRecord bytes (file_meta_view record.now)
            → (o : WriteOptions) (rows : List ValueTrees) → IsPartOf o stored.now rows bytes → HoldsGroup stored.now (group_view g) bytes rows) }
        ensures means { IfOk result (λ g. (bytes : List ℕ) → HaveRecord bytes (file_meta_view record.now)
            → (o : WriteOptions) (rows : List ValueTrees) → IsPartOf o stored.now rows bytes
            → (keys : List KeyColumn) (held : List ValueTrees) → AreRowsOf keys (key_view key.now) rows held → PartMeans keys stored.now (group_view g) bytes held) }
        ensures only { IfErr result (λ e. (e ≡ Memory → ⊥) → (bytes : List ℕ) → HaveRecord bytes (file_meta_view record.now)
            → (o : WriteOptions) (rows : List ValueTrees) → IsPartOf o stored.now rows bytes → (e ≡ Limit) × IsTooMuch stored.now o rows) }
    {
        written_parts_hold_groups();
        whole_rows_are_padded();
        let leaves = stored.leaves();
        if !have_short_names(leaves) {
            return Err(Refusal::Limit);
        }
        let Some(own) = own_group(record) else {
            return Err(Refusal::Page);
        };
        let rows = rows_of(own)?;
        let known = known_of(alloc, leaves, own.columns.as_slice())?;
        let chunks = ChunkRecords::of(alloc, own.columns.as_slice())?;
        let key = key.copied(alloc)?;
        let width = stored.fields().len();
        let stats = GroupStats {
            rows,
            leaves: known,
        };
        Ok(Group {
            number,
            key,
            width,
            chunks,
            stats,
        })
    }
}

/// The one group of a file, by the record in its footer.
fn own_group(record: &FileMeta) -> Option<&GroupMeta>
    ensures { let groups = (file_meta_view record.now).row_groups in
        MatchOption result ((own : GroupMetaShown) → groups ≡ own ∷ [] → ⊥) (λ own. groups ≡ group_meta_view own.now ∷ []) }
{
    if record.row_groups.len() != 1 {
        return None;
    }
    record.row_groups.first()
}

/// What the records of a file's own chunks say of its columns, of which these are the leaves.
pub(crate) fn known_of(alloc: Global, leaves: &[Leaf], chunks: &[ChunkMeta]) -> R<Vec<Stats>>
    ensures stands { IfOk result (λ known. AreChunkRecords (map leaf_view leaves.now) (map chunk_meta_view chunks.now) (map statistics_of known.items)) }
    ensures only { IfErr result (λ e. (e ≡ Memory → ⊥) → (known : List StatisticsShown) → AreChunkRecords (map leaf_view leaves.now) (map chunk_meta_view chunks.now) known → ⊥) }
{
    if chunks.len() != leaves.len() {
        return Err(Refusal::Schema);
    }
    let mut known = Vec::with_capacity(alloc, chunks.len())?;
    for (i, chunk) in chunks.iter().enumerate() {
        if chunk.file_path.is_some() {
            return Err(Refusal::Page);
        }
        let stats = statistics_in(alloc, chunk, &leaves[i])?;
        known.push(stats)?;
    }
    Ok(known)
}

/// Whether the names on the path to each leaf are shorter than 2^32 bytes.
fn have_short_names(leaves: &[Leaf]) -> bool
    ensures { IsTrue result ↔ AreNamesShort (map leaf_view leaves.now) }
{
    for leaf in leaves {
        if !has_short_names(leaf) {
            return false;
        }
    }
    true
}

fn has_short_names(leaf: &Leaf) -> bool
    ensures { IsTrue result ↔ AllByRecursion (λ name. length name < 2 ^ 32) (leaf_view leaf.now).path }
{
    are_short(leaf.path.as_slice())
}

fn are_short(names: &[RcStr]) -> bool
    ensures { IsTrue result ↔ AllByRecursion (λ name. length name < 2 ^ 32) (map rc_str_bytes names.now) }
{
    for name in names {
        if !is_short(name) {
            return false;
        }
    }
    true
}

fn is_short(name: &RcStr) -> bool
    ensures { IsTrue result ↔ (length (rc_str_bytes name.now) < 2 ^ 32) }
{
    name.as_str().len() <= MOST_BYTES_OF_NAME
}
