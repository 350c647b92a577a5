//! The record of a chunk, against its leaf.

ghost use Rattle.std.specs.Prelude.{◌≡◌, ◌≢◌, ◌<ℤ◌, ◌↔◌, ℕ, pos, map, IsTrue, IfOk, OnOk, IfErr, Err};
ghost use Rattle.std.specs.Rc.{rc_str_bytes};
ghost use Rattle.bits.specs.Refusals.{OnFault, RefusedOnly};
ghost use Rattle.schema.specs.Views.{leaf_view};
ghost use Rattle.metadata.specs.Views.{column_meta_view};
ghost use Rattle.row_group.specs.Chunks.{IsChunkOf};
ghost use Rattle.row_group.specs.Greatest.{most_entries};
ghost use Rattle.row_group.specs.Limits.{IsOfChunks};
ghost use Rattle.row_group.specs.RecordFaults.{IsRecordFault};

use crate::counts::count_of;
use crate::limits::MOST_ENTRIES_OF_CHUNK;
use bits::{R, Refusal};
use metadata::ColumnMeta;
use schema::Leaf;
use std::rc::RcStr;

/// The number of CompressionCodec (`parquet.thrift`) for chunks that are stored as they are.
pub const UNCOMPRESSED: i32 = 0;

/// How many entries the chunk of this record has. No page is read, and no memory is taken.
///
/// Refused Schema where the record has not the path and the type of the leaf; Codec where the chunk is
/// compressed; Page for a negative count; Limit for more than [`MOST_ENTRIES_OF_CHUNK`]; and for nothing else.
/// (`parquet.thrift`, ColumnMetaData.)
pub fn check_record(meta: &ColumnMeta, leaf: &Leaf) -> R<usize>
    ensures of_leaf { OnOk result (IsChunkOf (column_meta_view meta.now) (leaf_view leaf.now)) }
    ensures count { IfOk result (λ n. (column_meta_view meta.now).num_values ≡ pos n) }
    ensures within_limits { OnOk result (most_entries <ℤ (column_meta_view meta.now).num_values → ⊥) }
    ensures only { OnFault result (IsChunkOf (column_meta_view meta.now) (leaf_view leaf.now) → (n : ℕ) → (column_meta_view meta.now).num_values ≡ pos n → ⊥) }
    ensures limit { result ≡ Err Refusal.Limit → most_entries <ℤ (column_meta_view meta.now).num_values }
    ensures codec { result ≡ Err Refusal.Codec → (column_meta_view meta.now).codec ≢ pos 0 }
    ensures cause { IfErr result (IsRecordFault (column_meta_view meta.now) (leaf_view leaf.now)) }
    ensures which { RefusedOnly IsOfChunks result }
{
    if !is_same_path(meta.path_in_schema.as_slice(), leaf.path.as_slice()) {
        return Err(Refusal::Schema);
    }
    if meta.kind != leaf.leaf_type.kind.number() {
        return Err(Refusal::Schema);
    }
    if meta.codec != UNCOMPRESSED {
        return Err(Refusal::Codec);
    }
    count_of(meta.num_values, MOST_ENTRIES_OF_CHUNK)
}

/// Whether a path has these names.
fn is_same_path(path: &[Vec<u8>], names: &[RcStr]) -> bool
    ensures { IsTrue result ↔ (map (λ s. s.items) path.now ≡ map rc_str_bytes names.now) }
{
    if path.len() != names.len() {
        return false;
    }
    for (i, name) in names.iter().enumerate() {
        if path[i].as_slice() != name.as_str().as_bytes() {
            return false;
        }
    }
    true
}
