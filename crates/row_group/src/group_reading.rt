//! From bytes to rows.

ghost use Rattle.std.specs.Prelude.{◌≡◌, ◌≢◌, pos, List, IfOk, OnOk, Err};
ghost use Rattle.bits.specs.Refusals.{OnFault, RefusedOnly};
ghost use Rattle.schema.specs.Values.{ValueTrees};
ghost use Rattle.schema.specs.Views.{rows_view};
ghost use Rattle.metadata.specs.Views.{group_meta_view};
ghost use Rattle.row_group.specs.Limits.{IsOfChunks};
ghost use Rattle.row_group.specs.Wanted.{CutGroupMeans, HasNoOtherRows, AreRowsCut, HasWanted, IsCutGroupOver};

use crate::counts::count_of;
use crate::laws::{cut_groups_have_cut_rows, one_meaning};
use crate::limits::MOST_ROWS_OF_GROUP;
use crate::wanted_chunks::{check_wanted, wanted_readers};
use assemble::assemble_from;
use bits::{R, Refusal};
use metadata::GroupMeta;
use schema::{Row, Schema, columns_determine_rows};
use std::alloc::Global;

/// The rows of a group, cut to the wanted leaves, from the bytes of its file before the footer. The
/// leaves are named by their places in `schema.leaves()`, in any order; one that comes twice counts
/// once. The rows are those of [`schema.cut`](Schema::cut) of the same places.
///
/// Only the chunks of these leaves are looked at. A chunk of another leaf changes nothing, also where it
/// is compressed, holds a fault or goes beyond a limit.
///
/// Refused Schema where no leaf is wanted, one that is not there, or where there are not as many chunks as
/// leaves; otherwise as [`Rows::of_group`](crate::Rows::of_group), which reads all leaves. Each page is
/// decoded once, and a second time where the group is refused; with the rows, one page's entries of each
/// column are held at a time. (`parquet.thrift`, RowGroup.)
pub fn read_group(
    alloc: Global,
    front: &[u8],
    meta: &GroupMeta,
    schema: &Schema,
    wanted: &[usize],
) -> R<Vec<Row>>
    ensures stands { IfOk result (λ rows. CutGroupMeans front.now wanted.now schema.now (group_meta_view meta.now) (rows_view rows.items)) }
    ensures alone { IfOk result (λ rows. HasNoOtherRows front.now wanted.now schema.now (group_meta_view meta.now) (rows_view rows.items)) }
    ensures cut { IfOk result (λ rows. AreRowsCut front.now wanted.now schema.now (group_meta_view meta.now) (rows_view rows.items)) }
    ensures within_limits { OnOk result (IsCutGroupOver front.now wanted.now schema.now (group_meta_view meta.now) → ⊥) }
    ensures only { OnFault result ((rows : List ValueTrees) → CutGroupMeans front.now wanted.now schema.now (group_meta_view meta.now) rows → ⊥) }
    ensures limit { result ≡ Err Refusal.Limit → IsCutGroupOver front.now wanted.now schema.now (group_meta_view meta.now) }
    ensures codec { result ≡ Err Refusal.Codec → HasWanted wanted.now schema.now (group_meta_view meta.now) (λ m leaf. m.codec ≢ pos 0) }
    ensures which { RefusedOnly IsOfChunks result }
{
    one_meaning();
    columns_determine_rows();
    cut_groups_have_cut_rows();
    let count = count_of(meta.num_rows, MOST_ROWS_OF_GROUP)?;
    let cut = schema.cut(alloc, wanted)?;
    // For the proof: the cut is a schema.
    let _ = cut.leaves();
    let mut readers = wanted_readers(alloc, front, meta, schema, wanted)?;
    match assemble_from(alloc, &cut, readers.as_mut_slice()) {
        Ok(rows) if rows.len() == count => Ok(rows),
        Ok(_) => Err(Refusal::Levels),
        Err(refusal) => {
            check_wanted(alloc, front, meta, schema, wanted)?;
            Err(refusal)
        }
    }
}
