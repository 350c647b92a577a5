//! All rows of a group that satisfy.

ghost use Rattle.std.specs.Prelude.{◌≡◌, ◌↔◌, ◌≤◌, ◌+◌, List, IfOk};
ghost use Rattle.bits.specs.Refusals.{RefusedOnly};
ghost use Rattle.schema.specs.Keys.{key_columns_view, AreKeys};
ghost use Rattle.schema.specs.Values.{ValueTrees};
ghost use Rattle.schema.specs.Views.{rows_view};
ghost use Rattle.vault.specs.Calls.{LeavesAll, CountsOnce};
ghost use Rattle.manifest.specs.Groups.{group_view};
ghost use Rattle.filter.specs.Test.{tests_in};
ghost use Rattle.scan.specs.Absent.{Lacks, MayLackRows};
ghost use Rattle.scan.specs.Cost.{chunks_read};
ghost use Rattle.scan.specs.Faults.{IsPartRefusal, IsDevice};
ghost use Rattle.scan.specs.Selected.{IsOver, Holds, AreSelected, IsRuledOut};

use crate::group_rows::GroupRows;
use bits::R;
use disk::Disk;
use filter::Filter;
use manifest::Group;
use schema::{KeyColumn, Row, Schema};
use std::alloc::Global;
use vault::Vault;

/// The rows of a group that satisfy a filter over the table's schema, in their order, cut to the top-level columns at
/// these places, which may stand in any order; a row keeps the schema's.
///
/// A group that the filter rules out by its key or its statistics is not read at all. Else the chunks of the leaves
/// that the filter looks at are read, and, where some row satisfies, those of the other leaves in the wanted columns:
/// each once, by one read of just its bytes. Key columns, and columns that the group's file lacks, cost no read.
///
/// Refused Device where the disk failed, and Memory; where the group's file is not kept, or is not what the group says,
/// also by the reader's numbers, Truncated where it is absent. Held are the bytes of the chunks, one page's entries of
/// each, a mark for each row, and the rows that are returned.
pub fn rows_of<D: Disk>(
    alloc: Global,
    vault: &mut Vault<D>,
    schema: &Schema,
    keys: &[KeyColumn],
    group: &Group,
    filter: &Filter,
    places: &[usize],
) -> R<Vec<Row>>
    ensures stands { (D.state vault.old.disk).honest → IsOver (tests_in filter.now) schema.now
        → AreKeys (key_columns_view keys.now) schema.now → (rows : List ValueTrees)
        → Holds (D.state vault.old.disk) (key_columns_view keys.now) schema.now (group_view group.now) rows
        → IfOk result (λ out. AreSelected (tests_in filter.now) places.now rows (rows_view out.items)) }
    ensures only { (D.state vault.old.disk).honest → AreKeys (key_columns_view keys.now) schema.now → (rows : List ValueTrees)
        → Holds (D.state vault.old.disk) (key_columns_view keys.now) schema.now (group_view group.now) rows → RefusedOnly IsDevice result }
    ensures absent { (D.state vault.old.disk).honest → IsOver (tests_in filter.now) schema.now → AreKeys (key_columns_view keys.now) schema.now
        → Lacks (D.state vault.old.disk) (key_columns_view keys.now) schema.now (group_view group.now)
        → IfOk result (λ out. MayLackRows (tests_in filter.now) (key_columns_view keys.now) schema.now (group_view group.now) places.now (rows_view out.items)) }
    ensures which { RefusedOnly (IsPartRefusal (D.state vault.old.disk) (D.state vault.new.disk)) result }
    ensures unchanged { (D.state vault.old.disk).honest → LeavesAll (D.state vault.old.disk) (D.state vault.new.disk) }
    ensures unread { IsRuledOut (tests_in filter.now) (key_columns_view keys.now) (group_view group.now)
        → (D.state vault.new.disk).reads ≡ (D.state vault.old.disk).reads }
    ensures cost { (D.state vault.new.disk).reads ≤ (D.state vault.old.disk).reads
        + chunks_read (tests_in filter.now) (key_columns_view keys.now) schema.now (group_view group.now) places.now }
    ensures reads { (D.state vault.old.disk).reads ≤ (D.state vault.new.disk).reads }
    ensures counts { CountsOnce result (D.state vault.old.disk) (D.state vault.new.disk) }
    ensures honest { (D.state vault.old.disk).honest ↔ (D.state vault.new.disk).honest }
{
    match GroupRows::read(alloc, vault, schema, keys, group, filter, places)? {
        None => Ok(Vec::new(alloc)),
        Some(rows) => rows.collected(alloc),
    }
}
