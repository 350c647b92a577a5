//! What a removal leaves of a group.

ghost use Rattle.std.specs.Prelude.{◌≡◌, Some, List, IfOk, length};
ghost use Rattle.std.specs.List.{slice_get};
ghost use Rattle.bits.specs.Refusals.{RefusedOnly, RefusedMemoryOnly};
ghost use Rattle.schema.specs.Fits.{RowsFit};
ghost use Rattle.schema.specs.Views.{key_view};
ghost use Rattle.filter.specs.Test.{tests_in};
ghost use Rattle.manifest.specs.Groups.{Group as FileGroup, group_view, root_of};
ghost use Rattle.manifest.specs.Root.{stored_of};
ghost use Rattle.scan.specs.Absent.{CanHoldNone};
ghost use Rattle.scan.specs.Faults.{IsDevice};
ghost use Rattle.scan.specs.Left.{rows_held, others_held};
ghost use Rattle.table.specs.Table.{Row as TableRow, Group as TableGroup};
ghost use Rattle.gather.specs.KeyBuffers.{HoldsRows};
ghost use Rattle.table_state.specs.Promises.{IsSure};
ghost use Rattle.table_reads.specs.Counting.{CanFilter, IsHeld, LacksIn};
ghost use Rattle.table_reads.specs.Reading.{OnlyReads};
ghost use Rattle.table_changes.specs.Removing.{AreRemains};

use bits::{R, Refusal};
use disk::Disk;
use filter::Filter;
use gather::KeyBuffer;
use manifest::{Group, Manifest};
use scan::GroupRows;
use shred::RowBuffer;
use std::alloc::Global;
use table_reads::{show_rows, stored_places};
use vault::Vault;

/// How many rows of a group satisfy, and, where one does, the others, without their keys.
#[derive(Drop)]
pub(crate) struct Remains<'a> {
    pub number: u64,
    pub gone: u64,
    pub rest: KeyBuffer<'a>,
}

/// What a removal leaves of the group at a place of a table. One that the filter rules out is not read; of another one
/// the chunks that the filter looks at are, and, where some row satisfies, the others: each once. Where there is no such
/// group it is refused Truncated.
pub(crate) fn remains_at<'a, D: Disk>(
    alloc: Global,
    vault: &mut Vault<D>,
    table: &'a Manifest,
    filter: &Filter,
    place: usize,
) -> R<Remains<'a>>
    ensures stands { (D.state vault.old.disk).honest → (f : FileGroup) (g : TableGroup) → slice_get (root_of table.now).groups place ≡ Some f → IsHeld (D.state vault.old.disk) (tests_in filter.now) (root_of table.now) f g
        → IfOk result (λ r. AreRemains (tests_in filter.now) (root_of table.now) f g r) }
    ensures only { (D.state vault.old.disk).honest → (f : FileGroup) (g : TableGroup) → slice_get (root_of table.now).groups place ≡ Some f → IsHeld (D.state vault.old.disk) (tests_in filter.now) (root_of table.now) f g
        → RefusedOnly IsDevice result }
    ensures absent { (D.state vault.old.disk).honest → CanFilter (tests_in filter.now) (root_of table.now) → (f : FileGroup)
        → slice_get (root_of table.now).groups place ≡ Some f → LacksIn (D.state vault.old.disk) (root_of table.now) f
        → IfOk result (λ r. (r.gone ≡ 0) × CanHoldNone (tests_in filter.now) (root_of table.now).keys (root_of table.now).schema f) }
    ensures effect { OnlyReads (D.state vault.old.disk) (D.state vault.new.disk) result }
    ensures sure { IsSure result }
{
    match table.groups().group_at(place) {
        None => Err(Refusal::Truncated),
        Some(group) => remains_of(alloc, vault, table, filter, group),
    }
}

/// What a removal leaves of this group, which is read unless the filter rules it out.
fn remains_of<'a, D: Disk>(
    alloc: Global,
    vault: &mut Vault<D>,
    table: &'a Manifest,
    filter: &Filter,
    group: &Group,
) -> R<Remains<'a>>
    ensures stands { (D.state vault.old.disk).honest → (g : TableGroup) → IsHeld (D.state vault.old.disk) (tests_in filter.now) (root_of table.now) (group_view group.now) g
        → IfOk result (λ r. AreRemains (tests_in filter.now) (root_of table.now) (group_view group.now) g r) }
    ensures only { (D.state vault.old.disk).honest → (g : TableGroup) → IsHeld (D.state vault.old.disk) (tests_in filter.now) (root_of table.now) (group_view group.now) g
        → RefusedOnly IsDevice result }
    ensures absent { (D.state vault.old.disk).honest → CanFilter (tests_in filter.now) (root_of table.now) → LacksIn (D.state vault.old.disk) (root_of table.now) (group_view group.now)
        → IfOk result (λ r. (r.gone ≡ 0) × CanHoldNone (tests_in filter.now) (root_of table.now).keys (root_of table.now).schema (group_view group.now)) }
    ensures effect { OnlyReads (D.state vault.old.disk) (D.state vault.new.disk) result }
    ensures sure { IsSure result }
{
    // For the proof: the rows of a part file fit the table.
    manifest::rows_of_parts_fit();
    let places = stored_places(alloc, table.schema().fields(), table.keys())?;
    // For the proof: what is known of the schema.
    let _ = table.schema().leaves();
    match GroupRows::read(
        alloc,
        vault,
        table.schema(),
        table.keys(),
        group,
        filter,
        places.as_slice(),
    )? {
        None => all_remain(alloc, table, group),
        Some(rows) => others_remain(alloc, table, group, rows),
    }
}

/// No row of a group goes.
fn all_remain<'a>(alloc: Global, table: &'a Manifest, group: &Group) -> R<Remains<'a>>
    ensures number { IfOk result (λ r. r.number ≡ (group_view group.now).number) }
    ensures key { IfOk result (λ r. key_view r.rest.key ≡ (group_view group.now).key) }
    ensures gone { IfOk result (λ r. r.gone ≡ 0) }
    ensures which { RefusedMemoryOnly result }
{
    let key = group.key.copied(alloc)?;
    let rows = RowBuffer::new(alloc, table.stored())?;
    Ok(Remains {
        number: group.number,
        gone: 0,
        rest: KeyBuffer { key, rows },
    })
}

/// These rows of a group go, which were read, and the others remain. They are of the columns that the table's files have.
fn others_remain<'a>(
    alloc: Global,
    table: &'a Manifest,
    group: &Group,
    rows: GroupRows,
) -> R<Remains<'a>>
    ensures number { IfOk result (λ r. r.number ≡ (group_view group.now).number) }
    ensures key { IfOk result (λ r. key_view r.rest.key ≡ (group_view group.now).key) }
    ensures gone { IfOk result (λ r. (given : List TableRow) → rows_held rows given → r.gone ≡ length given) }
    ensures rest { IfOk result (λ r. (others : List TableRow) → others_held rows others → RowsFit (stored_of (root_of table.now)) others
        → HoldsRows (stored_of (root_of table.now)) others r.rest) }
    ensures only { (given : List TableRow) → rows_held rows given → RefusedMemoryOnly result }
{
    let gone = rows.selected_count();
    let others = rows.others(alloc)?;
    let mut rest = RowBuffer::new(alloc, table.stored())?;
    show_rows(alloc, &others, &mut rest)?;
    let key = group.key.copied(alloc)?;
    Ok(Remains {
        number: group.number,
        gone,
        rest: KeyBuffer { key, rows: rest },
    })
}
