//! How a cursor goes on: to the next group with a row that satisfies.

ghost use Rattle.std.specs.Prelude.{◌≡◌, ℕ, List, Some, None, IfOk, IsErr};
ghost use Rattle.bits.specs.Refusals.{RefusedOnly, RefusedMemoryOnly};
ghost use Rattle.schema.specs.Keys.{KeyColumn, AreKeys};
ghost use Rattle.schema.specs.Values.{ValueTrees};
ghost use Rattle.filter.specs.Test.{tests_in};
ghost use Rattle.manifest.specs.Groups.{Group as FileGroup, root_of};
ghost use Rattle.scan.specs.Faults.{IsDevice};
ghost use Rattle.scan.specs.Selected.{IsOver, Holds, AreSelected};
ghost use Rattle.snapshots.specs.State.{open_at, group_in, version_at};
ghost use Rattle.snapshots.specs.Views.{state_of};
ghost use Rattle.table.specs.Cursors.{Cursor};
ghost use Rattle.table.specs.History.{next_answer};
ghost use Rattle.table.specs.Views.{fetched_view};
ghost use Rattle.table_state.specs.Stands.{ShowsCursor};
ghost use Rattle.table_reads.specs.Counting.{CanFilter, LacksIn};
ghost use Rattle.table_reads.specs.Reading.{OnlyReads, ReadsFor};
ghost use Rattle.table_reads.specs.Shown.{AreShown};
ghost use Rattle.table_reads.specs.Passing.{AreReached, Comes, Goes, IsOpened, MayComeOf, PassesAbsent, batches_with, moved, moved_at};

use bits::{R, Refusal};
use disk::Disk;
use scan::{GroupRows, held_rows_are_one};
use snapshots::Snapshots;
use std::alloc::Global;
use table::{Batch, CursorId, Fetched};
use table_state::OpenCursor;
use vault::Vault;

/// What a cursor comes to: how many groups it has passed then, and the rows that satisfy of the last of them, read and
/// accepted. There are none where no group is left.
#[derive(Drop)]
pub(crate) struct Reached {
    pub passed: usize,
    pub rows: Option<GroupRows>,
}

/// The rows of a batch, read and accepted: they can be shown one by one. The places are those of a query's columns in the
/// table's schema, in the order of the names that it was given.
#[derive(Drop)]
pub struct FetchedRows {
    pub places: Vec<usize>,
    pub rows: GroupRows,
}

/// Goes on from the groups that a cursor has passed.
pub(crate) fn next_rows<D: Disk>(
    alloc: Global,
    vault: &mut Vault<D>,
    snapshots: &Snapshots,
    cursor: &OpenCursor,
) -> R<Reached>
    ensures stands { (D.state vault.old.disk).honest → (keys : List KeyColumn) (count : ℕ) (open_cursor : ℕ × Cursor) (shown : ShowsCursor (D.state vault.old.disk) (state_of snapshots.now).cursors keys count cursor.now open_cursor)
        → IfOk result (λ r. (rows : List ValueTrees) → AreReached r.rows rows → Comes cursor.now shown.groups r.passed rows) }
    ensures accepted { IfOk result (λ r. (rows : List ValueTrees) × AreReached r.rows rows) }
    ensures only { (D.state vault.old.disk).honest → (keys : List KeyColumn) (count : ℕ) (open_cursor : ℕ × Cursor) → ShowsCursor (D.state vault.old.disk) (state_of snapshots.now).cursors keys count cursor.now open_cursor
        → RefusedOnly IsDevice result }
    ensures absent { (D.state vault.old.disk).honest → IsOpened (state_of snapshots.now) cursor.now
        → IfOk result (λ r. PassesAbsent (D.state vault.old.disk) cursor.now r.passed r.rows) }
    ensures goes { (version : List FileGroup) → open_at cursor.now.number (state_of snapshots.now).cursors ≡ Some version
        → Goes cursor.now version (D.state vault.old.disk) (D.state vault.new.disk) result }
    ensures unheld { open_at cursor.now.number (state_of snapshots.now).cursors ≡ None → (D.state vault.new.disk).reads ≡ (D.state vault.old.disk).reads }
    ensures effect { OnlyReads (D.state vault.old.disk) (D.state vault.new.disk) result }
{
    let count = cursor.table.groups().len();
    let mut passed = cursor.passed;
    for place in cursor.passed..count {
        let rows = rows_at(alloc, vault, snapshots, cursor, place)?;
        passed = place + 1;
        if rows.is_some() {
            return Ok(Reached { passed, rows });
        }
    }
    Ok(Reached { passed, rows: None })
}

/// The rows that satisfy of the group at a place of a cursor's version, cut to its columns; none where no row does.
/// Where there is no such group it is refused Truncated.
fn rows_at<D: Disk>(
    alloc: Global,
    vault: &mut Vault<D>,
    snapshots: &Snapshots,
    cursor: &OpenCursor,
    place: usize,
) -> R<Option<GroupRows>>
    ensures stands { (D.state vault.old.disk).honest → IsOver (tests_in cursor.now.filter) (root_of cursor.now.table).schema → AreKeys (root_of cursor.now.table).keys (root_of cursor.now.table).schema → (g : FileGroup) (rows : List ValueTrees)
        → group_in (version_at (state_of snapshots.now) (Some cursor.now.number)) place ≡ Some g → Holds (D.state vault.old.disk) (root_of cursor.now.table).keys (root_of cursor.now.table).schema g rows
        → IfOk result (λ read. (out : List ValueTrees) → AreReached read out → AreSelected (tests_in cursor.now.filter) cursor.now.places.items rows out) }
    ensures accepted { IfOk result (λ read. (out : List ValueTrees) × AreReached read out) }
    ensures only { (D.state vault.old.disk).honest → AreKeys (root_of cursor.now.table).keys (root_of cursor.now.table).schema → (g : FileGroup) (rows : List ValueTrees)
        → group_in (version_at (state_of snapshots.now) (Some cursor.now.number)) place ≡ Some g → Holds (D.state vault.old.disk) (root_of cursor.now.table).keys (root_of cursor.now.table).schema g rows
        → RefusedOnly IsDevice result }
    ensures absent { (D.state vault.old.disk).honest → CanFilter (tests_in cursor.now.filter) (root_of cursor.now.table) → (g : FileGroup)
        → group_in (version_at (state_of snapshots.now) (Some cursor.now.number)) place ≡ Some g
        → LacksIn (D.state vault.old.disk) (root_of cursor.now.table) g → IfOk result (MayComeOf cursor.now g) }
    ensures reads { (g : FileGroup) → group_in (version_at (state_of snapshots.now) (Some cursor.now.number)) place ≡ Some g
        → ReadsFor (tests_in cursor.now.filter) (root_of cursor.now.table).keys (root_of cursor.now.table).schema cursor.now.places.items g (D.state vault.old.disk) (D.state vault.new.disk) }
    ensures missing { group_in (version_at (state_of snapshots.now) (Some cursor.now.number)) place ≡ None → IsErr result × ((D.state vault.new.disk).reads ≡ (D.state vault.old.disk).reads) }
    ensures effect { OnlyReads (D.state vault.old.disk) (D.state vault.new.disk) result }
{
    held_rows_are_one();
    let table = &cursor.table;
    match snapshots.group_at(Some(cursor.number), place) {
        None => Err(Refusal::Truncated),
        Some(group) => GroupRows::read(
            alloc,
            vault,
            table.schema(),
            table.keys(),
            group,
            &cursor.filter,
            cursor.places.as_slice(),
        ),
    }
}

/// What is answered: a batch of these rows, or, where there are none, the end.
pub(crate) fn fetched_of(alloc: Global, places: &[usize], rows: &Option<GroupRows>) -> R<Fetched>
    ensures made { IfOk result (λ f. (out : List ValueTrees) → AreReached rows.now out → fetched_view f ≡ next_answer (batches_with places.now out)) }
    ensures which { (out : List ValueTrees) → AreReached rows.now out → RefusedMemoryOnly result }
{
    match rows {
        None => Ok(Fetched::End),
        Some(held) => {
            let rows = held.collected(alloc)?;
            let places = Vec::from_slice(alloc, places)?;
            Ok(Fetched::Batch(Batch { places, rows }))
        }
    }
}

/// What is answered in place of [`Fetched`], where the rows are not made: these rows, or, where there are none, nothing.
pub(crate) fn shown_of(
    alloc: Global,
    places: &[usize],
    rows: Option<GroupRows>,
) -> R<Option<FetchedRows>>
    ensures made { IfOk result (λ f. AreShown places.now rows f) }
    ensures which { RefusedMemoryOnly result }
{
    match rows {
        None => Ok(None),
        Some(rows) => {
            let places = Vec::from_slice(alloc, places)?;
            Ok(Some(FetchedRows { places, rows }))
        }
    }
}

/// The cursor of this number has passed so many groups. Takes no memory.
pub(crate) fn move_cursor(cursors: &mut [OpenCursor], number: CursorId, passed: usize, ended: bool)
    ensures { cursors.new ≡ moved_at number passed ended cursors.old }
{
    for i in 0..cursors.len() {
        if cursors[i].number == number {
            pass(&mut cursors[i], passed, ended);
            return;
        }
    }
}

/// This cursor has passed so many groups. Takes no memory.
fn pass(cursor: &mut OpenCursor, passed: usize, ended: bool)
    ensures { cursor.new ≡ moved passed ended cursor.old }
{
    cursor.passed = passed;
    cursor.ended = ended;
}
