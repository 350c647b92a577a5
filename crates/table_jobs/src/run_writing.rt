//! The rows of a run of sources, written in groups of as many rows as a group has.

ghost use Rattle.std.specs.Prelude.{◌≡◌, ◌≤◌, ◌+◌, ◌++◌, ◌↔◌, List, [], Some, false, map, length, IfOk, OnOk};
ghost use Rattle.std.specs.List.{AllByRecursion};
ghost use Rattle.std.specs.Rc.{rc_value};
ghost use Rattle.bits.specs.Refusals.{RefusedMemoryOnly};
ghost use Rattle.schema.specs.Keys.{row_without_keys, without_keys};
ghost use Rattle.schema.specs.Views.{key_view, rows_view};
ghost use Rattle.partition.specs.Folders.{CanPartition};
ghost use Rattle.gather.specs.KeyBuffers.{HoldsRows};
ghost use Rattle.scan.specs.Left.{rows_held};
ghost use Rattle.manifest.specs.Groups.{group_view, handles_view, root_of};
ghost use Rattle.manifest.specs.Root.{CanHave, stored_of};
ghost use Rattle.table.specs.Table.{Row as TableRow, Key as TableKey, Group as TableGroup, IsRowIn, rows};
ghost use Rattle.table_reads.specs.Counting.{IsHeld};
ghost use Rattle.table.specs.State.{State};
ghost use Rattle.table_state.specs.Promises.{IsSure};
ghost use Rattle.table_state.specs.Lookups.{job_at};
ghost use Rattle.table_commits.specs.Filling.{HasWritten, Goes};
ghost use Rattle.table_jobs.specs.Rewritten.{IsSource, AreSources, IsRunIn, kept_at, AddsAll, AddsOne, Task, AreUnderWay, StaysUnderWay};

use crate::run_sources::{kept_rows, place_after};
use bits::{R, Refusal};
use disk::Disk;
use gather::KeyBuffer;
use manifest::{Group, Manifest};
use partition::without_keys;
use scan::GroupRows;
use schema::Row;
use shred::RowBuffer;
use std::alloc::Global;
use std::mem;
use std::rc::Rc;
use table::JobId;
use table_commits::write_gathered;
use table_reads::{show_next, shown_rows};
use table_state::Core;

/// Writes the rows of sources of one key for a job, in their order, in a table that is described so: each group has as
/// many rows as a group has, the last has the rest. The first source has this place over all runs.
pub(crate) fn write_sources<D: Disk>(
    store: &mut Core<D>,
    alloc: Global,
    job: JobId,
    table: &Manifest,
    written: &mut Vec<Rc<Group>>,
    place: usize,
    sources: &[Rc<Group>],
) -> R<()>
    ensures writes { (D.state store.old.vault.disk).honest → (start : Core D) (s : State) (groups run : List TableGroup) → s.closed ≡ false
        → store.old.jobs ≡ start.jobs → root_of table.now ≡ root_of store.old.manifest
        → HasWritten D.state start store.old s (Some job) (handles_view written.old.items) groups
        → AreSources (D.state start.vault.disk) s (job_at job start.jobs.items) place (handles_view sources.now) run → (is : IsRunIn s run)
        → AddsAll D.state start store.new s (Some job) (handles_view written.old.items) (handles_view written.new.items) groups is.key (rows run) (store.old.next_group + length (rows run)) result }
    ensures goes { OnOk result (Goes (handles_view written.old.items) (handles_view written.new.items)) }
    ensures fit { OnOk result (CanHave (root_of store.old.manifest) (handles_view written.old.items)
        → CanHave (root_of store.old.manifest) (handles_view written.new.items)) }
    ensures same { store.new ≡ record store.old { vault = store.new.vault; snapshots = store.new.snapshots; next_group = store.new.next_group } }
    ensures sure { IsSure result }
    ensures counts { (D.state store.old.vault.disk).failures ≤ (D.state store.new.vault.disk).failures }
    ensures honest { (D.state store.old.vault.disk).honest ↔ (D.state store.new.vault.disk).honest }
{
    if sources.is_empty() {
        return Ok(());
    }
    let mut waiting = none_waiting(alloc, table, &sources[0])?;
    let mut at = place;
    for source in sources {
        take_source(store, alloc, job, table, written, &mut waiting, at, source)?;
        let behind = place_after(at, 1)?;
        at = behind;
    }
    write_last(store, alloc, job, written, waiting)
}

/// Takes the rows of the source at a place: those that the rewrite has read of it, or those that are read now.
fn take_source<'a, D: Disk>(
    store: &mut Core<D>,
    alloc: Global,
    job: JobId,
    table: &'a Manifest,
    written: &mut Vec<Rc<Group>>,
    waiting: &mut KeyBuffer<'a>,
    place: usize,
    source: &Rc<Group>,
) -> R<()>
    ensures takes { (D.state store.old.vault.disk).honest → (start : Core D) (s : State) (task : Task) (group : TableGroup) (later : List TableRow)
        → s.closed ≡ false → store.old.jobs ≡ start.jobs → root_of table.now ≡ root_of store.old.manifest
        → IsSource (D.state start.vault.disk) s (kept_at place (job_at job start.jobs.items)) (group_view (rc_value source.now)) group
        → AreUnderWay D.state start store.old s job task (handles_view written.old.items) waiting.old (group.rows ++ later) 1
        → StaysUnderWay D.state start store.new s job task (handles_view written.new.items) waiting.new later 1 result }
    ensures goes { OnOk result (Goes (handles_view written.old.items) (handles_view written.new.items)) }
    ensures fit { OnOk result (CanHave (root_of store.old.manifest) (handles_view written.old.items)
        → CanHave (root_of store.old.manifest) (handles_view written.new.items)) }
    ensures same { store.new ≡ record store.old { vault = store.new.vault; snapshots = store.new.snapshots; next_group = store.new.next_group } }
    ensures sure { IsSure result }
    ensures counts { (D.state store.old.vault.disk).failures ≤ (D.state store.new.vault.disk).failures }
    ensures honest { (D.state store.old.vault.disk).honest ↔ (D.state store.new.vault.disk).honest }
{
    match kept_rows(
        alloc,
        store.jobs.as_slice(),
        job,
        place,
        store.manifest.schema(),
    )? {
        Some(rows) => take_kept(store, alloc, job, table, written, waiting, rows),
        None => take_read(store, alloc, job, table, written, waiting, source),
    }
}

/// Takes whole rows.
fn take_kept<'a, D: Disk>(
    store: &mut Core<D>,
    alloc: Global,
    job: JobId,
    table: &'a Manifest,
    written: &mut Vec<Rc<Group>>,
    waiting: &mut KeyBuffer<'a>,
    given: Vec<Row>,
) -> R<()>
    ensures takes { (D.state store.old.vault.disk).honest → (start : Core D) (s : State) (task : Task) (later : List TableRow) → s.closed ≡ false
        → root_of table.now ≡ root_of store.old.manifest
        → AreUnderWay D.state start store.old s job task (handles_view written.old.items) waiting.old (rows_view given.items ++ later) 1
        → StaysUnderWay D.state start store.new s job task (handles_view written.new.items) waiting.new later 1 result }
    ensures goes { OnOk result (Goes (handles_view written.old.items) (handles_view written.new.items)) }
    ensures fit { OnOk result (CanHave (root_of store.old.manifest) (handles_view written.old.items)
        → CanHave (root_of store.old.manifest) (handles_view written.new.items)) }
    ensures same { store.new ≡ record store.old { vault = store.new.vault; snapshots = store.new.snapshots; next_group = store.new.next_group } }
    ensures sure { IsSure result }
    ensures counts { (D.state store.old.vault.disk).failures ≤ (D.state store.new.vault.disk).failures }
    ensures honest { (D.state store.old.vault.disk).honest ↔ (D.state store.new.vault.disk).honest }
{
    for row in given {
        let rest = without_keys(alloc, table.keys(), &row)?;
        waiting.rows.push(rest)?;
        write_full(store, alloc, job, table, written, waiting)?;
    }
    Ok(())
}

/// Reads a group of the table and takes its rows.
fn take_read<'a, D: Disk>(
    store: &mut Core<D>,
    alloc: Global,
    job: JobId,
    table: &'a Manifest,
    written: &mut Vec<Rc<Group>>,
    waiting: &mut KeyBuffer<'a>,
    source: &Group,
) -> R<()>
    ensures takes { (D.state store.old.vault.disk).honest → (start : Core D) (s : State) (task : Task) (group : TableGroup) (later : List TableRow)
        → s.closed ≡ false → root_of table.now ≡ root_of store.old.manifest
        → IsHeld (D.state store.old.vault.disk) [] (root_of table.now) (group_view source.now) group
        → AreUnderWay D.state start store.old s job task (handles_view written.old.items) waiting.old (group.rows ++ later) 1
        → StaysUnderWay D.state start store.new s job task (handles_view written.new.items) waiting.new later 1 result }
    ensures goes { OnOk result (Goes (handles_view written.old.items) (handles_view written.new.items)) }
    ensures fit { OnOk result (CanHave (root_of store.old.manifest) (handles_view written.old.items)
        → CanHave (root_of store.old.manifest) (handles_view written.new.items)) }
    ensures same { store.new ≡ record store.old { vault = store.new.vault; snapshots = store.new.snapshots; next_group = store.new.next_group } }
    ensures sure { IsSure result }
    ensures counts { (D.state store.old.vault.disk).failures ≤ (D.state store.new.vault.disk).failures }
    ensures honest { (D.state store.old.vault.disk).honest ↔ (D.state store.new.vault.disk).honest }
{
    match shown_rows(alloc, &mut store.vault, table, source)? {
        None => Ok(()),
        Some(rows) => take_shown(store, alloc, job, table, written, waiting, &rows),
    }
}

/// Takes the rows of a group that was read, as they are shown.
fn take_shown<'a, D: Disk>(
    store: &mut Core<D>,
    alloc: Global,
    job: JobId,
    table: &'a Manifest,
    written: &mut Vec<Rc<Group>>,
    waiting: &mut KeyBuffer<'a>,
    group: &GroupRows,
) -> R<()>
    ensures takes { (D.state store.old.vault.disk).honest → (start : Core D) (s : State) (task : Task) (given later : List TableRow) → s.closed ≡ false
        → root_of table.now ≡ root_of store.old.manifest
        → rows_held group.now (map (row_without_keys s.table.keys) given)
        → AreUnderWay D.state start store.old s job task (handles_view written.old.items) waiting.old (given ++ later) 1
        → StaysUnderWay D.state start store.new s job task (handles_view written.new.items) waiting.new later 1 result }
    ensures goes { OnOk result (Goes (handles_view written.old.items) (handles_view written.new.items)) }
    ensures fit { OnOk result (CanHave (root_of store.old.manifest) (handles_view written.old.items)
        → CanHave (root_of store.old.manifest) (handles_view written.new.items)) }
    ensures same { store.new ≡ record store.old { vault = store.new.vault; snapshots = store.new.snapshots; next_group = store.new.next_group } }
    ensures sure { (given : List TableRow) → rows_held group.now given → IsSure result }
    ensures counts { (D.state store.old.vault.disk).failures ≤ (D.state store.new.vault.disk).failures }
    ensures honest { (D.state store.old.vault.disk).honest ↔ (D.state store.new.vault.disk).honest }
{
    let mut rows = group.rows(alloc)?;
    'rows: for _ in 0..u64::MAX {
        if !show_next(&mut rows, &mut waiting.rows)? {
            return Ok(());
        }
        write_full(store, alloc, job, table, written, waiting)?;
    }
    // Never reached: no group has as many rows.
    Err(Refusal::Memory)
}

/// Writes the rows that wait once they are as many as a group has. Then none wait.
fn write_full<'a, D: Disk>(
    store: &mut Core<D>,
    alloc: Global,
    job: JobId,
    table: &'a Manifest,
    written: &mut Vec<Rc<Group>>,
    waiting: &mut KeyBuffer<'a>,
) -> R<()>
    ensures writes { (D.state store.old.vault.disk).honest → (start : Core D) (s : State) (task : Task) (left : List TableRow) → s.closed ≡ false
        → root_of table.now ≡ root_of store.old.manifest
        → AreUnderWay D.state start store.old s job task (handles_view written.old.items) waiting.old left 0
        → StaysUnderWay D.state start store.new s job task (handles_view written.new.items) waiting.new left 1 result }
    ensures goes { OnOk result (Goes (handles_view written.old.items) (handles_view written.new.items)) }
    ensures fit { OnOk result (CanHave (root_of store.old.manifest) (handles_view written.old.items)
        → CanHave (root_of store.old.manifest) (handles_view written.new.items)) }
    ensures same { store.new ≡ record store.old { vault = store.new.vault; snapshots = store.new.snapshots; next_group = store.new.next_group } }
    ensures sure { IsSure result }
    ensures counts { (D.state store.old.vault.disk).failures ≤ (D.state store.new.vault.disk).failures }
    ensures honest { (D.state store.old.vault.disk).honest ↔ (D.state store.new.vault.disk).honest }
{
    if waiting.rows.len() < store.options.group_rows as usize {
        return Ok(());
    }
    let key = waiting.key.copied(alloc)?;
    let empty = RowBuffer::new(alloc, table.stored())?;
    let rows = mem::replace(&mut waiting.rows, empty);
    write_part_of_run(store, alloc, job, written, KeyBuffer { key, rows })
}

/// Writes the last rows of a run, if any wait.
fn write_last<D: Disk>(
    store: &mut Core<D>,
    alloc: Global,
    job: JobId,
    written: &mut Vec<Rc<Group>>,
    waiting: KeyBuffer<'_>,
) -> R<()>
    ensures writes { (D.state store.old.vault.disk).honest → (start : Core D) (s : State) (task : Task) → s.closed ≡ false
        → AreUnderWay D.state start store.old s job task (handles_view written.old.items) waiting.entry [] 1
        → AddsAll D.state start store.new s (Some job) task.was (handles_view written.new.items) task.groups task.key task.given task.most result }
    ensures goes { OnOk result (Goes (handles_view written.old.items) (handles_view written.new.items)) }
    ensures fit { OnOk result (CanHave (root_of store.old.manifest) (handles_view written.old.items)
        → CanHave (root_of store.old.manifest) (handles_view written.new.items)) }
    ensures same { store.new ≡ record store.old { vault = store.new.vault; snapshots = store.new.snapshots; next_group = store.new.next_group } }
    ensures sure { IsSure result }
    ensures counts { (D.state store.old.vault.disk).failures ≤ (D.state store.new.vault.disk).failures }
    ensures honest { (D.state store.old.vault.disk).honest ↔ (D.state store.new.vault.disk).honest }
{
    if waiting.rows.len() == 0 {
        return Ok(());
    }
    write_part_of_run(store, alloc, job, written, waiting)
}

/// Writes rows of one key, one at least, as one group.
fn write_part_of_run<D: Disk>(
    store: &mut Core<D>,
    alloc: Global,
    job: JobId,
    written: &mut Vec<Rc<Group>>,
    part: KeyBuffer<'_>,
) -> R<()>
    ensures writes { (D.state store.old.vault.disk).honest
        → (start : Core D) (s : State) (groups : List TableGroup) (key : TableKey) (given : List TableRow) → s.closed ≡ false
        → HasWritten D.state start store.old s (Some job) (handles_view written.old.items) groups → CanPartition s.table.keys key
        → AllByRecursion (IsRowIn s.table.schema s.table.keys key) given
        → key_view part.entry.key ≡ key → HoldsRows (without_keys s.table.keys s.table.schema) (map (row_without_keys s.table.keys) given) part.entry
        → AddsOne D.state start store.new s (Some job) (handles_view written.old.items) (handles_view written.new.items) groups store.old.next_group key given result }
    ensures goes { OnOk result (Goes (handles_view written.old.items) (handles_view written.new.items)) }
    ensures fit { OnOk result (CanHave (root_of store.old.manifest) (handles_view written.old.items)
        → CanHave (root_of store.old.manifest) (handles_view written.new.items)) }
    ensures same { store.new ≡ record store.old { vault = store.new.vault; snapshots = store.new.snapshots; next_group = store.new.next_group } }
    ensures sure { IsSure result }
    ensures counts { (D.state store.old.vault.disk).failures ≤ (D.state store.new.vault.disk).failures }
    ensures honest { (D.state store.old.vault.disk).honest ↔ (D.state store.new.vault.disk).honest }
{
    write_gathered(store, alloc, Some(job), written, part)
}

/// No rows yet under the key of a group, in the columns that a table's files have.
fn none_waiting<'a>(alloc: Global, table: &'a Manifest, group: &Group) -> R<KeyBuffer<'a>>
    ensures key { IfOk result (λ waiting. key_view waiting.key ≡ (group_view group.now).key) }
    ensures none { IfOk result (λ waiting. HoldsRows (stored_of (root_of table.now)) [] waiting) }
    ensures which { RefusedMemoryOnly result }
{
    let key = group.key.copied(alloc)?;
    let rows = RowBuffer::new(alloc, table.stored())?;
    Ok(KeyBuffer { key, rows })
}
