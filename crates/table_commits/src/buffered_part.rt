//! Part files of rows that wait as columns.

ghost use Rattle.std.specs.Prelude.{◌≡◌, ◌≤◌, ◌<◌, ◌+◌, ◌^◌, ◌-◌, ◌↔◌, ◌⊎◌, List, false, true, IfOk, OnOk, Err, length, string_bytes};
ghost use Rattle.bits.specs.Refusals.{RefusedOnly, OnFault};
ghost use Rattle.schema.specs.Views.{key_view};
ghost use Rattle.schema.specs.Keys.{AreRowsOf};
ghost use Rattle.shred.specs.Buffer.{schema_of, holds};
ghost use Rattle.row_group.specs.Writing.{IsOfRows};
ghost use Rattle.footer.specs.Faults.{IsOverLimit};
ghost use Rattle.footer.specs.Own.{IsLaidOut};
ghost use Rattle.footer.specs.Writing.{IsOutOfRange, IsTooMuch};
ghost use Rattle.gather.specs.KeyBuffers.{HoldsRows};
ghost use Rattle.std.specs.Rc.{rc_value};
ghost use Rattle.manifest.specs.Groups.{root_of, group_view, handles_view};
ghost use Rattle.manifest.specs.Root.{CanHave, stored_of};
ghost use Rattle.manifest.specs.Records.{IsGroup};
ghost use Rattle.manifest.specs.Written.{HaveRecord};
ghost use Rattle.metadata.specs.Views.{file_meta_view};
ghost use Rattle.snapshots.specs.State.{job_is_open};
ghost use Rattle.snapshots.specs.Views.{state_of};
ghost use Rattle.table.specs.Table.{Row as TableRow, Group as TableGroup};
ghost use Rattle.vault.specs.Calls.{CountsOnce};
ghost use Rattle.vault.specs.Views.{IsNoRoot};
ghost use Rattle.table_commits.specs.Gathering.{HoldsPart};
ghost use Rattle.table_state.specs.Promises.{IsSure};
ghost use Rattle.table_commits.specs.Writing.{IsPartFor, IsUnfit, Writes, IsPartRefusal};
ghost use Rattle.table.specs.State.{State};
ghost use Rattle.table_state.specs.Stands.{Shows};
ghost use Rattle.table_commits.specs.Filling.{HasWritten, Adds, written_group, Goes};

use crate::part::{LAST_NUMBER, Part, put_part};
use bits::{R, Refusal};
use disk::Disk;
use footer::{FileWriter, WriteOptions};
use gather::KeyBuffer;
use manifest::{Group, Manifest};
use metadata::FileMeta;
use partition::{part_path, part_paths_are_not_roots};
use shred::RowBuffer;
use std::alloc::Global;
use std::rc::Rc;
use table::JobId;
use table_state::Core;

/// Writes the rows of a buffer as a part file, and keeps its group. They are at least one, at most as many as a group
/// has, of the schema of the table's files, and numbers are left; else it is refused Memory.
pub fn write_gathered<D: Disk>(
    store: &mut Core<D>,
    alloc: Global,
    job: Option<JobId>,
    written: &mut Vec<Rc<Group>>,
    buffer: KeyBuffer<'_>,
) -> R<()>
    ensures adds { (D.state store.old.vault.disk).honest → (start : Core D) (s : State) (groups : List TableGroup) (stored rows : List TableRow)
        → s.closed ≡ false → HasWritten D.state start store.old s job (handles_view written.old.items) groups
        → HoldsRows (stored_of (root_of store.old.manifest)) stored buffer.entry → AreRowsOf s.table.keys (key_view buffer.entry.key) stored rows
        → Adds D.state start store.old store.new s job (handles_view written.new.items) groups
        (written_group store.old.next_group (key_view buffer.entry.key) rows) result }
    ensures goes { OnOk result (Goes (handles_view written.old.items) (handles_view written.new.items)) }
    ensures fit { OnOk result (CanHave (root_of store.old.manifest) (handles_view written.old.items) → CanHave (root_of store.old.manifest) (handles_view written.new.items)) }
    ensures which { (stored : List TableRow) → HoldsRows (stored_of (root_of store.old.manifest)) stored buffer.entry
        → RefusedOnly (IsPartRefusal store.old job (key_view buffer.entry.key) stored) result }
    ensures sure { IsSure result }
    ensures same { store.new ≡ record store.old { vault = store.new.vault; snapshots = store.new.snapshots; next_group = store.new.next_group } }
    ensures rises { store.new.next_group ≤ store.old.next_group + 1 }
    ensures counts { (D.state store.old.vault.disk).failures ≤ (D.state store.new.vault.disk).failures }
    ensures honest { (D.state store.old.vault.disk).honest ↔ (D.state store.new.vault.disk).honest }
{
    let rows = buffer.rows.len();
    if rows == 0 || rows > store.options.group_rows as usize {
        return Err(Refusal::Memory);
    }
    if store.next_group >= LAST_NUMBER {
        return Err(Refusal::Memory);
    }
    let group = write_buffered(store, alloc, job, buffer)?;
    written.push(group)?;
    Ok(())
}

/// Writes the rows of a buffer, at least one and at most as many as a group has, as a part file under the next number.
pub(crate) fn write_buffered<D: Disk>(
    store: &mut Core<D>,
    alloc: Global,
    job: Option<JobId>,
    buffer: KeyBuffer<'_>,
) -> R<Rc<Group>>
    requires counter { store.old.next_group < 2 ^ 64 - 1 }
    ensures writes { (D.state store.old.vault.disk).honest → (s : State) (stored held : List TableRow) → Shows D.state store.old s → s.closed ≡ false
        → job_is_open (state_of store.old.snapshots) job ≡ true → HoldsPart (root_of store.old.manifest) store.old.options buffer.entry stored
        → AreRowsOf s.table.keys (key_view buffer.entry.key) stored held → Writes D.state store.old store.new job (key_view buffer.entry.key) held result s }
    ensures is { IfOk result (λ g. IsGroup (root_of store.old.manifest).keys (stored_of (root_of store.old.manifest)) (group_view (rc_value g))) }
    ensures which { (stored : List TableRow) → HoldsPart (root_of store.old.manifest) store.old.options buffer.entry stored
        → RefusedOnly (IsPartRefusal store.old job (key_view buffer.entry.key) stored) result }
    ensures sure { IsSure result }
    ensures same { store.new ≡ record store.old { vault = store.new.vault; snapshots = store.new.snapshots; next_group = store.new.next_group } }
    ensures rises { store.new.next_group ≤ store.old.next_group + 1 }
    ensures counts { CountsOnce result (D.state store.old.vault.disk) (D.state store.new.vault.disk) }
    ensures honest { (D.state store.old.vault.disk).honest ↔ (D.state store.new.vault.disk).honest }
{
    let part = buffered_part(
        alloc,
        &store.manifest,
        store.next_group,
        &store.options,
        buffer,
    )?;
    put_part(store, alloc, job, part)
}

/// The part file of the rows of a buffer in a table under a number, written by these options: its path, its bytes, and the
/// group of the record that the writer put into its footer.
pub(crate) fn buffered_part(
    alloc: Global,
    table: &Manifest,
    number: u64,
    options: &WriteOptions,
    buffer: KeyBuffer<'_>,
) -> R<Part>
    requires counter { number < 2 ^ 64 - 1 }
    ensures made { IfOk result (λ part. (stored held : List TableRow) → HoldsPart (root_of table.now) options.now buffer.entry stored
        → AreRowsOf (root_of table.now).keys (key_view buffer.entry.key) stored held
        → IsPartFor (root_of table.now).keys (root_of table.now).schema number (key_view buffer.entry.key) held part) }
    ensures no_root { IfOk result (λ part. IsNoRoot (string_bytes part.path)) }
    ensures is { IfOk result (λ part. IsGroup (root_of table.now).keys (stored_of (root_of table.now)) (group_view (rc_value part.group))) }
    ensures which { (stored : List TableRow) → HoldsPart (root_of table.now) options.now buffer.entry stored
        → RefusedOnly (IsUnfit (root_of table.now) options.now (key_view buffer.entry.key) stored) result }
    ensures sure { IsSure result }
{
    part_paths_are_not_roots();
    let KeyBuffer { key, rows } = buffer;
    let path = part_path(alloc, table.keys(), &key, number)?;
    let (bytes, record) = buffered_file(alloc, options, rows)?;
    let group = match Group::of_record(alloc, table.stored(), &key, number, &record) {
        Ok(group) => group,
        Err(e) => return Err(limit_or_memory(e)),
    };
    let group = Rc::new(alloc, group)?;
    Ok(Part { path, bytes, group })
}

/// Limit, or Memory for any other refusal. No other one comes of a file of rows.
fn limit_or_memory(e: Refusal) -> Refusal
    ensures limit { result ≡ Refusal.Limit → e ≡ Refusal.Limit }
    ensures which { (result ≡ Refusal.Limit) ⊎ (result ≡ Refusal.Memory) }
{
    match e {
        Refusal::Limit => Refusal::Limit,
        _ => Refusal::Memory,
    }
}

/// A file of the rows of a buffer, and the record in its footer. Refused Limit for options out of range, for more rows than a
/// group has, and where the rows are too much for a file.
fn buffered_file(
    alloc: Global,
    options: &WriteOptions,
    rows: RowBuffer<'_>,
) -> R<(Vec<u8>, FileMeta)>
    ensures laid_out { IfOk result (λ x. (held : List TableRow) → holds rows.entry held → IsLaidOut options.now (schema_of rows.entry) held x.0.items) }
    ensures record_is { IfOk result (λ x. (held : List TableRow) → holds rows.entry held → HaveRecord x.0.items (file_meta_view x.1)) }
    ensures within_limits { IfOk result (λ x. (held : List TableRow) → holds rows.entry held → IsOverLimit x.0.items → ⊥) }
    ensures limit { result ≡ Err Refusal.Limit → (held : List TableRow) → holds rows.entry held → length held ≤ options.now.group_rows
        → IsOutOfRange options.now ⊎ IsTooMuch (schema_of rows.entry) options.now held }
    ensures only { OnFault result ((held : List TableRow) → holds rows.entry held → ⊥) }
    ensures which { RefusedOnly IsOfRows result }
{
    let writer = FileWriter::of_rows(alloc, rows, options)?;
    Ok(writer.finish_with_record()?)
}
