//! Part files of what is left of a group, which may be more rows than a group has.

ghost use Rattle.std.specs.Prelude.{◌≡◌, ◌≤◌, ◌<◌, ◌+◌, ◌^◌, ◌-◌, ◌↔◌, List, false, true, None, IfOk, IfSome, length, string_bytes};
ghost use Rattle.bits.specs.Refusals.{RefusedOnly, RefusedMemoryOnly};
ghost use Rattle.schema.specs.Views.{key_view};
ghost use Rattle.schema.specs.Keys.{AreRowsOf};
ghost use Rattle.shred.specs.Buffer.{schema_of, holds};
ghost use Rattle.gather.specs.KeyBuffers.{HoldsRows};
ghost use Rattle.std.specs.Rc.{rc_value};
ghost use Rattle.manifest.specs.Groups.{root_of, group_view};
ghost use Rattle.manifest.specs.Records.{IsGroup};
ghost use Rattle.manifest.specs.Root.{stored_of};
ghost use Rattle.table.specs.Table.{Row as TableRow};
ghost use Rattle.vault.specs.Views.{IsNoRoot};
ghost use Rattle.table_state.specs.Promises.{IsSure};
ghost use Rattle.table_commits.specs.Wide.{HasFewEntries};
ghost use Rattle.table_commits.specs.Writing.{IsPartFor, IsUnfit, Writes, IsPartRefusal};
ghost use Rattle.table.specs.State.{State};
ghost use Rattle.table_state.specs.Stands.{Shows};

use crate::buffered_part::{buffered_part, write_buffered};
use crate::part::{LAST_NUMBER, Part, put_part};
use bits::{R, Refusal};
use disk::Disk;
use footer::WriteOptions;
use gather::KeyBuffer;
use manifest::{Group, Manifest};
use row_group::{MOST_ENTRIES_OF_CHUNK, MOST_ROWS_OF_GROUP};
use shred::RowBuffer;
use std::alloc::Global;
use std::rc::Rc;
use table_state::Core;

/// Writes the rows of a buffer as one part file: also where they are more than a group has, as what is left of a group
/// may be that was written when a group had more rows. They are at least one, of the schema of the table's files, and
/// numbers are left; else it is refused Memory.
pub fn write_whole<D: Disk>(store: &mut Core<D>, alloc: Global, rest: KeyBuffer<'_>) -> R<Rc<Group>>
    ensures writes { (D.state store.old.vault.disk).honest → (s : State) (stored held : List TableRow) → Shows D.state store.old s → s.closed ≡ false
        → HoldsRows (stored_of (root_of store.old.manifest)) stored rest.entry → AreRowsOf s.table.keys (key_view rest.entry.key) stored held
        → Writes D.state store.old store.new None (key_view rest.entry.key) held result s }
    ensures is { IfOk result (λ g. IsGroup (root_of store.old.manifest).keys (stored_of (root_of store.old.manifest)) (group_view (rc_value g))) }
    ensures which { (stored : List TableRow) → HoldsRows (stored_of (root_of store.old.manifest)) stored rest.entry
        → RefusedOnly (IsPartRefusal store.old None (key_view rest.entry.key) stored) result }
    ensures sure { IsSure result }
    ensures same { store.new ≡ record store.old { vault = store.new.vault; snapshots = store.new.snapshots; next_group = store.new.next_group } }
    ensures rises { store.new.next_group ≤ store.old.next_group + 1 }
    ensures counts { (D.state store.old.vault.disk).failures ≤ (D.state store.new.vault.disk).failures }
    ensures honest { (D.state store.old.vault.disk).honest ↔ (D.state store.new.vault.disk).honest }
{
    let rows = rest.rows.len();
    if rows == 0 {
        return Err(Refusal::Memory);
    }
    if store.next_group >= LAST_NUMBER {
        return Err(Refusal::Memory);
    }
    if rows <= store.options.group_rows as usize {
        return write_buffered(store, alloc, None, rest);
    }
    let part = wide_part(
        alloc,
        &store.manifest,
        store.next_group,
        &store.options,
        rest,
    )?;
    put_part(store, alloc, None, part)
}

/// The part file of the rows of a buffer, at least one, that may be more than a group has: it has one group with all of
/// them. Where they are too much for it, they are too much for a file with groups as the options say, and it is refused
/// Limit; but Memory where a column of them has more entries than a chunk may have, as no group has that could be read.
fn wide_part(
    alloc: Global,
    table: &Manifest,
    number: u64,
    options: &WriteOptions,
    buffer: KeyBuffer<'_>,
) -> R<Part>
    requires counter { number < 2 ^ 64 - 1 }
    ensures made { IfOk result (λ part. (stored held : List TableRow) → HoldsRows (stored_of (root_of table.now)) stored buffer.entry → 1 ≤ length stored
        → AreRowsOf (root_of table.now).keys (key_view buffer.entry.key) stored held
        → IsPartFor (root_of table.now).keys (root_of table.now).schema number (key_view buffer.entry.key) held part) }
    ensures no_root { IfOk result (λ part. IsNoRoot (string_bytes part.path)) }
    ensures is { IfOk result (λ part. IsGroup (root_of table.now).keys (stored_of (root_of table.now)) (group_view (rc_value part.group))) }
    ensures which { (stored : List TableRow) → HoldsRows (stored_of (root_of table.now)) stored buffer.entry → 1 ≤ length stored
        → RefusedOnly (IsUnfit (root_of table.now) options.now (key_view buffer.entry.key) stored) result }
    ensures sure { IsSure result }
{
    let Some(wide) = wide_options(options, buffer.rows.len()) else {
        return Err(Refusal::Memory);
    };
    if !has_few_entries(alloc, &buffer.rows)? {
        return Err(Refusal::Memory);
    }
    buffered_part(alloc, table, number, &wide, buffer)
}

/// These options, but with groups of this many rows. None where a group may not have as many.
fn wide_options(options: &WriteOptions, rows: usize) -> Option<WriteOptions>
    ensures rows { IfSome result (λ o. o.group_rows ≡ rows) }
    ensures few { IfSome result (λ _. rows ≤ 16777216) }
    ensures pages { IfSome result (λ o. o.page_rows ≡ options.now.page_rows) }
    ensures version { IfSome result (λ o. o.page_version ≡ options.now.page_version) }
    ensures style { IfSome result (λ o. o.style ≡ options.now.style) }
{
    if rows > MOST_ROWS_OF_GROUP as usize {
        return None;
    }
    Some(WriteOptions {
        group_rows: rows as u32,
        page_rows: options.page_rows,
        page_version: options.page_version,
        style: options.style,
    })
}

/// Whether no column of the rows has more entries than a chunk may have. Time is linear in the entries.
fn has_few_entries(alloc: Global, rows: &RowBuffer<'_>) -> R<bool>
    ensures few { IfOk result (λ few. few ≡ true → (held : List TableRow) → holds rows.now held → HasFewEntries (schema_of rows.now) held) }
    ensures which { RefusedMemoryOnly result }
{
    let leaves = rows.schema().leaves().len();
    let mut entries = Vec::new(alloc);
    for leaf in 0..leaves {
        rows.entries(leaf, &mut entries)?;
        if entries.len() > MOST_ENTRIES_OF_CHUNK as usize {
            return Ok(false);
        }
    }
    Ok(true)
}
