//! Appends of rows that were gathered.

ghost use Rattle.std.specs.Prelude.{◌≡◌, ◌≢◌, ◌≤◌, ◌↔◌, [], List, length, true, false, None, Err, IfOk, OnErr, IsTrue};
ghost use Rattle.schema.specs.Keys.{key_column_view, key_columns_view};
ghost use Rattle.vault.specs.Calls.{HasFailed};
ghost use Rattle.gather.specs.GatheredRows.{holds};
ghost use Rattle.gather.specs.KeyBuffers.{HoldGroups};
ghost use Rattle.manifest.specs.Groups.{root_of};
ghost use Rattle.manifest.specs.Root.{stored_of};
ghost use Rattle.table.specs.Table.{Row as TableRow};
ghost use Rattle.table_commits.specs.Cleaning.{IsTidy, LeavesTidyOverRows};
ghost use Rattle.table_commits.specs.Gathering.{AreGatheredFor};
ghost use Rattle.table.specs.State.{State};
ghost use Rattle.table.specs.Calls.{append, done};
ghost use Rattle.table.specs.Checks.{fault};
ghost use Rattle.table.specs.Refusing.{is_failure};
ghost use Rattle.table.specs.Views.{answered};
ghost use Rattle.table_state.specs.Stands.{Stands};
ghost use Rattle.table_state.specs.Promises.{Acts, ActsFrom, HasCause, StaysClosed, ClosesInDoubt, LeavesTable, TouchesTable};

use crate::comparing::same_schema;
use crate::root_limit::is_beyond_root;
use bits::{R, Refusal};
use disk::Disk;
use gather::{Gathered, KeyBuffer};
use planning::next_after;
use schema::KeyColumn;
use std::alloc::Global;
use table_commits::{commit_version, with_new, write_groups};
use table_state::{Core, MOST_NUMBERS};

/// Appends the rows that were gathered, in a commit of its own: Ok(n), of n rows. Of no rows it writes nothing. It is
/// [`append`](Core::append) of these rows, and writes the same files.
///
/// Refused Closed; Schema where the rows were gathered for another schema, other key columns or another size of groups
/// than the table has, and then nothing changes; Full where there are no more group numbers; Key for the first row whose
/// key can name no folder; Limit for a file or a root that is too much; Device, and InDoubt where the root may be the old
/// one or the new one.
pub fn append_gathered<D: Disk>(
    store: &mut Core<D>,
    alloc: Global,
    gathered: Gathered<'_>,
) -> R<u64>
    ensures acts { (rows : List TableRow) → holds gathered.entry rows → AreGatheredFor (root_of store.old.manifest) store.old.options gathered.entry
        → Acts D.state store.old store.new (append rows) (answered done result) }
    ensures cause { (rows : List TableRow) → holds gathered.entry rows → AreGatheredFor (root_of store.old.manifest) store.old.options gathered.entry
        → HasCause D.state store.old store.new (answered done result) }
    // If a row was appended, no part file is left that nothing needs, unless a cleaning met a fault, or the store keeps what is replaced.
    ensures tidy { (rows : List TableRow) → holds gathered.entry rows → AreGatheredFor (root_of store.old.manifest) store.old.options gathered.entry
        → LeavesTidyOverRows D.state store.old store.new result }
    ensures other { (AreGatheredFor (root_of store.old.manifest) store.old.options gathered.entry → ⊥) → store.old.closed ≡ false
        → (result ≡ Err Refusal.Schema) × (store.new ≡ store.old) }
    ensures closed { StaysClosed store.old store.new result }
    ensures doubt { ClosesInDoubt store.new result }
    ensures unwritten { IfOk result (λ n. n ≡ 0 → store.new ≡ store.old) }
    ensures kept { OnErr result (LeavesTable store.old store.new) }
    ensures touches { TouchesTable store.old store.new }
    ensures counts { (D.state store.old.vault.disk).failures ≤ (D.state store.new.vault.disk).failures }
    ensures honest { (D.state store.old.vault.disk).honest ↔ (D.state store.new.vault.disk).honest }
{
    if store.closed {
        return Err(Refusal::Closed);
    }
    if !is_gathered_for(store, &gathered) {
        return Err(Refusal::Schema);
    }
    if store.next_group >= MOST_NUMBERS {
        return Err(Refusal::Full);
    }
    let count = gathered.len();
    let groups = gathered.into_groups()?;
    if count == 0 {
        return Ok(0);
    }
    append_groups(store, alloc, groups, count)
}

/// Whether rows were gathered for this table: for its schema, its key columns and its size of groups. Takes no memory.
fn is_gathered_for<D: Disk>(store: &Core<D>, gathered: &Gathered<'_>) -> bool
    ensures { IsTrue result ↔ AreGatheredFor (root_of store.now.manifest) store.now.options gathered.now }
{
    same_schema(gathered.schema(), store.manifest.schema())
        && same_columns(gathered.columns(), store.manifest.keys())
        && gathered.size() == store.options.group_rows as usize
}

/// Appends the groups of so many rows that passed the checks, one at least. Where already the number of the groups makes
/// the root too much, it is refused Limit before a file is written.
fn append_groups<D: Disk>(
    store: &mut Core<D>,
    alloc: Global,
    groups: Vec<KeyBuffer<'_>>,
    count: usize,
) -> R<u64>
    ensures acts { (D.state store.old.vault.disk).honest → (s : State) (rows : List TableRow) → Stands D.state store.old s → s.closed ≡ false
        → fault s (append rows) ≡ None → rows ≢ [] → count ≡ length rows
        → HoldGroups s.table.keys s.options.group_rows (stored_of (root_of store.old.manifest)) rows groups.entry.items
        → ActsFrom D.state store.old store.new (append rows) (answered done result) s }
    ensures cause { (D.state store.old.vault.disk).honest → (s : State) (rows : List TableRow) → Stands D.state store.old s → s.closed ≡ false
        → fault s (append rows) ≡ None → rows ≢ [] → count ≡ length rows
        → HoldGroups s.table.keys s.options.group_rows (stored_of (root_of store.old.manifest)) rows groups.entry.items
        → is_failure (answered done result) ≡ true → HasFailed (D.state store.old.vault.disk) (D.state store.new.vault.disk) }
    ensures tidy { (D.state store.old.vault.disk).honest → (s : State) → Stands D.state store.old s → s.closed ≡ false → (rows : List TableRow)
        → fault s (append rows) ≡ None → HoldGroups s.table.keys s.options.group_rows (stored_of (root_of store.old.manifest)) rows groups.entry.items
        → store.old.keeps ≡ false → IfOk result (λ n. n ≢ 0 → IsTidy D.state store.new) }
    ensures doubt { ClosesInDoubt store.new result }
    ensures counted { IfOk result (λ n. n ≡ count) }
    ensures kept { OnErr result (LeavesTable store.old store.new) }
    ensures touches { TouchesTable store.old store.new }
    ensures counts { (D.state store.old.vault.disk).failures ≤ (D.state store.new.vault.disk).failures }
    ensures honest { (D.state store.old.vault.disk).honest ↔ (D.state store.new.vault.disk).honest }
{
    if is_beyond_root(alloc, &store.manifest, store.next_group, groups.as_slice()) {
        return Err(Refusal::Limit);
    }
    let written = write_groups(store, alloc, None, groups)?;
    let groups = with_new(store, alloc, written.as_slice())?;
    let next = next_after(store.manifest.next(), written.as_slice());
    commit_version(store, alloc, groups, next, None)?;
    Ok(count as u64)
}

/// Whether two lists of key columns are the same.
fn same_columns(a: &[KeyColumn], b: &[KeyColumn]) -> bool
    ensures { IsTrue result ↔ (key_columns_view a.now ≡ key_columns_view b.now) }
{
    if a.len() != b.len() {
        return false;
    }
    for (i, column) in a.iter().enumerate() {
        if !same_column(column, &b[i]) {
            return false;
        }
    }
    true
}

/// Whether two key columns are the same: place, name and type.
fn same_column(a: &KeyColumn, b: &KeyColumn) -> bool
    ensures { IsTrue result ↔ (key_column_view a.now ≡ key_column_view b.now) }
{
    a.at == b.at && a.name == b.name && a.kind == b.kind
}
