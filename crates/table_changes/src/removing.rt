//! The removal of rows.

ghost use Rattle.std.specs.Prelude.{◌≡◌, ◌≢◌, ◌≤◌, ◌<◌, ◌+◌, ◌↔◌, ◌⊎◌, ℕ, List, [], ◌∷◌, ◌++◌, true, false, Some, None, Ok, IfOk, OnOk, OnErr, length};
ghost use Rattle.std.specs.List.{AllByRecursion, slice_get};
ghost use Rattle.bits.specs.Refusals.{RefusedMemoryOnly};
ghost use Rattle.schema.specs.Stripe.{leaves_of};
ghost use Rattle.schema.specs.Views.{key_view};
ghost use Rattle.vault.specs.Calls.{HasFailed};
ghost use Rattle.filter.specs.Deciding.{satisfies as all_satisfied};
ghost use Rattle.filter.specs.Terms.{tests_of, terms_view};
ghost use Rattle.filter.specs.Test.{Test, tests_in};
ghost use Rattle.gather.specs.KeyBuffers.{HoldsRows};
ghost use Rattle.manifest.specs.Groups.{Group as Described, root_of, groups_in, handles_view};
ghost use Rattle.manifest.specs.Root.{CanHave, stored_of};
ghost use Rattle.planning.specs.Numbered.{brought};
ghost use Rattle.planning.specs.Replaced.{changes_view, replaced};
ghost use Rattle.planning.specs.Told.{IsNextOf};
ghost use Rattle.scan.specs.Absent.{CanHoldNone};
ghost use Rattle.table.specs.Deciding.{Filter as Terms};
ghost use Rattle.table.specs.Table.{Row as TableRow, Group as TableGroup};
ghost use Rattle.table.specs.State.{State};
ghost use Rattle.table.specs.Calls.{remove, done};
ghost use Rattle.table.specs.Checks.{fault};
ghost use Rattle.table.specs.Refusing.{is_failure};
ghost use Rattle.table.specs.Views.{answered};
ghost use Rattle.table_state.specs.Buffers.{buffer};
ghost use Rattle.table_commits.specs.Cleaning.{IsTidy, LeavesTidyOverRows};
ghost use Rattle.table_commits.specs.Filling.{HasWritten, IsBuffer};
ghost use Rattle.table_state.specs.Promises.{Acts, ActsFrom, HasCause, StaysClosed, IsSure, ClosesInDoubt, LeavesTable, TouchesTable};
ghost use Rattle.table_commits.specs.Keeping.{Unwritten};
ghost use Rattle.table_reads.specs.Counting.{AreAsked, CanFilter, LacksIn};
ghost use Rattle.table_changes.specs.Removing.{Puts, HasReplaced, HoldNoneIfAbsent, Replaces, ReplacesAll};
ghost use Rattle.table_state.specs.Stands.{Stands};

use crate::remaining::{Remains, remains_at};
use bits::{R, Refusal};
use disk::Disk;
use filter::{Filter, Term};
use manifest::{Group, Manifest, Version};
use planning::{Change, next_after};
use std::alloc::Global;
use std::rc::Rc;
use table_commits::{commit_version, sum_of, write_whole};
use table_state::{Core, MOST_NUMBERS};

/// What a removal has done so far: what comes in the place of which group, and how many rows went.
#[derive(Drop)]
pub(crate) struct Removed {
    pub changes: Vec<Change>,
    pub count: u64,
}

/// Removes the rows that satisfy, in a commit of its own: Ok(n), of n rows. What is left of a group in which some row
/// satisfies is one part file under a new number, in the group's place; where nothing is left, the group goes. The
/// others stay as they are. Where no row satisfies, nothing is written.
///
/// A group that the filter rules out is not read; of another one the chunks that the filter looks at are, and, where
/// some row satisfies, the others: each once. No row is made. Held are the chunks of one group at a time, and what is
/// left of it as columns. Time is linear in the groups and in the values that are read, but for finding each group,
/// which is logarithmic.
///
/// Refused Closed; Full where there are no more group numbers; for the first term that has a fault; Limit for a file
/// or a root that is too much; Device, and InDoubt where the root may be the old one or the new one.
pub fn remove<D: Disk>(store: &mut Core<D>, alloc: Global, terms: &[Vec<Term>]) -> R<u64>
    ensures acts { Acts D.state store.old store.new (remove (terms_view terms.now)) (answered done result) }
    ensures cause { HasCause D.state store.old store.new (answered done result) }
    // If a row was removed, no part file is left that nothing needs, unless a cleaning met a fault, or the store keeps what is replaced.
    ensures tidy { LeavesTidyOverRows D.state store.old store.new result }
    ensures closed { StaysClosed store.old store.new result }
    ensures doubt { ClosesInDoubt store.new result }
    ensures absent { (D.state store.old.vault.disk).honest → (tests : List (List Test)) → AreAsked (root_of store.old.manifest) (terms_view terms.now) tests
        → IfOk result (λ n. n ≡ 0 → HoldNoneIfAbsent (D.state store.old.vault.disk) tests (root_of store.old.manifest)) }
    ensures unwritten { IfOk result (λ n. n ≡ 0 → Unwritten D.state store.old store.new) }
    ensures kept { OnErr result (LeavesTable store.old store.new) }
    ensures touches { TouchesTable store.old store.new }
    ensures counts { (D.state store.old.vault.disk).failures ≤ (D.state store.new.vault.disk).failures }
    ensures honest { (D.state store.old.vault.disk).honest ↔ (D.state store.new.vault.disk).honest }
{
    if store.closed {
        return Err(Refusal::Closed);
    }
    if store.next_group >= MOST_NUMBERS {
        return Err(Refusal::Full);
    }
    let filter = Filter::new(alloc, store.manifest.schema(), terms)?;
    remove_rows(store, alloc, &filter)
}

/// Removes the rows that satisfy a filter over the table's schema.
fn remove_rows<D: Disk>(store: &mut Core<D>, alloc: Global, filter: &Filter) -> R<u64>
    ensures acts { (D.state store.old.vault.disk).honest → (s : State) (terms : Terms) → Stands D.state store.old s → s.closed ≡ false → fault s (remove terms) ≡ None → tests_of (leaves_of s.table.schema) terms ≡ Ok (tests_in filter.now)
        → ActsFrom D.state store.old store.new (remove terms) (answered done result) s }
    ensures cause { (D.state store.old.vault.disk).honest → (s : State) (terms : Terms) → Stands D.state store.old s → s.closed ≡ false → fault s (remove terms) ≡ None → tests_of (leaves_of s.table.schema) terms ≡ Ok (tests_in filter.now)
        → is_failure (answered done result) ≡ true → HasFailed (D.state store.old.vault.disk) (D.state store.new.vault.disk) }
    ensures absent { (D.state store.old.vault.disk).honest → CanFilter (tests_in filter.now) (root_of store.old.manifest)
        → IfOk result (λ n. n ≡ 0 → HoldNoneIfAbsent (D.state store.old.vault.disk) (tests_in filter.now) (root_of store.old.manifest)) }
    ensures tidy { (D.state store.old.vault.disk).honest → (s : State) → Stands D.state store.old s → s.closed ≡ false → (terms : Terms) → fault s (remove terms) ≡ None → tests_of (leaves_of s.table.schema) terms ≡ Ok (tests_in filter.now)
        → store.old.keeps ≡ false → IfOk result (λ n. n ≢ 0 → IsTidy D.state store.new) }
    ensures doubt { ClosesInDoubt store.new result }
    ensures unwritten { IfOk result (λ n. n ≡ 0 → Unwritten D.state store.old store.new) }
    ensures kept { OnErr result (LeavesTable store.old store.new) }
    ensures touches { TouchesTable store.old store.new }
    ensures counts { (D.state store.old.vault.disk).failures ≤ (D.state store.new.vault.disk).failures }
    ensures honest { (D.state store.old.vault.disk).honest ↔ (D.state store.new.vault.disk).honest }
{
    let table = store.description()?;
    let removed = replace_groups(store, alloc, &table, filter)?;
    if removed.count == 0 {
        return Ok(0);
    }
    let groups = with_changes(store, alloc, removed.changes.as_slice())?;
    let next = next_with(store.manifest.next(), removed.changes.as_slice());
    commit_version(store, alloc, groups, next, None)?;
    Ok(removed.count)
}

/// Judges each group of the table, which is described so, and writes what is left of it where some row of it goes.
fn replace_groups<D: Disk>(
    store: &mut Core<D>,
    alloc: Global,
    table: &Manifest,
    filter: &Filter,
) -> R<Removed>
    ensures replaces { (D.state store.old.vault.disk).honest → (s : State) (terms : Terms) → root_of table.now ≡ root_of store.old.manifest → s.closed ≡ false → tests_of (leaves_of s.table.schema) terms ≡ Ok (tests_in filter.now)
        → HasWritten D.state store.old store.old s None [] [] → store.old.next_group ≡ s.next_group
        → ReplacesAll D.state store.old store.new s (all_satisfied (tests_in filter.now)) result }
    ensures absent { (D.state store.old.vault.disk).honest → root_of table.now ≡ root_of store.old.manifest → CanFilter (tests_in filter.now) (root_of store.old.manifest)
        → IfOk result (λ removed. removed.count ≡ 0 → HoldNoneIfAbsent (D.state store.old.vault.disk) (tests_in filter.now) (root_of store.old.manifest)) }
    ensures fit { IfOk result (λ removed. CanHave (root_of store.old.manifest) (brought (changes_view removed.changes.items))) }
    ensures unwritten { IfOk result (λ removed. removed.count ≡ 0 → Unwritten D.state store.old store.new) }
    ensures same { store.new ≡ record store.old { vault = store.new.vault; snapshots = store.new.snapshots; next_group = store.new.next_group } }
    ensures sure { IsSure result }
    ensures counts { (D.state store.old.vault.disk).failures ≤ (D.state store.new.vault.disk).failures }
    ensures honest { (D.state store.old.vault.disk).honest ↔ (D.state store.new.vault.disk).honest }
{
    let mut removed = Removed {
        changes: Vec::new(alloc),
        count: 0,
    };
    let count = store.manifest.groups().len();
    for place in 0..count {
        replace_group(store, alloc, table, filter, place, &mut removed)?;
    }
    Ok(removed)
}

/// Judges the group at a place of the table, which is described so, and writes what is left of it where some row of it
/// goes.
fn replace_group<D: Disk>(
    store: &mut Core<D>,
    alloc: Global,
    table: &Manifest,
    filter: &Filter,
    place: usize,
    removed: &mut Removed,
) -> R<()>
    ensures replaces { (D.state store.old.vault.disk).honest → (start : Core D) (s : State) (terms : Terms) → root_of table.now ≡ root_of store.old.manifest → s.closed ≡ false → tests_of (leaves_of s.table.schema) terms ≡ Ok (tests_in filter.now)
        → place < length (root_of store.old.manifest).groups → HasReplaced D.state start store.old s (all_satisfied (tests_in filter.now)) place removed.old
        → Replaces D.state start store.new s (all_satisfied (tests_in filter.now)) (place + 1) removed.new result }
    ensures absent { (D.state store.old.vault.disk).honest → CanFilter (tests_in filter.now) (root_of table.now) → (f : Described)
        → slice_get (root_of table.now).groups place ≡ Some f → LacksIn (D.state store.old.vault.disk) (root_of table.now) f
        → OnOk result (CanHoldNone (tests_in filter.now) (root_of table.now).keys (root_of table.now).schema f) }
    ensures fit { OnOk result (CanHave (root_of store.old.manifest) (brought (changes_view removed.old.changes.items))
        → CanHave (root_of store.old.manifest) (brought (changes_view removed.new.changes.items))) }
    ensures rises { OnOk result (removed.old.count ≤ removed.new.count) }
    ensures unwritten { OnOk result (removed.new.count ≡ 0 → Unwritten D.state store.old store.new) }
    ensures same { store.new ≡ record store.old { vault = store.new.vault; snapshots = store.new.snapshots; next_group = store.new.next_group } }
    ensures sure { IsSure result }
    ensures counts { (D.state store.old.vault.disk).failures ≤ (D.state store.new.vault.disk).failures }
    ensures honest { (D.state store.old.vault.disk).honest ↔ (D.state store.new.vault.disk).honest }
{
    let remains = remains_at(alloc, &mut store.vault, table, filter, place)?;
    if remains.gone == 0 {
        return Ok(());
    }
    put_remains(store, alloc, remains, removed)
}

/// Writes what is left of a group, where any row is, and keeps the change.
fn put_remains<D: Disk>(
    store: &mut Core<D>,
    alloc: Global,
    remains: Remains<'_>,
    removed: &mut Removed,
) -> R<()>
    ensures puts { (D.state store.old.vault.disk).honest → (start : Core D) (s : State) (files : List Described) (groups : List TableGroup) (stored held : List TableRow) → s.closed ≡ false
        → HasWritten D.state start store.old s None files groups → HoldsRows (stored_of (root_of store.old.manifest)) stored remains.entry.rest
        → IsBuffer s.table.schema s.table.keys (buffer (key_view remains.entry.rest.key) stored) (buffer (key_view remains.entry.rest.key) held)
        → Puts D.state start store.old store.new s files groups held remains.entry removed.old removed.new result }
    ensures fit { OnOk result (CanHave (root_of store.old.manifest) (brought (changes_view removed.old.changes.items))
        → CanHave (root_of store.old.manifest) (brought (changes_view removed.new.changes.items))) }
    ensures counted { OnOk result (removed.new.count ≡ removed.old.count + remains.entry.gone) }
    ensures same { store.new ≡ record store.old { vault = store.new.vault; snapshots = store.new.snapshots; next_group = store.new.next_group } }
    ensures sure { IsSure result }
    ensures counts { (D.state store.old.vault.disk).failures ≤ (D.state store.new.vault.disk).failures }
    ensures honest { (D.state store.old.vault.disk).honest ↔ (D.state store.new.vault.disk).honest }
{
    let Remains { number, gone, rest } = remains;
    if rest.rows.len() == 0 {
        return add_change(removed, number, gone, Vec::new(alloc));
    }
    let group = write_whole(store, alloc, rest)?;
    let mut come = Vec::new(alloc);
    come.push(group)?;
    add_change(removed, number, gone, come)
}

/// The version with these changes.
fn with_changes<D: Disk>(store: &Core<D>, alloc: Global, changes: &[Change]) -> R<Version>
    ensures replaced { IfOk result (λ v. groups_in v ≡ replaced (changes_view changes.now) (root_of store.now.manifest).groups) }
    ensures below { (next : ℕ) → (root_of store.now.manifest).next ≤ next → AllByRecursion (λ (g : Described). g.number < next) (brought (changes_view changes.now))
        → IfOk result (λ v. AllByRecursion (λ (g : Described). g.number < next) (groups_in v)) }
    ensures each { CanHave (root_of store.now.manifest) (brought (changes_view changes.now)) → IfOk result (λ v. CanHave (root_of store.now.manifest) (groups_in v)) }
    ensures which { RefusedMemoryOnly result }
{
    let version = store.manifest.groups();
    let edits = planning::replace(alloc, version, changes)?;
    let groups = version.spliced(alloc, edits.as_slice())?;
    Ok(groups)
}

/// In the place of the group of this number, of which so many rows go, these come.
fn add_change(removed: &mut Removed, number: u64, gone: u64, come: Vec<Rc<Group>>) -> R<()>
    ensures changed { OnOk result (changes_view removed.new.changes.items ≡ changes_view removed.old.changes.items ++ record { number = number; come = handles_view come.items } ∷ []) }
    ensures counted { OnOk result (removed.new.count ≡ removed.old.count + gone) }
    ensures which { RefusedMemoryOnly result }
{
    let count = sum_of(removed.count, gone)?;
    removed.changes.push(Change { number, come })?;
    removed.count = count;
    Ok(())
}

/// The next number of a table after what these changes bring: above the number of each, and not below what it was; no
/// greater than that.
fn next_with(next: u64, changes: &[Change]) -> u64
    ensures never_falls { next ≤ result }
    ensures above { AllByRecursion (λ (g : Described). g.number < result) (brought (changes_view changes.now)) }
    ensures least { (result ≡ next) ⊎ IsNextOf result (brought (changes_view changes.now)) }
{
    let mut after = next;
    for change in changes {
        after = next_after(after, change.come.as_slice());
    }
    after
}
