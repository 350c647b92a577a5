//! Counting.

ghost use Rattle.std.specs.Prelude.{◌≡◌, ◌≤◌, ◌+◌, ◌↔◌, ◌∷◌, [], List, IfOk, OnOk};
ghost use Rattle.bits.specs.Refusals.{RefusedOnly, RefusedMemoryOnly};
ghost use Rattle.filter.specs.Test.{Test, tests_in};
ghost use Rattle.manifest.specs.Groups.{group_view, handles_view, root_of};
ghost use Rattle.scan.specs.Absent.{NeedsNoFile};
ghost use Rattle.scan.specs.Faults.{IsDevice};
ghost use Rattle.table.specs.Table.{Group as TableGroup};
ghost use Rattle.table_reads.specs.Reading.{OnlyReads};
ghost use Rattle.table_reads.specs.Counting.{IsHeld, AreHeld, AreAsked, AreSpared, CanFilter, LacksIn, matching};
ghost use Rattle.filter.specs.Terms.{terms_view};
ghost use Rattle.table.specs.Calls.{count, counted};
ghost use Rattle.table.specs.Views.{answered};
ghost use Rattle.table_commits.specs.Keeping.{LeavesFiles};
ghost use Rattle.table_state.specs.Promises.{Acts, HasCause, StaysClosed};

use bits::{R, Refusal};
use disk::Disk;
use filter::{Filter, Term};
use manifest::{Group, Manifest};
use scan::GroupRows;
use std::alloc::Global;
use std::rc::Rc;
use table_commits::{rows_in, sum_of};
use table_state::Core;
use vault::Vault;

/// How many rows satisfy. With no filter that is told by the table's description, and nothing is read. Else a group
/// that the filter rules out is not read, and of another one only the chunks of filtered columns are.
///
/// Refused Closed; for the first term that has a fault; Device.
pub fn count<D: Disk>(store: &mut Core<D>, alloc: Global, terms: &[Vec<Term>]) -> R<u64>
    ensures acts { Acts D.state store.old store.new (count (terms_view terms.now)) (answered counted result) }
    ensures cause { HasCause D.state store.old store.new (answered counted result) }
    ensures absent { (D.state store.old.vault.disk).honest → (tests : List (List Test)) → AreAsked (root_of store.old.manifest) (terms_view terms.now) tests
        → IfOk result (λ _. AreSpared (D.state store.old.vault.disk) tests (root_of store.old.manifest) [] (root_of store.old.manifest).groups) }
    ensures leaves { LeavesFiles D.state store.old store.new }
    ensures touches { store.new ≡ record store.old { vault = store.new.vault } }
    ensures unfailed { OnOk result ((D.state store.new.vault.disk).failures ≡ (D.state store.old.vault.disk).failures) }
    ensures unread { terms.now ≡ [] → (D.state store.new.vault.disk).reads ≡ (D.state store.old.vault.disk).reads }
    ensures closed { StaysClosed store.old store.new result }
    ensures counts { (D.state store.old.vault.disk).failures ≤ (D.state store.new.vault.disk).failures }
    ensures honest { (D.state store.old.vault.disk).honest ↔ (D.state store.new.vault.disk).honest }
{
    if store.closed {
        return Err(Refusal::Closed);
    }
    if terms.is_empty() {
        let all = rows_in(store.manifest.groups().blocks())?;
        return Ok(all);
    }
    let filter = Filter::new(alloc, store.manifest.schema(), terms)?;
    let found = count_rows(alloc, &mut store.vault, &store.manifest, &filter)?;
    Ok(found)
}

/// How many rows of a table satisfy. A group that the filter rules out is not read; of another one, only the chunks of
/// filtered columns.
fn count_rows<D: Disk>(
    alloc: Global,
    vault: &mut Vault<D>,
    table: &Manifest,
    filter: &Filter,
) -> R<u64>
    ensures stands { (D.state vault.old.disk).honest → (held : List TableGroup) → AreHeld (D.state vault.old.disk) (tests_in filter.now) (root_of table.now) (root_of table.now).groups held
        → IfOk result (λ n. n ≡ matching (tests_in filter.now) held) }
    ensures only { (D.state vault.old.disk).honest → (held : List TableGroup) → AreHeld (D.state vault.old.disk) (tests_in filter.now) (root_of table.now) (root_of table.now).groups held
        → RefusedOnly IsDevice result }
    ensures absent { (D.state vault.old.disk).honest → CanFilter (tests_in filter.now) (root_of table.now)
        → IfOk result (λ _. AreSpared (D.state vault.old.disk) (tests_in filter.now) (root_of table.now) [] (root_of table.now).groups) }
    ensures effect { OnlyReads (D.state vault.old.disk) (D.state vault.new.disk) result }
{
    let mut found: u64 = 0;
    for block in table.groups().blocks() {
        let here = count_in(alloc, vault, table, filter, block.groups.as_slice())?;
        found = sum_of(found, here)?;
    }
    Ok(found)
}

/// How many rows of these groups satisfy.
fn count_in<D: Disk>(
    alloc: Global,
    vault: &mut Vault<D>,
    table: &Manifest,
    filter: &Filter,
    groups: &[Rc<Group>],
) -> R<u64>
    ensures stands { (D.state vault.old.disk).honest → (held : List TableGroup) → AreHeld (D.state vault.old.disk) (tests_in filter.now) (root_of table.now) (handles_view groups.now) held
        → IfOk result (λ n. n ≡ matching (tests_in filter.now) held) }
    ensures only { (D.state vault.old.disk).honest → (held : List TableGroup) → AreHeld (D.state vault.old.disk) (tests_in filter.now) (root_of table.now) (handles_view groups.now) held
        → RefusedOnly IsDevice result }
    ensures absent { (D.state vault.old.disk).honest → CanFilter (tests_in filter.now) (root_of table.now)
        → IfOk result (λ _. AreSpared (D.state vault.old.disk) (tests_in filter.now) (root_of table.now) [] (handles_view groups.now)) }
    ensures effect { OnlyReads (D.state vault.old.disk) (D.state vault.new.disk) result }
{
    let mut found: u64 = 0;
    for group in groups {
        let here = count_at(alloc, vault, table, filter, group)?;
        found = sum_of(found, here)?;
    }
    Ok(found)
}

/// How many rows of this group satisfy. None of them is made.
fn count_at<D: Disk>(
    alloc: Global,
    vault: &mut Vault<D>,
    table: &Manifest,
    filter: &Filter,
    group: &Group,
) -> R<u64>
    ensures stands { (D.state vault.old.disk).honest → (held : TableGroup) → IsHeld (D.state vault.old.disk) (tests_in filter.now) (root_of table.now) (group_view group.now) held
        → IfOk result (λ n. n ≡ matching (tests_in filter.now) (held ∷ [])) }
    ensures only { (D.state vault.old.disk).honest → (held : TableGroup) → IsHeld (D.state vault.old.disk) (tests_in filter.now) (root_of table.now) (group_view group.now) held
        → RefusedOnly IsDevice result }
    ensures absent { (D.state vault.old.disk).honest → CanFilter (tests_in filter.now) (root_of table.now) → LacksIn (D.state vault.old.disk) (root_of table.now) (group_view group.now)
        → IfOk result (λ _. NeedsNoFile (tests_in filter.now) (root_of table.now).keys (root_of table.now).schema (group_view group.now) []) }
    ensures effect { OnlyReads (D.state vault.old.disk) (D.state vault.new.disk) result }
{
    let found = GroupRows::read(
        alloc,
        vault,
        table.schema(),
        table.keys(),
        group,
        filter,
        &[],
    )?;
    match found {
        None => Ok(0),
        Some(rows) => Ok(rows.selected_count()),
    }
}
