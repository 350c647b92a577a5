//! What a table's groups are, without their rows.

ghost use Rattle.std.specs.Prelude.{◌≡◌, ◌≤◌, ◌↔◌, ◌++◌, map, IfOk, OnOk};
ghost use Rattle.bits.specs.Refusals.{RefusedMemoryOnly};
ghost use Rattle.manifest.specs.Groups.{group_view, handles_view, groups_in, root_of};
ghost use Rattle.table_reads.specs.Listing.{told_of, told_by};
ghost use Rattle.table.specs.Calls.{groups, plan_rewrite, planned, listed};
ghost use Rattle.table.specs.Views.{info_view, answered};
ghost use Rattle.table_state.specs.Promises.{Acts, HasCause, StaysClosed};

use bits::{R, Refusal};
use disk::Disk;
use manifest::{Group, Version};
use std::alloc::Global;
use std::rc::Rc;
use table::GroupInfo;
use table_state::Core;

/// The groups, in table order, each with the bytes of its chunks. Time and room are linear in the groups.
pub fn groups<D: Disk>(store: &mut Core<D>, alloc: Global) -> R<Vec<GroupInfo>>
    ensures acts { Acts D.state store.old store.new groups (answered (λ gs. listed (map info_view gs.items)) result) }
    ensures told { IfOk result (λ gs. map told_by gs.items ≡ map told_of (root_of store.old.manifest).groups) }
    ensures cause { HasCause D.state store.old store.new (answered (λ gs. listed (map info_view gs.items)) result) }
    ensures same { store.new ≡ store.old }
    ensures closed { StaysClosed store.old store.new result }
    ensures counts { (D.state store.old.vault.disk).failures ≤ (D.state store.new.vault.disk).failures }
    ensures honest { (D.state store.old.vault.disk).honest ↔ (D.state store.new.vault.disk).honest }
{
    if store.closed {
        return Err(Refusal::Closed);
    }
    let infos = infos_of(alloc, store.manifest.groups())?;
    Ok(infos)
}

/// The groups with fewer rows than this, and a neighbour of the same key that has fewer too.
pub fn plan_rewrite<D: Disk>(store: &mut Core<D>, alloc: Global, min_rows: u64) -> R<Vec<u64>>
    ensures acts { Acts D.state store.old store.new (plan_rewrite min_rows) (answered (λ ns. planned ns.items) result) }
    ensures cause { HasCause D.state store.old store.new (answered (λ ns. planned ns.items) result) }
    ensures same { store.new ≡ store.old }
    ensures closed { StaysClosed store.old store.new result }
    ensures counts { (D.state store.old.vault.disk).failures ≤ (D.state store.new.vault.disk).failures }
    ensures honest { (D.state store.old.vault.disk).honest ↔ (D.state store.new.vault.disk).honest }
{
    if store.closed {
        return Err(Refusal::Closed);
    }
    let numbers = planning::plan_rewrite(alloc, store.manifest.groups(), min_rows)?;
    Ok(numbers)
}

/// What is told of the groups of a version.
fn infos_of(alloc: Global, version: &Version) -> R<Vec<GroupInfo>>
    ensures told { IfOk result (λ gs. map told_by gs.items ≡ map told_of (groups_in version.now)) }
    ensures which { RefusedMemoryOnly result }
{
    let mut infos = Vec::new(alloc);
    for block in version.blocks() {
        push_infos(alloc, &mut infos, block.groups.as_slice())?;
    }
    Ok(infos)
}

/// Adds what is told of these groups, after the others.
fn push_infos(alloc: Global, infos: &mut Vec<GroupInfo>, groups: &[Rc<Group>]) -> R<()>
    ensures told { OnOk result (map told_by infos.new.items ≡ map told_by infos.old.items ++ map told_of (handles_view groups.now)) }
    ensures which { RefusedMemoryOnly result }
{
    for group in groups {
        let info = info_of(alloc, group)?;
        infos.push(info)?;
    }
    Ok(())
}

/// What is told of one group: its number, its key, its rows, and the bytes of its chunks.
fn info_of(alloc: Global, group: &Group) -> R<GroupInfo>
    ensures told { IfOk result (λ g. told_by g ≡ told_of (group_view group.now)) }
    ensures which { RefusedMemoryOnly result }
{
    let key = group.key.copied(alloc)?;
    Ok(GroupInfo {
        number: group.number,
        key,
        rows: group.stats.rows,
        bytes: group.chunks.size(),
    })
}
