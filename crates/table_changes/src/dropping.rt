//! The removal of groups.

ghost use Rattle.std.specs.Prelude.{◌≡◌, ◌≢◌, ◌+◌, ◌≤◌, ◌↔◌, [], IfOk, IfSome, OnErr};
ghost use Rattle.bits.specs.Refusals.{RefusedMemoryOnly};
ghost use Rattle.manifest.specs.Groups.{root_of, groups_in};
ghost use Rattle.planning.specs.Replaced.{without};
ghost use Rattle.table_commits.specs.Dropping.{rows_in};
ghost use Rattle.table.specs.Calls.{remove_groups, done};
ghost use Rattle.table.specs.Views.{answered};
ghost use Rattle.table_commits.specs.Cleaning.{LeavesTidy};
ghost use Rattle.table_state.specs.Promises.{Acts, HasCause, StaysClosed, ClosesInDoubt, LeavesTable, TouchesTable};

use bits::{R, Refusal};
use disk::Disk;
use manifest::Version;
use std::alloc::Global;
use table_commits::{commit_version, rows_in};
use table_state::Core;

/// What is left after a removal of groups, and how many rows went.
pub(crate) struct Removal {
    pub groups: Version,
    pub count: u64,
}

/// Removes the groups of these numbers, in a commit of its own: Ok(n), of n rows. Of no numbers it writes nothing.
///
/// Refused Closed; NoGroup for a number that no group has; Limit for a root that is too heavy; Device, and InDoubt
/// where the root may be the old one or the new one. Time and room are linear in the groups and the numbers.
pub fn remove_groups<D: Disk>(store: &mut Core<D>, alloc: Global, numbers: &[u64]) -> R<u64>
    ensures acts { Acts D.state store.old store.new (remove_groups numbers.now) (answered done result) }
    ensures cause { HasCause D.state store.old store.new (answered done result) }
    // Unless there are no numbers, no part file is left that nothing needs, unless a cleaning met a fault, or the store keeps what is replaced.
    ensures tidy { numbers.now ≢ [] → LeavesTidy D.state store.old store.new result }
    ensures closed { StaysClosed store.old store.new result }
    ensures doubt { ClosesInDoubt store.new result }
    ensures unwritten { numbers.now ≡ [] → store.new ≡ store.old }
    ensures kept { OnErr result (LeavesTable store.old store.new) }
    ensures touches { TouchesTable store.old store.new }
    ensures counts { (D.state store.old.vault.disk).failures ≤ (D.state store.new.vault.disk).failures }
    ensures honest { (D.state store.old.vault.disk).honest ↔ (D.state store.new.vault.disk).honest }
{
    if store.closed {
        return Err(Refusal::Closed);
    }
    if !planning::has_all(alloc, store.manifest.groups(), numbers)? {
        return Err(Refusal::NoGroup);
    }
    if numbers.is_empty() {
        return Ok(0);
    }
    let Removal { groups, count } = without_groups(alloc, store.manifest.groups(), numbers)?;
    let next = store.manifest.next();
    commit_version(store, alloc, groups, next, None)?;
    Ok(count)
}

/// The version without the groups of these numbers, and how many rows these have.
fn without_groups(alloc: Global, version: &Version, numbers: &[u64]) -> R<Removal>
    ensures left { IfOk result (λ r. groups_in r.groups ≡ without numbers.now (groups_in version.now)) }
    ensures counted { IfOk result (λ r. r.count + rows_in (without numbers.now (groups_in version.now)) ≡ rows_in (groups_in version.now)) }
    ensures which { RefusedMemoryOnly result }
{
    let edits = planning::remove_groups(alloc, version, numbers)?;
    let groups = version.spliced(alloc, edits.as_slice())?;
    let before = rows_in(version.blocks())?;
    let after = rows_in(groups.blocks())?;
    Ok(Removal {
        groups,
        count: before - after,
    })
}
