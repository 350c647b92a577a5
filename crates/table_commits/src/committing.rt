//! The one way that each commit goes.

ghost use Rattle.std.specs.List.{AllByRecursion};
ghost use Rattle.std.specs.Prelude.{◌≡◌, ◌<◌, ◌⊎◌, ◌≤◌, ◌↔◌, ◌++◌, ℕ, List, Option, false, Err, IfOk, OnOk, OnErr, None};
ghost use Rattle.bits.specs.Refusals.{RefusedOnly, RefusedMemoryOnly};
ghost use Rattle.table.specs.InOrder.{in_order};
ghost use Rattle.manifest.specs.Groups.{Group as Described, root_of, groups_in, handles_view};
ghost use Rattle.manifest.specs.Laid.{IsRootTooHeavy};
ghost use Rattle.manifest.specs.Root.{CanHave};
ghost use Rattle.table.specs.Table.{Table};
ghost use Rattle.table.specs.State.{State, Job};
ghost use Rattle.table_state.specs.Promises.{ClosesInDoubt, LeavesTable, TouchesTable, TouchesTableAndJobs};
ghost use Rattle.table_state.specs.Stands.{Shows};
ghost use Rattle.table_commits.specs.Causes.{IsCommitRefusal};
ghost use Rattle.table_commits.specs.Cleaning.{IsTidy};
ghost use Rattle.table_commits.specs.Committing.{IsPlanned, Turns, with_version};

use crate::cleaning::let_go;
use crate::making::{make_turn, make_version_turn};
use crate::turn::take_turn;
use bits::{R, Refusal};
use disk::Disk;
use manifest::{Group, Manifest, Version};
use std::alloc::Global;
use std::rc::Rc;
use table::JobId;
use table_state::Core;

/// Commits to this description, whose groups' files are written, and ends a job or none: all growths, then the swap
/// of the root, and then the removal of what nothing needs any more.
///
/// After Ok the table is the one described. Refused Limit (a root that is too heavy), Device and Memory, the table is
/// as it was, and the job stands; InDoubt, the commit stands or not, and the store is closed.
pub fn commit_to<D: Disk>(
    store: &mut Core<D>,
    alloc: Global,
    manifest: Manifest,
    job: Option<JobId>,
) -> R<()>
    ensures turns { (D.state store.old.vault.disk).honest → (s : State) (t : Table) (jobs : List (ℕ × Job)) → Shows D.state store.old s → s.closed ≡ false
        → IsPlanned (D.state store.old.vault.disk) store.old s t jobs job (root_of manifest) → Turns D.state store.old store.new s t jobs result }
    // No part file is left that nothing needs, unless a cleaning met a fault, or the store keeps what is replaced.
    ensures tidy { (D.state store.old.vault.disk).honest → (s : State) → Shows D.state store.old s → s.closed ≡ false
        → (root_of manifest).keys ≡ (root_of store.old.manifest).keys → store.old.keeps ≡ false → OnOk result (IsTidy D.state store.new) }
    ensures limit { result ≡ Err Refusal.Limit → (s : State) (t : Table) (jobs : List (ℕ × Job)) → IsPlanned (D.state store.old.vault.disk) store.old s t jobs job (root_of manifest)
        → IsRootTooHeavy (root_of manifest) }
    ensures which { (s : State) (t : Table) (jobs : List (ℕ × Job)) → IsPlanned (D.state store.old.vault.disk) store.old s t jobs job (root_of manifest)
        → RefusedOnly IsCommitRefusal result }
    ensures doubt { ClosesInDoubt store.new result }
    ensures kept { OnErr result (LeavesTable store.old store.new) }
    ensures touches { TouchesTableAndJobs store.old store.new }
    ensures alone { job ≡ None → TouchesTable store.old store.new }
    ensures counts { (D.state store.old.vault.disk).failures ≤ (D.state store.new.vault.disk).failures }
    ensures reads { (D.state store.new.vault.disk).reads ≡ (D.state store.old.vault.disk).reads }
    ensures honest { (D.state store.old.vault.disk).honest ↔ (D.state store.new.vault.disk).honest }
{
    let turn = make_turn(store, alloc, manifest, job)?;
    take_turn(store, turn)?;
    let_go(store, alloc);
    Ok(())
}

/// Commits as `commit_to` does, to these groups, whose numbers are below this next number, in the table as it is described,
/// which can have them.
pub fn commit_version<D: Disk>(
    store: &mut Core<D>,
    alloc: Global,
    groups: Version,
    next: u64,
    job: Option<JobId>,
) -> R<()>
    requires below { AllByRecursion (λ (g : Described). g.number < next) (groups_in groups) }
    requires each { CanHave (root_of store.old.manifest) (groups_in groups) }
    ensures turns { (D.state store.old.vault.disk).honest → (s : State) (t : Table) (jobs : List (ℕ × Job)) → Shows D.state store.old s → s.closed ≡ false
        → IsPlanned (D.state store.old.vault.disk) store.old s t jobs job (with_version (root_of store.old.manifest) (groups_in groups) next)
        → Turns D.state store.old store.new s t jobs result }
    ensures tidy { (D.state store.old.vault.disk).honest → (s : State) → Shows D.state store.old s → s.closed ≡ false → store.old.keeps ≡ false
        → OnOk result (IsTidy D.state store.new) }
    ensures limit { result ≡ Err Refusal.Limit → (s : State) (t : Table) (jobs : List (ℕ × Job))
        → IsPlanned (D.state store.old.vault.disk) store.old s t jobs job (with_version (root_of store.old.manifest) (groups_in groups) next)
        → IsRootTooHeavy (with_version (root_of store.old.manifest) (groups_in groups) next) }
    ensures which { (s : State) (t : Table) (jobs : List (ℕ × Job))
        → IsPlanned (D.state store.old.vault.disk) store.old s t jobs job (with_version (root_of store.old.manifest) (groups_in groups) next)
        → RefusedOnly IsCommitRefusal result }
    ensures doubt { ClosesInDoubt store.new result }
    ensures kept { OnErr result (LeavesTable store.old store.new) }
    ensures touches { TouchesTableAndJobs store.old store.new }
    ensures alone { job ≡ None → TouchesTable store.old store.new }
    ensures counts { (D.state store.old.vault.disk).failures ≤ (D.state store.new.vault.disk).failures }
    ensures reads { (D.state store.new.vault.disk).reads ≡ (D.state store.old.vault.disk).reads }
    ensures honest { (D.state store.old.vault.disk).honest ↔ (D.state store.new.vault.disk).honest }
{
    let turn = make_version_turn(store, alloc, groups, next, job)?;
    take_turn(store, turn)?;
    let_go(store, alloc);
    Ok(())
}

/// The version with new groups, each behind the old ones of its key. Its numbers are below what those of both are.
pub fn with_new<D: Disk>(store: &Core<D>, alloc: Global, new: &[Rc<Group>]) -> R<Version>
    ensures placed { IfOk result (λ v. groups_in v ≡ in_order (λ (g : Described). g.key) ((root_of store.now.manifest).groups ++ handles_view new.now)) }
    ensures below { (next : ℕ) → (root_of store.now.manifest).next ≤ next → AllByRecursion (λ (g : Described). g.number < next) (handles_view new.now)
        → IfOk result (λ v. AllByRecursion (λ (g : Described). g.number < next) (groups_in v)) }
    ensures each { CanHave (root_of store.now.manifest) (handles_view new.now)
        → IfOk result (λ v. CanHave (root_of store.now.manifest) (groups_in v)) }
    ensures which { RefusedMemoryOnly result }
{
    let version = store.manifest.groups();
    let edits = planning::append(alloc, version, new)?;
    let groups = version.spliced(alloc, edits.as_slice())?;
    Ok(groups)
}
