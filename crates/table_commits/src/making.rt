//! What a commit needs, made before the disk is touched.

ghost use Rattle.std.specs.Prelude.{◌≡◌, ◌<◌, ◌⊎◌, Some, None, Err, IfOk};
ghost use Rattle.std.specs.List.{AllByRecursion};
ghost use Rattle.bits.specs.Refusals.{RefusedOnly};
ghost use Rattle.manifest.specs.Groups.{Group as Described, root_of, groups_in};
ghost use Rattle.manifest.specs.Root.{CanHave};
ghost use Rattle.manifest.specs.Laid.{IsRootTooHeavy};
ghost use Rattle.snapshots.specs.State.{fault_of, committed};
ghost use Rattle.snapshots.specs.Views.{state_of};
ghost use Rattle.table_state.specs.Promises.{IsSure};
ghost use Rattle.table_commits.specs.Committing.{IsMade, with_version};

use crate::turn::Turn;
use bits::{R, Refusal};
use disk::Disk;
use manifest::{Manifest, Version};
use snapshots::{Event, versions_are_told};
use std::alloc::Global;
use table::JobId;
use table_state::Core;

/// Makes ready a commit to this description, which ends a job or none: the bytes of its root, and the change of the
/// versions. Nothing changes yet. Refused Limit only where the root is too heavy.
pub(crate) fn make_turn<D: Disk>(
    store: &Core<D>,
    alloc: Global,
    manifest: Manifest,
    job: Option<JobId>,
) -> R<Turn>
    ensures made { IfOk result (IsMade (state_of store.now.snapshots) (root_of manifest) job) }
    ensures sound { IfOk result (λ _. fault_of (state_of store.now.snapshots) (committed (root_of manifest).groups job) ≡ None) }
    ensures limit { result ≡ Err Refusal.Limit → IsRootTooHeavy (root_of manifest)
        ⊎ (fault_of (state_of store.now.snapshots) (committed (root_of manifest).groups job) ≡ Some Refusal.Limit) }
    ensures which { RefusedOnly (λ e. (e ≡ Refusal.Limit) ⊎ (fault_of (state_of store.now.snapshots) (committed (root_of manifest).groups job) ≡ Some e)) result }
    ensures sure { IsSure result }
{
    let version = manifest.groups().share()?;
    let root = manifest.to_bytes(alloc)?;
    let prepared = store
        .snapshots
        .prepare(alloc, Event::Committed(version, job))?;
    Ok(Turn {
        manifest,
        root,
        job,
        prepared,
    })
}

/// Makes ready a commit as `make_turn` does, to these groups and this next number, in the table as it is described, which
/// can have them.
pub(crate) fn make_version_turn<D: Disk>(
    store: &Core<D>,
    alloc: Global,
    groups: Version,
    next: u64,
    job: Option<JobId>,
) -> R<Turn>
    requires below { AllByRecursion (λ (g : Described). g.number < next) (groups_in groups) }
    requires each { CanHave (root_of store.now.manifest) (groups_in groups) }
    ensures made { IfOk result (IsMade (state_of store.now.snapshots) (with_version (root_of store.now.manifest) (groups_in groups) next) job) }
    ensures limit { result ≡ Err Refusal.Limit → IsRootTooHeavy (with_version (root_of store.now.manifest) (groups_in groups) next)
        ⊎ (fault_of (state_of store.now.snapshots) (committed (groups_in groups) job) ≡ Some Refusal.Limit) }
    ensures which { RefusedOnly (λ e. (e ≡ Refusal.Limit) ⊎ (fault_of (state_of store.now.snapshots) (committed (groups_in groups) job) ≡ Some e)) result }
    ensures sure { IsSure result }
{
    versions_are_told();
    let version = groups.share()?;
    let prepared = store
        .snapshots
        .prepare(alloc, Event::Committed(version, job))?;
    let manifest = store.manifest.with_groups(groups, next)?;
    let root = manifest.to_bytes(alloc)?;
    Ok(Turn {
        manifest,
        root,
        job,
        prepared,
    })
}
