//! Files that nothing needs.

ghost use Rattle.std.specs.Prelude.{◌≡◌, ◌≤◌, ◌<◌, ◌↔◌, ◌∷◌, [], true, false};
ghost use Rattle.manifest.specs.Groups.{group_view, handles_view, root_of};
ghost use Rattle.snapshots.specs.State.{file_of, is_needed};
ghost use Rattle.snapshots.specs.Views.{state_of};
ghost use Rattle.table.specs.State.{State};
ghost use Rattle.table_state.specs.Stands.{Shows, IsTracked};
ghost use Rattle.table_commits.specs.Cleaning.{Clears, AreUnneeded, AreForgotten, IsTidy};

use disk::Disk;
use manifest::Group;
use partition::{part_path, part_paths_are_not_roots};
use snapshots::Event;
use std::alloc::Global;
use std::rc::Rc;
use table_state::Core;

/// Removes the files that nothing needs, unless the store keeps what is replaced. If one of them cannot be removed, the store is
/// clean no more.
pub fn let_go<D: Disk>(store: &mut Core<D>, alloc: Global)
    ensures clears { (D.state store.old.vault.disk).honest → (s : State) → Shows D.state store.old s → s.closed ≡ false → Clears D.state store.old store.new s }
    // No file is left that nothing needs, unless a cleaning met a fault.
    ensures tidy { (D.state store.old.vault.disk).honest → IsTracked (D.state store.old.vault.disk) store.old → store.old.keeps ≡ false → IsTidy D.state store.new }
    ensures keeps { store.old.keeps ≡ true → store.new ≡ store.old }
    ensures same { store.new ≡ record store.old { vault = store.new.vault; snapshots = store.new.snapshots; clean = store.new.clean } }
    ensures counts { (D.state store.old.vault.disk).failures ≤ (D.state store.new.vault.disk).failures }
    ensures reads { (D.state store.new.vault.disk).reads ≡ (D.state store.old.vault.disk).reads }
    ensures honest { (D.state store.old.vault.disk).honest ↔ (D.state store.new.vault.disk).honest }
{
    if !store.keeps {
        forget_unneeded(store, alloc);
    }
}

/// Removes the files that nothing needs. What cannot be removed stays, for a later cleaning, and the store is clean no more.
pub(crate) fn forget_unneeded<D: Disk>(store: &mut Core<D>, alloc: Global)
    ensures same { store.new ≡ record store.old { vault = store.new.vault; snapshots = store.new.snapshots; clean = store.new.clean } }
    ensures tidy { (D.state store.old.vault.disk).honest → IsTracked (D.state store.old.vault.disk) store.old → IsTidy D.state store.new }
    ensures clears { (D.state store.old.vault.disk).honest → (s : State) → Shows D.state store.old s → s.closed ≡ false → Clears D.state store.old store.new s }
    ensures counts { (D.state store.old.vault.disk).failures ≤ (D.state store.new.vault.disk).failures }
    ensures reads { (D.state store.new.vault.disk).reads ≡ (D.state store.old.vault.disk).reads }
    ensures honest { (D.state store.old.vault.disk).honest ↔ (D.state store.new.vault.disk).honest }
{
    match store.snapshots.unpinned(alloc) {
        Ok(unneeded) => {
            forget_parts(store, alloc, unneeded.as_slice());
            let _ = store.snapshots.step(alloc, Event::Gone(unneeded));
        }
        Err(_) => store.clean = false,
    }
}

/// Removes the files of these groups, whatever fails. Where something fails, the store is clean no more.
fn forget_parts<D: Disk>(store: &mut Core<D>, alloc: Global, groups: &[Rc<Group>])
    ensures forgets { (D.state store.old.vault.disk).honest → store.new.clean ≡ true → (store.old.clean ≡ true)
        × AreForgotten (root_of store.old.manifest).keys (handles_view groups.now) (D.state store.old.vault.disk) (D.state store.new.vault.disk) }
    ensures clears { (D.state store.old.vault.disk).honest → (s : State) → Shows D.state store.old s → s.closed ≡ false
        → AreUnneeded (state_of store.old.snapshots) s.next_group (handles_view groups.now) → Clears D.state store.old store.new s }
    ensures same { store.new ≡ record store.old { vault = store.new.vault; clean = store.new.clean } }
    ensures counts { (D.state store.old.vault.disk).failures ≤ (D.state store.new.vault.disk).failures }
    ensures reads { (D.state store.new.vault.disk).reads ≡ (D.state store.old.vault.disk).reads }
    ensures honest { (D.state store.old.vault.disk).honest ↔ (D.state store.new.vault.disk).honest }
{
    for group in groups {
        forget_part(store, alloc, group);
    }
}

/// Removes the file of a group. If that cannot be done, the store is clean no more.
fn forget_part<D: Disk>(store: &mut Core<D>, alloc: Global, group: &Group)
    ensures forgets { (D.state store.old.vault.disk).honest → store.new.clean ≡ true → (store.old.clean ≡ true)
        × AreForgotten (root_of store.old.manifest).keys (group_view group.now ∷ []) (D.state store.old.vault.disk) (D.state store.new.vault.disk) }
    ensures clears { (D.state store.old.vault.disk).honest → (s : State) → Shows D.state store.old s → s.closed ≡ false
        → is_needed (state_of store.old.snapshots) (file_of (group_view group.now)) ≡ false → group.now.number < s.next_group → Clears D.state store.old store.new s }
    ensures same { store.new ≡ record store.old { vault = store.new.vault; clean = store.new.clean } }
    ensures counts { (D.state store.old.vault.disk).failures ≤ (D.state store.new.vault.disk).failures }
    ensures reads { (D.state store.new.vault.disk).reads ≡ (D.state store.old.vault.disk).reads }
    ensures honest { (D.state store.old.vault.disk).honest ↔ (D.state store.new.vault.disk).honest }
{
    part_paths_are_not_roots();
    match part_path(alloc, store.manifest.keys(), &group.key, group.number) {
        Ok(path) => {
            if store.vault.forget(path.as_str()).is_err() {
                store.clean = false;
            }
        }
        Err(_) => store.clean = false,
    }
}
