//! Files that are kept for those that read beside this store, and their removal.

ghost use Rattle.std.specs.Prelude.{◌≡◌, ◌≤◌, ◌↔◌, true, false, [], IsTrue};
ghost use Rattle.manifest.specs.Groups.{root_of};
ghost use Rattle.recovery.specs.Opening.{Cleans, IsClean};
ghost use Rattle.snapshots.specs.Views.{state_of};
ghost use Rattle.table_commits.specs.Cleaning.{TracksNoMore, Clears, IsTidy};
ghost use Rattle.table.specs.State.{State};
ghost use Rattle.table_state.specs.Stands.{Stands, Shows};

use crate::cleaning::forget_unneeded;
use disk::Disk;
use snapshots::{Event, Snapshots};
use std::alloc::Global;
use table_state::Core;

/// From here on no call of this store but [`clean_up`] removes or changes an older file: a commit leaves the files that it replaces,
/// and an opening anew cleans nothing. So a program that began to read an earlier version can go on. Older are all files but the
/// root, the next root, and part files under numbers that the store has not given yet, which a crash may have left. Takes no memory.
pub fn keep_replaced<D: Disk>(store: &mut Core<D>)
    ensures keeps { store.new ≡ record store.old { keeps = true } }
    ensures stands { (s : State) → Stands D.state store.old s → Stands D.state store.new s }
{
    store.keeps = true;
}

/// Removes the files that nothing needs. Where no cursor and no job is open, these are the next root and each part file in the
/// key folders that the root does not name; else only those that commits of this store replaced. The table, the cursors and
/// the jobs stand as they were.
///
/// Returns whether no other file is left there. It is false where a fault was met, where a cursor or a job is open, and of a
/// closed store, which removes nothing. What is left stays for a later cleaning.
pub fn clean_up<D: Disk>(store: &mut Core<D>, alloc: Global) -> bool
    // The store shows the state that it showed, and a stop at any moment leaves that state's table.
    ensures clears { (D.state store.old.vault.disk).honest → (s : State) → Shows D.state store.old s → s.closed ≡ false → Clears D.state store.old store.new s }
    // No part file is left that nothing needs, unless a cleaning met a fault. That holds too of a store that keeps what is replaced.
    ensures tidy { (D.state store.old.vault.disk).honest → (s : State) → Shows D.state store.old s → s.closed ≡ false → IsTidy D.state store.new }
    ensures same { store.new ≡ record store.old { vault = store.new.vault; snapshots = store.new.snapshots; clean = store.new.clean } }
    ensures closed { store.old.closed ≡ true → (result ≡ false) × (store.new ≡ store.old) }
    // Other files are left alone.
    ensures removes { (D.state store.old.vault.disk).honest → store.old.closed ≡ false → store.old.jobs.items ≡ [] → store.old.cursors.items ≡ []
        → Cleans (root_of store.old.manifest) (D.state store.old.vault.disk) (D.state store.new.vault.disk) }
    // No next root, and no part file in a key folder that the root does not name; and no other version is in use.
    ensures clean { (D.state store.old.vault.disk).honest → IsTrue result → IsClean (root_of store.old.manifest) (D.state store.new.vault.disk) }
    ensures remembers { IsTrue result → store.new.clean ≡ true }
    // Of an open store on which nothing is open, the answer is what the store remembers.
    ensures says { store.old.closed ≡ false → store.old.jobs.items ≡ [] → store.old.cursors.items ≡ [] → result ≡ store.new.clean }
    ensures idle { IsTrue result → (store.old.jobs.items ≡ []) × (store.old.cursors.items ≡ []) }
    ensures counts { (D.state store.old.vault.disk).failures ≤ (D.state store.new.vault.disk).failures }
    ensures told { IsTrue result → (D.state store.new.vault.disk).failures ≡ (D.state store.old.vault.disk).failures }
    ensures reads { (D.state store.new.vault.disk).reads ≡ (D.state store.old.vault.disk).reads }
    ensures honest { (D.state store.old.vault.disk).honest ↔ (D.state store.new.vault.disk).honest }
{
    if store.closed {
        return false;
    }
    if !is_idle(store) {
        forget_unneeded(store, alloc);
        return false;
    }
    let fine = clean_idle(store, alloc);
    untrack(alloc, &mut store.snapshots);
    fine
}

/// Whether no job and no cursor is open.
fn is_idle<D: Disk>(store: &Core<D>) -> bool
    ensures { IsTrue result ↔ ((store.now.jobs.items ≡ []) × (store.now.cursors.items ≡ [])) }
{
    store.jobs.as_slice().is_empty() && store.cursors.as_slice().is_empty()
}

/// Removes the next root and the part files that the root does not name, where nothing is open. Whether no fault was met, which the
/// store remembers.
fn clean_idle<D: Disk>(store: &mut Core<D>, alloc: Global) -> bool
    requires jobs { store.old.jobs.items ≡ [] }
    requires cursors { store.old.cursors.items ≡ [] }
    ensures clears { (D.state store.old.vault.disk).honest → (s : State) → Shows D.state store.old s → s.closed ≡ false → Clears D.state store.old store.new s }
    ensures same { store.new ≡ record store.old { vault = store.new.vault; clean = store.new.clean } }
    ensures remembers { result ≡ store.new.clean }
    ensures removes { (D.state store.old.vault.disk).honest → Cleans (root_of store.old.manifest) (D.state store.old.vault.disk) (D.state store.new.vault.disk) }
    ensures clean { (D.state store.old.vault.disk).honest → IsTrue result → IsClean (root_of store.old.manifest) (D.state store.new.vault.disk) }
    ensures told { IsTrue result → (D.state store.new.vault.disk).failures ≡ (D.state store.old.vault.disk).failures }
    ensures counts { (D.state store.old.vault.disk).failures ≤ (D.state store.new.vault.disk).failures }
    ensures reads { (D.state store.new.vault.disk).reads ≡ (D.state store.old.vault.disk).reads }
    ensures honest { (D.state store.old.vault.disk).honest ↔ (D.state store.new.vault.disk).honest }
{
    let fine = recovery::clean(alloc, &mut store.vault, &store.manifest);
    store.clean = fine;
    fine
}

/// Tracks the files no more that nothing needs. Where memory runs out it goes on tracking them, which does no harm.
fn untrack(alloc: Global, snapshots: &mut Snapshots)
    ensures { TracksNoMore (state_of snapshots.old) (state_of snapshots.new) }
{
    if let Ok(unneeded) = snapshots.unpinned(alloc) {
        let _ = snapshots.step(alloc, Event::Gone(unneeded));
    }
}
