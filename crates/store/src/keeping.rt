//! Opening anew, and files that are kept for others.

ghost use Rattle.std.specs.Prelude.{◌≡◌, ◌≤◌, ◌+◌, ◌↔◌, true, false, IfErr, OnOk, OnErr, [], IsTrue};
ghost use Rattle.vault.specs.Calls.{LeavesAll};
ghost use Rattle.manifest.specs.Groups.{root_of};
ghost use Rattle.recovery.specs.Opening.{Cleans, IsClean};
ghost use Rattle.table.specs.Calls.{reopen, accepted};
ghost use Rattle.table.specs.Views.{answered};
ghost use Rattle.table_openings.specs.Opening.{LeavesAllOrCleans};
ghost use Rattle.table_state.specs.Promises.{Acts, HasCause};
ghost use Rattle.table_commits.specs.Cleaning.{Clears, IsTidy};
ghost use Rattle.table.specs.State.{State};
ghost use Rattle.table_state.specs.Stands.{Stands, Shows};

use crate::store::Store;
use bits::R;
use disk::Disk;
use std::alloc::Global;

impl<D: Disk> Store<D> {
    /// Opens the table anew, as it is on the disk: after a commit in doubt, with or without it. All jobs and cursors are
    /// gone. A store that keeps what is replaced removes nothing here, else it cleans as [`crate::open`] does.
    ///
    /// Refused Device and Memory, and then the store is closed. On a disk that is not honest it may also be refused NoTable,
    /// and for what stands in `_metadata`.
    pub fn reopen(&mut self, alloc: Global) -> R<()>
        ensures acts { Acts D.state self.old self.new reopen (answered (λ _. accepted) result) }
        ensures cause { HasCause D.state self.old self.new (answered (λ _. accepted) result) }
        // Refused, the store is closed, also on a disk that is not honest.
        ensures closed { OnErr result (self.new.closed ≡ true) }
        // Refused, nothing has changed on the disk; but where memory ran out after the cleaning, what the root does not name
        // may be gone.
        ensures unchanged { (D.state self.old.vault.disk).honest → IfErr result (λ e. LeavesAllOrCleans (D.state self.old.vault.disk) (D.state self.new.vault.disk) e) }
        // Files other than part files that the root does not name, and the next root, are left alone.
        ensures removes { (D.state self.old.vault.disk).honest → OnOk result (Cleans (root_of self.new.manifest) (D.state self.old.vault.disk) (D.state self.new.vault.disk)) }
        ensures clean { (D.state self.old.vault.disk).honest → OnOk result (self.new.clean ≡ true → IsClean (root_of self.new.manifest) (D.state self.new.vault.disk)) }
        // No part file is left that nothing needs, unless the cleaning met a fault or was left out.
        ensures tidy { (D.state self.old.vault.disk).honest → (s : State) → Stands D.state self.old s → OnOk result (IsTidy D.state self.new) }
        ensures keeps { self.new.keeps ≡ self.old.keeps }
        // A store that keeps what is replaced changes no file.
        ensures kept { self.old.keeps ≡ true → (D.state self.old.vault.disk).honest → LeavesAll (D.state self.old.vault.disk) (D.state self.new.vault.disk) }
        ensures counts { (D.state self.old.vault.disk).failures ≤ (D.state self.new.vault.disk).failures }
        ensures reads { (D.state self.new.vault.disk).reads ≤ (D.state self.old.vault.disk).reads + 1 }
        ensures honest { (D.state self.old.vault.disk).honest ↔ (D.state self.new.vault.disk).honest }
    {
        table_openings::reopen(&mut self.core, alloc)
    }

    /// From here on no call of this store but [`Store::clean_up`] removes or changes an older file: a commit leaves the files that
    /// it replaces, and an opening anew cleans nothing. So a program that began to read an earlier version can go on. Older are all
    /// files but the root, the next root, and part files under numbers that the store has not given yet, which a crash may have
    /// left. Each call says so by its clause `acts` (`ActsFrom.kept`). Takes no memory.
    pub fn keep_replaced(&mut self)
        ensures keeps { self.new ≡ record self.old { keeps = true } }
        ensures stands { (s : State) → Stands D.state self.old s → Stands D.state self.new s }
    {
        table_commits::keep_replaced(&mut self.core);
    }

    /// Removes the files that nothing needs. Where no cursor and no job is open, these are the next root and each part file in the
    /// key folders that the root does not name; else only those that commits of this store replaced. The table, the cursors and
    /// the jobs stand as they were.
    ///
    /// Returns whether no other file is left there. It is false where a fault was met, where a cursor or a job is open, and of a
    /// closed store, which removes nothing. What is left stays for a later cleaning.
    pub fn clean_up(&mut self, alloc: Global) -> bool
        // The store shows the state that it showed, and a stop at any moment leaves that state's table.
        ensures clears { (D.state self.old.vault.disk).honest → (s : State) → Shows D.state self.old s → s.closed ≡ false → Clears D.state self.old self.new s }
        // No part file is left that nothing needs, unless a cleaning met a fault. That holds too of a store that keeps what is replaced.
        ensures tidy { (D.state self.old.vault.disk).honest → (s : State) → Shows D.state self.old s → s.closed ≡ false → IsTidy D.state self.new }
        ensures same { self.new ≡ record self.old { vault = self.new.vault; snapshots = self.new.snapshots; clean = self.new.clean } }
        ensures closed { self.old.closed ≡ true → (result ≡ false) × (self.new ≡ self.old) }
        // Other files are left alone.
        ensures removes { (D.state self.old.vault.disk).honest → self.old.closed ≡ false → self.old.jobs.items ≡ [] → self.old.cursors.items ≡ []
            → Cleans (root_of self.old.manifest) (D.state self.old.vault.disk) (D.state self.new.vault.disk) }
        // No next root, and no part file in a key folder that the root does not name; and no other version is in use.
        ensures clean { (D.state self.old.vault.disk).honest → IsTrue result → IsClean (root_of self.old.manifest) (D.state self.new.vault.disk) }
        ensures remembers { IsTrue result → self.new.clean ≡ true }
        // Of an open store on which nothing is open, the answer is what the store remembers.
        ensures says { self.old.closed ≡ false → self.old.jobs.items ≡ [] → self.old.cursors.items ≡ [] → result ≡ self.new.clean }
        ensures idle { IsTrue result → (self.old.jobs.items ≡ []) × (self.old.cursors.items ≡ []) }
        ensures counts { (D.state self.old.vault.disk).failures ≤ (D.state self.new.vault.disk).failures }
        ensures told { IsTrue result → (D.state self.new.vault.disk).failures ≡ (D.state self.old.vault.disk).failures }
        ensures reads { (D.state self.new.vault.disk).reads ≡ (D.state self.old.vault.disk).reads }
        ensures honest { (D.state self.old.vault.disk).honest ↔ (D.state self.new.vault.disk).honest }
    {
        table_commits::clean_up(&mut self.core, alloc)
    }
}
