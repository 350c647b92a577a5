//! Opening anew.

ghost use Rattle.std.specs.Prelude.{◌≡◌, ◌≤◌, ◌+◌, ◌↔◌, ◌⊎◌, ℕ, List, Some, true, false, IfOk, IfErr, OnOk, OnErr};
ghost use Rattle.disk.specs.State.{content};
ghost use Rattle.vault.specs.Views.{LeavesAfter, root_path};
ghost use Rattle.vault.specs.Ways.{LeavesWays};
ghost use Rattle.vault.specs.Calls.{LeavesAll, HasFailed};
ghost use Rattle.manifest.specs.Groups.{root_of};
ghost use Rattle.manifest.specs.Root.{RootMeans};
ghost use Rattle.recovery.specs.Sound.{IsSound, SameTable, IsDescribed};
ghost use Rattle.recovery.specs.Opening.{Cleans, IsClean};
ghost use Rattle.table.specs.Calls.{reopen, accepted};
ghost use Rattle.table.specs.State.{State};
ghost use Rattle.table.specs.Views.{answered};
ghost use Rattle.table_openings.specs.Opening.{LeavesAllOrCleans};
ghost use Rattle.table_state.specs.Promises.{Acts, HasCause};
ghost use Rattle.table_state.specs.Stands.{Stands};
ghost use Rattle.table_commits.specs.Cleaning.{IsTidy};

use bits::{R, Refusal};
use disk::Disk;
use manifest::Manifest;
use std::alloc::Global;
use table_state::Core;
use vault::Vault;

/// Opens the table anew, as it is on the disk: after a commit in doubt, with or without it. All jobs and cursors are
/// gone. A store that keeps what is replaced removes nothing here, else it cleans as [`crate::open`] does.
///
/// Refused Device and Memory, and then the store is closed. On a disk that is not honest it may also be refused NoTable,
/// and for what stands in `_metadata`.
pub fn reopen<D: Disk>(store: &mut Core<D>, alloc: Global) -> R<()>
    ensures acts { Acts D.state store.old store.new reopen (answered (λ _. accepted) result) }
    ensures cause { HasCause D.state store.old store.new (answered (λ _. accepted) result) }
    // Refused, the store is closed, also on a disk that is not honest.
    ensures closed { OnErr result (store.new.closed ≡ true) }
    // Refused, nothing has changed on the disk; but where memory ran out after the cleaning, what the root does not name
    // may be gone.
    ensures unchanged { (D.state store.old.vault.disk).honest → IfErr result (λ e. LeavesAllOrCleans (D.state store.old.vault.disk) (D.state store.new.vault.disk) e) }
    // Files other than part files that the root does not name, and the next root, are left alone.
    ensures removes { (D.state store.old.vault.disk).honest → OnOk result (Cleans (root_of store.new.manifest) (D.state store.old.vault.disk) (D.state store.new.vault.disk)) }
    ensures clean { (D.state store.old.vault.disk).honest → OnOk result (store.new.clean ≡ true → IsClean (root_of store.new.manifest) (D.state store.new.vault.disk)) }
    // No part file is left that nothing needs, unless the cleaning met a fault or was left out.
    ensures tidy { (D.state store.old.vault.disk).honest → (s : State) → Stands D.state store.old s → OnOk result (IsTidy D.state store.new) }
    ensures keeps { store.new.keeps ≡ store.old.keeps }
    // A store that keeps what is replaced changes no file.
    ensures kept { store.old.keeps ≡ true → (D.state store.old.vault.disk).honest → LeavesAll (D.state store.old.vault.disk) (D.state store.new.vault.disk) }
    ensures counts { (D.state store.old.vault.disk).failures ≤ (D.state store.new.vault.disk).failures }
    ensures reads { (D.state store.new.vault.disk).reads ≤ (D.state store.old.vault.disk).reads + 1 }
    ensures honest { (D.state store.old.vault.disk).honest ↔ (D.state store.new.vault.disk).honest }
{
    // For the proof: an image is at most one table, whose rows fit it.
    manifest::tables_are_one();
    manifest::rows_of_parts_fit();
    store.closed = true;
    match read_again(alloc, &mut store.vault, store.keeps) {
        Ok((manifest, has_fault)) => store.start_anew(alloc, manifest, !has_fault),
        Err(e) => Err(e),
    }
}

/// Opens the table anew that a vault's disk holds, and cleans unless files are kept. Returns the description, and whether the
/// cleaning met a fault or was left out.
fn read_again<D: Disk>(alloc: Global, vault: &mut Vault<D>, keeps: bool) -> R<(Manifest, bool)>
    ensures sound { (D.state vault.old.disk).honest → IsSound (D.state vault.old.disk) → IsSound (D.state vault.new.disk) }
    ensures moments { (D.state vault.old.disk).honest → IsSound (D.state vault.old.disk)
        → LeavesAfter SameTable (D.state vault.old.disk) (D.state vault.new.disk) }
    ensures describes { (D.state vault.old.disk).honest → IsSound (D.state vault.old.disk)
        → IfOk result (λ x. IsDescribed (D.state vault.new.disk) (root_of x.0)) }
    ensures reads_root { (D.state vault.old.disk).honest
        → IfOk result (λ x. (bytes : List ℕ) × (content (D.state vault.old.disk).seen root_path ≡ Some bytes) × RootMeans bytes (root_of x.0)) }
    ensures only { (D.state vault.old.disk).honest → IsSound (D.state vault.old.disk) → IfErr result (λ e. (e ≡ Refusal.Device) ⊎ (e ≡ Refusal.Memory)) }
    ensures cause { IfErr result (λ e. e ≡ Refusal.Device → (D.state vault.old.disk).honest → HasFailed (D.state vault.old.disk) (D.state vault.new.disk)) }
    ensures unchanged { (D.state vault.old.disk).honest → IfErr result (λ e. LeavesAll (D.state vault.old.disk) (D.state vault.new.disk)) }
    ensures removes { (D.state vault.old.disk).honest → IfOk result (λ x. Cleans (root_of x.0) (D.state vault.old.disk) (D.state vault.new.disk)) }
    ensures kept { keeps ≡ true → (D.state vault.old.disk).honest → LeavesAll (D.state vault.old.disk) (D.state vault.new.disk) }
    ensures clean { (D.state vault.old.disk).honest → IfOk result (λ x. x.1 ≡ false → IsClean (root_of x.0) (D.state vault.new.disk)) }
    ensures clear { (D.state vault.old.disk).honest → LeavesWays (D.state vault.old.disk) (D.state vault.new.disk) }
    ensures reads { (D.state vault.new.disk).reads ≤ (D.state vault.old.disk).reads + 1 }
    ensures counts { (D.state vault.old.disk).failures ≤ (D.state vault.new.disk).failures }
    ensures honest { (D.state vault.old.disk).honest ↔ (D.state vault.new.disk).honest }
{
    if !keeps {
        return recovery::reopen(alloc, vault);
    }
    match recovery::reopen_to_read(alloc, vault) {
        Ok(manifest) => Ok((manifest, true)),
        Err(e) => Err(e),
    }
}
