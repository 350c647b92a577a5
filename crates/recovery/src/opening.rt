//! Opening.

ghost use Rattle.std.specs.Prelude.{◌≡◌, ◌⊎◌, ◌↔◌, ◌≤◌, ◌+◌, ℕ, List, IfOk, IfErr, OnOk, MatchResult, false, Some};
ghost use Rattle.bits.specs.Refusals.{RefusedOnly};
ghost use Rattle.disk.specs.State.{content};
ghost use Rattle.vault.specs.Views.{LeavesAfter, ReadsRoot, IsRooted, IsSettled, root_path};
ghost use Rattle.vault.specs.Ways.{LeavesWays};
ghost use Rattle.vault.specs.Calls.{LeavesAll, HasFailed, IsHonestDevice};
ghost use Rattle.manifest.specs.Groups.{root_of};
ghost use Rattle.manifest.specs.Root.{RootMeans};
ghost use Rattle.recovery.specs.Sound.{IsSound, SameTable, IsDescribed};
ghost use Rattle.recovery.specs.Opening.{IsNotOpened, Cleans, IsClean};

use crate::cleaning::remove_litter;
use bits::{R, Refusal};
use disk::Disk;
use manifest::Manifest;
use std::alloc::Global;
use vault::Vault;

/// Opens the table that a disk holds, after any crash: makes the root that is read durable, by one sync of the dataset's
/// folder; reads it by one `read_range`; and then cleans: removes `_metadata.new` and each part file in the key folders
/// that the root does not name. Other files are left alone. Returns the vault, the description, and whether the
/// cleaning met a fault, which changes nothing else.
///
/// A sound disk stays sound, and at every moment whatever a crash leaves is a table that one could have left before;
/// afterwards it is the table that is described, whose files are kept. Then it is refused only Device, where the disk
/// failed, and Memory. Else it is also refused NoTable where there is no root, and as [`Manifest::from_bytes`] is. A
/// refusal changes nothing and hands the disk back. Time and room are linear in the root's bytes and in the names in the
/// key folders and those above them.
pub fn open<D: Disk>(alloc: Global, disk: D) -> Result<(Vault<D>, Manifest, bool), (D, Refusal)>
    ensures sound { (D.state disk).honest → IsSound (D.state disk) → MatchResult result (λ x. IsSound (D.state x.0.disk)) (λ e. IsSound (D.state e.0)) }
    ensures moments { (D.state disk).honest → IsSound (D.state disk)
        → MatchResult result (λ x. LeavesAfter SameTable (D.state disk) (D.state x.0.disk)) (λ e. LeavesAfter SameTable (D.state disk) (D.state e.0)) }
    ensures describes { (D.state disk).honest → IsSound (D.state disk) → IfOk result (λ x. IsDescribed (D.state x.0.disk) (root_of x.1)) }
    ensures reads_root { (D.state disk).honest
        → IfOk result (λ x. (bytes : List ℕ) × (content (D.state disk).seen root_path ≡ Some bytes) × RootMeans bytes (root_of x.1)) }
    ensures only { (D.state disk).honest → IsSound (D.state disk) → IfErr result (λ e. (e.1 ≡ Refusal.Device) ⊎ (e.1 ≡ Refusal.Memory)) }
    ensures which { (D.state disk).honest → IfErr result (λ e. IsNotOpened (content (D.state disk).seen root_path) e.1) }
    ensures cause { IfErr result (λ e. e.1 ≡ Refusal.Device → (D.state disk).honest → HasFailed (D.state disk) (D.state e.0)) }
    ensures unchanged { (D.state disk).honest → IfErr result (λ e. LeavesAll (D.state disk) (D.state e.0)) }
    ensures removes { (D.state disk).honest → IfOk result (λ x. Cleans (root_of x.1) (D.state disk) (D.state x.0.disk)) }
    ensures clean { (D.state disk).honest → IfOk result (λ x. x.2 ≡ false → IsClean (root_of x.1) (D.state x.0.disk)) }
    ensures told { IfOk result (λ x. x.2 ≡ false → (D.state x.0.disk).failures ≡ (D.state disk).failures) }
    ensures clear { (D.state disk).honest → IfOk result (λ x. LeavesWays (D.state disk) (D.state x.0.disk)) }
    ensures reads { MatchResult result (λ x. (D.state x.0.disk).reads ≤ (D.state disk).reads + 1) (λ e. (D.state e.0).reads ≤ (D.state disk).reads + 1) }
    ensures counts { MatchResult result (λ x. (D.state disk).failures ≤ (D.state x.0.disk).failures) (λ e. (D.state disk).failures ≤ (D.state e.0).failures) }
    ensures honest { MatchResult result (λ x. (D.state disk).honest ↔ (D.state x.0.disk).honest) (λ e. (D.state disk).honest ↔ (D.state e.0).honest) }
{
    let mut vault = Vault::start(disk);
    match reopen(alloc, &mut vault) {
        Ok((manifest, has_fault)) => Ok((vault, manifest, has_fault)),
        Err(e) => Err((vault.into_disk(), e)),
    }
}

/// Opens the table anew that a vault's disk holds, as [`open`] does: after a commit in doubt it is the table with or without
/// that commit. Returns the description, and whether the cleaning met a fault.
pub fn reopen<D: Disk>(alloc: Global, vault: &mut Vault<D>) -> R<(Manifest, bool)>
    ensures sound { (D.state vault.old.disk).honest → IsSound (D.state vault.old.disk) → IsSound (D.state vault.new.disk) }
    ensures moments { (D.state vault.old.disk).honest → IsSound (D.state vault.old.disk)
        → LeavesAfter SameTable (D.state vault.old.disk) (D.state vault.new.disk) }
    ensures describes { (D.state vault.old.disk).honest → IsSound (D.state vault.old.disk)
        → IfOk result (λ x. IsDescribed (D.state vault.new.disk) (root_of x.0)) }
    ensures reads_root { (D.state vault.old.disk).honest
        → IfOk result (λ x. (bytes : List ℕ) × (content (D.state vault.old.disk).seen root_path ≡ Some bytes) × RootMeans bytes (root_of x.0)) }
    ensures only { (D.state vault.old.disk).honest → IsSound (D.state vault.old.disk) → IfErr result (λ e. (e ≡ Refusal.Device) ⊎ (e ≡ Refusal.Memory)) }
    ensures which { (D.state vault.old.disk).honest → IfErr result (λ e. IsNotOpened (content (D.state vault.old.disk).seen root_path) e) }
    ensures cause { IfErr result (λ e. e ≡ Refusal.Device → (D.state vault.old.disk).honest → HasFailed (D.state vault.old.disk) (D.state vault.new.disk)) }
    ensures unchanged { (D.state vault.old.disk).honest → IfErr result (λ e. LeavesAll (D.state vault.old.disk) (D.state vault.new.disk)) }
    ensures removes { (D.state vault.old.disk).honest → IfOk result (λ x. Cleans (root_of x.0) (D.state vault.old.disk) (D.state vault.new.disk)) }
    ensures clean { (D.state vault.old.disk).honest → IfOk result (λ x. x.1 ≡ false → IsClean (root_of x.0) (D.state vault.new.disk)) }
    ensures told { IfOk result (λ x. x.1 ≡ false → (D.state vault.new.disk).failures ≡ (D.state vault.old.disk).failures) }
    ensures clear { (D.state vault.old.disk).honest → LeavesWays (D.state vault.old.disk) (D.state vault.new.disk) }
    ensures reads { (D.state vault.new.disk).reads ≤ (D.state vault.old.disk).reads + 1 }
    ensures counts { (D.state vault.old.disk).failures ≤ (D.state vault.new.disk).failures }
    ensures honest { (D.state vault.old.disk).honest ↔ (D.state vault.new.disk).honest }
{
    // For the proof: the root describes one table, and names neither itself nor what is removed.
    manifest::a_root_means_one_table();
    partition::part_paths_are_not_roots();
    let manifest = read_manifest(alloc, vault)?;
    let is_clean = remove_litter(alloc, vault, &manifest);
    Ok((manifest, !is_clean))
}

/// Opens the table that a disk holds to read it, as [`open`] does but for the cleaning: no file is removed, and nothing that is
/// read changes. So it can be done beside a program that writes. Returns the vault and the description.
pub fn open_to_read<D: Disk>(alloc: Global, disk: D) -> Result<(Vault<D>, Manifest), (D, Refusal)>
    ensures sound { (D.state disk).honest → IsSound (D.state disk) → MatchResult result (λ x. IsSound (D.state x.0.disk)) (λ e. IsSound (D.state e.0)) }
    ensures moments { (D.state disk).honest → IsSound (D.state disk)
        → MatchResult result (λ x. LeavesAfter SameTable (D.state disk) (D.state x.0.disk)) (λ e. LeavesAfter SameTable (D.state disk) (D.state e.0)) }
    ensures describes { (D.state disk).honest → IsSound (D.state disk) → IfOk result (λ x. IsDescribed (D.state x.0.disk) (root_of x.1)) }
    ensures reads_root { (D.state disk).honest
        → IfOk result (λ x. (bytes : List ℕ) × (content (D.state disk).seen root_path ≡ Some bytes) × RootMeans bytes (root_of x.1)) }
    ensures only { (D.state disk).honest → IsSound (D.state disk) → IfErr result (λ e. (e.1 ≡ Refusal.Device) ⊎ (e.1 ≡ Refusal.Memory)) }
    ensures which { (D.state disk).honest → IfErr result (λ e. IsNotOpened (content (D.state disk).seen root_path) e.1) }
    ensures cause { IfErr result (λ e. e.1 ≡ Refusal.Device → (D.state disk).honest → HasFailed (D.state disk) (D.state e.0)) }
    // Whatever is returned, all stays as it was.
    ensures unchanged { (D.state disk).honest → MatchResult result (λ x. LeavesAll (D.state disk) (D.state x.0.disk)) (λ e. LeavesAll (D.state disk) (D.state e.0)) }
    ensures told { IfOk result (λ x. (D.state x.0.disk).failures ≡ (D.state disk).failures) }
    ensures reads { MatchResult result (λ x. (D.state x.0.disk).reads ≤ (D.state disk).reads + 1) (λ e. (D.state e.0).reads ≤ (D.state disk).reads + 1) }
    ensures counts { MatchResult result (λ x. (D.state disk).failures ≤ (D.state x.0.disk).failures) (λ e. (D.state disk).failures ≤ (D.state e.0).failures) }
    ensures honest { MatchResult result (λ x. (D.state disk).honest ↔ (D.state x.0.disk).honest) (λ e. (D.state disk).honest ↔ (D.state e.0).honest) }
{
    let mut vault = Vault::start(disk);
    match reopen_to_read(alloc, &mut vault) {
        Ok(manifest) => Ok((vault, manifest)),
        Err(e) => Err((vault.into_disk(), e)),
    }
}

/// Opens the table anew that a vault's disk holds, as [`reopen`] does but for the cleaning: no file is removed, and nothing that
/// is read changes. Returns the description.
pub fn reopen_to_read<D: Disk>(alloc: Global, vault: &mut Vault<D>) -> R<Manifest>
    ensures sound { (D.state vault.old.disk).honest → IsSound (D.state vault.old.disk) → IsSound (D.state vault.new.disk) }
    ensures moments { (D.state vault.old.disk).honest → IsSound (D.state vault.old.disk)
        → LeavesAfter SameTable (D.state vault.old.disk) (D.state vault.new.disk) }
    ensures describes { (D.state vault.old.disk).honest → IsSound (D.state vault.old.disk)
        → IfOk result (λ m. IsDescribed (D.state vault.new.disk) (root_of m)) }
    ensures reads_root { (D.state vault.old.disk).honest
        → IfOk result (λ m. (bytes : List ℕ) × (content (D.state vault.old.disk).seen root_path ≡ Some bytes) × RootMeans bytes (root_of m)) }
    ensures only { (D.state vault.old.disk).honest → IsSound (D.state vault.old.disk) → IfErr result (λ e. (e ≡ Refusal.Device) ⊎ (e ≡ Refusal.Memory)) }
    ensures which { (D.state vault.old.disk).honest → IfErr result (λ e. IsNotOpened (content (D.state vault.old.disk).seen root_path) e) }
    ensures cause { IfErr result (λ e. e ≡ Refusal.Device → (D.state vault.old.disk).honest → HasFailed (D.state vault.old.disk) (D.state vault.new.disk)) }
    ensures unchanged { (D.state vault.old.disk).honest → LeavesAll (D.state vault.old.disk) (D.state vault.new.disk) }
    ensures told { OnOk result ((D.state vault.new.disk).failures ≡ (D.state vault.old.disk).failures) }
    ensures reads { (D.state vault.new.disk).reads ≤ (D.state vault.old.disk).reads + 1 }
    ensures counts { (D.state vault.old.disk).failures ≤ (D.state vault.new.disk).failures }
    ensures honest { (D.state vault.old.disk).honest ↔ (D.state vault.new.disk).honest }
{
    // For the proof: the root describes one table.
    manifest::a_root_means_one_table();
    let manifest = read_manifest(alloc, vault)?;
    Ok(manifest)
}

/// Makes the root that the disk reads durable, and reads what it describes. Nothing that is read changes.
fn read_manifest<D: Disk>(alloc: Global, vault: &mut Vault<D>) -> R<Manifest>
    ensures unchanged { (D.state vault.old.disk).honest → LeavesAll (D.state vault.old.disk) (D.state vault.new.disk) }
    ensures stands { (D.state vault.old.disk).honest
        → IfOk result (λ m. (bytes : List ℕ) × (content (D.state vault.old.disk).seen root_path ≡ Some bytes) × RootMeans bytes (root_of m)) }
    ensures durable { (D.state vault.old.disk).honest → IsRooted (D.state vault.old.disk) → OnOk result (IsSettled (D.state vault.new.disk)) }
    ensures told { OnOk result ((D.state vault.new.disk).failures ≡ (D.state vault.old.disk).failures) }
    ensures which { (D.state vault.old.disk).honest → IfErr result (λ e. IsNotOpened (content (D.state vault.old.disk).seen root_path) e) }
    ensures cause { IfErr result (λ e. e ≡ Refusal.Device → (D.state vault.old.disk).honest → HasFailed (D.state vault.old.disk) (D.state vault.new.disk)) }
    ensures reads { (D.state vault.new.disk).reads ≤ (D.state vault.old.disk).reads + 1 }
    ensures counts { (D.state vault.old.disk).failures ≤ (D.state vault.new.disk).failures }
    ensures honest { (D.state vault.old.disk).honest ↔ (D.state vault.new.disk).honest }
{
    match read_root(alloc, vault)? {
        Some(bytes) => Manifest::from_bytes(alloc, bytes.as_slice()),
        None => Err(Refusal::NoTable),
    }
}

/// Makes the root that the disk reads durable, and reads it; None where there is none. Nothing that is read changes.
fn read_root<D: Disk>(alloc: Global, vault: &mut Vault<D>) -> R<Option<Vec<u8>>>
    ensures unchanged { (D.state vault.old.disk).honest → LeavesAll (D.state vault.old.disk) (D.state vault.new.disk) }
    ensures stands { (D.state vault.old.disk).honest → IfOk result (ReadsRoot (D.state vault.old.disk)) }
    ensures durable { (D.state vault.old.disk).honest → IsRooted (D.state vault.old.disk) → OnOk result (IsSettled (D.state vault.new.disk)) }
    ensures told { OnOk result ((D.state vault.new.disk).failures ≡ (D.state vault.old.disk).failures) }
    ensures which { RefusedOnly (IsHonestDevice (D.state vault.old.disk) (D.state vault.new.disk)) result }
    ensures reads { (D.state vault.new.disk).reads ≤ (D.state vault.old.disk).reads + 1 }
    ensures counts { (D.state vault.old.disk).failures ≤ (D.state vault.new.disk).failures }
    ensures honest { (D.state vault.old.disk).honest ↔ (D.state vault.new.disk).honest }
{
    vault.settle()?;
    let root = vault.root(alloc)?;
    Ok(root)
}
