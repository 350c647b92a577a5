//! The description of a table, off its root.

ghost use Rattle.std.specs.Prelude.{◌≡◌, ◌↔◌, ◌≤◌, ◌+◌, ℕ, List, Some, IfOk, IfErr};
ghost use Rattle.disk.specs.State.{content};
ghost use Rattle.vault.specs.Views.{root_path};
ghost use Rattle.vault.specs.Calls.{HasFailed, LeavesAll};
ghost use Rattle.manifest.specs.Groups.{root_of};
ghost use Rattle.manifest.specs.Root.{RootMeans};
ghost use Rattle.upkeep.specs.Reading.{IsNotDescribed};

use bits::{R, Refusal};
use disk::Disk;
use manifest::Manifest;
use std::alloc::Global;
use vault::Vault;

/// What the root describes that the disk reads: its schema, its key columns, its groups. One `read_range`; nothing is
/// changed, nothing is made durable.
///
/// Refused NoTable where there is no root, as [`Manifest::from_bytes`] is for one that describes nothing, Device where the
/// disk failed, and Memory. Time and room are linear in the root's bytes.
pub fn described<D: Disk>(alloc: Global, vault: &mut Vault<D>) -> R<Manifest>
    ensures stands { (D.state vault.old.disk).honest
        → IfOk result (λ m. (bytes : List ℕ) × (content (D.state vault.old.disk).seen root_path ≡ Some bytes) × RootMeans bytes (root_of m)) }
    ensures which { (D.state vault.old.disk).honest → IfErr result (IsNotDescribed (content (D.state vault.old.disk).seen root_path)) }
    ensures cause { IfErr result (λ e. e ≡ Refusal.Device → HasFailed (D.state vault.old.disk) (D.state vault.new.disk)) }
    ensures unchanged { (D.state vault.old.disk).honest → LeavesAll (D.state vault.old.disk) (D.state vault.new.disk) }
    ensures reads { (D.state vault.new.disk).reads ≤ (D.state vault.old.disk).reads + 1 }
    ensures counts { (D.state vault.old.disk).failures ≤ (D.state vault.new.disk).failures }
    ensures honest { (D.state vault.old.disk).honest ↔ (D.state vault.new.disk).honest }
{
    match vault.root(alloc)? {
        Some(bytes) => Manifest::from_bytes(alloc, bytes.as_slice()),
        None => Err(Refusal::NoTable),
    }
}
