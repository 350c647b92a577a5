//! The part files of a table that its root does not name.

ghost use Rattle.std.specs.Prelude.{IfOk};
ghost use Rattle.manifest.specs.Groups.{root_of};
ghost use Rattle.upkeep.specs.Intact.{AreLeftovers};
ghost use Rattle.upkeep.specs.Reading.{Looks};
ghost use Rattle.upkeep.specs.inner.Walk.{paths_of};

use crate::walk::strays;
use bits::{R, Refusal};
use disk::{Disk, Fault};
use folders::NamedParts;
use manifest::Manifest;
use std::alloc::Global;
use vault::Vault;

/// The paths of the part files in the table's key folders that its root does not name, in any order: what a
/// commit replaced and a reader may still need, and what a crash or a failure left. The next command that changes the table
/// removes them once no reader needs them. Other files are not looked at. Each folder that leads to a key is listed
/// once.
///
/// Refused Device where the disk failed, or where a folder is gone that was there; Key for a group whose key cannot
/// partition, which no root says; and Memory.
pub fn leftovers<D: Disk>(
    alloc: Global,
    vault: &mut Vault<D>,
    manifest: &Manifest,
) -> R<Vec<String>>
    ensures stands { (D.state vault.old.disk).honest → IfOk result (λ paths. AreLeftovers (D.state vault.old.disk).seen (root_of manifest.now) (paths_of paths)) }
    ensures effect { Looks 0 (D.state vault.old.disk) (D.state vault.new.disk) }
{
    let named = NamedParts::of(alloc, manifest)?;
    strays(alloc, vault, manifest.keys(), &named)
}

/// How many bytes the files at these paths have in all; a file that is gone has none. Refused Device where the disk failed,
/// and Memory.
pub(crate) fn bytes_at<D: Disk>(vault: &mut Vault<D>, paths: &[String]) -> R<u64>
    ensures effect { Looks 0 (D.state vault.old.disk) (D.state vault.new.disk) }
{
    let mut bytes: u64 = 0;
    for path in paths {
        let length = length_at(vault, path.as_str())?;
        bytes = bytes.saturating_add(length);
    }
    Ok(bytes)
}

/// How many bytes a file has; one that is gone has none.
fn length_at<D: Disk>(vault: &mut Vault<D>, path: &str) -> R<u64>
    ensures effect { Looks 0 (D.state vault.old.disk) (D.state vault.new.disk) }
{
    let measured = vault.disk.length(path);
    length_in(measured)
}

/// The length that was measured; 0 where no file is there.
fn length_in(measured: Result<u64, Fault>) -> R<u64> {
    match measured {
        Ok(length) => Ok(length),
        Err(Fault::Absent) => Ok(0),
        Err(Fault::Memory) => Err(Refusal::Memory),
        Err(Fault::Failed | Fault::Exists) => Err(Refusal::Device),
    }
}
