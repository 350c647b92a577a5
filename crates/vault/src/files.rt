//! The steps of writing one file so that no crash tears it.

ghost use Rattle.std.specs.Prelude.{◌≡◌, ◌≢◌, ◌⊎◌, ◌↔◌, IfErr};
ghost use Rattle.disk.specs.Calls.{CountsFailure, Synced};
ghost use Rattle.vault.specs.Views.{root_path};
ghost use Rattle.vault.specs.Ways.{IsOpenWay};
ghost use Rattle.vault.specs.inner.Files.{Cleared, FoldersMade, Written, MadeFirm, Placed, IsHoused, IsVacant};

use disk::{Disk, Fault, folder_of};

/// Takes a name away; where it is not there, that is no fault.
pub(crate) fn clear<D: Disk>(disk: &mut D, path: &str) -> Result<(), Fault>
    requires { path.now ≢ root_path }
    ensures effect { (D.state disk.old).honest → Cleared path.now (D.state disk.old) (D.state disk.new) result }
    ensures counts { CountsFailure result (D.state disk.old).failures (D.state disk.new).failures }
    ensures reads { (D.state disk.new).reads ≡ (D.state disk.old).reads }
    ensures honest { (D.state disk.old).honest ↔ (D.state disk.new).honest }
{
    match disk.remove(path) {
        Ok(()) => Ok(()),
        Err(fault) => match fault {
            Fault::Absent => Ok(()),
            _ => Err(fault),
        },
    }
}

/// Makes the folders on the way to a path, the outermost first.
pub(crate) fn make_folders<D: Disk>(disk: &mut D, path: &str) -> Result<(), Fault>
    ensures effect { (D.state disk.old).honest → IsOpenWay (D.state disk.old) path.now → FoldersMade path.now (D.state disk.old) (D.state disk.new) result }
    ensures counts { CountsFailure result (D.state disk.old).failures (D.state disk.new).failures }
    ensures reads { (D.state disk.new).reads ≡ (D.state disk.old).reads }
    ensures honest { (D.state disk.old).honest ↔ (D.state disk.new).honest }
{
    let folder = folder_of(path);
    if folder.is_empty() {
        return Ok(());
    }
    make_folders(disk, folder)?;
    disk.make_folder(folder)
}

/// Writes a file of its own node where no name is, and syncs it once.
pub(crate) fn write_new<D: Disk>(disk: &mut D, path: &str, bytes: &[u8]) -> Result<(), Fault>
    requires { path.now ≢ root_path }
    ensures effect { (D.state disk.old).honest → IsVacant (D.state disk.old) path.now
        → Written path.now bytes.now (D.state disk.old) (D.state disk.new) result }
    ensures counts { CountsFailure result (D.state disk.old).failures (D.state disk.new).failures }
    ensures reads { (D.state disk.new).reads ≡ (D.state disk.old).reads }
    ensures honest { (D.state disk.old).honest ↔ (D.state disk.new).honest }
{
    disk.create(path)?;
    disk.append(path, bytes)?;
    sync_once(disk, path)
}

/// Syncs the folder of a path and the folders above, up to the dataset's own.
pub(crate) fn make_firm<D: Disk>(disk: &mut D, path: &str) -> Result<(), Fault>
    ensures effect { (D.state disk.old).honest → IsHoused (D.state disk.old) path.now → MadeFirm path.now (D.state disk.old) (D.state disk.new) result }
    ensures which { IfErr result (λ e. (e ≡ Fault.Absent) ⊎ (e ≡ Fault.Failed)) }
    ensures counts { CountsFailure result (D.state disk.old).failures (D.state disk.new).failures }
    ensures reads { (D.state disk.new).reads ≡ (D.state disk.old).reads }
    ensures honest { (D.state disk.old).honest ↔ (D.state disk.new).honest }
{
    let folder = folder_of(path);
    disk.sync_folder(folder)?;
    if folder.is_empty() {
        return Ok(());
    }
    make_firm(disk, folder)
}

/// Writes a file in the place of what its name stood for, with the folders on the way, and makes all of them durable.
pub(crate) fn place<D: Disk>(disk: &mut D, path: &str, bytes: &[u8]) -> Result<(), Fault>
    requires { path.now ≢ root_path }
    ensures effect { (D.state disk.old).honest → IsOpenWay (D.state disk.old) path.now
        → Placed path.now bytes.now (D.state disk.old) (D.state disk.new) result }
    ensures counts { CountsFailure result (D.state disk.old).failures (D.state disk.new).failures }
    ensures reads { (D.state disk.new).reads ≡ (D.state disk.old).reads }
    ensures honest { (D.state disk.old).honest ↔ (D.state disk.new).honest }
{
    clear(disk, path)?;
    make_folders(disk, path)?;
    write_new(disk, path, bytes)?;
    make_firm(disk, path)
}

/// Syncs a file, once: of one that could not be synced a second sync promises nothing.
fn sync_once<D: Disk>(disk: &mut D, path: &str) -> Result<(), Fault>
    ensures effect { (D.state disk.old).honest → Synced path.now (D.state disk.old) (D.state disk.new) result }
    ensures which { IfErr result (λ e. e ≢ Fault.Exists) }
    ensures counts { CountsFailure result (D.state disk.old).failures (D.state disk.new).failures }
    ensures reads { (D.state disk.new).reads ≡ (D.state disk.old).reads }
    ensures honest { (D.state disk.old).honest ↔ (D.state disk.new).honest }
{
    disk.sync(path)
}
