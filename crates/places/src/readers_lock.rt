//! The lock that readers share: on the file `_lock` of a dataset's folder, so that none of their files is removed.
//!
//! Nothing is in the file. A reader shares the lock from before it reads the root until its end. A command that has the
//! folder's lock takes this one too while it removes files, and never waits long for it. No lock is changed into another
//! one, since a change that fails leaves none.

ghost use Rattle.std.specs.Prelude.{◌≡◌, false};
ghost use Rattle.bits.specs.Refusals.{RefusedOnly, RefusedMemoryOnly};

use crate::folder_lock::is_same;
use crate::lock::{Access, Lock, Patience, take, try_for};
use crate::reason::Reason;
use bits::{R, Refusal};
use std::alloc::Global;
use std::fs::{self, File, OpenFile, OpenOptions, Permissions};
use std::io::{ErrorKind, Write};
use std::os::unix::fs::{MetadataExt, OpenOptionsExt, PermissionsExt};
use std::rt::{Clock, Files};

/// The readers of a dataset, as a command sees them that has the lock of its folder.
#[derive(Drop)]
pub enum Readers<L: Drop> {
    /// None reads: there is no file for their lock, so that they would share the folder's.
    NoFile,
    /// None reads while this lock is held.
    Out(L),
    /// Some may read.
    MayBe,
}

/// What stands in the place of the file that readers lock.
#[derive(Drop)]
enum Found<L: Drop> {
    /// No file, but maybe a folder or a link.
    NoFile,
    File(L),
    /// It cannot be opened, or not be looked at.
    Shut,
}

/// The path of the file that readers lock.
fn lock_path(alloc: Global, folder: &str) -> R<String>
    ensures memory { RefusedMemoryOnly result }
{
    let path = format!(in alloc; "{folder}/_lock")?;
    Ok(path)
}

/// What stands in the place of the file, opened if it is one. A pipe of its name would be waited for, so it is looked at
/// first.
fn found_at<F: Files>(rt: &F, path: &str) -> Found<F::File> {
    match fs::symlink_metadata(rt, path) {
        Ok(metadata) if metadata.is_file() => match File::open(rt, path) {
            Ok(opened) => Found::File(opened),
            Err(_) => Found::Shut,
        },
        Ok(_) => Found::NoFile,
        Err(error) if error.kind() == ErrorKind::NotFound => Found::NoFile,
        Err(_) => Found::Shut,
    }
}

/// Whether what is open is the file that stands at a path.
fn is_at<F: Files>(rt: &F, opened: &F::File, path: &str) -> bool {
    is_same(opened.metadata(), fs::symlink_metadata(rt, path))
}

/// Shares the readers' lock of a folder, after a wait where another command removes files. None where there is no such
/// file or it cannot be opened or locked, and where another file has come in its place by then: then the folder's lock is
/// to be shared.
///
/// Refused Device where the patience is at its end, which `why` says, and Memory.
pub fn shared<F: Files + Clock, E: Write>(
    rt: &F,
    alloc: Global,
    folder: &str,
    patience: Patience,
    err: &mut E,
    why: &mut Option<Reason>,
) -> R<Option<F::File>>
where
    F::File: Lock,
    ensures which { RefusedOnly (λ e. e ≡ Refusal.Device) result }
    ensures quiet { patience.shows ≡ false → E.contents err.new ≡ E.contents err.old }
{
    let path = lock_path(alloc, folder)?;
    let Found::File(opened) = found_at(rt, path.as_str()) else {
        return Ok(None);
    };
    match take(rt, &opened, folder, Access::Reads, patience, err) {
        Ok(true) => Ok(is_at(rt, &opened, path.as_str()).then_some(opened)),
        Ok(false) => {
            *why = Some(Reason::InUse);
            Err(Refusal::Device)
        }
        Err(_) => Ok(None),
    }
}

/// Keeps readers out, where none reads or they are at their end within so many seconds. Of a command that has the folder's
/// lock.
pub fn kept_out<F: Files + Clock>(
    rt: &F,
    alloc: Global,
    folder: &str,
    seconds: u64,
) -> Readers<F::File>
where
    F::File: Lock,
{
    let Ok(path) = lock_path(alloc, folder) else {
        return Readers::MayBe;
    };
    match found_at(rt, path.as_str()) {
        Found::NoFile => Readers::NoFile,
        Found::Shut => Readers::MayBe,
        Found::File(opened) => match try_for(rt, &opened, Access::Writes, seconds) {
            Ok(true) if is_at(rt, &opened, path.as_str()) => Readers::Out(opened),
            _ => Readers::MayBe,
        },
    }
}

/// Keeps readers out, and waits for those that read. Of a command that has the folder's lock.
///
/// Refused Device where the patience is at its end, or the file cannot be opened or locked, or is exchanged meanwhile;
/// `why` says which; and Memory.
pub fn waited_out<F: Files + Clock, E: Write>(
    rt: &F,
    alloc: Global,
    folder: &str,
    patience: Patience,
    err: &mut E,
    why: &mut Option<Reason>,
) -> R<Readers<F::File>>
where
    F::File: Lock,
    ensures which { RefusedOnly (λ e. e ≡ Refusal.Device) result }
    ensures quiet { patience.shows ≡ false → E.contents err.new ≡ E.contents err.old }
{
    let path = lock_path(alloc, folder)?;
    match found_at(rt, path.as_str()) {
        Found::NoFile => Ok(Readers::NoFile),
        Found::File(opened) => { wait_out(rt, opened, path.as_str(), folder, patience, err, why) }
        Found::Shut => {
            *why = Some(Reason::ShutLock);
            Err(Refusal::Device)
        }
    }
}

/// Locks the file at a path, which is open, alone, and waits for the readers. Refused as [`waited_out`].
fn wait_out<F: Files + Clock, E: Write>(
    rt: &F,
    opened: F::File,
    path: &str,
    folder: &str,
    patience: Patience,
    err: &mut E,
    why: &mut Option<Reason>,
) -> R<Readers<F::File>>
where
    F::File: Lock,
    ensures which { RefusedOnly (λ e. e ≡ Refusal.Device) result }
    ensures quiet { patience.shows ≡ false → E.contents err.new ≡ E.contents err.old }
{
    match take(rt, &opened, folder, Access::Writes, patience, err) {
        Ok(is_locked) => {
            if is_locked && is_at(rt, &opened, path) {
                return Ok(Readers::Out(opened));
            }
            *why = Some(Reason::InUse);
            Err(Refusal::Device)
        }
        Err(_) => {
            *why = Some(Reason::NoLocks);
            Err(Refusal::Device)
        }
    }
}

/// Makes the file that readers lock, unless something has its name. Who can read the folder can read it, whatever the
/// process leaves out of the mode of new files. Where that cannot be done, readers share the folder's lock.
pub fn make_file<F: Files>(rt: &F, alloc: Global, folder: &str) {
    let (Ok(path), Ok(metadata)) = (lock_path(alloc, folder), fs::metadata(rt, folder)) else {
        return;
    };
    let mode = metadata.mode() & 0o666;
    let made = OpenOptions::new()
        .read(true)
        .write(true)
        .create_new(true)
        .mode(mode)
        .open(rt, path.as_str());
    if let Ok(file) = made {
        let _ = file.set_permissions(Permissions::from_mode(mode));
    }
}
