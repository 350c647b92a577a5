//! The lock on a dataset's folder: one command changes a dataset at a time.

ghost use Rattle.std.specs.Prelude.{◌≡◌, false};
ghost use Rattle.bits.specs.Refusals.{RefusedOnly};

use crate::folder::{is_folder, refusal_of};
use crate::lock::{Access, Lock, Patience, take};
use crate::reason::Reason;
use bits::{R, Refusal};
use std::fs::{self, File, Metadata, OpenFile};
use std::io::{self, Write};
use std::os::unix::fs::MetadataExt;
use std::rt::{Clock, Files};

/// Opens a folder and locks it; the lock is held until what is returned goes. Where another folder has come in its place by
/// then, that one is opened and locked.
///
/// Refused Device where it is no folder or cannot be opened; where it cannot be locked; and where another command has it and
/// the patience is at its end, or it is exchanged again and again. Of the last three `why` says which.
pub fn locked<F: Files + Clock, E: Write>(
    rt: &F,
    folder: &str,
    access: Access,
    patience: Patience,
    err: &mut E,
    why: &mut Option<Reason>,
) -> R<F::File>
where
    F::File: Lock,
    ensures which { RefusedOnly (λ e. e ≡ Refusal.Device) result }
    ensures quiet { patience.shows ≡ false → E.contents err.new ≡ E.contents err.old }
{
    if let Some(opened) = locked_once(rt, folder, access, patience, err, why)? {
        return Ok(opened);
    }
    if let Some(opened) = locked_once(rt, folder, access, patience, err, why)? {
        return Ok(opened);
    }
    *why = Some(Reason::InUse);
    Err(Refusal::Device)
}

/// Opens a folder and locks it as [`locked`] does, but once: None where another folder has come in its place by then.
fn locked_once<F: Files + Clock, E: Write>(
    rt: &F,
    folder: &str,
    access: Access,
    patience: Patience,
    err: &mut E,
    why: &mut Option<Reason>,
) -> R<Option<F::File>>
where
    F::File: Lock,
    ensures which { RefusedOnly (λ e. e ≡ Refusal.Device) result }
    ensures quiet { patience.shows ≡ false → E.contents err.new ≡ E.contents err.old }
{
    // A pipe of this name would be waited for.
    if !is_folder(rt, folder) {
        return Err(Refusal::Device);
    }
    let opened = File::open(rt, folder).map_err(refusal_of)?;
    match take(rt, &opened, folder, access, patience, err) {
        Ok(true) => Ok(is_at(rt, &opened, folder).then_some(opened)),
        Ok(false) => {
            *why = Some(Reason::InUse);
            Err(Refusal::Device)
        }
        Err(_) => {
            *why = Some(Reason::NoLocks);
            Err(Refusal::Device)
        }
    }
}

/// Whether what is open is what stands at a path.
fn is_at<F: Files>(rt: &F, opened: &F::File, path: &str) -> bool {
    is_same(opened.metadata(), fs::metadata(rt, path))
}

/// Whether these are of one file or folder; not where one of them is not known.
pub fn is_same(one: io::Result<Metadata>, other: io::Result<Metadata>) -> bool {
    match (one, other) {
        (Ok(one), Ok(other)) => one.dev() == other.dev() && one.ino() == other.ino(),
        _ => false,
    }
}
