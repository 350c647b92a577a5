//! Tables of calls of a disk.

use crate::host_folders::{has_names, has_range};
use disk::Fault::Failed;
use disk::{Disk, Fault};
use std::alloc::Global;
use std::test::Fail;

/// A call: its name, its path, what else it is given, and the fault that it must return, if any. Or what must be so: `holds` and
/// `begins` say which text a file is, or begins with; `names` which names a folder has; `leads-out` that each call at the path
/// fails.
pub(crate) type Row = (&'static str, &'static str, &'static str, Option<Fault>);

/// Makes a call of any disk, known by its trait alone. One that reads is made for its fault.
fn call<D: Disk>(
    disk: &mut D,
    alloc: Global,
    name: &str,
    path: &str,
    other: &str,
) -> Option<Fault> {
    let done = match name {
        "create" => disk.create(path),
        "folder" => disk.make_folder(path),
        "append" => disk.append(path, other.as_bytes()),
        "sync" => disk.sync(path),
        "sync-folder" => disk.sync_folder(path),
        "rename" => disk.rename(path, other),
        "remove" => disk.remove(path),
        "length" => disk.length(path).map(drop),
        "list" => disk.list(alloc, path).map(drop),
        _ => disk.read_range(alloc, path, 0, 9).map(drop),
    };
    done.err()
}

/// Whether each call at a path fails.
fn leads_out<D: Disk>(disk: &mut D, alloc: Global, path: &str) -> bool {
    for name in ["create", "folder", "append", "read", "sync-folder"] {
        if call(disk, alloc, name, path, "x") != Some(Failed) {
            return false;
        }
    }
    call(disk, alloc, "rename", "k=a", path) == Some(Failed)
}

/// Whether a file holds exactly this text, of at most 99 bytes.
fn holds<D: Disk>(disk: &mut D, alloc: Global, path: &str, text: &str) -> bool {
    disk.length(path) == Ok(text.len() as u64) && has_range(disk, alloc, path, (0, 99, text))
}

/// Whether all is as a row says.
fn is_met<D: Disk>(disk: &mut D, alloc: Global, row: &Row) -> bool {
    let (name, path, other, wanted) = row;
    match *name {
        "holds" => holds(disk, alloc, path, other),
        "begins" => has_range(disk, alloc, path, (0, other.len(), other)),
        "names" => has_names(disk, alloc, path, other),
        "leads-out" => leads_out(disk, alloc, path),
        _ => call(disk, alloc, name, path, other) == *wanted,
    }
}

/// Goes through the rows in order; all must be as each says.
pub(crate) fn check_calls<D: Disk>(alloc: Global, disk: &mut D, rows: &[Row]) -> Result<(), Fail> {
    for row in rows {
        if !is_met(disk, alloc, row) {
            let (name, path, other, _) = row;
            return Err(Fail::from((*name, *path, *other)));
        }
    }
    Ok(())
}
