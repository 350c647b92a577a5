//! Folders of the host, below the one for what is temporary.

use crate::rows::{Row, check_calls};
use disk::{Disk, Entry, HostDisk, Kind};
use std::alloc::Global;
use std::test::Fail;
use std::time::SystemTime;
use std::{env, fs};

/// A fresh folder of the test's own.
pub(crate) fn own_folder(rt: &HostRuntime, test: &str) -> Result<String, Fail> {
    let alloc = rt.alloc();
    let since = SystemTime::now(rt)?.duration_since(SystemTime::UNIX_EPOCH)?;
    let (seconds, more) = (since.as_secs(), since.subsec_nanos());
    let name = format!(in alloc; "pqds_disk_{test}_{seconds}_{more}")?;
    let folder = env::temp_dir(rt)?.join(alloc, name.as_str())?;
    fs::create_dir(rt, folder.as_str())?;
    Ok(String::from_str(alloc, folder.as_str())?)
}

/// The disk of a folder.
pub(crate) fn host_disk(rt: &HostRuntime, folder: &str) -> Result<HostDisk<HostRuntime>, Fail> {
    Ok(HostDisk::new(rt.alloc(), rt.clone()?, folder)?)
}

/// Goes through the rows on the disk of a folder, where so many of their calls fail.
pub(crate) fn check_folder(
    rt: &HostRuntime,
    folder: &str,
    rows: &[Row],
    failures: u64,
) -> Result<(), Fail> {
    let mut disk = host_disk(rt, folder)?;
    check_calls(rt.alloc(), &mut disk, rows)?;
    if disk.failures() != failures {
        return Err(Fail::from(disk.failures()));
    }
    Ok(())
}

/// Goes through the rows on the disk of a fresh folder of the test's own, where so many of their calls fail.
pub(crate) fn check_own_folder(
    rt: &HostRuntime,
    test: &str,
    rows: &[Row],
    failures: u64,
) -> Result<(), Fail> {
    let folder = own_folder(rt, test)?;
    check_folder(rt, folder.as_str(), rows, failures)?;
    Ok(fs::remove_dir_all(rt, folder.as_str())?)
}

/// Whether an entry is the one of a name; that of a folder ends with `/`.
fn is_named(entry: &Entry, name: &str) -> bool {
    let (name, found) = (name.as_bytes(), entry.name.as_bytes());
    match name.split_last() {
        Some((b'/', folder)) => entry.kind == Kind::Folder && found == folder,
        _ => entry.kind == Kind::File && found == name,
    }
}

/// Whether a folder has exactly these names, parted by spaces, in any order.
pub(crate) fn has_names<D: Disk>(disk: &mut D, alloc: Global, folder: &str, names: &str) -> bool {
    let Ok(entries) = disk.list(alloc, folder) else {
        return false
    };
    let entries = entries.as_slice();
    entries.len() == names.split_whitespace().count()
        && names
            .split_whitespace()
            .all(|name| entries.iter().any(|entry| is_named(entry, name)))
}

/// Whether a range of a file is this text.
pub(crate) fn has_range<D: Disk>(
    disk: &mut D,
    alloc: Global,
    path: &str,
    (from, len, text): (u64, usize, &str),
) -> bool {
    match disk.read_range(alloc, path, from, len) {
        Ok(range) => range.as_slice() == text.as_bytes(),
        Err(_) => false,
    }
}
