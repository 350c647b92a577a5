//! A disk on a file system that is full, and whose syncs fail.

use crate::faulty_files::Faulty;
use crate::host_folders::{check_folder, own_folder};
use crate::rows::{Row, check_calls};
use disk::Fault::Failed;
use disk::{Disk, HostDisk};
use std::fs;
use std::test::*;

/// A file for which there is room, up to a last append of which a part has. Then a read of more than comes, and syncs.
const CALLS: &[Row] = &[
    ("create", "part", "", None),
    ("append", "part", "hello,", None),
    ("append", "part", " world", None),
    ("append", "part", " and more", Some(Failed)),
    ("begins", "part", "hello,", None),
    ("read", "part", "", Some(Failed)),
    ("sync", "part", "", Some(Failed)),
    ("sync-folder", "", "", Some(Failed)),
];

/// The bytes for which there was room are in the file.
const FILLED: &[Row] = &[("holds", "part", "hello, world and m", None)];

#[test]
fn a_full_disk_and_a_failed_sync_are_counted_once_each(rt: HostRuntime) -> Result<(), Fail> {
    let folder = own_folder(&rt, "full")?;
    let files = Faulty {
        rt: rt.clone()?,
        room: 6,
        syncs: false,
    };
    let mut disk = HostDisk::new(rt.alloc(), files, folder.as_str())?;
    check_calls(rt.alloc(), &mut disk, CALLS)?;
    assert!(rt; disk.failures() == 4 && disk.reads() == 2);
    check_folder(&rt, folder.as_str(), FILLED, 0)?;
    Ok(fs::remove_dir_all(&rt, folder.as_str())?)
}
