//! Each call on a real folder, and the calls that it refuses.

use crate::host_folders::{check_folder, check_own_folder, has_range, host_disk, own_folder};
use crate::rows::{Row, check_calls};
use disk::Fault::{Absent, Exists, Failed};
use disk::{Disk, HostDisk, path_in};
use std::fs;
use std::os::unix::fs::{MetadataExt, PermissionsExt};
use std::test::*;

/// Names that come and go.
const NAMES: &[Row] = &[
    ("create", "k=a/part", "", Some(Absent)),
    ("folder", "k=a/l=b", "", Some(Absent)),
    ("folder", "k=a", "", None),
    ("folder", "k=a", "", None),
    ("folder", "k=a/l=b", "", None),
    ("folder", "", "", None),
    ("create", "k=a/l=b/part", "", None),
    ("create", "k=a/l=b/part", "", Some(Exists)),
    ("folder", "k=a/l=b/part", "", Some(Exists)),
    ("remove", "k=a/l=b/part", "", None),
    ("remove", "k=a/l=b/part", "", Some(Absent)),
];

#[test]
fn names_come_and_go_on_a_real_folder(rt: HostRuntime) -> Result<(), Fail> {
    check_own_folder(&rt, "names", NAMES, 0)
}

/// Calls that cannot be done at all, on a folder with the file `a` and the folder `k=1`.
const REFUSED: &[Row] = &[
    ("create", "a", "", None),
    ("append", "a", "hello", None),
    ("folder", "k=1", "", None),
    ("rename", "", "", Some(Exists)),
    ("rename", "", "b", Some(Exists)),
    ("rename", "a", "", Some(Exists)),
    ("rename", "a", "a", Some(Exists)),
    ("rename", "a", "k=1", Some(Exists)),
    ("rename", "a", "k=1/a", Some(Exists)),
    ("rename", "a", "k=2/a", Some(Exists)),
    ("rename", "k=1", "b", Some(Exists)),
    ("rename", "k=1", "k=1", Some(Exists)),
    ("rename", "b", "c", Some(Absent)),
    ("rename", "b", "b", Some(Absent)),
    ("rename", "b", "a", Some(Absent)),
    ("rename", "k=1/b", "b", Some(Absent)),
    ("rename", "k=2/b", "b", Some(Absent)),
    ("remove", "", "", Some(Exists)),
    ("remove", "k=1", "", Some(Exists)),
    ("remove", "b", "", Some(Absent)),
    ("remove", "k=1/b", "", Some(Absent)),
    ("remove", "k=2/b", "", Some(Absent)),
    ("create", "", "", Some(Exists)),
    ("create", "a", "", Some(Exists)),
    ("create", "k=1", "", Some(Exists)),
    ("create", "k=2/b", "", Some(Absent)),
    ("folder", "a", "", Some(Exists)),
    ("folder", "k=2/l=3", "", Some(Absent)),
    ("append", "b", "x", Some(Absent)),
    ("append", "k=1", "x", Some(Absent)),
    ("sync", "", "", Some(Absent)),
    ("sync", "b", "", Some(Absent)),
    ("sync", "k=1", "", Some(Absent)),
    ("sync-folder", "a", "", Some(Absent)),
    ("sync-folder", "k=2", "", Some(Absent)),
    ("length", "k=1", "", Some(Absent)),
    ("holds", "a", "hello", None),
    ("names", "", "a k=1/", None),
    ("names", "k=1", "", None),
];

#[test]
fn a_real_folder_refuses_what_cannot_be_done_and_changes_nothing(
    rt: HostRuntime,
) -> Result<(), Fail> {
    check_own_folder(&rt, "refused", REFUSED, 0)
}

/// A root, and the next one that takes its place.
const ROOTS: &[Row] = &[
    ("folder", "k=a", "", None),
    ("create", "_metadata", "", None),
    ("append", "_metadata", "old", None),
    ("create", "_metadata.new", "", None),
    ("append", "_metadata.new", "new", None),
    ("names", "", "k=a/ _metadata _metadata.new", None),
    ("rename", "_metadata.new", "_metadata", None),
    ("rename", "_metadata.new", "_metadata", Some(Absent)),
    ("list", "k=c", "", Some(Absent)),
    ("holds", "_metadata", "new", None),
    ("names", "", "k=a/ _metadata", None),
    ("names", "k=a", "", None),
];

#[test]
fn a_rename_takes_the_place_of_its_target_and_a_listing_has_each_name(
    rt: HostRuntime,
) -> Result<(), Fail> {
    check_own_folder(&rt, "root", ROOTS, 0)
}

/// Paths that mean nothing in a dataset's folder, or lead out of it.
const OUTSIDE: &[Row] = &[
    ("folder", "k=a", "", None),
    ("leads-out", "..", "", None),
    ("leads-out", ".", "", None),
    ("leads-out", "../escaped", "", None),
    ("leads-out", "k=a/../escaped", "", None),
    ("leads-out", "k=a/./escaped", "", None),
    ("leads-out", "k=a//escaped", "", None),
    ("leads-out", "/escaped", "", None),
    ("leads-out", "k=a/", "", None),
    ("leads-out", "nul\0", "", None),
    ("names", "", "k=a/", None),
    ("names", "k=a", "", None),
];

#[test]
fn no_path_leaves_its_folder(rt: HostRuntime) -> Result<(), Fail> {
    check_own_folder(&rt, "paths", OUTSIDE, 6 * 9)
}

/// Bytes that are appended and synced.
const BYTES: &[Row] = &[
    ("create", "part", "", None),
    ("append", "part", "hello, ", None),
    ("append", "part", "world", None),
    ("append", "other", "x", Some(Absent)),
    ("sync", "part", "", None),
    ("sync", "other", "", Some(Absent)),
    ("sync-folder", "", "", None),
    ("sync-folder", "k=c", "", Some(Absent)),
    ("length", "other", "", Some(Absent)),
];

/// Where a range begins, how many bytes it has at most, and what it holds of "hello, world".
const RANGES: &[(u64, usize, &str)] = &[
    (0, 5, "hello"),
    (7, usize::MAX, "world"),
    (3, 0, ""),
    (12, 1, ""),
    (u64::MAX, 9, ""),
];

/// Whether the file `part` has the ranges, and each read counts.
fn are_ranges(rt: &HostRuntime, disk: &mut HostDisk<HostRuntime>) -> bool {
    let alloc = rt.alloc();
    disk.reads() == 0
        && disk.length("part") == Ok(12)
        && RANGES
            .iter()
            .all(|range| has_range(disk, alloc, "part", *range))
        && disk.read_range(alloc, "other", 0, 1).err() == Some(Absent)
        && disk.reads() == 6
        && disk.failures() == 0
}

#[test]
fn bytes_are_appended_and_synced_and_a_range_is_as_much_as_is_there(
    rt: HostRuntime,
) -> Result<(), Fail> {
    let folder = own_folder(&rt, "bytes")?;
    let mut disk = host_disk(&rt, folder.as_str())?;
    check_calls(rt.alloc(), &mut disk, BYTES)?;
    assert!(rt; are_ranges(&rt, &mut disk));
    Ok(fs::remove_dir_all(&rt, folder.as_str())?)
}

/// A file in a folder.
const PART: &[Row] = &[
    ("folder", "k=a", "", None),
    ("create", "k=a/part", "", None),
];

/// Calls that a folder refuses that may not be written, and that may not be looked into.
const UNWRITTEN: &[Row] = &[
    ("create", "k=a/other", "", Some(Failed)),
    ("remove", "k=a/part", "", Some(Failed)),
    ("rename", "k=a/part", "k=a/other", Some(Failed)),
];

const UNSEEN: &[Row] = &[
    ("length", "k=a/part", "", Some(Failed)),
    ("list", "k=a", "", Some(Failed)),
];

/// The file that was refused goes.
const GONE: &[Row] = &[("remove", "k=a/part", "", None)];

/// Goes through the rows where the folder `k=a` has these permissions.
fn check_closed(
    rt: &HostRuntime,
    folder: &str,
    mode: u32,
    rows: &[Row],
    failures: u64,
) -> Result<(), Fail> {
    let closed = path_in(rt.alloc(), folder, "k=a")?;
    fs::set_permissions(rt, closed.as_str(), fs::Permissions::from_mode(mode))?;
    check_folder(rt, folder, rows, failures)
}

#[test]
fn a_folder_without_permission_is_a_counted_failure(rt: HostRuntime) -> Result<(), Fail> {
    let folder = own_folder(&rt, "closed")?;
    let folder = folder.as_str();
    check_folder(&rt, folder, PART, 0)?;
    // The system refuses the superuser nothing.
    if fs::metadata(&rt, folder)?.uid() != 0 {
        check_closed(&rt, folder, 0o500, UNWRITTEN, 3)?;
        check_closed(&rt, folder, 0o000, UNSEEN, 2)?;
    }
    check_closed(&rt, folder, 0o700, GONE, 0)?;
    Ok(fs::remove_dir_all(&rt, folder)?)
}
