//! What a real folder's disk keeps of a call that was not done, and a file that takes a name while it is read.

use crate::host_folders::{check_folder, host_disk, own_folder};
use crate::rows::{Row, check_calls};
use crate::swapping_files::Swapping;
use disk::Fault::{Absent, Exists, Failed};
use disk::{Failure, Fault, HostDisk, path_in};
use std::fs;
use std::io::ErrorKind;
use std::test::*;

/// A root, and a next one that is longer.
const GROWING: &[Row] = &[
    ("create", "_metadata", "", None),
    ("append", "_metadata", "old", None),
    ("create", "_metadata.new", "", None),
    ("append", "_metadata.new", "the new root", None),
];

/// A next root that is shorter than the root before it.
const SHRINKING: &[Row] = &[
    ("create", "_metadata.new", "", None),
    ("append", "_metadata.new", "last", None),
];

/// Reads the root while another takes its name.
fn check_swap(rt: &HostRuntime, folder: &str, rows: &[Row], wanted: &[Row]) -> Result<(), Fail> {
    check_folder(rt, folder, rows, 0)?;
    let files = Swapping {
        rt: rt.clone()?,
        name: path_in(rt.alloc(), folder, "_metadata")?,
        next: path_in(rt.alloc(), folder, "_metadata.new")?,
    };
    let mut disk = HostDisk::new(rt.alloc(), files, folder)?;
    check_calls(rt.alloc(), &mut disk, wanted)
}

#[test]
fn a_file_that_takes_the_name_while_it_is_read_is_read_whole(rt: HostRuntime) -> Result<(), Fail> {
    let folder = own_folder(&rt, "swap")?;
    let folder = folder.as_str();
    check_swap(
        &rt,
        folder,
        GROWING,
        &[("begins", "_metadata", "the new root", None)],
    )?;
    check_swap(&rt, folder, SHRINKING, &[("read", "_metadata", "", None)])?;
    check_folder(&rt, folder, &[("holds", "_metadata", "last", None)], 0)?;
    Ok(fs::remove_dir_all(&rt, folder)?)
}

/// Calls that find nothing, or fail, or are refused otherwise, on a folder without a file.
const CALLS: &[Row] = &[
    ("folder", "k=a", "", None),
    ("read", "k=a/part.0.parquet", "", Some(Absent)),
    ("create", "../escaped", "", Some(Failed)),
    ("remove", "k=b/part.1.parquet", "", Some(Absent)),
    ("append", "k=a/nul\0", "x", Some(Failed)),
    ("create", "k=a", "", Some(Exists)),
    ("sync-folder", "", "", None),
];

/// Whether what was kept is of this path and this fault, with an error of this kind.
fn is_kept(kept: Option<&Failure>, path: &str, fault: Fault, kind: ErrorKind) -> bool {
    match kept {
        Some(failure) => {
            failure
                .path
                .as_ref()
                .is_some_and(|kept| kept.as_str() == path)
                && failure.fault == fault
                && failure.error.kind() == kind
        }
        None => false,
    }
}

#[test]
fn the_last_failure_and_the_last_absence_are_kept(rt: HostRuntime) -> Result<(), Fail> {
    let folder = own_folder(&rt, "last")?;
    let mut disk = host_disk(&rt, folder.as_str())?;
    assert!(rt; disk.last_failure().is_none() && disk.last_absence().is_none());
    check_calls(rt.alloc(), &mut disk, CALLS)?;
    assert!(rt;
        is_kept(
            disk.last_failure(),
            "k=a/nul\0",
            Failed,
            ErrorKind::InvalidInput
        )
    );
    assert!(rt;
        is_kept(
            disk.last_absence(),
            "k=b/part.1.parquet",
            Absent,
            ErrorKind::NotFound
        )
    );
    Ok(fs::remove_dir_all(&rt, folder.as_str())?)
}
