//! Links and devices where a file or a folder belongs.

use crate::host_folders::{check_folder, own_folder};
use crate::rows::Row;
use disk::Fault::{Absent, Exists, Failed};
use disk::path_in;
use std::fs;
use std::os::unix::fs::symlink;
use std::test::*;

/// A folder inside, and a file outside of it.
const FILES: &[Row] = &[
    ("folder", "inside", "", None),
    ("create", "inside/plain", "", None),
    ("folder", "inside/k=a", "", None),
    ("folder", "outside", "", None),
    ("create", "outside/kept", "", None),
    ("append", "outside/kept", "kept", None),
];

/// What is outside stays.
const KEPT: &[Row] = &[
    ("holds", "outside/kept", "kept", None),
    ("names", "outside", "kept", None),
];

/// Each call on a link, and on a path through one.
const LINKED: &[Row] = &[
    ("append", "file", "x", Some(Failed)),
    ("sync", "file", "", Some(Failed)),
    ("remove", "file", "", Some(Failed)),
    ("rename", "file", "other", Some(Failed)),
    ("rename", "plain", "file", Some(Failed)),
    ("length", "file", "", Some(Failed)),
    ("read", "file", "", Some(Failed)),
    ("list", "folder", "", Some(Failed)),
    ("sync-folder", "folder", "", Some(Failed)),
    ("folder", "folder", "", Some(Failed)),
    ("create", "folder/escaped", "", Some(Failed)),
    ("read", "folder/kept", "", Some(Failed)),
    ("remove", "folder/kept", "", Some(Failed)),
];

/// Calls where another kind of node stands than they ask for, which is no failure.
const OTHERS: &[Row] = &[
    ("create", "file", "", Some(Exists)),
    ("append", "k=a", "x", Some(Absent)),
    ("sync-folder", "plain", "", Some(Absent)),
    ("create", "plain/below", "", Some(Absent)),
    ("names", "", "plain k=a/", None),
];

/// Whether a link is made in a folder, by its name and where it leads.
pub(crate) fn is_linked(rt: &HostRuntime, folder: &str, name: &str, target: &str) -> bool {
    match path_in(rt.alloc(), folder, name) {
        Ok(path) => symlink(rt, target, path.as_str()).is_ok(),
        Err(_) => false,
    }
}

#[test]
fn a_link_or_another_kind_of_node_is_a_fault_and_is_not_followed(
    rt: HostRuntime,
) -> Result<(), Fail> {
    let folder = own_folder(&rt, "links")?;
    let folder = folder.as_str();
    check_folder(&rt, folder, FILES, 0)?;
    let inside = path_in(rt.alloc(), folder, "inside")?;
    let inside = inside.as_str();
    assert!(rt;
        is_linked(&rt, inside, "file", "../outside/kept")
            && is_linked(&rt, inside, "folder", "../outside")
    );
    check_folder(&rt, inside, LINKED, LINKED.len() as u64)?;
    check_folder(&rt, inside, OTHERS, 0)?;
    check_folder(&rt, folder, KEPT, 0)?;
    Ok(fs::remove_dir_all(&rt, folder)?)
}

/// Devices in the place of files.
const DEVICES: &[Row] = &[
    ("append", "full", "x", Some(Failed)),
    ("read", "zero", "", Some(Failed)),
];

#[test]
fn a_device_is_a_fault(rt: HostRuntime) -> Result<(), Fail> {
    check_folder(&rt, "/dev", DEVICES, 2)
}
