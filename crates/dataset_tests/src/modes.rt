//! The mode and the group of new files and folders.

use crate::host_folders::{check_folder, own_folder};
use crate::rows::{Row, check_calls};
use disk::{HostDisk, path_in};
use std::fs::{self, Permissions};
use std::os::unix::fs::{MetadataExt, PermissionsExt, lchown};
use std::test::*;

/// A root.
const ROOT: &[Row] = &[
    ("create", "_metadata", "", None),
    ("append", "_metadata", "old", None),
];

/// A next root, and a part file in a folder of its own.
const NEW: &[Row] = &[
    ("create", "_metadata.new", "", None),
    ("append", "_metadata.new", "new", None),
    ("sync", "_metadata.new", "", None),
    ("folder", "k=a", "", None),
    ("create", "k=a/part.0.parquet", "", None),
    ("sync", "k=a/part.0.parquet", "", None),
];

/// Sets the mode of a path in a folder.
fn set_mode(rt: &HostRuntime, folder: &str, path: &str, mode: u32) -> Result<(), Fail> {
    let place = path_in(rt.alloc(), folder, path)?;
    Ok(fs::set_permissions(rt, place.as_str(), Permissions::from_mode(mode))?)
}

/// Whether what is at a path in a folder has this mode, and the group of the folder.
fn has_mode(rt: &HostRuntime, folder: &str, path: &str, mode: u32) -> Result<bool, Fail> {
    let place = path_in(rt.alloc(), folder, path)?;
    let (found, above) = (fs::metadata(rt, place.as_str())?, fs::metadata(rt, folder)?);
    Ok(found.mode() & 0o7777 == mode && found.gid() == above.gid())
}

/// Makes the calls on a disk whose files are like the root, of these modes of the root and of the folder. Whether the new
/// files and the new folder have them too.
fn keeps_modes(rt: &HostRuntime, test: &str, root: u32, top: u32) -> Result<bool, Fail> {
    let folder = own_folder(rt, test)?;
    let folder = folder.as_str();
    check_folder(rt, folder, ROOT, 0)?;
    set_mode(rt, folder, "_metadata", root)?;
    set_mode(rt, folder, "", top)?;
    // Only the superuser can give a group of which no process is a member.
    let _ = lchown(rt, folder, None, Some(7));
    let place = path_in(rt.alloc(), folder, "_metadata")?;
    let _ = lchown(rt, place.as_str(), None, Some(7));
    let disk = HostDisk::new(rt.alloc(), rt.clone()?, folder)?;
    let mut disk = disk.with_files_like("_metadata")?;
    check_calls(rt.alloc(), &mut disk, NEW)?;
    let kept = has_mode(rt, folder, "_metadata.new", root)?
        && has_mode(rt, folder, "k=a/part.0.parquet", root)?
        && has_mode(rt, folder, "k=a", top)?;
    fs::remove_dir_all(rt, folder)?;
    Ok(kept)
}

#[test]
fn new_files_and_folders_take_the_mode_and_the_group(rt: HostRuntime) -> Result<(), Fail> {
    assert!(rt; keeps_modes(&rt, "wide", 0o664, 0o2775)? && keeps_modes(&rt, "own", 0o400, 0o700)?);
    Ok(())
}
