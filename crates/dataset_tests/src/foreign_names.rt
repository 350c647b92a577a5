//! Folders in which other programs have left links, pipes and names that are not UTF-8.

use crate::host_folders::{check_folder, own_folder};
use crate::links::is_linked;
use crate::odd_names::Odd;
use crate::rows::{Row, check_calls};
use disk::{Disk, Entry, HostDisk, Kind, path_in};
use std::fs;
use std::test::*;

/// A root, and a key folder with a part file.
const FILES: &[Row] = &[
    ("create", "_metadata", "", None),
    ("folder", "k=a", "", None),
    ("create", "k=a/part.0.parquet", "", None),
    ("create", "k=a/notes", "", None),
];

/// A listing passes over links, pipes and names that are not UTF-8.
const LISTED: &[Row] = &[
    ("names", "", "_metadata k=a/", None),
    ("names", "k=a", "part.0.parquet notes", None),
];

/// Links that other programs have made, in the dataset's folder and in a key folder.
const LINKS: &[&str] = &[
    "link",
    "_lock",
    "part",
    "k=a/link",
    "k=a/part.0.parquet.tmp",
];

/// Names of a dataset, at each of which a link is listed as what it is.
const OWN_NAMES: &[&str] = &[
    "_metadata.new",
    "part.7.parquet",
    "part.x.parquet",
    "k=b",
    "other=",
];

/// Whether an entry is the one of a name, and neither a file nor a folder.
fn is_other(entry: &Entry, name: &str) -> bool {
    entry.kind == Kind::Other && entry.name.as_bytes() == name.as_bytes()
}

/// Whether the listing of a folder has a link with this name as neither a file nor a folder.
fn is_listed(rt: &HostRuntime, folder: &str, name: &str) -> Result<bool, Fail> {
    let path = path_in(rt.alloc(), folder, name)?;
    let made = is_linked(rt, folder, name, "nowhere");
    let mut disk = HostDisk::new(rt.alloc(), rt.clone()?, folder)?;
    let entries = disk.list(rt.alloc(), "")?;
    let listed = entries.iter().any(|entry| is_other(entry, name));
    fs::remove_file(rt, path.as_str())?;
    Ok(made && listed && disk.failures() == 0)
}

#[test]
fn a_listing_passes_over_what_no_dataset_has_made(rt: HostRuntime) -> Result<(), Fail> {
    let folder = own_folder(&rt, "foreign")?;
    let folder = folder.as_str();
    check_folder(&rt, folder, FILES, 0)?;
    assert!(rt;
        LINKS
            .iter()
            .all(|name| is_linked(&rt, folder, name, "nowhere"))
    );
    let files = Odd { rt: rt.clone()? };
    let mut disk = HostDisk::new(rt.alloc(), files, folder)?;
    check_calls(rt.alloc(), &mut disk, LISTED)?;
    assert!(rt; disk.failures() == 0);
    for name in OWN_NAMES {
        assert!(rt; is_listed(&rt, folder, name)?);
    }
    Ok(fs::remove_dir_all(&rt, folder)?)
}
