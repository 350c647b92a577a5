//! New files on a host whose writes and syncs fail, on one which has no links, and at a path that no host has.

use crate::faulty_files::Faulty;
use bits::{R, Refusal};
use program::put_new;
use std::fs;
use std::test::*;

/// Whether something is at a path.
fn is_there(rt: &HostRuntime, path: &str) -> bool {
    fs::symlink_metadata(rt, path).is_ok()
}

/// What comes of a new file of five bytes where each file takes `room` bytes, and can be synced or not.
fn put(rt: &HostRuntime, path: &str, room: usize, syncs: bool) -> R<()> {
    let files = Faulty {
        rt: rt.clone()?,
        room,
        syncs,
    };
    put_new(&files, rt.alloc(), path, b"whole", &mut None)
}

/// Whether a new file is refused, and neither it nor the first name that it has while it is made is there.
fn is_taken_away(rt: &HostRuntime, room: usize, syncs: bool) -> bool {
    put(rt, "faulty.bytes", room, syncs) == Err(Refusal::Device)
        && !is_there(rt, "faulty.bytes")
        && !is_there(rt, "pqds.new-0")
}

#[test]
fn a_file_that_is_not_filled_or_not_synced_is_taken_away(rt: HostRuntime) {
    assert!(rt;
        is_taken_away(&rt, 0, true) && is_taken_away(&rt, 3, true) && is_taken_away(&rt, 5, false)
    );
}

#[test]
fn a_path_with_a_nul_is_refused(rt: HostRuntime) {
    let put = put_new(&rt, rt.alloc(), "nul\u{0}.bytes", b"bytes", &mut None);
    assert!(rt; put == Err(Refusal::Device));
}

#[test]
fn a_host_without_links_has_the_file_in_place(rt: HostRuntime) -> Result<(), Fail> {
    let put = put(&rt, "linkless.bytes", 5, true);
    let is_left = is_there(&rt, "pqds.new-0");
    let bytes = fs::read(&rt, "linkless.bytes")?;
    fs::remove_file(&rt, "linkless.bytes")?;
    assert!(rt; put.is_ok() && !is_left && bytes.as_slice() == b"whole".as_slice());
    Ok(())
}
