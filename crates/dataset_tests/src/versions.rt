//! How the groups of a version fill its blocks.

use crate::groups::group;
use bits::R;
use manifest::{Edit, Version};
use std::alloc::Global;
use std::test::*;

/// The version with a group more at its end.
fn appended(alloc: Global, version: &Version, number: u32) -> R<Version> {
    let mut come = Vec::new(alloc);
    come.push(group(alloc, number)?)?;
    let edits = [Edit {
        at: version.len(),
        gone: 0,
        come,
    }];
    version.spliced(alloc, &edits)
}

/// Whether 130 groups, one after another, fill three blocks, and as one list again.
fn are_filled(alloc: Global) -> R<bool> {
    let mut version = Version::empty(alloc)?;
    let mut all = Vec::new(alloc);
    for number in 0..130 {
        version = appended(alloc, &version, number)?;
        all.push(group(alloc, number)?)?;
    }
    let at_once = Version::of(alloc, all.as_slice())?;
    Ok(version.blocks().len() == 3 && at_once.blocks().len() == 3)
}

#[test]
fn blocks_are_filled_by_one_list_and_by_single_groups(rt: HostRuntime) -> Result<(), Fail> {
    assert!(rt; are_filled(rt.alloc())?);
    Ok(())
}
