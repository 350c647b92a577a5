//! Stops and failures while a table is made, and stops while it is given a column.

use crate::failures::{Made, went};
use crate::script::{self, SCHEMA};
use crate::stops::{LISTS, Seen, crashed};
use bits::{R, Refusal};
use disk::Disk;
use jsonrows::schema_to;
use mem_disk::MemDisk;
use std::alloc::Global;

/// Whether the disk has no table, or the empty one.
pub fn is_none_or_empty(alloc: Global, disk: MemDisk) -> R<bool> {
    match script::open(alloc, disk) {
        Ok(mut store) => Ok(script::rows(alloc, &mut store)?.is_empty()),
        Err((_, refusal)) => Ok(matches!(refusal, Refusal::NoTable)),
    }
}

/// Whether a table can be made on the disk, which is the empty one when it is opened again.
pub fn can_be_made(alloc: Global, disk: MemDisk) -> R<bool> {
    let Ok(store) = script::create_on(alloc, disk)? else {
        return Ok(false);
    };
    let Ok(mut store) = script::open(alloc, store.into_disk()) else {
        return Ok(false);
    };
    Ok(script::rows(alloc, &mut store)?.is_empty())
}

/// The disk that making a table leaves where it fails from the call `k` on; none where it did not fail.
pub fn stopped_creation(alloc: Global, k: u64, pick: u64) -> R<Option<MemDisk>> {
    let mut disk = MemDisk::new(alloc);
    disk.fuse(k, pick);
    let disk = script::disk_of(script::create_on(alloc, disk)?);
    if disk.failures() == 0 {
        return Ok(None);
    }
    Ok(Some(disk))
}

/// A stop after `k` calls of making a table. Whether the disk failed at all.
fn stop_creation(alloc: Global, k: u64, pick: u64, seen: &mut Seen) -> R<bool> {
    let Some(disk) = stopped_creation(alloc, k, pick)? else {
        return Ok(false);
    };
    seen.stops = seen.stops.saturating_add(1);
    for list in 0..LISTS {
        let image = crashed(alloc, &disk, list)?;
        let right = is_none_or_empty(alloc, image)?;
        seen.add(right);
    }
    Ok(true)
}

/// `creations PICK`: a stop at each call of making a table.
pub fn creations(alloc: Global, pick: u64) -> R<String> {
    let mut seen = Seen::new();
    for k in 0..u64::MAX {
        if !stop_creation(alloc, k, pick, &mut seen)? {
            break;
        }
    }
    seen.text(alloc)
}

/// Whether the disk has no table, and one can be made there, or the empty one, and another is refused.
fn is_one_at_most(alloc: Global, disk: MemDisk) -> R<bool> {
    match script::open(alloc, disk) {
        Ok(mut store) => {
            let is_empty = script::rows(alloc, &mut store)?.is_empty();
            let another = script::create_on(alloc, store.into_disk())?;
            Ok(is_empty && matches!(another, Err((_, Refusal::Exists))))
        }
        Err((disk, Refusal::NoTable)) => can_be_made(alloc, disk),
        Err(_) => Ok(false),
    }
}

/// How a creation went in which one call of the disk failed: what it left, and why it was refused.
fn after_failure(alloc: Global, disk: MemDisk, refusal: Option<Refusal>) -> R<Made> {
    match refusal {
        Some(Refusal::Device) => Ok(went(can_be_made(alloc, disk)?)),
        Some(Refusal::InDoubt) => {
            if is_one_at_most(alloc, disk)? {
                Ok(Made::InDoubt)
            } else {
                Ok(Made::Wrong)
            }
        }
        _ => Ok(Made::Wrong),
    }
}

/// How making a table goes where the call `k` of the disk fails; none where it did not fail.
fn fail_creation(alloc: Global, k: u64, pick: u64) -> R<Option<Made>> {
    let mut disk = MemDisk::new(alloc);
    disk.fail_once(k, pick);
    let (disk, refusal) = match script::create_on(alloc, disk)? {
        Ok(store) => (store.into_disk(), None),
        Err((disk, refusal)) => (disk, Some(refusal)),
    };
    if disk.failures() == 0 {
        return Ok(None);
    }
    Ok(Some(after_failure(alloc, disk, refusal)?))
}

/// `creation-failures PICK`: one failure at each call of making a table.
pub fn creation_failures(alloc: Global, pick: u64) -> R<String> {
    let mut seen = Seen::new();
    let mut doubts: u64 = 0;
    for k in 0..u64::MAX {
        let Some(made) = fail_creation(alloc, k, pick)? else {
            break;
        };
        seen.stops = seen.stops.saturating_add(1);
        match made {
            Made::AsEver => {}
            Made::InDoubt => doubts = doubts.saturating_add(1),
            Made::Wrong => seen.add(false),
        }
    }
    let (failures, wrong) = (seen.stops, seen.wrong);
    Ok(format!(in alloc; "{failures} failures, {doubts} in doubt, not allowed: {wrong}")?)
}

const APPEND: &str = "{\"call\":\"append\",\"rows\":[{\"k\":\"a\",\"x\":1}]}";

const COLUMN: &str =
    "{\"call\":\"add_column\",\"field\":{\"name\":\"y\",\"rep\":\"optional\",\"type\":\"int32\"}}";

/// Whether the disk has the table of one row, with the new column or without it.
fn is_with_or_without(alloc: Global, disk: MemDisk, must_have: bool) -> R<bool> {
    let Ok(mut store) = script::open(alloc, disk) else {
        return Ok(false);
    };
    let rows = script::rows(alloc, &mut store)?;
    let schema = schema_to(alloc, store.schema())?;
    let old = schema.as_str() == SCHEMA && rows.as_str() == "a1 " && !must_have;
    Ok(old || schema.as_str() != SCHEMA && rows.as_str() == "a1ynull ")
}

/// A stop after `k` calls of adding a column. Whether the disk failed at all.
fn stop_column(alloc: Global, k: u64, pick: u64, seen: &mut Seen) -> R<bool> {
    let mut store = script::new_store(alloc)?;
    script::answer(alloc, &mut store, APPEND)?;
    store.disk_mut().fuse(k, pick);
    let answer = script::answer(alloc, &mut store, COLUMN)?;
    if script::failures(&store) == 0 {
        return Ok(false);
    }
    let must_have = answer.as_str() == "{\"done\":0}";
    seen.stops = seen.stops.saturating_add(1);
    let disk = store.into_disk();
    for list in 0..LISTS {
        let image = crashed(alloc, &disk, list)?;
        let right = is_with_or_without(alloc, image, must_have)?;
        seen.add(right);
    }
    Ok(true)
}

/// `columns PICK`: a stop at each call of adding a column.
pub fn columns(alloc: Global, pick: u64) -> R<String> {
    let mut seen = Seen::new();
    for k in 0..u64::MAX {
        if !stop_column(alloc, k, pick, &mut seen)? {
            break;
        }
    }
    seen.text(alloc)
}
