//! Stops while a table is opened again after a stop.

use crate::makings;
use crate::script::{self, STEPS};
use crate::stops::{Seen, crashed};
use bits::R;
use disk::Disk;
use mem_disk::MemDisk;
use std::alloc::Global;

/// What the first stop is in: the making of a table, or the list of calls.
#[derive(Clone, Copy)]
pub enum Work {
    Creation,
    Calls,
}

/// What is stopped, what a failed call has done, and which lists of words say what the two stops leave.
#[derive(Clone, Copy)]
pub struct Stops<'a> {
    pub work: Work,
    pub pick: u64,
    pub lists: &'a [u64],
}

/// The rows that an opening of a copy of the disk shows; none where it is refused.
fn shown(alloc: Global, image: &MemDisk) -> R<Option<String>> {
    let copy = crashed(alloc, image, 0)?;
    match script::open(alloc, copy) {
        Ok(mut store) => Ok(Some(script::rows(alloc, &mut store)?)),
        Err(_) => Ok(None),
    }
}

/// Whether the disk may have no table: only where the making of it was stopped, and it can be made there.
fn may_have_none(alloc: Global, disk: MemDisk, work: Work) -> R<bool> {
    match work {
        Work::Creation => makings::can_be_made(alloc, disk),
        Work::Calls => Ok(false),
    }
}

/// Whether each list leaves, of a disk whose opening was stopped, a table that shows these rows, or none as before.
fn is_kept(
    alloc: Global,
    disk: &MemDisk,
    rows: &Option<String>,
    stops: Stops<'_>,
    seen: &mut Seen,
) -> R<()> {
    for list in stops.lists {
        let image = crashed(alloc, disk, *list)?;
        let now = shown(alloc, &image)?;
        let right = match (&now, rows) {
            (Some(now), Some(rows)) => now.as_str() == rows.as_str(),
            (None, None) => may_have_none(alloc, image, stops.work)?,
            _ => false,
        };
        seen.add(right);
    }
    Ok(())
}

/// An opening of a copy of the image that is stopped after `k` calls. Whether the disk failed at all.
fn stop_at(alloc: Global, image: &MemDisk, k: u64, stops: Stops<'_>, seen: &mut Seen) -> R<bool> {
    let rows = shown(alloc, image)?;
    let mut copy = crashed(alloc, image, 0)?;
    copy.fuse(k, stops.pick);
    let disk = script::disk_of(script::open(alloc, copy));
    if disk.failures() == 0 {
        return Ok(false);
    }
    seen.stops = seen.stops.saturating_add(1);
    is_kept(alloc, &disk, &rows, stops, seen)?;
    Ok(true)
}

/// A stop at each call of an opening of this image.
fn stop_everywhere(alloc: Global, image: &MemDisk, stops: Stops<'_>, seen: &mut Seen) -> R<()> {
    for k in 0..u64::MAX {
        if !stop_at(alloc, image, k, stops, seen)? {
            break;
        }
    }
    Ok(())
}

/// The disk that the list of calls leaves where it fails from the call `k` on; none where it did not fail.
fn stopped_calls(alloc: Global, k: u64, pick: u64) -> R<Option<MemDisk>> {
    let mut store = script::new_store(alloc)?;
    store.disk_mut().fuse(k, pick);
    for step in &STEPS {
        let answer = script::answer(alloc, &mut store, step.call)?;
        if answer.as_str() != step.answer {
            break;
        }
    }
    if script::failures(&store) == 0 {
        return Ok(None);
    }
    Ok(Some(store.into_disk()))
}

/// The disk that a stop after `k` calls leaves; none where it did not fail.
fn stopped_disk(alloc: Global, k: u64, stops: Stops<'_>) -> R<Option<MemDisk>> {
    match stops.work {
        Work::Creation => makings::stopped_creation(alloc, k, stops.pick),
        Work::Calls => stopped_calls(alloc, k, stops.pick),
    }
}

/// `reopenings PICK LIST ..` and `creation-reopenings PICK LIST ..`: a stop at each call of the disk, and then one at each call
/// of the opening of what it leaves. (How many calls an opening makes depends on what it removes, so they are not told.)
pub fn reopenings(alloc: Global, stops: Stops<'_>) -> R<String> {
    let mut seen = Seen::new();
    let mut images: u64 = 0;
    for k in 0..u64::MAX {
        let Some(disk) = stopped_disk(alloc, k, stops)? else {
            break;
        };
        for list in stops.lists {
            let image = crashed(alloc, &disk, *list)?;
            stop_everywhere(alloc, &image, stops, &mut seen)?;
            images = images.saturating_add(1);
        }
    }
    let each = if seen.stops >= images {
        "stops in each"
    } else {
        "too few stops"
    };
    let wrong = seen.wrong;
    Ok(format!(in alloc; "{images} openings, {each}, not allowed: {wrong}")?)
}
