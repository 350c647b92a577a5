//! One failure at each call of the disk.

use crate::script::{self, STEPS, Step, TABLES, is_table_after, table_after};
use crate::stops::Seen;
use bits::R;
use mem_disk::MemDisk;
use std::alloc::Global;
use store::Store;

pub const DEVICE: &str = "{\"name\":\"Device\",\"refused\":25}";

pub const DOUBT: &str = "{\"name\":\"InDoubt\",\"refused\":26}";

const CLOSED: &str = "{\"name\":\"Closed\",\"refused\":27}";

/// How a call with one failure went.
#[derive(Drop)]
pub enum Made {
    AsEver,
    InDoubt,
    Wrong,
}

/// How a call went whose answer is right or not.
pub fn went(is_right: bool) -> Made {
    if is_right { Made::AsEver } else { Made::Wrong }
}

/// Whether the table has as many rows as this one. (A query would take a cursor's number.)
pub fn has_as_many_rows(alloc: Global, store: &mut Store<MemDisk>, rows: &str) -> R<bool> {
    let wanted = rows.split_whitespace().count() as u64;
    let found = store.count(alloc, &[])?;
    Ok(found == wanted)
}

/// Makes a call, and once more where the disk failed and nothing changed.
fn make(alloc: Global, store: &mut Store<MemDisk>, step: &Step, before: &str) -> R<Made> {
    let first = script::answer(alloc, store, step.call)?;
    if first.as_str() == step.answer {
        return Ok(Made::AsEver);
    }
    if first.as_str() == DOUBT {
        return Ok(Made::InDoubt);
    }
    if first.as_str() != DEVICE {
        return Ok(Made::Wrong);
    }
    if !has_as_many_rows(alloc, store, before)? {
        return Ok(Made::Wrong);
    }
    let again = script::answer(alloc, store, step.call)?;
    Ok(went(again.as_str() == step.answer))
}

/// Whether a store in doubt is closed, and opens again with the table after so many commits or the next one.
pub fn comes_back(
    alloc: Global,
    store: &mut Store<MemDisk>,
    tables: &[&str],
    commits: usize,
) -> R<bool> {
    let closed = script::answer(alloc, store, "{\"call\":\"groups\"}")?;
    if closed.as_str() != CLOSED {
        return Ok(false);
    }
    store.reopen(alloc)?;
    let rows = script::rows(alloc, store)?;
    Ok(is_table_after(tables, commits, rows.as_str()))
}

/// Makes all calls up to the first that ends in doubt; then the store is closed and comes back.
fn makes_all(alloc: Global, store: &mut Store<MemDisk>) -> R<Made> {
    let mut commits: usize = 0;
    for step in &STEPS {
        let before = table_after(commits).unwrap_or("");
        match make(alloc, store, step, before)? {
            Made::AsEver => {}
            Made::InDoubt => {
                return if comes_back(alloc, store, &TABLES, commits)? {
                    Ok(Made::InDoubt)
                } else {
                    Ok(Made::Wrong)
                };
            }
            Made::Wrong => return Ok(Made::Wrong),
        }
        if step.commits {
            commits = commits.saturating_add(1);
        }
    }
    Ok(Made::AsEver)
}

/// `failures PICK`: one failure at each call of the disk.
pub fn failures(alloc: Global, pick: u64) -> R<String> {
    let mut seen = Seen::new();
    let mut doubts: u64 = 0;
    for k in 0..u64::MAX {
        let mut store = script::new_store(alloc)?;
        store.disk_mut().fail_once(k, pick);
        let made = makes_all(alloc, &mut store)?;
        if script::failures(&store) == 0 {
            break;
        }
        seen.stops = seen.stops.saturating_add(1);
        match made {
            Made::AsEver => {}
            Made::InDoubt => doubts = doubts.saturating_add(1),
            Made::Wrong => seen.add(false),
        }
    }
    let (failures, wrong) = (seen.stops, seen.wrong);
    Ok(format!(in alloc; "{failures} failures, {doubts} in doubt, not allowed: {wrong}")?)
}
