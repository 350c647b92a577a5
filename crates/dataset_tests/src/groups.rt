//! Groups for the tests of versions.

use bits::{R, Refusal};
use manifest::{ChunkRecords, Group};
use schema::{Key, Value};
use statistics::GroupStats;
use std::alloc::Global;
use std::rc::Rc;

/// A key of one byte: a for groups of numbers below 100, and b for the others.
fn key(alloc: Global, number: u32) -> R<Key> {
    let byte = if number < 100 { b'a' } else { b'b' };
    let mut values = Vec::new(alloc);
    values.push(Value::Bytes(Vec::from_slice(alloc, &[byte])?))?;
    Ok(Key { values })
}

/// A group of this number, without rows that matter.
pub(crate) fn group(alloc: Global, number: u32) -> R<Rc<Group>> {
    let group = Group {
        number: u64::from(number),
        key: key(alloc, number)?,
        width: 0,
        chunks: ChunkRecords::of(alloc, Vec::new(alloc).as_slice())?,
        stats: GroupStats {
            rows: 1,
            leaves: Vec::new(alloc),
        },
    };
    Rc::new(alloc, group).map_err(|_| Refusal::Memory)
}

/// Groups of these numbers.
pub(crate) fn groups_of(alloc: Global, numbers: &[u32]) -> R<Vec<Rc<Group>>> {
    let mut all = Vec::new(alloc);
    for number in numbers {
        all.push(group(alloc, *number)?)?;
    }
    Ok(all)
}
