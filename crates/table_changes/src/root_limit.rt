//! Whether the root of an append would be beyond its limits, found before a file is written.

ghost use Rattle.std.specs.Prelude.{◌≤◌, length, map, sum_by, IsTrue};
ghost use Rattle.std.specs.Rc.{rc_str_bytes};
ghost use Rattle.schema.specs.Views.{leaf_view};
ghost use Rattle.manifest.specs.Groups.{root_of};
ghost use Rattle.table_changes.specs.RootLimit.{least_of_leaf, IsOverWith};

use footer::MOST_BYTES_OF_FOOTER;
use gather::KeyBuffer;
use manifest::{Group, Manifest};
use partition::part_path;
use schema::{Key, KeyColumn, Leaf, Value};
use std::alloc::Global;
use std::rc::{Rc, RcStr};

/// The least bytes of a group's record, next to those of its chunks (parquet.thrift, RowGroup): 2 for the list of the chunks,
/// 2 for the bytes, 2 for the rows, and 1 for its end.
const LEAST_OF_GROUP: usize = 7;

/// The least bytes of any chunk's record, next to the path of its file, the names of its column, and its bounds (parquet.thrift,
/// ColumnChunk and ColumnMetaData): 2 for the path's length, 1 for the column; of the column 2 each for its type, its names, its
/// codec, its entries and its first page; and 1 for each of the two ends.
const LEAST_OF_CHUNK: usize = 15;

/// The least bytes that the record of a chunk of ours has beyond these: 2 each for its place, its encodings and its two sizes,
/// and 4 for statistics without bounds.
const MORE_OF_OURS: usize = 12;

/// Whether the root with the groups of these buffers as well would be beyond both limits of a footer: it weighs too much, and
/// its record is too long, whatever the new files have. Their numbers are from `next` on.
///
/// By its weight alone no root is refused: 10,000 groups of 5 columns weigh 27.7 MB, and their root has 3.6. Nothing is proved of
/// the length, which only makes the refusals fewer: a root that is too long after all is refused when its files are written.
/// The time is linear in the leaves; where the groups weigh too much, in their chunks.
pub(crate) fn is_beyond_root(
    alloc: Global,
    table: &Manifest,
    next: u64,
    come: &[KeyBuffer<'_>],
) -> bool
    ensures { IsTrue result → IsOverWith (root_of table.now) (length come.now) }
{
    is_too_heavy(table, come.len()) && is_too_long(alloc, table, next, come)
}

/// Whether the groups of the table and so many more weigh more than a footer may. Takes no memory.
fn is_too_heavy(table: &Manifest, more: usize) -> bool
    ensures { IsTrue result → IsOverWith (root_of table.now) more }
{
    let groups = table.groups().len().saturating_add(more);
    let weight = weight_of_leaves(table.stored().leaves()).saturating_add(64);
    groups.saturating_mul(weight) > MOST_BYTES_OF_FOOTER
}

/// What chunks of these leaves weigh at least.
fn weight_of_leaves(leaves: &[Leaf]) -> usize
    ensures { result ≤ sum_by least_of_leaf (map leaf_view leaves.now) }
{
    let mut weight: usize = 0;
    for leaf in leaves {
        weight = weight.saturating_add(weight_of_leaf(leaf));
    }
    weight
}

/// What a chunk of the leaf weighs at least.
fn weight_of_leaf(leaf: &Leaf) -> usize
    ensures { result ≤ least_of_leaf (leaf_view leaf.now) }
{
    bytes_of_names(leaf.path.as_slice()).saturating_add(512)
}

/// How many bytes the names have.
fn bytes_of_names(names: &[RcStr]) -> usize
    ensures { result ≤ sum_by (λ name. length name) (map rc_str_bytes names.now) }
{
    let mut bytes: usize = 0;
    for name in names {
        bytes = bytes.saturating_add(name.as_str().len());
    }
    bytes
}

// What follows is a length, and has no clause: see `is_beyond_root`.

/// Whether the record of the root is longer than a footer may be, with the groups of these buffers as well: already by the least
/// that each record takes.
fn is_too_long(alloc: Global, table: &Manifest, next: u64, come: &[KeyBuffer<'_>]) -> bool {
    let old = least_of_table(alloc, table);
    let new = least_of_new(alloc, table, next, come);
    old.saturating_add(new) > MOST_BYTES_OF_FOOTER
}

/// The least bytes of the records of groups that are written from buffers, under numbers from `next` on.
fn least_of_new(alloc: Global, table: &Manifest, next: u64, come: &[KeyBuffer<'_>]) -> usize {
    let leaves = table.stored().leaves();
    let chunks = least_of_ours(leaves);
    let mut length: usize = 0;
    for buffer in come {
        let path = length_of_path(alloc, table.keys(), &buffer.key, next);
        let paths = path.saturating_mul(leaves.len());
        let group = chunks.saturating_add(paths).saturating_add(LEAST_OF_GROUP);
        length = length.saturating_add(group);
    }
    length
}

/// The least bytes of the records of chunks that are written of these leaves, next to the path of their file.
fn least_of_ours(leaves: &[Leaf]) -> usize {
    let mut length: usize = 0;
    for leaf in leaves {
        let chunk = least_of_chunk(leaf).saturating_add(MORE_OF_OURS);
        length = length.saturating_add(chunk);
    }
    length
}

/// The least bytes of the records of a table's groups.
fn least_of_table(alloc: Global, table: &Manifest) -> usize {
    let mut length: usize = 0;
    for block in table.groups().blocks() {
        let groups = least_of_groups(alloc, table, block.groups.as_slice());
        length = length.saturating_add(groups);
    }
    length
}

/// The least bytes of the records of these groups.
fn least_of_groups(alloc: Global, table: &Manifest, groups: &[Rc<Group>]) -> usize {
    let mut length: usize = 0;
    for group in groups {
        length = length.saturating_add(least_of_group(alloc, table, group));
    }
    length
}

/// The least bytes of a group's record. Its chunks are those of the table's first leaves.
fn least_of_group(alloc: Global, table: &Manifest, group: &Group) -> usize {
    let path = length_of_path(alloc, table.keys(), &group.key, group.number);
    let leaves = table.stored().leaves();
    let mut length = LEAST_OF_GROUP;
    for (leaf, known) in leaves.iter().zip(group.stats.leaves.iter()) {
        let bounds = length_of_bound(&known.min).saturating_add(length_of_bound(&known.max));
        length = length
            .saturating_add(least_of_chunk(leaf))
            .saturating_add(bounds)
            .saturating_add(path);
    }
    length
}

/// The least bytes of a chunk's record, next to the path of its file and its bounds.
fn least_of_chunk(leaf: &Leaf) -> usize {
    bytes_of_names(leaf.path.as_slice())
        .saturating_add(leaf.path.len())
        .saturating_add(LEAST_OF_CHUNK)
}

/// The least bytes of the field of a bound, if it is there: of a number 4.
fn length_of_bound(bound: &Option<Value>) -> usize {
    match bound {
        Some(Value::Bytes(bytes)) => bytes.len().saturating_add(2),
        Some(Value::Int(_)) => 6,
        _ => 0,
    }
}

/// How long the path of the part file of this key and number is; 0 where no memory is left for it.
fn length_of_path(alloc: Global, keys: &[KeyColumn], key: &Key, number: u64) -> usize {
    match part_path(alloc, keys, key, number) {
        Ok(path) => path.len(),
        Err(_) => 0,
    }
}
