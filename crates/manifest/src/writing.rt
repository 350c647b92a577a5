//! From what a root describes to its bytes.

ghost use Rattle.std.specs.Prelude.{◌≡◌, ◌<◌, ◌^◌, ℕ, List, Some, [], ◌∷◌, length, map, sum_by, codes, IfOk, OnOk, Err};
ghost use Rattle.std.specs.List.{AllByRecursion};
ghost use Rattle.std.specs.Fmt.{decimal};
ghost use Rattle.serde_json.specs.Written.{compact_text};
ghost use Rattle.bits.specs.Refusals.{RefusedOnly, RefusedMemoryOnly};
ghost use Rattle.schema.specs.Keys.{key_columns_view};
ghost use Rattle.metadata.specs.Records.{GroupMeta as GroupMetaShown};
ghost use Rattle.metadata.specs.Kept.{EachKeepsWritten};
ghost use Rattle.metadata.specs.Begun.{BeginsFooter};
ghost use Rattle.metadata.specs.ToTree.{file_meta_fields};
ghost use Rattle.metadata.specs.Views.{key_value_view, file_meta_view};
ghost use Rattle.thrift_compact.specs.Length.{AppendsStruct};
ghost use Rattle.footer.specs.File.{magic};
ghost use Rattle.partition.specs.Folders.{CanPartition};
ghost use Rattle.manifest.specs.Groups.{Root, Group as GroupShown, groups_in, handles_view};
ghost use Rattle.manifest.specs.Root.{IsDescription, IsKeysText, keys_data};
ghost use Rattle.manifest.specs.Laid.{IsRootLaidOut, IsRootTooHeavy, group_record, root_record};
ghost use Rattle.manifest.specs.inner.Writing.{IsRootOf, IsSized};

use crate::group::Group;
use crate::group_writing::{put_groups, signed};
use crate::keys_text::keys_to_text;
use crate::pairs::{KEYS, NEXT, next_to_text};
use crate::version::Version;
use bits::{R, Refusal};
use footer::{MAGIC, close_file};
use metadata::{FileMeta, KeyValue, type_orders};
use schema::{KeyColumn, Schema, copied_elements};
use std::alloc::Global;
use std::rc::Rc;

/// The format's version that a footer names, and the name of the writer.
const VERSION: i32 = 1;

const CREATED_BY: &[u8] = b"pqds";

/// A footer that is not too heavy has fewer groups: each weighs 64 and more.
const MOST_GROUPS: usize = 262_144;

/// The bytes of a root that has these fields besides the keys, these key columns, next number and groups.
///
/// Refused Limit only where the footer weighs more than it may have, or these are no description. Time is linear in
/// the chunks. Next to the bytes one group's record is in memory at a time.
pub(crate) fn root_to_bytes(
    alloc: Global,
    stored: &Schema,
    keys: &[KeyColumn],
    next: u64,
    groups: &Version,
) -> R<Vec<u8>>
    ensures laid_out { IfOk result (λ bytes. (root : Root) → IsDescription root → IsRootOf root stored.now (key_columns_view keys.now) next (groups_in groups.now) → IsRootLaidOut bytes.items root) }
    ensures limit { result ≡ Err Refusal.Limit → (root : Root) → IsDescription root → IsRootOf root stored.now (key_columns_view keys.now) next (groups_in groups.now) → IsRootTooHeavy root }
    ensures which { RefusedOnly (λ e. e ≡ Refusal.Limit) result }
{
    if groups.len() >= MOST_GROUPS {
        return Err(Refusal::Limit);
    }
    let meta = record_of(alloc, stored, keys, next, groups)?;
    let bytes = record_bytes(alloc, &meta, keys, groups)?;
    close_file(bytes, MAGIC.len())
}

/// `PAR1`, and this record with the records of the groups as its own. Refused Limit only where the key of a group
/// cannot partition.
fn record_bytes(alloc: Global, meta: &FileMeta, keys: &[KeyColumn], groups: &Version) -> R<Vec<u8>>
    requires { EachKeepsWritten (file_meta_view meta.now) }
    ensures stands { let records = map (group_record (key_columns_view keys.now)) (groups_in groups.now) in
        IfOk result (λ bytes. AllByRecursion IsSized (groups_in groups.now) → AppendsStruct (file_meta_fields (record (file_meta_view meta.now) { row_groups = records })) magic bytes.items) }
    ensures limit { result ≡ Err Refusal.Limit → AllByRecursion (λ (g : GroupShown). CanPartition (key_columns_view keys.now) g.key) (groups_in groups.now) → ⊥ }
    ensures which { RefusedOnly (λ e. e ≡ Refusal.Limit) result }
{
    let mut bytes = Vec::from_slice(alloc, MAGIC)?;
    begin(alloc, meta, groups.len(), &mut bytes)?;
    put_groups(alloc, keys, groups, &mut bytes)?;
    meta.end(alloc, &mut bytes)?;
    Ok(bytes)
}

/// Begins a footer of this many groups, whose kept structs can be written. It fails only when out of memory.
fn begin(alloc: Global, meta: &FileMeta, groups: usize, out: &mut Vec<u8>) -> R<()>
    requires { EachKeepsWritten (file_meta_view meta.now) }
    ensures stands { OnOk result ((gs : List GroupMetaShown) → length gs ≡ groups
        → BeginsFooter (record (file_meta_view meta.now) { row_groups = gs }) [] out.old.items out.new.items) }
    ensures which { RefusedMemoryOnly result }
{
    meta.begin(alloc, groups, out)
}

/// The record of a root that has these fields besides the keys, these key columns, next number and groups, but without
/// the records of its groups. It fails only when out of memory.
fn record_of(
    alloc: Global,
    stored: &Schema,
    keys: &[KeyColumn],
    next: u64,
    groups: &Version,
) -> R<FileMeta>
    ensures record_is { IfOk result (λ meta. (root : Root) → IsDescription root → length root.groups < 262144 → IsRootOf root stored.now (key_columns_view keys.now) next (groups_in groups.now)
        → record (file_meta_view meta) { row_groups = map (group_record root.keys) root.groups } ≡ root_record root) }
    ensures keys_are { let columns = key_columns_view keys.now in OnOk result (IsKeysText (compact_text (keys_data columns)) columns) }
    ensures writable { IfOk result (λ meta. EachKeepsWritten (file_meta_view meta)) }
    ensures which { RefusedMemoryOnly result }
{
    let rows = rows_of(groups);
    let pairs = pairs_of(alloc, keys, next)?;
    let schema = copied_elements(alloc, stored.elements())?;
    let created_by = Vec::from_slice(alloc, CREATED_BY)?;
    let column_orders = type_orders(alloc, stored.leaves().len())?;
    Ok(FileMeta {
        version: Some(VERSION),
        schema,
        num_rows: Some(signed(rows)),
        row_groups: Vec::new(alloc),
        key_value_metadata: Some(pairs),
        created_by: Some(created_by),
        column_orders: Some(column_orders),
    })
}

/// The key columns and the next number, as a root keeps them.
fn pairs_of(alloc: Global, keys: &[KeyColumn], next: u64) -> R<Vec<KeyValue>>
    ensures pairs { let columns = key_columns_view keys.now in IfOk result (λ ps. (text : List ℕ) × IsKeysText text columns
        × (map key_value_view ps.items ≡ record { key = codes "pqds.keys"; value = Some text } ∷ record { key = codes "pqds.next"; value = Some (decimal next) } ∷ [])) }
    ensures which { RefusedMemoryOnly result }
{
    let keys = keys_to_text(alloc, keys)?;
    let next = next_to_text(alloc, next)?;
    let first = pair_of(alloc, KEYS, keys.as_bytes())?;
    let second = pair_of(alloc, NEXT, next.as_bytes())?;
    let mut pairs = Vec::with_capacity(alloc, 2)?;
    pairs.push(first)?;
    pairs.push(second)?;
    Ok(pairs)
}

fn pair_of(alloc: Global, key: &[u8], value: &[u8]) -> R<KeyValue>
    ensures pair { IfOk result (λ p. key_value_view p ≡ record { key = key.now; value = Some value.now }) }
    ensures which { RefusedMemoryOnly result }
{
    let key = Vec::from_slice(alloc, key)?;
    let value = Vec::from_slice(alloc, value)?;
    Ok(KeyValue {
        key,
        value: Some(value),
    })
}

/// The rows of the groups, added.
fn rows_of(groups: &Version) -> u64
    ensures { let n = sum_by (λ (g : GroupShown). g.known.rows) (groups_in groups.now) in n < 2 ^ 64 → result ≡ n }
{
    let mut sum: u64 = 0;
    for block in groups.blocks() {
        sum = sum.saturating_add(rows_in(block.groups.as_slice()));
    }
    sum
}

fn rows_in(groups: &[Rc<Group>]) -> u64
    ensures { let n = sum_by (λ (g : GroupShown). g.known.rows) (handles_view groups.now) in n < 2 ^ 64 → result ≡ n }
{
    let mut sum: u64 = 0;
    for group in groups {
        sum = sum.saturating_add(group.rows());
    }
    sum
}
