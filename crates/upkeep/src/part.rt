//! Whether a part file holds the rows of its group.

ghost use Rattle.std.specs.Prelude.{◌≡◌, ◌↔◌, [], ◌∷◌, pos, map, IsTrue, MatchOption, IfOk, IfSome};
ghost use Rattle.bits.specs.Refusals.{RefusedMemoryOnly};
ghost use Rattle.schema.specs.Fronts.{first_fields};
ghost use Rattle.metadata.specs.Views.{file_meta_view, group_meta_view};
ghost use Rattle.manifest.specs.Groups.{group_view};
ghost use Rattle.upkeep.specs.Intact.{HoldsRows};
ghost use Rattle.upkeep.specs.inner.Files.{IsRecorded, IsReadAs, IsGroupAs, HoldsAs, FillsColumns};

use crate::columns::{ColumnFault, fault_of_columns};
use crate::findings::Damage;
use crate::fronts::front_of;
use crate::records::first_other;
use bits::{R, Refusal};
use footer::{FileReader, read_footer};
use manifest::Group;
use metadata::{FileMeta, GroupMeta};
use row_group::one_meaning;
use schema::Schema;
use std::alloc::Global;

/// What is wrong with a part file, and which leaf is at fault, where it is one.
#[derive(Debug, Drop)]
pub struct Fault {
    pub damage: Damage,
    /// The index of the leaf at fault among the leaves of the table's files; None where the fault is the whole file's.
    pub leaf: Option<usize>,
}

impl Fault {
    /// A fault of the file as a whole.
    fn of_file(damage: Damage) -> Fault {
        Fault { damage, leaf: None }
    }

    /// A fault of one leaf's column.
    fn of_leaf(damage: Damage, leaf: usize) -> Fault {
        Fault {
            damage,
            leaf: Some(leaf),
        }
    }
}

/// What is wrong with the bytes of the part file of a group, in a table whose files have these fields. None only where
/// they hold the group: they are a Parquet file of just the fields that the group's file has, with one row group, whose chunk
/// records and number of rows are the group's; the pages fill their chunks, and the statistics are true of their values.
///
/// The bytes are decoded twice: as a file, and column by column. It fails only when out of memory.
pub fn fault_of_part(
    alloc: Global,
    stored: &Schema,
    group: &Group,
    bytes: &[u8],
) -> R<Option<Fault>>
    ensures holds { IfOk result (λ found. MatchOption found (HoldsRows stored.now (group_view group.now) bytes.now) (λ _. Unit {0})) }
    ensures which { RefusedMemoryOnly result }
{
    match read_footer(alloc, bytes) {
        Ok(meta) => fault_of_file(alloc, stored, group, bytes, &meta),
        Err(refusal) => refused(refusal),
    }
}

/// A refusal as a fault. It fails only when out of memory.
fn refused(refusal: Refusal) -> R<Option<Fault>>
    ensures some { IfOk result (λ found. MatchOption found ⊥ (λ _. Unit {0})) }
    ensures which { RefusedMemoryOnly result }
{
    match refusal {
        Refusal::Memory => Err(Refusal::Memory),
        refusal => Ok(Some(Fault::of_file(Damage::Refused(refusal)))),
    }
}

/// As [`fault_of_part`], of a file with this record in its footer.
fn fault_of_file(
    alloc: Global,
    stored: &Schema,
    group: &Group,
    bytes: &[u8],
    meta: &FileMeta,
) -> R<Option<Fault>>
    requires { IsRecorded bytes.now (file_meta_view meta.now) }
    ensures holds { IfOk result (λ found. MatchOption found (HoldsRows stored.now (group_view group.now) bytes.now) (λ _. Unit {0})) }
    ensures which { RefusedMemoryOnly result }
{
    match FileReader::new(alloc, bytes) {
        Ok(file) => fault_of_groups(alloc, stored, group, bytes, meta, file.schema()),
        Err(refusal) => refused(refusal),
    }
}

/// As [`fault_of_part`], of a file that was read and has this schema.
fn fault_of_groups(
    alloc: Global,
    stored: &Schema,
    group: &Group,
    bytes: &[u8],
    meta: &FileMeta,
    schema: &Schema,
) -> R<Option<Fault>>
    requires { IsReadAs bytes.now (file_meta_view meta.now) schema.now }
    ensures holds { IfOk result (λ found. MatchOption found (HoldsRows stored.now (group_view group.now) bytes.now) (λ _. Unit {0})) }
    ensures which { RefusedMemoryOnly result }
{
    if !has_first_fields(schema, stored, group.width) {
        return Ok(Some(Fault::of_file(Damage::Schema)));
    }
    match only_one(meta.row_groups.as_slice()) {
        Some(own) => fault_of_group(alloc, group, bytes, schema, own),
        None => Ok(Some(Fault::of_file(Damage::Groups(meta.row_groups.len())))),
    }
}

/// Whether a schema is that of the first fields of another one, so many.
fn has_first_fields(schema: &Schema, stored: &Schema, width: usize) -> bool
    ensures { IsTrue result → schema.now ≡ first_fields width stored.now }
{
    if schema.fields().len() != width {
        return false;
    }
    schema.is_front_of(stored)
}

/// The one of some groups, if it is the only one.
fn only_one(groups: &[GroupMeta]) -> Option<&GroupMeta>
    ensures { IfSome result (λ own. map group_meta_view groups.now ≡ group_meta_view own.now ∷ []) }
{
    match groups.split_first() {
        Some((own, others)) if others.is_empty() => Some(own),
        _ => None,
    }
}

/// As [`fault_of_part`], of a file that was read, has this schema, which is as it should be, and this one group.
fn fault_of_group(
    alloc: Global,
    group: &Group,
    bytes: &[u8],
    schema: &Schema,
    own: &GroupMeta,
) -> R<Option<Fault>>
    requires { IsGroupAs bytes.now schema.now (group_meta_view own.now) }
    ensures holds { IfOk result (λ found. MatchOption found (HoldsAs schema.now (group_view group.now) bytes.now) (λ _. Unit {0})) }
    ensures which { RefusedMemoryOnly result }
{
    one_meaning();
    if !has_rows(own, group.rows()) {
        return Ok(Some(Fault::of_file(Damage::Rows)));
    }
    let told = group.chunks.to_chunks(alloc)?;
    match first_other(own.columns.as_slice(), told.as_slice()) {
        Some(leaf) => Ok(Some(Fault::of_leaf(Damage::Record, leaf))),
        None => fault_in_columns(alloc, group, bytes, schema),
    }
}

/// The first fault of the columns of a group's file with this schema.
fn fault_in_columns(alloc: Global, group: &Group, bytes: &[u8], schema: &Schema) -> R<Option<Fault>>
    ensures fills { IfOk result (λ found. MatchOption found (FillsColumns schema.now (group_view group.now) bytes.now) (λ _. Unit {0})) }
    ensures which { RefusedMemoryOnly result }
{
    let (front, leaves) = (front_of(bytes), schema.leaves());
    let told = group.chunks.to_chunks(alloc)?;
    let (chunks, stats) = (told.as_slice(), group.stats.leaves.as_slice());
    match fault_of_columns(alloc, front, leaves, chunks, stats)? {
        Some(fault) => Ok(Some(of_columns(fault))),
        None => Ok(None),
    }
}

/// A fault of the columns, as one of the file.
fn of_columns(fault: ColumnFault) -> Fault {
    match fault {
        ColumnFault::Count => Fault::of_file(Damage::Schema),
        ColumnFault::Size(leaf) => Fault::of_leaf(Damage::Size, leaf),
        ColumnFault::Statistics(leaf) => Fault::of_leaf(Damage::Statistics, leaf),
    }
}

/// Whether the record of a group says this number of rows.
fn has_rows(own: &GroupMeta, rows: u64) -> bool
    ensures { IsTrue result → (group_meta_view own.now).num_rows ≡ pos rows }
{
    let number = own.num_rows;
    number >= 0 && number as u64 == rows
}
