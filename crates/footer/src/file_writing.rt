//! From rows to the bytes of a file.

ghost use Rattle.std.specs.Prelude.{◌≡◌, List, map, length, true, false, IfOk, OnOk, Err};
ghost use Rattle.std.specs.List.{AllByRecursion};
ghost use Rattle.std.specs.Prelude.{◌⊎◌};
ghost use Rattle.bits.specs.Refusals.{OnFault, RefusedOnly};
ghost use Rattle.schema.specs.Fits.{RowsFit};
ghost use Rattle.schema.specs.Views.{rows_view};
ghost use Rattle.metadata.specs.Views.{group_meta_view};
ghost use Rattle.row_group.specs.Writing.{AreTaken, IsOfRows};
ghost use Rattle.footer.specs.Faults.{IsOverLimit};
ghost use Rattle.footer.specs.File.{magic, FileMeans};
ghost use Rattle.footer.specs.Own.{AppendsGroups, IsLaidOut};
ghost use Rattle.footer.specs.Writing.{chunk_options, groups_of, IsOutOfRange, IsTooMuch, IsTaken};

use crate::footer_record::record_of;
use crate::footer_writing::with_footer;
use crate::limits::{MAGIC, MOST_GROUP_ROWS};
use crate::options::WriteOptions;
use bits::{R, Refusal};
use metadata::{GroupMeta, one_footer};
use row_group::{an_appended_group_has_its_rows, an_appended_group_is_within_limits, write_group};
use schema::{Row, Schema, a_list_means_one_schema};
use std::alloc::Global;

/// Whether the options are refused, whatever the rows: a number of rows in a group outside 1 to 16,777,216, pages of no rows, a
/// version other than 1 and 2.
pub fn is_out_of_range(options: &WriteOptions) -> bool
    ensures within { result ≡ false → IsOutOfRange options.now → ⊥ }
    ensures out { result ≡ true → IsOutOfRange options.now }
{
    options.group_rows == 0
        || options.group_rows > MOST_GROUP_ROWS
        || options.page_rows == 0
        || (options.page_version != 1 && options.page_version != 2)
}

/// The bytes of a file that means these rows of this schema (parquet-format, README.md, "File
/// format"): `PAR1`, the row groups, each with a chunk for each leaf in the order of the leaves, the
/// footer, its length, and `PAR1`, each right after the other. The rows are borrowed.
///
/// A group has `group_rows` rows, the last one the rest; so no rows make no group. Chunks and their pages are
/// as [`write_group`] writes them. The footer names its writer `pqds`, and the order of each column as its
/// type's.
///
/// Refused RowShape only where a row does not fit the schema. Refused Limit only for options out of range (a
/// number of rows in a group outside 1 to 16,777,216, pages of no rows, a version other than 1 and 2), for a
/// value of more than 16 MiB, for more than 16,777,216 entries in a column of a group, and where the footer is
/// longer than 16 MiB, or the file than 2^31 - 1 bytes, which comes only where it weighs more. Where several
/// are so, any of them may come.
///
/// The time is linear in the rows, the schema, and the bytes of both. Apart from the rows and the file, the
/// entries of one group stand in memory at a time.
pub fn write_file(
    alloc: Global,
    schema: &Schema,
    options: &WriteOptions,
    rows: &[Row],
) -> R<Vec<u8>>
    ensures means { IfOk result (λ file. FileMeans file.items schema.now (rows_view rows.now)) }
    ensures laid_out { IfOk result (λ file. IsLaidOut options.now schema.now (rows_view rows.now) file.items) }
    ensures readable { IfOk result (λ file. IsTaken options.now.group_rows schema.now (rows_view rows.now) file.items) }
    ensures within_limits { IfOk result (λ file. IsOverLimit file.items → ⊥) }
    ensures options { OnOk result (IsOutOfRange options.now → ⊥) }
    ensures only { OnFault result (RowsFit schema.now (rows_view rows.now) → ⊥) }
    ensures limit { result ≡ Err Refusal.Limit → IsOutOfRange options.now ⊎ IsTooMuch schema.now options.now (rows_view rows.now) }
    ensures which { RefusedOnly IsOfRows result }
{
    an_appended_group_has_its_rows();
    an_appended_group_is_within_limits();
    one_footer();
    a_list_means_one_schema();
    if is_out_of_range(options) {
        return Err(Refusal::Limit);
    }
    let mut front = Vec::from_slice(alloc, MAGIC)?;
    let groups = write_groups(alloc, schema, options, rows, &mut front)?;
    let record = record_of(alloc, schema, rows.len(), groups)?;
    with_footer(alloc, front, &record)
}

/// Writes the rows after the magic, in groups of as many as the options say, and returns the groups' records.
fn write_groups(
    alloc: Global,
    schema: &Schema,
    options: &WriteOptions,
    rows: &[Row],
    out: &mut Vec<u8>,
) -> R<Vec<GroupMeta>>
    requires in_range { IsOutOfRange options.now → ⊥ }
    requires begun { out.old.items ≡ magic }
    ensures stands { let groups = groups_of options.now.group_rows (rows_view rows.now) in
        IfOk result (λ gs. AppendsGroups schema.now (chunk_options options.now) magic out.new.items (map group_meta_view gs.items) groups) }
    ensures readable { OnOk result (AllByRecursion (AreTaken schema.now) (groups_of options.now.group_rows (rows_view rows.now))) }
    ensures only { OnFault result (RowsFit schema.now (rows_view rows.now) → ⊥) }
    ensures limit { result ≡ Err Refusal.Limit → IsTooMuch schema.now options.now (rows_view rows.now) }
    ensures which { RefusedOnly IsOfRows result }
{
    let size = options.group_rows as usize;
    let chunk_options = options.of_chunks();
    let mut groups = Vec::new(alloc);
    let mut rest = rows;
    while !rest.is_empty() {
        let (group, others) = rest.split_at(size.min(rest.len()));
        let meta = write_group(alloc, schema, chunk_options, group, out)?;
        groups.push(meta)?;
        rest = others;
    }
    Ok(groups)
}
