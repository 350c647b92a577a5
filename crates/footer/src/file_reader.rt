//! From the bytes of a file to its schema and its rows.

ghost use Rattle.std.specs.Prelude.{◌≡◌, ◌↔◌, List, map, Contains, IfOk, OnOk, IfErr, IsTrue};
ghost use Rattle.bits.specs.Refusals.{OnFault};
ghost use Rattle.schema.specs.Values.{ValueTrees};
ghost use Rattle.schema.specs.Shape.{Fields};
ghost use Rattle.schema.specs.Views.{rows_view};
ghost use Rattle.metadata.specs.Views.{group_meta_view};
ghost use Rattle.footer.specs.File.{LiesHere, GroupsMean, FileMeans};
ghost use Rattle.footer.specs.Faults.{HasGroupsFault, IsOverLimit, HasFault};
ghost use Rattle.footer.specs.FirstRows.{MeansFirstRows, IsFirstOverLimit, HasFirstFault};

use crate::first_groups::first_groups;
use crate::footer_reading::parts_and_record;
use crate::groups::check_groups;
use crate::groups_left::GroupsLeft;
use crate::rows::Rows;
use bits::R;
use metadata::GroupMeta;
use schema::{Row, Schema, a_list_means_one_schema};
use std::alloc::Global;
use std::marker::Model;

/// A file that was accepted, or its first groups: all of it, or of them, was read and checked, and its rows can be taken one by
/// one. A clause sees the bytes before the footer, the schema and the records of the groups that were accepted.
#[derive(Drop)]
pub struct FileReader<'a> {
    /// The bytes before the footer.
    front: &'a [u8],
    groups: Vec<GroupMeta>,
    schema: Schema,
}

impl<'a> Model for FileReader<'a> {
    ghost use Rattle.std.specs.Prelude.{map};
    ghost use Rattle.metadata.specs.Views.{group_meta_view};
    ghost use Rattle.footer.specs.Held.{FileGroups, AreAccepted};
    ghost use Rattle.footer.specs.inner.Code.{file_groups_code};

    ghost Value = { FileGroups };

    ghost coded = { file_groups_code };

    ghost view = { λ f. record { front = f.front.now; schema = f.schema; groups = map group_meta_view f.groups.items } };

    ghost invariant = { λ f. AreAccepted f.front.now f.schema (map group_meta_view f.groups.items) };
}

impl<'a> FileReader<'a> {
    ghost use Rattle.footer.specs.Left.{rows_of_file, rows_stand};

    /// Accepts the bytes of a file, or refuses them.
    ///
    /// Every page of every column is read and checked, and the rows are counted, so that a row
    /// is later refused only for memory. What the footer says beside its schema, its groups and their
    /// chunks' places is not looked at: key-values, statistics, indexes, sizes, the file's number of rows.
    /// Time is linear in the bytes of the file and in the entries of all its chunks, with their bytes:
    /// chunks may share bytes, so these can be more. Kept at a time are one page of each column of a group,
    /// and a row.
    ///
    /// Refused, where the bytes mean no rows: Truncated, Magic, Thrift and Limit as [`read_footer`] is;
    /// Schema where the list of elements is no schema, or a group's chunks are not those of its leaves;
    /// Codec for a compressed chunk; Float and Int96, with the column's path, for columns of these types;
    /// Encoding for an encoding that is not known, or not for the column's type; Page for sizes, offsets and
    /// counts that cannot be, and for a chunk in another file; Levels where no rows have the levels of the
    /// columns, or not as many as the group says; Truncated also for values whose bytes end early; Value for
    /// bytes that are no value in their encoding; Utf8 for text that is not UTF-8.
    /// Refused Limit where a number is above its limit: 1,024 leaves, 32 fields on a path, 16,777,216 rows in
    /// a group and entries in a chunk, 16 MiB for a value. No file is accepted that goes beyond a limit.
    /// Where there are several faults one of them is returned. (parquet-format, README.md, "File format".)
    ///
    /// [`read_footer`]: crate::read_footer
    pub fn new(alloc: Global, bytes: &'a [u8]) -> R<FileReader<'a>>
        ensures stands { IfOk result (λ file. (rows : List ValueTrees) × FileMeans bytes.now file.schema rows × rows_of_file file rows) }
        ensures alone { IfOk result (λ file. (fs : Fields) (rows : List ValueTrees) → FileMeans bytes.now fs rows
            → (fs ≡ file.schema) × rows_of_file file rows) }
        ensures within_limits { OnOk result (IsOverLimit bytes.now → ⊥) }
        ensures only { OnFault result ((fs : Fields) (rows : List ValueTrees) → FileMeans bytes.now fs rows → ⊥) }
        ensures which { IfErr result (HasFault bytes.now) }
    {
        a_list_means_one_schema();
        let (front, record) = parts_and_record(alloc, bytes)?;
        let schema = Schema::new(alloc, record.schema.as_slice())?;
        check_groups(alloc, front, record.row_groups.as_slice(), &schema)?;
        Ok(FileReader {
            front,
            groups: record.row_groups,
            schema,
        })
    }

    /// Accepts the first groups of a file that have `count` rows together by their records, or all groups where they have fewer;
    /// or refuses the file.
    ///
    /// The file then has the rows of these groups, which begin with its first `count` rows. These groups, and the footer, are read
    /// and checked as by [`new`](FileReader::new). The groups after them are neither read nor checked, whatever their bytes are.
    ///
    /// Refused as `new`, for faults of the footer, of the schema and of these groups.
    pub fn of_first_rows(alloc: Global, bytes: &'a [u8], count: u64) -> R<FileReader<'a>>
        ensures stands { IfOk result (λ file. (rows : List ValueTrees) × MeansFirstRows count bytes.now file.schema rows × rows_of_file file rows) }
        ensures alone { IfOk result (λ file. (fs : Fields) (rows : List ValueTrees) → MeansFirstRows count bytes.now fs rows
            → (fs ≡ file.schema) × rows_of_file file rows) }
        ensures within_limits { OnOk result (IsFirstOverLimit count bytes.now → ⊥) }
        ensures only { OnFault result ((fs : Fields) (rows : List ValueTrees) → MeansFirstRows count bytes.now fs rows → ⊥) }
        ensures which { IfErr result (HasFirstFault count bytes.now) }
    {
        a_list_means_one_schema();
        let (front, record) = parts_and_record(alloc, bytes)?;
        let schema = Schema::new(alloc, record.schema.as_slice())?;
        let groups = first_groups(record.row_groups, count);
        check_groups(alloc, front, groups.as_slice(), &schema)?;
        Ok(FileReader {
            front,
            groups,
            schema,
        })
    }

    /// The schema of the file.
    pub fn schema(&self) -> &Schema
        ensures { result.now ≡ self.now.schema }
    {
        &self.schema
    }

    /// The rows of the groups that were accepted, from the first one. Nothing is read yet.
    pub fn rows(&self, alloc: Global) -> Rows<'_>
        ensures { (rows : List ValueTrees) → rows_of_file self.now rows → rows_stand result rows }
    {
        Rows {
            alloc,
            others: GroupsLeft::new(self.front, &self.schema, self.groups.as_slice()),
            group: None,
        }
    }
}

/// The schema and the rows of a file, which are all kept. Refused as [`FileReader::new`] is, by which they
/// are made. (parquet-format, README.md, "File format".)
pub fn read_file(alloc: Global, bytes: &[u8]) -> R<(Schema, Vec<Row>)>
    ensures stands { IfOk result (λ x. FileMeans bytes.now x.0 (rows_view x.1.items)) }
    ensures alone { IfOk result (λ x. (fs : Fields) (rows : List ValueTrees) → FileMeans bytes.now fs rows → (fs ≡ x.0) × (rows ≡ rows_view x.1.items)) }
    ensures within_limits { OnOk result (IsOverLimit bytes.now → ⊥) }
    ensures only { OnFault result ((fs : Fields) (rows : List ValueTrees) → FileMeans bytes.now fs rows → ⊥) }
    ensures which { IfErr result (HasFault bytes.now) }
{
    let file = FileReader::new(alloc, bytes)?;
    let rows = file.rows(alloc).collected()?;
    Ok((file.schema, rows))
}
