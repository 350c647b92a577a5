//! What `decode` refuses of a file.

ghost use Rattle.std.specs.Prelude.{◌≡◌, ◌⊎◌, ℕ, [], Some, map, take, Contains, IsTrue, IfOk, OnOk, IfSome};
ghost use Rattle.bits.specs.Refusals.{IsFault};
ghost use Rattle.bits.specs.Codec.{NothingStands};
ghost use Rattle.schema.specs.Views.{leaf_view};
ghost use Rattle.metadata.specs.Views.{column_meta_view, group_meta_view};
ghost use Rattle.row_group.specs.Chunks.{ChunkMeans};
ghost use Rattle.reports.specs.declared.inspect_report.Problem.{Problem};
ghost use Rattle.reports.specs.Verdict.{CanBeRead, KeepsProblems, IsOfGroup, OnlyOfGroup, NamesGroup, OnlyOfUnread};

use crate::inspect_chunks::path_of;
use crate::inspect_names::{codec_name, name_or_number};
use crate::inspect_report::Problem;
use crate::pages_fault::what_of_pages;
use crate::verdict::refusal_of_group;
use bits::{R, Refusal};
use metadata::{ChunkMeta, ColumnMeta, FileMeta, GroupMeta};
use row_group::{ChunkReader, MOST_ROWS_OF_GROUP};
use schema::{Leaf, Schema};
use std::alloc::{AllocError, Global};

/// The number of the codec of chunks that are stored as they are (`parquet.thrift`, CompressionCodec).
const UNCOMPRESSED: i32 = 0;

/// How many problems are named.
const MOST_PROBLEMS: usize = 100;

/// How many characters of a column's path a problem shows. The path of an honest file is shorter.
const MOST_CHARACTERS: usize = 1_000;

/// The problems that were found, at most [`MOST_PROBLEMS`].
#[derive(Drop)]
pub struct Problems {
    alloc: Global,
    pub found: Vec<Problem>,
}

impl Problems {
    /// No problems so far.
    pub fn new(alloc: Global) -> Problems
        ensures { result.found.items ≡ [] }
    {
        Problems {
            alloc,
            found: Vec::new(alloc),
        }
    }

    /// Adds a problem, unless [`MOST_PROBLEMS`] were found.
    fn add(
        &mut self,
        column: Option<&str>,
        group: Option<usize>,
        what: String,
    ) -> Result<(), AllocError>
        ensures keeps { KeepsProblems self.old.found.items self.new.found.items }
        ensures only { (k : ℕ) → group ≡ Some k → OnlyOfGroup k self.old.found.items self.new.found.items }
        ensures named { (k : ℕ) → group ≡ Some k → OnOk result (NamesGroup k self.new.found.items) }
        ensures some { OnOk result (self.new.found.items ≡ [] → ⊥) }
    {
        if self.found.len() >= MOST_PROBLEMS {
            return Ok(());
        }
        let column = match column {
            Some(column) => Some(named_shortly(self.alloc, column)?),
            None => None,
        };
        self.found.push(Problem {
            column,
            group,
            what,
        })?;
        Ok(())
    }

    /// Adds a problem of the schema: why it is refused.
    fn add_of_schema(&mut self, refusal: &Refusal) -> Result<(), AllocError> {
        let what = match refusal {
            Refusal::Float(path) => {
                let what = String::from_str(self.alloc, "FLOAT, DOUBLE and FLOAT16 are not read")?;
                return self.add(Some(path.as_str()), None, what);
            }
            Refusal::Int96(path) => {
                let what = String::from_str(self.alloc, "INT96 is not read")?;
                return self.add(Some(path.as_str()), None, what);
            }
            Refusal::Limit =>
                "the schema has more than 1024 columns, or more than 32 fields on a path",
            _ => "the schema's list is no valid tree of named fields",
        };
        let what = String::from_str(self.alloc, what)?;
        self.add(None, None, what)
    }

    /// Adds the problems of a group that is refused: of its numbers, or of its chunks; why it is refused where none is found.
    fn add_of_group(
        &mut self,
        front: &[u8],
        place: usize,
        group: &GroupMeta,
        leaves: &[Leaf],
        refusal: &Refusal,
    ) -> Result<(), AllocError>
        ensures keeps { KeepsProblems self.old.found.items self.new.found.items }
        ensures only { OnlyOfGroup place self.old.found.items self.new.found.items }
        ensures named { OnOk result (NamesGroup place self.new.found.items) }
    {
        if let Some(what) = what_of_group(group, leaves) {
            let what = String::from_str(self.alloc, what)?;
            return self.add(None, Some(place), what);
        }
        if self.add_of_chunks(front, place, group.columns.as_slice(), leaves)? {
            return Ok(());
        }
        let what = what_of_refusal(self.alloc, refusal)?;
        self.add(None, Some(place), what)
    }

    /// Adds the problems of the chunks of a group, at most one of each. Returns whether there are any.
    fn add_of_chunks(
        &mut self,
        front: &[u8],
        place: usize,
        chunks: &[ChunkMeta],
        leaves: &[Leaf],
    ) -> Result<bool, AllocError>
        ensures keeps { KeepsProblems self.old.found.items self.new.found.items }
        ensures only { OnlyOfGroup place self.old.found.items self.new.found.items }
        ensures named { IfOk result (λ some. IsTrue some → NamesGroup place self.new.found.items) }
    {
        let mut has_problems = false;
        for at in 0..chunks.len() {
            let chunk = &chunks[at];
            if let Some(what) = what_of_chunk(self.alloc, front, chunk, leaves.get(at))? {
                let column = path_of(self.alloc, &chunk.meta_data)?;
                self.add(Some(column.as_str()), Some(place), what)?;
                has_problems = true;
            }
        }
        Ok(has_problems)
    }

    /// Adds the problems of a group, if `decode` refuses it.
    fn add_if_refused(
        &mut self,
        front: &[u8],
        place: usize,
        group: &GroupMeta,
        schema: &Schema,
    ) -> Result<(), AllocError>
        ensures keeps { KeepsProblems self.old.found.items self.new.found.items }
        ensures only { (p : Problem) → Contains self.new.found.items p
            → Contains self.old.found.items p ⊎ (IsOfGroup place p × (CanBeRead front.now schema.now (group_meta_view group.now) → ⊥)) }
        ensures named { OnOk result ((CanBeRead front.now schema.now (group_meta_view group.now) → ⊥) → NamesGroup place self.new.found.items) }
    {
        match refusal_of_group(self.alloc, front, group, schema)? {
            Some(refusal) => self.add_of_group(front, place, group, schema.leaves(), &refusal),
            None => Ok(()),
        }
    }

    /// Adds the problems of the group at a place, if `decode` refuses it.
    fn add_at(
        &mut self,
        front: &[u8],
        groups: &[GroupMeta],
        place: usize,
        schema: &Schema,
    ) -> Result<(), AllocError>
        ensures only { OnlyOfUnread front.now schema.now (map group_meta_view groups.now) self.old.found.items self.new.found.items }
    {
        if place < groups.len() {
            return self.add_if_refused(front, place, &groups[place], schema);
        }
        Ok(())
    }

    /// Adds the problems of each of the groups at these places that `decode` refuses, and of no other group.
    fn add_of_groups(
        &mut self,
        front: &[u8],
        groups: &[GroupMeta],
        schema: &Schema,
        places: &[usize],
    ) -> Result<(), AllocError>
        ensures only { OnlyOfUnread front.now schema.now (map group_meta_view groups.now) self.old.found.items self.new.found.items }
    {
        for place in places {
            self.add_at(front, groups, *place, schema)?;
        }
        Ok(())
    }

    /// Adds a problem for each chunk that is compressed.
    fn add_of_codecs(&mut self, groups: &[GroupMeta]) -> Result<(), AllocError> {
        for (place, group) in groups.iter().enumerate() {
            for chunk in &group.columns {
                if chunk.meta_data.codec != UNCOMPRESSED {
                    let what = what_of_codec(self.alloc, chunk)?;
                    let column = path_of(self.alloc, &chunk.meta_data)?;
                    self.add(Some(column.as_str()), Some(place), what)?;
                }
            }
        }
        Ok(())
    }
}

/// A column's path; of one with more than [`MOST_CHARACTERS`] only so many, and then how many bytes it has. Each problem
/// has its own, so a path of megabytes would be repeated for each of them.
fn named_shortly(alloc: Global, path: &str) -> Result<String, AllocError> {
    if path.chars().nth(MOST_CHARACTERS).is_none() {
        return String::from_str(alloc, path);
    }
    let start: String = path.chars().take(MOST_CHARACTERS).collect(alloc)?;
    let bytes = path.len();
    format!(in alloc; "{start}.. ({bytes} bytes)")
}

/// What `decode` refuses of a file, in the order of these places of groups; `schema` is what its list of elements is read as, and
/// `front` has the bytes before the footer. The groups at these places are read as `decode` reads them, and only those that it
/// refuses have a problem. Where the schema is refused no group is read, and a problem is named of it and of each compressed chunk.
pub fn problems_of(
    alloc: Global,
    front: &[u8],
    meta: &FileMeta,
    schema: &R<Schema>,
    places: &[usize],
) -> Result<Vec<Problem>, AllocError> {
    let groups = meta.row_groups.as_slice();
    match schema {
        Ok(schema) => problems_of_groups(alloc, front, groups, schema, places),
        Err(refusal) => problems_of_schema(alloc, groups, refusal),
    }
}

/// What `decode` refuses of the groups at these places, in a file of this schema.
fn problems_of_groups(
    alloc: Global,
    front: &[u8],
    groups: &[GroupMeta],
    schema: &Schema,
    places: &[usize],
) -> Result<Vec<Problem>, AllocError>
    ensures only { IfOk result (λ found. OnlyOfUnread front.now schema.now (map group_meta_view groups.now) [] found.items) }
{
    let mut problems = Problems::new(alloc);
    problems.add_of_groups(front, groups, schema, places)?;
    Ok(problems.found)
}

/// What `decode` refuses of a file whose schema is refused so.
fn problems_of_schema(
    alloc: Global,
    groups: &[GroupMeta],
    refusal: &Refusal,
) -> Result<Vec<Problem>, AllocError> {
    let mut problems = Problems::new(alloc);
    problems.add_of_schema(refusal)?;
    problems.add_of_codecs(groups)?;
    Ok(problems.found)
}

/// Whether the footer raises a suspicion that `decode` refuses a group: by its numbers.
pub fn is_suspect(group: &GroupMeta, leaves: &[Leaf]) -> bool {
    what_of_group(group, leaves).is_some()
}

/// Whether the footer raises a suspicion that `decode` refuses a chunk: by its record. Refused only when out of memory.
pub fn is_suspect_chunk(
    alloc: Global,
    meta: &ColumnMeta,
    leaf: Option<&Leaf>,
) -> Result<bool, AllocError> {
    match leaf {
        Some(leaf) => Ok(refusal_of(alloc, &[], meta, leaf)?.is_some()),
        None => Ok(true),
    }
}

/// Why a group or a file is refused, where no chunk of it is by itself.
pub fn what_of_refusal(alloc: Global, refusal: &Refusal) -> Result<String, AllocError> {
    match refusal {
        Refusal::Levels => String::from_str(
            alloc,
            "its columns have no rows in common, or not as many as it says",
        ),
        _ => format!(in alloc; "it is refused {refusal}"),
    }
}

/// What is refused of a group's numbers, if something is.
fn what_of_group(group: &GroupMeta, leaves: &[Leaf]) -> Option<&'static str> {
    if !leaves.is_empty() && group.columns.len() != leaves.len() {
        return Some("it has not one chunk for each column");
    }
    if group.num_rows < 0 {
        return Some("its number of rows is negative");
    }
    if group.num_rows > MOST_ROWS_OF_GROUP {
        return Some("it has more than 16777216 rows");
    }
    None
}

/// Why the reader refuses the record of a chunk of this leaf, if it does. Refused only when out of memory.
fn refusal_of(
    alloc: Global,
    front: &[u8],
    meta: &ColumnMeta,
    leaf: &Leaf,
) -> Result<Option<Refusal>, AllocError>
    ensures { IfOk result (λ found. IfSome found (λ e. IsFault e → NothingStands (ChunkMeans (column_meta_view meta.now) (leaf_view leaf.now) front.now))) }
{
    match ChunkReader::new(alloc, front, meta, leaf) {
        Ok(_) => Ok(None),
        Err(Refusal::Memory) => Err(AllocError),
        Err(refusal) => Ok(Some(refusal)),
    }
}

/// What is refused of a chunk, if something is: where it is, its record, or its pages.
fn what_of_chunk(
    alloc: Global,
    front: &[u8],
    chunk: &ChunkMeta,
    leaf: Option<&Leaf>,
) -> Result<Option<String>, AllocError> {
    let Some(leaf) = leaf else {
        return Ok(None);
    };
    if chunk.file_path.is_some() {
        return Ok(Some(String::from_str(alloc, "the pages are in another file")?));
    }
    match refusal_of(alloc, &[], &chunk.meta_data, leaf)? {
        Some(refusal) => Ok(Some(what_of_record(alloc, chunk, &refusal)?)),
        None => what_of_pages(alloc, front, &chunk.meta_data, leaf),
    }
}

/// What is said of a chunk that is compressed.
fn what_of_codec(alloc: Global, chunk: &ChunkMeta) -> Result<String, AllocError> {
    let number = chunk.meta_data.codec;
    let codec = name_or_number(alloc, codec_name(number), number)?;
    format!(in alloc; "codec {codec} is not read")
}

/// What is said of the record of a chunk that is refused so.
fn what_of_record(
    alloc: Global,
    chunk: &ChunkMeta,
    refusal: &Refusal,
) -> Result<String, AllocError> {
    let what = match refusal {
        Refusal::Codec => return what_of_codec(alloc, chunk),
        Refusal::Schema => "the chunk is of another column than the schema's, or of another type",
        Refusal::Limit => "the chunk has more than 16777216 entries",
        _ => "the chunk's number of entries is negative",
    };
    String::from_str(alloc, what)
}
