//! What a file is, by its footer and its page headers.

ghost use Rattle.std.specs.Prelude.{◌≡◌, ◌↔◌, IfOk, OnOk, IfErr, List, ℕ, None};
ghost use Rattle.metadata.specs.Records.{FileMeta as FileRecord};
ghost use Rattle.footer.specs.File.{IsFile};
ghost use Rattle.bits.specs.Refusals.{RefusedMemoryOnly};
ghost use Rattle.footer.specs.Faults.{HasFooterFault};
ghost use Rattle.reports.specs.Verdict.{IsAccepted};

use crate::byte_source::{ByteSource, WholeBytes};
use crate::ends::{bytes_before_footer, footer_length};
use crate::inspect_chunks::{GroupSeen, group_of};
use crate::inspect_pages::MOST_PAGES;
use crate::inspect_problems::{problems_of, what_of_refusal};
use crate::inspect_report::{FileReport, GroupReport, KeyValueReport, Problem};
use crate::inspect_schema::{fields_of, shown, shown_where_given};
use crate::inspect_text::{problem_text, text_of_report};
use crate::verdict::refusal_of_file;
use bits::{R, Refusal};
use footer::{MOST_BYTES_OF_FILE, MOST_BYTES_OF_FOOTER, read_footer};
use metadata::{FileMeta, GroupMeta};
use schema::{Leaf, Schema};
use std::alloc::{AllocError, Global};

/// What a file is, as text for a person or as a line of JSON. Only the footer and the page headers are read, and
/// no value, but for the groups that `decode` may refuse by these: they are read as `decode` reads them. Refused as [`read_footer`] is. Time is linear in the footer and in the page headers that are listed, at
/// most [`MOST_PAGES`]; no memory is asked for by an announced number.
pub fn report_text(alloc: Global, bytes: &[u8], as_json: bool) -> R<Vec<u8>>
    ensures stands { IfOk result (λ text. (front : List ℕ) × (meta : FileRecord) × IsFile bytes.now front meta) }
    ensures which { IfErr result (HasFooterFault bytes.now) }
{
    let mut source = WholeBytes::new(bytes);
    let text = report_by_ends(alloc, bytes, &mut source, as_json)?;
    Ok(text?)
}

/// What a file is as [`report_text`], where not all of its bytes are there: `ends` are the bytes of a file that has its footer
/// ([`ends_of`](crate::ends_of)), and the page headers are read from `source`. Of a group that `decode` may refuse for its pages
/// all is read that is before the footer. Refused as [`read_footer`] refuses the ends; its own result fails where memory is
/// refused, or the source cannot be read.
pub fn report_by_ends<S: ByteSource>(
    alloc: Global,
    ends: &[u8],
    source: &mut S,
    as_json: bool,
) -> R<Result<Vec<u8>, S::Fault>>
    ensures stands { OnOk result ((front : List ℕ) × (meta : FileRecord) × IsFile ends.now front meta) }
    ensures which { IfErr result (HasFooterFault ends.now) }
{
    let record = read_footer(alloc, ends)?;
    let footer_bytes = footer_length(ends).unwrap_or(0);
    Ok(text_of(alloc, source, footer_bytes, &record, as_json))
}

/// What is said of a file with this footer, as text.
fn text_of<S: ByteSource>(
    alloc: Global,
    source: &mut S,
    footer_bytes: usize,
    record: &FileMeta,
    as_json: bool,
) -> Result<Vec<u8>, S::Fault> {
    let report = report_of(alloc, source, footer_bytes, record)?;
    let text = if as_json {
        json_of_report(alloc, &report)?
    } else {
        text_of_report(alloc, &report)?
    };
    Ok(text)
}

/// What is wrong with the bytes of a file, and where: the first of its problems, as a sentence. None exactly where `decode`
/// accepts the file. It fails only when out of memory.
pub fn first_problem(alloc: Global, bytes: &[u8]) -> R<Option<String>>
    ensures verdict { IfOk result (λ found. (found ≡ None) ↔ IsAccepted bytes.now) }
    ensures which { RefusedMemoryOnly result }
{
    match refusal_of_file(alloc, bytes)? {
        Some(refusal) => Ok(Some(what_of_bytes(alloc, bytes, &refusal)?)),
        None => Ok(None),
    }
}

/// What is wrong with the bytes of a file that is refused so. It fails only when out of memory.
fn what_of_bytes(alloc: Global, bytes: &[u8], refusal: &Refusal) -> Result<String, AllocError> {
    match read_footer(alloc, bytes) {
        Ok(record) => what_of_file(alloc, bytes, &record, refusal),
        Err(Refusal::Memory) => Err(AllocError),
        Err(frame) => footer_problem(alloc, bytes, bytes.len(), &frame),
    }
}

/// What is wrong with a file with this footer that is refused so: the first problem of its schema and its groups.
fn what_of_file(
    alloc: Global,
    bytes: &[u8],
    record: &FileMeta,
    refusal: &Refusal,
) -> Result<String, AllocError> {
    let schema = schema_of(alloc, record)?;
    let front = front_of(bytes);
    let mut places = Vec::new(alloc);
    for place in 0..record.row_groups.len() {
        places.push(place)?;
    }
    let problems = problems_of(alloc, front, record, &schema, places.as_slice())?;
    match problems.first() {
        Some(problem) => problem_text(alloc, problem),
        None => what_of_refusal(alloc, refusal),
    }
}

/// What is wrong with a file of so many bytes whose footer is refused so; `ends` are the bytes of a file that has its footer
/// ([`ends_of`](crate::ends_of)). It fails only when out of memory.
pub fn footer_problem(
    alloc: Global,
    ends: &[u8],
    length: usize,
    refusal: &Refusal,
) -> Result<String, AllocError> {
    let footer = footer_length(ends).unwrap_or(0);
    match refusal {
        Refusal::Magic => String::from_str(
            alloc,
            "it does not begin and end with PAR1: no Parquet file, one that was cut, or an encrypted one",
        ),
        Refusal::Truncated if length < 12 => format!(in alloc;
            "it has {length} bytes, and a Parquet file has 12 at least"
        ),
        Refusal::Truncated => format!(in alloc;
            "it is cut: it has {length} bytes, and its footer of {footer} ends early"
        ),
        Refusal::Limit if length > MOST_BYTES_OF_FILE => format!(in alloc;
            "it has {length} bytes, of {MOST_BYTES_OF_FILE} at most"
        ),
        Refusal::Limit => format!(in alloc;
            "its footer has {footer} bytes, of {MOST_BYTES_OF_FOOTER} at most"
        ),
        _ => String::from_str(alloc, "its footer is no struct of the wanted shape"),
    }
}

/// The bytes of a file before its footer.
fn front_of(bytes: &[u8]) -> &[u8] {
    let end = bytes_before_footer(bytes.len(), footer_length(bytes).unwrap_or(0));
    bytes.get(..end).unwrap_or(&[])
}

/// The keys of a footer.
fn key_values_of(alloc: Global, record: &FileMeta) -> Result<Vec<KeyValueReport>, AllocError> {
    let mut shown_keys = Vec::new(alloc);
    if let Some(keys) = &record.key_value_metadata {
        for key in keys {
            shown_keys.push(KeyValueReport {
                key: shown(alloc, key.key.as_slice())?,
                value: shown_where_given(alloc, &key.value)?,
            })?;
        }
    }
    Ok(shown_keys)
}

/// The schema that a footer's list of elements is, or why it is refused. Refused only when out of memory.
fn schema_of(alloc: Global, record: &FileMeta) -> Result<R<Schema>, AllocError> {
    match Schema::new(alloc, record.schema.as_slice()) {
        Err(Refusal::Memory) => Err(AllocError),
        read => Ok(read),
    }
}

/// The leaves of a schema; none where it is refused.
fn leaves_of(schema: &R<Schema>) -> &[Leaf] {
    match schema {
        Ok(schema) => schema.leaves(),
        Err(_) => &[],
    }
}

/// The groups of a file as far as they were looked at.
#[derive(Drop)]
struct GroupsSeen {
    groups: Vec<GroupReport>,
    /// The places of those that raise a suspicion that `decode` refuses them.
    suspects: Vec<usize>,
    /// Whether pages have to be read to say what it refuses of them.
    need_pages: bool,
    /// How many more pages may be listed.
    room: usize,
}

impl GroupsSeen {
    /// Adds the group at a place.
    fn add(&mut self, place: usize, group: &GroupMeta, seen: GroupSeen) -> Result<(), AllocError> {
        if seen.is_suspect() {
            self.suspects.push(place)?;
        }
        self.need_pages = self.need_pages || seen.needs_pages();
        self.room = seen.room;
        self.groups.push(GroupReport {
            rows: group.num_rows,
            bytes: group.total_byte_size,
            chunks: seen.chunks,
        })?;
        Ok(())
    }
}

/// Looks at the groups of a file. Its footer begins at `end`.
fn groups_of<S: ByteSource>(
    alloc: Global,
    source: &mut S,
    end: usize,
    groups: &[GroupMeta],
    leaves: &[Leaf],
) -> Result<GroupsSeen, S::Fault> {
    let mut all = GroupsSeen {
        groups: Vec::new(alloc),
        suspects: Vec::new(alloc),
        need_pages: false,
        room: MOST_PAGES,
    };
    for (place, group) in groups.iter().enumerate() {
        let seen = group_of(alloc, source, end, group, leaves, all.room)?;
        all.add(place, group, seen)?;
    }
    Ok(all)
}

/// What is said of a file with this footer.
fn report_of<S: ByteSource>(
    alloc: Global,
    source: &mut S,
    footer_bytes: usize,
    record: &FileMeta,
) -> Result<FileReport, S::Fault> {
    let end = bytes_before_footer(source.len(), footer_bytes);
    let schema = schema_of(alloc, record)?;
    let groups = record.row_groups.as_slice();
    let seen = groups_of(alloc, source, end, groups, leaves_of(&schema))?;
    source.look(0, if seen.need_pages { end } else { 0 })?;
    let places = seen.suspects.as_slice();
    let not_read = problems_of(alloc, source.window(), record, &schema, places)?;
    let report = with_groups(
        alloc,
        source.len(),
        footer_bytes,
        record,
        seen.groups,
        not_read,
    )?;
    Ok(report)
}

/// The report on a file of so many bytes with these groups.
fn with_groups(
    alloc: Global,
    bytes: usize,
    footer_bytes: usize,
    record: &FileMeta,
    groups: Vec<GroupReport>,
    not_read: Vec<Problem>,
) -> Result<FileReport, AllocError> {
    Ok(FileReport {
        bytes,
        footer_bytes,
        version: record.version,
        rows: record.num_rows,
        created_by: shown_where_given(alloc, &record.created_by)?,
        key_values: key_values_of(alloc, record)?,
        schema: fields_of(alloc, record.schema.as_slice())?,
        groups,
        not_read,
    })
}

/// The report as a line of JSON.
fn json_of_report(alloc: Global, report: &FileReport) -> Result<Vec<u8>, AllocError> {
    match serde_json::to_vec(alloc, report) {
        Ok(mut text) => {
            text.push(b'\n')?;
            Ok(text)
        }
        // No part of a report can be refused otherwise.
        Err(_) => Err(AllocError),
    }
}
