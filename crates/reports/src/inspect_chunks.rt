//! The row groups of a file, with their chunks and pages.

use crate::byte_source::ByteSource;
use crate::inspect_names::{codec_name, encoding_name, name_or_number, type_name};
use crate::inspect_pages::{Pages, Unlisted, pages_of};
use crate::inspect_problems::{is_suspect, is_suspect_chunk};
use crate::inspect_report::ChunkReport;
use crate::inspect_schema::{shown, shown_where_given};
use crate::inspect_statistics::statistics_of;
use metadata::{ChunkMeta, ColumnMeta, GroupMeta};
use schema::{Leaf, LeafType};
use std::alloc::{AllocError, Global};

/// The names on the path of a column, joined by `.`.
pub fn path_of(alloc: Global, meta: &ColumnMeta) -> Result<String, AllocError> {
    let mut path = String::new(alloc);
    for (place, name) in meta.path_in_schema.iter().enumerate() {
        if place > 0 {
            path.push('.')?;
        }
        path.push_str(shown(alloc, name.as_slice())?.as_str())?;
    }
    Ok(path)
}

/// A row group as far as it was looked at.
#[derive(Drop)]
pub struct GroupSeen {
    pub chunks: Vec<ChunkReport>,
    /// How many more pages may be listed.
    pub room: usize,
    /// Whether its numbers raise a suspicion that `decode` refuses it.
    has_suspect_numbers: bool,
    /// Whether a chunk raises one, by its record or the headers of its pages.
    has_suspect_chunk: bool,
    /// Whether a chunk is in this file, and its record raises none.
    has_sound_record: bool,
}

impl GroupSeen {
    /// Whether it raises a suspicion that `decode` refuses it.
    pub fn is_suspect(&self) -> bool {
        self.has_suspect_numbers || self.has_suspect_chunk
    }

    /// Whether its pages have to be read to say what `decode` refuses of it: neither its numbers nor the records of all
    /// its chunks say it.
    pub fn needs_pages(&self) -> bool {
        !self.has_suspect_numbers && self.has_suspect_chunk && self.has_sound_record
    }

    /// Adds a chunk with these pages.
    fn add(
        &mut self,
        alloc: Global,
        chunk: &ChunkMeta,
        leaf: Option<&Leaf>,
        pages: Pages,
    ) -> Result<(), AllocError> {
        let has_suspect_record = is_suspect_chunk(alloc, &chunk.meta_data, leaf)?;
        self.room = self.room.saturating_sub(pages.listed.len());
        self.has_suspect_chunk = self.has_suspect_chunk || has_suspect_record || pages.are_suspect;
        self.has_sound_record = self.has_sound_record
            || !(has_suspect_record || chunk.file_path.is_some());
        self.chunks.push(chunk_of(alloc, chunk, leaf, pages)?)?;
        Ok(())
    }
}

/// Looks at a row group: its record, and the headers of its pages, at most `room` of them. The footer begins at `end`.
pub fn group_of<S: ByteSource>(
    alloc: Global,
    source: &mut S,
    end: usize,
    group: &GroupMeta,
    leaves: &[Leaf],
    room: usize,
) -> Result<GroupSeen, S::Fault> {
    let mut seen = GroupSeen {
        chunks: Vec::new(alloc),
        room,
        has_suspect_numbers: is_suspect(group, leaves),
        has_suspect_chunk: false,
        has_sound_record: false,
    };
    for (place, chunk) in group.columns.iter().enumerate() {
        let leaf = leaves.get(place);
        let pages = pages_here(alloc, source, end, chunk, leaf, seen.room)?;
        seen.add(alloc, chunk, leaf, pages)?;
    }
    Ok(seen)
}

/// The names of the encodings that a chunk says it has.
fn encodings_of(alloc: Global, meta: &ColumnMeta) -> Result<Vec<String>, AllocError> {
    let mut names = Vec::new(alloc);
    if let Some(encodings) = &meta.encodings {
        for number in encodings {
            names.push(name_or_number(alloc, encoding_name(*number), *number)?)?;
        }
    }
    Ok(names)
}

/// The type of the leaf that a chunk is of, where it is of this one.
fn type_of_leaf<'a>(meta: &ColumnMeta, leaf: Option<&'a Leaf>) -> Option<&'a LeafType> {
    let leaf_type = &leaf?.leaf_type;
    if leaf_type.kind.number() == meta.kind {
        Some(leaf_type)
    } else {
        None
    }
}

/// The pages of a chunk, where they are in this file.
fn pages_here<S: ByteSource>(
    alloc: Global,
    source: &mut S,
    end: usize,
    chunk: &ChunkMeta,
    leaf: Option<&Leaf>,
    room: usize,
) -> Result<Pages, S::Fault> {
    if chunk.file_path.is_some() {
        return Ok(Pages::cut(Vec::new(alloc), Unlisted::OtherFile));
    }
    pages_of(alloc, source, end, &chunk.meta_data, leaf, room)
}

/// A chunk with these pages.
fn chunk_of(
    alloc: Global,
    chunk: &ChunkMeta,
    leaf: Option<&Leaf>,
    pages: Pages,
) -> Result<ChunkReport, AllocError> {
    let meta = &chunk.meta_data;
    Ok(ChunkReport {
        column: path_of(alloc, meta)?,
        kind: name_or_number(alloc, type_name(meta.kind), meta.kind)?,
        codec: name_or_number(alloc, codec_name(meta.codec), meta.codec)?,
        encodings: encodings_of(alloc, meta)?,
        entries: meta.num_values,
        compressed_bytes: meta.total_compressed_size,
        uncompressed_bytes: meta.total_uncompressed_size,
        data_page_offset: meta.data_page_offset,
        dictionary_page_offset: meta.dictionary_page_offset,
        file: shown_where_given(alloc, &chunk.file_path)?,
        statistics: statistics_of(alloc, meta, type_of_leaf(meta, leaf))?,
        pages: pages.listed,
        unlisted: pages.unlisted.map(Unlisted::words),
    })
}
