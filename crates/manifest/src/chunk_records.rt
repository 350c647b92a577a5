//! The records of a group's chunks, kept as bytes.

ghost use Rattle.std.specs.Prelude.{◌≡◌, ℕ, List, [], ◌∷◌, ◌++◌, map, IfOk, IfSome, OnOk};
ghost use Rattle.bits.specs.Refusals.{RefusedMemoryOnly};
ghost use Rattle.metadata.specs.Begun.{BeginsChunk, BeginsGroup};
ghost use Rattle.metadata.specs.Records.{ChunkMeta as ChunkMetaShown};
ghost use Rattle.metadata.specs.Views.{chunk_meta_view};
ghost use Rattle.manifest.specs.KeptChunks.{IsRestOf, AreRestsOf, HasRecords, HasRecords-prop, placed, size_by, sizes_of, unplaced};

use bits::{R, Refusal};
use metadata::{
    ChunkMeta, begin_chunk, begin_group, end_group, footers_are_written_in_pieces, one_chunk,
    records_again,
};
use std::alloc::Global;

/// Records of chunks as in their own file, as bytes: of each what stands behind the path of its file, one after the
/// other. A chunk takes some 100 bytes so, where its record takes 500 in ten pieces.
#[derive(Debug, Drop)]
pub struct ChunkRecords {
    bytes: Vec<u8>,
    /// Where the bytes of each record end.
    ends: Vec<usize>,
    /// The sizes of the chunks in their file, added, in bytes.
    size: u64,
    pub ghost held: { HasRecords bytes.items ends.items size } by { HasRecords-prop bytes.items ends.items size },
}

impl ChunkRecords {
    ghost use Rattle.metadata.specs.Begun.{BeginsFooter};
    ghost use Rattle.metadata.specs.Records.{GroupMeta as GroupMetaShown, FileMeta as FileMetaShown};
    ghost use Rattle.manifest.specs.Handles.{records_of};

    /// These records, without the paths that they have. It fails only when out of memory, or where a `u64` does not
    /// count the bytes of the chunks: with Memory too. The time is linear in the records.
    pub fn of(alloc: Global, chunks: &[ChunkMeta]) -> R<ChunkRecords>
        ensures are { IfOk result (λ records. records_of records ≡ map unplaced (map chunk_meta_view chunks.now)) }
        ensures which { RefusedMemoryOnly result }
    {
        let Some(size) = size_of(chunks) else {
            return Err(Refusal::Memory);
        };
        let (bytes, ends) = rests_of(alloc, chunks)?;
        let records = ChunkRecords { bytes, ends, size };
        records.are_no_others();
        Ok(records)
    }

    /// What the bytes are the rests of is what it keeps.
    fn are_no_others(&self)
        ensures { (cs : List ChunkMetaShown) → AreRestsOf self.now.bytes.items 0 self.now.ends.items cs → records_of self.now ≡ cs }
    {}

    /// The sizes of the chunks in their file, added, in bytes. Takes no memory.
    pub fn size(&self) -> u64
        ensures { result ≡ sizes_of (records_of self.now) }
    {
        self.size
    }

    /// The records themselves, made anew. It fails only when out of memory; the time is linear in the bytes.
    pub fn to_chunks(&self, alloc: Global) -> R<Vec<ChunkMeta>>
        ensures are { IfOk result (λ chunks. map chunk_meta_view chunks.items ≡ records_of self.now) }
        ensures which { RefusedMemoryOnly result }
    {
        let start = start_of(alloc, &[])?;
        let mut chunks = Vec::with_capacity(alloc, self.ends.len())?;
        let mut at = 0;
        for end in self.ends.as_slice() {
            let end = *end;
            let chunk = chunk_in(alloc, start.as_slice(), &self.bytes[at..end])?;
            chunks.push(chunk)?;
            at = end;
        }
        Ok(chunks)
    }

    /// Writes a group of these chunks, in the file at this path, with this size and number of rows, as the next one of
    /// a footer that is begun at the end of `out`. It fails only when out of memory; then `out` may have more bytes. The
    /// time is linear in the bytes and in the path for each chunk.
    pub fn put_group(
        &self,
        alloc: Global,
        path: &[u8],
        total_byte_size: Option<i64>,
        num_rows: i64,
        out: &mut Vec<u8>,
    ) -> R<()>
        ensures stands { OnOk result ((m : FileMetaShown) (gs : List GroupMetaShown) (old : List ℕ) → BeginsFooter m gs old out.old.items
            → BeginsFooter m (gs ++ record { columns = map (placed path.now) (records_of self.now); total_byte_size = total_byte_size; num_rows = num_rows } ∷ []) old out.new.items) }
        ensures which { RefusedMemoryOnly result }
    {
        footers_are_written_in_pieces();
        let start = start_of(alloc, path)?;
        begin_group(self.ends.len(), out)?;
        self.put_chunks(start.as_slice(), out)?;
        end_group(alloc, total_byte_size, num_rows, out)?;
        Ok(())
    }

    /// Writes the records behind this start of a record, as the next chunks of a group that is begun.
    fn put_chunks(&self, start: &[u8], out: &mut Vec<u8>) -> R<()>
        ensures stands { OnOk result ((path : List ℕ) (n : ℕ) (old : List ℕ) → BeginsChunk path [] start.now → BeginsGroup n [] old out.old.items
            → BeginsGroup n (map (placed path) (records_of self.now)) old out.new.items) }
        ensures which { RefusedMemoryOnly result }
    {
        footers_are_written_in_pieces();
        let mut at = 0;
        for end in self.ends.as_slice() {
            let end = *end;
            out.extend_from_slice(start)?;
            out.extend_from_slice(&self.bytes[at..end])?;
            at = end;
        }
        Ok(())
    }
}

/// The start of the record of a chunk whose file has this path.
fn start_of(alloc: Global, path: &[u8]) -> R<Vec<u8>>
    ensures stands { IfOk result (λ start. BeginsChunk path.now [] start.items) }
    ensures which { RefusedMemoryOnly result }
{
    let mut start = Vec::new(alloc);
    begin_chunk(alloc, path, &mut start)?;
    Ok(start)
}

/// The record whose rest this is, behind the start of one with an empty path.
fn chunk_in(alloc: Global, start: &[u8], rest: &[u8]) -> R<ChunkMeta>
    ensures stands { IfOk result (λ chunk. (c : ChunkMetaShown) → BeginsChunk [] [] start.now → IsRestOf rest.now c → chunk_meta_view chunk ≡ c) }
    ensures which { (c : ChunkMetaShown) → BeginsChunk [] [] start.now → IsRestOf rest.now c → RefusedMemoryOnly result }
{
    footers_are_written_in_pieces();
    records_again();
    one_chunk();
    let mut bytes = Vec::from_slice(alloc, start)?;
    bytes.extend_from_slice(rest)?;
    let (chunk, _used) = ChunkMeta::read(alloc, bytes.as_slice())?;
    Ok(ChunkMeta {
        file_path: None,
        file_offset: chunk.file_offset,
        meta_data: chunk.meta_data,
    })
}

/// What stands behind the path in the struct of each record, one after the other, and where each ends.
fn rests_of(alloc: Global, chunks: &[ChunkMeta]) -> R<(Vec<u8>, Vec<usize>)>
    ensures stands { IfOk result (λ rests. AreRestsOf rests.0.items 0 rests.1.items (map unplaced (map chunk_meta_view chunks.now))) }
    ensures which { RefusedMemoryOnly result }
{
    let mut bytes = Vec::new(alloc);
    let mut ends = Vec::with_capacity(alloc, chunks.len())?;
    for chunk in chunks {
        chunk.put_rest(alloc, &mut bytes)?;
        ends.push(bytes.len())?;
    }
    bytes.shrink_to_fit();
    Ok((bytes, ends))
}

/// The sizes of the chunks, added, if a `u64` counts them.
fn size_of(chunks: &[ChunkMeta]) -> Option<u64>
    ensures { IfSome result (λ size. size ≡ sizes_of (map chunk_meta_view chunks.now)) }
{
    let mut size: u64 = 0;
    for chunk in chunks {
        size = size.checked_add(size_in(chunk))?;
    }
    Some(size)
}

/// The bytes of a chunk; 0 where its record has none.
fn size_in(chunk: &ChunkMeta) -> u64
    ensures { result ≡ size_by (chunk_meta_view chunk.now).meta_data.total_compressed_size }
{
    match chunk.meta_data.total_compressed_size {
        Some(size) => {
            if size < 0 {
                return 0;
            }
            size as u64
        }
        None => 0,
    }
}
