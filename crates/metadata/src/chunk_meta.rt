//! ChunkMeta: the struct, how it is read and how it is written.

ghost use Rattle.std.specs.Prelude.{◌≡◌, ◌≤◌, ◌⊎◌, length, IfOk, OnOk, OnErr, refl};
ghost use Rattle.bits.specs.Refusals.{OnFault, RefusedOnly, RefusedMemoryOnly};
ghost use Rattle.bits.specs.Codec.{NothingStands};
ghost use Rattle.thrift_compact.specs.Length.{size_struct, AppendsStruct};
ghost use Rattle.thrift_compact.specs.View.{field_views, tree_view};
ghost use Rattle.metadata.specs.FieldValues.{record_by};
ghost use Rattle.metadata.specs.ToTree.{chunk_meta_fields, record_as, STRUCT};
ghost use Rattle.metadata.specs.FromTree.{chunk_meta};
ghost use Rattle.metadata.specs.Records.{ChunkMeta as ChunkMetaShown};
ghost use Rattle.metadata.specs.Views.{chunk_meta_view};
ghost use Rattle.metadata.specs.inner.Starts.{chunk_meta_start};
ghost use Rattle.metadata.specs.Answers.{IsRecordOf, StandsFor, AppendsRecord};

use crate::column_meta::ColumnMeta;
use crate::copies::copied_text;
use crate::ids::chunk as ids;
use crate::known::{FromNode, known_as, needed_as};
use crate::put::{ToElement, ToNode, put, put_given};
use crate::slots::{Known, Needed, Others, Slots, optional, read_row, required};
use bits::{R, Refusal};
use std::alloc::Global;
use thrift_compact::{ElementType, Field, Node, Tree, Unread, write_struct};

/// A ColumnChunk (`parquet.thrift`): where a column of a group stands.
#[derive(Debug, Drop)]
pub struct ChunkMeta {
    pub file_path: Option<Vec<u8>>,
    pub file_offset: Option<i64>,
    pub meta_data: ColumnMeta,
}

impl ChunkMeta {
    /// The record that a struct is. Refused Thrift exactly when it is none: a known field is of another
    /// type, also where a later one of its id is not, or a needed one is not there. Of a field that
    /// comes twice the last counts; others are skipped.
    pub fn from_tree(alloc: Global, tree: &Tree) -> R<ChunkMeta>
        ensures stands { IsRecordOf chunk_meta_view (chunk_meta (tree_view tree.now)) result }
    {
        chunk_meta_of(alloc, tree.fields.as_slice())
    }

    /// The record of the struct at the start of the bytes, and how many bytes that struct takes;
    /// what follows is not looked at. By one pass over the struct's bytes.
    ///
    /// Refused Truncated or Thrift only where no prefix of the bytes is such a record.
    pub fn read(alloc: Global, bytes: &[u8]) -> R<(ChunkMeta, usize)>
        ensures stands { IfOk result (λ x. StandsFor chunk_meta bytes.now (chunk_meta_view x.0) x.1) }
        ensures within { IfOk result (λ x. x.1 ≤ length bytes.now) }
        ensures only { OnFault result (NothingStands (StandsFor chunk_meta bytes.now)) }
        ensures which { RefusedOnly (λ e. (e ≡ Refusal.Truncated) ⊎ (e ≡ Refusal.Thrift)) result }
    {
        let (record, used) = ChunkMeta::from_unread(alloc, Unread::of_struct(bytes))?;
        Ok((record, used))
    }

    /// The struct of the record, in the order of the ids; what is absent is left out. Refused only
    /// Memory.
    pub fn to_tree(&self, alloc: Global) -> R<Tree>
        ensures stands { IfOk result (λ tree. tree_view tree ≡ chunk_meta_fields (chunk_meta_view self.now)) }
        ensures which { RefusedMemoryOnly result }
    {
        let fields = fields_of_chunk_meta(alloc, self)?;
        Ok(Tree { fields })
    }

    /// Writes the struct of the record at the end of `out`, and nothing else, in the fewest bytes that it
    /// has. What is written is read as this record, whatever follows it. It fails only when out of memory;
    /// then `out` is unchanged.
    pub fn write(&self, alloc: Global, out: &mut Vec<u8>) -> R<()>
        ensures stands { OnOk result (AppendsStruct (chunk_meta_fields (chunk_meta_view self.now)) out.old.items out.new.items) }
        ensures read_again { let seen = chunk_meta_view self.now in
            OnOk result (AppendsRecord chunk_meta seen (size_struct (chunk_meta_fields seen)) out.old.items out.new.items) }
        ensures which { RefusedMemoryOnly result }
        ensures unchanged { OnErr result (out.new.items ≡ out.old.items) }
    {
        let tree = self.to_tree(alloc)?;
        write_struct(&tree, out)
    }

    /// A copy. It fails only when out of memory; time and room are linear in what the record holds. (A caller that gives
    /// the chunk another path copies only its `meta_data`.)
    pub fn copied(&self, alloc: Global) -> R<ChunkMeta>
        ensures copies { IfOk result (λ copy. chunk_meta_view copy ≡ chunk_meta_view self.now) }
        ensures which { RefusedMemoryOnly result }
    {
        let file_path = copied_text(alloc, &self.file_path)?;
        let meta_data = self.meta_data.copied(alloc)?;
        Ok(ChunkMeta {
            file_path,
            file_offset: self.file_offset,
            meta_data,
        })
    }
}

/// The record that the fields are.
fn chunk_meta_of(alloc: Global, fields: &[Field]) -> R<ChunkMeta>
    ensures stands { IsRecordOf chunk_meta_view (chunk_meta (field_views fields.now)) result }
{
    let file_path = known_as(alloc, fields, ids::FILE_PATH)?;
    let file_offset = known_as(alloc, fields, ids::FILE_OFFSET)?;
    let meta_data = needed_as(alloc, fields, ids::META_DATA)?;
    Ok(ChunkMeta {
        file_path,
        file_offset,
        meta_data,
    })
}

/// The places of the record's fields.
type Places = Known<Vec<u8>, Known<i64, Needed<ColumnMeta, Others>>>;

fn places() -> Places
    ensures { ⟦<Places as Slots>⟧.held result ≡ chunk_meta_start }
{
    optional(
        ids::FILE_PATH,
        optional(ids::FILE_OFFSET, required(ids::META_DATA, Others)),
    )
}

impl FromNode for ChunkMeta {
    ghost Shown = { ChunkMetaShown };

    ghost shown = { chunk_meta_view };

    ghost read = { record_by chunk_meta };

    fn from_node(alloc: Global, value: &Node) -> R<ChunkMeta> {
        match value {
            Node::Struct(fields) => chunk_meta_of(alloc, fields.as_slice()),
            _ => Err(Refusal::Thrift),
        }
    }

    fn from_unread(alloc: Global, value: Unread<'_>) -> R<(ChunkMeta, usize)> {
        let ((file_path, (file_offset, (meta_data, ()))), used) = read_row(alloc, value, places())?;
        let record = ChunkMeta {
            file_path,
            file_offset,
            meta_data,
        };
        Ok((record, used))
    }

    ghost no_flags = { λ _. refl };
}

/// The fields of the record.
fn fields_of_chunk_meta(alloc: Global, chunk_meta: &ChunkMeta) -> R<Vec<Field>>
    ensures stands { IfOk result (λ fields. field_views fields.items ≡ chunk_meta_fields (chunk_meta_view chunk_meta.now)) }
    ensures which { RefusedMemoryOnly result }
{
    let mut fields = Vec::with_capacity(alloc, 3)?;
    put_given(alloc, &mut fields, ids::FILE_PATH, &chunk_meta.file_path)?;
    put_given(
        alloc,
        &mut fields,
        ids::FILE_OFFSET,
        &chunk_meta.file_offset,
    )?;
    put(alloc, &mut fields, ids::META_DATA, &chunk_meta.meta_data)?;
    Ok(fields)
}

impl ToNode for ChunkMeta {
    ghost Shown = { ChunkMetaShown };

    ghost shown = { chunk_meta_view };

    ghost write = { record_as chunk_meta_fields };

    fn to_node(&self, alloc: Global) -> R<Node> {
        let fields = fields_of_chunk_meta(alloc, self)?;
        Ok(Node::Struct(fields))
    }
}

impl ToElement for ChunkMeta {
    ghost code = { STRUCT };

    fn element_type() -> ElementType {
        ElementType::Struct
    }
}
