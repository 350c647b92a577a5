//! Records of chunks and groups, and how they are written.

use bits::{R, Refusal};
use case_words::{hexed, number, small};
use metadata::{ChunkMeta, ColumnMeta, GroupMeta};
use schema::{Leaf, Schema};
use std::alloc::Global;
use thrift_compact::{Tree, write_struct};

/// The path and the type of a leaf, as a record has them; those of a leaf that is not there are empty.
fn plain_record(alloc: Global, leaf: Option<&Leaf>) -> R<ColumnMeta> {
    let mut path_in_schema = Vec::new(alloc);
    let mut kind = 0;
    if let Some(leaf) = leaf {
        kind = leaf.leaf_type.kind.number();
        for name in &leaf.path {
            path_in_schema.push(Vec::from_slice(alloc, name.as_bytes())?)?;
        }
    }
    Ok(ColumnMeta {
        kind,
        encodings: None,
        path_in_schema,
        codec: 0,
        num_values: 0,
        total_uncompressed_size: None,
        total_compressed_size: None,
        data_page_offset: 0,
        dictionary_page_offset: None,
        statistics: None,
    })
}

/// Changes a field of a record.
fn change(alloc: Global, meta: &mut ColumnMeta, field: &str) -> R<()> {
    let Some((name, value)) = field.split_once('=') else {
        return Err(Refusal::Script);
    };
    match name {
        "type" => meta.kind = small(value)?,
        "codec" => meta.codec = small(value)?,
        "dictionary" => meta.dictionary_page_offset = Some(number(value)?),
        "path" => {
            meta.path_in_schema = Vec::new(alloc);
            for name in value.split('.') {
                let name = Vec::from_slice(alloc, name.as_bytes())?;
                meta.path_in_schema.push(name)?;
            }
        }
        _ => return Err(Refusal::Script),
    }
    Ok(())
}

/// The record of a chunk of this leaf: its entries, `@` and where its data pages begin, and changes of its fields, as
/// `3@4;codec=1;dictionary=4`.
pub fn record_of(alloc: Global, leaf: Option<&Leaf>, text: &str) -> R<ColumnMeta> {
    let mut meta = plain_record(alloc, leaf)?;
    for (place, field) in text.split(';').enumerate() {
        if place > 0 {
            change(alloc, &mut meta, field)?;
            continue;
        }
        let (entries, offset) = match field.split_once('@') {
            Some((entries, offset)) => (entries, number(offset)?),
            None => (field, 0),
        };
        meta.num_values = number(entries)?;
        meta.data_page_offset = offset;
    }
    Ok(meta)
}

/// The record of a group of these chunks, those of the schema's leaves in order.
pub fn group_of(alloc: Global, schema: &Schema, num_rows: i64, chunks: &[&str]) -> R<GroupMeta> {
    let mut columns = Vec::new(alloc);
    for (place, chunk) in chunks.iter().enumerate() {
        let meta_data = record_of(alloc, schema.leaves().get(place), chunk)?;
        columns.push(ChunkMeta {
            file_path: None,
            file_offset: None,
            meta_data,
        })?;
    }
    Ok(GroupMeta {
        columns,
        total_byte_size: None,
        num_rows,
    })
}

/// The bytes of a struct.
pub fn shown_struct(alloc: Global, tree: &Tree) -> R<String> {
    let mut bytes = Vec::new(alloc);
    write_struct(tree, &mut bytes)?;
    hexed(alloc, bytes.as_slice())
}
