//! Structs of the compact protocol, and the records of a file's footer and of its pages' headers.

use bits::{R, Refusal};
use case_words::{begun, bytes, word, written};
use metadata::{
    ChunkMeta, ColumnMeta, ColumnOrder, DataPageHeader, DataPageHeaderV2, DictionaryPageHeader,
    FileMeta, GroupMeta, KeyValue, PageHeader, Statistics, element_from_tree, element_to_tree,
};
use std::alloc::Global;
use thrift_compact::{Tree, has_bytes, read_struct, write_struct};

/// What a case of this subject gives; None where the operation is of another one.
pub fn outcome(alloc: Global, operation: &str, words: &[&str]) -> Option<R<String>> {
    let outcome = match operation {
        "struct" => read_and_write(alloc, words),
        "fields" => fields(alloc, words),
        "record" => record(alloc, words),
        "read-footer" => read_footer(alloc, words),
        "write-footer" => write_footer(alloc, words),
        "read-page-header" => read_page_header(alloc, words),
        "write-page-header" => write_page_header(alloc, words),
        _ => return None,
    };
    Some(outcome)
}

/// How deep structs, lists, sets and maps lie in the struct, at most 32.
fn depth(tree: &Tree) -> u32 {
    for deep in 0..32 {
        if has_bytes(tree, deep) {
            return deep;
        }
    }
    32
}

/// `struct BYTES`: how many bytes the struct takes, how deep it nests, and the bytes of a copy, as they are written again.
fn read_and_write(alloc: Global, words: &[&str]) -> R<String> {
    let bytes = bytes(alloc, words, 1)?;
    let (tree, used) = read_struct(alloc, &bytes)?;
    let deep = depth(&tree);
    let copy = tree.copied(alloc)?;
    let mut out = begun(alloc)?;
    let done = write_struct(&copy, &mut out);
    let again = written(alloc, &out, done)?;
    Ok(format!(in alloc; "{used} bytes, {deep} deep, again {again}")?)
}

/// `fields BYTES`: how many bytes the struct takes, and its fields.
fn fields(alloc: Global, words: &[&str]) -> R<String> {
    let bytes = bytes(alloc, words, 1)?;
    let (tree, used) = read_struct(alloc, &bytes)?;
    let fields = tree.fields.as_slice();
    Ok(format!(in alloc; "{used} bytes: {fields:?}")?)
}

fn key_value(alloc: Global, tree: &Tree) -> R<Tree> {
    KeyValue::from_tree(alloc, tree)?.to_tree(alloc)
}

fn statistics(alloc: Global, tree: &Tree) -> R<Tree> {
    Statistics::from_tree(alloc, tree)?.to_tree(alloc)
}

fn column(alloc: Global, tree: &Tree) -> R<Tree> {
    ColumnMeta::from_tree(alloc, tree)?.to_tree(alloc)
}

fn chunk(alloc: Global, tree: &Tree) -> R<Tree> {
    ChunkMeta::from_tree(alloc, tree)?.to_tree(alloc)
}

fn group(alloc: Global, tree: &Tree) -> R<Tree> {
    GroupMeta::from_tree(alloc, tree)?.to_tree(alloc)
}

fn order(alloc: Global, tree: &Tree) -> R<Tree> {
    ColumnOrder::from_tree(alloc, tree)?.to_tree(alloc)
}

fn element(alloc: Global, tree: &Tree) -> R<Tree> {
    element_to_tree(alloc, &element_from_tree(alloc, tree)?)
}

fn data_page(alloc: Global, tree: &Tree) -> R<Tree> {
    DataPageHeader::from_tree(alloc, tree)?.to_tree(alloc)
}

fn dictionary_page(alloc: Global, tree: &Tree) -> R<Tree> {
    DictionaryPageHeader::from_tree(alloc, tree)?.to_tree(alloc)
}

fn data_page_v2(alloc: Global, tree: &Tree) -> R<Tree> {
    DataPageHeaderV2::from_tree(alloc, tree)?.to_tree(alloc)
}

fn page(alloc: Global, tree: &Tree) -> R<Tree> {
    PageHeader::from_tree(alloc, tree)?.to_tree(alloc)
}

fn file(alloc: Global, tree: &Tree) -> R<Tree> {
    FileMeta::from_tree(alloc, tree)?.to_tree(alloc)
}

/// The struct of the record of this name that the struct is.
fn again(alloc: Global, name: &str, tree: &Tree) -> R<Tree> {
    match name {
        "key-value" => key_value(alloc, tree),
        "statistics" => statistics(alloc, tree),
        "column" => column(alloc, tree),
        "chunk" => chunk(alloc, tree),
        "group" => group(alloc, tree),
        "order" => order(alloc, tree),
        "element" => element(alloc, tree),
        "data-page" => data_page(alloc, tree),
        "dictionary-page" => dictionary_page(alloc, tree),
        "data-page-v2" => data_page_v2(alloc, tree),
        "page" => page(alloc, tree),
        "file" => file(alloc, tree),
        _ => Err(Refusal::Script),
    }
}

/// `record NAME BYTES`: the bytes of the record's struct, from such bytes.
fn record(alloc: Global, words: &[&str]) -> R<String> {
    let name = word(words, 1)?;
    let bytes = bytes(alloc, words, 2)?;
    let (tree, _) = read_struct(alloc, &bytes)?;
    let tree = again(alloc, name, &tree)?;
    let mut out = begun(alloc)?;
    let done = write_struct(&tree, &mut out);
    written(alloc, &out, done)
}

/// `read-footer BYTES`: how many bytes it takes, its version, its rows, and the numbers of its elements and groups.
fn read_footer(alloc: Global, words: &[&str]) -> R<String> {
    let bytes = bytes(alloc, words, 1)?;
    let (footer, used) = FileMeta::read(alloc, &bytes)?;
    let version = footer.version.unwrap_or(-1);
    let rows = footer.num_rows.unwrap_or(-1);
    let elements = footer.schema.len();
    let groups = footer.row_groups.len();
    let mut text = format!(in alloc;
        "{used} bytes: version {version}, {rows} rows, {elements} elements, {groups} groups"
    )?;
    for group in &footer.row_groups {
        text.push_str(shown_group(alloc, group)?.as_str())?;
    }
    Ok(text)
}

/// The rows and the bytes of a group, and its chunks.
fn shown_group(alloc: Global, group: &GroupMeta) -> R<String> {
    let rows = group.num_rows;
    let size = group.total_byte_size.unwrap_or(-1);
    let mut text = format!(in alloc; "; a group of {rows} rows, {size} bytes")?;
    for chunk in &group.columns {
        text.push_str(shown_chunk(alloc, chunk)?.as_str())?;
    }
    Ok(text)
}

/// Where a chunk lies, and its type, values and bytes.
fn shown_chunk(alloc: Global, chunk: &ChunkMeta) -> R<String> {
    let column = &chunk.meta_data;
    let place = if chunk.file_path.is_some() {
        "elsewhere"
    } else {
        "here"
    };
    let offset = chunk.file_offset.unwrap_or(-1);
    let (kind, values) = (column.kind, column.num_values);
    let size = column.total_compressed_size.unwrap_or(-1);
    let first = column.data_page_offset;
    let bounds = if column.statistics.is_some() {
        "with"
    } else {
        "without"
    };
    Ok(format!(in alloc;
        "; a chunk {place} at {offset}, type {kind}, {values} values, {size} bytes from {first}, {bounds} statistics"
    )?)
}

/// `write-footer BYTES`: the bytes of the footer that these are.
fn write_footer(alloc: Global, words: &[&str]) -> R<String> {
    let bytes = bytes(alloc, words, 1)?;
    let (footer, _) = FileMeta::read(alloc, &bytes)?;
    let mut out = begun(alloc)?;
    let done = footer.write(alloc, &mut out);
    written(alloc, &out, done)
}

/// `read-page-header BYTES`: how many bytes it takes, the page's type and its compressed size.
fn read_page_header(alloc: Global, words: &[&str]) -> R<String> {
    let bytes = bytes(alloc, words, 1)?;
    let (header, used) = PageHeader::read(alloc, &bytes)?;
    let (kind, size) = (header.kind, header.compressed_page_size);
    Ok(format!(in alloc; "{used} bytes: type {kind}, {size} bytes")?)
}

/// `write-page-header BYTES`: the bytes of the page header that these are.
fn write_page_header(alloc: Global, words: &[&str]) -> R<String> {
    let bytes = bytes(alloc, words, 1)?;
    let (header, _) = PageHeader::read(alloc, &bytes)?;
    let mut out = begun(alloc)?;
    let done = header.write(alloc, &mut out);
    written(alloc, &out, done)
}
