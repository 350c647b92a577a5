//! Why `decode` refuses the pages of a chunk, and at which of them.

use crate::inspect_pages::{PageAt, page_after, what_of_encoding};
use assemble::EntrySource;
use bits::{Fault, Refusal};
use metadata::ColumnMeta;
use row_group::{ChunkReader, start_of};
use schema::Leaf;
use std::alloc::{AllocError, Global};

/// What is wrong with the pages of a chunk of this leaf, if `decode` refuses them; None also where it refuses the chunk's record.
/// The pages are read as `decode` reads them. Refused only when out of memory.
pub fn what_of_pages(
    alloc: Global,
    front: &[u8],
    meta: &ColumnMeta,
    leaf: &Leaf,
) -> Result<Option<String>, AllocError> {
    let Ok(start) = start_of(meta) else {
        return Ok(Some(String::from_str(alloc, "an offset is negative")?));
    };
    let pages = front.get(start..).unwrap_or(&[]);
    match fault_of_pages(alloc, pages, meta, leaf)? {
        Some((fault, entries)) => {
            let page = page_after(alloc, front, meta, entries)?;
            Ok(Some(what_of_fault(alloc, fault, page, leaf)?))
        }
        None => Ok(None),
    }
}

/// Why the pages of a chunk are refused, and how many entries come before; the pages begin where `bytes` does.
fn fault_of_pages(
    alloc: Global,
    bytes: &[u8],
    meta: &ColumnMeta,
    leaf: &Leaf,
) -> Result<Option<(Fault, u64)>, AllocError> {
    let mut reader = match ChunkReader::new(alloc, bytes, meta, leaf) {
        Ok(reader) => reader,
        Err(Refusal::Memory) => return Err(AllocError),
        Err(_) => return Ok(None),
    };
    for entries in 0..u64::MAX {
        match reader.next() {
            Ok(Some(_)) => {}
            Ok(None) => return Ok(None),
            Err(Fault::Memory) => return Err(AllocError),
            Err(fault) => return Ok(Some((fault, entries))),
        }
    }
    // Never reached: no chunk has as many entries.
    Ok(None)
}

/// What is wrong with a page, in words.
fn what_of_fault(
    alloc: Global,
    fault: Fault,
    page: Option<PageAt>,
    leaf: &Leaf,
) -> Result<String, AllocError> {
    let Some(page) = page else {
        return String::from_str(alloc, words_without_page(fault));
    };
    match (fault, page.ends) {
        (Fault::Encoding, _) => what_of_encoding(alloc, &page, leaf),
        (Fault::Page | Fault::Truncated, Some(ends)) => String::from_str(alloc, ends.words()),
        _ => {
            let offset = page.offset;
            let dictionary = if page.has_dictionary {
                ", or its dictionary,"
            } else {
                ""
            };
            let words = words_of(fault);
            format!(in alloc; "the page at {offset}{dictionary} has {words}")
        }
    }
}

/// What a page is refused for has.
fn words_of(fault: Fault) -> &'static str {
    match fault {
        Fault::Truncated => "a value or a level that ends early",
        Fault::Thrift => "a header that is no struct of the wanted shape",
        Fault::Levels => "levels that cannot be",
        Fault::Value => "bytes that are no value in their encoding",
        Fault::Utf8 => "text that is not UTF-8",
        Fault::Limit => "a value of more than 16777216 bytes",
        _ => "sizes or counts that cannot be",
    }
}

/// What is said of a chunk where no page header is found after the pages that are read.
fn words_without_page(fault: Fault) -> &'static str {
    match fault {
        Fault::Thrift | Fault::Truncated =>
            "there is no page header where the next page should begin",
        Fault::Encoding => "an encoding is not read",
        Fault::Levels => "the levels cannot be",
        Fault::Value => "bytes are no value in their encoding",
        Fault::Utf8 => "a text is not UTF-8",
        Fault::Limit => "a value has more than 16777216 bytes",
        _ => "sizes or counts of its pages cannot be",
    }
}
