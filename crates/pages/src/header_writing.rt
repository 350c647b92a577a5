//! The headers of the pages that are written.

ghost use Rattle.std.specs.Prelude.{◌≡◌, ◌⊎◌, ◌<◌, ◌≤◌, OnOk, OnErr, Err};
ghost use Rattle.bits.specs.Refusals.{RefusedOnly};
ghost use Rattle.bits.specs.Codec.{Appends};
ghost use Rattle.thrift_compact.specs.Compact.{IsThrift};
ghost use Rattle.metadata.specs.ToTree.{page_header_fields};
ghost use Rattle.metadata.specs.Views.{page_header_view};
ghost use Rattle.pages.specs.Greatest.{most_of_page};
ghost use Rattle.pages.specs.Headers.{data_header as data_header_shown, dictionary_header as dictionary_header_shown};

use crate::encoding::Encoding;
use crate::limits::MOST_BYTES_OF_PAGE;
use crate::page_version::PageVersion;
use bits::{R, Refusal};
use metadata::{
    DATA_PAGE, DATA_PAGE_V2, DICTIONARY_PAGE, DataPageHeader, DataPageHeaderV2,
    DictionaryPageHeader, PageHeader,
};
use std::alloc::Global;

/// What the header of a data page says, the sizes of its parts aside.
#[derive(Debug, Clone, Copy)]
pub struct DataPageHead {
    pub version: PageVersion,
    pub encoding: Encoding,
    pub entries: usize,
    pub nulls: usize,
    pub rows: usize,
}

/// How many bytes the sections of levels have, without the lengths before them.
#[derive(Debug, Clone, Copy)]
pub struct SectionSizes {
    pub repetitions: usize,
    pub definitions: usize,
}

/// Writes the header of a data page with this many bytes of body. Refused Limit exactly when the body
/// has more bytes, or the page more entries, than an i32 holds. After a refusal `out` is unchanged.
pub(crate) fn put_data_header(
    alloc: Global,
    head: DataPageHead,
    size: usize,
    sections: SectionSizes,
    out: &mut Vec<u8>,
) -> R<()>
    requires nulls { head.nulls ≤ head.entries }
    requires rows { head.rows ≤ head.entries }
    requires repetitions { sections.repetitions ≤ size }
    requires definitions { sections.definitions ≤ size }
    ensures stands { let h = data_header_shown head.version head.encoding head.entries head.nulls head.rows size
        sections.repetitions sections.definitions in OnOk result (Appends (λ bytes. IsThrift bytes (page_header_fields h)) 128 out.old.items out.new.items) }
    ensures fits { OnOk result ((size ≤ most_of_page) × (head.entries ≤ most_of_page)) }
    ensures limit { result ≡ Err Refusal.Limit → (most_of_page < size) ⊎ (most_of_page < head.entries) }
    ensures which { RefusedOnly (λ e. e ≡ Refusal.Limit) result }
    ensures unchanged { OnErr result (out.new.items ≡ out.old.items) }
{
    if size > MOST_BYTES_OF_PAGE || head.entries > MOST_BYTES_OF_PAGE {
        return Err(Refusal::Limit);
    }
    let header = data_header(head, size, sections);
    header.write(alloc, out)
}

/// Writes the header of a dictionary page with this many bytes of body and this many entries. Refused Limit
/// exactly when one of them is more than an i32 holds. After a refusal `out` is unchanged.
pub(crate) fn put_dictionary_header(
    alloc: Global,
    size: usize,
    count: usize,
    out: &mut Vec<u8>,
) -> R<()>
    ensures stands { OnOk result (Appends (λ bytes. IsThrift bytes (page_header_fields (dictionary_header_shown size count))) 128 out.old.items out.new.items) }
    ensures fits { OnOk result ((size ≤ most_of_page) × (count ≤ most_of_page)) }
    ensures limit { result ≡ Err Refusal.Limit → (most_of_page < size) ⊎ (most_of_page < count) }
    ensures which { RefusedOnly (λ e. e ≡ Refusal.Limit) result }
    ensures unchanged { OnErr result (out.new.items ≡ out.old.items) }
{
    if size > MOST_BYTES_OF_PAGE || count > MOST_BYTES_OF_PAGE {
        return Err(Refusal::Limit);
    }
    let header = dictionary_header(size, count);
    header.write(alloc, out)
}

/// The header of a data page with this many bytes of body.
fn data_header(head: DataPageHead, size: usize, sections: SectionSizes) -> PageHeader
    requires nulls { head.nulls ≤ head.entries }
    requires rows { head.rows ≤ head.entries }
    requires repetitions { sections.repetitions ≤ size }
    requires definitions { sections.definitions ≤ size }
    requires size { size ≤ most_of_page }
    requires entries { head.entries ≤ most_of_page }
    ensures { page_header_view result ≡ data_header_shown head.version head.encoding head.entries head.nulls head.rows size
        sections.repetitions sections.definitions }
{
    match head.version {
        PageVersion::V1 => PageHeader {
            kind: DATA_PAGE,
            uncompressed_page_size: Some(size as i32),
            compressed_page_size: size as i32,
            crc: None,
            data_page_header: Some(DataPageHeader {
                num_values: head.entries as i32,
                encoding: head.encoding.number(),
                definition_level_encoding: Some(Encoding::Rle.number()),
                repetition_level_encoding: Some(Encoding::Rle.number()),
                statistics: None,
            }),
            dictionary_page_header: None,
            data_page_header_v2: None,
        },
        PageVersion::V2 => PageHeader {
            kind: DATA_PAGE_V2,
            uncompressed_page_size: Some(size as i32),
            compressed_page_size: size as i32,
            crc: None,
            data_page_header: None,
            dictionary_page_header: None,
            data_page_header_v2: Some(DataPageHeaderV2 {
                num_values: head.entries as i32,
                num_nulls: Some(head.nulls as i32),
                num_rows: Some(head.rows as i32),
                encoding: head.encoding.number(),
                definition_levels_byte_length: sections.definitions as i32,
                repetition_levels_byte_length: sections.repetitions as i32,
                is_compressed: Some(false),
                statistics: None,
            }),
        },
    }
}

/// The header of a dictionary page.
fn dictionary_header(size: usize, count: usize) -> PageHeader
    requires size { size ≤ most_of_page }
    requires count { count ≤ most_of_page }
    ensures { page_header_view result ≡ dictionary_header_shown size count }
{
    PageHeader {
        kind: DICTIONARY_PAGE,
        uncompressed_page_size: Some(size as i32),
        compressed_page_size: size as i32,
        crc: None,
        data_page_header: None,
        dictionary_page_header: Some(DictionaryPageHeader {
            num_values: count as i32,
            encoding: Encoding::Plain.number(),
            is_sorted: None,
        }),
        data_page_header_v2: None,
    }
}
