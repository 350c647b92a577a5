//! The pages of a chunk, by their headers.

ghost use Rattle.std.specs.Prelude.{◌≤◌, IfSome};

use crate::byte_source::{ByteSource, WholeBytes, part_of};
use crate::inspect_names::{encoding_name, name_or_number, page_name};
use crate::inspect_report::PageReport;
use bits::Refusal;
use metadata::{ColumnMeta, DATA_PAGE, DATA_PAGE_V2, DICTIONARY_PAGE, DataPageHeader, PageHeader};
use schema::{Kind, Leaf};
use std::alloc::{AllocError, Global};

/// How many pages are listed of a file.
pub const MOST_PAGES: usize = 100_000;

/// How many bytes are looked at first where a page's header should be.
const BYTES_OF_HEADER: usize = 512;

/// How many times as many are looked at next, where it does not end in these.
const GROWTH: usize = 4;

/// How often that is done. Where a header does not end then, all that is before the footer is looked at, once for all pages.
const MOST_LOOKS: u32 = 6;

/// The pages of a chunk that are listed.
#[derive(Debug, Drop)]
pub struct Pages {
    pub listed: Vec<PageReport>,
    /// Why not all pages of the chunk are listed; None where they are.
    pub unlisted: Option<Unlisted>,
    /// Whether the headers raise a suspicion that `decode` refuses the pages.
    pub are_suspect: bool,
}

impl Pages {
    /// Pages of which no more are listed, since `decode` may refuse the others.
    pub fn cut(listed: Vec<PageReport>, why: Unlisted) -> Pages {
        Pages {
            listed,
            unlisted: Some(why),
            are_suspect: true,
        }
    }
}

/// Why not all pages of a chunk are listed.
#[derive(Debug, Clone, Copy, PartialEq, Eq)]
pub enum Unlisted {
    /// The pages are in another file.
    OtherFile,
    /// An offset is negative.
    Offset,
    /// There is no page header where one should be.
    Header,
    /// A page has a negative size, or goes beyond the bytes before the footer.
    Size,
    /// A page has a negative number of entries, or more than the chunk still lacks.
    Entries,
    /// [`MOST_PAGES`] are listed.
    Room,
}

impl Unlisted {
    /// Why, in words.
    pub fn words(self) -> &'static str {
        match self {
            Unlisted::OtherFile => "the pages are in another file",
            Unlisted::Offset => "an offset is negative",
            Unlisted::Header => "there is no page header where the next page should begin",
            Unlisted::Size => "a page does not end before the footer",
            Unlisted::Entries => "a page has more entries than the chunk",
            Unlisted::Room => "too many pages to list",
        }
    }
}

/// The numbers of the encodings that values are read in (`parquet.thrift`, Encoding), but for those that only
/// some types have.
const PLAIN: i32 = 0;

const PLAIN_DICTIONARY: i32 = 2;

const RLE: i32 = 3;

const DELTA_BINARY_PACKED: i32 = 5;

const DELTA_LENGTH_BYTE_ARRAY: i32 = 6;

const DELTA_BYTE_ARRAY: i32 = 7;

const BYTE_STREAM_SPLIT: i32 = 9;

const RLE_DICTIONARY: i32 = 8;

/// What the header that a page's type names says: the encoding of the values, the entries, and the nulls.
#[derive(Clone, Copy)]
struct Said {
    encoding: i32,
    entries: i32,
    nulls: Option<i32>,
}

/// Where the pages of a chunk start: at its dictionary's page, where the offset of one is given above 0 and
/// before the data page; else at the data page. None for an offset that cannot be.
pub fn start_of(meta: &ColumnMeta) -> Option<usize> {
    let page = usize::try_from(meta.data_page_offset).ok()?;
    match meta.dictionary_page_offset {
        Some(offset) => {
            let dictionary = usize::try_from(offset).ok()?;
            if dictionary > 0 && dictionary < page {
                Some(dictionary)
            } else {
                Some(page)
            }
        }
        None => Some(page),
    }
}

/// Lists the pages of a chunk by their headers, from where they start until they have the chunk's entries, at
/// most `room` of them. The footer begins at `end`. Where a header is refused, or a page goes beyond `end` or has
/// too many entries, the list ends there. Refused only when out of memory, or where the source cannot be read.
pub fn pages_of<S: ByteSource>(
    alloc: Global,
    source: &mut S,
    end: usize,
    meta: &ColumnMeta,
    leaf: Option<&Leaf>,
    room: usize,
) -> Result<Pages, S::Fault> {
    let mut listed = Vec::new(alloc);
    let Some(offset) = start_of(meta) else {
        return Ok(Pages::cut(listed, Unlisted::Offset));
    };
    let mut walk = Walk::new(end, offset, meta);
    for _ in 0..room {
        if walk.lacking <= 0 {
            break;
        }
        if let Some(unlisted) = walk.step(alloc, source, leaf, &mut listed)? {
            return Ok(Pages::cut(listed, unlisted));
        }
    }
    let unlisted = if walk.lacking > 0 {
        Some(Unlisted::Room)
    } else {
        None
    };
    Ok(Pages {
        listed,
        unlisted,
        are_suspect: walk.is_suspect,
    })
}

/// What the header that a page's type names says of the page. None for a page of another type.
fn said_of(header: &PageHeader) -> Option<Said> {
    match header.kind {
        DATA_PAGE => header.data_page_header.as_ref().map(|said| Said {
            encoding: said.encoding,
            entries: said.num_values,
            nulls: None,
        }),
        DATA_PAGE_V2 => header.data_page_header_v2.as_ref().map(|said| Said {
            encoding: said.encoding,
            entries: said.num_values,
            nulls: said.num_nulls,
        }),
        DICTIONARY_PAGE => header.dictionary_page_header.as_ref().map(|said| Said {
            encoding: said.encoding,
            entries: said.num_values,
            nulls: None,
        }),
        _ => None,
    }
}

/// Whether data pages of a leaf are read in this encoding.
fn is_read(encoding: i32, kind: Kind) -> bool {
    match encoding {
        PLAIN | PLAIN_DICTIONARY | RLE_DICTIONARY => true,
        RLE => kind == Kind::Boolean,
        DELTA_BINARY_PACKED => matches!(kind, Kind::Int32 | Kind::Int64),
        DELTA_LENGTH_BYTE_ARRAY => kind == Kind::ByteArray,
        DELTA_BYTE_ARRAY => matches!(kind, Kind::ByteArray | Kind::FixedLenByteArray(_)),
        BYTE_STREAM_SPLIT => matches!(kind, Kind::Int32 | Kind::Int64 | Kind::FixedLenByteArray(_)),
        _ => false,
    }
}

/// Whether the levels of a page are read: those of version 1 that the leaf has are in RLE.
fn has_read_levels(header: &PageHeader, leaf: &Leaf) -> bool {
    match &header.data_page_header {
        Some(own) if header.kind == DATA_PAGE => are_read_levels(own, leaf),
        _ => true,
    }
}

/// Whether the levels of a page of version 1 are read.
fn are_read_levels(header: &DataPageHeader, leaf: &Leaf) -> bool {
    let definition = header.definition_level_encoding.unwrap_or(RLE);
    let repetition = header.repetition_level_encoding.unwrap_or(RLE);
    (leaf.greatest_definition == 0 || definition == RLE)
        && (leaf.greatest_repetition == 0 || repetition == RLE)
}

/// Whether a page is one that `decode` may refuse for an encoding, by its header. Where all entries are null there are no values,
/// and any encoding of values is read: in a page of version 1 that is not seen.
fn is_suspect_page(header: &PageHeader, leaf: Option<&Leaf>, has_dictionary: bool) -> bool {
    let (Some(leaf), Some(said)) = (leaf, said_of(header)) else {
        return false;
    };
    if header.kind == DICTIONARY_PAGE {
        return said.encoding != PLAIN && said.encoding != PLAIN_DICTIONARY;
    }
    if said.entries <= said.nulls.unwrap_or(0) {
        return false;
    }
    let needs_dictionary = matches!(said.encoding, PLAIN_DICTIONARY | RLE_DICTIONARY);
    !has_read_levels(header, leaf)
        || !is_read(said.encoding, leaf.leaf_type.kind)
        || (needs_dictionary && !has_dictionary)
}

/// Which encoding of a data page that is refused for one it is, in words.
pub fn what_of_encoding(alloc: Global, page: &PageAt, leaf: &Leaf) -> Result<String, AllocError> {
    let offset = page.offset;
    let Some(said) = said_of(&page.header) else {
        return format!(in alloc; "an encoding of the page at {offset} is not read");
    };
    if !has_read_levels(&page.header, leaf) {
        return format!(in alloc; "the encoding of the levels of the page at {offset} is not read");
    }
    let encoding = name_or_number(alloc, encoding_name(said.encoding), said.encoding)?;
    if is_read(said.encoding, leaf.leaf_type.kind) {
        return format!(in alloc;
            "encoding {encoding} of the page at {offset} has no dictionary that is read"
        );
    }
    format!(in alloc; "encoding {encoding} of the page at {offset} is not read for this type")
}

/// The page at this offset, whose header has this many bytes.
fn page_of(
    alloc: Global,
    offset: usize,
    used: usize,
    header: &PageHeader,
) -> Result<PageReport, AllocError> {
    let said = said_of(header);
    let encoding = match said {
        Some(said) => Some(name_or_number(alloc, encoding_name(said.encoding), said.encoding)?),
        None => None,
    };
    Ok(PageReport {
        offset,
        kind: name_or_number(alloc, page_name(header.kind), header.kind)?,
        encoding,
        entries: said.map(|said| said.entries),
        nulls: said.and_then(|said| said.nulls),
        header_bytes: used,
        bytes: header.compressed_page_size,
    })
}

/// How many of the entries that a chunk lacks are still lacking after a page. None where the page has more.
fn lacking_after(lacking: i64, header: &PageHeader) -> Option<i64> {
    match header.kind {
        DATA_PAGE | DATA_PAGE_V2 => {
            let entries = i64::from(said_of(header)?.entries);
            if entries >= 0 && entries <= lacking {
                Some(lacking - entries)
            } else {
                None
            }
        }
        _ => Some(lacking),
    }
}

/// A data page of a chunk.
#[derive(Drop)]
pub struct PageAt {
    pub offset: usize,
    pub header: PageHeader,
    /// Whether a dictionary comes before it.
    pub has_dictionary: bool,
    /// Why no page is read after it, where its own header says so.
    pub ends: Option<Unlisted>,
}

/// The first data page with entries after so many entries of a chunk, by the headers of its pages; None where none is found, or
/// not among the first [`MOST_PAGES`]. `front` has the bytes of the file before its footer. Refused only when out of memory.
pub fn page_after(
    alloc: Global,
    front: &[u8],
    meta: &ColumnMeta,
    entries: u64,
) -> Result<Option<PageAt>, AllocError> {
    let Some(offset) = start_of(meta) else {
        return Ok(None);
    };
    let mut source = WholeBytes::new(front);
    let mut walk = Walk::new(front.len(), offset, meta);
    for _ in 0..MOST_PAGES {
        let Some((header, used)) = walk.header(alloc, &mut source)? else {
            return Ok(None);
        };
        let offset = walk.offset;
        let is_wanted = walk.has_passed(meta, entries) && has_entries(&header);
        let ends = walk.pass(used, &header);
        if is_wanted {
            return Ok(Some(PageAt {
                offset,
                header,
                has_dictionary: walk.has_dictionary,
                ends,
            }));
        }
        if ends.is_some() {
            return Ok(None);
        }
    }
    Ok(None)
}

/// Whether a page has entries, by its header.
fn has_entries(header: &PageHeader) -> bool {
    match said_of(header) {
        Some(said) => header.kind != DICTIONARY_PAGE && said.entries != 0,
        None => false,
    }
}

/// What stands where a page's header should be.
#[derive(Drop)]
enum Found {
    /// A header, and how many bytes it has.
    Header(PageHeader, usize),
    /// The bytes end before it does.
    Cut,
    /// Bytes that are no header, whatever follows.
    Other,
}

/// What stands at the start of these bytes. Refused only when out of memory.
fn found_in(alloc: Global, bytes: &[u8]) -> Result<Found, AllocError> {
    match PageHeader::read(alloc, bytes) {
        Ok((header, used)) => Ok(Found::Header(header, used)),
        Err(Refusal::Memory) => Err(AllocError),
        Err(Refusal::Truncated) => Ok(Found::Cut),
        Err(_) => Ok(Found::Other),
    }
}

/// A walk over the pages of a chunk.
#[derive(Drop)]
struct Walk {
    /// Where the footer begins.
    end: usize,
    offset: usize,
    lacking: i64,
    /// Whether a dictionary was passed.
    has_dictionary: bool,
    /// Whether a header that was passed raises a suspicion that `decode` refuses the pages.
    is_suspect: bool,
}

impl Walk {
    /// A walk that has passed no page, and begins at this offset.
    fn new(end: usize, offset: usize, meta: &ColumnMeta) -> Walk {
        Walk {
            end,
            offset,
            lacking: meta.num_values,
            has_dictionary: false,
            is_suspect: false,
        }
    }

    /// The header of the next page, and how many bytes it has; None where there is none. Few bytes are looked at first,
    /// and more where a header does not end in them. Refused only when out of memory, or where the source cannot be read.
    fn header<S: ByteSource>(
        &self,
        alloc: Global,
        source: &mut S,
    ) -> Result<Option<(PageHeader, usize)>, S::Fault> {
        let left = self.end.saturating_sub(self.offset);
        let mut count = BYTES_OF_HEADER;
        for _ in 0..MOST_LOOKS {
            source.look(self.offset, count.min(left))?;
            match found_in(alloc, source.window())? {
                Found::Header(header, used) => return Ok(Some((header, used))),
                Found::Cut if count < left => count = count.saturating_mul(GROWTH),
                _ => return Ok(None),
            }
        }
        self.header_in_all(alloc, source)
    }

    /// The header of the next page as [`header`](Walk::header); all that is before the footer is looked at.
    fn header_in_all<S: ByteSource>(
        &self,
        alloc: Global,
        source: &mut S,
    ) -> Result<Option<(PageHeader, usize)>, S::Fault> {
        source.look(0, self.end)?;
        match found_in(alloc, part_of(source.window(), self.offset, self.end))? {
            Found::Header(header, used) => Ok(Some((header, used))),
            _ => Ok(None),
        }
    }

    /// Whether so many entries of the chunk are passed.
    fn has_passed(&self, meta: &ColumnMeta, entries: u64) -> bool {
        i128::from(meta.num_values) - i128::from(self.lacking) >= i128::from(entries)
    }

    /// Goes to where the page after this one begins. Returns why that cannot be, where it cannot.
    fn pass(&mut self, used: usize, header: &PageHeader) -> Option<Unlisted> {
        let Some(lacking) = lacking_after(self.lacking, header) else {
            return Some(Unlisted::Entries);
        };
        let Some(next) = after(self.offset, used, header, self.end) else {
            return Some(Unlisted::Size);
        };
        self.lacking = lacking;
        self.offset = next;
        self.has_dictionary = self.has_dictionary || header.kind == DICTIONARY_PAGE;
        None
    }

    /// Reads a page's header, lists the page, and goes to where the next one begins. Returns why that cannot
    /// be, where it cannot.
    fn step<S: ByteSource>(
        &mut self,
        alloc: Global,
        source: &mut S,
        leaf: Option<&Leaf>,
        listed: &mut Vec<PageReport>,
    ) -> Result<Option<Unlisted>, S::Fault> {
        let Some((header, used)) = self.header(alloc, source)? else {
            return Ok(Some(Unlisted::Header));
        };
        Ok(self.list(alloc, leaf, &header, used, listed)?)
    }

    /// Lists the page of this header, which has so many bytes, and goes to where the next one begins. Returns why that
    /// cannot be, where it cannot.
    fn list(
        &mut self,
        alloc: Global,
        leaf: Option<&Leaf>,
        header: &PageHeader,
        used: usize,
        listed: &mut Vec<PageReport>,
    ) -> Result<Option<Unlisted>, AllocError> {
        listed.push(page_of(alloc, self.offset, used, header)?)?;
        self.is_suspect = self.is_suspect || is_suspect_page(header, leaf, self.has_dictionary);
        Ok(self.pass(used, header))
    }
}

/// The offset after a page; None where it goes beyond `end`.
fn after(offset: usize, used: usize, header: &PageHeader, end: usize) -> Option<usize>
    ensures { IfSome result (λ next. next ≤ end) }
{
    let body = usize::try_from(header.compressed_page_size).ok()?;
    let next = offset.checked_add(used)?.checked_add(body)?;
    if next <= end { Some(next) } else { None }
}
