//! From bytes to pages.

ghost use Rattle.std.specs.Prelude.{◌≡◌, ◌⊎◌, ◌≤◌, ◌++◌, ℕ, pos, List, length, IfOk, OnOk, Err};
ghost use Rattle.bits.specs.Refusals.{OnFault, RefusedOnly, RefusedMemoryOnly};
ghost use Rattle.bits.specs.Codec.{NothingStands};
ghost use Rattle.schema.specs.Views.{leaf_view};
ghost use Rattle.metadata.specs.FromTree.{page_header};
ghost use Rattle.metadata.specs.Records.{PageHeader as PageHeaderShown};
ghost use Rattle.metadata.specs.Answers.{StandsFor};
ghost use Rattle.metadata.specs.Views.{page_header_view};
ghost use Rattle.pages.specs.Page.{Page, IsPage, IsBody, IsFramed};
ghost use Rattle.pages.specs.Chunk.{entries_of};
ghost use Rattle.pages.specs.Limits.{IsBodyOver, IsPageOver, IsOfPages};
ghost use Rattle.pages.specs.Apart.{IsOnlyPage, IsPageOfAtMost};
ghost use Rattle.pages.specs.Views.{page_view, dictionary_view};
ghost use Rattle.pages.specs.inner.Reading.{RuledOut};

use crate::body_reading::{read_data_page_v1, read_data_page_v2, read_dictionary};
use crate::laws::one_page;
use crate::page::PageRef;
use crate::standing::Standing;
use bits::{R, Refusal};
use metadata::{DATA_PAGE, DATA_PAGE_V2, DICTIONARY_PAGE, PageHeader, one_page_header};
use schema::{Leaf, ValueRef};
use std::alloc::Global;

/// The page at the front of the bytes, in a chunk of this leaf that has this dictionary and lacks `left`
/// entries, and how many bytes the page takes, its header among them. What follows is not looked at.
/// (parquet-format, README.md, "Data Pages".)
///
/// Pages of a type other than DATA_PAGE, DICTIONARY_PAGE and DATA_PAGE_V2 are skipped. Values are borrowed
/// from the bytes, or from the dictionary. Each byte of the page is read once, but for the fields of its
/// header, and text, which is checked to be UTF-8. Room is asked for only for levels and values that the
/// bytes hold.
///
/// Refused Limit only where a value is announced with more than 16 MiB. For any other fault, lack of
/// memory aside, only where no page with at most `left` entries stands at the front: Thrift where the
/// header is no record, Page where the page goes beyond the bytes, where its size or its count is below 0,
/// and where it has more than `left` entries, Encoding where the format has no such values or levels,
/// Truncated where the body ends before its levels or values do, Levels where a level is above the
/// greatest, Value where a width, an index or a length cannot be, Utf8 where a value should be text and is
/// not.
pub fn read_page<'a>(
    alloc: Global,
    bytes: &'a [u8],
    leaf: &Leaf,
    dictionary: Option<&[ValueRef<'a>]>,
    left: usize,
) -> R<(PageRef<'a>, usize)>
    ensures stands { let d = dictionary_view dictionary.entry in IfOk result (λ x. IsPage (leaf_view leaf.now) d bytes.now (page_view x.0) x.1) }
    ensures alone { let d = dictionary_view dictionary.entry in IfOk result (λ x. IsOnlyPage (leaf_view leaf.now) d bytes.now (page_view x.0) x.1) }
    ensures within { IfOk result (λ x. x.1 ≤ length bytes.now) }
    ensures at_most_left { IfOk result (λ x. length (entries_of (page_view x.0)) ≤ left) }
    ensures within_limits { OnOk result (IsPageOver (leaf_view leaf.now) bytes.now → ⊥) }
    ensures only { let d = dictionary_view dictionary.entry in OnFault result (NothingStands (IsPageOfAtMost left (leaf_view leaf.now) d bytes.now)) }
    ensures limit { result ≡ Err Refusal.Limit → IsPageOver (leaf_view leaf.now) bytes.now }
    ensures which { RefusedOnly IsOfPages result }
{
    read_page_by_standing(alloc, bytes, leaf, dictionary, left, Standing::Unknown)
}

/// The page at the front of the bytes, as [`read_page`] gives it, where one with at most `left` entries is
/// known to stand there within the limits: it has been read before. Lengths and texts in PLAIN are not
/// checked again.
///
/// It fails only when out of memory.
pub fn read_page_again<'a>(
    alloc: Global,
    bytes: &'a [u8],
    leaf: &Leaf,
    dictionary: Option<&[ValueRef<'a>]>,
    left: usize,
) -> R<(PageRef<'a>, usize)>
    requires stood { NothingStands (IsPageOfAtMost left (leaf_view leaf.now) (dictionary_view dictionary) bytes.now) → ⊥ }
    requires within_limits { IsPageOver (leaf_view leaf.now) bytes.now → ⊥ }
    ensures stands { let d = dictionary_view dictionary.entry in IfOk result (λ x. IsPage (leaf_view leaf.now) d bytes.now (page_view x.0) x.1) }
    ensures alone { let d = dictionary_view dictionary.entry in IfOk result (λ x. IsOnlyPage (leaf_view leaf.now) d bytes.now (page_view x.0) x.1) }
    ensures within { IfOk result (λ x. x.1 ≤ length bytes.now) }
    ensures at_most_left { IfOk result (λ x. length (entries_of (page_view x.0)) ≤ left) }
    ensures which { RefusedMemoryOnly result }
{
    read_page_by_standing(alloc, bytes, leaf, dictionary, left, Standing::Known)
}

/// The page at the front of the bytes, as [`read_page`] gives it. Where it is known to stand, its values
/// in PLAIN are not checked.
fn read_page_by_standing<'a>(
    alloc: Global,
    bytes: &'a [u8],
    leaf: &Leaf,
    dictionary: Option<&[ValueRef<'a>]>,
    left: usize,
    standing: Standing,
) -> R<(PageRef<'a>, usize)>
    requires stood { RuledOut standing (NothingStands (IsPageOfAtMost left (leaf_view leaf.now) (dictionary_view dictionary) bytes.now)) }
    requires known_within_limits { RuledOut standing (IsPageOver (leaf_view leaf.now) bytes.now) }
    ensures stands { let d = dictionary_view dictionary.entry in IfOk result (λ x. IsPage (leaf_view leaf.now) d bytes.now (page_view x.0) x.1) }
    ensures alone { let d = dictionary_view dictionary.entry in IfOk result (λ x. IsOnlyPage (leaf_view leaf.now) d bytes.now (page_view x.0) x.1) }
    ensures within { IfOk result (λ x. x.1 ≤ length bytes.now) }
    ensures at_most_left { IfOk result (λ x. length (entries_of (page_view x.0)) ≤ left) }
    ensures within_limits { OnOk result (IsPageOver (leaf_view leaf.now) bytes.now → ⊥) }
    ensures only { let d = dictionary_view dictionary.entry in OnFault result (NothingStands (IsPageOfAtMost left (leaf_view leaf.now) d bytes.now)) }
    ensures limit { result ≡ Err Refusal.Limit → IsPageOver (leaf_view leaf.now) bytes.now }
    ensures which { RefusedOnly IsOfPages result }
{
    one_page_header();
    one_page();
    let (header, body, used) = read_frame(alloc, bytes)?;
    let page = read_body(alloc, &header, body, leaf, dictionary, left, standing)?;
    Ok((page, used))
}

/// The header at the front of the bytes, the body after it, and how many bytes both take.
fn read_frame<'a>(alloc: Global, bytes: &'a [u8]) -> R<(PageHeader, &'a [u8], usize)>
    ensures stands { IfOk result (λ x. IsFramed bytes.now (page_header_view x.0) x.1.now x.2) }
    ensures within { IfOk result (λ x. x.2 ≤ length bytes.now) }
    ensures only { OnFault result ((header : PageHeaderShown) (body : List ℕ) (used : ℕ) → IsFramed bytes.now header body used → ⊥) }
    ensures which { RefusedOnly (λ e. (e ≡ Refusal.Thrift) ⊎ (e ≡ Refusal.Page)) result }
{
    one_page_header();
    let (header, header_end) = read_header(alloc, bytes)?;
    let body = read_front(bytes.split_at(header_end).1, header.compressed_page_size)?;
    Ok((header, body, header_end + body.len()))
}

/// The first `size` bytes. Refused Page where that is below 0 or goes beyond them.
fn read_front(bytes: &[u8], size: i32) -> R<&[u8]>
    ensures stands { IfOk result (λ front. (size ≡ pos (length front.now)) × ((rest : List ℕ) × (bytes.now ≡ front.now ++ rest))) }
    ensures only { OnFault result ((front rest : List ℕ) → size ≡ pos (length front) → bytes.now ≡ front ++ rest → ⊥) }
    ensures which { RefusedOnly (λ e. e ≡ Refusal.Page) result }
{
    match usize::try_from(size) {
        Ok(size) if size <= bytes.len() => Ok(bytes.split_at(size).0),
        _ => Err(Refusal::Page),
    }
}

/// The header at the front of the bytes, and how many bytes it takes. Where the bytes end before it
/// does, the page goes beyond them.
fn read_header(alloc: Global, bytes: &[u8]) -> R<(PageHeader, usize)>
    ensures stands { IfOk result (λ x. StandsFor page_header bytes.now (page_header_view x.0) x.1) }
    ensures within { IfOk result (λ x. x.1 ≤ length bytes.now) }
    ensures only { OnFault result (NothingStands (StandsFor page_header bytes.now)) }
    ensures which { RefusedOnly (λ e. (e ≡ Refusal.Thrift) ⊎ (e ≡ Refusal.Page)) result }
{
    match PageHeader::read(alloc, bytes) {
        Err(Refusal::Truncated) => Err(Refusal::Page),
        read => read,
    }
}

/// What the body of a page stands for. Where it is known to, its values in PLAIN are not checked.
fn read_body<'a>(
    alloc: Global,
    header: &PageHeader,
    body: &'a [u8],
    leaf: &Leaf,
    dictionary: Option<&[ValueRef<'a>]>,
    left: usize,
    standing: Standing,
) -> R<PageRef<'a>>
    requires stood { let d = dictionary_view dictionary in
        RuledOut standing ((page : Page) → IsBody (leaf_view leaf.now) d (page_header_view header.now) body.now page → length (entries_of page) ≤ left → ⊥) }
    requires known_within_limits { RuledOut standing (IsBodyOver (leaf_view leaf.now) (page_header_view header.now) body.now) }
    ensures stands { let d = dictionary_view dictionary.entry in
        IfOk result (λ p. IsBody (leaf_view leaf.now) d (page_header_view header.now) body.now (page_view p)) }
    ensures at_most_left { IfOk result (λ p. length (entries_of (page_view p)) ≤ left) }
    ensures within_limits { OnOk result (IsBodyOver (leaf_view leaf.now) (page_header_view header.now) body.now → ⊥) }
    ensures only { let d = dictionary_view dictionary.entry in
        OnFault result ((page : Page) → IsBody (leaf_view leaf.now) d (page_header_view header.now) body.now page → length (entries_of page) ≤ left → ⊥) }
    ensures limit { result ≡ Err Refusal.Limit → IsBodyOver (leaf_view leaf.now) (page_header_view header.now) body.now }
    ensures which { RefusedOnly IsOfPages result }
{
    match header.kind {
        DATA_PAGE => match &header.data_page_header {
            Some(own) => {
                let page = read_data_page_v1(alloc, own, body, leaf, dictionary, left, standing)?;
                Ok(PageRef::Data(page))
            }
            None => Err(Refusal::Thrift),
        },
        DATA_PAGE_V2 => match &header.data_page_header_v2 {
            Some(own) => {
                let page = read_data_page_v2(alloc, own, body, leaf, dictionary, left, standing)?;
                Ok(PageRef::Data(page))
            }
            None => Err(Refusal::Thrift),
        },
        DICTIONARY_PAGE => match &header.dictionary_page_header {
            Some(own) => {
                let values = read_dictionary(alloc, own, leaf.leaf_type.kind, body)?;
                Ok(PageRef::Dictionary(values))
            }
            None => Err(Refusal::Thrift),
        },
        _ => Ok(PageRef::Skipped(body)),
    }
}
