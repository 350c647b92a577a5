//! The sections of levels in the body of a data page.

ghost use Rattle.std.specs.Prelude.{◌≡◌, ◌⊎◌, ◌*◌, ◌^◌, ◌<◌, ◌≤◌, ◌++◌, ◌↔◌, ℕ, pos, List, All, length, IfOk, IsTrue};
ghost use Rattle.bits.specs.Refusals.{OnFault, RefusedOnly};
ghost use Rattle.schema.specs.Views.{leaf_view};
ghost use Rattle.metadata.specs.Views.{data_page_header_view, data_page_header_v2_view};
ghost use Rattle.pages.specs.Encodings.{IsPrefixed};
ghost use Rattle.pages.specs.Page.{AreLevels, IsRle, IsSectionV1, IsSectionV2, AreLevelsV1, AreLevelsV2};
ghost use Rattle.pages.specs.Left.{levels_of};
ghost use Rattle.pages.specs.inner.Reading.{AreWithin, IsOfLevels};

use crate::level_list::LevelList;
use bits::{R, Refusal};
use byteorder::{ByteOrder, LittleEndian};
use metadata::{DataPageHeader, DataPageHeaderV2};
use schema::Leaf;
use std::alloc::Global;

/// The number of the encoding RLE (`parquet.thrift`, Encoding).
const RLE: i32 = 3;

/// The levels of a page of version 1, repetition levels first, and the bytes after them.
pub fn read_levels_v1<'a>(
    alloc: Global,
    header: &DataPageHeader,
    body: &'a [u8],
    leaf: &Leaf,
    count: usize,
) -> R<(LevelList, LevelList, &'a [u8])>
    requires { header.now.num_values ≡ pos count }
    ensures stands { IfOk result (λ x. AreLevelsV1 (leaf_view leaf.now) (data_page_header_view header.now) body.now (levels_of x.0) (levels_of x.1) x.2.now) }
    ensures within { IfOk result (λ x. AreWithin (leaf_view leaf.now) (levels_of x.0) (levels_of x.1)) }
    ensures only { OnFault result ((rs ds text : List ℕ) → AreLevelsV1 (leaf_view leaf.now) (data_page_header_view header.now) body.now rs ds text
        → AreWithin (leaf_view leaf.now) rs ds → ⊥) }
    ensures which { RefusedOnly IsOfLevels result }
{
    hybrid_rle::one_list();
    let (repetitions, between) = read_section_v1(
        alloc,
        leaf.greatest_repetition,
        header.repetition_level_encoding,
        body,
        count,
    )?;
    let (definitions, rest) = read_section_v1(
        alloc,
        leaf.greatest_definition,
        header.definition_level_encoding,
        between,
        count,
    )?;
    Ok((repetitions, definitions, rest))
}

/// The levels of a page of version 2, repetition levels first, and the bytes after them.
pub fn read_levels_v2<'a>(
    alloc: Global,
    header: &DataPageHeaderV2,
    body: &'a [u8],
    leaf: &Leaf,
    count: usize,
) -> R<(LevelList, LevelList, &'a [u8])>
    requires { header.now.num_values ≡ pos count }
    ensures stands { IfOk result (λ x. AreLevelsV2 (leaf_view leaf.now) (data_page_header_v2_view header.now) body.now (levels_of x.0)
        (levels_of x.1) x.2.now) }
    ensures within { IfOk result (λ x. AreWithin (leaf_view leaf.now) (levels_of x.0) (levels_of x.1)) }
    ensures only { OnFault result ((rs ds text : List ℕ)
        → AreLevelsV2 (leaf_view leaf.now) (data_page_header_v2_view header.now) body.now rs ds text → AreWithin (leaf_view leaf.now) rs ds → ⊥) }
    ensures which { RefusedOnly IsOfLevels result }
{
    hybrid_rle::one_list();
    let (repetitions, between) = read_section_v2(
        alloc,
        leaf.greatest_repetition,
        header.repetition_levels_byte_length,
        body,
        count,
    )?;
    let (definitions, rest) = read_section_v2(
        alloc,
        leaf.greatest_definition,
        header.definition_levels_byte_length,
        between,
        count,
    )?;
    Ok((repetitions, definitions, rest))
}

/// The bytes after their length in four bytes, and those after them. Refused Truncated where they are
/// not there.
pub fn split_prefixed(bytes: &[u8]) -> R<(&[u8], &[u8])>
    ensures stands { IfOk result (λ x. IsPrefixed bytes.now x.0.now x.1.now) }
    ensures only { OnFault result ((inside rest : List ℕ) → IsPrefixed bytes.now inside rest → ⊥) }
    ensures which { RefusedOnly (λ e. e ≡ Refusal.Truncated) result }
{
    if bytes.len() < 4 {
        return Err(Refusal::Truncated);
    }
    let (announced, rest) = bytes.split_at(4);
    let size = LittleEndian::read_u32(announced) as usize;
    if size > rest.len() {
        return Err(Refusal::Truncated);
    }
    Ok(rest.split_at(size))
}

/// How many binary digits a level that is above 0 has.
pub fn width_of(level: u32) -> u32
    requires { 0 < level }
    ensures holds { level < 2 ^ result }
    ensures least { 2 ^ result ≤ 2 * level }
    ensures narrow { result ≤ 32 }
{
    32 - level.leading_zeros()
}

/// The levels in the section at the front, after its length in four bytes, and the bytes after the
/// section. There is no section where the greatest level is 0.
fn read_section_v1<'a>(
    alloc: Global,
    greatest: u32,
    encoding: Option<i32>,
    bytes: &'a [u8],
    count: usize,
) -> R<(LevelList, &'a [u8])>
    ensures stands { IfOk result (λ x. IsSectionV1 greatest encoding bytes.now (levels_of x.0) x.1.now) }
    ensures count { IfOk result (λ x. length (levels_of x.0) ≡ count) }
    ensures within { IfOk result (λ x. All (λ l. l ≤ greatest) (levels_of x.0)) }
    ensures only { OnFault result ((ls rest : List ℕ) → length ls ≡ count → IsSectionV1 greatest encoding bytes.now ls rest → All (λ l. l ≤ greatest) ls → ⊥) }
    ensures which { RefusedOnly IsOfLevels result }
{
    if greatest == 0 {
        return Ok((LevelList::Zeros(count), bytes));
    }
    if !is_rle(encoding) {
        return Err(Refusal::Encoding);
    }
    let (section, rest) = split_prefixed(bytes)?;
    let levels = read_levels(alloc, greatest, section, count)?;
    Ok((LevelList::Listed(levels), rest))
}

/// The levels in the section at the front, whose length the header has, and the bytes after the
/// section. Where the greatest level is 0, the bytes of the section are skipped.
fn read_section_v2<'a>(
    alloc: Global,
    greatest: u32,
    size: i32,
    bytes: &'a [u8],
    count: usize,
) -> R<(LevelList, &'a [u8])>
    ensures stands { IfOk result (λ x. IsSectionV2 greatest size bytes.now (levels_of x.0) x.1.now) }
    ensures count { IfOk result (λ x. length (levels_of x.0) ≡ count) }
    ensures within { IfOk result (λ x. All (λ l. l ≤ greatest) (levels_of x.0)) }
    ensures only { OnFault result ((ls rest : List ℕ) → length ls ≡ count → IsSectionV2 greatest size bytes.now ls rest → All (λ l. l ≤ greatest) ls → ⊥) }
    ensures which { RefusedOnly IsOfLevels result }
{
    let (section, rest) = split_sized(bytes, size)?;
    if greatest == 0 {
        return Ok((LevelList::Zeros(count), rest));
    }
    let levels = read_levels(alloc, greatest, section, count)?;
    Ok((LevelList::Listed(levels), rest))
}

/// Whether the encoding of levels is RLE, or not said.
fn is_rle(encoding: Option<i32>) -> bool
    ensures { IsTrue result ↔ IsRle encoding }
{
    match encoding {
        None => true,
        Some(number) => number == RLE,
    }
}

/// The first `size` bytes, and those after them. Refused Page where the size is below 0, and Truncated
/// where it goes beyond the bytes.
fn split_sized(bytes: &[u8], size: i32) -> R<(&[u8], &[u8])>
    ensures stands { IfOk result (λ x. (size ≡ pos (length x.0.now)) × (bytes.now ≡ x.0.now ++ x.1.now)) }
    ensures only { OnFault result ((inside rest : List ℕ) → size ≡ pos (length inside) → bytes.now ≡ inside ++ rest → ⊥) }
    ensures which { RefusedOnly (λ e. (e ≡ Refusal.Page) ⊎ (e ≡ Refusal.Truncated)) result }
{
    match usize::try_from(size) {
        Err(_) => Err(Refusal::Page),
        Ok(size) if size > bytes.len() => Err(Refusal::Truncated),
        Ok(size) => Ok(bytes.split_at(size)),
    }
}

/// The first `count` levels by the hybrid. Refused Levels where one is above the greatest.
fn read_levels(alloc: Global, greatest: u32, bytes: &[u8], count: usize) -> R<Vec<u32>>
    requires { 0 < greatest }
    ensures stands { IfOk result (λ levels. AreLevels greatest bytes.now levels.items) }
    ensures count { IfOk result (λ levels. length levels.items ≡ count) }
    ensures within { IfOk result (λ levels. All (λ l. l ≤ greatest) levels.items) }
    ensures only { OnFault result ((ls : List ℕ) → length ls ≡ count → AreLevels greatest bytes.now ls → All (λ l. l ≤ greatest) ls → ⊥) }
    ensures which { RefusedOnly IsOfLevels result }
{
    hybrid_rle::one_list();
    let (levels, _) = hybrid_rle::decode::<u32>(alloc, width_of(greatest), bytes, count)?;
    if !are_within(&levels, greatest) {
        return Err(Refusal::Levels);
    }
    Ok(levels)
}

/// Whether no level is above the greatest.
fn are_within(levels: &[u32], greatest: u32) -> bool
    ensures { IsTrue result ↔ All (λ l. l ≤ greatest) levels.now }
{
    levels.iter().all(|level| *level <= greatest)
}
