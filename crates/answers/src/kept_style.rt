//! The style of the groups that are there, for a call that keeps it.

ghost use Rattle.std.specs.Prelude.{◌≡◌, ◌↔◌, map, Bool, true, false, IsTrue, IfOk, IfErr};
ghost use Rattle.std.specs.Ordering.{int_eq};
ghost use Rattle.std.specs.List.{list_any};
ghost use Rattle.bits.specs.declared.refusal.Refusal.TheVariants.{Memory};
ghost use Rattle.bits.specs.Refusals.{RefusedMemoryOnly};
ghost use Rattle.metadata.specs.Views.{chunk_meta_view};
ghost use Rattle.schema.specs.Keys.{key_columns_view, places_of};
ghost use Rattle.filter.specs.Test.{tests_in};
ghost use Rattle.filter.specs.RuledOut.{RuledOut};
ghost use Rattle.manifest.specs.Groups.{Group as GroupShown, group_view, root_of};
ghost use Rattle.answers.specs.Kept.{is_encoded, has_encoding, style_in, style_of, first_style, is_numbered, TellsWhichMayHold, IsRestyled, StaysOpened};

use bits::{R, Refusal};
use dataset_words::Change;
use disk::Disk;
use filter::Filter;
use jsonrows::filter_from_as;
use manifest::{Group, Manifest};
use metadata::ChunkMeta;
use planning::plan_rewrite;
use row_group::Style;
use schema::KeyColumn;
use std::alloc::Global;
use store::Store;

/// The numbers of encodings (`parquet.thrift`, Encoding).
const DELTA_BINARY_PACKED: i32 = 5;

const DELTA_LENGTH_BYTE_ARRAY: i32 = 6;

const DELTA_BYTE_ARRAY: i32 = 7;

const RLE_DICTIONARY: i32 = 8;

const BYTE_STREAM_SPLIT: i32 = 9;

/// The style of the first group of a table, in table order, that a change writes anew: of a rewrite the first of its groups, of a
/// removal the first whose key and statistics do not rule out that a row of it goes. None where there is no such group, and for
/// other changes. Refused as `filter_from_as` and [`Filter::new`] refuse the filter of a removal, read with texts or without; else only when out of memory.
pub fn kept_style(
    alloc: Global,
    table: &Manifest,
    change: &Change<'_>,
    texts: bool,
) -> R<Option<Style>> {
    match change {
        Change::Rewrite { numbers } => style_among(alloc, table, numbers.as_slice()),
        Change::RewriteSmall { min_rows } => {
            let numbers = plan_rewrite(alloc, table.groups(), *min_rows)?;
            style_among(alloc, table, numbers.as_slice())
        }
        Change::RewriteAll => style_of_first(alloc, table),
        Change::Remove { filter } => {
            let terms = filter_from_as(alloc, table.schema(), filter, texts)?;
            let filter = Filter::new(alloc, table.schema(), terms.as_slice())?;
            style_left_by(alloc, table, &filter)
        }
        _ => Ok(None),
    }
}

/// Lets a store, where `keeps` says so, write the new groups of a change in the style of the first group that the change writes
/// anew. It fails only when out of memory: a filter that is refused is refused again by the change.
pub fn keep_style<D: Disk>(
    alloc: Global,
    store: &mut Store<D>,
    change: &Change<'_>,
    keeps: bool,
    texts: bool,
) -> R<()>
    ensures style { IsRestyled store.old store.new }
    ensures stands { StaysOpened D.state store.old store.new }
    ensures other { keeps ≡ false → store.new ≡ store.old }
    ensures refused { IfErr result (λ e. (e ≡ Memory) × (store.new ≡ store.old)) }
{
    if !keeps {
        return Ok(());
    }
    match kept_style(alloc, store.manifest(), change, texts) {
        Ok(Some(style)) => {
            store.set_style(style);
            Ok(())
        }
        Err(Refusal::Memory) => Err(Refusal::Memory),
        _ => Ok(()),
    }
}

/// The style of the first group of a table; None where it has no groups.
fn style_of_first(alloc: Global, table: &Manifest) -> R<Option<Style>>
    ensures style { IfOk result (λ style. style ≡ first_style (λ _. true) (root_of table.now).groups) }
    ensures which { RefusedMemoryOnly result }
{
    match table.groups().group_at(0) {
        Some(group) => {
            let style = style_of(alloc, group)?;
            Ok(Some(style))
        }
        None => Ok(None),
    }
}

/// The style of the first group of a table that has one of these numbers; None where none has.
fn style_among(alloc: Global, table: &Manifest, numbers: &[u64]) -> R<Option<Style>>
    ensures style { IfOk result (λ style. style ≡ first_style (is_numbered numbers.now) (root_of table.now).groups) }
    ensures which { RefusedMemoryOnly result }
{
    let groups = table.groups();
    for place in 0..groups.len() {
        match groups.group_at(place) {
            Some(group) => if is_numbered(group, numbers) {
                let style = style_of(alloc, group)?;
                return Ok(Some(style));
            },
            None => return Ok(None),
        }
    }
    Ok(None)
}

/// Whether a group has one of these numbers.
fn is_numbered(group: &Group, numbers: &[u64]) -> bool
    ensures { result ≡ is_numbered numbers.now (group_view group.now) }
{
    for number in numbers {
        if group.number == *number {
            return true;
        }
    }
    false
}

/// The style of the first group of a table that a filter does not rule out; None where it rules out all.
fn style_left_by(alloc: Global, table: &Manifest, filter: &Filter) -> R<Option<Style>>
    ensures style { (is : GroupShown → Bool) → TellsWhichMayHold (root_of table.now).keys (tests_in filter.now) is
        → IfOk result (λ style. style ≡ first_style is (root_of table.now).groups) }
    ensures which { RefusedMemoryOnly result }
{
    let groups = table.groups();
    for place in 0..groups.len() {
        match groups.group_at(place) {
            Some(group) => if may_hold(group, table.keys(), filter) {
                let style = style_of(alloc, group)?;
                return Ok(Some(style));
            },
            None => return Ok(None),
        }
    }
    Ok(None)
}

/// Whether the key and the statistics of a group do not rule out that a row of it satisfies a filter.
fn may_hold(group: &Group, keys: &[KeyColumn], filter: &Filter) -> bool
    ensures { IsTrue result ↔ (RuledOut (tests_in filter.now) (places_of (key_columns_view keys.now)) (group_view group.now).key (group_view group.now).known → ⊥) }
{
    !filter.ruled_out(keys, &group.key, &group.stats)
}

/// The style in which a group was written, by the encodings of its chunks. It fails only when out of memory.
fn style_of(alloc: Global, group: &Group) -> R<Style>
    ensures style { IfOk result (λ style. style ≡ style_of (group_view group.now)) }
    ensures which { RefusedMemoryOnly result }
{
    let chunks = group.chunks.to_chunks(alloc)?;
    Ok(style_in(chunks.as_slice()))
}

/// The style in which chunks were written, by their encodings.
fn style_in(chunks: &[ChunkMeta]) -> Style
    ensures { result ≡ style_in (map chunk_meta_view chunks.now) }
{
    if has_encoding(chunks, RLE_DICTIONARY) {
        return Style::Dictionary;
    }
    if has_encoding(chunks, BYTE_STREAM_SPLIT) {
        return Style::Split;
    }
    if has_encoding(chunks, DELTA_BYTE_ARRAY) {
        return Style::Delta;
    }
    if has_encoding(chunks, DELTA_LENGTH_BYTE_ARRAY) {
        return Style::Lengths;
    }
    if has_encoding(chunks, DELTA_BINARY_PACKED) {
        return Style::Delta;
    }
    Style::Plain
}

/// Whether one of the chunks has values in the encoding of this number.
fn has_encoding(chunks: &[ChunkMeta], number: i32) -> bool
    ensures { result ≡ has_encoding number (map chunk_meta_view chunks.now) }
{
    for chunk in chunks {
        if is_encoded(chunk, number) {
            return true;
        }
    }
    false
}

/// Whether a chunk has values in the encoding of this number.
fn is_encoded(chunk: &ChunkMeta, number: i32) -> bool
    ensures { result ≡ is_encoded number (chunk_meta_view chunk.now) }
{
    match &chunk.meta_data.encodings {
        Some(encodings) => is_among(encodings.as_slice(), number),
        None => false,
    }
}

/// Whether a number is among these.
fn is_among(numbers: &[i32], number: i32) -> bool
    ensures { result ≡ list_any (int_eq number) numbers.now }
{
    for found in numbers {
        if *found == number {
            return true;
        }
    }
    false
}
