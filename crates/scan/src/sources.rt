//! Readers over the bytes of chunks.

ghost use Rattle.std.specs.Prelude.{◌≡◌, ◌⊎◌, List, [], ◌∷◌, length, map, IfOk, OnOk, IfErr};
ghost use Rattle.bits.specs.Refusals.{RefusedOnly, RefusedMemoryOnly};
ghost use Rattle.schema.specs.Stripe.{Entry, leaves_of};
ghost use Rattle.schema.specs.Values.{ValueTrees};
ghost use Rattle.schema.specs.Views.{leaf_view};
ghost use Rattle.metadata.specs.Views.{chunk_meta_view};
ghost use Rattle.assemble.specs.Columns.{Columns};
ghost use Rattle.assemble.specs.Sources.{Precede};
ghost use Rattle.assemble.specs.Standing.{AllStand};
ghost use Rattle.filter.specs.Test.{tests_in};
ghost use Rattle.filter.specs.Verdicts.{verdicts_in, verdicts_of, IsPutAt};
ghost use Rattle.row_group.specs.Left.{chunk_stands};
ghost use Rattle.scan.specs.Faults.{IsOfParts};
ghost use Rattle.scan.specs.inner.Cells.{value_in};
ghost use Rattle.scan.specs.inner.Texts.{IsHeld, AreHeld, HoldPicked, texts_view};
ghost use Rattle.scan.specs.inner.Uses.{numbers_of, picked};

use crate::leaf_uses::LeafUse;
use assemble::EntrySource;
use bits::{R, Refusal};
use filter::{Filter, Verdicts};
use metadata::ChunkMeta;
use row_group::ChunkReader;
use schema::{Leaf, Schema, ValueRef};
use std::alloc::Global;

/// A reader for each leaf that is picked, in the order of the leaves. A chunk that was read for the filter lies in
/// `first`, another one in `later`.
pub fn sources_of<'a>(
    alloc: Global,
    schema: &'a Schema,
    chunks: &[ChunkMeta],
    uses: &[LeafUse],
    first: &'a [Vec<u8>],
    later: &'a [Vec<u8>],
    for_filter: bool,
) -> R<Vec<ChunkReader<'a>>>
    requires uses { length uses.now ≡ length (leaves_of schema.now) }
    requires first { length first.now ≡ length (leaves_of schema.now) }
    requires later { length later.now ≡ length (leaves_of schema.now) }
    ensures stands { IfOk result (λ rs. (cols : Columns)
        → AreHeld for_filter (map chunk_meta_view chunks.now) (leaves_of schema.now) uses.now (texts_view first.now) (texts_view later.now) cols
        → AllStand chunk_stands rs.items (picked for_filter uses.now cols)) }
    ensures holds { IfOk result (λ rs. (own : Columns) → AllStand chunk_stands rs.items own
        → HoldPicked for_filter (map chunk_meta_view chunks.now) (leaves_of schema.now) uses.now (texts_view first.now) (texts_view later.now) own) }
    ensures only { (cols : Columns)
        → AreHeld for_filter (map chunk_meta_view chunks.now) (leaves_of schema.now) uses.now (texts_view first.now) (texts_view later.now) cols
        → RefusedMemoryOnly result }
    ensures as_many { IfOk result (λ rs. length rs.items ≡ length (numbers_of for_filter 0 uses.now)) }
    ensures which { RefusedOnly IsOfParts result }
{
    let mut sources = Vec::new(alloc);
    for (number, leaf) in schema.leaves().iter().enumerate() {
        let usage = uses[number];
        if !usage.is_picked(for_filter) {
            continue;
        }
        let text = if usage.is_filtered {
            &first[number]
        } else {
            &later[number]
        };
        let source = source_of(alloc, chunks, usage.chunk, leaf, text.as_slice())?;
        sources.push(source)?;
    }
    Ok(sources)
}

/// A reader of the chunk with this index, whose bytes these are. Refused Schema where there is none.
fn source_of<'a>(
    alloc: Global,
    chunks: &[ChunkMeta],
    number: usize,
    leaf: &'a Leaf,
    text: &'a [u8],
) -> R<ChunkReader<'a>>
    ensures stands { IfOk result (λ r. (es : List Entry)
        → IsHeld (map chunk_meta_view chunks.now) number (leaf_view leaf.now) text.now es → chunk_stands r es) }
    ensures holds { IfOk result (λ r. (es : List Entry)
        → chunk_stands r es → IsHeld (map chunk_meta_view chunks.now) number (leaf_view leaf.now) text.now es) }
    ensures only { (es : List Entry) → IsHeld (map chunk_meta_view chunks.now) number (leaf_view leaf.now) text.now es → RefusedMemoryOnly result }
    ensures which { RefusedOnly IsOfParts result }
{
    if number >= chunks.len() {
        return Err(Refusal::Schema);
    }
    ChunkReader::new(alloc, text, &chunks[number].meta_data, leaf)
}

/// Takes the next entry, and has a filter look at its value, as that of the leaf with this index: null where the entry
/// has none. The value is borrowed from the page.
pub fn show_value<S: EntrySource>(
    source: &mut S,
    filter: &Filter,
    leaf: usize,
    verdicts: &mut Verdicts,
) -> R<()>
    ensures takes { OnOk result ((e : Entry) × Precede (e ∷ []) (S.stands source.old) (S.stands source.new)
        × ((before after : ValueTrees) → verdicts_in verdicts.old ≡ verdicts_of (tests_in filter.now) before → IsPutAt leaf (value_in e) before after
        → verdicts_in verdicts.new ≡ verdicts_of (tests_in filter.now) after)) }
    ensures only { IfErr result (λ r. (r ≡ Refusal.Memory) ⊎ ((es : List Entry) → S.stands source.old es → es ≡ [])) }
    ensures which { RefusedOnly IsOfParts result }
{
    match source.next() {
        Ok(Some(entry)) => match entry.value {
            Some(value) => {
                filter.look(leaf, value, verdicts);
                Ok(())
            }
            None => {
                filter.look(leaf, ValueRef::Null, verdicts);
                Ok(())
            }
        },
        Ok(None) => Err(Refusal::Levels),
        Err(fault) => Err(Refusal::from(fault)),
    }
}
