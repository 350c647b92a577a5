//! Commands that change a dataset. Each is one commit, and returns how many rows it appended, removed or rewrote.

ghost use Rattle.std.specs.Prelude.{◌≡◌};
ghost use Rattle.schema.specs.Elements.{elements_view};
ghost use Rattle.schema.specs.Listed.{listings};
ghost use Rattle.schema.specs.Stripe.{leaves_of};
ghost use Rattle.jsonrows.specs.Filters.{IsRefusedFilterAs};
ghost use Rattle.jsonrows.specs.SchemaJson.{IsRefusedSchema};
ghost use Rattle.answers.specs.Making.{Makes, AsksRemove, AsksColumn, Rewrites, RewritesPlanned};

use bits::R;
use disk::Disk;
use jsonrows::{filter_from_as, schema_from};
use schema::{Element, Schema};
use std::alloc::Global;
use store::Store;

/// Puts the one field of a text at the end of the schema. Refused as `schema_from` refuses the text, and then as
/// `Store::add_column`.
pub fn add_column<D: Disk>(alloc: Global, store: &mut Store<D>, field: &str) -> R<u64>
    ensures makes { Makes D.state store.old store.new (AsksColumn field.now) (λ fs. IsRefusedSchema field.now) result }
{
    let schema = schema_from(alloc, field)?;
    store.add_column(alloc, without_root(&schema))
}

/// The elements of a schema but its root.
pub fn without_root(schema: &Schema) -> &[Element]
    ensures { elements_view result.now ≡ listings schema.now }
{
    match schema.elements().split_first() {
        Some((_, elements)) => elements,
        None => &[],
    }
}

/// Removes the rows that satisfy the filter of a text. With `texts`, dates, times, timestamps and decimals are also read from
/// their texts. Refused as `filter_from_as` refuses the text, and then as `Store::remove`.
pub fn remove_rows<D: Disk>(
    alloc: Global,
    store: &mut Store<D>,
    filter: &str,
    texts: bool,
) -> R<u64>
    ensures makes { Makes D.state store.old store.new (AsksRemove texts filter.now) (λ fs. IsRefusedFilterAs texts (leaves_of fs) filter.now) result }
{
    let terms = filter_from_as(alloc, store.schema(), filter, texts)?;
    store.remove(alloc, terms.as_slice())
}

/// Rewrites the groups of these numbers: the rows of those that stand next to each other under one key are put into full
/// groups. Of no numbers it does nothing. Refused as `Store::begin_rewrite`, and then as `Store::commit`.
pub fn rewrite_groups<D: Disk>(alloc: Global, store: &mut Store<D>, numbers: &[u64]) -> R<u64>
    ensures rewrites { Rewrites D.state store.old store.new numbers.now result }
{
    if numbers.is_empty() {
        return Ok(0);
    }
    let job = store.begin_rewrite(alloc, numbers)?;
    store.commit(alloc, job)
}

/// Rewrites the groups that have fewer rows than this, where a neighbour of the same key has too. Where there are none it
/// does nothing. Refused as `Store::plan_rewrite`, and then as [`rewrite_groups`].
pub fn rewrite_small<D: Disk>(alloc: Global, store: &mut Store<D>, min_rows: u64) -> R<u64>
    ensures rewrites { RewritesPlanned D.state store.old store.new min_rows result }
{
    let numbers = store.plan_rewrite(alloc, min_rows)?;
    rewrite_groups(alloc, store, numbers.as_slice())
}
