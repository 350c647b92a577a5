//! Schemas whose fields are all REQUIRED leaves.

ghost use Rattle.std.specs.Prelude.{◌≡◌, List, [], ◌∷◌, Some, OnOk, IfErr};
ghost use Rattle.schema.specs.Values.{ValueTree};
ghost use Rattle.schema.specs.Stripe.{Entry, entry};
ghost use Rattle.schema.specs.Views.{field_view};
ghost use Rattle.assemble.specs.Sources.{Precede, CausesStay};
ghost use Rattle.assemble.specs.Sinks.{Visits, single};
ghost use Rattle.assemble.specs.Standing.{HaveCause};
ghost use Rattle.assemble.specs.RowsOf.{StandForRows};
ghost use Rattle.assemble.specs.Flat.{is_required_leaf, is_flat, FlatColumnsHaveRows, OfFlatRows, ShowsFirst};
ghost use Rattle.assemble.specs.inner.Steps.{BeginsWithValue};

use crate::reading::show;
use crate::sink::RowSink;
use crate::source::EntrySource;
use bits::Fault;
use schema::{Field, Repetition, Schema};

/// Whether each top-level field is a REQUIRED leaf, so that each row has one entry in each column. Takes no
/// memory, and time linear in the fields.
pub fn is_flat(schema: &Schema) -> bool
    ensures { result ≡ is_flat schema.now }
{
    let fields = schema.fields();
    for field in fields {
        if !is_required_leaf(field) {
            return false;
        }
    }
    true
}

/// Columns that have n entries for each leaf of a flat schema, each an entry of its leaf, are the columns of
/// n rows that fit. So such columns need not be read row by row to know that they have rows.
pub fn flat_columns_have_rows()
    ensures { FlatColumnsHaveRows }
{}

/// Whether a field is REQUIRED, and has no fields below it.
fn is_required_leaf(field: &Field) -> bool
    ensures { result ≡ is_required_leaf (field_view field.now) }
{
    match field {
        Field::Leaf { repetition, .. } => match repetition {
            Repetition::Required => true,
            _ => false,
        },
        Field::Group { .. } => false,
    }
}

/// Shows a sink the values of the next row, where the sources are known to stand for rows of a flat schema
/// ([`is_flat`]), one at least: each source gives one value, and nothing is asked of the schema.
///
/// It fails only when out of memory where they do. Where they do not, the fault says only that something
/// else is wrong, and what is shown need not be a row. After it the sink may have been shown a part of the row.
// Each row of a flat file comes through here: what is returned fits a register.
#[inline(always)]
pub fn next_flat_row_to<S: EntrySource, K: RowSink>(
    sources: &mut [S],
    sink: &mut K,
) -> Result<(), Fault>
    ensures row { OnOk result (OfFlatRows S.stands sources.old
        (λ fs. ShowsFirst (StandForRows S.stands sources.new fs) (K.shows sink.old) (K.shows sink.new))) }
    ensures known { IfErr result (λ f. OfFlatRows S.stands sources.old (λ _ _. f ≡ Fault.Memory)) }
    ensures causes_stay { CausesStay (HaveCause S.cause) sources.old sources.new }
    ensures base_stays { K.base sink.new ≡ K.base sink.old }
{
    for i in 0..sources.len() {
        show_first(&mut sources[i], sink)?;
    }
    Ok(())
}

/// Takes the next entry, which has both levels 0 and a value, and shows the value.
#[inline(always)]
fn show_first<S: EntrySource, K: RowSink>(source: &mut S, sink: &mut K) -> Result<(), Fault>
    ensures shows { OnOk result (Visits (K.shows sink.old) (K.shows sink.new) (λ (v : ValueTree). single v ∷ [])
        (λ v. Precede (entry 0 0 (Some v)) (S.stands source.old) (S.stands source.new))) }
    ensures known { IfErr result (λ f. (es : List Entry) → S.stands source.old es → BeginsWithValue es → f ≡ Fault.Memory) }
    ensures causes_stay { CausesStay S.cause source.old source.new }
    ensures base_stays { K.base sink.new ≡ K.base sink.old }
{
    if let Some(value) = source.next_value() {
        return show(value, sink);
    }
    show_first_entry(source, sink)
}

/// As [`show_first`], for a value that is not at hand.
#[inline(never)]
fn show_first_entry<S: EntrySource, K: RowSink>(source: &mut S, sink: &mut K) -> Result<(), Fault>
    ensures shows { OnOk result (Visits (K.shows sink.old) (K.shows sink.new) (λ (v : ValueTree). single v ∷ [])
        (λ v. Precede (entry 0 0 (Some v)) (S.stands source.old) (S.stands source.new))) }
    ensures known { IfErr result (λ f. (es : List Entry) → S.stands source.old es → BeginsWithValue es → f ≡ Fault.Memory) }
    ensures causes_stay { CausesStay S.cause source.old source.new }
    ensures base_stays { K.base sink.new ≡ K.base sink.old }
{
    match source.next()? {
        Some(entry) if entry.repetition == 0 && entry.definition == 0 => match &entry.value {
            Some(value) => show(*value, sink),
            None => Err(Fault::Value),
        },
        _ => Err(Fault::Levels),
    }
}
