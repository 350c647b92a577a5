//! Values off the fronts of columns: each leaf's column begins with the stripe of the value, and a sink is
//! shown the value.

ghost use Rattle.std.specs.Prelude.{◌≡◌, ◌+◌, ◌<◌, ◌≤◌, ◌^◌, [], ◌∷◌, length, map, true, IfOk, OnOk, IfErr};
ghost use Rattle.bits.specs.Faults.{refusal_of};
ghost use Rattle.schema.specs.Borrowed.{value_ref_view};
ghost use Rattle.schema.specs.Views.{leaf_type_view, field_view, field_views};
ghost use Rattle.schema.specs.Law.{IsValid, AreValid};
ghost use Rattle.schema.specs.Reading.{tall, tallest, count_leaves, count_leaves_each};
ghost use Rattle.assemble.specs.Sources.{CausesStay};
ghost use Rattle.assemble.specs.Sinks.{Adds, Visits, single, tokens, tokens_each};
ghost use Rattle.assemble.specs.Columns.{Columns};
ghost use Rattle.assemble.specs.Standing.{AllStand, AllSame, HaveCause, IsRefusedFor};
ghost use Rattle.assemble.specs.inner.ReadValues.{ReadsField, ReadsInside, ReadsItems, ReadsEach, IsFieldFaulty, IsInsideFaulty, AreItemsFaulty, AreEachFaulty};
ghost use Rattle.assemble.specs.inner.Steps.{IsMemory, ReadsLeaf, ReadsOptional, is_single, IsSourceRefusedFor, IsLeafFaulty, IsOptionalFaulty, HasItem, first_of};

use crate::missing::{is_missing, show_missing, skip};
use crate::place::Place;
use crate::sink::RowSink;
use crate::source::EntrySource;
use bits::{Fault, R, Refusal};
use schema::{Field, LeafType, Repetition, ValueRef, count_leaves};
use std::alloc::AllocError;

/// Whether another item follows, of the list whose own level this is.
// Each row begins here: only what is asked of the levels is loaded.
#[inline(always)]
pub fn has_item<S: EntrySource>(own: u32, sources: &mut [S]) -> R<bool>
    requires { 0 < length sources.old }
    ensures item { IfOk result (λ b. (cs : Columns) → AllStand S.stands sources.old cs → HasItem own (first_of cs) b) }
    ensures refused { IfErr result (IsRefusedFor S.stands S.refused S.cause sources.old sources.new (λ _. IsMemory)) }
    ensures kept { OnOk result (map S.refused sources.new ≡ map S.refused sources.old) }
    ensures causes_stay { CausesStay (HaveCause S.cause) sources.old sources.new }
    ensures same { AllSame S.stands sources.old sources.new }
{
    match sources[0].peek()? {
        None => Ok(false),
        Some((repetition, _)) => Ok(own <= repetition),
    }
}

/// Shows the values of some fields, and returns how many leaves they have.
#[cycle(read)]
#[inline(always)]
pub fn read_fields<S: EntrySource, K: RowSink>(
    fields: &[Field],
    place: Place,
    sources: &mut [S],
    sink: &mut K,
) -> R<usize>
    requires valid { AreValid (field_views fields.now) }
    requires room { count_leaves_each (field_views fields.now) ≤ length sources.old }
    requires deep { place.definition + tallest (field_views fields.now) < 2 ^ 32 }
    requires own { place.own ≤ place.definition }
    ensures reads { OnOk result (Visits (K.shows sink.old) (K.shows sink.new) tokens_each
        (ReadsEach S.stands (field_views fields.now) place sources.old sources.new)) }
    ensures refused { IfErr result (IsRefusedFor S.stands S.refused S.cause sources.old sources.new (AreEachFaulty (field_views fields.now) place)) }
    ensures kept { OnOk result (map S.refused sources.new ≡ map S.refused sources.old) }
    ensures causes_stay { CausesStay (HaveCause S.cause) sources.old sources.new }
    ensures used { IfOk result (λ used. used ≡ count_leaves_each (field_views fields.now)) }
    ensures base_stays { K.base sink.new ≡ K.base sink.old }
{
    let mut used = 0;
    for field in fields {
        if is_single(field) {
            read_single(field, place, &mut sources[used..], sink)?;
            used += 1;
            continue;
        }
        used += read_field(field, place, &mut sources[used..], sink)?;
    }
    Ok(used)
}

/// Takes the next entry, which has these levels and a value that fits, and shows the value. A source that
/// has the value at hand, and checked, gives it alone.
// Each value of a leaf comes through here: what is returned fits two registers.
#[inline(always)]
fn read_leaf<S: EntrySource, K: RowSink>(
    leaf_type: &LeafType,
    place: Place,
    source: &mut S,
    sink: &mut K,
) -> Result<(), Fault>
    ensures reads { OnOk result (Visits (K.shows sink.old) (K.shows sink.new) tokens
        (ReadsLeaf (leaf_type_view leaf_type.now) place.repetition place.definition (S.stands source.old) (S.stands source.new))) }
    ensures refused { IfErr result (λ f. IsSourceRefusedFor S.stands S.refused S.cause source.old source.new
        (IsLeafFaulty place.repetition place.definition (leaf_type_view leaf_type.now)) (refusal_of f)) }
    ensures kept { OnOk result (S.refused source.new ≡ S.refused source.old) }
    ensures causes_stay { CausesStay S.cause source.old source.new }
    ensures base_stays { K.base sink.new ≡ K.base sink.old }
{
    if place.repetition == 0 && place.definition == 0 && source.has_checked(leaf_type) {
        if let Some(value) = source.next_value() {
            return show(value, sink);
        }
    }
    read_leaf_entry(leaf_type, place, source, sink)
}

/// Takes the next entry as [`read_leaf`] does.
fn read_leaf_entry<S: EntrySource, K: RowSink>(
    leaf_type: &LeafType,
    place: Place,
    source: &mut S,
    sink: &mut K,
) -> Result<(), Fault>
    ensures reads { OnOk result (Visits (K.shows sink.old) (K.shows sink.new) tokens
        (ReadsLeaf (leaf_type_view leaf_type.now) place.repetition place.definition (S.stands source.old) (S.stands source.new))) }
    ensures refused { IfErr result (λ f. IsSourceRefusedFor S.stands S.refused S.cause source.old source.new
        (IsLeafFaulty place.repetition place.definition (leaf_type_view leaf_type.now)) (refusal_of f)) }
    ensures kept { OnOk result (S.refused source.new ≡ S.refused source.old) }
    ensures causes_stay { CausesStay S.cause source.old source.new }
    ensures base_stays { K.base sink.new ≡ K.base sink.old }
{
    let is_checked = source.has_checked(leaf_type);
    match source.next()? {
        Some(entry) if place.is_of(&entry) => match &entry.value {
            Some(value) if is_checked || leaf_type.fits_ref(*value) => show(*value, sink),
            _ => Err(Fault::Value),
        },
        _ => Err(Fault::Levels),
    }
}

/// Takes the next entry, which is that of a null or of a value that fits, and shows which.
#[inline(always)]
fn read_optional<S: EntrySource, K: RowSink>(
    leaf_type: &LeafType,
    place: Place,
    source: &mut S,
    sink: &mut K,
) -> Result<(), Fault>
    requires { place.definition + 1 < 2 ^ 32 }
    ensures reads { OnOk result (Visits (K.shows sink.old) (K.shows sink.new) tokens
        (ReadsOptional (leaf_type_view leaf_type.now) place.repetition place.definition (S.stands source.old) (S.stands source.new))) }
    ensures refused { IfErr result (λ f. IsSourceRefusedFor S.stands S.refused S.cause source.old source.new
        (IsOptionalFaulty place.repetition place.definition (leaf_type_view leaf_type.now)) (refusal_of f)) }
    ensures kept { OnOk result (S.refused source.new ≡ S.refused source.old) }
    ensures causes_stay { CausesStay S.cause source.old source.new }
    ensures base_stays { K.base sink.new ≡ K.base sink.old }
{
    let there = Place {
        repetition: place.repetition,
        definition: place.definition + 1,
        own: place.own,
    };
    let is_checked = source.has_checked(leaf_type);
    match source.next()? {
        Some(entry) if there.is_of(&entry) => match &entry.value {
            Some(value) if is_checked || leaf_type.fits_ref(*value) => show(*value, sink),
            _ => Err(Fault::Value),
        },
        Some(entry) if place.is_of(&entry) => match entry.value {
            None => show(ValueRef::Null, sink),
            Some(_) => Err(Fault::Value),
        },
        _ => Err(Fault::Levels),
    }
}

/// Whether a field is a REQUIRED or OPTIONAL leaf, so that it has one entry in each row.
#[inline(always)]
fn is_single(field: &Field) -> bool
    ensures { result ≡ is_single (field_view field.now) }
{
    match field {
        Field::Leaf { repetition, .. } => !matches!(repetition, Repetition::Repeated),
        Field::Group { .. } => false,
    }
}

/// Shows the value of a REQUIRED or OPTIONAL leaf: its entry is taken without a look before.
// Each value of such a leaf comes through here: what is returned fits a register.
#[inline(always)]
fn read_single<S: EntrySource, K: RowSink>(
    field: &Field,
    place: Place,
    sources: &mut [S],
    sink: &mut K,
) -> Result<(), Fault>
    requires valid { IsValid (field_view field.now) }
    requires single { is_single (field_view field.now) ≡ true }
    requires room { 0 < length sources.old }
    requires deep { place.definition + 1 < 2 ^ 32 }
    ensures reads { OnOk result (Visits (K.shows sink.old) (K.shows sink.new) tokens
        (ReadsField S.stands (field_view field.now) place sources.old sources.new)) }
    ensures refused { IfErr result (λ f. IsRefusedFor S.stands S.refused S.cause sources.old sources.new (IsFieldFaulty (field_view field.now) place) (refusal_of f)) }
    ensures kept { OnOk result (map S.refused sources.new ≡ map S.refused sources.old) }
    ensures causes_stay { CausesStay (HaveCause S.cause) sources.old sources.new }
    ensures base_stays { K.base sink.new ≡ K.base sink.old }
{
    if let Field::Leaf { leaf_type, .. } = field {
        match field.repetition() {
            Repetition::Required => return read_leaf(leaf_type, place, &mut sources[0], sink),
            Repetition::Optional => return read_optional(leaf_type, place, &mut sources[0], sink),
            Repetition::Repeated => (),
        }
    }
    unreachable!()
}

/// Shows a null, or a value of a leaf. It fails only when out of memory.
#[inline(always)]
pub fn show<K: RowSink>(value: ValueRef<'_>, sink: &mut K) -> Result<(), Fault>
    ensures shown { OnOk result (Adds (K.shows sink.old) (K.shows sink.new) (single (value_ref_view value.entry) ∷ [])) }
    ensures memory { IfErr result (λ f. f ≡ Fault.Memory) }
    ensures base_stays { K.base sink.new ≡ K.base sink.old }
{
    match show_kind(value, sink) {
        Ok(()) => Ok(()),
        Err(_) => Err(Fault::Memory),
    }
}

// Numbers and bytes have methods of their own, whose arguments are passed in registers.
#[inline(always)]
fn show_kind<K: RowSink>(value: ValueRef<'_>, sink: &mut K) -> Result<(), AllocError>
    ensures shown { OnOk result (Adds (K.shows sink.old) (K.shows sink.new) (single (value_ref_view value.entry) ∷ [])) }
    ensures base_stays { K.base sink.new ≡ K.base sink.old }
{
    match value {
        ValueRef::Int(number) => sink.int(number),
        ValueRef::Bytes(text) => sink.bytes(text),
        _ => sink.value(value),
    }
}

/// Shows what the value of a field is, its repetition aside, and returns how many leaves the field has.
#[cycle(read)]
fn read_inside<S: EntrySource, K: RowSink>(
    field: &Field,
    place: Place,
    sources: &mut [S],
    sink: &mut K,
) -> R<usize>
    requires valid { IsValid (field_view field.now) }
    requires room { count_leaves (field_view field.now) ≤ length sources.old }
    requires deep { place.definition + tall (field_view field.now) ≤ 2 ^ 32 }
    requires own { place.own ≤ place.definition }
    ensures reads { OnOk result (Visits (K.shows sink.old) (K.shows sink.new) tokens
        (ReadsInside S.stands (field_view field.now) place sources.old sources.new)) }
    ensures refused { IfErr result (IsRefusedFor S.stands S.refused S.cause sources.old sources.new (IsInsideFaulty (field_view field.now) place)) }
    ensures kept { OnOk result (map S.refused sources.new ≡ map S.refused sources.old) }
    ensures causes_stay { CausesStay (HaveCause S.cause) sources.old sources.new }
    ensures used { IfOk result (λ used. used ≡ count_leaves (field_view field.now)) }
    ensures base_stays { K.base sink.new ≡ K.base sink.old }
{
    match field {
        Field::Leaf { leaf_type, .. } => {
            read_leaf(leaf_type, place, &mut sources[0], sink)?;
            Ok(1)
        }
        Field::Group { fields, .. } => {
            sink.begin_group()?;
            let used = read_fields(fields.as_slice(), place, sources, sink)?;
            sink.end_group()?;
            Ok(used)
        }
    }
}

/// Shows the items of a list, one at least, and returns how many leaves the field has.
#[cycle(read)]
fn read_items<S: EntrySource, K: RowSink>(
    field: &Field,
    place: Place,
    sources: &mut [S],
    sink: &mut K,
) -> R<usize>
    requires valid { IsValid (field_view field.now) }
    requires room { count_leaves (field_view field.now) ≤ length sources.old }
    requires deep { place.definition + tall (field_view field.now) < 2 ^ 32 }
    requires own { place.own ≤ place.definition }
    ensures reads { OnOk result (Visits (K.shows sink.old) (K.shows sink.new) tokens_each
        (ReadsItems S.stands (field_view field.now) place sources.old sources.new)) }
    ensures refused { IfErr result (IsRefusedFor S.stands S.refused S.cause sources.old sources.new (AreItemsFaulty (field_view field.now) place)) }
    ensures kept { OnOk result (map S.refused sources.new ≡ map S.refused sources.old) }
    ensures causes_stay { CausesStay (HaveCause S.cause) sources.old sources.new }
    ensures used { IfOk result (λ used. used ≡ count_leaves (field_view field.now)) }
    ensures base_stays { K.base sink.new ≡ K.base sink.old }
{
    let definition = place.definition + 1;
    let own = place.own + 1;
    let first = Place {
        repetition: place.repetition,
        definition,
        own,
    };
    let later = Place {
        repetition: own,
        definition,
        own,
    };
    let used = read_inside(field, first, sources, sink)?;
    'more: for _ in 0..u64::MAX {
        if !has_item(own, sources)? {
            return Ok(used);
        }
        read_inside(field, later, sources, sink)?;
    }
    // Never reached: no list has as many items.
    Err(Refusal::Memory)
}

/// Shows the value of a field, and returns how many leaves the field has.
#[cycle(read)]
fn read_field<S: EntrySource, K: RowSink>(
    field: &Field,
    place: Place,
    sources: &mut [S],
    sink: &mut K,
) -> R<usize>
    requires valid { IsValid (field_view field.now) }
    requires room { count_leaves (field_view field.now) ≤ length sources.old }
    requires deep { place.definition + tall (field_view field.now) < 2 ^ 32 }
    requires own { place.own ≤ place.definition }
    ensures reads { OnOk result (Visits (K.shows sink.old) (K.shows sink.new) tokens
        (ReadsField S.stands (field_view field.now) place sources.old sources.new)) }
    ensures refused { IfErr result (IsRefusedFor S.stands S.refused S.cause sources.old sources.new (IsFieldFaulty (field_view field.now) place)) }
    ensures kept { OnOk result (map S.refused sources.new ≡ map S.refused sources.old) }
    ensures causes_stay { CausesStay (HaveCause S.cause) sources.old sources.new }
    ensures used { IfOk result (λ used. used ≡ count_leaves (field_view field.now)) }
    ensures base_stays { K.base sink.new ≡ K.base sink.old }
{
    let repetition = field.repetition();
    if let Repetition::Required = repetition {
        return read_inside(field, place, sources, sink);
    }
    if is_missing(place.definition, sources)? {
        let count = count_leaves(field);
        skip(count, place, sources)?;
        show_missing(repetition, sink)?;
        return Ok(count);
    }
    if let Repetition::Repeated = repetition {
        sink.begin_list()?;
        let used = read_items(field, place, sources, sink)?;
        sink.end_list()?;
        return Ok(used);
    }
    let there = Place {
        repetition: place.repetition,
        definition: place.definition + 1,
        own: place.own,
    };
    read_inside(field, there, sources, sink)
}
