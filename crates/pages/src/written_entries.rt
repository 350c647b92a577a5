//! The entries that a page is written of.

ghost use Rattle.std.specs.Prelude.{◌≡◌, ◌≤◌, ◌⊎◌, true, false, map, length, vec_len, IfOk, IfErr, OnOk, OnErr};
ghost use Rattle.std.specs.List.{AllByRecursion};
ghost use Rattle.bits.specs.Refusals.{RefusedMemoryOnly};
ghost use Rattle.schema.specs.Borrowed.{value_ref_view, entry_ref_view};
ghost use Rattle.schema.specs.Annotations.{is_text};
ghost use Rattle.schema.specs.Fits.{fits_leaf};
ghost use Rattle.schema.specs.Law.{IsEntryOf};
ghost use Rattle.schema.specs.Views.{leaf_type_view, leaf_view};
ghost use Rattle.pages.specs.Headers.{rows_in};
ghost use Rattle.pages.specs.Page.{repetitions, definitions, values};

use bits::{R, Refusal};
use schema::{EntryRef, Kind, Leaf, LeafType, ValueRef, is_of_kind, is_text};
use std::alloc::Global;

/// Refused Levels or Value exactly when an entry is none of the leaf's.
pub(crate) fn check_entries(leaf: &Leaf, entries: &[EntryRef<'_>]) -> R<()>
    ensures are { OnOk result (AllByRecursion (IsEntryOf (leaf_view leaf.now)) (map entry_ref_view entries.now)) }
    ensures only { OnErr result (AllByRecursion (IsEntryOf (leaf_view leaf.now)) (map entry_ref_view entries.now) → ⊥) }
    ensures which { IfErr result (λ e. (e ≡ Refusal.Levels) ⊎ (e ≡ Refusal.Value)) }
{
    let is_of_text = leaf.leaf_type.is_text();
    if are_usual(leaf, is_of_text, entries) {
        return Ok(());
    }
    for entry in entries {
        if !is_entry_of(leaf, is_of_text, *entry) {
            return Err(refusal_of(leaf, *entry));
        }
    }
    Ok(())
}

/// The values of the entries that have one, in their order. It fails only when out of memory.
pub fn values_of<'a>(alloc: Global, entries: &[EntryRef<'a>]) -> R<Vec<ValueRef<'a>>>
    ensures are { IfOk result (λ vs. map value_ref_view vs.items ≡ values (map entry_ref_view entries.now)) }
    ensures few { IfOk result (λ vs. vec_len vs ≤ length entries.now) }
    ensures which { RefusedMemoryOnly result }
{
    let mut values = Vec::with_capacity(alloc, entries.len())?;
    for entry in entries {
        if let Some(value) = entry.value {
            values.push(value)?;
        }
    }
    Ok(values)
}

/// How many of the entries have a value.
pub fn count_values(entries: &[EntryRef<'_>]) -> usize
    ensures count { result ≡ length (values (map entry_ref_view entries.now)) }
    ensures few { result ≤ length entries.now }
{
    let mut count = 0;
    for entry in entries {
        if entry.value.is_some() {
            count += 1;
        }
    }
    count
}

/// The repetition levels of the entries.
pub(crate) fn repetitions_of(alloc: Global, entries: &[EntryRef<'_>]) -> R<Vec<u32>>
    ensures are { IfOk result (λ levels. levels.items ≡ repetitions (map entry_ref_view entries.now)) }
    ensures which { RefusedMemoryOnly result }
{
    let mut levels = Vec::with_capacity(alloc, entries.len())?;
    for entry in entries {
        levels.push(entry.repetition)?;
    }
    Ok(levels)
}

/// The definition levels of the entries.
pub(crate) fn definitions_of(alloc: Global, entries: &[EntryRef<'_>]) -> R<Vec<u32>>
    ensures are { IfOk result (λ levels. levels.items ≡ definitions (map entry_ref_view entries.now)) }
    ensures which { RefusedMemoryOnly result }
{
    let mut levels = Vec::with_capacity(alloc, entries.len())?;
    for entry in entries {
        levels.push(entry.definition)?;
    }
    Ok(levels)
}

/// How many of the entries begin a row.
pub(crate) fn count_rows(entries: &[EntryRef<'_>]) -> usize
    ensures rows { result ≡ rows_in (map entry_ref_view entries.now) }
    ensures few { result ≤ length entries.now }
{
    let mut rows = 0;
    for entry in entries {
        if entry.repetition == 0 {
            rows += 1;
        }
    }
    rows
}

/// Whether the entries are those of a leaf without levels whose values are INT64 or BYTE_ARRAY, as most are. Where they are
/// not, false is returned, and they may be the leaf's still.
fn are_usual(leaf: &Leaf, is_of_text: bool, entries: &[EntryRef<'_>]) -> bool
    requires { let t = leaf_type_view leaf.now.leaf_type in is_of_text ≡ is_text t.kind t.annotation }
    ensures { result ≡ true → AllByRecursion (IsEntryOf (leaf_view leaf.now)) (map entry_ref_view entries.now) }
{
    if leaf.greatest_repetition != 0 || leaf.greatest_definition != 0 {
        return false;
    }
    match leaf.leaf_type.kind {
        Kind::Int64 => are_numbers(leaf, is_of_text, entries),
        Kind::ByteArray => are_texts(leaf, is_of_text, entries),
        _ => false,
    }
}

/// Whether the entries are those of an INT64 leaf without levels.
fn are_numbers(leaf: &Leaf, is_of_text: bool, entries: &[EntryRef<'_>]) -> bool
    requires text { let t = leaf_type_view leaf.now.leaf_type in is_of_text ≡ is_text t.kind t.annotation }
    requires kind { leaf.now.leaf_type.kind ≡ Kind.Int64 }
    requires repetition { leaf.now.greatest_repetition ≡ 0 }
    requires definition { leaf.now.greatest_definition ≡ 0 }
    ensures { result ≡ true → AllByRecursion (IsEntryOf (leaf_view leaf.now)) (map entry_ref_view entries.now) }
{
    for entry in entries {
        if !is_number_entry(leaf, is_of_text, *entry) {
            return false;
        }
    }
    true
}

/// Whether the entries are those of a BYTE_ARRAY leaf without levels.
fn are_texts(leaf: &Leaf, is_of_text: bool, entries: &[EntryRef<'_>]) -> bool
    requires text { let t = leaf_type_view leaf.now.leaf_type in is_of_text ≡ is_text t.kind t.annotation }
    requires kind { leaf.now.leaf_type.kind ≡ Kind.ByteArray }
    requires repetition { leaf.now.greatest_repetition ≡ 0 }
    requires definition { leaf.now.greatest_definition ≡ 0 }
    ensures { result ≡ true → AllByRecursion (IsEntryOf (leaf_view leaf.now)) (map entry_ref_view entries.now) }
{
    for entry in entries {
        if !is_text_entry(leaf, is_of_text, *entry) {
            return false;
        }
    }
    true
}

/// Whether an entry is one of an INT64 leaf without levels.
#[inline(always)]
fn is_number_entry(leaf: &Leaf, is_of_text: bool, entry: EntryRef<'_>) -> bool
    requires text { let t = leaf_type_view leaf.now.leaf_type in is_of_text ≡ is_text t.kind t.annotation }
    requires kind { leaf.now.leaf_type.kind ≡ Kind.Int64 }
    requires repetition { leaf.now.greatest_repetition ≡ 0 }
    requires definition { leaf.now.greatest_definition ≡ 0 }
    ensures { result ≡ true → IsEntryOf (leaf_view leaf.now) (entry_ref_view entry.entry) }
{
    let _leaf = leaf; // For the proof: the contract speaks of it.
    if entry.repetition != 0 || entry.definition != 0 {
        return false;
    }
    match entry.value {
        Some(ValueRef::Int(number)) => {
            is_of_kind(Kind::Int64, ValueRef::Int(number)) && !is_of_text
        }
        _ => false,
    }
}

/// Whether an entry is one of a BYTE_ARRAY leaf without levels.
#[inline(always)]
fn is_text_entry(leaf: &Leaf, is_of_text: bool, entry: EntryRef<'_>) -> bool
    requires text { let t = leaf_type_view leaf.now.leaf_type in is_of_text ≡ is_text t.kind t.annotation }
    requires kind { leaf.now.leaf_type.kind ≡ Kind.ByteArray }
    requires repetition { leaf.now.greatest_repetition ≡ 0 }
    requires definition { leaf.now.greatest_definition ≡ 0 }
    ensures { result ≡ true → IsEntryOf (leaf_view leaf.now) (entry_ref_view entry.entry) }
{
    let _leaf = leaf; // For the proof: the contract speaks of it.
    if entry.repetition != 0 || entry.definition != 0 {
        return false;
    }
    match entry.value {
        Some(ValueRef::Bytes(text)) => {
            let value = ValueRef::Bytes(text);
            is_of_kind(Kind::ByteArray, value) && (!is_of_text || is_text(value))
        }
        _ => false,
    }
}

/// Whether an entry is the leaf's, whose values are text or not: its levels are at most the greatest, and
/// it has a value, which fits, exactly when its definition level is the greatest.
#[inline(always)]
fn is_entry_of(leaf: &Leaf, is_of_text: bool, entry: EntryRef<'_>) -> bool
    requires { let t = leaf_type_view leaf.now.leaf_type in is_of_text ≡ is_text t.kind t.annotation }
    ensures is { result ≡ true → IsEntryOf (leaf_view leaf.now) (entry_ref_view entry.entry) }
    ensures only { result ≡ false → IsEntryOf (leaf_view leaf.now) (entry_ref_view entry.entry) → ⊥ }
{
    if entry.repetition > leaf.greatest_repetition || entry.definition > leaf.greatest_definition {
        return false;
    }
    let is_full = entry.definition == leaf.greatest_definition;
    match entry.value {
        None => !is_full,
        Some(value) => is_full && is_value_of(&leaf.leaf_type, is_of_text, value),
    }
}

/// Whether a value is a leaf's: of its type, and UTF-8 where it is text.
#[inline(always)]
fn is_value_of(leaf_type: &LeafType, is_of_text: bool, value: ValueRef<'_>) -> bool
    requires { let t = leaf_type_view leaf_type.now in is_of_text ≡ is_text t.kind t.annotation }
    ensures { result ≡ fits_leaf (leaf_type_view leaf_type.now) (value_ref_view value.entry) }
{
    is_of_kind(leaf_type.kind, value) && (!is_of_text || is_text(value))
}

/// Why an entry that is none of the leaf's is refused: for its levels, or else for its value.
#[cold]
fn refusal_of(leaf: &Leaf, entry: EntryRef<'_>) -> Refusal
    ensures { (result ≡ Refusal.Levels) ⊎ (result ≡ Refusal.Value) }
{
    if entry.repetition > leaf.greatest_repetition || entry.definition > leaf.greatest_definition {
        Refusal::Levels
    } else {
        Refusal::Value
    }
}
