//! Entries whose bytes lie one after the other.

ghost use Rattle.std.specs.Prelude.{◌≡◌, ◌≤◌, ℕ, List, ◌∷◌, [], length, drop, IfOk, option_map};
ghost use Rattle.schema.specs.Borrowed.{value_ref_view};
ghost use Rattle.shred.specs.Slots.{slot_size, slot_value};
ghost use Rattle.shred.specs.inner.Packed.{entry_at, entry_of, many, run_entries, unpacked};

use crate::run::Run;
use schema::ValueRef;
use std::alloc::AllocError;

/// What an entry has for a value. The bytes of byte values lie in their column, in the order of the entries.
#[derive(Debug, Clone, Copy)]
pub(crate) enum Slot {
    Missing,
    Null,
    Bool(bool),
    Int(i64),
    /// How many bytes the value has.
    Bytes(usize),
}

/// An entry of a column whose bytes lie beside it.
#[derive(Debug, Clone, Copy)]
pub(crate) struct KeptEntry {
    pub(crate) repetition: u32,
    pub(crate) definition: u32,
    pub(crate) slot: Slot,
}

/// An entry in 16 bytes, or as many entries without value as `count` says: the levels stand in the variant, next to its
/// tag.
#[derive(Debug, Clone, Copy)]
pub(crate) enum PackedEntry {
    Missing {
        repetition: u8,
        definition: u8,
        count: usize,
    },
    Null {
        repetition: u8,
        definition: u8,
    },
    Bool {
        repetition: u8,
        definition: u8,
        value: bool,
    },
    Int {
        repetition: u8,
        definition: u8,
        value: i64,
    },
    Bytes {
        repetition: u8,
        definition: u8,
        size: usize,
    },
}

/// The entry in 16 bytes. Levels that a byte does not hold are never reached: no schema nests so deep.
#[inline(always)]
pub(crate) fn packed(entry: KeptEntry) -> Result<PackedEntry, AllocError>
    ensures { IfOk result (λ packed. unpacked packed ≡ entry ∷ []) }
{
    if entry.repetition > 255 || entry.definition > 255 {
        return Err(AllocError);
    }
    let repetition = entry.repetition as u8;
    let definition = entry.definition as u8;
    Ok(match entry.slot {
        Slot::Missing => PackedEntry::Missing {
            repetition,
            definition,
            count: 1,
        },
        Slot::Null => PackedEntry::Null {
            repetition,
            definition,
        },
        Slot::Bool(value) => PackedEntry::Bool {
            repetition,
            definition,
            value,
        },
        Slot::Int(value) => PackedEntry::Int {
            repetition,
            definition,
            value,
        },
        Slot::Bytes(size) => PackedEntry::Bytes {
            repetition,
            definition,
            size,
        },
    })
}

/// The entries of a run in 16 bytes. Levels that a byte does not hold are never reached: no schema nests so deep.
#[inline(always)]
pub(crate) fn packed_run(run: Run) -> Result<PackedEntry, AllocError>
    ensures { IfOk result (λ packed. unpacked packed ≡ run_entries run) }
{
    if run.repetition > 255 || run.definition > 255 {
        return Err(AllocError);
    }
    Ok(PackedEntry::Missing {
        repetition: run.repetition as u8,
        definition: run.definition as u8,
        count: run.count,
    })
}

/// How many entries were packed.
#[inline(always)]
pub(crate) fn many(packed: PackedEntry) -> usize
    ensures { result ≡ many packed }
{
    match packed {
        PackedEntry::Missing { count, .. } => count,
        _ => 1,
    }
}

/// The entry that was packed, or each of the entries that were.
// Numbers and bytes are looked for first: a test of all variants at once would be a jump by a table.
#[inline(always)]
pub(crate) fn entry_of(packed: PackedEntry) -> KeptEntry
    ensures { result ≡ entry_of packed }
{
    if let PackedEntry::Bytes {
        repetition,
        definition,
        size,
    } = packed
    {
        return kept_entry(repetition, definition, Slot::Bytes(size));
    }
    if let PackedEntry::Int {
        repetition,
        definition,
        value,
    } = packed
    {
        return kept_entry(repetition, definition, Slot::Int(value));
    }
    any_entry_of(packed)
}

/// The entry that was packed, or each of the entries that were, whatever its value.
#[inline(never)]
fn any_entry_of(packed: PackedEntry) -> KeptEntry
    ensures { result ≡ entry_of packed }
{
    match packed {
        PackedEntry::Missing {
            repetition,
            definition,
            ..
        } => kept_entry(repetition, definition, Slot::Missing),
        PackedEntry::Null {
            repetition,
            definition,
        } => kept_entry(repetition, definition, Slot::Null),
        PackedEntry::Bool {
            repetition,
            definition,
            value,
        } => kept_entry(repetition, definition, Slot::Bool(value)),
        PackedEntry::Int {
            repetition,
            definition,
            value,
        } => kept_entry(repetition, definition, Slot::Int(value)),
        PackedEntry::Bytes {
            repetition,
            definition,
            size,
        } => kept_entry(repetition, definition, Slot::Bytes(size)),
    }
}

/// An entry of these levels.
#[inline(always)]
fn kept_entry(repetition: u8, definition: u8, slot: Slot) -> KeptEntry
    ensures { result ≡ entry_at repetition definition slot }
{
    KeptEntry {
        repetition: u32::from(repetition),
        definition: u32::from(definition),
        slot,
    }
}

/// The value of a slot, whose bytes come first, and the bytes after them.
// Numbers and bytes are looked for first: a test of all variants at once would be a jump by a table.
#[inline(always)]
pub(crate) fn value_of<'a>(slot: Slot, bytes: &'a [u8]) -> (Option<ValueRef<'a>>, &'a [u8])
    requires { slot_size slot ≤ length bytes.now }
    ensures shown { option_map value_ref_view result.0 ≡ slot_value slot bytes.now }
    ensures rest { result.1.now ≡ drop (slot_size slot) bytes.now }
{
    if let Slot::Bytes(size) = slot {
        let (own, others) = bytes.split_at(size);
        return (Some(ValueRef::Bytes(own)), others);
    }
    if let Slot::Int(n) = slot {
        return (Some(ValueRef::Int(n)), bytes);
    }
    (small_value_of(slot), bytes)
}

/// The value of a slot that is no number and has no bytes.
#[inline(never)]
fn small_value_of<'a>(slot: Slot) -> Option<ValueRef<'a>>
    ensures { ((n : ℕ) → slot ≡ Slot.Bytes n → ⊥) → (bytes : List ℕ) → option_map value_ref_view result ≡ slot_value slot bytes }
{
    match slot {
        Slot::Missing | Slot::Bytes(_) => None,
        Slot::Null => Some(ValueRef::Null),
        Slot::Bool(b) => Some(ValueRef::Bool(b)),
        Slot::Int(n) => Some(ValueRef::Int(n)),
    }
}
