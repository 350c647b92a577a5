//! Sections of levels, from entries to bytes.

ghost use Rattle.std.specs.Prelude.{◌≡◌, ◌+◌, ◌*◌, ◌<◌, ◌≤◌, map, length, IfOk, OnOk};
ghost use Rattle.std.specs.List.{AllByRecursion};
ghost use Rattle.bits.specs.Refusals.{RefusedMemoryOnly};
ghost use Rattle.schema.specs.Borrowed.{entry_ref_view};
ghost use Rattle.schema.specs.Law.{IsEntryOf};
ghost use Rattle.schema.specs.Views.{leaf_view};
ghost use Rattle.pages.specs.Headers.{AreLevelsIn};
ghost use Rattle.pages.specs.Page.{repetitions, definitions};
ghost use Rattle.pages.specs.inner.Put.{Puts, AreSections};

use crate::header_writing::SectionSizes;
use crate::level_reading::width_of;
use crate::written_entries::{definitions_of, repetitions_of};
use bits::R;
use schema::{EntryRef, Leaf};
use std::alloc::Global;

/// Writes both sections of levels of the entries in place of what the buffer held, repetition levels
/// first, without their lengths: by the hybrid, and of levels whose greatest is 0 none. It fails only when
/// out of memory.
pub(crate) fn put_sections(
    alloc: Global,
    leaf: &Leaf,
    entries: &[EntryRef<'_>],
    scratch: &mut Vec<u8>,
) -> R<SectionSizes>
    requires { AllByRecursion (IsEntryOf (leaf_view leaf.now)) (map entry_ref_view entries.now) }
    ensures stands { IfOk result (λ sizes. AreSections (leaf_view leaf.now)
        (map entry_ref_view entries.now) scratch.new.items sizes.repetitions sizes.definitions) }
    ensures which { RefusedMemoryOnly result }
{
    scratch.clear();
    put_repetitions(alloc, leaf, entries, scratch)?;
    let repetitions = scratch.len();
    put_definitions(alloc, leaf, entries, scratch)?;
    Ok(SectionSizes {
        repetitions,
        definitions: scratch.len() - repetitions,
    })
}

/// Writes the repetition levels at the end.
fn put_repetitions(alloc: Global, leaf: &Leaf, entries: &[EntryRef<'_>], out: &mut Vec<u8>) -> R<()>
    requires { AllByRecursion (IsEntryOf (leaf_view leaf.now)) (map entry_ref_view entries.now) }
    ensures stands { OnOk result (Puts (AreLevelsIn leaf.now.greatest_repetition (repetitions (map entry_ref_view entries.now)))
        (80 + 9 * length entries.now) out.old.items out.new.items) }
    ensures which { RefusedMemoryOnly result }
{
    if leaf.greatest_repetition == 0 {
        return Ok(());
    }
    let levels = repetitions_of(alloc, entries)?;
    put_levels(leaf.greatest_repetition, levels.as_slice(), out)
}

/// Writes the definition levels at the end.
fn put_definitions(alloc: Global, leaf: &Leaf, entries: &[EntryRef<'_>], out: &mut Vec<u8>) -> R<()>
    requires { AllByRecursion (IsEntryOf (leaf_view leaf.now)) (map entry_ref_view entries.now) }
    ensures stands { OnOk result (Puts (AreLevelsIn leaf.now.greatest_definition (definitions (map entry_ref_view entries.now)))
        (80 + 9 * length entries.now) out.old.items out.new.items) }
    ensures which { RefusedMemoryOnly result }
{
    if leaf.greatest_definition == 0 {
        return Ok(());
    }
    let levels = definitions_of(alloc, entries)?;
    put_levels(leaf.greatest_definition, levels.as_slice(), out)
}

/// Writes levels at the end by the hybrid, in as many bits as the greatest has.
fn put_levels(greatest: u32, levels: &[u32], out: &mut Vec<u8>) -> R<()>
    requires some { 0 < greatest }
    requires within { AllByRecursion (λ l. l ≤ greatest) levels.now }
    ensures stands { OnOk result (Puts (AreLevelsIn greatest levels.now) (80 + 9 * length levels.now) out.old.items out.new.items) }
    ensures which { RefusedMemoryOnly result }
{
    hybrid_rle::encode(width_of(greatest), levels, out)
}
