//! The values of a data page that are indexes into the chunk's dictionary.

ghost use Rattle.std.specs.Prelude.{◌≡◌, ◌⊎◌, ◌<◌, ℕ, All, List, length, map, IfOk, Some, true, slice_get};
ghost use Rattle.bits.specs.Refusals.{OnFault, RefusedOnly};
ghost use Rattle.schema.specs.Borrowed.{value_ref_view};
ghost use Rattle.schema.specs.Values.{ValueTree};
ghost use Rattle.schema.specs.Views.{leaf_type_view};
ghost use Rattle.dictionary.specs.Entries.{AreEntriesAt};
ghost use Rattle.pages.specs.Views.{dictionary_view};
ghost use Rattle.pages.specs.inner.Reading.{AllFit, AreLeafValues, IsOfValuePages};

use crate::encoding::Encoding;
use crate::value_checks::check_value;
use bits::{R, Refusal};
use dictionary::{decode_indexes, one_list};
use schema::{LeafType, ValueRef};
use std::alloc::Global;

/// What was checked is marked where a page has at least one index for so many entries of the dictionary: a list of a large
/// dictionary's size for each of many small pages would take the product of both in time.
const ENTRIES_MARKED: usize = 16;

/// The entries of the dictionary at the first `count` indexes of the bytes.
pub fn read_indexed<'a>(
    alloc: Global,
    leaf_type: &LeafType,
    dictionary: Option<&[ValueRef<'a>]>,
    bytes: &[u8],
    count: usize,
) -> R<Vec<ValueRef<'a>>>
    ensures plain_dictionary { let d = dictionary_view dictionary.entry in
        IfOk result (λ vs. AreLeafValues d (leaf_type_view leaf_type.now) (Some Encoding.PlainDictionary) bytes.now count (map value_ref_view vs.items)) }
    ensures rle_dictionary { let d = dictionary_view dictionary.entry in
        IfOk result (λ vs. AreLeafValues d (leaf_type_view leaf_type.now) (Some Encoding.RleDictionary) bytes.now count (map value_ref_view vs.items)) }
    ensures only_plain_dictionary { let d = dictionary_view dictionary.entry in
        OnFault result ((ws : List ValueTree) → AreLeafValues d (leaf_type_view leaf_type.now) (Some Encoding.PlainDictionary) bytes.now count ws → ⊥) }
    ensures only_rle_dictionary { let d = dictionary_view dictionary.entry in
        OnFault result ((ws : List ValueTree) → AreLeafValues d (leaf_type_view leaf_type.now) (Some Encoding.RleDictionary) bytes.now count ws → ⊥) }
    ensures which { RefusedOnly IsOfValuePages result }
{
    one_list();
    let Some(entries) = dictionary else {
        return Err(Refusal::Encoding);
    };
    let (indexes, _) = decode_indexes(alloc, entries.len(), bytes, count)?;
    look_up(alloc, leaf_type, entries, &indexes)
}

/// The entries at the indexes. Refused where one of them is not the leaf's, as [`check_value`] refuses
/// it. Each entry is checked where it is first met, and once more where it is met again if a page has few indexes.
fn look_up<'a>(
    alloc: Global,
    leaf_type: &LeafType,
    entries: &[ValueRef<'a>],
    indexes: &[u32],
) -> R<Vec<ValueRef<'a>>>
    requires { All (λ i. i < length entries.now) indexes.now }
    ensures stands { IfOk result (λ vs. AreEntriesAt (map value_ref_view entries.now) indexes.now (map value_ref_view vs.items)) }
    ensures fit { IfOk result (λ vs. AllFit (leaf_type_view leaf_type.now) (map value_ref_view vs.items)) }
    ensures only { OnFault result ((ws : List ValueTree) → AreEntriesAt (map value_ref_view entries.now) indexes.now ws
        → AllFit (leaf_type_view leaf_type.now) ws → ⊥) }
    ensures which { RefusedOnly (λ e. (e ≡ Refusal.Value) ⊎ (e ≡ Refusal.Utf8)) result }
{
    let mut checked = no_marks(alloc, entries.len(), indexes.len())?;
    let mut values = Vec::with_capacity(alloc, indexes.len())?;
    for index in indexes {
        let at = *index as usize;
        let entry = entries[at];
        if !is_marked(&checked, at) {
            check_value(leaf_type, entry)?;
            mark(&mut checked, at);
        }
        values.push(entry)?;
    }
    Ok(values)
}

/// A mark for each entry of a dictionary, none of them set; no marks where a page has few indexes.
fn no_marks(alloc: Global, entries: usize, indexes: usize) -> R<Vec<bool>>
    ensures unset { IfOk result (λ marks. (k : ℕ) → slice_get marks.items k ≡ Some true → ⊥) }
    ensures which { RefusedOnly (λ e. ⊥) result }
{
    let mut marks = Vec::new(alloc);
    if indexes >= entries / ENTRIES_MARKED {
        marks.resize(entries, false)?;
    }
    Ok(marks)
}

/// Whether an entry has its mark.
#[inline(always)]
fn is_marked(marks: &[bool], at: usize) -> bool
    ensures { result ≡ true → slice_get marks.now at ≡ Some true }
{
    at < marks.len() && marks[at]
}

/// Sets the mark of an entry, where there are marks.
#[inline(always)]
fn mark(marks: &mut Vec<bool>, at: usize)
    ensures { (k : ℕ) → slice_get marks.new.items k ≡ Some true → (slice_get marks.old.items k ≡ Some true) ⊎ (k ≡ at) }
{
    if at < marks.len() {
        marks[at] = true;
    }
}
