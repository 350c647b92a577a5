//! Whether values are a leaf's.

ghost use Rattle.std.specs.Prelude.{◌≡◌, ◌⊎◌, map, OnOk, IsTrue};
ghost use Rattle.bits.specs.Refusals.{OnFault, RefusedOnly};
ghost use Rattle.schema.specs.Borrowed.{value_ref_view};
ghost use Rattle.schema.specs.Fits.{fits_leaf};
ghost use Rattle.schema.specs.Views.{leaf_type_view};
ghost use Rattle.pages.specs.inner.Reading.{AllFit};

use bits::{R, Refusal};
use schema::{LeafType, ValueRef, is_of_kind, is_text};

/// Refused where a value is not the leaf's, as [`check_value`] refuses it.
pub fn check_values(leaf_type: &LeafType, values: &[ValueRef<'_>]) -> R<()>
    ensures fit { OnOk result (AllFit (leaf_type_view leaf_type.now) (map value_ref_view values.now)) }
    ensures only { OnFault result (AllFit (leaf_type_view leaf_type.now) (map value_ref_view values.now) → ⊥) }
    ensures which { RefusedOnly (λ e. (e ≡ Refusal.Value) ⊎ (e ≡ Refusal.Utf8)) result }
{
    for value in values {
        check_value(leaf_type, *value)?;
    }
    Ok(())
}

/// Refused Value where the value is not of the leaf's physical type, and Utf8 where it should be text
/// and is not.
// Each value of a page comes through here, and a refusal takes memory: the call is to leave no trace.
#[inline(always)]
pub fn check_value(leaf_type: &LeafType, value: ValueRef<'_>) -> R<()>
    ensures fit { OnOk result (IsTrue (fits_leaf (leaf_type_view leaf_type.now) (value_ref_view value.entry))) }
    ensures only { OnFault result (IsTrue (fits_leaf (leaf_type_view leaf_type.now) (value_ref_view value.entry)) → ⊥) }
    ensures which { RefusedOnly (λ e. (e ≡ Refusal.Value) ⊎ (e ≡ Refusal.Utf8)) result }
{
    if !is_of_kind(leaf_type.kind, value) {
        return Err(Refusal::Value);
    }
    if leaf_type.is_text() && !is_text(value) {
        return Err(Refusal::Utf8);
    }
    Ok(())
}
