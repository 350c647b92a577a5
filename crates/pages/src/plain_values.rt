//! The values of a data page in PLAIN.

ghost use Rattle.std.specs.Prelude.{◌≡◌, true, IfOk, OnOk, Some, Err};
ghost use Rattle.bits.specs.Refusals.{OnFault, RefusedOnly};
ghost use Rattle.schema.specs.Annotations.{is_text};
ghost use Rattle.schema.specs.Views.{annotation_view, leaf_type_view};
ghost use Rattle.pages.specs.Left.{values_left};
ghost use Rattle.pages.specs.Limits.{IsValueOver, IsOfPages};
ghost use Rattle.pages.specs.inner.Reading.{StandInAnyChunk, StandInNoChunk, RuledOut};

use crate::encoding::Encoding;
use crate::page_values::PageValues;
use crate::standing::Standing;
use bits::{R, Refusal};
use plain::{Values, one_list, size_of_byte_array, what_is_of_a_kind_fits_it};
use schema::{LeafType, is_utf8};

/// The first `count` values of the bytes, in PLAIN. They stay in the bytes and take no memory: one pass
/// finds where byte values end, and checks those that should be text. Where they are known to stand, none
/// is made, and the time is constant.
pub fn read_plain<'a>(
    leaf_type: &LeafType,
    bytes: &'a [u8],
    count: usize,
    standing: Standing,
) -> R<PageValues<'a>>
    requires stood { RuledOut standing (StandInNoChunk (leaf_type_view leaf_type.now) Encoding.Plain bytes.now count) }
    requires known_within_limits { RuledOut standing (IsValueOver leaf_type.now.kind (Some Encoding.Plain) bytes.now count) }
    ensures stands { IfOk result (λ vs. StandInAnyChunk (leaf_type_view leaf_type.now) Encoding.Plain bytes.now count (values_left vs)) }
    ensures within_limits { OnOk result (IsValueOver leaf_type.now.kind (Some Encoding.Plain) bytes.now count → ⊥) }
    ensures only { OnFault result (StandInNoChunk (leaf_type_view leaf_type.now) Encoding.Plain bytes.now count) }
    ensures limit { result ≡ Err Refusal.Limit → IsValueOver leaf_type.now.kind (Some Encoding.Plain) bytes.now count }
    ensures which { RefusedOnly IsOfPages result }
{
    one_list();
    if let Standing::Unknown = standing {
        check_plain(leaf_type, bytes, count)?;
    }
    let values = Values::known(leaf_type.kind, bytes, count);
    Ok(PageValues::Plain(values))
}

/// Refused where the first `count` values do not stand in the bytes, or go beyond a limit.
fn check_plain(leaf_type: &LeafType, bytes: &[u8], count: usize) -> R<()>
    ensures stood { OnOk result (StandInNoChunk (leaf_type_view leaf_type.now) Encoding.Plain bytes.now count → ⊥) }
    ensures within_limits { OnOk result (IsValueOver leaf_type.now.kind (Some Encoding.Plain) bytes.now count → ⊥) }
    ensures only { OnFault result (StandInNoChunk (leaf_type_view leaf_type.now) Encoding.Plain bytes.now count) }
    ensures limit { result ≡ Err Refusal.Limit → IsValueOver leaf_type.now.kind (Some Encoding.Plain) bytes.now count }
    ensures which { RefusedOnly IsOfPages result }
{
    if leaf_type.is_text() {
        return check_texts(leaf_type, bytes, count);
    }
    what_is_of_a_kind_fits_it();
    let _ = Values::new(leaf_type.kind, bytes, count)?;
    Ok(())
}

/// Refused as [`check_plain`], where the values are texts: each is checked as its length is read.
// A loop of its own over all texts of a page, with no more in it than is done for each.
// For the proof: the leaf's type is named by the clauses only.
#[inline(never)]
fn check_texts(_leaf_type: &LeafType, bytes: &[u8], count: usize) -> R<()>
    requires { is_text _leaf_type.now.kind (annotation_view _leaf_type.now.annotation) ≡ true }
    ensures stood { OnOk result (StandInNoChunk (leaf_type_view _leaf_type.now) Encoding.Plain bytes.now count → ⊥) }
    ensures within_limits { OnOk result (IsValueOver _leaf_type.now.kind (Some Encoding.Plain) bytes.now count → ⊥) }
    ensures only { OnFault result (StandInNoChunk (leaf_type_view _leaf_type.now) Encoding.Plain bytes.now count) }
    ensures limit { result ≡ Err Refusal.Limit → IsValueOver _leaf_type.now.kind (Some Encoding.Plain) bytes.now count }
    ensures which { RefusedOnly IsOfPages result }
{
    what_is_of_a_kind_fits_it();
    let mut at = 0;
    for _ in 0..count {
        let rest = bytes.split_at(at).1;
        let used = size_of_byte_array(rest)?;
        let text = rest.split_at(4).1.split_at(used - 4).0;
        if !is_utf8(text) {
            return Err(Refusal::Utf8);
        }
        at += used;
    }
    Ok(())
}
