//! From values to streams of bytes (parquet-format, Encodings.md, "Byte Stream Split").

ghost use Rattle.std.specs.Prelude.{◌≡◌, ◌⊎◌, ◌+◌, ℕ, All, List, map, length, OnOk, OnErr};
ghost use Rattle.bits.specs.Refusals.{OnFault, RefusedOnly, LimitJustWhere};
ghost use Rattle.plain.specs.Plain.{IsOfKind, IsTooLong, plain_size};
ghost use Rattle.plain.specs.Split.{AppendsSplit, CanBeSplit, IsSplit, IsSplitWriteOver};

use crate::columns::put_columns;
use crate::lent::Lends;
use crate::split_reading::size_of_kind;
use crate::writing::{encode_fitting, encoded_size};
use bits::{R, Refusal};
use schema::Kind;

/// Writes the values of the type at the end of `out`, as [`split_values`](crate::split_values) reads them: as many
/// bytes as in PLAIN. The values may be borrowed, as [`Lends`] says.
///
/// Refused Value exactly when values of the type are not split, or one of them is not of the type, and Limit exactly when
/// all are and one has more than 16 MiB. On a refusal `out` is unchanged. Takes three passes, and memory for the values in
/// PLAIN.
pub fn split_encode<V: Lends>(kind: Kind, values: &[V], out: &mut Vec<u8>) -> R<()>
    ensures stands { OnOk result (AppendsSplit kind (map V.lent values.now) out.old.items out.new.items) }
    ensures size { OnOk result (length out.new.items ≡ length out.old.items + plain_size kind (map V.lent values.now)) }
    ensures of_kind { OnOk result (All (IsOfKind kind) (map V.lent values.now)) }
    ensures within_limits { OnOk result (All (λ v. IsTooLong v → ⊥) (map V.lent values.now)) }
    ensures only { let seen = map V.lent values.now in OnFault result ((bytes : List ℕ) (used : ℕ) → IsSplit kind (length seen) bytes seen used → ⊥) }
    ensures unfit { OnFault result (CanBeSplit kind → All (IsOfKind kind) (map V.lent values.now) → ⊥) }
    ensures which { RefusedOnly (λ e. (e ≡ Refusal.Value) ⊎ (e ≡ Refusal.Limit)) result }
    ensures limit { LimitJustWhere (IsSplitWriteOver kind (map V.lent values.now)) result }
    ensures unchanged { OnErr result (out.new.items ≡ out.old.items) }
{
    match size_of_kind(kind) {
        None => Err(Refusal::Value),
        Some(k) => {
            let size = encoded_size(kind, values)?;
            let mut text = Vec::new(*out.allocator());
            encode_fitting(kind, values, size, &mut text)?;
            put_columns(values.len(), k, &text, out)
        }
    }
}
