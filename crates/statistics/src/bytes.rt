//! Bounds as bytes.

ghost use Rattle.std.specs.Prelude.{◌≡◌, ◌≢◌, ◌⊎◌, [], ◌∷◌, map, length, option_map, Some, Option, All, IfOk, OnErr, Err};
ghost use Rattle.bits.specs.Refusals.{OnFault, RefusedOnly, RefusedMemoryOnly};
ghost use Rattle.schema.specs.Values.{ValueTree, view};
ghost use Rattle.plain.specs.Plain.{AreBytes, IsOfKind, IsPlain, HasZeroPadding, IsWriteOver, IsReadOver};
ghost use Rattle.statistics.specs.Bytes.{IsBound, IsBoundAt, IsWrittenBound, IsOfKindAt, IsLongAt, IsLengthOverLimit, BoundsAreOne, KeptBoundsAreShort};

use crate::stats::Stats;
use bits::{R, Refusal};
use plain::{decode, encode, one_list};
use schema::{Kind, Value};
use std::alloc::Global;

/// The bytes of the two bounds, where they are there.
#[derive(Debug, Drop)]
pub struct BoundBytes {
    pub min: Option<Vec<u8>>,
    pub max: Option<Vec<u8>>,
}

/// Some bytes stand for at most one bound.
pub fn one_bound()
    ensures { BoundsAreOne }
{
    one_list();
}

/// A value that is kept as a bound has at most 64 bytes.
#[tactic(auto, using(crate::proofs::ShortBounds::kept_bounds_are_short))]
pub fn kept_bounds_are_short()
    ensures { KeptBoundsAreShort }
{}

/// A copy of a text.
fn copied_text(alloc: Global, text: &[u8]) -> R<Vec<u8>>
    ensures same { IfOk result (λ copy. copy.items ≡ text.now) }
    ensures bytes { AreBytes text.now }
    ensures which { RefusedMemoryOnly result }
{
    let copy = Vec::from_slice(alloc, text)?;
    Ok(copy)
}

/// The PLAIN bytes of a value.
fn plain_to_bytes(alloc: Global, kind: Kind, value: &Value) -> R<Vec<u8>>
    ensures stands { IfOk result (λ text. IsPlain kind 1 text.items (view value.now ∷ []) (length text.items)) }
    ensures padding { IfOk result (λ text. HasZeroPadding kind 1 text.items (length text.items)) }
    ensures only { OnFault result (All (IsOfKind kind) (view value.now ∷ []) → ⊥) }
    ensures limit { result ≡ Err Refusal.Limit → IsWriteOver kind (view value.now ∷ []) }
    ensures which { RefusedOnly (λ e. (e ≡ Refusal.Value) ⊎ (e ≡ Refusal.Limit)) result }
{
    let mut text = Vec::new(alloc);
    encode(kind, &[value], &mut text)?;
    Ok(text)
}

/// The bytes of a value that is a bound.
fn value_to_bytes(alloc: Global, kind: Kind, value: &Value) -> R<Vec<u8>>
    ensures stands { IfOk result (λ text. IsWrittenBound kind (Some text.items) (Some (view value.now))) }
    ensures only { OnFault result (IsOfKindAt kind (Some (view value.now)) → ⊥) }
    ensures limit { result ≡ Err Refusal.Limit → IsLongAt (Some (view value.now)) }
    ensures which { RefusedOnly (λ e. (e ≡ Refusal.Value) ⊎ (e ≡ Refusal.Limit)) result }
{
    match (kind, value) {
        (Kind::ByteArray, Value::Bytes(text)) => copied_text(alloc, text.as_slice()),
        (Kind::ByteArray, _) => Err(Refusal::Value),
        _ => plain_to_bytes(alloc, kind, value),
    }
}

/// The bytes of a bound, where it is there.
fn bound_to_bytes(alloc: Global, kind: Kind, bound: &Option<Value>) -> R<Option<Vec<u8>>>
    ensures stands { IfOk result (λ text. IsWrittenBound kind (option_map (λ x. x.items) text) (option_map view bound.now)) }
    ensures only { OnFault result (IsOfKindAt kind (option_map view bound.now) → ⊥) }
    ensures limit { result ≡ Err Refusal.Limit → IsLongAt (option_map view bound.now) }
    ensures which { RefusedOnly (λ e. (e ≡ Refusal.Value) ⊎ (e ≡ Refusal.Limit)) result }
{
    match bound {
        None => Ok(None),
        Some(value) => Ok(Some(value_to_bytes(alloc, kind, value)?)),
    }
}

/// The value whose PLAIN bytes these are.
fn plain_from_bytes(alloc: Global, kind: Kind, text: &[u8]) -> R<Value>
    ensures stands { IfOk result (λ v. IsPlain kind 1 text.now (view v ∷ []) (length text.now)) }
    ensures only { OnFault result ((v : ValueTree) → IsPlain kind 1 text.now (v ∷ []) (length text.now) → ⊥) }
    ensures limit { result ≡ Err Refusal.Limit → IsReadOver kind text.now 1 }
    ensures which { RefusedOnly (λ e. (e ≡ Refusal.Truncated) ⊎ ((e ≡ Refusal.Value) ⊎ (e ≡ Refusal.Limit))) result }
{
    one_list();
    let (values, used) = decode(alloc, kind, text, 1)?;
    if used != text.len() {
        return Err(Refusal::Value);
    }
    only_value(values)
}

/// The value of a list of one.
fn only_value(values: Vec<Value>) -> R<Value>
    ensures value_is { IfOk result (λ v. (view v ∷ []) ≡ map view values.items) }
    ensures only { OnErr result (length values.items ≢ 1) }
    ensures which { RefusedOnly (λ e. e ≡ Refusal.Value) result }
{
    let mut values = values;
    if values.len() != 1 {
        return Err(Refusal::Value);
    }
    match values.pop() {
        Some(value) => Ok(value),
        None => Err(Refusal::Value),
    }
}

impl Stats {
    /// The bounds as bytes: PLAIN values of the type, a BYTE_ARRAY without its length.
    ///
    /// Refused Value only where one of them is not of the type; Limit only where one has more than 16 MiB.
    pub fn to_bytes(&self, alloc: Global, kind: Kind) -> R<BoundBytes>
        ensures min { IfOk result (λ b. IsWrittenBound kind (option_map (λ x. x.items) b.min) (option_map view self.now.min)) }
        ensures max { IfOk result (λ b. IsWrittenBound kind (option_map (λ x. x.items) b.max) (option_map view self.now.max)) }
        ensures only { OnFault result (IsOfKindAt kind (option_map view self.now.min) → IsOfKindAt kind (option_map view self.now.max) → ⊥) }
        ensures limit { result ≡ Err Refusal.Limit → IsLongAt (option_map view self.now.min) ⊎ IsLongAt (option_map view self.now.max) }
        ensures which { RefusedOnly (λ e. (e ≡ Refusal.Value) ⊎ (e ≡ Refusal.Limit)) result }
    {
        let min = bound_to_bytes(alloc, kind, &self.min)?;
        let max = bound_to_bytes(alloc, kind, &self.max)?;
        Ok(BoundBytes { min, max })
    }

    /// The bounds that these bytes are, with a number of nulls.
    ///
    /// Refused Value and Truncated only where some of the bytes are not one value of the type and no more; Limit only
    /// for values of a type that are longer than 16 MiB.
    pub fn from_bytes(
        alloc: Global,
        kind: Kind,
        min: Option<&[u8]>,
        max: Option<&[u8]>,
        nulls: u64,
    ) -> R<Stats>
        ensures min { IfOk result (λ s. IsBoundAt kind (option_map (λ x. x.now) min.entry) (option_map view s.min)) }
        ensures max { IfOk result (λ s. IsBoundAt kind (option_map (λ x. x.now) max.entry) (option_map view s.max)) }
        ensures nulls { IfOk result (λ s. s.nulls ≡ nulls) }
        ensures only { OnFault result ((a b : Option ValueTree) → IsBoundAt kind (option_map (λ x. x.now) min.entry) a
            → IsBoundAt kind (option_map (λ x. x.now) max.entry) b → ⊥) }
        ensures limit { result ≡ Err Refusal.Limit → IsLengthOverLimit kind }
        ensures which { RefusedOnly (λ e. (e ≡ Refusal.Truncated) ⊎ ((e ≡ Refusal.Value) ⊎ (e ≡ Refusal.Limit))) result }
    {
        let min = bound_from_bytes(alloc, kind, min)?;
        let max = bound_from_bytes(alloc, kind, max)?;
        Ok(Stats { min, max, nulls })
    }
}

/// The value that is the whole of the bytes.
fn value_from_bytes(alloc: Global, kind: Kind, text: &[u8]) -> R<Value>
    ensures stands { IfOk result (λ v. IsBound kind text.now (view v)) }
    ensures only { OnFault result ((v : ValueTree) → IsBound kind text.now v → ⊥) }
    ensures limit { result ≡ Err Refusal.Limit → IsLengthOverLimit kind }
    ensures which { RefusedOnly (λ e. (e ≡ Refusal.Truncated) ⊎ ((e ≡ Refusal.Value) ⊎ (e ≡ Refusal.Limit))) result }
{
    match kind {
        Kind::ByteArray => Ok(Value::Bytes(copied_text(alloc, text)?)),
        _ => plain_from_bytes(alloc, kind, text),
    }
}

/// The bound that some bytes are, where they are there.
fn bound_from_bytes(alloc: Global, kind: Kind, text: Option<&[u8]>) -> R<Option<Value>>
    ensures stands { IfOk result (λ bound. IsBoundAt kind (option_map (λ x. x.now) text.entry) (option_map view bound)) }
    ensures only { OnFault result ((bound : Option ValueTree) → IsBoundAt kind (option_map (λ x. x.now) text.entry) bound → ⊥) }
    ensures limit { result ≡ Err Refusal.Limit → IsLengthOverLimit kind }
    ensures which { RefusedOnly (λ e. (e ≡ Refusal.Truncated) ⊎ ((e ≡ Refusal.Value) ⊎ (e ≡ Refusal.Limit))) result }
{
    match text {
        None => Ok(None),
        Some(text) => Ok(Some(value_from_bytes(alloc, kind, text)?)),
    }
}
