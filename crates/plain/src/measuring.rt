//! How many bytes values take.

ghost use Rattle.std.specs.Prelude.{◌≡◌, ◌≤◌, ◌⊎◌, length, IfOk, IfErr, OnOk};
ghost use Rattle.bits.specs.Refusals.{OnFault, LimitJustWhere};
ghost use Rattle.bits.specs.Codec.{NothingStands, AreInTurn};
ghost use Rattle.schema.specs.Values.{bytes};
ghost use Rattle.plain.specs.Plain.{IsSpelled, AreBooleans, IsPlain, AnnouncesTooMuch, IsReadOver};
ghost use Rattle.plain.specs.ValuesFrom.{value_at, size_at, values_from, end_from, greatest_end};
ghost use Rattle.plain.specs.inner.Sized.{HasSize};

use crate::reading::MOST_BYTES_OF_VALUE;
use bits::{R, Refusal};
use byteorder::{ByteOrder, LittleEndian};
use schema::Kind;

/// How many bytes the first `n` values of the type take.
pub fn size_of_values(kind: Kind, bytes: &[u8], n: usize) -> R<usize>
    ensures stands { IfOk result (λ used. IsPlain kind n bytes.now (values_from kind n 0 bytes.now) used) }
    ensures there { OnOk result (end_from kind n 0 bytes.now ≤ greatest_end kind bytes.now) }
    ensures only { OnFault result (NothingStands (IsPlain kind n bytes.now)) }
    ensures which { IfErr result (λ e. (e ≡ Refusal.Truncated) ⊎ (e ≡ Refusal.Limit)) }
    ensures limit { LimitJustWhere (IsReadOver kind bytes.now n) result }
{
    match kind {
        Kind::Boolean => size_of_booleans(bytes, n),
        Kind::Int32 => size_of_sized(kind, 4, bytes, n),
        Kind::Int64 => size_of_sized(kind, 8, bytes, n),
        Kind::ByteArray => size_of_byte_arrays(bytes, n),
        Kind::FixedLenByteArray(size) => size_of_sized(kind, size as usize, bytes, n),
    }
}

/// How many bytes the byte array at the start takes with its length, which are the first four of them.
///
/// Refused Limit exactly when more than 16 MiB are announced, and Truncated where the bytes end before it
/// does. (parquet-format, Encodings.md, "Plain".)
// Each byte array comes through here, and a refusal takes memory: the call is to leave no trace.
#[inline(always)]
pub fn size_of_byte_array(bytes: &[u8]) -> R<usize>
    ensures stands { IfOk result (λ used. IsSpelled Kind.ByteArray bytes.now (value_at Kind.ByteArray 0 bytes.now) used) }
    ensures size { IfOk result (λ used. used ≡ size_at Kind.ByteArray 0 bytes.now) }
    ensures within { IfOk result (λ used. used ≤ length bytes.now) }
    ensures only { OnFault result (NothingStands (IsSpelled Kind.ByteArray bytes.now)) }
    ensures which { IfErr result (λ e. (e ≡ Refusal.Truncated) ⊎ (e ≡ Refusal.Limit)) }
    ensures limit { LimitJustWhere (AnnouncesTooMuch Kind.ByteArray bytes.now) result }
{
    if bytes.len() < 4 {
        return Err(Refusal::Truncated);
    }
    let size = LittleEndian::read_u32(bytes) as usize;
    if size > MOST_BYTES_OF_VALUE {
        return Err(Refusal::Limit);
    }
    if size > bytes.len() - 4 {
        return Err(Refusal::Truncated);
    }
    Ok(4 + size)
}

/// How many bytes the first `n` bits take.
fn size_of_booleans(bytes: &[u8], n: usize) -> R<usize>
    ensures stands { IfOk result (λ used. AreBooleans n bytes.now (values_from Kind.Boolean n 0 bytes.now) used) }
    ensures there { OnOk result (end_from Kind.Boolean n 0 bytes.now ≤ greatest_end Kind.Boolean bytes.now) }
    ensures only { OnFault result (NothingStands (AreBooleans n bytes.now)) }
    ensures which { IfErr result (λ e. e ≡ Refusal.Truncated) }
{
    let size = n.div_ceil(8);
    if size > bytes.len() {
        return Err(Refusal::Truncated);
    }
    Ok(size)
}

/// How many bytes `n` values take, of a type whose values take `size` bytes each.
fn size_of_sized(kind: Kind, size: usize, bytes: &[u8], n: usize) -> R<usize>
    requires { HasSize kind size }
    ensures stands { IfOk result (λ used. AreInTurn (IsSpelled kind) n bytes.now (values_from kind n 0 bytes.now) used) }
    ensures there { OnOk result (end_from kind n 0 bytes.now ≤ length bytes.now) }
    ensures only { OnFault result (NothingStands (AreInTurn (IsSpelled kind) n bytes.now)) }
    ensures which { IfErr result (λ e. (e ≡ Refusal.Truncated) ⊎ (e ≡ Refusal.Limit)) }
    ensures limit { LimitJustWhere (IsReadOver kind bytes.now n) result }
{
    if n > 0 && size > MOST_BYTES_OF_VALUE {
        return Err(Refusal::Limit);
    }
    if (n as u128) * (size as u128) > bytes.len() as u128 {
        return Err(Refusal::Truncated);
    }
    Ok(n * size)
}

/// How many bytes the first `n` byte arrays take.
fn size_of_byte_arrays(bytes: &[u8], n: usize) -> R<usize>
    ensures stands { IfOk result (λ used. AreInTurn (IsSpelled Kind.ByteArray) n bytes.now (values_from Kind.ByteArray n 0 bytes.now) used) }
    ensures there { OnOk result (end_from Kind.ByteArray n 0 bytes.now ≤ length bytes.now) }
    ensures only { OnFault result (NothingStands (AreInTurn (IsSpelled Kind.ByteArray) n bytes.now)) }
    ensures which { IfErr result (λ e. (e ≡ Refusal.Truncated) ⊎ (e ≡ Refusal.Limit)) }
    ensures limit { LimitJustWhere (IsReadOver Kind.ByteArray bytes.now n) result }
{
    let mut at = 0;
    for _ in 0..n {
        at += size_of_byte_array(bytes.split_at(at).1)?;
    }
    Ok(at)
}
