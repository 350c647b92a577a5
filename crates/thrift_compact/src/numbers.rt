//! Values that hold no others.

ghost use Rattle.std.specs.Prelude.{◌+◌, ◌≤◌, length, IfOk, OnOk};
ghost use Rattle.bits.specs.Varint.{IsUleb};
ghost use Rattle.bits.specs.Refusals.{RefusedOnly, RefusedMemoryOnly};
ghost use Rattle.bits.specs.Codec.{Appends};
ghost use Rattle.thrift_compact.specs.Compact.{IsByte, IsSignedByte, IsSigned, IsDouble, IsBinary};
ghost use Rattle.thrift_compact.specs.inner.Reading.{IsRefusedFor, IsShortNumber, IsNumber, SomethingStands};
ghost use Rattle.thrift_compact.specs.Length.{size_length, size_i64};
ghost use Rattle.thrift_compact.specs.inner.Writing.{Keeps, IsShortestSigned};

use bits::{R, Refusal, read_uleb, unzigzag, write_uleb, zigzag};
use std::alloc::Global;

pub(crate) fn byte_at(bytes: &[u8]) -> R<u8>
    ensures stands { IfOk result (λ b. IsByte bytes.now b 1) }
    ensures which { RefusedOnly (IsRefusedFor IsByte bytes.now) result }
{
    match bytes {
        [] => Err(Refusal::Truncated),
        [byte, ..] => Ok(*byte),
    }
}

pub(crate) fn i8_at(bytes: &[u8]) -> R<i8>
    ensures stands { IfOk result (λ z. IsSignedByte bytes.now z 1) }
    ensures which { RefusedOnly (IsRefusedFor IsSignedByte bytes.now) result }
{
    let byte = byte_at(bytes)?;
    Ok(byte.cast_signed())
}

pub(crate) fn i64_at(bytes: &[u8]) -> R<(i64, usize)>
    ensures stands { IfOk result (λ x. IsSigned bytes.now x.0 x.1) }
    ensures within { IfOk result (λ x. x.1 ≤ length bytes.now) }
    ensures which { RefusedOnly (IsRefusedFor IsSigned bytes.now) result }
{
    let (n, used) = read_uleb(bytes)?;
    Ok((unzigzag(n), used))
}

pub(crate) fn i32_at(bytes: &[u8]) -> R<(i32, usize)>
    ensures stands { IfOk result (λ x. IsNumber bytes.now x.0 x.1) }
    ensures within { IfOk result (λ x. x.1 ≤ length bytes.now) }
    ensures which { RefusedOnly (IsRefusedFor IsNumber bytes.now) result }
{
    let (z, used) = i64_at(bytes)?;
    match i32::try_from(z) {
        Ok(z) => Ok((z, used)),
        Err(_) => Err(Refusal::Thrift),
    }
}

pub(crate) fn i16_at(bytes: &[u8]) -> R<(i16, usize)>
    ensures stands { IfOk result (λ x. IsShortNumber bytes.now x.0 x.1) }
    ensures within { IfOk result (λ x. x.1 ≤ length bytes.now) }
    ensures which { RefusedOnly (IsRefusedFor IsShortNumber bytes.now) result }
{
    let (z, used) = i64_at(bytes)?;
    match i16::try_from(z) {
        Ok(z) => Ok((z, used)),
        Err(_) => Err(Refusal::Thrift),
    }
}

pub(crate) fn double_at(bytes: &[u8]) -> R<[u8; 8]>
    ensures stands { IfOk result (λ text. IsDouble bytes.now text 8) }
    ensures which { RefusedOnly (IsRefusedFor IsDouble bytes.now) result }
{
    match bytes {
        [a, b, c, d, e, f, g, h, ..] => Ok([*a, *b, *c, *d, *e, *f, *g, *h]),
        _ => Err(Refusal::Truncated),
    }
}

pub(crate) fn binary_at(alloc: Global, bytes: &[u8]) -> R<(Vec<u8>, usize)>
    ensures stands { IfOk result (λ x. IsBinary bytes.now x.0.items x.1) }
    ensures within { IfOk result (λ x. x.1 ≤ length bytes.now) }
    ensures which { RefusedOnly (IsRefusedFor IsBinary bytes.now) result }
{
    let (size, head) = read_uleb(bytes)?;
    if size > (bytes.len() - head) as u64 {
        return Err(Refusal::Truncated);
    }
    let end = head + size as usize;
    Ok((Vec::from_slice(alloc, &bytes[head..end])?, end))
}

/// How many bytes a length and that many bytes take.
pub(crate) fn pass_binary(bytes: &[u8]) -> R<usize>
    ensures stands { IfOk result (SomethingStands IsBinary bytes.now) }
    ensures within { IfOk result (λ used. used ≤ length bytes.now) }
    ensures which { RefusedOnly (IsRefusedFor IsBinary bytes.now) result }
{
    let (size, head) = read_uleb(bytes)?;
    if size > (bytes.len() - head) as u64 {
        return Err(Refusal::Truncated);
    }
    Ok(head + size as usize)
}

/// A zigzag varint.
pub(crate) fn put_signed(z: i64, out: &mut Vec<u8>) -> R<()>
    ensures stands { OnOk result (Appends (IsShortestSigned z) (size_i64 z) out.old.items out.new.items) }
    ensures which { RefusedMemoryOnly result }
    ensures kept { Keeps out.old.items out.new.items }
{
    write_uleb(zigzag(z), out)
}

/// The varint of a size.
pub(crate) fn put_size(size: usize, out: &mut Vec<u8>) -> R<()>
    ensures stands { OnOk result (Appends (λ bytes. IsUleb bytes size) (size_length size) out.old.items out.new.items) }
    ensures which { RefusedMemoryOnly result }
    ensures kept { Keeps out.old.items out.new.items }
{
    write_uleb(size as u64, out)
}

/// A length, and the bytes.
pub(crate) fn put_binary(text: &[u8], out: &mut Vec<u8>) -> R<()>
    ensures stands { OnOk result (Appends (λ bytes. IsBinary bytes text.now) (size_length (length text.now) + length text.now) out.old.items out.new.items) }
    ensures which { RefusedMemoryOnly result }
    ensures kept { Keeps out.old.items out.new.items }
{
    put_size(text.len(), out)?;
    Ok(out.extend_from_slice(text)?)
}
