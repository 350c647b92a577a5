//! What stands before the elements of a list, the pairs of a map and the value of a field.

ghost use Rattle.std.specs.Prelude.{◌≡◌, ℕ, ◌+◌, ◌<◌, ◌≤◌, ℤ, length, ◌-ℤ◌, IfOk, OnOk, MatchOption, true, false};
ghost use Rattle.bits.specs.Varint.{IsUleb};
ghost use Rattle.bits.specs.Refusals.{RefusedOnly, RefusedMemoryOnly};
ghost use Rattle.bits.specs.Codec.{Appends};
ghost use Rattle.thrift_compact.specs.View.{code_of};
ghost use Rattle.thrift_compact.specs.Compact.{IsListHead, IsMapHead, IsFieldHead};
ghost use Rattle.thrift_compact.specs.Reading.{IsNamed};
ghost use Rattle.thrift_compact.specs.inner.Reading.{IsRefusedFor};
ghost use Rattle.thrift_compact.specs.Length.{size_length, size_list_head, size_field_head, is_step};
ghost use Rattle.thrift_compact.specs.inner.Writing.{Keeps, IsStep};

use crate::numbers::{byte_at, i16_at, put_signed, put_size};
use crate::tree::ElementType;
use bits::{R, Refusal, read_uleb};

/// The element type and the size of a list or a set.
pub(crate) fn list_head_at(bytes: &[u8]) -> R<((ElementType, u64), usize)>
    ensures stands { IfOk result (λ x. IsListHead bytes.now (code_of x.0.0) x.0.1 x.1) }
    ensures named { IfOk result (λ x. IsNamed x.0.0) }
    ensures within { IfOk result (λ x. x.1 ≤ length bytes.now) }
    ensures which { RefusedOnly (IsRefusedFor (λ bytes (h : ℕ × ℕ). IsListHead bytes h.0 h.1) bytes.now) result }
{
    let byte = byte_at(bytes)?;
    let kind = ElementType::of_code(byte % 16);
    if byte < 240 {
        return Ok(((kind, u64::from(byte / 16)), 1));
    }
    let (_, rest) = bytes.split_at(1);
    let (size, used) = read_uleb(rest)?;
    Ok(((kind, size), 1 + used))
}

/// The types of the keys and the values of a map whose size is `size`, at least 1, and takes `head` bytes.
pub(crate) fn map_types_at(bytes: &[u8], size: u64, head: usize) -> R<(ElementType, ElementType)>
    requires size { IsUleb bytes.now size head }
    requires not_empty { 1 ≤ size }
    ensures stands { IfOk result (λ x. IsMapHead bytes.now (code_of x.0) (code_of x.1) size (head + 1)) }
    ensures named { IfOk result (λ x. IsNamed x.0 × IsNamed x.1) }
    ensures within { IfOk result (λ x. head + 1 ≤ length bytes.now) }
    ensures which { RefusedOnly (IsRefusedFor (λ bytes (h : ℕ × ℕ). IsMapHead bytes h.0 h.1 size) bytes.now) result }
{
    let (_, rest) = bytes.split_at(head);
    let byte = byte_at(rest)?;
    Ok((
        ElementType::of_code(byte / 16),
        ElementType::of_code(byte % 16),
    ))
}

/// The id and the type at the start of a field.
pub(crate) fn field_head_at(previous: i16, bytes: &[u8]) -> R<((i16, ElementType), usize)>
    ensures stands { IfOk result (λ x. IsFieldHead previous bytes.now x.0.0 (code_of x.0.1) x.1) }
    ensures named { IfOk result (λ x. IsNamed x.0.1) }
    ensures within { IfOk result (λ x. (1 ≤ x.1) × (x.1 ≤ length bytes.now)) }
    ensures which { RefusedOnly (IsRefusedFor (λ bytes (h : ℤ × ℕ). IsFieldHead previous bytes h.0 h.1) bytes.now) result }
{
    let byte = byte_at(bytes)?;
    let code = byte % 16;
    if code == 0 {
        return Err(Refusal::Thrift);
    }
    let kind = ElementType::of_code(code);
    if byte >= 16 {
        match previous.checked_add(i16::from(byte / 16)) {
            Some(id) => Ok(((id, kind), 1)),
            None => Err(Refusal::Thrift),
        }
    } else {
        let (_, rest) = bytes.split_at(1);
        let (id, used) = i16_at(rest)?;
        Ok(((id, kind), 1 + used))
    }
}

/// The header of a list or a set of `size` elements.
pub(crate) fn put_list_head(code: u8, size: usize, out: &mut Vec<u8>) -> R<()>
    requires { code < 16 }
    ensures stands { OnOk result (Appends (λ bytes. IsListHead bytes code size) (size_list_head size) out.old.items out.new.items) }
    ensures which { RefusedMemoryOnly result }
    ensures kept { Keeps out.old.items out.new.items }
{
    if size <= 14 {
        return Ok(out.push(16 * size as u8 + code)?);
    }
    out.push(240 + code)?;
    put_size(size, out)
}

/// The header of a map of `size` pairs.
pub(crate) fn put_map_head(keys: u8, values: u8, size: usize, out: &mut Vec<u8>) -> R<()>
    requires keys { keys < 16 }
    requires values { values < 16 }
    requires not_empty { 1 ≤ size }
    ensures stands { OnOk result (Appends (λ bytes. IsMapHead bytes keys values size) (size_length size + 1) out.old.items out.new.items) }
    ensures which { RefusedMemoryOnly result }
    ensures kept { Keeps out.old.items out.new.items }
{
    put_size(size, out)?;
    Ok(out.push(16 * keys + values)?)
}

/// The header of a field after the previous one.
pub(crate) fn put_field_head(previous: i16, id: i16, code: u8, out: &mut Vec<u8>) -> R<()>
    requires low { 1 ≤ code }
    requires high { code < 16 }
    ensures stands { OnOk result (Appends (λ bytes. IsFieldHead previous bytes id code) (size_field_head previous id) out.old.items out.new.items) }
    ensures which { RefusedMemoryOnly result }
    ensures kept { Keeps out.old.items out.new.items }
{
    if let Some(step) = short_step(previous, id) {
        return Ok(out.push(16 * step + code)?);
    }
    out.push(code)?;
    put_signed(i64::from(id), out)
}

/// How far an id is above the previous one, where a short header has it.
fn short_step(previous: i16, id: i16) -> Option<u8>
    ensures { MatchOption result (is_step (id -ℤ previous) ≡ false) (λ step. (is_step (id -ℤ previous) ≡ true) × IsStep previous id step) }
{
    let step = i32::from(id) - i32::from(previous);
    if step >= 1 && step <= 15 {
        Some(step as u8)
    } else {
        None
    }
}
