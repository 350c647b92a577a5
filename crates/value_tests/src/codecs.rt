//! A caller that knows nothing of an encoding but that it is a value codec.

ghost use Rattle.std.specs.Prelude.{◌≡◌, map, IfOk};

use bits::{R, ValueCodec};
use delta::DeltaLengths;
use dictionary::Indexes;
use plain::{Plain, Split};
use schema::{Kind, Value, same};
use std::alloc::Global;
use std::test::*;

/// Writes the values and reads them again: they are the same.
fn reread<C: ValueCodec>(codec: &C, alloc: Global, values: &[C::Value]) -> R<Vec<C::Value>>
    ensures { IfOk result (λ v. map C.shown v.items ≡ map C.shown values.now) }
{
    let mut out = Vec::new(alloc);
    codec.encode(values, &mut out)?;
    let (read, _) = codec.decode(alloc, out.as_slice(), values.len())?;
    codec.one_meaning();
    Ok(read)
}

/// Whether both lists have the same values, in the same order.
fn are_same(one: &[Value], other: &[Value]) -> bool {
    one.len() == other.len() && one.iter().zip(other.iter()).all(|(a, b)| same(a, b))
}

#[test]
fn values_come_back_through_a_codec(rt: HostRuntime) -> Result<(), Fail> {
    let values = [Value::Int(0), Value::Int(300), Value::Int(i64::MAX)];
    let plain = Plain { kind: Kind::Int64 };
    let read = reread(&plain, rt.alloc(), values.as_slice())?;
    assert!(rt; are_same(read.as_slice(), values.as_slice()));
    Ok(())
}

#[test]
fn byte_values_come_back_by_their_lengths(rt: HostRuntime) -> Result<(), Fail> {
    let text = Vec::from_slice(rt.alloc(), b"babyhood".as_slice())?;
    let values = [Value::Bytes(Vec::new(rt.alloc())), Value::Bytes(text)];
    let read = reread(&DeltaLengths, rt.alloc(), values.as_slice())?;
    assert!(rt; are_same(read.as_slice(), values.as_slice()));
    Ok(())
}

#[test]
fn split_values_come_back(rt: HostRuntime) -> Result<(), Fail> {
    let values = [Value::Int(0), Value::Int(300), Value::Int(-1)];
    let split = Split { kind: Kind::Int32 };
    let read = reread(&split, rt.alloc(), values.as_slice())?;
    assert!(rt; are_same(read.as_slice(), values.as_slice()));
    Ok(())
}

#[test]
fn indexes_come_back(rt: HostRuntime) -> Result<(), Fail> {
    let read = reread(&Indexes { size: 9 }, rt.alloc(), [8, 0, 8].as_slice())?;
    assert!(rt; matches!(read.as_slice(), [8, 0, 8]));
    Ok(())
}
