//! Deltas as an encoding of lists of values.

ghost use Rattle.std.specs.Prelude.{ℤ, ◌+◌, ◌*◌, length};
ghost use Rattle.schema.specs.declared.value.Kind.TheVariants.{ByteArray};
ghost use Rattle.schema.specs.Values.{ValueTree, view};
ghost use Rattle.plain.specs.Plain.{IsWriteOver, text_size};
ghost use Rattle.delta.specs.Delta.{IsDelta, most_bytes};
ghost use Rattle.delta.specs.ByteDeltas.{IsLengthsOver, AreByLengths};

use crate::integer::Integer;
use crate::lengths::decode_lengths;
use crate::put_lengths::encode_lengths;
use crate::reading::decode;
use crate::writing::encode;
use bits::{R, ValueCodec};
use schema::Value;
use std::alloc::Global;
use std::marker::PhantomData;

/// Numbers as differences, in 64 bits (`i64`) or 32 (`i32`).
#[derive(Debug, Drop)]
pub struct Delta<T: Integer> {
    pub of: PhantomData<T>,
}

impl<T: Integer> Delta<T> {
    /// The encoding.
    pub fn new() -> Self {
        Delta { of: PhantomData }
    }
}

impl<T: Integer> ValueCodec for Delta<T> {
    type Value = T;

    ghost Shown = { ℤ };

    ghost shown = { T.seen };

    ghost stands = { λ _ n bytes. IsDelta T.width bytes n };

    ghost reads_over = { λ _ _ _. ⊥ };

    ghost writes_over = { λ _ _. ⊥ };

    ghost most = { λ _ numbers. most_bytes T.width (length numbers) };

    fn decode(&self, alloc: Global, bytes: &[u8], n: usize) -> R<(Vec<T>, usize)> {
        decode(alloc, bytes, n)
    }

    fn encode(&self, values: &[T], out: &mut Vec<u8>) -> R<()> {
        encode(values, out)
    }

    fn one_meaning(&self) {}
}

/// Byte values by their lengths.
#[derive(Debug, Clone, Copy)]
pub struct DeltaLengths;

impl ValueCodec for DeltaLengths {
    type Value = Value;

    ghost Shown = { ValueTree };

    ghost shown = { view };

    ghost stands = { λ _. AreByLengths };

    ghost reads_over = { λ _ bytes n. IsLengthsOver bytes n };

    ghost writes_over = { λ _. IsWriteOver ByteArray };

    ghost most = { λ _ values. 170 + 5 * length values + text_size values };

    fn decode(&self, alloc: Global, bytes: &[u8], n: usize) -> R<(Vec<Value>, usize)> {
        decode_lengths(alloc, bytes, n)
    }

    fn encode(&self, values: &[Value], out: &mut Vec<u8>) -> R<()> {
        encode_lengths(values, out)
    }

    fn one_meaning(&self) {}
}
