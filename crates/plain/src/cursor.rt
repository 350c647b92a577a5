//! Values one by one, where they lie.

ghost use Rattle.std.specs.Prelude.{◌≡◌, ◌≢◌, ◌≤◌, ◌<◌, ◌+◌, ◌^◌, ◌⊎◌, ℕ, All, length, take, IfOk, IfErr, OnOk, OnErr};
ghost use Rattle.std.specs.List.{Any};
ghost use Rattle.bits.specs.Refusals.{OnFault, LimitJustWhere};
ghost use Rattle.bits.specs.Codec.{NothingStands};
ghost use Rattle.schema.specs.Borrowed.{value_ref_view};
ghost use Rattle.plain.specs.Plain.{IsOfKind, IsPlain, IsReadOver, IsTooLong};
ghost use Rattle.plain.specs.ValuesFrom.{value_at, size_at, values_from, end_from, greatest_end};
ghost use Rattle.plain.specs.inner.First.{AreFirst};

use crate::measuring::size_of_values;
use bits::{R, Refusal};
use byteorder::{ByteOrder, LittleEndian};
use schema::{Kind, ValueRef};

/// PLAIN values of one physical type, to be taken one by one from the bytes that they stand in. It
/// holds the value that was taken last, and takes no memory for the others.
#[derive(Debug, Clone, Copy)]
pub struct Values<'a> {
    kind: Kind,
    bytes: &'a [u8],
    /// Where the next value stands: at which byte, or at which bit for a boolean.
    at: usize,
    left: usize,
    taken: ValueRef<'a>,
    /// The values that are left are all there.
    ghost there: { end_from kind left at bytes.now ≤ greatest_end kind bytes.now },
}

impl<'a> Values<'a> {
    ghost use Rattle.plain.specs.ValuesLeft.{values_left, last_taken, kind_of, Gives, Advances, TakesBytes};

    /// The first `n` values of the type, none of which is taken, and how many bytes they take. Bytes
    /// after them are ignored. (parquet-format, Encodings.md, "Plain".)
    ///
    /// Refused as by [`decode`](crate::decode), but never for memory, since it takes none: Limit
    /// exactly when one of the `n` values is announced with more than 16 MiB and those before it
    /// stand, else Truncated exactly when the bytes end before the `n` values do.
    ///
    /// Takes one pass over the lengths of BYTE_ARRAY values, and constant time for the other types.
    pub fn new(kind: Kind, bytes: &'a [u8], n: usize) -> R<(Values<'a>, usize)>
        ensures stands { IfOk result (λ x. IsPlain kind n bytes.now (values_left x.0) x.1) }
        ensures count { IfOk result (λ x. length (values_left x.0) ≡ n) }
        ensures of_kind { IfOk result (λ x. All (IsOfKind kind) (values_left x.0)) }
        ensures within { IfOk result (λ x. x.1 ≤ length bytes.now) }
        ensures only { OnFault result (NothingStands (IsPlain kind n bytes.now)) }
        ensures which { IfErr result (λ e. (e ≡ Refusal.Truncated) ⊎ (e ≡ Refusal.Limit)) }
        ensures limit { LimitJustWhere (IsReadOver kind bytes.now n) result }
    {
        let used = size_of_values(kind, bytes, n)?;
        let values = Values {
            kind,
            bytes,
            at: 0,
            left: n,
            taken: ValueRef::Null,
        };
        Ok((values, used))
    }

    /// The first `n` values of the type, none of which is taken, where they are known to stand. Bytes after
    /// them are ignored. Takes constant time: nothing is checked again.
    #[inline(always)]
    pub fn known(kind: Kind, bytes: &'a [u8], n: usize) -> Values<'a>
        requires stood { NothingStands (IsPlain kind n bytes.now) → ⊥ }
        ensures stands { (used : ℕ) × IsPlain kind n bytes.now (values_left result) used }
        ensures count { length (values_left result) ≡ n }
        ensures of_kind { All (IsOfKind kind) (values_left result) }
        ensures kind { kind_of result ≡ kind }
    {
        Values {
            kind,
            bytes,
            at: 0,
            left: n,
            taken: ValueRef::Null,
        }
    }

    /// How many values are not taken yet.
    #[inline(always)]
    pub fn len(&self) -> usize
        ensures { result ≡ length (values_left self.now) }
    {
        self.left
    }

    /// The physical type of the values.
    #[inline(always)]
    pub fn kind(&self) -> Kind
        ensures { result ≡ kind_of self.now }
    {
        self.kind
    }

    /// Takes the next `n` values, or all where fewer are left, and returns the bytes that they stand in, and no
    /// others. [`value`](Values::value) stays as it is.
    ///
    /// Refused Limit exactly when one of these values has more than 16 MiB; then none is taken. Takes no memory; one
    /// pass over the lengths of BYTE_ARRAY values, and constant time for the other types.
    pub fn take_bytes(&mut self, n: usize) -> R<&'a [u8]>
        requires whole_bytes { kind_of self.old ≢ Kind.Boolean }
        ensures takes { IfOk result (λ text. TakesBytes n self.old self.new text.now) }
        ensures limit { OnErr result (Any IsTooLong (take n (values_left self.old))) }
        ensures which { IfErr result (λ e. e ≡ Refusal.Limit) }
        ensures unchanged { OnErr result (self.new ≡ self.old) }
    {
        let count = n.min(self.left);
        let size = size_of_next(self.kind, self.bytes, self.at, self.left, count)?;
        let text = self.bytes.split_at(self.at).1.split_at(size).0;
        self.at += size;
        self.left -= count;
        Ok(text)
    }

    /// Takes the next value and returns it, or none at the end. Its bytes are those that the values stand
    /// in. [`value`](Values::value) stays as it is.
    #[inline(always)]
    pub fn next(&mut self) -> Option<ValueRef<'a>>
        ensures gives { Gives self.old self.new result }
        ensures kind { kind_of self.new ≡ kind_of self.old }
    {
        if self.left == 0 {
            return None;
        }
        let (value, size) = value_at(self.kind, self.bytes, self.at);
        self.at += size;
        self.left -= 1;
        Some(value)
    }

    /// Takes the next value and returns whether there was one. From then on it is
    /// [`value`](Values::value).
    #[inline(always)]
    pub fn advance(&mut self) -> bool
        ensures advances { Advances self.old self.new result }
        ensures kind { kind_of self.new ≡ kind_of self.old }
    {
        match self.next() {
            None => false,
            Some(value) => {
                self.taken = value;
                true
            }
        }
    }

    /// The value that was taken last; before the first one, null. Its bytes are those that the values
    /// stand in.
    #[inline(always)]
    pub fn value(&self) -> ValueRef<'a>
        ensures { value_ref_view result ≡ last_taken self.now }
    {
        self.taken
    }
}

/// How many bytes the first `count` of the values take that are there from the index on.
fn size_of_next(kind: Kind, bytes: &[u8], at: usize, left: usize, count: usize) -> R<usize>
    requires there { end_from kind left at bytes.now ≤ greatest_end kind bytes.now }
    requires whole_bytes { kind ≢ Kind.Boolean }
    requires few { count ≤ left }
    ensures first { IfOk result (λ used. AreFirst kind count left at bytes.now used) }
    ensures short { OnOk result (Any IsTooLong (values_from kind count at bytes.now) → ⊥) }
    ensures long { OnErr result (Any IsTooLong (values_from kind count at bytes.now)) }
    ensures which { IfErr result (λ e. e ≡ Refusal.Limit) }
{
    size_of_values(kind, bytes.split_at(at).1, count)
}

/// The value at the index, and how far from it the next one stands.
#[inline(always)]
pub(crate) fn value_at<'a>(kind: Kind, bytes: &'a [u8], at: usize) -> (ValueRef<'a>, usize)
    requires { at + size_at kind at bytes.now ≤ greatest_end kind bytes.now }
    ensures value { value_ref_view result.0 ≡ value_at kind at bytes.now }
    ensures size { result.1 ≡ size_at kind at bytes.now }
    ensures fits { at + result.1 < 2 ^ 64 }
{
    match kind {
        Kind::Boolean => {
            let bit = (bytes[at / 8] >> (at % 8)) & 1;
            (ValueRef::Bool(bit == 1), 1)
        }
        Kind::Int32 => {
            let number = LittleEndian::read_i32(bytes.split_at(at).1);
            (ValueRef::Int(i64::from(number)), 4)
        }
        Kind::Int64 => {
            let number = LittleEndian::read_i64(bytes.split_at(at).1);
            (ValueRef::Int(number), 8)
        }
        Kind::ByteArray => {
            let rest = bytes.split_at(at).1;
            let size = LittleEndian::read_u32(rest) as usize;
            (
                ValueRef::Bytes(rest.split_at(4).1.split_at(size).0),
                4 + size,
            )
        }
        Kind::FixedLenByteArray(size) => {
            let size = size as usize;
            (ValueRef::Bytes(bytes.split_at(at).1.split_at(size).0), size)
        }
    }
}
