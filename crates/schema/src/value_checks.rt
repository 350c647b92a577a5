//! Whether borrowed values are of a physical type, and text.

ghost use Rattle.std.specs.Prelude.{◌≡◌, ◌==◌, ◌&&◌, true, length};
ghost use Rattle.std.specs.Option.{option_map_or};
ghost use Rattle.std.specs.Str.{is_utf8};
ghost use Rattle.schema.specs.Borrowed.{value_ref_view};
ghost use Rattle.schema.specs.Fits.{fits_kind, fits_leaf, is_valid_text, are_bytes};
ghost use Rattle.schema.specs.Values.{integer, bytes as spelled};
ghost use Rattle.schema.specs.Views.{leaf_type_view};

use crate::annotation::LeafType;
use crate::ascii_text::is_short_ascii;
use crate::borrowed::ValueRef;
use crate::value::Kind;
use simdutf8::basic::from_utf8;

impl LeafType {
    /// Whether a borrowed value is a leaf's, its repetition aside: of the physical type, and UTF-8 if the leaf
    /// holds text. Takes no memory; the time is linear in the bytes.
    #[inline(always)]
    pub fn fits_ref(&self, value: ValueRef<'_>) -> bool
        ensures { result ≡ fits_leaf (leaf_type_view self.now) (value_ref_view value.entry) }
    {
        is_of_kind(self.kind, value) && (!self.is_text() || is_text(value))
    }
}

/// Whether a value is of a physical type: numbers within its bits, bytes of its length. Takes no memory, and
/// the same time for each value.
// The value is looked at first: a pair of both would be written to memory and read back.
#[inline(always)]
pub fn is_of_kind(kind: Kind, value: ValueRef<'_>) -> bool
    ensures { result ≡ fits_kind kind (value_ref_view value.entry) }
{
    match value {
        ValueRef::Int(number) => is_number_of(kind, number),
        ValueRef::Bytes(bytes) => is_length_of(kind, bytes),
        ValueRef::Bool(_) => matches!(kind, Kind::Boolean),
        _ => false,
    }
}

/// Whether a value is text: bytes that are UTF-8. Takes no memory; the time is linear in the bytes.
#[inline(always)]
pub fn is_text(value: ValueRef<'_>) -> bool
    ensures { result ≡ is_valid_text (value_ref_view value.entry) }
{
    match value {
        ValueRef::Bytes(bytes) => is_utf8(bytes),
        _ => false,
    }
}

/// Whether a number is one of the physical type.
#[inline(always)]
fn is_number_of(kind: Kind, number: i64) -> bool
    ensures { result ≡ fits_kind kind (integer number) }
{
    match kind {
        Kind::Int64 => true,
        Kind::Int32 => i32::try_from(number).is_ok(),
        _ => false,
    }
}

/// Whether bytes are a value of the physical type.
#[inline(always)]
fn is_length_of(kind: Kind, bytes: &[u8]) -> bool
    ensures { result ≡ fits_kind kind (spelled bytes.now) }
{
    match kind {
        Kind::ByteArray => has_length(bytes, None),
        Kind::FixedLenByteArray(size) => has_length(bytes, Some(size)),
        _ => false,
    }
}

/// Whether bytes are of the wanted length, where one is.
#[inline(always)]
fn has_length(bytes: &[u8], wanted: Option<u32>) -> bool
    ensures { result ≡ (option_map_or (λ n. length bytes.now == n) wanted true && are_bytes bytes.now) }
{
    match wanted {
        Some(wanted) => bytes.len() as u64 == u64::from(wanted),
        None => true,
    }
}

/// Whether bytes are UTF-8. Takes no memory; the time is linear in the bytes, and short ASCII is found at once.
#[inline(always)]
pub fn is_utf8(bytes: &[u8]) -> bool
    ensures { result ≡ is_utf8 bytes.now }
{
    is_short_ascii(bytes) || from_utf8(bytes).is_ok()
}
