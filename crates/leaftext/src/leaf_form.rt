//! Which leaves have texts.

ghost use Rattle.std.specs.Prelude.{◌≡◌, option_map};
ghost use Rattle.schema.specs.Views.{leaf_type_view};
ghost use Rattle.leaftext.specs.declared.leaf_form.Form.TheVariants as form;
ghost use Rattle.leaftext.specs.Forms.{fixed_form, form_of, scale_of};

use schema::{Annotation, ConvertedType, Kind, LeafType};
use valuetext::TimeUnit;

/// The greatest scale of a decimal that has a text.
const MOST_SCALE: i32 = 38;

/// The most bytes of a decimal that has a text.
const MOST_BYTES: u32 = 16;

/// What the numbers of a leaf, or its bytes, are as texts.
#[derive(Clone, Copy)]
pub enum Form {
    /// Days since 1970-01-01.
    Date,
    /// Units since midnight.
    Time(TimeUnit),
    /// Units since 1970-01-01T00:00:00Z.
    Timestamp(TimeUnit),
    /// Decimal numbers with a scale.
    Decimal(u8),
    /// Decimal numbers with a scale, each as the shortest bytes that are it.
    ShortestBytes(u8),
    /// Decimal numbers with a scale, each as so many bytes.
    FixedBytes(u8, u8),
}

/// The form of the texts of a leaf's values. None exactly if they have no texts. DATE, TIME and TIMESTAMP have them
/// over INT32 and INT64; DECIMAL with a scale from 0 to 38 has them over INT32, INT64, BYTE_ARRAY and
/// FIXED_LEN_BYTE_ARRAY of 1 to 16 bytes.
pub fn form_of(leaf_type: &LeafType) -> Option<Form>
    ensures { result ≡ form_of (leaf_type_view leaf_type.now) }
{
    let Annotation::Known(converted) = &leaf_type.annotation else {
        return None;
    };
    match (leaf_type.kind, *converted) {
        (Kind::Int32, ConvertedType::Date) => Some(Form::Date),
        (Kind::Int32, ConvertedType::TimeMillis) => Some(Form::Time(TimeUnit::Millis)),
        (Kind::Int64, ConvertedType::TimeMicros) => Some(Form::Time(TimeUnit::Micros)),
        (Kind::Int64, ConvertedType::TimestampMillis) => Some(Form::Timestamp(TimeUnit::Millis)),
        (Kind::Int64, ConvertedType::TimestampMicros) => Some(Form::Timestamp(TimeUnit::Micros)),
        (Kind::Int32 | Kind::Int64, ConvertedType::Decimal) => decimal_form(leaf_type.scale),
        (Kind::ByteArray, ConvertedType::Decimal) => shortest_form(leaf_type.scale),
        (Kind::FixedLenByteArray(len), ConvertedType::Decimal) => fixed_form(len, leaf_type.scale),
        _ => None,
    }
}

/// A scale from 0 to 38; without a scale it is 0.
fn scale_of(scale: Option<i32>) -> Option<u8>
    ensures { result ≡ scale_of scale }
{
    let Some(scale) = scale else {
        return Some(0);
    };
    if scale < 0 || scale > MOST_SCALE {
        return None;
    }
    Some(scale as u8)
}

/// Decimals as integers.
fn decimal_form(scale: Option<i32>) -> Option<Form>
    ensures { result ≡ option_map form.Decimal (scale_of scale) }
{
    match scale_of(scale) {
        Some(scale) => Some(Form::Decimal(scale)),
        None => None,
    }
}

/// Decimals as the shortest bytes.
fn shortest_form(scale: Option<i32>) -> Option<Form>
    ensures { result ≡ option_map form.ShortestBytes (scale_of scale) }
{
    match scale_of(scale) {
        Some(scale) => Some(Form::ShortestBytes(scale)),
        None => None,
    }
}

/// Decimals as so many bytes, from 1 to 16.
fn fixed_form(len: u32, scale: Option<i32>) -> Option<Form>
    ensures { result ≡ fixed_form len scale }
{
    if len == 0 || len > MOST_BYTES {
        return None;
    }
    match scale_of(scale) {
        Some(scale) => Some(Form::FixedBytes(scale, len as u8)),
        None => None,
    }
}
