//! What texts the values of a leaf have, in words.

use bits::R;
use leaftext::{Form, form_text};
use schema::Kind;
use std::alloc::Global;
use valuetext::TimeUnit;

/// The number that is shown as a decimal number, without its point: bytes of length 3 hold it, and all that are longer.
const SHOWN: i64 = 117_614;

/// The same for fewer bytes.
const SHOWN_SHORT: i64 = 117;

/// How many bytes hold [`SHOWN`].
const BYTES_OF_SHOWN: u8 = 3;

/// What the texts of a form are, in words, with one as an example; this is what the leaf's values are kept as.
pub fn texts_of(alloc: Global, kind: Kind, form: Form) -> R<String> {
    let words = match form {
        Form::Date => "a date as \"2024-05-01\"",
        Form::Time(TimeUnit::Millis) => "a time as \"13:05:09.123\"",
        Form::Time(TimeUnit::Micros) => "a time as \"13:05:09.123456\"",
        Form::Timestamp(TimeUnit::Millis) => "a timestamp as \"2024-05-01T13:05:09.123Z\"",
        Form::Timestamp(TimeUnit::Micros) => "a timestamp as \"2024-05-01T13:05:09.123456Z\"",
        Form::Decimal(scale) => return integers_of(alloc, kind, scale),
        Form::ShortestBytes(scale) => return decimals_of(alloc, scale, SHOWN),
        Form::FixedBytes(scale, length) => return of_bytes(alloc, scale, length),
    };
    Ok(String::from_str(alloc, words)?)
}

/// What the decimal numbers with this scale are, in words; this one, without its point, is the example.
fn decimals_of(alloc: Global, scale: u8, number: i64) -> R<String> {
    let example = text_of(alloc, scale, number)?;
    match scale {
        0 => Ok(format!(in alloc; "a whole number as \"{example}\"")?),
        1 => Ok(format!(in alloc; "a number with at most 1 place as \"{example}\"")?),
        _ => Ok(format!(in alloc; "a number with at most {scale} places as \"{example}\"")?),
    }
}

/// What the decimal numbers with this scale are that are kept as integers, in words, with their range.
fn integers_of(alloc: Global, kind: Kind, scale: u8) -> R<String> {
    let (least, greatest) = match kind {
        Kind::Int32 => (i64::from(i32::MIN), i64::from(i32::MAX)),
        _ => (i64::MIN, i64::MAX),
    };
    let words = decimals_of(alloc, scale, SHOWN)?;
    let least = text_of(alloc, scale, least)?;
    let greatest = text_of(alloc, scale, greatest)?;
    Ok(format!(in alloc; "{words}, from {least} to {greatest}")?)
}

/// What the decimal numbers with this scale are that are kept as so many bytes, in words.
fn of_bytes(alloc: Global, scale: u8, length: u8) -> R<String> {
    let number = if length < BYTES_OF_SHOWN {
        SHOWN_SHORT
    } else {
        SHOWN
    };
    let words = decimals_of(alloc, scale, number)?;
    if length == 1 {
        return Ok(format!(in alloc; "{words}, of 1 byte")?);
    }
    Ok(format!(in alloc; "{words}, of at most {length} bytes")?)
}

/// The text of a decimal number with this scale.
fn text_of(alloc: Global, scale: u8, number: i64) -> R<String> {
    match form_text(Form::Decimal(scale), number) {
        Some(text) => Ok(String::from_str(alloc, text.as_str())?),
        // Each number has a text as a decimal number.
        None => Ok(String::new(alloc)),
    }
}
