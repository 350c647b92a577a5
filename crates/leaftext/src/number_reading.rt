//! The numbers that texts are read as.

ghost use Rattle.std.specs.Prelude.{◌≡◌, Some, None};
ghost use Rattle.valuetext.specs.Decimals.{IsDecimalNumber};
ghost use Rattle.leaftext.specs.Forms.{in_64_bits, form_read};
ghost use Rattle.leaftext.specs.Reads.{date_read, time_read, timestamp_read, decimal_read};

use crate::leaf_form::Form;
use valuetext::{TimeUnit, read_date, read_decimal, read_time, read_timestamp};

/// The greatest scale of a decimal that is read.
const MOST_SCALE: u8 = 38;

/// The number of a leaf that a text is read as. None exactly if it is read as none of 64 bits, or the
/// form is one of bytes.
pub fn form_read(form: Form, text: &[u8]) -> Option<i64>
    ensures { result ≡ form_read form text.now }
{
    match form {
        Form::Date => date_from(text),
        Form::Time(unit) => time_from(unit, text),
        Form::Timestamp(unit) => timestamp_from(unit, text),
        Form::Decimal(scale) => decimal_from(scale, text),
        Form::ShortestBytes(_) | Form::FixedBytes(_, _) => None,
    }
}

/// The day that a text is.
fn date_from(text: &[u8]) -> Option<i64>
    ensures { result ≡ date_read text.now }
{
    match read_date(text) {
        Some(day) => Some(day as i64),
        None => None,
    }
}

/// The time of day that a text is read as.
fn time_from(unit: TimeUnit, text: &[u8]) -> Option<i64>
    ensures { result ≡ time_read unit text.now }
{
    read_time(text, unit)
}

/// The timestamp that a text is read as.
fn timestamp_from(unit: TimeUnit, text: &[u8]) -> Option<i64>
    ensures { result ≡ timestamp_read unit text.now }
{
    read_timestamp(text, unit)
}

/// The decimal number that a text is read as.
fn decimal_from(scale: u8, text: &[u8]) -> Option<i64>
    ensures { result ≡ in_64_bits (decimal_read scale text.now) }
{
    if scale > MOST_SCALE {
        return None;
    }
    let found = read_decimal(text, scale);
    match &found {
        Some(number) => narrowed(number),
        None => None,
    }
}

/// The number, if it has 64 bits.
fn narrowed(number: &i128) -> Option<i64>
    ensures number { result ≡ in_64_bits (Some number.now) }
    ensures bound { IsDecimalNumber number.now }
{
    let number = *number;
    if number < i64::MIN as i128 || number > i64::MAX as i128 {
        return None;
    }
    Some(number as i64)
}
