//! The texts of numbers.

ghost use Rattle.std.specs.Prelude.{◌≡◌, ◌≤◌, length, option_map, List, ℕ};
ghost use Rattle.leaftext.specs.Forms.{form_text};
ghost use Rattle.leaftext.specs.Texts.{date_text_of, time_text_of, timestamp_text_of, decimal_text_of};

use crate::leaf_form::Form;
use arrayvec::ArrayString;
use valuetext::{TimeUnit, date_text, decimal_text, time_text, timestamp_text};

/// The greatest scale of a decimal that has a text.
const MOST_SCALE: u8 = 38;

/// The text of a number of a leaf. None exactly if it has none: a date outside the years 0001 to 9999, a time outside
/// the day, or a form of bytes.
pub fn form_text(form: Form, number: i64) -> Option<ArrayString<80>>
    ensures { option_map (λ text. text.bytes) result ≡ form_text form number }
{
    match form {
        Form::Date => text_of_date(number),
        Form::Time(unit) => text_of_time(unit, number),
        Form::Timestamp(unit) => text_of_timestamp(unit, number),
        Form::Decimal(scale) => text_of_decimal(scale, number),
        Form::ShortestBytes(_) | Form::FixedBytes(_, _) => None,
    }
}

/// A text with more room.
fn with_room(text: &str) -> ArrayString<80>
    requires { length text.now ≤ 80 }
    ensures { result.bytes ≡ text.now }
{
    let mut copy = ArrayString::new();
    copy.push_str(text);
    copy
}

/// The text of a day.
fn text_of_date(day: i64) -> Option<ArrayString<80>>
    ensures { option_map (λ text. text.bytes) result ≡ date_text_of day }
{
    match date_text(day) {
        Some(text) => Some(with_room(text.as_str())),
        None => None,
    }
}

/// The text of a time of day.
fn text_of_time(unit: TimeUnit, number: i64) -> Option<ArrayString<80>>
    ensures { option_map (λ text. text.bytes) result ≡ time_text_of unit number }
{
    match time_text(number, unit) {
        Some(text) => Some(with_room(text.as_str())),
        None => None,
    }
}

/// The text of a timestamp.
fn text_of_timestamp(unit: TimeUnit, number: i64) -> Option<ArrayString<80>>
    ensures { option_map (λ text. text.bytes) result ≡ timestamp_text_of unit number }
{
    match timestamp_text(number, unit) {
        Some(text) => Some(with_room(text.as_str())),
        None => None,
    }
}

/// The text of a decimal number.
fn text_of_decimal(scale: u8, number: i64) -> Option<ArrayString<80>>
    ensures { option_map (λ text. text.bytes) result ≡ decimal_text_of scale number }
{
    if scale > MOST_SCALE {
        return None;
    }
    Some(decimal_text(number as i128, scale))
}
