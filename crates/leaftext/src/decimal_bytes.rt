//! The texts of decimals that are kept as bytes.

ghost use Rattle.std.specs.Prelude.{◌≡◌, option_map, Some};
ghost use Rattle.valuetext.specs.Decimals.{IsDecimalNumber};
ghost use Rattle.leaftext.specs.Bytes.{bytes_text_of, fixed_bytes, shortest_bytes};
ghost use Rattle.leaftext.specs.declared.leaf_form.Form.TheVariants as form;
ghost use Rattle.leaftext.specs.Forms.{form_bytes_read, form_bytes_text};
ghost use Rattle.leaftext.specs.Reads.{decimal_read};
ghost use Rattle.leaftext.specs.Texts.{decimal_text_of};

use crate::leaf_form::Form;
use arrayvec::{ArrayString, ArrayVec};
use valuetext::{bytes_of, decimal_text, number_of, read_decimal, repeats_sign, shortest_bytes_of};

/// The greatest scale of a decimal that has a text.
const MOST_SCALE: u8 = 38;

/// The most bytes of a decimal that has a text.
const MOST_BYTES: u8 = 16;

/// The text of bytes of a leaf. None exactly if they have none: no bytes or more than 16, bytes that are not the shortest
/// of their number where the form asks for these, or a form of numbers.
pub fn form_bytes_text(form: Form, bytes: &[u8]) -> Option<ArrayString<80>>
    ensures { option_map (λ text. text.bytes) result ≡ form_bytes_text form bytes.now }
{
    match form {
        Form::ShortestBytes(scale) if !repeats_sign(bytes) => text_of_bytes(scale, bytes),
        Form::FixedBytes(scale, len) if bytes.len() == len as usize => text_of_bytes(scale, bytes),
        _ => None,
    }
}

/// The bytes of a leaf that a text is read as. None exactly if it is read as none, or the form is one of numbers.
pub fn form_bytes_read(form: Form, text: &[u8]) -> Option<ArrayVec<u8, 16>>
    ensures { option_map (λ bytes. bytes.items) result ≡ form_bytes_read form text.now }
{
    match form {
        Form::ShortestBytes(scale) => shortest_from(scale, text),
        Form::FixedBytes(scale, len) => fixed_from(scale, len, text),
        _ => None,
    }
}

/// The text of the number that bytes are.
fn text_of_bytes(scale: u8, bytes: &[u8]) -> Option<ArrayString<80>>
    ensures { option_map (λ text. text.bytes) result ≡ bytes_text_of scale bytes.now }
{
    let found = number_of(bytes);
    match &found {
        Some(number) => text_of_number(scale, number),
        None => None,
    }
}

/// The text of a decimal number.
fn text_of_number(scale: u8, number: &i128) -> Option<ArrayString<80>>
    ensures { option_map (λ text. text.bytes) result ≡ decimal_text_of scale number.now }
{
    if scale > MOST_SCALE {
        return None;
    }
    Some(decimal_text(*number, scale))
}

/// The shortest bytes of the number that a text is read as.
fn shortest_from(scale: u8, text: &[u8]) -> Option<ArrayVec<u8, 16>>
    ensures { option_map (λ bytes. bytes.items) result ≡ form_bytes_read (form.ShortestBytes scale) text.now }
{
    match number_from(scale, text) {
        Some(number) => Some(shortest_of(number)),
        None => None,
    }
}

/// So many bytes of the number that a text is read as.
fn fixed_from(scale: u8, len: u8, text: &[u8]) -> Option<ArrayVec<u8, 16>>
    ensures { option_map (λ bytes. bytes.items) result ≡ form_bytes_read (form.FixedBytes scale len) text.now }
{
    match number_from(scale, text) {
        Some(number) => fixed_of(len, number),
        None => None,
    }
}

/// The shortest bytes that are a number.
fn shortest_of(number: i128) -> ArrayVec<u8, 16>
    ensures { Some result.items ≡ shortest_bytes number }
{
    shortest_bytes_of(number)
}

/// So many bytes, from 1 to 16, that are a number.
fn fixed_of(len: u8, number: i128) -> Option<ArrayVec<u8, 16>>
    ensures { option_map (λ bytes. bytes.items) result ≡ fixed_bytes len number }
{
    if len == 0 || len > MOST_BYTES {
        return None;
    }
    bytes_of(number, len as usize)
}

/// The decimal number that a text is read as.
fn number_from(scale: u8, text: &[u8]) -> Option<i128>
    ensures { result ≡ decimal_read scale text.now }
{
    if scale > MOST_SCALE {
        return None;
    }
    let found = read_decimal(text, scale);
    match &found {
        Some(number) => Some(copied(number)),
        None => None,
    }
}

/// The number, which has at most 16 bytes.
fn copied(number: &i128) -> i128
    ensures same { result ≡ number.now }
    ensures bound { IsDecimalNumber number.now }
{
    *number
}
