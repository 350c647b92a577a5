//! Values of leaves from a line.

ghost use Rattle.std.specs.Prelude.{◌≡◌, ◌%◌, ◌^◌, ℕ, true, false, Some, None, OnOk, IfSome, decimal};
ghost use Rattle.std.specs.Int.{w64, cast_unsigned};
ghost use Rattle.serde_json.specs.Data as json;
ghost use Rattle.serde_json.specs.Written.{compact_text, number_text};
ghost use Rattle.schema.specs.Annotations.{is_text, order_of};
ghost use Rattle.schema.specs.Fits.{fits_leaf};
ghost use Rattle.schema.specs.Views.{annotation_view, leaf_type_view};
ghost use Rattle.leaftext.specs.Forms.{form_if};
ghost use Rattle.rowtext.specs.Json.{number_json, leaf_json};
ghost use Rattle.rowtext.specs.Reading.{leaf_read_as};
ghost use Rattle.rowtext.specs.inner.Lines.{Takes};
ghost use Rattle.rowtext.specs.inner.Pieces.{IsAdded, IsNumberAdded, IsRead, IsIntegerRead, IsLeafRead, IsTaken};

use crate::cursor::Cursor;
use crate::hex_digits::are_digits;
use crate::piece_list::Pieces;
use crate::pieces::Piece;
use crate::scalars::{NUMBERS_OF_INT32, form_if};
use crate::unread::Unread;
use json::Scratch;
use leaftext::{Form, form_read};
use schema::{Kind, LeafType, Order, Value};

/// Reads a value of a leaf, its repetition aside, with texts or without.
pub fn leaf_at<'t>(
    leaf_type: &LeafType,
    texts: bool,
    scratch: &mut Scratch,
    line: &mut Cursor<'t>,
    pieces: &mut Pieces<'t>,
) -> Result<(), Unread>
    ensures { (deep : ℕ) → OnOk result (IsTaken (leaf_read_as texts (leaf_type_view leaf_type.now)) deep line.old line.new pieces.old.items pieces.new.items) }
{
    leaf_in_form(leaf_type, texts, scratch, line, pieces)?;
    if line.end_value() {
        Ok(())
    } else {
        Err(Unread::Unknown)
    }
}

/// Reads a value of a leaf up to its last byte.
#[inline(always)]
fn leaf_in_form<'t>(
    leaf_type: &LeafType,
    texts: bool,
    scratch: &mut Scratch,
    line: &mut Cursor<'t>,
    pieces: &mut Pieces<'t>,
) -> Result<(), Unread>
    ensures { OnOk result (IsLeafRead (form_if texts (leaf_type_view leaf_type.now)) (leaf_type_view leaf_type.now) line.old line.new pieces.old.items pieces.new.items) }
{
    match form_if(texts, leaf_type) {
        Some(form) => formed_printed(leaf_type, form, line, pieces),
        None => leaf_unformed(leaf_type, scratch, line, pieces),
    }
}

/// Reads a value of a leaf whose values have no texts.
#[inline(always)]
fn leaf_unformed<'t>(
    leaf_type: &LeafType,
    scratch: &mut Scratch,
    line: &mut Cursor<'t>,
    pieces: &mut Pieces<'t>,
) -> Result<(), Unread>
    ensures { OnOk result (IsLeafRead None (leaf_type_view leaf_type.now) line.old line.new pieces.old.items pieces.new.items) }
{
    if leaf_type.is_text() {
        return text_lexed(leaf_type, scratch, line, pieces);
    }
    leaf_printed(leaf_type, line, pieces)
}

/// Reads a text of a leaf, with escapes in any form.
fn text_lexed<'t>(
    leaf_type: &LeafType,
    scratch: &mut Scratch,
    line: &mut Cursor<'t>,
    pieces: &mut Pieces<'t>,
) -> Result<(), Unread>
    requires { is_text leaf_type.now.kind (annotation_view leaf_type.now.annotation) ≡ true }
    ensures { OnOk result (IsLeafRead None (leaf_type_view leaf_type.now) line.old line.new pieces.old.items pieces.new.items) }
{
    let Some(piece) = line.text_in_any_form(scratch)? else {
        return Err(Unread::Unknown);
    };
    pieces.push(piece)?;
    Ok(())
}

/// Reads a value of a leaf whose values have texts: a number, or the text of one.
#[inline(never)]
fn formed_printed<'t>(
    leaf_type: &LeafType,
    form: Form,
    line: &mut Cursor<'t>,
    pieces: &mut Pieces<'t>,
) -> Result<(), Unread>
    ensures { OnOk result (IsLeafRead (Some form) (leaf_type_view leaf_type.now) line.old line.new pieces.old.items pieces.new.items) }
{
    if !line.is_string() {
        return integer_printed(leaf_type, line, pieces);
    }
    let Some(text) = line.string() else {
        return Err(Unread::Unknown);
    };
    put_formed(leaf_type, form, text, pieces)
}

/// Adds the number whose text this is.
fn put_formed<'t>(
    leaf_type: &LeafType,
    form: Form,
    text: &str,
    pieces: &mut Pieces<'t>,
) -> Result<(), Unread>
    ensures { OnOk result (IsNumberAdded form (leaf_type_view leaf_type.now) text.now pieces.old.items pieces.new.items) }
{
    let number = form_read(form, text.as_bytes()).ok_or(Unread::Unknown)?;
    if !leaf_type.fits(&Value::Int(number)) {
        return Err(Unread::Unknown);
    }
    pieces.push(Piece::Int(number))?;
    Ok(())
}

/// Reads a value of a leaf, its repetition aside, as it is printed without texts.
pub fn leaf_printed<'t>(
    leaf_type: &LeafType,
    line: &mut Cursor<'t>,
    pieces: &mut Pieces<'t>,
) -> Result<(), Unread>
    ensures { OnOk result (IsRead (fits_leaf (leaf_type_view leaf_type.now))
        (leaf_json (leaf_type_view leaf_type.now)) line.old line.new pieces.old.items pieces.new.items) }
{
    match leaf_type.kind {
        Kind::Boolean => boolean_printed(leaf_type, line, pieces),
        Kind::Int32 | Kind::Int64 => integer_printed(leaf_type, line, pieces),
        Kind::ByteArray | Kind::FixedLenByteArray(_) => bytes_printed(leaf_type, line, pieces),
    }
}

/// The integer of 32 bits whose unsigned number stands there.
fn unsigned_32(line: &mut Cursor<'_>) -> Option<i64>
    ensures { IfSome result (λ z. Takes line.old line.new (decimal (cast_unsigned w64 z % 2 ^ 32))) }
{
    let bits = line.natural()?;
    if bits < NUMBERS_OF_INT32 {
        Some(i64::from((bits as u32).cast_signed()))
    } else {
        None
    }
}

/// The integer of 64 bits whose unsigned number stands there.
fn unsigned_64(line: &mut Cursor<'_>) -> Option<i64>
    ensures { IfSome result (λ z. Takes line.old line.new (decimal (cast_unsigned w64 z))) }
{
    let bits = line.natural()?;
    Some(bits.cast_signed())
}

/// The integer of a leaf that stands there.
fn number_printed(leaf_type: &LeafType, line: &mut Cursor<'_>) -> Option<i64>
    ensures { IfSome result (λ z. Takes line.old line.new (number_text (number_json leaf_type.now.kind (order_of (leaf_type_view leaf_type.now)) z))) }
{
    match (leaf_type.order(), leaf_type.kind) {
        (Some(Order::Unsigned), Kind::Int32) => unsigned_32(line),
        (Some(Order::Unsigned), _) => unsigned_64(line),
        _ => line.integer(),
    }
}

/// Reads an integer of a leaf.
fn integer_printed<'t>(
    leaf_type: &LeafType,
    line: &mut Cursor<'t>,
    pieces: &mut Pieces<'t>,
) -> Result<(), Unread>
    ensures { OnOk result (IsIntegerRead (leaf_type_view leaf_type.now) line.old line.new pieces.old.items pieces.new.items) }
{
    let number = number_printed(leaf_type, line).ok_or(Unread::Unknown)?;
    if !leaf_type.fits(&Value::Int(number)) {
        return Err(Unread::Unknown);
    }
    pieces.push(Piece::Int(number))?;
    Ok(())
}

/// The boolean that stands there.
fn boolean_read(line: &mut Cursor<'_>) -> Option<bool>
    ensures { IfSome result (λ b. Takes line.old line.new (compact_text (json.boolean b))) }
{
    if line.skip(b"true") {
        Some(true)
    } else if line.skip(b"false") {
        Some(false)
    } else {
        None
    }
}

/// Reads a boolean of a leaf.
fn boolean_printed<'t>(
    leaf_type: &LeafType,
    line: &mut Cursor<'t>,
    pieces: &mut Pieces<'t>,
) -> Result<(), Unread>
    ensures { OnOk result (IsRead (fits_leaf (leaf_type_view leaf_type.now))
        (leaf_json (leaf_type_view leaf_type.now)) line.old line.new pieces.old.items pieces.new.items) }
{
    let boolean = boolean_read(line).ok_or(Unread::Unknown)?;
    if !leaf_type.fits(&Value::Bool(boolean)) {
        return Err(Unread::Unknown);
    }
    pieces.push(Piece::Bool(boolean))?;
    Ok(())
}

/// Adds the bytes of a leaf of other bytes than texts, by their digits.
fn put_digits<'t>(
    leaf_type: &LeafType,
    digits: &'t str,
    pieces: &mut Pieces<'t>,
) -> Result<(), Unread>
    requires { is_text leaf_type.now.kind (annotation_view leaf_type.now.annotation) ≡ false }
    ensures { OnOk result (IsAdded (leaf_type_view leaf_type.now) digits.now pieces.old.items pieces.new.items) }
{
    if !are_digits(leaf_type.kind, digits) {
        return Err(Unread::Unknown);
    }
    pieces.push(Piece::Digits(digits))?;
    Ok(())
}

/// Reads a text of a leaf. Its bytes are UTF-8, and so they fit.
fn text_printed<'t>(
    leaf_type: &LeafType,
    line: &mut Cursor<'t>,
    pieces: &mut Pieces<'t>,
) -> Result<(), Unread>
    requires { is_text leaf_type.now.kind (annotation_view leaf_type.now.annotation) ≡ true }
    ensures { OnOk result (IsRead (fits_leaf (leaf_type_view leaf_type.now))
        (leaf_json (leaf_type_view leaf_type.now)) line.old line.new pieces.old.items pieces.new.items) }
{
    let Some(piece) = line.text() else {
        return Err(Unread::Unknown);
    };
    pieces.push(piece)?;
    Ok(())
}

/// Reads bytes of a leaf that are no text, by their digits.
fn digits_printed<'t>(
    leaf_type: &LeafType,
    line: &mut Cursor<'t>,
    pieces: &mut Pieces<'t>,
) -> Result<(), Unread>
    requires { is_text leaf_type.now.kind (annotation_view leaf_type.now.annotation) ≡ false }
    ensures { OnOk result (IsRead (fits_leaf (leaf_type_view leaf_type.now))
        (leaf_json (leaf_type_view leaf_type.now)) line.old line.new pieces.old.items pieces.new.items) }
{
    let Some(digits) = line.string() else {
        return Err(Unread::Unknown);
    };
    put_digits(leaf_type, digits, pieces)
}

/// Reads bytes of a leaf.
fn bytes_printed<'t>(
    leaf_type: &LeafType,
    line: &mut Cursor<'t>,
    pieces: &mut Pieces<'t>,
) -> Result<(), Unread>
    ensures { OnOk result (IsRead (fits_leaf (leaf_type_view leaf_type.now))
        (leaf_json (leaf_type_view leaf_type.now)) line.old line.new pieces.old.items pieces.new.items) }
{
    if leaf_type.is_text() {
        text_printed(leaf_type, line, pieces)
    } else {
        digits_printed(leaf_type, line, pieces)
    }
}
