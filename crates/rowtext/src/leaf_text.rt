//! The text of values of a leaf.

ghost use Rattle.std.specs.Prelude.{◌≡◌, ◌≤◌, ◌+◌, ◌++◌, length, OnOk, option_map};
ghost use Rattle.schema.specs.Borrowed.{value_ref_view};
ghost use Rattle.serde_json.specs.Written.{compact_text};
ghost use Rattle.rowtext.specs.Json.{bytes_shown, hex_json};
ghost use Rattle.rowtext.specs.inner.LeafTexts.{bytes_text, digits_text, value_text};
ghost use Rattle.rowtext.specs.inner.Levels.{text_at, seen};

use crate::line::Line;
use crate::row_plan::Slot;
use crate::scalars::{Numbers, put_boolean, put_null, put_number};
use crate::strings::{end_with_digits, place_string, put_digits, put_string};
use leaftext::{Form, form_bytes_text};
use schema::ValueRef;
use std::alloc::AllocError;

/// The most bytes whose digits take no more room.
const FEW: usize = 16;

/// Appends bytes of a leaf: text as a string, and all else by its form or its digits.
#[inline(always)]
fn put_bytes(
    numbers: Numbers,
    is_text: bool,
    bytes: &[u8],
    out: &mut Line,
) -> Result<(), AllocError>
    ensures { OnOk result (out.new.items ≡ out.old.items ++ bytes_text numbers is_text bytes.now) }
{
    if is_text {
        put_string(bytes, out)
    } else {
        put_no_text(numbers, bytes, out)
    }
}

/// Appends bytes that are no text: by their form, or their digits as a string.
#[inline(always)]
fn put_no_text(numbers: Numbers, bytes: &[u8], out: &mut Line) -> Result<(), AllocError>
    ensures { OnOk result (out.new.items ≡ out.old.items ++ digits_text numbers bytes.now) }
{
    match numbers {
        Numbers::Texts(form) => put_formed(form, bytes, out),
        _ => put_digits(bytes, out),
    }
}

/// Appends bytes of a leaf whose values have texts: their text, or an object with their digits.
#[inline(never)]
fn put_formed(form: Form, bytes: &[u8], out: &mut Line) -> Result<(), AllocError>
    ensures { OnOk result (out.new.items ≡ out.old.items ++ compact_text (bytes_shown form bytes.now)) }
{
    match form_bytes_text(form, bytes) {
        Some(text) => put_string(text.as_bytes(), out),
        None => put_hex(bytes, out),
    }
}

/// Appends an object with the digits of bytes.
fn put_hex(bytes: &[u8], out: &mut Line) -> Result<(), AllocError>
    ensures { OnOk result (out.new.items ≡ out.old.items ++ compact_text (hex_json bytes.now)) }
{
    out.extend_from_slice(b"{\"hex\":")?;
    put_digits(bytes, out)?;
    out.push(b'}')
}

/// Appends bytes of a leaf, as [`put_bytes`] does: a call that ends the caller, which then has no registers to save.
#[inline(never)]
pub fn end_with_bytes(
    numbers: Numbers,
    is_text: bool,
    bytes: &[u8],
    out: &mut Line,
) -> Result<(), AllocError>
    ensures { OnOk result (out.new.items ≡ out.old.items ++ bytes_text numbers is_text bytes.now) }
{
    put_bytes(numbers, is_text, bytes, out)
}

/// Appends a few bytes of a leaf, where there is room for them as a string.
#[inline(always)]
pub fn place_bytes(
    numbers: Numbers,
    is_text: bool,
    bytes: &[u8],
    out: &mut Line,
) -> Result<(), AllocError>
    requires string { length bytes.now + 2 ≤ out.old.ready }
    requires digits { 34 ≤ out.old.ready }
    ensures { OnOk result (out.new.items ≡ out.old.items ++ bytes_text numbers is_text bytes.now) }
{
    if !is_text {
        return place_no_text(numbers, bytes, out);
    }
    place_string(bytes, out)
}

/// Appends a few bytes that are no text, as `put_no_text` does, where there is room for their digits.
#[inline(always)]
fn place_no_text(numbers: Numbers, bytes: &[u8], out: &mut Line) -> Result<(), AllocError>
    requires { 34 ≤ out.old.ready }
    ensures { OnOk result (out.new.items ≡ out.old.items ++ digits_text numbers bytes.now) }
{
    match numbers {
        Numbers::Texts(form) => put_formed(form, bytes, out),
        _ if bytes.len() > FEW => put_digits(bytes, out),
        _ => end_with_digits(bytes, out),
    }
}

/// Appends a value of a leaf, its repetition aside, where there is room for a number.
#[inline(always)]
pub fn put_value(
    numbers: Numbers,
    is_text: bool,
    value: ValueRef<'_>,
    out: &mut Line,
) -> Result<(), AllocError>
    requires { 53 ≤ out.old.ready }
    ensures { OnOk result (out.new.items ≡ out.old.items ++ value_text numbers is_text (value_ref_view value.entry)) }
{
    match value {
        ValueRef::Bool(boolean) => put_boolean(boolean, out),
        ValueRef::Int(number) => return put_number(numbers, number, out),
        ValueRef::Bytes(bytes) => return put_bytes(numbers, is_text, bytes, out),
        ValueRef::Null | ValueRef::Group(_) | ValueRef::List(_) => put_null(out),
    }
    Ok(())
}

/// Appends a value that is no group and no list, where there is room for a number: null where it is not of a leaf.
#[inline(always)]
pub fn put_single(
    slot: Option<&Slot>,
    value: ValueRef<'_>,
    out: &mut Line,
) -> Result<(), AllocError>
    requires { 53 ≤ out.old.ready }
    ensures { OnOk result (out.new.items ≡ out.old.items ++ text_at (option_map seen slot.entry) (value_ref_view value.entry)) }
{
    match slot {
        Some(
            Slot::Leaf {
                numbers,
                is_text,
                ..
            },
        ) => put_value(*numbers, *is_text, value, out),
        _ => {
            put_null(out);
            Ok(())
        }
    }
}
