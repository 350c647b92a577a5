//! Numbers, booleans and null as JSON text.

ghost use Rattle.std.specs.Prelude.{◌≡◌, ◌≤◌, ◌++◌, OnOk, IsTrue};
ghost use Rattle.std.specs.Fmt.{signed_decimal};
ghost use Rattle.serde_json.specs.Data as json;
ghost use Rattle.serde_json.specs.Find.{of_integer};
ghost use Rattle.serde_json.specs.Written.{compact_text};
ghost use Rattle.schema.specs.Annotations.{order_of};
ghost use Rattle.schema.specs.Views.{leaf_type_view};
ghost use Rattle.leaftext.specs.Forms.{form_if, form_text};
ghost use Rattle.rowtext.specs.Json.{text_or};
ghost use Rattle.rowtext.specs.inner.Scalars.{integer_text, numbers_as, numbers_of};

use crate::line::Line;
use crate::strings::put_string;
use leaftext::{Form, form_of, form_text};
use schema::{Kind, LeafType, Order};
use std::alloc::AllocError;

/// How many numbers have 32 bits.
pub const NUMBERS_OF_INT32: u64 = 4_294_967_296;

/// Room for a sign and 20 digits, and 32 bytes by which they are moved.
pub const NUMBER_ROOM: usize = 53;

/// How the numbers of a leaf are printed, and its bytes if they are no text.
#[derive(Clone, Copy)]
pub enum Numbers {
    Signed,
    Unsigned32,
    Unsigned64,
    /// As texts of this form; a number without a text as a signed one, and bytes without one as an object with their digits.
    Texts(Form),
}

/// The form of the texts of a leaf's values, if texts are asked for.
#[inline(always)]
pub fn form_if(texts: bool, leaf_type: &LeafType) -> Option<Form>
    ensures { result ≡ form_if texts (leaf_type_view leaf_type.now) }
{
    if texts { form_of(leaf_type) } else { None }
}

/// How the numbers of a leaf are printed, with texts or without.
pub fn numbers_as(texts: bool, leaf_type: &LeafType) -> Numbers
    ensures { result ≡ numbers_as (form_if texts (leaf_type_view leaf_type.now)) leaf_type.now.kind (order_of (leaf_type_view leaf_type.now)) }
{
    match form_if(texts, leaf_type) {
        Some(form) => Numbers::Texts(form),
        None => numbers_of(leaf_type),
    }
}

/// How the numbers of a leaf are printed: unsigned where its order is.
fn numbers_of(leaf_type: &LeafType) -> Numbers
    ensures { result ≡ numbers_of leaf_type.now.kind (order_of (leaf_type_view leaf_type.now)) }
{
    match (leaf_type.order(), leaf_type.kind) {
        (Some(Order::Unsigned), Kind::Int32) => Numbers::Unsigned32,
        (Some(Order::Unsigned), _) => Numbers::Unsigned64,
        _ => Numbers::Signed,
    }
}

/// Whether two forms are the same.
fn same_form(a: Form, b: Form) -> bool
    ensures { IsTrue result → a ≡ b }
{
    match (a, b) {
        (Form::Date, Form::Date) => true,
        (Form::Time(a), Form::Time(b)) | (Form::Timestamp(a), Form::Timestamp(b)) => a == b,
        (Form::Decimal(a), Form::Decimal(b)) | (Form::ShortestBytes(a), Form::ShortestBytes(b)) => {
            a == b
        }
        (Form::FixedBytes(scale, len), Form::FixedBytes(scale_b, len_b)) => {
            scale == scale_b && len == len_b
        }
        _ => false,
    }
}

/// Whether two leaves print their numbers in the same way.
pub fn same_numbers(a: Numbers, b: Numbers) -> bool
    ensures { IsTrue result → a ≡ b }
{
    match (a, b) {
        (Numbers::Signed, Numbers::Signed)
        | (Numbers::Unsigned32, Numbers::Unsigned32)
        | (Numbers::Unsigned64, Numbers::Unsigned64) => true,
        (Numbers::Texts(a), Numbers::Texts(b)) => same_form(a, b),
        _ => false,
    }
}

/// Appends the digits of an integer, after a minus sign where it is below zero.
#[inline(always)]
fn put_integer(number: i64, out: &mut Line)
    requires { 53 ≤ out.old.ready }
    ensures { out.new.items ≡ out.old.items ++ signed_decimal number }
{
    if number < 0 {
        out.place_byte(b'-');
    }
    out.place_natural(number.unsigned_abs());
}

/// Appends the text of a number in quotes; its digits if it has none.
#[inline(never)]
fn put_text(form: Form, number: i64, out: &mut Line) -> Result<(), AllocError>
    requires { 53 ≤ out.old.ready }
    ensures { OnOk result (out.new.items ≡ out.old.items ++ compact_text (text_or (form_text form number) (json.number (of_integer number)))) }
{
    match form_text(form, number) {
        Some(text) => put_string(text.as_bytes(), out),
        None => {
            put_integer(number, out);
            Ok(())
        }
    }
}

/// Appends a number of a leaf.
#[inline(always)]
pub fn put_number(numbers: Numbers, number: i64, out: &mut Line) -> Result<(), AllocError>
    requires { 53 ≤ out.old.ready }
    ensures { OnOk result (out.new.items ≡ out.old.items ++ integer_text numbers number) }
{
    match numbers {
        Numbers::Signed => put_integer(number, out),
        Numbers::Unsigned32 => out.place_natural(number.cast_unsigned() % NUMBERS_OF_INT32),
        Numbers::Unsigned64 => out.place_natural(number.cast_unsigned()),
        Numbers::Texts(form) => return put_text(form, number, out),
    }
    Ok(())
}

/// Appends a number of a leaf, as [`put_number`] does: a call that ends the caller, which then has no registers to save.
#[inline(never)]
pub fn end_with_number(numbers: Numbers, number: i64, out: &mut Line) -> Result<(), AllocError>
    requires { 53 ≤ out.old.ready }
    ensures { OnOk result (out.new.items ≡ out.old.items ++ integer_text numbers number) }
{
    put_number(numbers, number, out)
}

/// Appends a boolean.
#[inline(always)]
pub fn put_boolean(boolean: bool, out: &mut Line)
    requires { 5 ≤ out.old.ready }
    ensures { out.new.items ≡ out.old.items ++ compact_text (json.boolean boolean) }
{
    if boolean {
        out.place(b"true");
    } else {
        out.place(b"false");
    }
}

/// Appends null.
#[inline(always)]
pub fn put_null(out: &mut Line)
    requires { 4 ≤ out.old.ready }
    ensures { out.new.items ≡ out.old.items ++ compact_text json.null }
{
    out.place(b"null");
}
