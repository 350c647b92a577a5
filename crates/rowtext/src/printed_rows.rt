//! Values of fields from a line in the form in which rows are printed.

ghost use Rattle.std.specs.Prelude.{◌≡◌, [], ◌∷◌, ◌++◌, false, OnOk, IsTrue, option_map};
ghost use Rattle.serde_json.specs.Written.{comma_if, items_text};
ghost use Rattle.schema.specs.Fits.{fits, fits_inside, fits_each};
ghost use Rattle.schema.specs.Values.{each};
ghost use Rattle.schema.specs.Views.{field_view, field_views};
ghost use Rattle.rowtext.specs.Json.{items_json, inside_json, field_json, members_json, row_text};
ghost use Rattle.rowtext.specs.inner.Lines.{rest_of, Takes, with_comma, open_text, members_shown};
ghost use Rattle.rowtext.specs.inner.Pieces.{IsRead, AreRead};
ghost use Rattle.rowtext.specs.inner.Spans.{IsMemberRead};
ghost use Rattle.rowtext.specs.inner.Slots.{slot_of, slots_made, slot_view, slots_view, key_in, indices_of, order_of, order_view, vec_items};

use crate::cursor::Cursor;
use crate::leaf_lines::leaf_printed;
use crate::piece_list::Pieces;
use crate::pieces::Piece;
use crate::row_lines::{field_there, slot_there};
use crate::row_plan::Slot;
use crate::spans::{Span, Spans, put_spans};
use crate::unread::Unread;
use schema::{Field, Repetition};
use std::alloc::Global;

/// Reads the values of fields by the members of an object.
#[cycle(printed)]
pub fn members_printed<'t>(
    alloc: Global,
    fields: &[Field],
    slots: &[Slot],
    order: Option<&[usize]>,
    line: &mut Cursor<'t>,
    pieces: &mut Pieces<'t>,
) -> Result<(), Unread>
    requires slots { slots_view slots.now ≡ slots_made (field_views fields.now) }
    requires order { order_view order ≡ order_of (field_views fields.now) }
    ensures { OnOk result (AreRead (fits_each (field_views fields.now)) (row_text (field_views fields.now)) (rest_of line.old)
        (rest_of line.new) pieces.old.items pieces.new.items) }
{
    if !line.skip_byte(b'{') {
        return Err(Unread::Unknown);
    }
    ordered_printed(alloc, fields, slots, order, line, pieces)?;
    if line.skip_byte(b'}') {
        Ok(())
    } else {
        Err(Unread::Unknown)
    }
}

/// The order of the fields of a group.
fn borrowed(order: &Option<Vec<usize>>) -> Option<&[usize]>
    ensures { order_view result ≡ option_map vec_items order.now }
{
    match order {
        None => None,
        Some(order) => Some(order.as_slice()),
    }
}

/// Passes over the name of a member, and over the comma before it where it is not the first.
fn skip_key(slot: &Slot, is_first: bool, line: &mut Cursor<'_>) -> bool
    ensures { IsTrue result → with_comma is_first (rest_of line.old) ≡ key_in (slot_view slot.now) ++ rest_of line.new }
{
    if !is_first {
        return line.skip(slot.key());
    }
    match slot.key().split_first() {
        Some((b',', name)) => line.skip(name),
        _ => false,
    }
}

/// Passes over the comma before an item that is not the first.
fn skip_comma(later: bool, line: &mut Cursor<'_>) -> bool
    ensures { IsTrue result → Takes line.old line.new (comma_if later) }
{
    if later {
        return line.skip_byte(b',');
    }
    true
}

/// Reads a value of a field, its repetition aside.
#[cycle(printed)]
fn inside_printed<'t>(
    alloc: Global,
    field: &Field,
    slot: &Slot,
    line: &mut Cursor<'t>,
    pieces: &mut Pieces<'t>,
) -> Result<(), Unread>
    requires { slot_view slot.now ≡ slot_of (field_view field.now) }
    ensures { OnOk result (IsRead (fits_inside (field_view field.now))
        (inside_json (field_view field.now)) line.old line.new pieces.old.items pieces.new.items) }
{
    match field {
        Field::Leaf { leaf_type, .. } => leaf_printed(leaf_type, line, pieces),
        Field::Group { fields, .. } => match slot {
            Slot::Group { slots, order, .. } => {
                let order = borrowed(order);
                let slots = slots.as_slice();
                let fields = fields.as_slice();
                pieces.push(Piece::GroupBegins)?;
                members_printed(alloc, fields, slots, order, line, pieces)?;
                pieces.push(Piece::GroupEnds)?;
                Ok(())
            }
            _ => Err(Unread::Unknown),
        },
    }
}

/// Reads the items of a list, after its bracket.
#[cycle(printed)]
fn items_printed<'t>(
    alloc: Global,
    field: &Field,
    slot: &Slot,
    line: &mut Cursor<'t>,
    pieces: &mut Pieces<'t>,
) -> Result<(), Unread>
    requires { slot_view slot.now ≡ slot_of (field_view field.now) }
    ensures { OnOk result (AreRead (each (fits_inside (field_view field.now)))
        (λ vs. items_text false (items_json (inside_json (field_view field.now)) vs)) (rest_of line.old) (rest_of line.new) pieces.old.items pieces.new.items) }
{
    let mut later = false;
    'items: for _ in 0..u64::MAX {
        if line.skip_byte(b']') {
            return Ok(());
        }
        if !skip_comma(later, line) {
            return Err(Unread::Unknown);
        }
        inside_printed(alloc, field, slot, line, pieces)?;
        later = true;
    }
    Err(Unread::Unknown)
}

/// Reads a value of a field.
#[inline(always)]
#[cycle(printed)]
fn field_printed<'t>(
    alloc: Global,
    field: &Field,
    slot: &Slot,
    line: &mut Cursor<'t>,
    pieces: &mut Pieces<'t>,
) -> Result<(), Unread>
    requires { slot_view slot.now ≡ slot_of (field_view field.now) }
    ensures { OnOk result (IsRead (fits (field_view field.now)) (field_json (field_view field.now)) line.old line.new pieces.old.items pieces.new.items) }
{
    match field.repetition() {
        Repetition::Required => inside_printed(alloc, field, slot, line, pieces),
        Repetition::Optional => {
            if line.skip(b"null") {
                pieces.push(Piece::Null)?;
                return Ok(());
            }
            inside_printed(alloc, field, slot, line, pieces)
        }
        Repetition::Repeated => {
            if !line.skip_byte(b'[') {
                return Err(Unread::Unknown);
            }
            pieces.push(Piece::ListBegins)?;
            items_printed(alloc, field, slot, line, pieces)?;
            pieces.push(Piece::ListEnds)?;
            Ok(())
        }
    }
}

/// Reads the values of fields that stand in the order of their names, after the brace.
#[cycle(printed)]
fn in_order<'t>(
    alloc: Global,
    fields: &[Field],
    slots: &[Slot],
    line: &mut Cursor<'t>,
    pieces: &mut Pieces<'t>,
) -> Result<(), Unread>
    requires { slots_view slots.now ≡ slots_made (field_views fields.now) }
    ensures { OnOk result (AreRead (fits_each (field_views fields.now)) (members_shown (field_views fields.now)) (44 ∷ rest_of line.old)
        (rest_of line.new) pieces.old.items pieces.new.items) }
{
    if fields.is_empty() {
        return Err(Unread::Unknown);
    }
    for (i, field) in fields.iter().enumerate() {
        let slot = slot_there(slots, i)?;
        if !skip_key(slot, i == 0, line) {
            return Err(Unread::Unknown);
        }
        field_printed(alloc, field, slot, line, pieces)?;
    }
    Ok(())
}

/// Reads a member, by the index of its field.
#[cycle(printed)]
fn member_printed<'t>(
    alloc: Global,
    fields: &[Field],
    slots: &[Slot],
    index: usize,
    is_first: bool,
    line: &mut Cursor<'t>,
    read: &mut Pieces<'t>,
    spans: &mut Spans,
) -> Result<(), Unread>
    requires { slots_view slots.now ≡ slots_made (field_views fields.now) }
    ensures { OnOk result (IsMemberRead (field_views fields.now) index is_first (rest_of line.old)
        (rest_of line.new) read.old.items read.new.items spans.old.items spans.new.items) }
{
    let field = field_there(fields, index)?;
    let slot = slot_there(slots, index)?;
    if !skip_key(slot, is_first, line) {
        return Err(Unread::Unknown);
    }
    let from = read.len();
    field_printed(alloc, field, slot, line, read)?;
    let to = read.len();
    spans.note(index, Span { from, to })
}

/// Reads the values of fields that stand in another order than their names, after the brace. The members stand in the
/// order of the names: their pieces are kept, and added in the order of the fields.
#[cycle(printed)]
fn by_name<'t>(
    alloc: Global,
    fields: &[Field],
    slots: &[Slot],
    order: &[usize],
    line: &mut Cursor<'t>,
    pieces: &mut Pieces<'t>,
) -> Result<(), Unread>
    requires slots { slots_view slots.now ≡ slots_made (field_views fields.now) }
    requires order { order.now ≡ indices_of (field_views fields.now) }
    ensures { OnOk result (AreRead (fits_each (field_views fields.now)) (λ vs. open_text (members_json (field_views fields.now) vs))
        (44 ∷ rest_of line.old) (rest_of line.new) pieces.old.items pieces.new.items) }
{
    if order.is_empty() {
        return Err(Unread::Unknown);
    }
    let mut read = Pieces::new(alloc);
    read.reserve(fields.len())?;
    let mut spans = Spans::new(alloc, fields.len())?;
    for (i, index) in order.iter().enumerate() {
        member_printed(
            alloc,
            fields,
            slots,
            *index,
            i == 0,
            line,
            &mut read,
            &mut spans,
        )?;
    }
    put_spans(read.as_slice(), spans.as_slice(), pieces)
}

/// Reads the values of two fields of which the second stands first, after the brace, and exchanges their pieces.
#[cycle(printed)]
fn exchanged<'t>(
    alloc: Global,
    fields: &[Field],
    slots: &[Slot],
    line: &mut Cursor<'t>,
    pieces: &mut Pieces<'t>,
) -> Result<(), Unread>
    requires slots { slots_view slots.now ≡ slots_made (field_views fields.now) }
    requires order { indices_of (field_views fields.now) ≡ 1 ∷ 0 ∷ [] }
    ensures { OnOk result (AreRead (fits_each (field_views fields.now)) (λ vs. open_text (members_json (field_views fields.now) vs))
        (44 ∷ rest_of line.old) (rest_of line.new) pieces.old.items pieces.new.items) }
{
    let ([left, right], [left_slot, right_slot]) = (fields, slots) else {
        return Err(Unread::Unknown);
    };
    let from = pieces.len();
    if !skip_key(right_slot, true, line) {
        return Err(Unread::Unknown);
    }
    field_printed(alloc, right, right_slot, line, pieces)?;
    let middle = pieces.len();
    if !skip_key(left_slot, false, line) {
        return Err(Unread::Unknown);
    }
    field_printed(alloc, left, left_slot, line, pieces)?;
    pieces.exchange(from, middle);
    Ok(())
}

/// Reads the values of fields by the members of an object, after its brace.
#[cycle(printed)]
fn ordered_printed<'t>(
    alloc: Global,
    fields: &[Field],
    slots: &[Slot],
    order: Option<&[usize]>,
    line: &mut Cursor<'t>,
    pieces: &mut Pieces<'t>,
) -> Result<(), Unread>
    requires slots { slots_view slots.now ≡ slots_made (field_views fields.now) }
    requires order { order_view order ≡ order_of (field_views fields.now) }
    ensures { OnOk result (AreRead (fits_each (field_views fields.now)) (λ vs. open_text (members_json (field_views fields.now) vs))
        (44 ∷ rest_of line.old) (rest_of line.new) pieces.old.items pieces.new.items) }
{
    match order {
        None => in_order(alloc, fields, slots, line, pieces),
        Some([1, 0]) => exchanged(alloc, fields, slots, line, pieces),
        Some(order) => by_name(alloc, fields, slots, order, line, pieces),
    }
}
