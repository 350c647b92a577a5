//! The text of values that are kept: the members of an object are printed in the order of their names at once.

ghost use Rattle.std.specs.Prelude.{◌≡◌, ◌≤◌, ◌+◌, ◌++◌, ◌∷◌, [], drop, IfSome, IfNone, OnOk, flat_map};
ghost use Rattle.std.specs.List.{concat};
ghost use Rattle.serde_json.specs.Written.{comma_if};
ghost use Rattle.schema.specs.Values.{group, list, view, views};
ghost use Rattle.rowtext.specs.inner.Kept.{nth, kept_text, kept_pieces, kept_object};
ghost use Rattle.rowtext.specs.inner.Slots.{slot_view, slots_view, order_view};

use crate::leaf_text::end_with_bytes;
use crate::level::{order_in, slot_at, slots_in};
use crate::line::Line;
use crate::object_text::put_braces;
use crate::row_plan::Slot;
use crate::scalars::{NUMBER_ROOM, end_with_number, put_boolean, put_null};
use schema::Value;
use std::alloc::AllocError;

/// Appends an object whose members have these values, in this order; none is that of the fields. A value without a field is
/// left out, and a field without a value too.
#[cycle(keeping)]
#[inline(always)]
pub fn put_object(
    slots: &[Slot],
    order: Option<&[usize]>,
    values: &[Value],
    out: &mut Line,
) -> Result<(), AllocError>
    ensures { OnOk result (out.new.items ≡ out.old.items ++ kept_object (kept_pieces (slots_view slots.now) (views values.now)) (order_view order.entry)) }
{
    let from = out.len();
    match order {
        None => put_members(slots, values, out)?,
        Some(order) => put_ordered(order, slots, values, out)?,
    }
    put_braces(from, out)
}

/// Appends the object of a group's values.
// A call of its own, as `put_members` and `put_list` are: the compiler inlines no function that grows large or calls itself.
#[cycle(keeping)]
#[inline(never)]
fn put_group(slot: &Slot, values: &[Value], out: &mut Line) -> Result<(), AllocError>
    ensures { OnOk result (out.new.items ≡ out.old.items ++ kept_text (slot_view slot.now) (group (views values.now))) }
{
    put_object(slots_in(slot), order_in(slot), values, out)
}

/// Appends the members of an object in the order of the fields.
#[cycle(keeping)]
#[inline(never)]
fn put_members(slots: &[Slot], values: &[Value], out: &mut Line) -> Result<(), AllocError>
    ensures { OnOk result (out.new.items ≡ out.old.items ++ concat (kept_pieces (slots_view slots.now) (views values.now))) }
{
    for i in 0..slots.len() {
        put_member(slots, values, i, out)?;
    }
    Ok(())
}

/// Appends the members of an object in this order.
#[cycle(keeping)]
#[inline(always)]
fn put_ordered(
    order: &[usize],
    slots: &[Slot],
    values: &[Value],
    out: &mut Line,
) -> Result<(), AllocError>
    ensures { OnOk result (out.new.items ≡ out.old.items ++ flat_map (nth (kept_pieces (slots_view slots.now) (views values.now))) order.now) }
{
    for index in order {
        put_member(slots, values, *index, out)?;
    }
    Ok(())
}

/// Appends the member at an index of the fields, if there is one.
#[cycle(keeping)]
#[inline(always)]
fn put_member(
    slots: &[Slot],
    values: &[Value],
    index: usize,
    out: &mut Line,
) -> Result<(), AllocError>
    ensures { OnOk result (out.new.items ≡ out.old.items ++ nth (kept_pieces (slots_view slots.now) (views values.now)) index) }
{
    let Some((slot, _)) = slot_at(slots, index) else {
        return Ok(());
    };
    let Some(value) = value_at(values, index) else {
        return Ok(());
    };
    slot.padded_key().put(out)?;
    put_kept(slot, value, out)
}

/// The value at an index.
#[inline(always)]
fn value_at(values: &[Value], index: usize) -> Option<&Value>
    ensures some { IfSome result (λ value. drop index values.now ≡ value.now ∷ drop (index + 1) values.now) }
    ensures none { IfNone result (drop index values.now ≡ []) }
{
    values.get(index)
}

/// Appends a value, where there is room for a number.
#[cycle(keeping)]
#[inline(always)]
fn put_kept(slot: &Slot, value: &Value, out: &mut Line) -> Result<(), AllocError>
    requires { 53 ≤ out.old.ready }
    ensures { OnOk result (out.new.items ≡ out.old.items ++ kept_text (slot_view slot.now) (view value.now)) }
{
    match (value, slot) {
        (Value::Group(values), _) => put_group(slot, values.as_slice(), out),
        (Value::List(items), _) => put_list(slot, items.as_slice(), out),
        (Value::Int(number), Slot::Leaf { numbers, .. }) => end_with_number(*numbers, *number, out),
        (
            Value::Bytes(bytes),
            Slot::Leaf {
                numbers,
                is_text,
                ..
            },
        ) => end_with_bytes(*numbers, *is_text, bytes.as_slice(), out),
        (Value::Bool(boolean), Slot::Leaf { .. }) => {
            put_boolean(*boolean, out);
            Ok(())
        }
        _ => {
            put_null(out);
            Ok(())
        }
    }
}

/// Appends an array.
#[cycle(keeping)]
#[inline(never)]
fn put_list(slot: &Slot, items: &[Value], out: &mut Line) -> Result<(), AllocError>
    ensures { OnOk result (out.new.items ≡ out.old.items ++ kept_text (slot_view slot.now) (list (views items.now))) }
{
    out.push(b'[')?;
    let mut later = false;
    for item in items {
        out.reserve(1 + NUMBER_ROOM)?;
        place_comma(later, out);
        later = true;
        put_kept(slot, item, out)?;
    }
    out.push(b']')
}

/// Appends a comma, if one is needed, where there is room for it and for a number.
#[inline(always)]
fn place_comma(needed: bool, out: &mut Line)
    requires { 54 ≤ out.old.ready }
    ensures items { out.new.items ≡ out.old.items ++ comma_if needed }
    ensures ready { 53 ≤ out.new.ready }
{
    if needed {
        out.place_byte(b',');
    }
}
