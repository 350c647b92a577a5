//! How rows of a schema are printed: found once for a schema.

ghost use Rattle.std.specs.Prelude.{◌≡◌, ◌&&◌, ◌==◌, length, IfOk, OnOk, option_map};
ghost use Rattle.bits.specs.Refusals.{RefusedMemoryOnly};
ghost use Rattle.schema.specs.Shape.{count};
ghost use Rattle.schema.specs.Views.{field_view, field_views};
ghost use Rattle.rowtext.specs.inner.Slots.{Slots, slot_view, slots_view, slots_as, slot_as, key_of, indices_of, put_index, ordered, entries_view, is_counting, is_in_order, order_of, vec_items, order_view, key_in};
ghost use Rattle.rowtext.specs.Rows.{plan_schema, IsReady, IsReadyAs};

use crate::key::Key;
use crate::line::Line;
use crate::scalars::{Numbers, numbers_as};
use crate::strings::put_string;
use bits::R;
use schema::{Field, Schema};
use std::alloc::{AllocError, Global};
use std::collections::BTreeMap;

/// What stands at a field: its name as it is printed, between a comma and a colon, and what its values are.
#[derive(Drop)]
pub enum Slot {
    Leaf {
        key: Key,
        numbers: Numbers,
        is_text: bool,
    },
    /// The fields of a group, and their indices in the byte order of their names; none where they stand so.
    Group {
        key: Key,
        slots: Vec<Slot>,
        order: Option<Vec<usize>>,
    },
}

impl Slot {
    /// The name of the field as it is printed, between a comma and a colon.
    pub fn key(&self) -> &[u8]
        ensures { result.now ≡ key_in (slot_view self.now) }
    {
        match self {
            Slot::Leaf { key, .. } => key.as_slice(),
            Slot::Group { key, .. } => key.as_slice(),
        }
    }

    /// The name as it is printed, between a comma and a colon, in the form in which it is appended.
    #[inline(always)]
    pub fn padded_key(&self) -> &Key
        ensures { result.now ≡ key_in (slot_view self.now) }
    {
        match self {
            Slot::Leaf { key, .. } => key,
            Slot::Group { key, .. } => key,
        }
    }
}

/// How rows of a schema are printed.
#[derive(Drop)]
pub struct RowPlan<'a> {
    schema: &'a Schema,
    slots: Vec<Slot>,
    order: Option<Vec<usize>>,
}

impl<'a> RowPlan<'a> {
    /// How rows of the schema are printed. It fails only when out of memory. Time and memory are linear in the
    /// schema, with a look-up of each name among its siblings.
    pub fn new(alloc: Global, schema: &'a Schema) -> R<RowPlan<'a>>
        ensures prints { IfOk result (λ plan. plan_schema plan ≡ schema.now) }
        ensures ready { IfOk result IsReady }
        ensures which { RefusedMemoryOnly result }
    {
        RowPlan::with_texts(alloc, schema, false)
    }

    /// How rows of the schema are printed, as [`new`](RowPlan::new) finds it; with `texts`, dates, times, timestamps and decimals over
    /// INT32 and INT64 are printed as texts. It fails only when out of memory.
    pub fn with_texts(alloc: Global, schema: &'a Schema, texts: bool) -> R<RowPlan<'a>>
        ensures prints { IfOk result (λ plan. plan_schema plan ≡ schema.now) }
        ensures ready { IfOk result (IsReadyAs texts) }
        ensures which { RefusedMemoryOnly result }
    {
        let slots = slots_of(alloc, schema.fields(), texts)?;
        let order = order_of(alloc, schema.fields())?;
        Ok(RowPlan {
            schema,
            slots,
            order,
        })
    }

    /// What stands at the top-level fields.
    pub fn slots(&self) -> &[Slot]
        ensures { result.now ≡ self.now.slots.items }
    {
        self.slots.as_slice()
    }

    /// The indices of the top-level fields in the byte order of their names; none if the fields stand in that order.
    pub fn order(&self) -> Option<&[usize]>
        ensures { order_view result ≡ option_map vec_items self.now.order }
    {
        match &self.order {
            None => None,
            Some(order) => Some(order.as_slice()),
        }
    }
}

/// A name as it is printed, between a comma and a colon.
fn key_of(alloc: Global, name: &str) -> Result<Key, AllocError>
    ensures { IfOk result (λ key. key ≡ key_of name.now) }
{
    let mut key = Line::new(alloc);
    key.push(b',')?;
    put_string(name.as_bytes(), &mut key)?;
    key.push(b':')?;
    Key::new(alloc, key.as_slice())
}

/// What stands at a field.
#[cycle(slots)]
fn slot_of(alloc: Global, field: &Field, texts: bool) -> Result<Slot, AllocError>
    ensures { IfOk result (λ slot. slot_view slot ≡ slot_as texts (field_view field.now)) }
{
    match field {
        Field::Leaf {
            name,
            leaf_type,
            ..
        } => {
            let key = key_of(alloc, name.as_str())?;
            Ok(Slot::Leaf {
                key,
                numbers: numbers_as(texts, leaf_type),
                is_text: leaf_type.is_text(),
            })
        }
        Field::Group { name, fields, .. } => {
            let key = key_of(alloc, name.as_str())?;
            let slots = slots_of(alloc, fields.as_slice(), texts)?;
            let order = order_of(alloc, fields.as_slice())?;
            Ok(Slot::Group { key, slots, order })
        }
    }
}

/// What stands at each of some fields.
#[cycle(slots)]
fn slots_of(alloc: Global, fields: &[Field], texts: bool) -> Result<Vec<Slot>, AllocError>
    ensures { IfOk result (λ slots. slots_view slots.items ≡ slots_as texts (field_views fields.now)) }
{
    let mut slots = Vec::with_capacity(alloc, fields.len())?;
    for field in fields {
        slots.push(slot_of(alloc, field, texts)?)?;
    }
    Ok(slots)
}

/// Puts the index of a field at its name.
fn put_index(
    indices: &mut BTreeMap<String, usize>,
    alloc: Global,
    name: &str,
    index: usize,
) -> Result<(), AllocError>
    ensures { OnOk result (entries_view indices.new.entries ≡ put_index name.now index (entries_view indices.old.entries)) }
{
    let name = String::from_str(alloc, name)?;
    indices.insert(name, index)?;
    Ok(())
}

/// The indices of fields, by their names.
fn ordered(alloc: Global, fields: &[Field]) -> Result<BTreeMap<String, usize>, AllocError>
    ensures { IfOk result (λ indices. entries_view indices.entries ≡ ordered 0 (field_views fields.now)) }
{
    let mut indices = BTreeMap::new(alloc);
    for i in (0..fields.len()).rev() {
        put_index(&mut indices, alloc, fields[i].name(), i)?;
    }
    Ok(indices)
}

/// The indices of fields in the byte order of their names.
fn indices_of(alloc: Global, fields: &[Field]) -> Result<Vec<usize>, AllocError>
    ensures { IfOk result (λ indices. indices.items ≡ indices_of (field_views fields.now)) }
{
    let ordered = ordered(alloc, fields)?;
    let mut indices = Vec::with_capacity(alloc, fields.len())?;
    for (_, index) in ordered.iter() {
        indices.push(*index)?;
    }
    Ok(indices)
}

/// Whether each number is its own index.
fn is_counting(numbers: &[usize]) -> bool
    ensures { result ≡ is_counting 0 numbers.now }
{
    for (i, number) in numbers.iter().enumerate() {
        if *number != i {
            return false;
        }
    }
    true
}

/// Whether these are the indices of as many fields, in their order.
fn is_in_order(indices: &[usize], count: usize) -> bool
    ensures { result ≡ is_in_order indices.now count }
{
    is_counting(indices) && indices.len() == count
}

/// The indices of fields in the byte order of their names; none where the fields stand in that order.
fn order_of(alloc: Global, fields: &[Field]) -> Result<Option<Vec<usize>>, AllocError>
    ensures { IfOk result (λ order. option_map vec_items order ≡ order_of (field_views fields.now)) }
{
    let indices = indices_of(alloc, fields)?;
    if is_in_order(indices.as_slice(), fields.len()) {
        Ok(None)
    } else {
        Ok(Some(indices))
    }
}
