//! Where the fields of a group are, by their names.

ghost use Rattle.std.specs.Prelude.{◌≡◌, IfOk, IsTrue};
ghost use Rattle.schema.specs.Views.{field_views};
ghost use Rattle.rowtext.specs.inner.Fill.{IsCalled};

use crate::unread::Unread;
use schema::Field;
use std::alloc::{AllocError, Global};
use std::cell::Cell;
use std::collections::BTreeMap;

/// The fields of a group by their names, and the names below each.
#[derive(Drop)]
pub struct Names {
    /// The index of each field, by its name.
    indices: BTreeMap<String, usize>,
    /// The indices of the fields in the order in which their members are expected: at first the byte order of their names, then
    /// that of the objects read before. They are a guess, which the reader of an object learns while it shares the names.
    order: Vec<Cell<usize>>,
    /// The names below each field.
    below: Vec<Names>,
}

impl Names {
    /// The index of the field whose member is expected at a place among the members of an object.
    #[inline(always)]
    pub fn expected(&self, place: usize) -> usize {
        if place < self.order.len() {
            self.order[place].get()
        } else {
            place
        }
    }

    /// Expects the member of the field of this index at a place from now on.
    pub fn expect(&self, place: usize, index: usize) {
        if let Some(expected) = self.order.get(place) {
            expected.set(index);
        }
    }

    /// The names below the field of this index.
    pub fn below(&self, index: usize) -> Option<&Names> {
        self.below.get(index)
    }
}

/// The names of fields, and those below them. It fails only when out of memory. Time and memory are linear in
/// the fields, with a look-up of each name among its siblings.
#[cycle(naming)]
pub fn names_of(alloc: Global, fields: &[Field]) -> Result<Names, AllocError> {
    let mut indices = BTreeMap::new(alloc);
    let mut below = Vec::with_capacity(alloc, fields.len())?;
    for (index, field) in fields.iter().enumerate() {
        let name = String::from_str(alloc, field.name())?;
        drop(indices.insert(name, index)?);
        below.push(names_below(alloc, field)?)?;
    }
    let mut order = Vec::with_capacity(alloc, fields.len())?;
    for (_, index) in indices.iter() {
        order.push(Cell::new(*index))?;
    }
    Ok(Names {
        indices,
        order,
        below,
    })
}

/// The index of the field of this name, where there is one.
pub fn index_of(fields: &[Field], names: &Names, name: &str) -> Result<usize, Unread>
    ensures { IfOk result (λ index. IsCalled (field_views fields.now) index name.now) }
{
    let index = names.indices.get(name).copied().ok_or(Unread::Unknown)?;
    if is_called(fields, index, name) {
        Ok(index)
    } else {
        Err(Unread::Unknown)
    }
}

/// The names below a field: none below a leaf.
#[cycle(naming)]
fn names_below(alloc: Global, field: &Field) -> Result<Names, AllocError> {
    match field {
        Field::Leaf { .. } => Ok(Names {
            indices: BTreeMap::new(alloc),
            order: Vec::new(alloc),
            below: Vec::new(alloc),
        }),
        Field::Group { fields, .. } => names_of(alloc, fields.as_slice()),
    }
}

/// Whether a field of this index is there, and has the name.
fn is_called(fields: &[Field], index: usize, name: &str) -> bool
    ensures { IsTrue result → IsCalled (field_views fields.now) index name.now }
{
    match fields.get(index) {
        Some(field) => field.name() == name,
        None => false,
    }
}
