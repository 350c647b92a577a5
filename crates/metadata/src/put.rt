//! The fields of a struct from the values of a record, for every type of field at once.

ghost use Rattle.std.specs.Prelude.{◌≡◌, ◌++◌, ℕ, ℤ, Bool, List, Option, Some, IfOk, OnOk, map, option_map};
ghost use Rattle.bits.specs.Refusals.{RefusedMemoryOnly};
ghost use Rattle.thrift_compact.specs.Tree.{Node, Fields, i32, i64, binary, struct};
ghost use Rattle.thrift_compact.specs.View.{code_of, view, field_view, tree_view};
ghost use Rattle.metadata.specs.ToTree.{present, truth, many, INT32, BINARY};

use bits::R;
use std::alloc::Global;
use thrift_compact::{ElementType, Field, Node as Value, Tree, copied_fields};

/// A type that is written as a value of the compact protocol.
pub trait ToNode {
    /// What a contract sees of a value of this type.
    ghost Shown: { Type 0 };

    ghost shown: { Self → Shown };

    /// The value of the compact protocol that is written.
    ghost write: { Shown → Node };

    fn to_node(&self, alloc: Global) -> R<Value>
        ensures stands { IfOk result (λ value. view value ≡ write (shown self.now)) }
        ensures which { RefusedMemoryOnly result };
}

/// A type that is written as the elements of a list.
pub trait ToElement: ToNode {
    /// The compact protocol's number of the elements' type.
    ghost code: { ℕ };

    fn element_type() -> ElementType
        ensures { code_of result ≡ code };
}

impl ToNode for i32 {
    ghost Shown = { ℤ };

    ghost shown = { λ z. z };

    ghost write = { i32 };

    fn to_node(&self, _alloc: Global) -> R<Value> {
        Ok(Value::I32(*self))
    }
}

impl ToElement for i32 {
    ghost code = { INT32 };

    fn element_type() -> ElementType {
        ElementType::I32
    }
}

impl ToNode for i64 {
    ghost Shown = { ℤ };

    ghost shown = { λ z. z };

    ghost write = { i64 };

    fn to_node(&self, _alloc: Global) -> R<Value> {
        Ok(Value::I64(*self))
    }
}

impl ToNode for bool {
    ghost Shown = { Bool };

    ghost shown = { λ b. b };

    ghost write = { truth };

    fn to_node(&self, _alloc: Global) -> R<Value> {
        Ok(Value::Bool(*self))
    }
}

impl ToNode for Vec<u8> {
    ghost Shown = { List ℕ };

    ghost shown = { λ v. v.items };

    ghost write = { binary };

    fn to_node(&self, alloc: Global) -> R<Value> {
        let bytes = Vec::from_slice(alloc, self.as_slice())?;
        Ok(Value::Binary(bytes))
    }
}

impl ToElement for Vec<u8> {
    ghost code = { BINARY };

    fn element_type() -> ElementType {
        ElementType::Binary
    }
}

/// A kept struct is written as it came.
impl ToNode for Tree {
    ghost Shown = { Fields };

    ghost shown = { tree_view };

    ghost write = { struct };

    fn to_node(&self, alloc: Global) -> R<Value> {
        let fields = copied_fields(alloc, self.fields.as_slice())?;
        Ok(Value::Struct(fields))
    }
}

/// Puts a field after the others.
pub fn put<T: ToNode>(alloc: Global, fields: &mut Vec<Field>, id: i16, value: &T) -> R<()>
    ensures stands { OnOk result (map field_view fields.new.items ≡ map field_view fields.old.items ++ present id (Some (T.write (T.shown value.now)))) }
    ensures which { RefusedMemoryOnly result }
{
    let value = value.to_node(alloc)?;
    fields.push(Field { id, value })?;
    Ok(())
}

impl<T: ToElement> ToNode for Vec<T> {
    ghost Shown = { List T.Shown };

    ghost shown = { λ v. map T.shown v.items };

    ghost write = { many T.code T.write };

    fn to_node(&self, alloc: Global) -> R<Value> {
        let values = nodes(alloc, self.as_slice())?;
        Ok(Value::List(T::element_type(), values))
    }
}

/// Puts a field after the others, if its value is there.
pub fn put_given<T: ToNode>(
    alloc: Global,
    fields: &mut Vec<Field>,
    id: i16,
    value: &Option<T>,
) -> R<()>
    ensures stands { OnOk result (map field_view fields.new.items ≡ map field_view fields.old.items ++ present id
        (option_map T.write (option_map T.shown value.now))) }
    ensures which { RefusedMemoryOnly result }
{
    match value {
        Some(value) => put(alloc, fields, id, value),
        None => Ok(()),
    }
}

/// The values of the compact protocol that are written for these, in their order.
fn nodes<T: ToNode>(alloc: Global, items: &[T]) -> R<Vec<Value>>
    ensures stands { IfOk result (λ values. map view values.items ≡ map T.write (map T.shown items.now)) }
    ensures which { RefusedMemoryOnly result }
{
    let mut values = Vec::with_capacity(alloc, items.len())?;
    for item in items {
        let value = item.to_node(alloc)?;
        values.push(value)?;
    }
    Ok(values)
}
