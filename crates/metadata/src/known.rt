//! What the fields of a struct give to a record, for every type of field at once.

ghost use Rattle.std.specs.Prelude.{◌≡◌, ◌≤◌, ℕ, ℤ, Bool, List, Option, None, map, option_map, length, refl, IfOk};
ghost use Rattle.bits.specs.Refusals.{RefusedOnly};
ghost use Rattle.thrift_compact.specs.Tree.{Node, flag, Fields};
ghost use Rattle.thrift_compact.specs.View.{code_of, view, views, field_views, tree_view};
ghost use Rattle.thrift_compact.specs.Reading.{IsNamed};
ghost use Rattle.thrift_compact.specs.Values.{IsRefusedFor, ReadAs};
ghost use Rattle.metadata.specs.FieldValues.{known, needed, int32, int64, boolean, text, tree, any_struct, each_of, list_by};
ghost use Rattle.metadata.specs.Answers.{IsRecordOf};

use crate::slots::{pass_struct, read_items};
use bits::{R, Refusal};
use std::alloc::Global;
use thrift_compact::{Field, Node as Value, Tree, Unread, copied_fields};

/// A type that a value of the compact protocol may be read as.
pub trait FromNode: Drop {
    /// What a contract sees of a value of this type.
    ghost Shown: { Type 0 };

    ghost shown: { Self → Shown };

    /// What a value of the compact protocol stands for; None if it is of another type.
    ghost read: { Node → Option Shown };

    fn from_node(alloc: Global, value: &Value) -> R<Self>
        ensures stands { IsRecordOf shown (read (view value.now)) result };

    /// What the value stands for, and how many bytes it takes. Refused Truncated or Thrift only where no
    /// such value stands there, and Thrift only where none does whatever follows.
    fn from_unread(alloc: Global, value: Unread<'_>) -> R<(Self, usize)>
        requires named { IsNamed value.kind }
        ensures stands { IfOk result (λ x. ReadAs read (code_of value.entry.kind) value.entry.left value.entry.bytes.now (shown x.0) x.1) }
        ensures within { IfOk result (λ x. x.1 ≤ length value.entry.bytes.now) }
        ensures which { RefusedOnly (IsRefusedFor (ReadAs read (code_of value.entry.kind) value.entry.left) value.entry.bytes.now) result };

    /// No boolean of a list is such a value.
    ghost no_flags: { (b : ℕ) → read (flag b) ≡ None };
}

impl FromNode for i32 {
    ghost Shown = { ℤ };

    ghost shown = { λ z. z };

    ghost read = { int32 };

    fn from_node(_alloc: Global, value: &Value) -> R<i32> {
        match value {
            Value::I32(n) => Ok(*n),
            _ => Err(Refusal::Thrift),
        }
    }

    fn from_unread(_alloc: Global, value: Unread<'_>) -> R<(i32, usize)> {
        value.read_i32()
    }

    ghost no_flags = { λ _. refl };
}

impl FromNode for i64 {
    ghost Shown = { ℤ };

    ghost shown = { λ z. z };

    ghost read = { int64 };

    fn from_node(_alloc: Global, value: &Value) -> R<i64> {
        match value {
            Value::I64(n) => Ok(*n),
            _ => Err(Refusal::Thrift),
        }
    }

    fn from_unread(_alloc: Global, value: Unread<'_>) -> R<(i64, usize)> {
        value.read_i64()
    }

    ghost no_flags = { λ _. refl };
}

impl FromNode for bool {
    ghost Shown = { Bool };

    ghost shown = { λ b. b };

    ghost read = { boolean };

    fn from_node(_alloc: Global, value: &Value) -> R<bool> {
        match value {
            Value::Bool(b) => Ok(*b),
            _ => Err(Refusal::Thrift),
        }
    }

    fn from_unread(_alloc: Global, value: Unread<'_>) -> R<(bool, usize)> {
        let (found, used) = value.read_bool()?;
        Ok((found, used))
    }

    ghost no_flags = { λ _. refl };
}

impl FromNode for Vec<u8> {
    ghost Shown = { List ℕ };

    ghost shown = { λ v. v.items };

    ghost read = { text };

    fn from_node(alloc: Global, value: &Value) -> R<Vec<u8>> {
        match value {
            Value::Binary(bytes) => {
                let bytes = Vec::from_slice(alloc, bytes.as_slice())?;
                Ok(bytes)
            }
            _ => Err(Refusal::Thrift),
        }
    }

    fn from_unread(alloc: Global, value: Unread<'_>) -> R<(Vec<u8>, usize)> {
        let (found, used) = value.read_binary(alloc)?;
        Ok((found, used))
    }

    ghost no_flags = { λ _. refl };
}

/// A struct is kept as the tree that it is.
impl FromNode for Tree {
    ghost Shown = { Fields };

    ghost shown = { tree_view };

    ghost read = { tree };

    fn from_node(alloc: Global, value: &Value) -> R<Tree> {
        match value {
            Value::Struct(fields) => {
                let fields = copied_fields(alloc, fields.as_slice())?;
                Ok(Tree { fields })
            }
            _ => Err(Refusal::Thrift),
        }
    }

    fn from_unread(alloc: Global, value: Unread<'_>) -> R<(Tree, usize)> {
        let (found, used) = value.read_tree(alloc)?;
        Ok((found, used))
    }

    ghost no_flags = { λ _. refl };
}

/// A struct whose fields are not looked at.
#[derive(Drop)]
pub struct AnyStruct;

impl FromNode for AnyStruct {
    ghost Shown = { Unit {0} };

    ghost shown = { λ _. tt };

    ghost read = { any_struct };

    fn from_node(_alloc: Global, value: &Value) -> R<AnyStruct> {
        match value {
            Value::Struct(_) => Ok(AnyStruct),
            _ => Err(Refusal::Thrift),
        }
    }

    fn from_unread(alloc: Global, value: Unread<'_>) -> R<(AnyStruct, usize)> {
        let used = pass_struct(alloc, value)?;
        Ok((AnyStruct, used))
    }

    ghost no_flags = { λ _. refl };
}

/// The value of the last field with this id; None if there is no such field. Refused Thrift if one of them is of
/// another type.
pub fn known_as<T: FromNode>(alloc: Global, fields: &[Field], id: i16) -> R<Option<T>>
    ensures stands { IsRecordOf (option_map T.shown) (known T.read id (field_views fields.now)) result }
{
    let mut found: Option<T> = None;
    for field in fields {
        if field.id == id {
            let value = T::from_node(alloc, &field.value)?;
            found = Some(value);
        }
    }
    Ok(found)
}

impl<T: FromNode> FromNode for Vec<T> {
    ghost Shown = { List T.Shown };

    ghost shown = { λ v. map T.shown v.items };

    ghost read = { list_by T.read };

    fn from_node(alloc: Global, value: &Value) -> R<Vec<T>> {
        match value {
            Value::List(_, values) => each_as(alloc, values.as_slice()),
            _ => Err(Refusal::Thrift),
        }
    }

    fn from_unread(alloc: Global, value: Unread<'_>) -> R<(Vec<T>, usize)> {
        read_items(alloc, value)
    }

    ghost no_flags = { λ _. refl };
}

/// The value of the last field with this id. Refused Thrift if there is no such field, or one of them is of another
/// type.
pub fn needed_as<T: FromNode>(alloc: Global, fields: &[Field], id: i16) -> R<T>
    ensures stands { IsRecordOf T.shown (needed T.read id (field_views fields.now)) result }
{
    match known_as(alloc, fields, id)? {
        Some(value) => Ok(value),
        None => Err(Refusal::Thrift),
    }
}

/// The values of a list, each of which is of this type. Memory is taken value by value as they are found to be
/// of it: a list of many small values of another type takes none.
fn each_as<T: FromNode>(alloc: Global, values: &[Value]) -> R<Vec<T>>
    ensures stands { IsRecordOf (λ v. map T.shown v.items) (each_of T.read (views values.now)) result }
{
    let mut items = Vec::new(alloc);
    for value in values {
        let item = T::from_node(alloc, value)?;
        items.push(item)?;
    }
    Ok(items)
}
